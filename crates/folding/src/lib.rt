// An instruction in the optimising walk, with its folds, and in the preparing walk.
#![tactic(auto)]

ghost use Rattle.std.specs.Prelude.{◌≡◌, Bool, ◌||◌, ℕ, ◌+◌};
ghost use mathlib.Core.List.{List, [], ◌∷◌, ◌++◌, flat_map};
ghost use Rattle.laws.specs.Fold.{run};
ghost use Rattle.laws.specs.Lists.{any};
ghost use Rattle.bits.specs.Sets.{set_of};
ghost use Rattle.entity.specs.Limits.{inst_limit, operand_limit};
ghost use Rattle.rules.specs.Sheet.{OpRow, is_early, subject_of};
ghost use Rattle.rules.specs.Accept.{operands_at};
ghost use Rattle.rules.specs.Forward.{Walk, early_defs, define_all, reused, fold_to, indexed, fold, optimise_inst, prepare_inst};
ghost use Rattle.table.specs.Layout.{op_index};
ghost use Rattle.table.specs.Sheet.{sheet_in};
ghost use Rattle.table.specs.Index.{Ready, range_in};
ghost use Rattle.table.specs.View.{op_row};
ghost use Rattle.record.specs.Flat.{record_of};
ghost use Rattle.holders.specs.Holders.{Filled, reg_found};
ghost use Rattle.moves.specs.Walks.{Walked};
ghost use Rattle.folding.specs.Folds.{reuses, may_fold, told, ops_in};

use bits::sets::NumberSet;
use bits::tables::store;
use definitions::{Pass, clobber, define_all};
use entity::forms::{Constraint, OperandKind, Place};
use entity::numbers::{Block, Inst, OperandRow, PhysReg, Value};
use holders::{WORDS, in_memory, lowest_holding};
use operands::{constraint_at, is_early, kind_at, place_at};
use record::flat::WalkRecord;
use table::counts::{Count, tally};
use table::edits::place_cell;
use table::index::{Range, op_rows};

// What is told of an instruction's operands in one pass: which are reused, whether one is an early definition, and whether one is a `use` in memory.
#[derive(Clone, Copy)]
struct Told {
    reused: NumberSet,
    early: bool,
    folds: bool,
}

fn with_reuse(s: NumberSet, c: Constraint) -> NumberSet
    ensures { (p : ℕ → Bool) → s ≡ set_of p → result ≡ set_of (λ k. p k || reuses k c) }
{
    match c {
        Constraint::Reuse(k) => s.insert(k.0),
        _ => s,
    }
}

// Row n is a `use` in memory.
#[tactic(auto, unfolding(crate::specs::Folds::may_fold, rules::specs::Sheet::is_use))]
fn may_fold(t: &[u32], n: OperandRow, k: OperandKind) -> bool
    ensures { k ≡ (op_row (sheet_in t.now) n.0).kind → result ≡ may_fold (sheet_in t.now) (op_row (sheet_in t.now) n.0) }
{
    match k {
        OperandKind::Use(_) => in_memory(t, place_at(t, n)),
        _ => false,
    }
}

// What is told with row n.
fn told_with(t: &[u32], past: Told, n: OperandRow) -> Told
    ensures { (os : List OpRow) → past ≡ told (sheet_in t.now) os → result ≡ told (sheet_in t.now) (os ++ (op_row (sheet_in t.now) n.0 ∷ [])) }
{
    let k = kind_at(t, n);
    Told {
        reused: with_reuse(past.reused, constraint_at(t, n)),
        early: past.early || is_early(k),
        folds: past.folds || may_fold(t, n, k),
    }
}

fn tell(t: &[u32], rows: Range) -> Told
    ensures { result ≡ told (sheet_in t.now) (ops_in (sheet_in t.now) rows) }
{
    let mut x = Told {
        reused: NumberSet::empty(),
        early: false,
        folds: false,
    };
    for n in rows.from..rows.to {
        x = told_with(t, x, OperandRow(n));
    }
    x
}

// The subject of a kind; 0 where there is none.
#[tactic(auto, unfolding(rules::specs::Sheet::subject_of))]
fn value_of(k: OperandKind) -> Value
    ensures { result.0 ≡ subject_of k }
{
    match k {
        OperandKind::Def(v) | OperandKind::Use(v) | OperandKind::EarlyDef(v) => v,
        OperandKind::DefGroup(g) | OperandKind::UseGroup(g) | OperandKind::EarlyDefGroup(g) => {
            Value(g.0)
        }
        OperandKind::NonAllocatable => Value(0),
    }
}

// The register that row n is folded to: a `use` in memory, of class constraint and not reused.
fn fold_to(
    t: &[u32],
    rec: &WalkRecord,
    classes: &[u64; WORDS],
    tied: bool,
    n: OperandRow,
) -> Option<PhysReg>
    ensures { Ready t.now → Filled (sheet_in t.now) classes.now → (k : ℕ)
        → tied ≡ reused (sheet_in t.now) (op_row (sheet_in t.now) n.0).at k
        → result ≡ reg_found (fold_to (sheet_in t.now) (op_row (sheet_in t.now) n.0) k (record_of rec.now)) }
{
    let k = kind_at(t, n);
    if tied || !may_fold(t, n, k) {
        return None;
    }
    match constraint_at(t, n) {
        Constraint::Class(c) => lowest_holding(t, rec, classes, c, value_of(k)),
        _ => None,
    }
}

// Row n is folded, if it can be.
// Stays: the parameters one by one, here and below; a struct of all the tables would lend the edits, which no fold reads, and promise of each call that they stay: no plainer.
fn fold(
    t: &[u32],
    rec: &WalkRecord,
    classes: &[u64; WORDS],
    places: &mut [u32],
    counts: &mut [u32],
    tied: bool,
    n: OperandRow,
)
    ensures { Ready t.now → Filled (sheet_in t.now) classes.now → (edits : List ℕ) (m k : ℕ) (w : Walk)
        → tied ≡ reused (sheet_in t.now) (op_row (sheet_in t.now) n.0).at k
        → Walked t.now rec.now edits places.old counts.old (m + 1) w
        → Walked t.now rec.now edits places.new counts.new m (fold (sheet_in t.now) w (k, n.0, op_row (sheet_in t.now) n.0)) }
{
    match fold_to(t, rec, classes, tied, n) {
        Some(r) => {
            store(places, n.0 as usize, place_cell(Place::reg(r)));
            tally(counts, Count::STACK_USE);
        }
        None => {}
    }
}

// The rows are folded, if one may be.
fn fold_all(
    t: &[u32],
    rec: &WalkRecord,
    classes: &[u64; WORDS],
    places: &mut [u32],
    counts: &mut [u32],
    x: Told,
    rows: Range,
)
    ensures { Ready t.now → Filled (sheet_in t.now) classes.now → (i : ℕ)
        → rows ≡ range_in t.now op_index inst_limit i → x ≡ told (sheet_in t.now) (ops_in (sheet_in t.now) rows)
        → (edits : List ℕ) (m : ℕ) (w : Walk)
        → Walked t.now rec.now edits places.old counts.old (m + operand_limit) w
        → Walked t.now rec.now edits places.new counts.new m (run (fold (sheet_in t.now)) w (indexed (sheet_in t.now) i)) }
{
    if !x.folds {
        return;
    }
    let reused = x.reused;
    for n in rows.from..rows.to {
        let k = n.saturating_sub(rows.from);
        let tied = reused.contains(k);
        fold(t, rec, classes, places, counts, tied, OperandRow(n));
    }
}

// The early definitions, if there are any.
#[tactic(auto, unfolding(definitions::specs::Definitions::taken), using(crate::proofs::Instructions::early_none))]
fn define_early(t: &[u32], rec: &mut WalkRecord, b: Block, some: bool, i: Inst)
    ensures { Ready t.now → some ≡ any (λ (o : OpRow). is_early o.kind) (operands_at (sheet_in t.now) i.0) → record_of rec.new ≡ define_all (sheet_in t.now) b.0 (flat_map (early_defs (sheet_in t.now)) (operands_at (sheet_in t.now) i.0)) (record_of rec.old) }
{
    if some {
        define_all(t, rec, b, Pass::Early, i);
    }
}

// Early definitions come first, then folding, then the others.
pub fn optimise_inst(
    t: &[u32],
    rec: &mut WalkRecord,
    classes: &[u64; WORDS],
    places: &mut [u32],
    counts: &mut [u32],
    b: Block,
    i: Inst,
)
    ensures { Ready t.now → Filled (sheet_in t.now) classes.now → (edits : List ℕ) (n : ℕ) (w : Walk)
        → Walked t.now rec.old edits places.old counts.old (n + operand_limit) w
        → Walked t.now rec.new edits places.new counts.new n (optimise_inst (sheet_in t.now) b.0 w i.0) }
{
    let rows = op_rows(t, i);
    let x = tell(t, rows);
    define_early(t, rec, b, x.early, i);
    fold_all(t, rec, classes, places, counts, x, rows);
    define_all(t, rec, b, Pass::Other, i);
    clobber(t, rec, i);
}

// The definitions in row order.
#[tactic(auto, unfolding(rules::specs::Forward::prepare_inst, definitions::specs::Definitions::taken))]
pub fn prepare_inst(t: &[u32], rec: &mut WalkRecord, b: Block, i: Inst)
    ensures { Ready t.now → record_of rec.new ≡ prepare_inst (sheet_in t.now) b.0 (record_of rec.old) i.0 }
{
    define_all(t, rec, b, Pass::All, i);
    clobber(t, rec, i);
}
