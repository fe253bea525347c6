// An edit in the optimising walk: removed, given a cheaper source, or kept; and an edit in the preparing walk. The rules are those of "an edit" in
// `rules/specs/Forward.antt`.
#![tactic(auto)]

ghost use Rattle.std.specs.Prelude.{◌≡◌, List, ℕ, ◌+◌, ◌<◌, length, get_or};
ghost use Rattle.laws.specs.Fold.{run};
ghost use Rattle.entity.specs.Limits.{edit_limit};
ghost use Rattle.rules.specs.Sheet.{Sheet};
ghost use Rattle.rules.specs.Record.{effect};
ghost use Rattle.rules.specs.Forward as Rule;
ghost use Rattle.rules.specs.Forward.{Walk, edits_at, optimise_move, optimise_edit};
ghost use Rattle.table.specs.Sheet.{sheet_in};
ghost use Rattle.table.specs.Index.{Ready};
ghost use Rattle.table.specs.Edits.{edits_in};
ghost use Rattle.record.specs.Flat.{record_of};
ghost use Rattle.holders.specs.Holders.{Filled, reg_found};
ghost use Rattle.moves.specs.Moves.{source_of, as_edit, source_for, fate_of, settled, fated_record, rewritten, SmallArrival, SmallFate};
ghost use Rattle.moves.specs.Walks.{Ordered, Written, Walked, Optimises};

use entity::forms::{Edit, Place};
use entity::numbers::{Block, EditRow, Inst, PhysReg, Value};
use graph::dominates;
use holders::{ALL, WORDS, in_memory, lowest_holding};
use record::flat::{NONE, WalkRecord};
use record::steps::is_home;
use table::counts::{Count, tally};
use table::edits::{read_edit, store_edit};
use table::index::edit_rows;

// What a move or remat meets: where it goes, where it comes from (a remat from nowhere), and its value.
#[derive(Clone, Copy)]
pub struct Arrival {
    pub to: Place,
    pub from: Option<Place>,
    pub value: Value,
}

// What becomes of it.
#[derive(Clone, Copy)]
pub enum Fate {
    Kept,
    Removed(Count),
    Sourced(PhysReg),
}

// The place already holds v.
#[tactic(auto, unfolding(rules::specs::Forward::already))]
fn already(rec: &WalkRecord, to: Place, v: Value) -> bool
    ensures { (sh : Sheet) → result ≡ Rule.already sh to v.0 (record_of rec.now) }
{
    match to {
        Place::Reg(r) => rec.holds(r, v),
        Place::Slot(s) => rec.stored(s) == v.0,
    }
}

// The place is v's home slot.
#[tactic(auto, unfolding(rules::specs::Forward::to_home))]
fn to_home(t: &[u32], to: Place, v: Value) -> bool
    ensures { result ≡ Rule.to_home (sheet_in t.now) to v.0 }
{
    match to {
        Place::Reg(_) => false,
        Place::Slot(s) => is_home(t, v, s),
    }
}

// The place is v's home slot, and v's last spilled block dominates block b.
#[tactic(auto, unfolding(rules::specs::Forward::spilled_above))]
fn spilled_above(t: &[u32], rec: &WalkRecord, b: Block, to: Place, v: Value) -> bool
    ensures { result ≡ Rule.spilled_above (sheet_in t.now) b.0 to v.0 (record_of rec.now) }
{
    let a = rec.spilled(v);
    a != NONE && to_home(t, to, v) && dominates(t, Block(a), b)
}

#[tactic(auto, unfolding(rules::specs::Forward::note_spill))]
fn note_spill(t: &[u32], rec: &mut WalkRecord, b: Block, to: Place, v: Value)
    ensures { record_of rec.new ≡ Rule.note_spill (sheet_in t.now) b.0 to v.0 (record_of rec.old) }
{
    if to_home(t, to, v) {
        rec.spill_in(b, v);
    }
}

// The count of a removal.
#[tactic(auto, unfolding(rules::specs::Forward::removal, crate::specs::Moves::source_of))]
fn removal(t: &[u32], to: Place, from: Option<Place>) -> Count
    ensures { result.0 ≡ Rule.removal (sheet_in t.now) to (source_of «from») }
{
    match to {
        Place::Slot(_) => Count::REDUNDANT_SPILL,
        Place::Reg(_) => match from {
            None => Count::REDUNDANT_REMAT,
            Some(p) if in_memory(t, p) => Count::REDUNDANT_RELOAD,
            Some(_) => Count::REDUNDANT_MOVE,
        },
    }
}

// The register that takes the place of a source in memory.
#[tactic(auto, using(crate::proofs::Deciding::no_source, crate::proofs::Deciding::memory_source, crate::proofs::Deciding::kept_source))]
fn new_source(
    t: &[u32],
    rec: &WalkRecord,
    classes: &[u64; WORDS],
    from: Option<Place>,
    v: Value,
) -> Option<PhysReg>
    ensures { Ready t.now → Filled (sheet_in t.now) classes.now
        → result ≡ reg_found (source_for (sheet_in t.now) (source_of «from») v.0 (record_of rec.now)) }
{
    match from {
        Some(p) if in_memory(t, p) => lowest_holding(t, rec, classes, ALL, v),
        _ => None,
    }
}

// What becomes of a move or remat in block b.
#[tactic(auto, unfolding(crate::specs::Moves::fate_of), using(crate::proofs::Deciding::found_reg, crate::proofs::Deciding::found_none))]
fn decide(t: &[u32], rec: &WalkRecord, classes: &[u64; WORDS], b: Block, a: Arrival) -> Fate
    ensures { Ready t.now → Filled (sheet_in t.now) classes.now → result ≡ fate_of (sheet_in t.now) b.0 a (record_of rec.now) }
{
    if already(rec, a.to, a.value) || spilled_above(t, rec, b, a.to, a.value) {
        return Fate::Removed(removal(t, a.to, a.from));
    }
    match new_source(t, rec, classes, a.from, a.value) {
        Some(r) => Fate::Sourced(r),
        None => Fate::Kept,
    }
}

// Row j of the edits and the counts, as it comes.
fn rewrite(edits: &mut [u32], counts: &mut [u32], j: EditRow, a: Arrival, fate: Fate)
    ensures { SmallArrival a → SmallFate fate → (t places : List ℕ) (n : ℕ) (w : Walk) → j.0 < length (sheet_in t).edits
        → Written t edits.old places counts.old (n + 1) w
        → Written t edits.new places counts.new n (rewritten j.0 a fate w) }
{
    match fate {
        Fate::Kept => {}
        Fate::Removed(k) => {
            store_edit(edits, j, Edit::Nothing);
            tally(counts, k);
        }
        Fate::Sourced(r) => {
            let edit = Edit::Move {
                to: a.to,
                from: Place::reg(r),
                value: a.value,
            };
            store_edit(edits, j, edit);
            tally(counts, Count::RELOAD_TO_MOVE);
        }
    }
}

// The record after a move or remat that stays.
#[tactic(auto, unfolding(crate::specs::Moves::settled))]
fn settle(t: &[u32], rec: &mut WalkRecord, b: Block, a: Arrival)
    ensures { record_of rec.new ≡ settled (sheet_in t.now) b.0 a (record_of rec.old) }
{
    note_spill(t, rec, b, a.to, a.value);
    rec.arrive(t, a.value, a.to);
}

#[tactic(auto, unfolding(crate::specs::Moves::fated_record))]
fn record_fate(t: &[u32], rec: &mut WalkRecord, b: Block, a: Arrival, fate: Fate)
    ensures { record_of rec.new ≡ fated_record (sheet_in t.now) b.0 a fate (record_of rec.old) }
{
    match fate {
        Fate::Removed(_) => {}
        Fate::Kept | Fate::Sourced(_) => settle(t, rec, b, a),
    }
}

// A move or remat, row j of the edits.
// Stays: the parameters one by one, here and below; a struct of all the tables would lend the places, which no edit reads, and promise of each call that they stay: no plainer.
fn optimise_move(
    t: &[u32],
    rec: &mut WalkRecord,
    classes: &[u64; WORDS],
    edits: &mut [u32],
    counts: &mut [u32],
    b: Block,
    j: EditRow,
    a: Arrival,
)
    ensures { Ready t.now → Filled (sheet_in t.now) classes.now → (places : List ℕ) (n : ℕ) (w : Walk) → j.0 < length (sheet_in t.now).edits
        → get_or w.edits j.0 Edit.Nothing ≡ as_edit a
        → Walked t.now rec.old edits.old places counts.old (n + 1) w
        → Walked t.now rec.new edits.new places counts.new n (optimise_move (sheet_in t.now) b.0 j.0 a.to (source_of a.from) a.value.0 (as_edit a) w) }
{
    let fate = decide(t, rec, classes, b, a);
    rewrite(edits, counts, j, a, fate);
    record_fate(t, rec, b, a, fate);
}

// An edit, row j.
fn optimise_edit(
    t: &[u32],
    rec: &mut WalkRecord,
    classes: &[u64; WORDS],
    edits: &mut [u32],
    counts: &mut [u32],
    b: Block,
    j: EditRow,
)
    ensures { Optimises t.now classes.now rec.old edits.old counts.old rec.new edits.new counts.new b.0 j.0 }
{
    let e = read_edit(edits, j);
    match e {
        Edit::Move { to, from, value } => {
            let a = Arrival {
                to,
                from: Some(from),
                value,
            };
            optimise_move(t, rec, classes, edits, counts, b, j, a)
        }
        Edit::Remat { to, value } => {
            let a = Arrival {
                to,
                from: None,
                value,
            };
            optimise_move(t, rec, classes, edits, counts, b, j, a)
        }
        _ => rec.effect(t, e),
    }
}

// An edit with the record by value.
fn stepped(
    mut rec: WalkRecord,
    t: &[u32],
    classes: &[u64; WORDS],
    edits: &mut [u32],
    counts: &mut [u32],
    b: Block,
    j: EditRow,
) -> WalkRecord
    ensures { Optimises t.now classes.now rec edits.old counts.old result edits.new counts.new b.0 j.0 }
{
    optimise_edit(t, &mut rec, classes, edits, counts, b, j);
    rec
}

// The record is lent to one edit step.
fn step(
    rec: &mut WalkRecord,
    t: &[u32],
    classes: &[u64; WORDS],
    edits: &mut [u32],
    counts: &mut [u32],
    b: Block,
    j: EditRow,
)
    ensures lent { Optimises t.now classes.now rec.old edits.old counts.old rec.new edits.new counts.new b.0 j.0 }
{
    *rec = stepped(*rec, t, classes, edits, counts, b, j);
}

// The edits at instruction i, in list order.
pub fn optimise_edits(
    t: &[u32],
    rec: &mut WalkRecord,
    classes: &[u64; WORDS],
    edits: &mut [u32],
    counts: &mut [u32],
    b: Block,
    i: Inst,
)
    ensures { Ordered t.now → Filled (sheet_in t.now) classes.now → (places : List ℕ) (n : ℕ) (w : Walk)
        → Walked t.now rec.old edits.old places counts.old (n + edit_limit) w
        → Walked t.now rec.new edits.new places counts.new n (run (optimise_edit (sheet_in t.now) b.0) w (edits_at (sheet_in t.now) i.0)) }
{
    let rows = edit_rows(t, i);
    for j in rows.from..rows.to {
        step(rec, t, classes, edits, counts, b, EditRow(j));
    }
}

// The same in the preparing walk, which alters no edit.
pub fn prepare_edits(t: &[u32], rec: &mut WalkRecord, edits: &[u32], i: Inst)
    ensures { Ordered t.now → record_of rec.new ≡ run (λ u j. effect (sheet_in t.now) (get_or (edits_in edits.now (length (sheet_in t.now).edits)) j Edit.Nothing) u) (record_of rec.old) (edits_at (sheet_in t.now) i.0) }
{
    let rows = edit_rows(t, i);
    for j in rows.from..rows.to {
        rec.effect(t, read_edit(edits, EditRow(j)));
    }
}
