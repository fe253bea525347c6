// Refusal 3: each row names what there is, no list has one thing twice, and no two groups share class and first register.
// Units are below 128 and numbers that exist below 256, as the limits hold: sets hold them all.
ghost use Rattle.std.specs.Prelude.{◌≡◌, true, not, ◌&&◌, ◌+◌, ltb, get_or, drop};
ghost use Rattle.std.proofs.Math.Option.{Option-elim};
ghost use Rattle.laws.specs.Lists.{all, any, twice};
ghost use Rattle.bits.specs.Sets.{has, set_of, set_limit};
ghost use Rattle.rules.specs.Sheet.{list_row, class_row, home_of, values_of, block_row};
ghost use Rattle.rules.specs.Accept.{unit_exists, reg_exists, class_exists, value_exists, vgroup_exists, block_exists, slot_exists, place_exists, subject_exists, constraint_exists, edit_names, within_limits, all_named, none_twice, headed_by, heads_apart, names_hold};
ghost use Rattle.table.specs.Rows.{kind_row};
ghost use Rattle.table.specs.Sheet.{rows_at, sheet_in};
ghost use Rattle.table.specs.View.{group_row, param_row, op_row, edit_row};
ghost use Rattle.names.specs.Steps.{group_named, edge_named, param_named, op_named, clob_named, edit_named, machine_named, code_named};

use crate::limits::inst_total;
use crate::lists::{all_below, all_in, stands_twice, with_all};
use bits::sets::NumberSet;
use bits::tables::read;
use entity::forms::{Constraint, Edit, OperandKind, Place};
use entity::numbers::{
    Block, EditRow, OperandRow, ParamRow, PhysReg, RegClass, RegGroup, SpillSlot, Value, ValueGroup,
};
use entity::sets::UnitSet;
use operands::headed_by;
use table::edits::sheet_edit;
use table::rows::{Kind, count, rest, row_of};
use table::view::{
    edit_at, group_class, group_regs, group_values, home, idom, members, operand_at, param_at,
    slot_count, units,
};

// Stays: the five that follow differ in the type of their number and in its kind; a trait that gives each type its kind is no plainer.
fn reg_exists(t: &[u32], r: PhysReg) -> bool
    ensures { result ≡ reg_exists (sheet_in t.now) r.0 }
{
    r.0 < count(t, Kind::REG)
}

fn class_exists(t: &[u32], c: RegClass) -> bool
    ensures { result ≡ class_exists (sheet_in t.now) c.0 }
{
    c.0 < count(t, Kind::CLASS)
}

fn value_exists(t: &[u32], v: Value) -> bool
    ensures { result ≡ value_exists (sheet_in t.now) v.0 }
{
    v.0 < count(t, Kind::VALUE)
}

fn vgroup_exists(t: &[u32], g: ValueGroup) -> bool
    ensures { result ≡ vgroup_exists (sheet_in t.now) g.0 }
{
    g.0 < count(t, Kind::VGROUP)
}

fn block_exists(t: &[u32], b: Block) -> bool
    ensures { result ≡ block_exists (sheet_in t.now) b.0 }
{
    b.0 < count(t, Kind::BLOCK)
}

fn slot_exists(t: &[u32], s: SpillSlot) -> bool
    ensures { result ≡ slot_exists (sheet_in t.now) s.0 }
{
    s.0 < slot_count(t)
}

fn place_exists(t: &[u32], p: Place) -> bool
    ensures { result ≡ place_exists (sheet_in t.now) p }
{
    match p {
        Place::Reg(r) => reg_exists(t, r),
        Place::Slot(s) => slot_exists(t, s),
    }
}

fn subject_exists(t: &[u32], k: OperandKind) -> bool
    ensures { result ≡ subject_exists (sheet_in t.now) k }
{
    match k {
        OperandKind::Def(v) | OperandKind::Use(v) | OperandKind::EarlyDef(v) => value_exists(t, v),
        OperandKind::DefGroup(g) | OperandKind::UseGroup(g) | OperandKind::EarlyDefGroup(g) => {
            vgroup_exists(t, g)
        }
        OperandKind::NonAllocatable => true,
    }
}

// A reuse of an absent operand is left to refusal 5.
fn constraint_exists(t: &[u32], c: Constraint) -> bool
    ensures { result ≡ constraint_exists (sheet_in t.now) c }
{
    match c {
        Constraint::Class(c) => class_exists(t, c),
        Constraint::Fixed(r) => reg_exists(t, r),
        Constraint::Reuse(_) => true,
    }
}

fn edit_names(t: &[u32], e: Edit) -> bool
    ensures { result ≡ edit_names (sheet_in t.now) e }
{
    match e {
        Edit::Move { to, from, value } => {
            place_exists(t, to) && place_exists(t, from) && value_exists(t, value)
        }
        Edit::Remat { to, value } => place_exists(t, to) && value_exists(t, value),
        Edit::Espill { to, from } => slot_exists(t, to) && reg_exists(t, from),
        Edit::Ereload { to, from } => reg_exists(t, to) && slot_exists(t, from),
        Edit::Misplaced { to, from } => place_exists(t, to) && place_exists(t, from),
        Edit::Nothing => true,
    }
}

// The units that a register has.
fn all_units(t: &[u32]) -> UnitSet
    ensures { result.0 ≡ set_of (unit_exists (sheet_in t.now)) }
{
    let mut seen = NumberSet::empty();
    for r in 0..count(t, Kind::REG) {
        seen = with_all(seen, units(t, PhysReg(r)));
    }
    UnitSet::of(seen)
}

fn class_named(t: &[u32], c: RegClass) -> bool
    ensures { result ≡ all (reg_exists (sheet_in t.now)) (class_row (sheet_in t.now) c.0).members }
{
    all_below(members(t, c), count(t, Kind::REG))
}

fn classes_named(t: &[u32]) -> bool
    ensures { result ≡ all (λ c. all (reg_exists (sheet_in t.now)) c.members) (sheet_in t.now).classes }
{
    (0..count(t, Kind::CLASS)).all(|c| class_named(t, RegClass(c)))
}

fn group_named(t: &[u32], g: RegGroup) -> bool
    ensures { result ≡ group_named (sheet_in t.now) (group_row (sheet_in t.now) g.0) }
{
    class_exists(t, group_class(t, g)) && all_below(group_regs(t, g), count(t, Kind::REG))
}

fn groups_named(t: &[u32]) -> bool
    ensures { result ≡ all (group_named (sheet_in t.now)) (sheet_in t.now).groups }
{
    (0..count(t, Kind::GROUP)).all(|g| group_named(t, RegGroup(g)))
}

fn home_named(t: &[u32], v: Value) -> bool
    ensures { result ≡ Option-elim (home_of (sheet_in t.now) v.0) true (slot_exists (sheet_in t.now)) }
{
    match home(t, v) {
        Some(s) => slot_exists(t, s),
        None => true,
    }
}

fn homes_named(t: &[u32]) -> bool
    ensures { result ≡ all (λ h. Option-elim h true (slot_exists (sheet_in t.now))) (sheet_in t.now).values }
{
    (0..count(t, Kind::VALUE)).all(|v| home_named(t, Value(v)))
}

fn vgroup_named(t: &[u32], g: ValueGroup) -> bool
    ensures { result ≡ all (value_exists (sheet_in t.now)) (values_of (sheet_in t.now) g.0) }
{
    all_below(group_values(t, g), count(t, Kind::VALUE))
}

fn vgroups_named(t: &[u32]) -> bool
    ensures { result ≡ all (λ g. all (value_exists (sheet_in t.now)) g) (sheet_in t.now).vgroups }
{
    (0..count(t, Kind::VGROUP)).all(|g| vgroup_named(t, ValueGroup(g)))
}

fn idom_named(t: &[u32], b: Block) -> bool
    ensures { result ≡ Option-elim (block_row (sheet_in t.now) b.0).idom true (block_exists (sheet_in t.now)) }
{
    match idom(t, b) {
        Some(i) => block_exists(t, i),
        None => true,
    }
}

fn idoms_named(t: &[u32]) -> bool
    ensures { result ≡ all (λ b. Option-elim b.idom true (block_exists (sheet_in t.now))) (sheet_in t.now).blocks }
{
    (0..count(t, Kind::BLOCK)).all(|b| idom_named(t, Block(b)))
}

// A `succ` or `pred` row.
fn edge_named(t: &[u32], row: &[u32]) -> bool
    ensures { result ≡ edge_named (sheet_in t.now) (list_row row.now) }
{
    block_exists(t, Block(read(row, 1, 0))) && all_below(rest(row, 2), count(t, Kind::BLOCK))
}

// The rows of one of these kinds.
fn edges_named(t: &[u32], k: Kind) -> bool
    ensures { result ≡ all (λ r. edge_named (sheet_in t.now) (list_row r)) (rows_at t.now k.0) }
{
    (0..count(t, k)).all(|n| edge_named(t, row_of(t, k, n)))
}

fn param_named(t: &[u32], n: ParamRow) -> bool
    ensures { result ≡ param_named (sheet_in t.now) (param_row (sheet_in t.now) n.0) }
{
    let p = param_at(t, n);
    block_exists(t, p.at) && value_exists(t, p.value) && place_exists(t, p.place)
}

fn params_named(t: &[u32]) -> bool
    ensures { result ≡ all (param_named (sheet_in t.now)) (sheet_in t.now).params }
{
    (0..count(t, Kind::PARAM)).all(|n| param_named(t, ParamRow(n)))
}

// Where there are `insts` instructions; so below.
fn op_named(t: &[u32], insts: u32, n: OperandRow) -> bool
    ensures { result ≡ op_named (sheet_in t.now) insts (op_row (sheet_in t.now) n.0) }
{
    let o = operand_at(t, n);
    o.at.0 < insts
        && subject_exists(t, o.kind)
        && constraint_exists(t, o.constraint)
        && place_exists(t, o.place)
}

fn ops_named(t: &[u32], insts: u32) -> bool
    ensures { result ≡ all (op_named (sheet_in t.now) insts) (sheet_in t.now).ops }
{
    (0..count(t, Kind::OP)).all(|n| op_named(t, insts, OperandRow(n)))
}

fn clob_named(t: &[u32], insts: u32, units: UnitSet, n: u32) -> bool
    ensures { result ≡ clob_named (has units.0) insts (list_row (kind_row t.now 11 n)) }
{
    let row = row_of(t, Kind::CLOB, n);
    read(row, 1, 0) < insts && all_in(rest(row, 2), units.0)
}

fn clobs_named(t: &[u32], insts: u32, units: UnitSet) -> bool
    ensures { result ≡ all (clob_named (has units.0) insts) (sheet_in t.now).clobs }
{
    (0..count(t, Kind::CLOB)).all(|n| clob_named(t, insts, units, n))
}

fn edit_named(t: &[u32], insts: u32, n: EditRow) -> bool
    ensures { result ≡ edit_named (sheet_in t.now) insts (edit_row (sheet_in t.now) n.0) }
{
    edit_at(t, n).0 < insts && edit_names(t, sheet_edit(t, n))
}

fn edits_named(t: &[u32], insts: u32) -> bool
    ensures { result ≡ all (edit_named (sheet_in t.now) insts) (sheet_in t.now).edits }
{
    (0..count(t, Kind::EDIT)).all(|n| edit_named(t, insts, EditRow(n)))
}

fn machine_named(t: &[u32]) -> bool
    ensures { result ≡ machine_named (sheet_in t.now) }
{
    classes_named(t) && groups_named(t) && homes_named(t) && vgroups_named(t)
}

fn code_named(t: &[u32], insts: u32, units: UnitSet) -> bool
    ensures { result ≡ code_named (sheet_in t.now) (has units.0) insts }
{
    ops_named(t, insts) && clobs_named(t, insts, units) && edits_named(t, insts)
}

// A row names nothing that is absent.
fn all_named(t: &[u32]) -> bool
    ensures { within_limits (sheet_in t.now) ≡ true → result ≡ all_named (sheet_in t.now) }
{
    machine_named(t)
        && idoms_named(t)
        && edges_named(t, Kind::SUCC)
        && edges_named(t, Kind::PRED)
        && params_named(t)
        && code_named(t, inst_total(t), all_units(t))
}

// No list of the kind, from field `from` on, has one thing twice.
fn none_twice_in(t: &[u32], k: Kind, from: usize) -> bool
    ensures { all (λ r. all (λ y. ltb y set_limit) (drop from r)) (rows_at t.now k.0) ≡ true → result ≡ all (λ r. not (twice (drop from r))) (rows_at t.now k.0) }
{
    (0..count(t, k)).all(|n| !stands_twice(rest(row_of(t, k, n), from)))
}

fn none_twice(t: &[u32]) -> bool
    ensures { within_limits (sheet_in t.now) ≡ true → all_named (sheet_in t.now) ≡ true → result ≡ none_twice (sheet_in t.now) }
{
    none_twice_in(t, Kind::REG, 3)
        && none_twice_in(t, Kind::CLASS, 3)
        && none_twice_in(t, Kind::GROUP, 3)
        && none_twice_in(t, Kind::VGROUP, 2)
        && none_twice_in(t, Kind::SUCC, 2)
        && none_twice_in(t, Kind::PRED, 2)
        && none_twice_in(t, Kind::CLOB, 2)
}

// No later group has the class and the first register of group g.
fn apart_from_later(t: &[u32], g: RegGroup) -> bool
    ensures { result ≡ not (any (headed_by (group_row (sheet_in t.now) g.0).class (get_or (group_row (sheet_in t.now) g.0).regs 0 0)) (drop (g.0 + 1) (sheet_in t.now).groups)) }
{
    let class = group_class(t, g);
    let reg = PhysReg(read(group_regs(t, g), 0, 0));
    !(g.0.saturating_add(1)..count(t, Kind::GROUP)).any(|h| headed_by(t, RegGroup(h), class, reg))
}

fn heads_apart(t: &[u32]) -> bool
    ensures { result ≡ heads_apart (sheet_in t.now).groups }
{
    (0..count(t, Kind::GROUP)).all(|g| apart_from_later(t, RegGroup(g)))
}

pub fn names_hold(t: &[u32]) -> bool
    ensures { within_limits (sheet_in t.now) ≡ true → result ≡ names_hold (sheet_in t.now) }
{
    all_named(t) && none_twice(t) && heads_apart(t)
}
