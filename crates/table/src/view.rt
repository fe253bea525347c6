// What a sheet says, read off its table: typed and total. Past what there is, a list is empty, a number 0 and a flag false.
ghost use Rattle.std.specs.Prelude.{◌≡◌, cond, [], ltb, drop};
ghost use Rattle.rules.specs.Sheet.{place_of, constraint_of, kind_of, units_of, is_memory, class_row, home_of, values_of, block_row, clobbers_of};
ghost use Rattle.table.specs.Rows.{kind_row};
ghost use Rattle.table.specs.Sheet.{sheet_in};
ghost use Rattle.table.specs.Index.{Ready};
ghost use Rattle.table.specs.View.{group_row, param_row, op_row, edit_row, slot_found, block_found, param_of, operand_of};

use crate::index::{Range, clob_rows};
use crate::rows::{Kind, count, rest, row_of};
use bits::tables::read;
use entity::cells::{Mark, Word};
use entity::forms::{Constraint, OperandKind, Place};
use entity::numbers::{
    Block, EditRow, Inst, OperandIndex, OperandRow, ParamRow, PhysReg, RegClass, RegGroup,
    SpillSlot, Value, ValueGroup,
};

// Stays: the accessors that follow are public and named in docs/PROMISES.md, each of its own type of number.
pub fn slot_count(t: &[u32]) -> u32
    ensures { result ≡ (sheet_in t.now).slots }
{
    read(row_of(t, Kind::SLOTS, 0), 1, 0)
}

pub fn units(t: &[u32], r: PhysReg) -> &[u32]
    ensures { result.now ≡ units_of (sheet_in t.now) r.0 }
{
    rest(row_of(t, Kind::REG, r.0), 3)
}

pub fn is_memory(t: &[u32], r: PhysReg) -> bool
    ensures { result ≡ is_memory (sheet_in t.now) r.0 }
{
    read(row_of(t, Kind::REG, r.0), 2, 0) == 1
}

pub fn members(t: &[u32], c: RegClass) -> &[u32]
    ensures { result.now ≡ (class_row (sheet_in t.now) c.0).members }
{
    rest(row_of(t, Kind::CLASS, c.0), 3)
}

pub fn class_slots(t: &[u32], c: RegClass) -> bool
    ensures { result ≡ (class_row (sheet_in t.now) c.0).slots }
{
    read(row_of(t, Kind::CLASS, c.0), 2, 0) == 1
}

pub fn group_class(t: &[u32], g: RegGroup) -> RegClass
    ensures { result.0 ≡ (group_row (sheet_in t.now) g.0).class }
{
    RegClass(read(row_of(t, Kind::GROUP, g.0), 2, 0))
}

pub fn group_regs(t: &[u32], g: RegGroup) -> &[u32]
    ensures { result.now ≡ (group_row (sheet_in t.now) g.0).regs }
{
    rest(row_of(t, Kind::GROUP, g.0), 3)
}

pub fn home(t: &[u32], v: Value) -> Option<SpillSlot>
    ensures { result ≡ slot_found (home_of (sheet_in t.now) v.0) }
{
    if count(t, Kind::VALUE) <= v.0 {
        return None;
    }
    let c = read(row_of(t, Kind::VALUE, v.0), 2, 0);
    if c == Word::DASH {
        return None;
    }
    Some(SpillSlot(c))
}

pub fn group_values(t: &[u32], g: ValueGroup) -> &[u32]
    ensures { result.now ≡ values_of (sheet_in t.now) g.0 }
{
    rest(row_of(t, Kind::VGROUP, g.0), 2)
}

pub fn inst_count(t: &[u32], b: Block) -> u32
    ensures { result ≡ (block_row (sheet_in t.now) b.0).instructions }
{
    read(row_of(t, Kind::BLOCK, b.0), 2, 0)
}

pub fn idom(t: &[u32], b: Block) -> Option<Block>
    ensures { result ≡ block_found (block_row (sheet_in t.now) b.0).idom }
{
    if count(t, Kind::BLOCK) <= b.0 {
        return None;
    }
    let c = read(row_of(t, Kind::BLOCK, b.0), 3, 0);
    if c == Word::DASH {
        return None;
    }
    Some(Block(c))
}

pub fn is_entry(t: &[u32], b: Block) -> bool
    ensures { result ≡ (block_row (sheet_in t.now) b.0).entry }
{
    read(row_of(t, Kind::BLOCK, b.0), 4, 0) == 1
}

// The list of the one row that a range has, if any.
fn list(t: &[u32], k: Kind, rows: Range) -> &[u32]
    ensures { result.now ≡ cond (ltb rows.from rows.to) (drop 2 (kind_row t.now k.0 rows.from)) [] }
{
    if rows.from < rows.to {
        return rest(row_of(t, k, rows.from), 2);
    }
    &t[0..0]
}

pub fn clobbers(t: &[u32], i: Inst) -> &[u32]
    ensures { Ready t.now → result.now ≡ clobbers_of (sheet_in t.now) i.0 }
{
    list(t, Kind::CLOB, clob_rows(t, i))
}

#[tactic(auto, unfolding(rules::specs::Sheet::place_of))]
// Stays: this and the two that follow are public and named in docs/PROMISES.md; `From` would say the same beside them.
pub fn place_of(c: u32) -> Place
    ensures { result ≡ place_of c }
{
    if c < Mark::SLOT {
        Place::reg(PhysReg(c.saturating_sub(Mark::REG)))
    } else {
        Place::slot(SpillSlot(c.saturating_sub(Mark::SLOT)))
    }
}

#[tactic(auto, unfolding(rules::specs::Sheet::constraint_of))]
pub fn constraint_of(c: u32) -> Constraint
    ensures { result ≡ constraint_of c }
{
    if c < Mark::FIXED {
        return Constraint::Class(RegClass(c.saturating_sub(Mark::CLASS)));
    }
    if c < Mark::REUSE {
        return Constraint::Fixed(PhysReg(c.saturating_sub(Mark::FIXED)));
    }
    Constraint::Reuse(OperandIndex(c.saturating_sub(Mark::REUSE)))
}

#[tactic(auto, unfolding(rules::specs::Sheet::kind_of, rules::specs::Cells::word, rules::specs::Cells::words, rules::specs::Cells::find))]
pub fn kind_of(k: u32, v: u32) -> OperandKind
    ensures { result ≡ kind_of k v }
{
    match k {
        Word::DEF => OperandKind::Def(Value(v)),
        Word::USE => OperandKind::Use(Value(v)),
        Word::EARLY => OperandKind::EarlyDef(Value(v)),
        Word::DEFG => OperandKind::DefGroup(ValueGroup(v)),
        Word::USEG => OperandKind::UseGroup(ValueGroup(v)),
        Word::EARLYG => OperandKind::EarlyDefGroup(ValueGroup(v)),
        _ => OperandKind::NonAllocatable,
    }
}

#[derive(Clone, Copy)]
pub struct Param {
    pub at: Block,
    pub value: Value,
    pub place: Place,
}

pub fn param_at(t: &[u32], n: ParamRow) -> Param
    ensures { result ≡ param_of (param_row (sheet_in t.now) n.0) }
{
    let row = row_of(t, Kind::PARAM, n.0);
    Param {
        at: Block(read(row, 1, 0)),
        value: Value(read(row, 2, 0)),
        place: place_of(read(row, 3, 0)),
    }
}

#[derive(Clone, Copy)]
pub struct Operand {
    pub at: Inst,
    pub kind: OperandKind,
    pub constraint: Constraint,
    pub place: Place,
}

pub fn operand_at(t: &[u32], n: OperandRow) -> Operand
    ensures { result ≡ operand_of (op_row (sheet_in t.now) n.0) }
{
    let row = row_of(t, Kind::OP, n.0);
    Operand {
        at: Inst(read(row, 1, 0)),
        kind: kind_of(read(row, 2, 0), read(row, 3, 0)),
        constraint: constraint_of(read(row, 4, 0)),
        place: place_of(read(row, 5, 0)),
    }
}

pub fn edit_at(t: &[u32], n: EditRow) -> Inst
    ensures { result.0 ≡ (edit_row (sheet_in t.now) n.0).at }
{
    Inst(read(row_of(t, Kind::EDIT, n.0), 1, 0))
}
