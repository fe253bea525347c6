// Refusal 2: the limits. It goes by the rows alone, before there is an index.
ghost use Rattle.std.specs.Prelude.{◌≡◌, cond, leb, ◌+◌, drop};
ghost use Rattle.laws.specs.Lists.{all};
ghost use Rattle.entity.specs.Limits.{inst_limit};
ghost use Rattle.rules.specs.Sheet.{inst_count};
ghost use Rattle.rules.specs.Accept.{units_within, reuse_within, within_limits};
ghost use Rattle.table.specs.Sheet.{rows_at, sheet_in};
ghost use Rattle.names.specs.Steps.{machine_within};

use crate::lists::all_below;
use bits::tables::read;
use entity::forms::Constraint;
use entity::numbers::{
    Block, EditRow, Inst, OperandIndex, OperandRow, PhysReg, RegClass, RegGroup, RegUnit,
    SpillSlot, Value, ValueGroup,
};
use table::rows::{Kind, count, rest, row_of};
use table::view::{constraint_of, inst_count, slot_count};

fn units_within(list: &[u32]) -> bool
    ensures { result ≡ units_within list.now }
{
    all_below(list, RegUnit::LIMIT)
}

fn reuse_within(c: Constraint) -> bool
    ensures { result ≡ reuse_within c }
{
    match c {
        Constraint::Reuse(k) => k.0 < OperandIndex::LIMIT,
        _ => true,
    }
}

// The lists of units, from field `from` on, in the rows of a kind.
fn lists_within(t: &[u32], k: Kind, from: usize) -> bool
    ensures { result ≡ all (λ r. units_within (drop from r)) (rows_at t.now k.0) }
{
    (0..count(t, k)).all(|n| units_within(rest(row_of(t, k, n), from)))
}

fn ops_within(t: &[u32]) -> bool
    ensures { result ≡ all (λ x. reuse_within x.constraint) (sheet_in t.now).ops }
{
    (0..count(t, Kind::OP)).all(|n| {
        let row = row_of(t, Kind::OP, n);
        reuse_within(constraint_of(read(row, 4, 0)))
    })
}

// The instructions of all blocks, or one more than the limit where they pass it.
pub(crate) fn inst_total(t: &[u32]) -> u32
    ensures { result ≡ cond (leb (inst_count (sheet_in t.now)) inst_limit) (inst_count (sheet_in t.now)) (inst_limit + 1) }
{
    let mut sum: u32 = 0;
    for b in 0..count(t, Kind::BLOCK) {
        let n = inst_count(t, Block(b));
        if Inst::LIMIT - sum < n {
            return Inst::LIMIT + 1;
        }
        sum += n;
    }
    sum
}

// Slots, registers and their units, classes, register groups, values and value groups.
fn machine_within(t: &[u32]) -> bool
    ensures { result ≡ machine_within (sheet_in t.now) }
{
    slot_count(t) <= SpillSlot::LIMIT
        && count(t, Kind::REG) <= PhysReg::LIMIT
        && lists_within(t, Kind::REG, 3)
        && count(t, Kind::CLASS) <= RegClass::LIMIT
        && count(t, Kind::GROUP) <= RegGroup::LIMIT
        && count(t, Kind::VALUE) <= Value::LIMIT
        && count(t, Kind::VGROUP) <= ValueGroup::LIMIT
}

pub fn within_limits(t: &[u32]) -> bool
    ensures { result ≡ within_limits (sheet_in t.now) }
{
    machine_within(t)
        && count(t, Kind::BLOCK) <= Block::LIMIT
        && inst_total(t) <= Inst::LIMIT
        && count(t, Kind::OP) <= OperandRow::LIMIT
        && ops_within(t)
        && lists_within(t, Kind::CLOB, 2)
        && count(t, Kind::EDIT) <= EditRow::LIMIT
}
