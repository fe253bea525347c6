// What several stages ask of an operand: the fields of its row, the operand that it reuses, its class, and the register group that it begins.
#![tactic(auto)]

ghost use Rattle.std.specs.Prelude.{◌≡◌};
ghost use Rattle.rules.specs.Sheet.{Sheet, is_early};
ghost use Rattle.rules.specs.Accept.{operand, class_of, class_for, headed_by};
ghost use Rattle.rules.specs.Forward.{group_regs};
ghost use Rattle.table.specs.Sheet.{sheet_in};
ghost use Rattle.table.specs.Index.{Ready};
ghost use Rattle.table.specs.View.{op_row, group_row};
ghost use Rattle.operands.specs.Operands.{as_row, operand_found, class_found, reused_class};

use bits::tables::read;
use entity::forms::{Constraint, OperandKind, Place};
use entity::numbers::{OperandIndex, OperandRow, PhysReg, RegClass, RegGroup};
use table::index::op_rows;
use table::rows::{Kind, count, row_of};
use table::view::{Operand, constraint_of, kind_of, operand_at, place_of};

// The fields of row n of the operands.
pub fn kind_at(t: &[u32], n: OperandRow) -> OperandKind
    ensures { result ≡ (op_row (sheet_in t.now) n.0).kind }
{
    let row = row_of(t, Kind::OP, n.0);
    kind_of(read(row, 2, 0), read(row, 3, 0))
}

pub fn constraint_at(t: &[u32], n: OperandRow) -> Constraint
    ensures { result ≡ (op_row (sheet_in t.now) n.0).constraint }
{
    constraint_of(read(row_of(t, Kind::OP, n.0), 4, 0))
}

pub fn place_at(t: &[u32], n: OperandRow) -> Place
    ensures { result ≡ (op_row (sheet_in t.now) n.0).place }
{
    place_of(read(row_of(t, Kind::OP, n.0), 5, 0))
}

// The kind is of an early definition.
#[tactic(auto, unfolding(rules::specs::Sheet::is_early))]
pub fn is_early(k: OperandKind) -> bool
    ensures { result ≡ is_early k }
{
    matches!(k, OperandKind::EarlyDef(_) | OperandKind::EarlyDefGroup(_))
}

// Operand k of the instruction of an operand.
pub fn operand(t: &[u32], o: Operand, k: OperandIndex) -> Option<Operand>
    ensures { Ready t.now → result ≡ operand_found (operand (sheet_in t.now) (as_row o) k.0) }
{
    let rows = op_rows(t, o.at);
    if rows.to.saturating_sub(rows.from) <= k.0 {
        return None;
    }
    Some(operand_at(t, OperandRow(rows.from + k.0)))
}

// The class of a class constraint.
#[tactic(auto, unfolding(rules::specs::Accept::class_of, crate::specs::Operands::class_found))]
fn class_of(c: Constraint) -> Option<RegClass>
    ensures { (sh : Sheet) → result ≡ class_found (class_of sh c) }
{
    match c {
        Constraint::Class(c) => Some(c),
        _ => None,
    }
}

// The class of operand k of the instruction of an operand.
fn reused_class(t: &[u32], o: Operand, k: OperandIndex) -> Option<RegClass>
    ensures { Ready t.now → result ≡ class_found (reused_class (sheet_in t.now) (as_row o) k.0) }
{
    let Some(u) = operand(t, o, k) else {
        return None;
    };
    class_of(u.constraint)
}

// The class of an operand: for a reuse, the reused operand's.
pub fn class_for(t: &[u32], o: Operand) -> Option<RegClass>
    ensures { Ready t.now → result ≡ class_found (class_for (sheet_in t.now) (as_row o)) }
{
    match o.constraint {
        Constraint::Reuse(k) => reused_class(t, o, k),
        c => class_of(c),
    }
}

// The group is of class c and begins with register r.
pub fn headed_by(t: &[u32], g: RegGroup, c: RegClass, r: PhysReg) -> bool
    ensures { result ≡ headed_by c.0 r.0 (group_row (sheet_in t.now) g.0) }
{
    let row = row_of(t, Kind::GROUP, g.0);
    read(row, 2, 0) == c.0 && read(row, 3, 0) == r.0
}

// The group of class c that begins with register r, or one past the last.
// Stays: public; one past the last group is a group without registers, which is what its clause says.
pub fn group_headed(t: &[u32], c: RegClass, r: PhysReg) -> RegGroup
    ensures { Ready t.now → (group_row (sheet_in t.now) result.0).regs ≡ group_regs (sheet_in t.now) c.0 r.0 }
{
    let groups = count(t, Kind::GROUP);
    let found = (0..groups).find(|g| headed_by(t, RegGroup(*g), c, r));
    RegGroup(found.unwrap_or(groups))
}
