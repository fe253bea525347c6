// Refusal 5: the operand rules. What an operand names is there, as 3 holds.
ghost use Rattle.std.specs.Prelude.{◌≡◌, ◌≤◌, length, take};
ghost use Rattle.rules.specs.Sheet.{Sheet};
ghost use Rattle.rules.specs.Accept.{same_place, kinds_match, is_fixed, in_class, reuse_holds, constraint_holds, fixed_holds, group_at, group_holds, operands_hold};
ghost use Rattle.table.specs.Rows.{count_in};
ghost use Rattle.table.specs.Sheet.{sheet_in};
ghost use Rattle.table.specs.Index.{Ready};
ghost use Rattle.table.specs.View.{group_row};
ghost use Rattle.operands.specs.Operands.{as_row};
ghost use Rattle.accept.specs.Operands.{is_class, reuses, head_of, head_in, heads_of, operand_holds};

use bits::tables::{read, store};
use entity::forms::{Constraint, OperandKind, Place};
use entity::numbers::{OperandIndex, OperandRow, PhysReg, RegClass, RegGroup, ValueGroup};
use names::lists::is_in;
use operands::{class_for, operand};
use table::rows::{Kind, count, part};
use table::view::{
    Operand, class_slots, group_class, group_regs, group_values, members, operand_at,
};

// What no group has for its head.
// Stays: the heads are a flat list of numbers that one search compares, as `head_of` and `head_in` say.
const NO_HEAD: u32 = 4294967295;

#[tactic(auto, unfolding(rules::specs::Accept::same_place))]
// Stays: its clause ties `==` to the rule's `same_place`.
fn same_place(p: Place, q: Place) -> bool
    ensures { result ≡ same_place p q }
{
    p == q
}

#[tactic(auto, unfolding(rules::specs::Accept::in_class))]
fn in_class(t: &[u32], c: RegClass, p: Place) -> bool
    ensures { result ≡ in_class (sheet_in t.now) c.0 p }
{
    match p {
        Place::Reg(r) => is_in(r.0, members(t, c)),
        Place::Slot(_) => class_slots(t, c),
    }
}

#[tactic(auto, unfolding(crate::specs::Operands::is_class))]
fn is_class(c: Constraint) -> bool
    ensures { result ≡ is_class c }
{
    matches!(c, Constraint::Class(_))
}

// A `def` reuses a `use`, and a `defg` a `useg`.
#[tactic(auto, unfolding(rules::specs::Accept::kinds_match, rules::specs::Sheet::is_use, rules::specs::Sheet::is_use_group))]
fn kinds_match(k: OperandKind, u: OperandKind) -> bool
    ensures { result ≡ kinds_match k u }
{
    matches!(
        (k, u),
        (OperandKind::Def(_), OperandKind::Use(_))
            | (OperandKind::DefGroup(_), OperandKind::UseGroup(_))
    )
}

#[tactic(auto, using(crate::proofs::Operandwise::reuse_is))]
fn reuse_holds(o: Operand, u: Operand) -> bool
    ensures { (sh : Sheet) → result ≡ reuse_holds sh (as_row o) (as_row u) }
{
    kinds_match(o.kind, u.kind) && is_class(u.constraint) && same_place(u.place, o.place)
}

// Operand o may reuse operand k of its instruction.
fn reuses(t: &[u32], o: Operand, k: OperandIndex) -> bool
    ensures { Ready t.now → result ≡ reuses (sheet_in t.now) (as_row o) k.0 }
{
    let Some(u) = operand(t, o, k) else {
        return false;
    };
    reuse_holds(o, u)
}

#[tactic(auto, unfolding(rules::specs::Accept::constraint_holds, operands::specs::Operands::as_row, crate::specs::Operands::reuses))]
fn constraint_holds(t: &[u32], o: Operand) -> bool
    ensures { Ready t.now → result ≡ constraint_holds (sheet_in t.now) (as_row o) }
{
    match o.constraint {
        Constraint::Class(c) => in_class(t, c, o.place),
        Constraint::Fixed(r) => same_place(o.place, Place::reg(r)),
        Constraint::Reuse(k) => reuses(t, o, k),
    }
}

#[tactic(auto, unfolding(rules::specs::Accept::is_fixed))]
fn is_fixed(c: Constraint) -> bool
    ensures { result ≡ is_fixed c }
{
    matches!(c, Constraint::Fixed(_))
}

#[tactic(auto, unfolding(rules::specs::Accept::fixed_holds, operands::specs::Operands::as_row))]
fn fixed_holds(o: Operand) -> bool
    ensures { (sh : Sheet) → result ≡ fixed_holds sh (as_row o) }
{
    match o.kind {
        OperandKind::NonAllocatable => is_fixed(o.constraint),
        _ => true,
    }
}

// Class, first register and length of a group in one number; no group has one that is too great, once limits and names hold.
#[tactic(auto, unfolding(crate::specs::Operands::head_of))]
fn head(c: RegClass, r: PhysReg, len: usize) -> u32
    ensures { result ≡ head_of c.0 r.0 len }
{
    if 128 <= c.0 || 256 <= r.0 || 65536 <= len {
        return NO_HEAD;
    }
    c.0 * 16777216 + r.0 * 65536 + len as u32
}

fn head_in(t: &[u32], g: RegGroup) -> u32
    ensures { result ≡ head_in (group_row (sheet_in t.now) g.0) }
{
    let regs = group_regs(t, g);
    let class = group_class(t, g);
    head(class, PhysReg(read(regs, 0, 0)), regs.len())
}

// The heads of the groups, each in its cell.
fn load_heads(t: &[u32], heads: &mut [u32])
    ensures { count_in t.now 3 ≤ length heads.old → take (count_in t.now 3) heads.new ≡ heads_of (sheet_in t.now) }
{
    for g in 0..count(t, Kind::GROUP) {
        store(heads, g as usize, head_in(t, RegGroup(g)));
    }
}

// An operand of value group g begins a group of its class with the value group's length.
fn group_at(t: &[u32], heads: &[u32], o: Operand, g: ValueGroup) -> bool
    ensures { heads.now ≡ heads_of (sheet_in t.now) → Ready t.now → result ≡ group_at (sheet_in t.now) (as_row o) g.0 }
{
    let Place::Reg(r) = o.place else {
        return false;
    };
    let Some(c) = class_for(t, o) else {
        return false;
    };
    is_in(head(c, r, group_values(t, g).len()), heads)
}

#[tactic(auto, unfolding(rules::specs::Accept::group_holds, operands::specs::Operands::as_row))]
fn group_holds(t: &[u32], heads: &[u32], o: Operand) -> bool
    ensures { heads.now ≡ heads_of (sheet_in t.now) → Ready t.now → result ≡ group_holds (sheet_in t.now) (as_row o) }
{
    match o.kind {
        OperandKind::DefGroup(g) | OperandKind::UseGroup(g) | OperandKind::EarlyDefGroup(g) => {
            group_at(t, heads, o, g)
        }
        _ => true,
    }
}

#[tactic(auto, unfolding(crate::specs::Operands::operand_holds))]
fn operand_holds(t: &[u32], heads: &[u32], o: Operand) -> bool
    ensures { heads.now ≡ heads_of (sheet_in t.now) → Ready t.now → result ≡ operand_holds (sheet_in t.now) (as_row o) }
{
    constraint_holds(t, o) && fixed_holds(o) && group_holds(t, heads, o)
}

fn all_hold(t: &[u32], heads: &[u32]) -> bool
    ensures { heads.now ≡ heads_of (sheet_in t.now) → Ready t.now → result ≡ operands_hold (sheet_in t.now) }
{
    (0..count(t, Kind::OP)).all(|n| operand_holds(t, heads, operand_at(t, OperandRow(n))))
}

pub fn operands_hold(t: &[u32]) -> bool
    ensures { Ready t.now → result ≡ operands_hold (sheet_in t.now) }
{
    let mut heads = [0u32; RegGroup::LIMIT as usize];
    load_heads(t, &mut heads);
    all_hold(t, part(&heads, 0, count(t, Kind::GROUP) as usize))
}
