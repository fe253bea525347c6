// What an instruction's operands define, and what it clobbers: the rules of `rules/specs/Forward.antt`.
#![tactic(auto)]

ghost use Rattle.std.specs.Prelude.{◌≡◌, cond, not};
ghost use mathlib.Core.List.{flat_map, zip_with};
ghost use Rattle.std.proofs.Math.Option.{get_or};
ghost use Rattle.laws.specs.Fold.{run};
ghost use Rattle.laws.specs.Lists.{keep};
ghost use Rattle.bits.specs.Sets.{has};
ghost use Rattle.rules.specs.Sheet.{units_of};
ghost use Rattle.rules.specs.Accept.{operands_at, class_for};
ghost use Rattle.rules.specs.Record.{forget_unit};
ghost use Rattle.rules.specs.Forward.{group_regs, members, all_defs, define_all, place_units, clobber};
ghost use Rattle.table.specs.Sheet.{sheet_in};
ghost use Rattle.table.specs.Index.{Ready};
ghost use Rattle.table.specs.View.{op_row};
ghost use Rattle.operands.specs.Operands.{as_row};
ghost use Rattle.record.specs.Flat.{record_of};
ghost use Rattle.definitions.specs.Definitions.{taken, takes_early, takes_other, at_reg, units_at, own_units, With, Only};

use entity::forms::{OperandKind, Place};
use entity::numbers::{Block, Inst, OperandRow, PhysReg, RegClass, RegUnit, Value, ValueGroup};
use entity::sets::UnitSet;
use operands::{class_for, group_headed, is_early, kind_at, place_at};
use record::flat::WalkRecord;
use table::index::op_rows;
use table::view::{Operand, clobbers, group_regs, group_values, operand_at, units};

// Which definitions a pass over the operands takes.
// Stays: `define_all` is public, takes a pass by its signature and says in its clause what that pass takes (`taken`).
#[derive(Clone, Copy)]
pub enum Pass {
    Early,
    Other,
    All,
}

impl Pass {
    // The pass takes definitions that are early, or those that are not.
    #[tactic(auto, unfolding(crate::specs::Definitions::takes_early, crate::specs::Definitions::takes_other))]
    fn takes(self, early: bool) -> bool
        ensures { result ≡ cond early (takes_early self) (takes_other self) }
    {
        match self {
            Pass::Early => early,
            Pass::Other => !early,
            Pass::All => true,
        }
    }
}

// The class of an operand, or the first where it has none.
fn class_or_first(t: &[u32], o: Operand) -> RegClass
    ensures { Ready t.now → result.0 ≡ get_or (class_for (sheet_in t.now) (as_row o)) 0 }
{
    match class_for(t, o) {
        Some(c) => c,
        None => RegClass(0),
    }
}

// The registers of a group operand whose place is r.
fn member_regs(t: &[u32], o: Operand, r: PhysReg) -> &[u32]
    ensures { Ready t.now → result.now ≡ group_regs (sheet_in t.now) (get_or (class_for (sheet_in t.now) (as_row o)) 0) r.0 }
{
    group_regs(t, group_headed(t, class_or_first(t, o), r))
}

fn define_members(t: &[u32], rec: &mut WalkRecord, b: Block, vs: &[u32], rs: &[u32])
    ensures { record_of rec.new ≡ define_all (sheet_in t.now) b.0 (zip_with at_reg vs.now rs.now) (record_of rec.old) }
{
    for (v, r) in vs.iter().zip(rs) {
        rec.define(t, b, Value(*v), Place::reg(PhysReg(*r)));
    }
}

// Group definitions define member by member.
#[tactic(auto, unfolding(rules::specs::Forward::members, rules::specs::Forward::define_all, laws::specs::Fold::run, operands::specs::Operands::as_row))]
fn define_group(t: &[u32], rec: &mut WalkRecord, b: Block, o: Operand, g: ValueGroup)
    ensures { Ready t.now → record_of rec.new ≡ define_all (sheet_in t.now) b.0 (members (sheet_in t.now) (as_row o) g.0) (record_of rec.old) }
{
    match o.place {
        Place::Reg(r) => define_members(t, rec, b, group_values(t, g), member_regs(t, o, r)),
        Place::Slot(_) => {}
    }
}

#[tactic(auto, unfolding(rules::specs::Forward::define_all, laws::specs::Fold::run, rules::specs::Forward::all_defs), using(crate::proofs::Defining::takes_none, crate::proofs::Defining::takes_all))]
fn define_operand(t: &[u32], rec: &mut WalkRecord, b: Block, pass: Pass, n: OperandRow)
    ensures { Ready t.now → record_of rec.new ≡ define_all (sheet_in t.now) b.0 (taken (sheet_in t.now) pass (op_row (sheet_in t.now) n.0)) (record_of rec.old) }
{
    let kind = kind_at(t, n);
    if !pass.takes(is_early(kind)) {
        return;
    }
    match kind {
        OperandKind::Def(v) | OperandKind::EarlyDef(v) => rec.define(t, b, v, place_at(t, n)),
        OperandKind::DefGroup(g) | OperandKind::EarlyDefGroup(g) => {
            define_group(t, rec, b, operand_at(t, n), g)
        }
        _ => {}
    }
}

// The definitions of instruction i that a pass takes, in row order.
pub fn define_all(t: &[u32], rec: &mut WalkRecord, b: Block, pass: Pass, i: Inst)
    ensures { Ready t.now → record_of rec.new ≡ define_all (sheet_in t.now) b.0 (flat_map (taken (sheet_in t.now) pass) (operands_at (sheet_in t.now) i.0)) (record_of rec.old) }
{
    let rows = op_rows(t, i);
    for n in rows.from..rows.to {
        define_operand(t, rec, b, pass, OperandRow(n));
    }
}

fn add_units(t: &[u32], own: UnitSet, r: PhysReg) -> UnitSet
    ensures { With own.0 (units_of (sheet_in t.now) r.0) result.0 }
{
    let mut s = own;
    for u in units(t, r) {
        s = s.insert(RegUnit(*u));
    }
    s
}

fn add_members(t: &[u32], own: UnitSet, vs: &[u32], rs: &[u32]) -> UnitSet
    ensures { With own.0 (units_at (sheet_in t.now) (zip_with at_reg vs.now rs.now)) result.0 }
{
    let mut s = own;
    for (_, r) in vs.iter().zip(rs) {
        s = add_units(t, s, PhysReg(*r));
    }
    s
}

fn add_place(t: &[u32], own: UnitSet, place: Place) -> UnitSet
    ensures { With own.0 (place_units (sheet_in t.now) place) result.0 }
{
    match place {
        Place::Reg(r) => add_units(t, own, r),
        Place::Slot(_) => own,
    }
}

fn add_group(t: &[u32], own: UnitSet, o: Operand, g: ValueGroup) -> UnitSet
    ensures { Ready t.now → With own.0 (units_at (sheet_in t.now) (members (sheet_in t.now) (as_row o) g.0)) result.0 }
{
    match o.place {
        Place::Reg(r) => add_members(t, own, group_values(t, g), member_regs(t, o, r)),
        Place::Slot(_) => own,
    }
}

fn add_operand(t: &[u32], own: UnitSet, n: OperandRow) -> UnitSet
    ensures { Ready t.now → With own.0 (units_at (sheet_in t.now) (all_defs (sheet_in t.now) (op_row (sheet_in t.now) n.0))) result.0 }
{
    match kind_at(t, n) {
        OperandKind::Def(_) | OperandKind::EarlyDef(_) => add_place(t, own, place_at(t, n)),
        OperandKind::DefGroup(g) | OperandKind::EarlyDefGroup(g) => {
            add_group(t, own, operand_at(t, n), g)
        }
        _ => own,
    }
}

// The units that instruction i itself defines.
fn own_units(t: &[u32], i: Inst) -> UnitSet
    ensures { Ready t.now → Only result.0 (own_units (sheet_in t.now) i.0) }
{
    let rows = op_rows(t, i);
    let mut s = UnitSet::empty();
    for n in rows.from..rows.to {
        s = add_operand(t, s, OperandRow(n));
    }
    s
}

fn forget_others(rec: &mut WalkRecord, us: &[u32], own: UnitSet)
    ensures { record_of rec.new ≡ run forget_unit (record_of rec.old) (keep (λ u. not (has own.0 u)) us.now) }
{
    for u in us {
        let u = RegUnit(*u);
        if !own.contains(u) {
            rec.forget_unit(u);
        }
    }
}

// Clobbered units that the instruction did not itself define are forgotten.
pub fn clobber(t: &[u32], rec: &mut WalkRecord, i: Inst)
    ensures { Ready t.now → record_of rec.new ≡ clobber (sheet_in t.now) i.0 (record_of rec.old) }
{
    let us = clobbers(t, i);
    if us.is_empty() {
        return;
    }
    forget_others(rec, us, own_units(t, i));
}
