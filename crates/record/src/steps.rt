// What each event makes of the record: the rules of `rules/specs/Record.antt`, one method each.
ghost use Rattle.std.specs.Prelude.{◌≡◌, cond, ◌||◌, ℕ, eqb, length, get_or};
ghost use Rattle.laws.specs.Fold.{run};
ghost use Rattle.laws.specs.Lists.{all};
ghost use Rattle.rules.specs.Sheet.{Sheet};
ghost use Rattle.rules.specs.Record as Rule;
ghost use Rattle.rules.specs.Record.{Record};
ghost use Rattle.table.specs.Sheet.{sheet_in};
ghost use Rattle.record.specs.Flat.{record_of};

use crate::flat::{HELD, NONE, STORED, WalkRecord};
use entity::forms::{Edit, Place};
use entity::numbers::{Block, PhysReg, RegUnit, SpillSlot, Value};
use table::view::{home, units};

// x, unless it is v: then `NONE`.
fn without(x: u32, v: u32) -> u32
    ensures { result ≡ cond (eqb x v) Rule.absent x }
{
    if x == v { NONE } else { x }
}

// Slot s is v's home slot.
#[tactic(auto, using(crate::proofs::Rules::home_is, crate::proofs::Rules::no_home_lem))]
pub fn is_home(t: &[u32], v: Value, s: SpillSlot) -> bool
    ensures { result ≡ Rule.is_home (sheet_in t.now) v.0 s.0 }
{
    match home(t, v) {
        Some(h) => h == s,
        None => false,
    }
}

impl WalkRecord {
    // Register r holds v.
    #[tactic(auto, unfolding(rules::specs::Record::holds))]
    pub fn holds(&self, r: PhysReg, v: Value) -> bool
        ensures { result ≡ Rule.holds (record_of self.now) r.0 v.0 }
    {
        self.held(r) == v.0
    }

    #[tactic(auto, unfolding(rules::specs::Record::take_from))]
    fn take_from(&mut self, r: PhysReg, v: Value)
        ensures { record_of self.new ≡ Rule.take_from r.0 v.0 (record_of self.old) }
    {
        if self.holds(r, v) {
            self.hold(r, Value(NONE));
        }
    }

    #[tactic(auto, unfolding(rules::specs::Record::forget_unit))]
    pub fn forget_unit(&mut self, u: RegUnit)
        ensures { record_of self.new ≡ Rule.forget_unit (record_of self.old) u.0 }
    {
        let r = self.unit_reg(u);
        let v = self.unit_value(u);
        self.take_from(PhysReg(r), Value(v));
        self.write_unit(u, PhysReg(NONE), Value(NONE));
    }

    // No register holds v.
    fn drop_value(&mut self, v: Value)
        ensures { record_of self.new ≡ Rule.drop_value v.0 (record_of self.old) }
    {
        for x in self.cells[HELD..STORED].iter_mut() {
            *x = without(*x, v.0);
        }
    }

    // A change, at each unit in turn.
    fn each_unit<F: Fn(&mut WalkRecord, RegUnit)>(&mut self, us: &[u32], change: F)
        requires { F.IsAlwaysCallable change }
        ensures { (f : Record → ℕ → Record) → ((x y : _) (u : _) → F.post change x u tt y → record_of y.now ≡ f (record_of x.now) u.0) → record_of self.new ≡ run f (record_of self.old) us.now }
    {
        for u in us {
            change(self, RegUnit(*u));
        }
    }

    pub fn write_units(&mut self, us: &[u32], r: PhysReg, v: Value)
        ensures { record_of self.new ≡ run (Rule.write_unit r.0 v.0) (record_of self.old) us.now }
    {
        self.each_unit(us, |rec, u| rec.write_unit(u, r, v));
    }

    // Register r's units are forgotten, and then written with v.
    #[tactic(auto, unfolding(rules::specs::Record::overwrite))]
    fn overwrite(&mut self, t: &[u32], r: PhysReg, v: Value)
        ensures { record_of self.new ≡ Rule.overwrite (sheet_in t.now) r.0 v.0 (record_of self.old) }
    {
        let us = units(t, r);
        self.each_unit(us, WalkRecord::forget_unit);
        self.write_units(us, r, v);
    }

    // v's home slot holds nothing.
    fn empty_home(&mut self, t: &[u32], v: Value)
        ensures { record_of self.new ≡ Rule.empty_home (sheet_in t.now) v.0 (record_of self.old) }
    {
        match home(t, v) {
            Some(h) => self.store(h, Value(NONE)),
            None => {}
        }
    }

    fn define_in_reg(&mut self, t: &[u32], v: Value, r: PhysReg)
        ensures { record_of self.new ≡ Rule.empty_home (sheet_in t.now) v.0 (Rule.hold r.0 v.0 (Rule.drop_value v.0 (Rule.overwrite (sheet_in t.now) r.0 v.0 (record_of self.old)))) }
    {
        self.overwrite(t, r, v);
        self.drop_value(v);
        self.hold(r, v);
        self.empty_home(t, v);
    }

    fn define_in_slot(&mut self, t: &[u32], b: Block, v: Value, s: SpillSlot)
        ensures { record_of self.new ≡ cond (Rule.is_home (sheet_in t.now) v.0 s.0) (Rule.spill_in b.0 v.0 (Rule.store s.0 v.0 (Rule.drop_value v.0 (record_of self.old)))) (Rule.store s.0 Rule.absent (Rule.empty_home (sheet_in t.now) v.0 (Rule.drop_value v.0 (record_of self.old)))) }
    {
        self.drop_value(v);
        if is_home(t, v, s) {
            self.store(s, v);
            self.spill_in(b, v);
        } else {
            self.empty_home(t, v);
            self.store(s, Value(NONE));
        }
    }

    // Value v is defined in block b at a place.
    #[tactic(auto, unfolding(rules::specs::Record::define))]
    pub fn define(&mut self, t: &[u32], b: Block, v: Value, place: Place)
        ensures { record_of self.new ≡ Rule.define (sheet_in t.now) b.0 v.0 place (record_of self.old) }
    {
        self.define_in(b, v);
        match place {
            Place::Reg(r) => self.define_in_reg(t, v, r),
            Place::Slot(s) => self.define_in_slot(t, b, v, s),
        }
    }

    // A move or remat of v to a place.
    #[tactic(auto, unfolding(rules::specs::Record::arrive))]
    pub fn arrive(&mut self, t: &[u32], v: Value, to: Place)
        ensures { record_of self.new ≡ Rule.arrive (sheet_in t.now) v.0 to (record_of self.old) }
    {
        match to {
            Place::Reg(r) => {
                self.overwrite(t, r, v);
                self.hold(r, v);
            }
            Place::Slot(s) => {
                if is_home(t, v, s) {
                    self.store(s, v);
                } else {
                    self.store(s, Value(NONE));
                }
            }
        }
    }

    #[tactic(auto, unfolding(rules::specs::Record::espill))]
    fn espill(&mut self, t: &[u32], r: PhysReg)
        ensures { record_of self.new ≡ Rule.espill (sheet_in t.now) r.0 (record_of self.old) }
    {
        self.each_unit(units(t, r), WalkRecord::note_unit);
    }

    // A note is written back, if there is one.
    #[tactic(auto, unfolding(rules::specs::Record::write_back))]
    fn write_back(&mut self, u: RegUnit)
        ensures { (sh : Sheet) → record_of self.new ≡ Rule.write_back sh (record_of self.old) u.0 }
    {
        let r = self.noted_reg(u);
        if r == NONE {
            return;
        }
        let v = self.noted_value(u);
        self.write_unit(u, PhysReg(r), Value(v));
    }

    // There is one unit, or the last write of each is of v.
    fn joins(&self, us: &[u32], v: u32) -> bool
        ensures { result ≡ (eqb (length us.now) 1 || all (λ w. eqb (get_or (record_of self.now).writes.value w Rule.absent) v) us.now) }
    {
        us.len() == 1 || us.iter().all(|u| self.unit_value(RegUnit(*u)) == v)
    }

    // A noted register is added where it has one unit or all its units' last writes are of that value. Where it holds the value already, neither is asked.
    #[tactic(auto, using(crate::proofs::Rules::held_already), unfolding(rules::specs::Record::add_back))]
    fn add_back(&mut self, t: &[u32], u: RegUnit)
        ensures { record_of self.new ≡ Rule.add_back (sheet_in t.now) (record_of self.old) u.0 }
    {
        let r = self.noted_reg(u);
        let v = self.noted_value(u);
        if r == NONE {
            return;
        }
        if self.holds(PhysReg(r), Value(v)) {
            return;
        }
        let us = units(t, PhysReg(r));
        if self.joins(us, v) {
            self.hold(PhysReg(r), Value(v));
        }
    }

    #[tactic(auto, unfolding(rules::specs::Record::ereload))]
    fn ereload(&mut self, t: &[u32], r: PhysReg)
        ensures { record_of self.new ≡ Rule.ereload (sheet_in t.now) r.0 (record_of self.old) }
    {
        let us = units(t, r);
        self.each_unit(us, WalkRecord::forget_unit);
        self.each_unit(us, WalkRecord::write_back);
        self.each_unit(us, |rec, u| rec.add_back(t, u));
    }

    // What an edit makes of the record.
    #[tactic(auto, unfolding(rules::specs::Record::effect))]
    pub fn effect(&mut self, t: &[u32], e: Edit)
        ensures { record_of self.new ≡ Rule.effect (sheet_in t.now) e (record_of self.old) }
    {
        match e {
            Edit::Move { to, value, .. } | Edit::Remat { to, value } => self.arrive(t, value, to),
            Edit::Espill { from, .. } => self.espill(t, from),
            Edit::Ereload { to, .. } => self.ereload(t, to),
            Edit::Misplaced { .. } | Edit::Nothing => {}
        }
    }
}
