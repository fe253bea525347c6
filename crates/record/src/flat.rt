// The record of a walk as one flat table that is lent: its sections, and what reads or changes one entry.
// An entry is a number, or `NONE`. Past a section a read gives `NONE` and a store does nothing.
ghost use Rattle.std.specs.Prelude.{◌≡◌, ◌+◌, ◌≤◌, get_or};
ghost use Rattle.rules.specs.Record as Rule;
ghost use Rattle.rules.specs.Record.{absent};
ghost use Rattle.record.specs.Layout.{unit_reg_at, unit_value_at, held_at, stored_at, defined_at, spilled_at, noted_reg_at, noted_value_at, record_length};
ghost use Rattle.record.specs.Flat.{section, record_of, changed_in, OneTable};

use entity::numbers::{Block, PhysReg, RegUnit, SpillSlot, Value};

// No register, value or block; larger than each.
// Stays: the record and the states are flat tables of numbers (document 01); `held`, `stored`, `defined` and `spilled` are public and promise the number.
pub const NONE: u32 = 65535;

// The sections of the record, and its length.
pub const UNITREG: usize = 0;

pub const UNITVALUE: usize = UNITREG + RegUnit::LIMIT as usize;

pub const HELD: usize = UNITVALUE + RegUnit::LIMIT as usize;

pub const STORED: usize = HELD + PhysReg::LIMIT as usize;

pub const DEFINED: usize = STORED + SpillSlot::LIMIT as usize;

pub const SPILLED: usize = DEFINED + Value::LIMIT as usize;

pub const NOTEDREG: usize = SPILLED + Value::LIMIT as usize;

pub const NOTEDVALUE: usize = NOTEDREG + RegUnit::LIMIT as usize;

pub const LENGTH: usize = NOTEDVALUE + RegUnit::LIMIT as usize;

// The layout of the code is the layout of the definitions.
pub fn layout_agrees()
    ensures unit_reg_at { UNITREG ≡ unit_reg_at }
    ensures unit_value_at { UNITVALUE ≡ unit_value_at }
    ensures held_at { HELD ≡ held_at }
    ensures stored_at { STORED ≡ stored_at }
    ensures defined_at { DEFINED ≡ defined_at }
    ensures spilled_at { SPILLED ≡ spilled_at }
    ensures noted_reg_at { NOTEDREG ≡ noted_reg_at }
    ensures noted_value_at { NOTEDVALUE ≡ noted_value_at }
    ensures record_length { LENGTH ≡ record_length }
{}

// The record tells every cell.
pub fn record_tells_cells()
    ensures { OneTable }
{}

// The record of a walk.
#[derive(Clone, Copy)]
pub struct WalkRecord {
    pub cells: [u32; LENGTH],
}

impl WalkRecord {
    // Entry n of the section of `size` entries at `at`.
    fn entry(&self, at: usize, size: u32, n: u32) -> u32
        requires { at + size ≤ record_length }
        ensures { result ≡ get_or (section self.now.cells at size) n absent }
    {
        if n < size {
            self.cells[at + n as usize]
        } else {
            NONE
        }
    }

    #[tactic(auto, unfolding(crate::specs::Flat::changed_in))]
    fn change(&mut self, at: usize, size: u32, n: u32, x: u32)
        requires { at + size ≤ record_length }
        ensures { self.new.cells ≡ changed_in at size n x self.old.cells }
    {
        if n < size {
            self.cells[at + n as usize] = x;
        }
    }

    // Stays: the reads and changes that follow are one call of `entry` or `change` each; five are public, and each is of its own section and type.
    #[tactic(auto, unfolding(crate::specs::Flat::record_in))]
    pub(crate) fn unit_reg(&self, u: RegUnit) -> u32
        ensures { result ≡ get_or (record_of self.now).writes.reg u.0 absent }
    {
        self.entry(UNITREG, RegUnit::LIMIT, u.0)
    }

    #[tactic(auto, unfolding(crate::specs::Flat::record_in))]
    pub(crate) fn unit_value(&self, u: RegUnit) -> u32
        ensures { result ≡ get_or (record_of self.now).writes.value u.0 absent }
    {
        self.entry(UNITVALUE, RegUnit::LIMIT, u.0)
    }

    // The last write of unit u is of value v to register r.
    #[tactic(auto, using(crate::proofs::Sections::unit_changed))]
    pub(crate) fn write_unit(&mut self, u: RegUnit, r: PhysReg, v: Value)
        ensures { record_of self.new ≡ Rule.write_unit r.0 v.0 (record_of self.old) u.0 }
    {
        self.change(UNITREG, RegUnit::LIMIT, u.0, r.0);
        self.change(UNITVALUE, RegUnit::LIMIT, u.0, v.0);
    }

    // The value that register r holds.
    #[tactic(auto, unfolding(crate::specs::Flat::record_in))]
    pub fn held(&self, r: PhysReg) -> u32
        ensures { result ≡ get_or (record_of self.now).known.held r.0 absent }
    {
        self.entry(HELD, PhysReg::LIMIT, r.0)
    }

    #[tactic(auto, using(crate::proofs::Sections::held_changed))]
    pub(crate) fn hold(&mut self, r: PhysReg, v: Value)
        ensures { record_of self.new ≡ Rule.hold r.0 v.0 (record_of self.old) }
    {
        self.change(HELD, PhysReg::LIMIT, r.0, v.0);
    }

    // The value that slot s holds.
    #[tactic(auto, unfolding(crate::specs::Flat::record_in))]
    pub fn stored(&self, s: SpillSlot) -> u32
        ensures { result ≡ get_or (record_of self.now).known.stored s.0 absent }
    {
        self.entry(STORED, SpillSlot::LIMIT, s.0)
    }

    #[tactic(auto, using(crate::proofs::Sections::slot_changed))]
    pub(crate) fn store(&mut self, s: SpillSlot, v: Value)
        ensures { record_of self.new ≡ Rule.store s.0 v.0 (record_of self.old) }
    {
        self.change(STORED, SpillSlot::LIMIT, s.0, v.0);
    }

    // The defining block of v.
    #[tactic(auto, unfolding(crate::specs::Flat::record_in))]
    pub fn defined(&self, v: Value) -> u32
        ensures { result ≡ get_or (record_of self.now).blocks.defined v.0 absent }
    {
        self.entry(DEFINED, Value::LIMIT, v.0)
    }

    #[tactic(auto, using(crate::proofs::Sections::defined_changed))]
    pub(crate) fn define_in(&mut self, b: Block, v: Value)
        ensures { record_of self.new ≡ Rule.define_in b.0 v.0 (record_of self.old) }
    {
        self.change(DEFINED, Value::LIMIT, v.0, b.0);
    }

    // The last spilled block of v.
    #[tactic(auto, unfolding(crate::specs::Flat::record_in))]
    pub fn spilled(&self, v: Value) -> u32
        ensures { result ≡ get_or (record_of self.now).blocks.spilled v.0 absent }
    {
        self.entry(SPILLED, Value::LIMIT, v.0)
    }

    #[tactic(auto, using(crate::proofs::Sections::spilled_changed))]
    pub fn spill_in(&mut self, b: Block, v: Value)
        ensures { record_of self.new ≡ Rule.spill_in b.0 v.0 (record_of self.old) }
    {
        self.change(SPILLED, Value::LIMIT, v.0, b.0);
    }

    #[tactic(auto, unfolding(crate::specs::Flat::record_in))]
    pub(crate) fn noted_reg(&self, u: RegUnit) -> u32
        ensures { result ≡ get_or (record_of self.now).notes.reg u.0 absent }
    {
        self.entry(NOTEDREG, RegUnit::LIMIT, u.0)
    }

    #[tactic(auto, unfolding(crate::specs::Flat::record_in))]
    pub(crate) fn noted_value(&self, u: RegUnit) -> u32
        ensures { result ≡ get_or (record_of self.now).notes.value u.0 absent }
    {
        self.entry(NOTEDVALUE, RegUnit::LIMIT, u.0)
    }

    // Unit u's last write is noted.
    #[tactic(auto, using(crate::proofs::Sections::note_changed))]
    pub(crate) fn note_unit(&mut self, u: RegUnit)
        ensures { record_of self.new ≡ Rule.note_unit (record_of self.old) u.0 }
    {
        let r = self.unit_reg(u);
        let v = self.unit_value(u);
        self.change(NOTEDREG, RegUnit::LIMIT, u.0, r);
        self.change(NOTEDVALUE, RegUnit::LIMIT, u.0, v);
    }
}
