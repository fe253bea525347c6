// The forms of a row's fields as enums: places, constraints, operand kinds, edits; the levels and the refusals of the call.
// How each is written in a row is left to the crates above.
ghost use Rattle.std.specs.Prelude.{◌≡◌};
ghost use Rattle.entity.specs.Forms.{level_of, level_number, told_of, sum_of};

use crate::numbers::{OperandIndex, PhysReg, RegClass, SpillSlot, Value, ValueGroup};

#[derive(Clone, Copy, PartialEq, Eq)]
pub enum Place {
    Reg(PhysReg),
    Slot(SpillSlot),
}

impl Place {
    pub fn reg(r: PhysReg) -> Place
        ensures { result ≡ Place.Reg r }
    {
        Place::Reg(r)
    }

    pub fn slot(s: SpillSlot) -> Place
        ensures { result ≡ Place.Slot s }
    {
        Place::Slot(s)
    }
}

#[derive(Clone, Copy, PartialEq, Eq)]
pub enum Constraint {
    Class(RegClass),
    Fixed(PhysReg),
    Reuse(OperandIndex),
}

#[derive(Clone, Copy, PartialEq, Eq)]
pub enum OperandKind {
    Def(Value),
    Use(Value),
    EarlyDef(Value),
    DefGroup(ValueGroup),
    UseGroup(ValueGroup),
    EarlyDefGroup(ValueGroup),
    NonAllocatable,
}

// `Misplaced` is an emergency edit whose places are not the register and the slot that it needs: refusal 6.
#[derive(Clone, Copy, PartialEq, Eq)]
pub enum Edit {
    Move {
        to: Place,
        from: Place,
        value: Value,
    },
    Remat {
        to: Place,
        value: Value,
    },
    Espill {
        to: SpillSlot,
        from: PhysReg,
    },
    Ereload {
        to: PhysReg,
        from: SpillSlot,
    },
    Misplaced {
        to: Place,
        from: Place,
    },
    Nothing,
}

#[derive(Clone, Copy, PartialEq, Eq)]
pub enum Level {
    Off,
    Local,
    Forward,
    Global,
}

impl Level {
    // Stays: the numbers of the C call's level.
    pub const OFF: u32 = 0;

    pub const LOCAL: u32 = 1;

    pub const FORWARD: u32 = 2;

    pub const GLOBAL: u32 = 3;

    pub fn of(n: u32) -> Option<Level>
        ensures { result ≡ level_of n }
    {
        match n {
            Level::OFF => Some(Level::Off),
            Level::LOCAL => Some(Level::Local),
            Level::FORWARD => Some(Level::Forward),
            Level::GLOBAL => Some(Level::Global),
            _ => None,
        }
    }

    pub fn number(self) -> u32
        ensures { result ≡ level_number self }
    {
        match self {
            Level::Off => Level::OFF,
            Level::Local => Level::LOCAL,
            Level::Forward => Level::FORWARD,
            Level::Global => Level::GLOBAL,
        }
    }
}

// What is wrong with a sheet or a call. A rule of one block has the `block` row of the lowest block that breaks it, counted from 1 over all rows of the
// sheet: a sheet of 65,536 bytes has at most 21,845.
#[derive(Clone, Copy, PartialEq, Eq)]
pub enum Refusal {
    Rows,
    Limits,
    Names,
    NoEntry,
    Empty(u16),
    Disagree(u16),
    Edges(u16),
    NotSmaller(u16),
    NotReached(u16),
    Operands,
    Edits,
    Call,
    Room,
}

// A refusal as it is told: its number and the row, 0 where no block is concerned.
// Stays: a refusal as the C call tells it.
#[derive(Clone, Copy, PartialEq, Eq)]
pub struct Told {
    pub number: u8,
    pub row: u16,
}

impl Refusal {
    pub fn told(self) -> Told
        ensures { result ≡ told_of self }
    {
        match self {
            Refusal::Rows => Told { number: 1, row: 0 },
            Refusal::Limits => Told { number: 2, row: 0 },
            Refusal::Names => Told { number: 3, row: 0 },
            Refusal::NoEntry => Told { number: 4, row: 0 },
            Refusal::Empty(row) => Told { number: 4, row },
            Refusal::Disagree(row) => Told { number: 9, row },
            Refusal::Edges(row) => Told { number: 10, row },
            Refusal::NotSmaller(row) => Told { number: 11, row },
            Refusal::NotReached(row) => Told { number: 12, row },
            Refusal::Operands => Told { number: 5, row: 0 },
            Refusal::Edits => Told { number: 6, row: 0 },
            Refusal::Call => Told { number: 7, row: 0 },
            Refusal::Room => Told { number: 8, row: 0 },
        }
    }

    // 100 times the row plus the number.
    pub fn sum(self) -> u32
        ensures { result ≡ sum_of self }
    {
        let told = self.told();
        100 * told.row as u32 + told.number as u32
    }
}
