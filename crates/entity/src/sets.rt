// Sets of registers, units, slots and blocks: a `NumberSet` of one kind of number, so that a number of another kind is no member.
// As in 01, a set is "a value whose operations give back the new set".
ghost use Rattle.std.specs.Prelude.{◌≡◌, ℕ, false, ◌&&◌, ◌||◌, not, eqb, Some, None, refl};
ghost use Rattle.laws.specs.First.{first};
ghost use Rattle.bits.specs.Sets.{has, set_of, set_limit};

use crate::numbers::{Block, PhysReg, RegUnit, SpillSlot};
use bits::sets::NumberSet;
use std::marker::PhantomData;

// A kind of number.
pub trait Entity: Copy {
    ghost number: { Self → ℕ };

    ghost numbered: { ℕ → Self };

    fn new(index: u32) -> Self
        ensures { result ≡ numbered index };

    fn index(self) -> u32
        ensures { result ≡ number self };

    // The number of what is numbered k is k.
    ghost told: { (k : ℕ) → number (numbered k) ≡ k };
}

impl Entity for PhysReg {
    ghost number = { λ r. r.0 };

    ghost numbered = { λ k. record { 0 = k } };

    ghost told = { λ k. refl };

    fn new(index: u32) -> PhysReg {
        PhysReg(index)
    }

    fn index(self) -> u32 {
        self.0
    }
}

impl Entity for RegUnit {
    ghost number = { λ r. r.0 };

    ghost numbered = { λ k. record { 0 = k } };

    ghost told = { λ k. refl };

    fn new(index: u32) -> RegUnit {
        RegUnit(index)
    }

    fn index(self) -> u32 {
        self.0
    }
}

impl Entity for SpillSlot {
    ghost number = { λ r. r.0 };

    ghost numbered = { λ k. record { 0 = k } };

    ghost told = { λ k. refl };

    fn new(index: u32) -> SpillSlot {
        SpillSlot(index)
    }

    fn index(self) -> u32 {
        self.0
    }
}

impl Entity for Block {
    ghost number = { λ r. r.0 };

    ghost numbered = { λ k. record { 0 = k } };

    ghost told = { λ k. refl };

    fn new(index: u32) -> Block {
        Block(index)
    }

    fn index(self) -> u32 {
        self.0
    }
}

#[derive(Clone, Copy)]
pub struct EntitySet<E: Entity>(pub NumberSet, pub PhantomData<E>);

pub type PhysRegSet = EntitySet<PhysReg>;

pub type UnitSet = EntitySet<RegUnit>;

pub type SlotSet = EntitySet<SpillSlot>;

pub type BlockSet = EntitySet<Block>;

impl<E: Entity> EntitySet<E> {
    pub fn of(numbers: NumberSet) -> EntitySet<E>
        ensures { result.0 ≡ numbers }
    {
        EntitySet(numbers, PhantomData)
    }

    pub fn empty() -> EntitySet<E>
        ensures { result.0 ≡ set_of (λ k. false) }
    {
        EntitySet(NumberSet::empty(), PhantomData)
    }

    pub fn contains(self, e: E) -> bool
        ensures { result ≡ has self.0 (E.number e) }
    {
        self.0.contains(e.index())
    }

    pub fn insert(mut self, e: E) -> EntitySet<E>
        ensures { result.0 ≡ set_of (λ k. has self.0 k || eqb k (E.number e)) }
    {
        self.0 = self.0.insert(e.index());
        self
    }

    pub fn remove(mut self, e: E) -> EntitySet<E>
        ensures { result.0 ≡ set_of (λ k. has self.0 k && not (eqb k (E.number e))) }
    {
        self.0 = self.0.remove(e.index());
        self
    }

    pub fn meet(self, other: EntitySet<E>) -> EntitySet<E>
        ensures { result.0 ≡ set_of (λ k. has self.0 k && has other.0 k) }
    {
        EntitySet::of(self.0.meet(other.0))
    }

    pub fn join(self, other: EntitySet<E>) -> EntitySet<E>
        ensures { result.0 ≡ set_of (λ k. has self.0 k || has other.0 k) }
    {
        EntitySet::of(self.0.join(other.0))
    }

    pub fn lowest(self) -> Option<E>
        ensures { result ≡ first (λ k. Some (E.numbered k)) None (has self.0) 0 set_limit }
    {
        let k = self.0.lowest()?;
        Some(E::new(k))
    }
}
