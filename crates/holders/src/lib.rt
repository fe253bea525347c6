// Which registers hold a value: the lowest non-memory one, of all or of a class.
#![tactic(auto)]

ghost use Rattle.std.specs.Prelude.{◌≡◌, Bool, false, cond, not, ◌&&◌, ◌||◌, ℕ, ◌≤◌, eqb, leb, ltb, length};
ghost use Rattle.laws.specs.Fold.{run};
ghost use Rattle.laws.specs.Lists.{is_in, from};
ghost use Rattle.bits.specs.Sets.{set_of};
ghost use Rattle.entity.specs.Limits.{reg_limit, class_limit};
ghost use Rattle.rules.specs.Sheet.{reg_count, is_memory};
ghost use Rattle.rules.specs.Record as Rule;
ghost use Rattle.rules.specs.Forward.{in_memory, lowest_holding};
ghost use Rattle.table.specs.Sheet.{sheet_in};
ghost use Rattle.table.specs.Index.{Ready};
ghost use Rattle.record.specs.Flat.{record_of};
ghost use Rattle.holders.specs.Holders.{allows, set_at, Puts, Filled, Blank, reg_found};

use bits::sets::NumberSet;
use entity::forms::Place;
use entity::numbers::{PhysReg, RegClass, Value};
use entity::sets::PhysRegSet;
use record::flat::WalkRecord;
use table::rows::{Kind, count};
use table::view::{is_memory, members};

// The non-memory registers of each class, and after the last class all of them: the words of a set each.
// Stays: a flat table of numbers (document 01), its layout named once; `fill` and `lowest_holding` are public and promise for every table.
pub const WORDS: usize = (RegClass::LIMIT as usize + 1) * NumberSet::WORDS;

// The place of all registers among the classes.
pub const ALL: RegClass = RegClass(RegClass::LIMIT);

fn put_set(classes: &mut [u64; WORDS], c: RegClass, s: PhysRegSet)
    ensures { 68 ≤ length classes.old → c.0 ≤ class_limit → Puts classes.old classes.new c.0 s.0 }
{
    if c.0 <= RegClass::LIMIT {
        let at = c.0 as usize * NumberSet::WORDS;
        classes[at..at + NumberSet::WORDS].copy_from_slice(&s.0.words);
    }
}

fn class_set(classes: &[u64; WORDS], c: RegClass) -> PhysRegSet
    ensures { result.0 ≡ cond (leb c.0 class_limit) (set_at classes.now c.0) (set_of (λ k. false)) }
{
    if c.0 <= RegClass::LIMIT {
        let at = c.0 as usize * NumberSet::WORDS;
        let mut words = [0; NumberSet::WORDS];
        words.copy_from_slice(&classes[at..at + NumberSet::WORDS]);
        PhysRegSet::of(NumberSet { words })
    } else {
        PhysRegSet::empty()
    }
}

// The set with r, unless r is a memory register.
fn with_reg(t: &[u32], s: PhysRegSet, r: PhysReg) -> PhysRegSet
    ensures { (f : ℕ → Bool) → s.0 ≡ set_of f → result.0 ≡ set_of (λ k. f k || (eqb k r.0 && not (is_memory (sheet_in t.now) r.0))) }
{
    if is_memory(t, r) { s } else { s.insert(r) }
}

fn of_list(t: &[u32], rs: &[u32]) -> PhysRegSet
    ensures { result.0 ≡ set_of (λ r. is_in r rs.now && not (is_memory (sheet_in t.now) r)) }
{
    let mut s = PhysRegSet::empty();
    for r in rs {
        s = with_reg(t, s, PhysReg(*r));
    }
    s
}

// The registers of which a test is true.
fn regs_where<F: Fn(PhysReg) -> bool>(t: &[u32], test: F) -> PhysRegSet
    requires { F.IsAlwaysCallable test }
    ensures { (f : ℕ → Bool) → ((r : _) (b : Bool) → F.post test r b → b ≡ f r.0) → result.0 ≡ set_of (λ r. ltb r (reg_count (sheet_in t.now)) && f r) }
{
    let mut s = PhysRegSet::empty();
    for r in 0..count(t, Kind::REG) {
        if test(PhysReg(r)) {
            s = s.insert(PhysReg(r));
        }
    }
    s
}

fn of_all(t: &[u32]) -> PhysRegSet
    ensures { result.0 ≡ set_of (λ r. ltb r (reg_count (sheet_in t.now)) && not (is_memory (sheet_in t.now) r)) }
{
    regs_where(t, |r| !is_memory(t, r))
}

// Fills the sets of the classes.
pub fn fill(t: &[u32], classes: &mut [u64; WORDS])
    ensures { Ready t.now → Blank classes.old → Filled (sheet_in t.now) classes.new }
{
    put_set(classes, ALL, of_all(t));
    for c in 0..count(t, Kind::CLASS) {
        put_set(classes, RegClass(c), of_list(t, members(t, RegClass(c))));
    }
}

// The registers that hold v.
fn holders(t: &[u32], rec: &WalkRecord, v: Value) -> PhysRegSet
    ensures { result.0 ≡ set_of (λ r. ltb r (reg_count (sheet_in t.now)) && Rule.holds (record_of rec.now) r v.0) }
{
    regs_where(t, |r| rec.holds(r, v))
}

// Some register holds v. Asked of all registers: the compiler does it four at a time.
// Stays: `any` was tried; it stops at the first that holds v and asks one register at a time, and the whole call took 1% longer.
fn somewhere(rec: &WalkRecord, v: Value) -> bool
    ensures { result ≡ run (λ x r. x || Rule.holds (record_of rec.now) r v.0) false (from 0 reg_limit) }
{
    let mut x = false;
    for r in 0..PhysReg::LIMIT {
        x |= rec.holds(PhysReg(r), v);
    }
    x
}

// The lowest non-memory register of a class that holds v.
pub fn lowest_holding(
    t: &[u32],
    rec: &WalkRecord,
    classes: &[u64; WORDS],
    c: RegClass,
    v: Value,
) -> Option<PhysReg>
    ensures { Ready t.now → Filled (sheet_in t.now) classes.now
        → result ≡ reg_found (lowest_holding (sheet_in t.now) (allows (sheet_in t.now) c.0) v.0 (record_of rec.now)) }
{
    if !somewhere(rec, v) {
        return None;
    }
    let s = holders(t, rec, v);
    s.meet(class_set(classes, c)).lowest()
}

// A slot or a register flagged memory.
#[tactic(auto, unfolding(rules::specs::Forward::in_memory))]
pub fn in_memory(t: &[u32], p: Place) -> bool
    ensures { result ≡ in_memory (sheet_in t.now) p }
{
    match p {
        Place::Reg(r) => is_memory(t, r),
        Place::Slot(_) => true,
    }
}
