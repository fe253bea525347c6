// What is handed to each block: the value of each register and of each slot, as the record has them side by side.
ghost use Rattle.std.specs.Prelude.{◌≡◌, true, cond, not, ◌||◌, ℕ, ◌<◌, eqb};
ghost use Rattle.std.proofs.Math.Option.{get_or};
ghost use Rattle.laws.specs.Fold.{run};
ghost use Rattle.laws.specs.Lists.{from};
ghost use Rattle.entity.specs.Limits.{block_limit};
ghost use Rattle.rules.specs.Sheet.{Sheet, reg_count, block_count, succs_of};
ghost use Rattle.rules.specs.Record.{Known, nothing, absent, with_known, begins};
ghost use Rattle.rules.specs.Forward.{Handed, write_held, take_in, first_state, meet, same_known, hand_to, hand_on};
ghost use Rattle.table.specs.Sheet.{sheet_in};
ghost use Rattle.table.specs.Index.{Ready};
ghost use Rattle.record.specs.Flat.{record_of};
ghost use Rattle.states.specs.Layout.{known_size, state_at};
ghost use Rattle.states.specs.States.{fits, known_at, is_set, state_in, Sets, handed_in, sole_in, Meets, Lies};

use entity::numbers::{Block, PhysReg, SpillSlot, Value};
use entity::sets::BlockSet;
use graph::succs;
use record::flat::{DEFINED, HELD, NONE, WalkRecord};
use table::rows::{Kind, count};
use table::view::units;

// How many numbers a state has.
// Stays: a flat table of numbers (document 01), its layout named once.
pub const KNOWN: usize = PhysReg::LIMIT as usize + SpillSlot::LIMIT as usize;

// A flag for each block, 1 once its state is set; and behind the flags the states, block after block.
pub const FLAGS: usize = Block::LIMIT as usize;

// The layout of the code is the layout of the definitions.
pub fn layout_agrees()
    ensures known_size { KNOWN ≡ known_size }
    ensures block_limit { FLAGS ≡ block_limit }
{}

// The table has room for block b.
#[tactic(auto, unfolding(crate::specs::States::fits))]
fn fits(states: &[u32], b: Block) -> bool
    ensures { result ≡ fits states.now b.0 }
{
    b.0 < Block::LIMIT && FLAGS + (b.0 as usize + 1) * KNOWN <= states.len()
}

#[tactic(auto, unfolding(crate::specs::States::is_set, crate::specs::States::fits))]
fn is_set(states: &[u32], b: Block) -> bool
    ensures { result ≡ is_set states.now b.0 }
{
    fits(states, b) && states[b.0 as usize] == 1
}

// Block b begins with nothing known.
#[tactic(auto, unfolding(crate::specs::States::fits))]
pub(crate) fn set_nothing(states: &mut [u32], b: Block)
    ensures { Sets states.old states.new b.0 nothing }
{
    if fits(states, b) {
        states[b.0 as usize] = 1;
        let at = FLAGS + b.0 as usize * KNOWN;
        states[at..at + KNOWN].fill(NONE);
    }
}

// Empties last writes, registers and slots.
pub fn begin_empty(rec: &mut WalkRecord)
    ensures { record_of rec.new ≡ begins nothing (record_of rec.old) }
{
    rec.cells[..DEFINED].fill(NONE);
}

// The record takes a block's state in place of its own.
// Stays: with `copy_from_slice` the archive needs `memmove` from its host, which it did not before.
#[tactic(auto, unfolding(crate::specs::States::fits))]
fn take_known(rec: &mut WalkRecord, states: &[u32], b: Block)
    ensures { fits states.now b.0 ≡ true → record_of rec.new ≡ with_known (known_at states.now (state_at b.0)) (record_of rec.old) }
{
    if fits(states, b) {
        let at = FLAGS + b.0 as usize * KNOWN;
        for i in 0..KNOWN {
            rec.cells[HELD + i] = states[at + i];
        }
    }
}

// A register pair also is its units' last write.
#[tactic(auto, unfolding(rules::specs::Forward::write_held))]
fn write_held(t: &[u32], rec: &mut WalkRecord, r: PhysReg)
    ensures { record_of rec.new ≡ write_held (sheet_in t.now) (record_of rec.old).known.held (record_of rec.old) r.0 }
{
    let v = rec.held(r);
    if v != NONE {
        rec.write_units(units(t, r), r, Value(v));
    }
}

fn write_all_held(t: &[u32], rec: &mut WalkRecord)
    ensures { record_of rec.new ≡ run (write_held (sheet_in t.now) (record_of rec.old).known.held) (record_of rec.old) (from 0 (reg_count (sheet_in t.now))) }
{
    for r in 0..count(t, Kind::REG) {
        write_held(t, rec, PhysReg(r));
    }
}

// The record as block b begins, before its parameters.
pub fn take_in(t: &[u32], rec: &mut WalkRecord, states: &[u32], b: Block)
    ensures { record_of rec.new ≡ take_in (sheet_in t.now) (get_or (state_in states.now b.0) nothing) (record_of rec.old) }
{
    begin_empty(rec);
    if is_set(states, b) {
        take_known(rec, states, b);
        write_all_held(t, rec);
    }
}

// v is not handed to a sole successor that its defining block is not smaller than.
fn handed(rec: &WalkRecord, sole: bool, b: Block, v: u32) -> u32
    ensures { result ≡ handed_in (record_of rec.now) sole b.0 v }
{
    if v == NONE {
        return NONE;
    }
    if sole {
        if b.0 <= rec.defined(Value(v)) {
            return NONE;
        }
    }
    v
}

// The first state of block b.
#[tactic(auto, unfolding(crate::specs::States::fits))]
fn first_state(rec: &WalkRecord, states: &mut [u32], sole: bool, b: Block)
    ensures { (sh : Sheet) → Sets states.old states.new b.0 (first_state sh (sole_in sole b.0) (record_of rec.now)) }
{
    if fits(states, b) {
        states[b.0 as usize] = 1;
        let at = FLAGS + b.0 as usize * KNOWN;
        for (i, v) in rec.cells[HELD..DEFINED].iter().enumerate() {
            states[at + i] = handed(rec, sole, b, *v);
        }
    }
}

// v, if x is v too.
fn both(v: u32, x: u32) -> u32
    ensures { result ≡ cond (eqb v x) v absent }
{
    if v == x { v } else { NONE }
}

// Some pair went before, or this one did.
fn gone(went: bool, v: u32, l: u32) -> bool
    ensures { result ≡ (went || not (eqb l v)) }
{
    went || l != v
}

// Takes away pairs not now known; true if some went.
#[tactic(auto, unfolding(crate::specs::States::fits))]
fn meet(rec: &WalkRecord, states: &mut [u32], b: Block) -> bool
    ensures { (sh : Sheet) → is_set states.old b.0 ≡ true → Meets sh (record_of rec.now) states.old states.new b.0 result }
{
    let mut went = false;
    if fits(states, b) {
        let at = FLAGS + b.0 as usize * KNOWN;
        for (i, x) in rec.cells[HELD..DEFINED].iter().enumerate() {
            let v = states[at + i];
            let l = both(v, *x);
            went = gone(went, v, l);
            states[at + i] = l;
        }
    }
    went
}

fn hand_to(
    rec: &WalkRecord,
    states: &mut [u32],
    waiting: BlockSet,
    sole: bool,
    b: Block,
) -> BlockSet
    ensures { (sh : Sheet) (n a : ℕ) (h : Handed) → b.0 < n → first_state sh (sole_in sole b.0) (record_of rec.now) ≡ first_state sh (succs_of sh a) (record_of rec.now) → Lies n states.old waiting.0 h → Lies n states.new result.0 (hand_to sh a (record_of rec.now) h b.0) }
{
    if is_set(states, b) {
        if meet(rec, states, b) {
            return waiting.insert(b);
        }
        return waiting;
    }
    first_state(rec, states, sole, b);
    waiting.insert(b)
}

// The record is handed to the successors of block b; gives back the blocks that wait.
pub fn hand_on(
    t: &[u32],
    rec: &WalkRecord,
    states: &mut [u32],
    waiting: BlockSet,
    b: Block,
) -> BlockSet
    ensures { Ready t.now → (h : Handed) → Lies (block_count (sheet_in t.now)) states.old waiting.0 h → Lies (block_count (sheet_in t.now)) states.new result.0 (hand_on (sheet_in t.now) b.0 (record_of rec.now) h) }
{
    let bs = succs(t, b);
    let sole = bs.len() == 1;
    let mut w = waiting;
    for x in bs {
        w = hand_to(rec, states, w, sole, Block(*x));
    }
    w
}
