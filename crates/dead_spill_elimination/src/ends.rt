// The slots wanted at each block's end, by going back over the blocks until none waits. What is wanted is a word for each block: there are 64 slots.
ghost use Rattle.std.specs.Prelude.{◌≡◌, ◌↔◌, true, ℕ, ◌+◌, ◌≤◌, ◌<◌, length, get_or, List, MatchOption};
ghost use Rattle.laws.specs.Digits.{bit};
ghost use Rattle.rules.specs.Function.{Func};
ghost use Rattle.run.specs.Swept.{WantedAtEnd};
ghost use Rattle.dead_spill_elimination.specs.Slots.{Same};
ghost use Rattle.dead_spill_elimination.specs.Worklist.{State, give, spread, Highest, Word, Turned, Facts};

use crate::wanted::before_block;
use bits::sets::NumberSet;
use bits::tables::{read, store};
use entity::numbers::Block;
use entity::sets::SlotSet;
use graph::preds;

// Stays: words and flags are lent side by side in fixed memory; the definition `State` has the two lists.
// The set of a word.
pub fn slots_of(w: u64) -> SlotSet
    ensures { (A : List ℕ) → Word w A → Same result.0 A }
{
    SlotSet::of(NumberSet {
        words: [w, 0, 0, 0],
    })
}

// The word of a set of slots.
pub fn word_of(s: SlotSet) -> u64
    ensures { (A : List ℕ) → Same s.0 A → Word result A }
{
    let n = s.0;
    n.words[0]
}

// The highest block that waits.
fn highest(wait: &[u8]) -> Option<usize>
    ensures { MatchOption result (Highest wait.now 0) (λ b. Highest wait.now (b + 1)) }
{
    wait.iter().rposition(|w| *w != 0)
}

// A block's end wants the slots of v too; if that is more than before, the block waits.
fn hand_to(p: u32, v: u64, ends: &mut [u64], wait: &mut [u8])
    ensures { record { live = ends.new; wait = wait.new } ≡ give v (record { live = ends.old; wait = wait.old }) p }
{
    let at = p as usize;
    let old = read(ends, at, 0);
    let new = old | v;
    if new == old {
        return;
    }
    store(ends, at, new);
    store(wait, at, 1);
}

// What is wanted at a block's start is wanted at its predecessors' ends.
fn hand_back(ps: &[u32], v: u64, ends: &mut [u64], wait: &mut [u8])
    ensures { record { live = ends.new; wait = wait.new } ≡ spread ps.now v (record { live = ends.old; wait = wait.old }) }
{
    for p in ps {
        hand_to(*p, v, ends, wait);
    }
}

// A turn at block b, which waits no more.
fn turn(t: &[u32], edits: &[u32], touched: &[u64], b: u32, ends: &mut [u64], wait: &mut [u8])
    ensures { Turned t.now edits.now touched.now b (record { live = ends.old; wait = wait.old }) (record { live = ends.new; wait = wait.new }) }
{
    let at = b as usize;
    store(wait, at, 0);
    let end = slots_of(read(ends, at, 0));
    let start = before_block(t, edits, touched, Block(b), end);
    hand_back(preds(t, Block(b)), word_of(start), ends, wait);
}

// From nothing wanted and every block waiting, until none waits.
pub fn settle(t: &[u32], edits: &[u32], touched: &[u64], ends: &mut [u64], wait: &mut [u8])
    requires few { length wait.old ≤ 64 }
    requires many { length ends.old ≡ length wait.old }
    requires none { (b : ℕ) → get_or ends.old b 0 ≡ 0 }
    requires all { (b : ℕ) → b < length wait.old → get_or wait.old b 0 ≡ 0 → ⊥ }
    ensures { (f : Func) → Facts t.now edits.now touched.now f (length wait.old) → (b s : ℕ) → (bit (get_or ends.new b 0) s ≡ true) ↔ WantedAtEnd f b s }
{
    while let Some(b) = highest(wait) {
        turn(t, edits, touched, b as u32, ends, wait);
    }
}
