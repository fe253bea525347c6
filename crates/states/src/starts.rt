// What `Forward` and `Global` start with.
ghost use Rattle.std.specs.Prelude.{◌≡◌, false, ℕ, ◌+◌};
ghost use Rattle.bits.specs.Sets.{set_of};
ghost use Rattle.bits.specs.declared.sets.NumberSet.{NumberSet};
ghost use Rattle.rules.specs.Sheet.{block_count};
ghost use Rattle.rules.specs.Accept.{is_entry};
ghost use Rattle.rules.specs.Forward.{begins_empty, forward_start, global_start};
ghost use Rattle.table.specs.Sheet.{sheet_in};
ghost use Rattle.table.specs.Index.{Ready};
ghost use Rattle.states.specs.States.{Unset, Started, Waits, Lies};

use crate::handed::set_nothing;
use entity::numbers::Block;
use entity::sets::BlockSet;
use graph::preds;
use table::rows::{Kind, count};
use table::view::is_entry;

// Block b is an entry, or has several predecessors, one not smaller than it.
fn begins_empty(t: &[u32], b: Block) -> bool
    ensures { Ready t.now → result ≡ begins_empty (sheet_in t.now) b.0 }
{
    if is_entry(t, b) {
        return true;
    }
    let ps = preds(t, b);
    ps.len() > 1 && ps.iter().any(|p| b.0 <= *p)
}

// Block b is set, if it begins empty.
fn empty_at(t: &[u32], states: &mut [u32], b: Block)
    ensures { Ready t.now → (n : ℕ) → Started (begins_empty (sheet_in t.now)) n states.old b.0 → Started (begins_empty (sheet_in t.now)) n states.new (b.0 + 1) }
{
    if begins_empty(t, b) {
        set_nothing(states, b);
    }
}

// The blocks that begin empty are set to that.
pub fn forward_start(t: &[u32], states: &mut [u32])
    ensures { Ready t.now → Unset (block_count (sheet_in t.now)) states.old → (w : NumberSet) → w ≡ set_of (λ k. false) → Lies (block_count (sheet_in t.now)) states.new w (forward_start (sheet_in t.now)) }
{
    for b in 0..count(t, Kind::BLOCK) {
        empty_at(t, states, Block(b));
    }
}

// Block b is set and waits, if it is an entry.
fn entry_at(t: &[u32], states: &mut [u32], w: BlockSet, b: Block) -> BlockSet
    ensures started { (n : ℕ) → Started (is_entry (sheet_in t.now)) n states.old b.0 → Started (is_entry (sheet_in t.now)) n states.new (b.0 + 1) }
    ensures waits { Waits (is_entry (sheet_in t.now)) w.0 b.0 → Waits (is_entry (sheet_in t.now)) result.0 (b.0 + 1) }
{
    if is_entry(t, b) {
        set_nothing(states, b);
        return w.insert(b);
    }
    w
}

// The entries begin with nothing known, and wait.
pub fn global_start(t: &[u32], states: &mut [u32]) -> BlockSet
    ensures { Ready t.now → Unset (block_count (sheet_in t.now)) states.old → Lies (block_count (sheet_in t.now)) states.new result.0 (global_start (sheet_in t.now)) }
{
    let mut w = BlockSet::empty();
    for b in 0..count(t, Kind::BLOCK) {
        w = entry_at(t, states, w, Block(b));
    }
    w
}
