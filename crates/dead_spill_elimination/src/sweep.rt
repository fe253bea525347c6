// The striking of edits whose slot is not wanted, from the end of each block to its start, and the sweep. The edits stay as they are while those that are
// struck are marked; the marks are applied by crate `marks`.
ghost use Rattle.std.specs.Prelude.{◌≡◌, List, [], ◌∷◌, ◌++◌, map, ℕ, ◌≤◌, ◌<◌, length, get_or, replicate};
ghost use Rattle.bits.specs.declared.sets.NumberSet.{NumberSet};
ghost use Rattle.entity.specs.Limits.{block_limit};
ghost use Rattle.rules.specs.Sheet.{block_count, insts_of};
ghost use Rattle.rules.specs.Forward.{edits_at};
ghost use Rattle.rules.specs.Function.{Item, row, ins, items, In};
ghost use Rattle.rules.specs.Sweep.{struck};
ghost use Rattle.table.specs.Edits.{edit_in};
ghost use Rattle.marks.specs.Marks.{applied};
ghost use Rattle.dead_spill_elimination.specs.Slots.{numbers};
ghost use Rattle.dead_spill_elimination.specs.Strikes.{Few, Struck, Work, Pos, Rows, Linked, All, Outcome};
ghost use Rattle.dead_spill_elimination.specs.Touched.{touched_to};
ghost use Rattle.dead_spill_elimination.specs.Held.{Held, Swept};
ghost use Rattle.table.specs.Rows.{count_in};
ghost use Rattle.table.specs.Sheet.{sheet_in};

use crate::ends::{settle, slots_of};
use crate::touched::{LENGTH, touch_all};
use crate::wanted::{before_edit, before_inst, is_dead};
use bits::tables::{read, store};
use entity::forms::Edit;
use entity::numbers::{Block, EditRow, Inst};
use entity::sets::SlotSet;
use marks::{ROWS, mark_cells};
use table::counts::{Count, tally};
use table::edits::read_edit;
use table::index::{Range, edit_rows, insts_of};
use table::rows::{Kind, count};

const BLOCKS: usize = Block::LIMIT as usize;

// An edit that is struck is counted.
fn count_struck(counts: &mut [u32], e: Edit)
    ensures { Few counts.old → counts.new ≡ struck counts.old (e, Edit.Nothing) }
{
    match e {
        Edit::Move { .. } => tally(counts, Count::DEAD_SPILL),
        Edit::Remat { .. } => tally(counts, Count::DEAD_REMAT),
        _ => {}
    }
}

// Row n of the edits, of which those that are marked are struck.
fn unstruck(edits: &[u32], marks: &[u8], n: EditRow) -> Edit
    ensures { result ≡ edit_in (applied edits.now marks.now) n.0 }
{
    if read(marks, n.0 as usize, 0) != 0 {
        return Edit::Nothing;
    }
    read_edit(edits, n)
}

// Row n is marked if it is dead; what is wanted before it.
fn strike(edits: &[u32], marks: &mut [u8], counts: &mut [u32], n: EditRow, live: SlotSet) -> SlotSet
    ensures { Struck n.0 live.0 edits.now marks.old counts.old marks.new counts.new result.0 }
{
    let e = unstruck(edits, marks, n);
    if is_dead(e, live) {
        store(marks, n.0 as usize, 1);
        count_struck(counts, e);
    }
    before_edit(e, live)
}

fn strike_edits(
    edits: &[u32],
    marks: &mut [u8],
    counts: &mut [u32],
    rows: Range,
    mut live: SlotSet,
) -> SlotSet
    ensures { (w : Work) (l : List Item) → Rows w (numbers rows) l → Pos w l edits.now marks.old counts.old live.0
        → Pos w (map row (numbers rows) ++ l) edits.now marks.new counts.new result.0 }
{
    for n in (rows.from..rows.to).rev() {
        live = strike(edits, marks, counts, EditRow(n), live);
    }
    live
}

// The edits at instruction i, where `live` are wanted after it.
fn strike_inst(
    t: &[u32],
    edits: &[u32],
    touched: &[u64],
    marks: &mut [u8],
    counts: &mut [u32],
    i: Inst,
    live: SlotSet,
) -> SlotSet
    ensures { (w : Work) (l : List Item) → Linked t.now touched.now w.sheet w.places w.edits w.counts → Rows w (edits_at w.sheet i.0) l
        → Pos w l edits.now marks.old counts.old live.0
        → Pos w (map row (edits_at w.sheet i.0) ++ (ins i.0 ∷ l)) edits.now marks.new counts.new result.0 }
{
    let after = before_inst(touched, i, live);
    strike_edits(edits, marks, counts, edit_rows(t, i), after)
}

fn strike_block(
    t: &[u32],
    edits: &[u32],
    touched: &[u64],
    marks: &mut [u8],
    counts: &mut [u32],
    b: Block,
    mut live: SlotSet,
)
    ensures { (w : Work) → Linked t.now touched.now w.sheet w.places w.edits w.counts
        → ((i j : ℕ) → In i (insts_of w.sheet b.0) → In j (edits_at w.sheet i) → get_or w.now j Edit.Nothing ≡ get_or w.edits j Edit.Nothing)
        → Pos w [] edits.now marks.old counts.old live.0
        → (S : NumberSet) × Pos w (items w.sheet b.0) edits.now marks.new counts.new S }
{
    let insts = insts_of(t, b);
    for i in (insts.from..insts.to).rev() {
        live = strike_inst(t, edits, touched, marks, counts, Inst(i), live);
    }
}

// Each block, where `ends` has the slots wanted at its end.
fn strike_all(
    t: &[u32],
    edits: &[u32],
    touched: &[u64],
    marks: &mut [u8],
    counts: &mut [u32],
    ends: &[u64],
)
    requires { length ends.now ≤ block_limit }
    ensures { (h : All t.now touched.now edits.now marks.old counts.old ends.now)
        → Outcome h marks.new counts.new }
{
    for (b, end) in ends.iter().enumerate() {
        let live = slots_of(*end);
        strike_block(t, edits, touched, marks, counts, Block(b as u32), live);
    }
}

// The sweep, with two words of slots for each instruction, a word of slots and a flag for each block and a mark for each edit. The core marks the edits that are dead; those that are marked are struck
// in a lent list of edit records.
fn sweep_in(
    t: &[u32],
    edits: &mut [u32],
    touched: &[u64],
    counts: &mut [u32],
    ends: &mut [u64],
    wait: &mut [u8],
    marks: &mut [u8],
)
    requires few { length wait.old ≤ block_limit }
    requires many { length ends.old ≡ length wait.old }
    requires none { (b : ℕ) → get_or ends.old b 0 ≡ 0 }
    requires all { (b : ℕ) → b < length wait.old → get_or wait.old b 0 ≡ 0 → ⊥ }
    requires unmarked { (n : ℕ) → get_or marks.old n 0 ≡ 0 }
    ensures { (places : List ℕ) → touched.now ≡ touched_to t.now places (replicate 1024 0) (count_in t.now 10)
        → Held t.now edits.old places counts.old → length wait.old ≡ block_count (sheet_in t.now)
        → length marks.old ≡ length (sheet_in t.now).edits
        → Swept t.now edits.old places counts.old edits.new counts.new }
{
    settle(t, edits, touched, ends, wait);
    strike_all(t, edits, touched, marks, counts, ends);
    mark_cells(edits, marks);
}

// The edits in their cells, swept, and the two counts.
pub fn sweep_edits(t: &[u32], edits: &mut [u32], places: &[u32], counts: &mut [u32])
    ensures { Held t.now edits.old places.now counts.old
        → Swept t.now edits.old places.now counts.old edits.new counts.new }
{
    let mut touched = [0u64; LENGTH];
    touch_all(t, places, &mut touched);
    let mut ends = [0u64; BLOCKS];
    let mut wait = [1u8; BLOCKS];
    let mut marks = [0u8; ROWS];
    let n = count(t, Kind::BLOCK).min(Block::LIMIT) as usize;
    let m = count(t, Kind::EDIT).min(EditRow::LIMIT) as usize;
    sweep_in(
        t,
        edits,
        &touched,
        counts,
        &mut ends[..n],
        &mut wait[..n],
        &mut marks[..m],
    );
}
