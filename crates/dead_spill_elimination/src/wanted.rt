// The slots wanted before an edit, an instruction and a block, from those wanted after it.
ghost use Rattle.std.specs.Prelude.{◌≡◌, List, ◌++◌, ℕ};
ghost use Rattle.rules.specs.Function.{edit, slot_of, into, to_place, In};
ghost use Rattle.rules.specs.Sweep.{without_all, wanted_by, wanted_before};
ghost use Rattle.table.specs.Edits.{edit_in};
ghost use Rattle.dead_spill_elimination.specs.Slots.{Same, Low, LowReads, lacks, dead_in, numbers, edits_back, inst_back, block_back, Lows};

use crate::ends::{slots_of, word_of};
use crate::touched::WIDTH;
use bits::tables::read;
use entity::forms::{Edit, Place};
use entity::numbers::{Block, EditRow, Inst, SpillSlot};
use entity::sets::SlotSet;
use table::edits::read_edit;
use table::index::{Range, edit_rows, insts_of};

// The slots with that of a place, if it is one.
fn with_place(live: SlotSet, p: Place) -> SlotSet
    ensures { (A : List ℕ) → Low (slot_of p) → Same live.0 A → Same result.0 (slot_of p ++ A) }
{
    match p {
        Place::Slot(s) => live.insert(s),
        Place::Reg(_) => live,
    }
}

fn without_place(live: SlotSet, p: Place) -> SlotSet
    ensures { (A : List ℕ) → Same live.0 A → Same result.0 (without_all (slot_of p) A) }
{
    match p {
        Place::Slot(s) => live.remove(s),
        Place::Reg(_) => live,
    }
}

// The slots wanted before a move into slot `to`.
fn moved(live: SlotSet, to: SpillSlot, from: Place) -> SlotSet
    ensures { (A : List ℕ) → Low (slot_of from) → Same live.0 A → Same result.0 (wanted_by (into to.0) (slot_of from) A) }
{
    if live.contains(to) {
        return with_place(live.remove(to), from);
    }
    live
}

// The place is a slot that is not wanted.
fn unwanted(live: SlotSet, p: Place) -> bool
    ensures { result ≡ lacks live.0 (to_place p) }
{
    match p {
        Place::Slot(s) => !live.contains(s),
        Place::Reg(_) => false,
    }
}

// A move or rematerialisation into a slot that is not wanted after it.
pub fn is_dead(e: Edit, live: SlotSet) -> bool
    ensures { result ≡ dead_in live.0 e }
{
    match e {
        Edit::Move { to, .. } | Edit::Remat { to, .. } => unwanted(live, to),
        _ => false,
    }
}

// The slots wanted before an edit.
pub fn before_edit(e: Edit, live: SlotSet) -> SlotSet
    ensures { (A : List ℕ) → LowReads (edit e) → Same live.0 A → Same result.0 (wanted_before (edit e) A) }
{
    match e {
        Edit::Move {
            to: Place::Slot(to),
            from,
            ..
        } => moved(live, to, from),
        Edit::Move {
            to: Place::Reg(_),
            from,
            ..
        } => with_place(live, from),
        Edit::Remat { to, .. } => without_place(live, to),
        Edit::Espill { to, .. } => live.remove(to),
        Edit::Ereload { from, .. } => live.insert(from),
        Edit::Misplaced { .. } | Edit::Nothing => live,
    }
}

// The defined slots are taken away, then the used ones added.
pub fn before_inst(touched: &[u64], i: Inst, live: SlotSet) -> SlotSet
    ensures { (A : List ℕ) → Same live.0 A → Same result.0 (inst_back touched.now i.0 A) }
{
    let at = i.0 as usize * WIDTH;
    let defs = read(touched, at, 0);
    let uses = read(touched, at + 1, 0);
    slots_of((word_of(live) & !defs) | uses)
}

fn before_edits(edits: &[u32], rows: Range, mut live: SlotSet) -> SlotSet
    ensures { (A : List ℕ) → ((j : ℕ) → In j (numbers rows) → LowReads (edit (edit_in edits.now j))) → Same live.0 A → Same result.0 (edits_back edits.now (numbers rows) A) }
{
    for n in (rows.from..rows.to).rev() {
        live = before_edit(read_edit(edits, EditRow(n)), live);
    }
    live
}

// The slots wanted at a block's start, where `live` are wanted at its end.
pub fn before_block(
    t: &[u32],
    edits: &[u32],
    touched: &[u64],
    b: Block,
    mut live: SlotSet,
) -> SlotSet
    ensures { (A : List ℕ) → Lows t.now edits.now → Same live.0 A
        → Same result.0 (block_back t.now edits.now touched.now b.0 A) }
{
    let insts = insts_of(t, b);
    for i in (insts.from..insts.to).rev() {
        live = before_edits(
            edits,
            edit_rows(t, Inst(i)),
            before_inst(touched, Inst(i), live),
        );
    }
    live
}
