// A block in either walk, and the four levels.
ghost use Rattle.std.specs.Prelude.{◌≡◌, List, ℕ, ◌+◌, ◌<◌, ◌≤◌, length};
ghost use Rattle.std.proofs.Math.Option.{get_or};
ghost use Rattle.rules.specs.Sheet.{block_count};
ghost use Rattle.rules.specs.Record.{nothing, fresh};
ghost use Rattle.rules.specs.Forward.{Walk, Handed, optimise_block, visit, visits, most_visits, global_start, optimise};
ghost use Rattle.table.specs.Sheet.{sheet_in};
ghost use Rattle.table.specs.Index.{Ready};
ghost use Rattle.table.specs.Edits.{edits_in};
ghost use Rattle.record.specs.Flat.{record_of};
ghost use Rattle.states.specs.Layout.{state_at};
ghost use Rattle.states.specs.States.{state_in, Unset};
ghost use Rattle.holders.specs.Holders.{Filled};
ghost use Rattle.moves.specs.Walks.{Ordered, Written, Walked, entered, optimised, prepared, all_most, block_most, visit_most, walk_most};
ghost use Rattle.move_optimizer.specs.Levels.{SameCells, Goes, Stands, Rests, handed_blocks, Optimises};

use entity::forms::Level;
use entity::numbers::{Block, Inst, ParamRow};
use entity::sets::BlockSet;
use folding::{optimise_inst, prepare_inst};
use graph::succs;
use holders::{WORDS, fill};
use moves::{optimise_edits, prepare_edits};
use record::flat::{LENGTH, NONE, WalkRecord};
use states::handed::{FLAGS, KNOWN, begin_empty, hand_on, take_in};
use states::starts::{forward_start, global_start};
use table::counts::{Count, tally};
use table::index::{insts_of, param_rows};
use table::rows::{Kind, count};
use table::view::param_at;

// How long a table with the states of 4, of 16 and of all blocks is. One without states is its flags.
const FEW: usize = FLAGS + 4 * KNOWN;

const SOME: usize = FLAGS + 16 * KNOWN;

const ALL: usize = FLAGS + Block::LIMIT as usize * KNOWN;

// What a walk goes on in: its record, and the edits, places and counts that are lent.
#[derive(Drop)]
struct Cells<'a> {
    rec: &'a mut WalkRecord,
    edits: &'a mut [u32],
    places: &'a mut [u32],
    counts: &'a mut [u32],
}

// Each parameter row of block b defines its value at its place.
fn enter(t: &[u32], rec: &mut WalkRecord, b: Block)
    ensures { Ready t.now → record_of rec.new ≡ entered (sheet_in t.now) b.0 (record_of rec.old) }
{
    let rows = param_rows(t, b);
    for n in rows.from..rows.to {
        let p = param_at(t, ParamRow(n));
        rec.define(t, b, p.value, p.place);
    }
}

// Block b in the optimising walk, the record as it begins.
fn optimise_block(t: &[u32], classes: &[u64; WORDS], c: &mut Cells, b: Block)
    ensures lent { SameCells c.old c.new }
    ensures goes { Ordered t.now → Filled (sheet_in t.now) classes.now
        → Goes t.now c.old c.new block_most (optimised (sheet_in t.now) b.0) }
{
    enter(t, c.rec, b);
    let rows = insts_of(t, b);
    for i in rows.from..rows.to {
        optimise_edits(t, c.rec, classes, c.edits, c.counts, b, Inst(i));
        optimise_inst(t, c.rec, classes, c.places, c.counts, b, Inst(i));
    }
}

// Block b in the optimising walk, with what was handed to it.
fn optimise_handed(t: &[u32], classes: &[u64; WORDS], states: &[u32], c: &mut Cells, b: Block)
    ensures lent { SameCells c.old c.new }
    ensures goes { Ordered t.now → Filled (sheet_in t.now) classes.now
        → Goes t.now c.old c.new block_most (optimise_block (sheet_in t.now) b.0 (get_or (state_in states.now b.0) nothing)) }
{
    take_in(t, c.rec, states, b);
    optimise_block(t, classes, c, b);
}

// Block b in the preparing walk.
fn prepare_block(t: &[u32], rec: &mut WalkRecord, edits: &[u32], b: Block)
    ensures { Ordered t.now → record_of rec.new ≡ prepared (sheet_in t.now) b.0 (edits_in edits.now (length (sheet_in t.now).edits)) (record_of rec.old) }
{
    enter(t, rec, b);
    let rows = insts_of(t, b);
    for i in rows.from..rows.to {
        prepare_edits(t, rec, edits, Inst(i));
        prepare_inst(t, rec, b, Inst(i));
    }
}

// Each block begins with nothing known.
fn local(t: &[u32], classes: &[u64; WORDS], c: &mut Cells)
    ensures lent { SameCells c.old c.new }
    ensures goes { Ordered t.now → Filled (sheet_in t.now) classes.now
        → Goes t.now c.old c.new all_most (optimise (sheet_in t.now) Level.Local) }
{
    for b in 0..count(t, Kind::BLOCK) {
        begin_empty(c.rec);
        optimise_block(t, classes, c, Block(b));
    }
}

// Each block begins with what the blocks before it handed to it.
fn forward(t: &[u32], classes: &[u64; WORDS], states: &mut [u32], c: &mut Cells)
    ensures lent { SameCells c.old c.new }
    ensures goes { Ordered t.now → Filled (sheet_in t.now) classes.now → Unset (block_count (sheet_in t.now)) states.old
        → Goes t.now c.old c.new all_most (optimise (sheet_in t.now) Level.Forward) }
{
    forward_start(t, states);
    let mut w = BlockSet::empty();
    for b in 0..count(t, Kind::BLOCK) {
        optimise_handed(t, classes, states, c, Block(b));
        w = hand_on(t, c.rec, states, w, Block(b));
    }
}

// Block b is visited; an exit block is not counted or walked.
// Stays: the parameters one by one, here and in `visits`; the preparing walk only reads the edits, as `&[u32]` says, and out of one `&mut Cells` a clause would have to.
fn visit(
    t: &[u32],
    rec: &mut WalkRecord,
    states: &mut [u32],
    edits: &[u32],
    counts: &mut [u32],
    waiting: BlockSet,
    b: Block,
) -> BlockSet
    ensures { Ordered t.now → (places : List ℕ) (n : ℕ) → b.0 < block_count (sheet_in t.now) → (wh : Walk × Handed)
        → Stands t.now rec.old states.old edits.now places counts.old waiting.0 (n + 1) wh
        → Stands t.now rec.new states.new edits.now places counts.new result.0 n (visit (sheet_in t.now) wh b.0) }
{
    let w = waiting.remove(b);
    if succs(t, b).len() == 0 {
        return w;
    }
    take_in(t, rec, states, b);
    prepare_block(t, rec, edits, b);
    tally(counts, Count::PREPROCESSED);
    hand_on(t, rec, states, w, b)
}

// The smallest waiting block is visited, until none waits. A block waits at first if it is an entry, once when its state is first set, and
// again only when that lost one of its pairs.
fn visits(t: &[u32], rec: &mut WalkRecord, states: &mut [u32], edits: &[u32], counts: &mut [u32])
    ensures { Ordered t.now → Unset (block_count (sheet_in t.now)) states.old → (places : List ℕ) (n : ℕ) (w : Walk)
        → Walked t.now rec.old edits.now places counts.old (n + visit_most) w
        → Rests t.now rec.new states.new edits.now places counts.new n (visits (sheet_in t.now) (most_visits (sheet_in t.now)) (w, global_start (sheet_in t.now))) }
{
    let mut w = global_start(t, states);
    let most = Block::LIMIT * (KNOWN as u32 + 2);
    for _ in 0..most {
        match w.lowest() {
            Some(b) => w = visit(t, rec, states, edits, counts, w, b),
            None => return,
        }
    }
}

// Each block begins with what the visits handed to it; the record goes on from them.
fn global(t: &[u32], classes: &[u64; WORDS], states: &mut [u32], c: &mut Cells)
    ensures lent { SameCells c.old c.new }
    ensures goes { Ordered t.now → Filled (sheet_in t.now) classes.now → Unset (block_count (sheet_in t.now)) states.old
        → Goes t.now c.old c.new (all_most + visit_most) (optimise (sheet_in t.now) Level.Global) }
{
    // lent by themselves, as the visits read them beside the record
    let edits = &mut *c.edits;
    visits(t, c.rec, states, edits, c.counts);
    for b in 0..count(t, Kind::BLOCK) {
        optimise_handed(t, classes, states, c, Block(b));
    }
}

// A level's walk, with a table for the states lent to it.
fn walk(
    t: &[u32],
    level: Level,
    states: &mut [u32],
    edits: &mut [u32],
    places: &mut [u32],
    counts: &mut [u32],
)
    ensures { Ordered t.now → Unset (handed_blocks (sheet_in t.now) level) states.old
        → Optimises t.now level edits.old places.old counts.old edits.new places.new counts.new }
{
    let mut classes = [0u64; WORDS];
    fill(t, &mut classes);
    // Filled in its place: a record made of an array of `NONE` is copied once more.
    let mut rec = WalkRecord { cells: [0; LENGTH] };
    rec.cells.fill(NONE);
    let mut c = Cells {
        rec: &mut rec,
        edits,
        places,
        counts,
    };
    match level {
        Level::Off => {}
        Level::Local => local(t, &classes, &mut c),
        Level::Forward => forward(t, &classes, states, &mut c),
        Level::Global => global(t, &classes, states, &mut c),
    }
}

// The walk with a table of N cells for the states.
fn walk_in<const N: usize>(
    t: &[u32],
    level: Level,
    edits: &mut [u32],
    places: &mut [u32],
    counts: &mut [u32],
)
    requires { N ≤ ALL }
    ensures { Ordered t.now → state_at (handed_blocks (sheet_in t.now) level) ≤ N
        → Optimises t.now level edits.old places.old counts.old edits.new places.new counts.new }
{
    let mut states = [0u32; N];
    walk(t, level, &mut states, edits, places, counts)
}

// How many blocks have a state at a level.
fn handed_blocks(t: &[u32], level: Level) -> u32
    ensures { result ≡ handed_blocks (sheet_in t.now) level }
{
    match level {
        Level::Off | Level::Local => 0,
        Level::Forward | Level::Global => count(t, Kind::BLOCK),
    }
}

// The walk with the smallest table that has room: its clearing is a good part of a small sheet's time.
fn by_blocks(t: &[u32], level: Level, edits: &mut [u32], places: &mut [u32], counts: &mut [u32])
    ensures { Ordered t.now
        → Optimises t.now level edits.old places.old counts.old edits.new places.new counts.new }
{
    let n = handed_blocks(t, level);
    if n == 0 {
        walk_in::<FLAGS>(t, level, edits, places, counts)
    } else if n <= 4 {
        walk_in::<FEW>(t, level, edits, places, counts)
    } else if n <= 16 {
        walk_in::<SOME>(t, level, edits, places, counts)
    } else {
        walk_in::<ALL>(t, level, edits, places, counts)
    }
}

// The edits, places and counts after the forward rules. Only the levels that hand on have states.
pub fn optimise(t: &[u32], level: Level, edits: &mut [u32], places: &mut [u32], counts: &mut [u32])
    ensures { Ordered t.now → (n : ℕ) (w : Walk) → w.rec ≡ fresh → Written t.now edits.old places.old counts.old (n + walk_most) w
        → Written t.now edits.new places.new counts.new n (optimise (sheet_in t.now) level w) }
{
    match level {
        Level::Off => {}
        _ => by_blocks(t, level, edits, places, counts),
    }
}
