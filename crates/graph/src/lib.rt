// How blocks stand to each other: their neighbours as the rows list them, and dominance by the rows' idoms.
#![tactic(auto)]

ghost use Rattle.std.specs.Prelude.{◌≡◌};
ghost use Rattle.entity.specs.Limits.{block_limit};
ghost use Rattle.rules.specs.Sheet.{succs_of, preds_of};
ghost use Rattle.rules.specs.Forward.{dominates};
ghost use Rattle.table.specs.Layout.{pred_index, succ_index};
ghost use Rattle.table.specs.Sheet.{sheet_in};
ghost use Rattle.table.specs.Index.{range_in, Ready};
ghost use Rattle.graph.specs.Graph.{chosen, part_in, base_in, stretch_in, list_in};

use bits::tables::read;
use entity::numbers::Block;
use table::INDEX;
use table::index::{Range, pred_rows, succ_rows};
use table::rows::{Kind, part, start};
use table::view::idom;

// Stays: `neighbours_of` is public, and what it ensures names the direction.
#[derive(Clone, Copy)]
pub enum Direction {
    Successors,
    Predecessors,
}

// A part of the successor list or of the predecessor list.
#[tactic(auto, unfolding(crate::specs::Graph::chosen, crate::specs::Graph::part_in))]
fn neighbours<'a>(d: Direction, succs: &'a [u32], preds: &'a [u32], at: Range) -> &'a [u32]
    ensures { result.now ≡ part_in at (chosen d succs.now preds.now) }
{
    let from = at.from as usize;
    let to = at.to as usize;
    match d {
        Direction::Successors => part(succs, from, to),
        Direction::Predecessors => part(preds, from, to),
    }
}

// Where the rows of a kind start.
#[tactic(auto, unfolding(crate::specs::Graph::base_in))]
fn first_cell(t: &[u32], k: Kind) -> u32
    ensures { result ≡ base_in t.now k.0 }
{
    start(t, read(t, INDEX + k.0 as usize, 0) as usize)
}

// The cells of all rows of a kind, up to the rows of the next one.
#[tactic(auto, unfolding(crate::specs::Graph::stretch_in))]
fn stretch(t: &[u32], k: Kind, next: Kind) -> &[u32]
    ensures { result.now ≡ stretch_in t.now k.0 next.0 }
{
    part(t, first_cell(t, k) as usize, first_cell(t, next) as usize)
}

// Where, in the stretch of a kind, the list of the one row stands that a range has, if any.
#[tactic(auto, unfolding(crate::specs::Graph::list_in))]
fn list_at(t: &[u32], k: Kind, rows: Range) -> Range
    ensures { result ≡ list_in t.now k.0 rows }
{
    if rows.to <= rows.from {
        return Range { from: 0, to: 0 };
    }
    let base = first_cell(t, k);
    let row = (read(t, INDEX + k.0 as usize, 0) % 65536 + rows.from % 65536) as usize;
    Range {
        from: (start(t, row) % 65536 + 2).saturating_sub(base),
        to: start(t, row + 1).saturating_sub(base),
    }
}

// Where a block's neighbours stand in their list.
#[tactic(auto, unfolding(crate::specs::Graph::chosen))]
fn neighbours_at(t: &[u32], d: Direction, b: Block) -> Range
    ensures { result ≡ chosen d (list_in t.now 7 (range_in t.now succ_index block_limit b.0)) (list_in t.now 8 (range_in t.now pred_index block_limit b.0)) }
{
    match d {
        Direction::Successors => list_at(t, Kind::SUCC, succ_rows(t, b)),
        Direction::Predecessors => list_at(t, Kind::PRED, pred_rows(t, b)),
    }
}

pub fn neighbours_of(t: &[u32], d: Direction, b: Block) -> &[u32]
    ensures { Ready t.now → result.now ≡ chosen d (succs_of (sheet_in t.now) b.0) (preds_of (sheet_in t.now) b.0) }
{
    let succs = stretch(t, Kind::SUCC, Kind::PRED);
    let preds = stretch(t, Kind::PRED, Kind::PARAM);
    neighbours(d, succs, preds, neighbours_at(t, d, b))
}

#[tactic(auto, unfolding(crate::specs::Graph::chosen))]
pub fn succs(t: &[u32], b: Block) -> &[u32]
    ensures { Ready t.now → result.now ≡ succs_of (sheet_in t.now) b.0 }
{
    neighbours_of(t, Direction::Successors, b)
}

#[tactic(auto, unfolding(crate::specs::Graph::chosen))]
pub fn preds(t: &[u32], b: Block) -> &[u32]
    ensures { Ready t.now → result.now ≡ preds_of (sheet_in t.now) b.0 }
{
    neighbours_of(t, Direction::Predecessors, b)
}

// Block a dominates block b: from b the idoms lead to a, each smaller than the block before it, so that the climb ends at a or below it.
// Stays: the numbers are compared, as "the block number falling at each call" is the measure that document 01 asks for.
pub fn dominates(t: &[u32], a: Block, b: Block) -> bool
    ensures { result ≡ dominates (sheet_in t.now) a.0 b.0 }
{
    if b.0 <= a.0 {
        return a.0 == b.0;
    }
    let Some(i) = idom(t, b) else {
        return false;
    };
    if i.0 < b.0 {
        return dominates(t, a, i);
    }
    false
}
