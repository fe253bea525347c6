// The index of the rows: each block's first instruction, and where the rows of each block or instruction begin among those of their kind.
// It is filled once rows and limits hold: `first` fields stand in order then, but for edits, which are looked up only once 6 holds.
ghost use Rattle.std.specs.Prelude.{◌≡◌, true, List, ℕ, ◌+◌, ◌-◌, ◌<◌, ◌≤◌, length, take, set};
ghost use Rattle.laws.specs.Fold.{run};
ghost use Rattle.laws.specs.Lists.{from};
ghost use Rattle.entity.specs.Limits.{block_limit, inst_limit};
ghost use Rattle.rules.specs.Sheet.{total_of, sheet_of};
ghost use Rattle.rules.specs.Accept.{within_limits};
ghost use Rattle.table.specs.Layout.{clob_index, edit_index, edit_width, inst_index, kind_index, op_index, param_index, pred_index, succ_index, cells_at, table_length};
ghost use Rattle.table.specs.Table.{Indexed};
ghost use Rattle.table.specs.Index.{before, of_kind, Filled, Built, range_in};

use crate::edits::WIDTH;
use crate::rows::{Kind, count, row_of};
use crate::{CELLS, INDEX, LONG, MIDDLE, SHORT};
use bits::tables::read;
use entity::numbers::{Block, Inst};

// Where the parts of the index begin.
pub const INSTS: usize = INDEX + 16;

pub const SUCCS: usize = INDEX + 96;

pub const PREDS: usize = INDEX + 176;

pub const PARAMS: usize = INDEX + 256;

pub const OPS: usize = INDEX + 336;

pub const CLOBS: usize = INDEX + 864;

pub const EDITS: usize = INDEX + 1392;

// The layout of the code is the layout of the definitions.
pub fn layout_agrees()
    ensures kind_index { INDEX ≡ kind_index }
    ensures inst_index { INSTS ≡ inst_index }
    ensures succ_index { SUCCS ≡ succ_index }
    ensures pred_index { PREDS ≡ pred_index }
    ensures param_index { PARAMS ≡ param_index }
    ensures op_index { OPS ≡ op_index }
    ensures clob_index { CLOBS ≡ clob_index }
    ensures edit_index { EDITS ≡ edit_index }
    ensures cells_at { CELLS ≡ cells_at }
    ensures edit_width { WIDTH ≡ edit_width }
{}

// How long a table is for a sheet of so many bytes.
#[tactic(auto, unfolding(crate::specs::Layout::table_length))]
pub fn room(bytes: usize) -> usize
    ensures { result ≡ table_length bytes }
{
    if bytes <= 1024 {
        return SHORT;
    }
    if bytes <= 8192 {
        return MIDDLE;
    }
    LONG
}

// Numbers from `from` up to, and without, `to`.
#[derive(Clone, Copy)]
pub struct Range {
    pub from: u32,
    pub to: u32,
}

// Stores n at each place from `at` up to, and without, `to`.
fn stretch(t: &mut [u32], at: usize, to: usize, n: u32)
    requires { to ≤ length t.old }
    ensures { t.new ≡ run (λ l x. set l x n) t.old (from at (to - at)) }
{
    if at < to {
        t[at..to].fill(n);
    }
}

// At each x up to `most`: how many of the kind's rows come before the first whose first field is x or more.
fn fill(t: &mut [u32], k: Kind, at: usize, most: u32)
    requires { (k.0 < 13) × (kind_index + 14 ≤ at) × (at + most < cells_at) }
    ensures { (rs : List (List ℕ)) → Indexed rs t.old
        → Filled rs at (λ x. before x (of_kind k.0 rs)) (most + 1) t.old t.new }
{
    if t.len() < CELLS {
        return;
    }
    let rows = count(t, k);
    let mut x: u32 = 0;
    for n in 0..rows {
        let past = read(row_of(t, k, n), 1, 0).min(most) + 1;
        stretch(t, at + x as usize, at + past as usize, n);
        x = x.max(past);
    }
    stretch(t, at + x as usize, at + most as usize + 1, rows);
}

// Each block's first instruction, and after the last block their number.
fn fill_insts(t: &mut [u32])
    ensures { (rs : List (List ℕ)) → Indexed rs t.old → total_of (sheet_of rs).blocks ≤ inst_limit
        → Filled rs inst_index (λ b. total_of (take b (sheet_of rs).blocks)) (block_limit + 1) t.old t.new }
{
    if t.len() < CELLS {
        return;
    }
    let blocks = count(t, Kind::BLOCK).min(Block::LIMIT);
    let mut sum: u32 = 0;
    for b in 0..blocks {
        t[INSTS + b as usize] = sum;
        let n = read(row_of(t, Kind::BLOCK, b), 2, 0);
        sum = (sum + n % 65536) % 65536;
    }
    stretch(
        t,
        INSTS + blocks as usize,
        INSTS + Block::LIMIT as usize + 1,
        sum,
    );
}

pub fn build(t: &mut [u32])
    ensures { (rs : List (List ℕ)) → Indexed rs t.old → within_limits (sheet_of rs) ≡ true
        → Indexed rs t.new × Built t.new }
{
    fill_insts(t);
    fill(t, Kind::SUCC, SUCCS, Block::LIMIT);
    fill(t, Kind::PRED, PREDS, Block::LIMIT);
    fill(t, Kind::PARAM, PARAMS, Block::LIMIT);
    fill(t, Kind::OP, OPS, Inst::LIMIT);
    fill(t, Kind::CLOB, CLOBS, Inst::LIMIT);
    fill(t, Kind::EDIT, EDITS, Inst::LIMIT);
}

// The part of the index at `at` for x, or nothing where x is past `most`.
#[tactic(auto, unfolding(crate::specs::Index::range_in))]
fn between(t: &[u32], at: usize, most: u32, x: u32) -> Range
    requires { at < cells_at }
    ensures { result ≡ range_in t.now at most x }
{
    if x < most {
        let i = at + x as usize;
        Range {
            from: read(t, i, 0),
            to: read(t, i + 1, 0),
        }
    } else {
        Range { from: 0, to: 0 }
    }
}

// Stays: the ranges that follow are public and named in docs/PROMISES.md, each one call of `between`.
// The instructions of a block.
pub fn insts_of(t: &[u32], b: Block) -> Range
    ensures { result ≡ range_in t.now inst_index block_limit b.0 }
{
    between(t, INSTS, Block::LIMIT, b.0)
}

pub fn succ_rows(t: &[u32], b: Block) -> Range
    ensures { result ≡ range_in t.now succ_index block_limit b.0 }
{
    between(t, SUCCS, Block::LIMIT, b.0)
}

pub fn pred_rows(t: &[u32], b: Block) -> Range
    ensures { result ≡ range_in t.now pred_index block_limit b.0 }
{
    between(t, PREDS, Block::LIMIT, b.0)
}

pub fn param_rows(t: &[u32], b: Block) -> Range
    ensures { result ≡ range_in t.now param_index block_limit b.0 }
{
    between(t, PARAMS, Block::LIMIT, b.0)
}

pub fn op_rows(t: &[u32], i: Inst) -> Range
    ensures { result ≡ range_in t.now op_index inst_limit i.0 }
{
    between(t, OPS, Inst::LIMIT, i.0)
}

pub(crate) fn clob_rows(t: &[u32], i: Inst) -> Range
    ensures { result ≡ range_in t.now clob_index inst_limit i.0 }
{
    between(t, CLOBS, Inst::LIMIT, i.0)
}

pub fn edit_rows(t: &[u32], i: Inst) -> Range
    ensures { result ≡ range_in t.now edit_index inst_limit i.0 }
{
    between(t, EDITS, Inst::LIMIT, i.0)
}
