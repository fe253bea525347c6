// Refusals 4, 9, 10, 11 and 12: the block rules, each over the whole sheet before the next, and the lowest block that breaks one. Blocks are below 64, as
// limits and names hold: sets hold them all.
ghost use Rattle.std.specs.Prelude.{◌≡◌, Bool, ℕ, ◌<◌};
ghost use Rattle.laws.specs.Lists.{all, is_in};
ghost use Rattle.bits.specs.Sets.{has};
ghost use Rattle.entity.specs.Limits.{block_limit};
ghost use Rattle.rules.specs.Sheet.{block_count, succs_of, preds_of};
ghost use Rattle.rules.specs.Accept.{some_entry, named_back, entry_first, no_critical_edge, edges_hold, sole_pred_smaller, idom_smaller, smaller_hold, is_reached, row_of};
ghost use Rattle.rules.specs.Answer.{first_refusal, block_checks};
ghost use Rattle.table.specs.Sheet.{sheet_in};
ghost use Rattle.table.specs.Index.{Ready};
ghost use Rattle.graph.specs.Graph.{chosen};
ghost use Rattle.accept.specs.Blocks.{as_checked, sole_preds, grown, reach_set, lowest_of, ReachedBySteps};

use entity::forms::Refusal;
use entity::numbers::Block;
use entity::sets::BlockSet;
use graph::{Direction, neighbours_of, preds, succs};
use names::lists::{is_in, with_all};
use table::rows::{Kind, count, first};
use table::view::{idom, inst_count, is_entry};

fn some_entry(t: &[u32]) -> bool
    ensures { Ready t.now → result ≡ some_entry (sheet_in t.now) }
{
    (0..count(t, Kind::BLOCK)).any(|b| is_entry(t, Block(b)))
}

// b is a neighbour of each of the blocks.
fn neighbour_of_each(t: &[u32], d: Direction, b: Block, list: &[u32]) -> bool
    ensures { Ready t.now → result ≡ all (λ x. is_in b.0 (chosen d (succs_of (sheet_in t.now) x) (preds_of (sheet_in t.now) x))) list.now }
{
    list.iter()
        .all(|x| is_in(b.0, neighbours_of(t, d, Block(*x))))
}

// A block's successors list it as a predecessor, and its predecessors as a successor.
fn named_back(t: &[u32], b: Block) -> bool
    ensures { Ready t.now → result ≡ named_back (sheet_in t.now) b.0 }
{
    neighbour_of_each(t, Direction::Predecessors, b, succs(t, b))
        && neighbour_of_each(t, Direction::Successors, b, preds(t, b))
}

#[tactic(auto, unfolding(rules::specs::Accept::entry_first))]
fn entry_first(t: &[u32], b: Block) -> bool
    ensures { Ready t.now → result ≡ entry_first (sheet_in t.now) b.0 }
{
    !is_entry(t, b) || preds(t, b).is_empty()
}

// Each of the blocks has at most one predecessor.
fn sole_preds(t: &[u32], list: &[u32]) -> bool
    ensures { Ready t.now → result ≡ sole_preds (sheet_in t.now) list.now }
{
    list.iter().all(|x| preds(t, Block(*x)).len() <= 1)
}

// Not several successors one of which has several predecessors.
#[tactic(auto, unfolding(rules::specs::Accept::no_critical_edge, crate::specs::Blocks::sole_preds))]
fn no_critical_edge(t: &[u32], b: Block) -> bool
    ensures { Ready t.now → result ≡ no_critical_edge (sheet_in t.now) b.0 }
{
    let list = succs(t, b);
    list.len() <= 1 || sole_preds(t, list)
}

#[tactic(auto, unfolding(rules::specs::Accept::edges_hold))]
fn edges_hold(t: &[u32], b: Block) -> bool
    ensures { Ready t.now → result ≡ edges_hold (sheet_in t.now) b.0 }
{
    entry_first(t, b) && no_critical_edge(t, b)
}

#[tactic(auto, unfolding(rules::specs::Accept::sole_pred_smaller))]
fn sole_pred_smaller(t: &[u32], b: Block) -> bool
    ensures { Ready t.now → result ≡ sole_pred_smaller (sheet_in t.now) b.0 }
{
    match preds(t, b) {
        [p] => *p < b.0,
        _ => true,
    }
}

fn idom_smaller(t: &[u32], b: Block) -> bool
    ensures { Ready t.now → result ≡ idom_smaller (sheet_in t.now) b.0 }
{
    let Some(i) = idom(t, b) else {
        return true;
    };
    i.0 < b.0
}

#[tactic(auto, unfolding(rules::specs::Accept::smaller_hold))]
fn smaller_hold(t: &[u32], b: Block) -> bool
    ensures { Ready t.now → result ≡ smaller_hold (sheet_in t.now) b.0 }
{
    sole_pred_smaller(t, b) && idom_smaller(t, b)
}

// The lowest block of which `keeps` is false.
fn lowest_breaking<F: Fn(Block) -> bool>(t: &[u32], keeps: F) -> Option<Block>
    requires { F.IsAlwaysCallable keeps }
    ensures { (f : ℕ → Bool) → ((b : ℕ) (kept : Bool) → F.post keeps (record { 0 = b }) kept → kept ≡ f b) → result ≡ lowest_of (sheet_in t.now) f }
{
    (0..count(t, Kind::BLOCK)).map(Block).find(|b| !keeps(*b))
}

fn entries(t: &[u32]) -> BlockSet
    ensures { Ready t.now → result.0 ≡ reach_set (sheet_in t.now) 0 }
{
    let mut s = BlockSet::empty();
    for b in 0..count(t, Kind::BLOCK) {
        if is_entry(t, Block(b)) {
            s = s.insert(Block(b));
        }
    }
    s
}

// The blocks of s, and with them each that is listed as a successor of one of them or of a smaller block that joined them.
fn further(t: &[u32], s: BlockSet) -> BlockSet
    ensures { Ready t.now → result.0 ≡ grown (sheet_in t.now) s.0 (block_count (sheet_in t.now)) }
{
    let mut all = s.0;
    for b in 0..count(t, Kind::BLOCK) {
        if all.contains(b) {
            all = with_all(all, succs(t, Block(b)));
        }
    }
    BlockSet::of(all)
}

// The lowest block that is not in s.
fn lowest_outside(t: &[u32], s: BlockSet) -> Option<Block>
    ensures { result ≡ lowest_of (sheet_in t.now) (has s.0) }
{
    lowest_breaking(t, |b| s.contains(b))
}

// The lowest block that as many steps from the entries as there are blocks do not reach.
fn lowest_unreached(t: &[u32]) -> Option<Block>
    ensures { Ready t.now → result ≡ lowest_of (sheet_in t.now) (is_reached (sheet_in t.now)) }
{
    let mut s = entries(t);
    for _ in 0..count(t, Kind::BLOCK) {
        let Some(_) = lowest_outside(t, s) else {
            return None;
        };
        s = further(t, s);
    }
    lowest_outside(t, s)
}

// The `block` row of b, counted from 1 over all rows of the sheet. There are at most 21,845 rows and 64 blocks, so both tests hold: they keep the sum
// within 16 bits.
// Stays: `u16::try_from` is no plainer, as the sum before it needs the same tests, or two `saturating_add`.
fn block_row(t: &[u32], b: Block) -> u16
    ensures { Ready t.now → b.0 < block_limit → result ≡ row_of (sheet_in t.now) b.0 }
{
    let above = first(t, Kind::BLOCK);
    if above < 65000 && b.0 < 500 {
        return (above + b.0 + 1) as u16;
    }
    0
}

// 4, 9, 10, 11 and 12, in this order.
pub fn check_blocks(t: &[u32]) -> Result<(), Refusal>
    ensures { Ready t.now → result ≡ as_checked (first_refusal (block_checks (sheet_in t.now))) }
{
    if !some_entry(t) {
        return Err(Refusal::NoEntry);
    }
    if let Some(b) = lowest_breaking(t, |b| 0 < inst_count(t, b)) {
        return Err(Refusal::Empty(block_row(t, b)));
    }
    if let Some(b) = lowest_breaking(t, |b| named_back(t, b)) {
        return Err(Refusal::Disagree(block_row(t, b)));
    }
    if let Some(b) = lowest_breaking(t, |b| edges_hold(t, b)) {
        return Err(Refusal::Edges(block_row(t, b)));
    }
    if let Some(b) = lowest_breaking(t, |b| smaller_hold(t, b)) {
        return Err(Refusal::NotSmaller(block_row(t, b)));
    }
    if let Some(b) = lowest_unreached(t) {
        return Err(Refusal::NotReached(block_row(t, b)));
    }
    Ok(())
}

// That many steps are enough: all are reached by them if each is reached by some.
pub fn steps_are_enough()
    ensures { ReachedBySteps }
{}
