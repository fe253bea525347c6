// The slots that each instruction's operands define and those that they read, two words to an instruction. They are told once, since the worklist comes to a block
// more than once.
ghost use Rattle.std.specs.Prelude.{◌≡◌, ◌||◌, eqb};
ghost use Rattle.rules.specs.Words.{def_word, early_word};
ghost use Rattle.table.specs.Rows.{count_in};
ghost use Rattle.dead_spill_elimination.specs.Touched.{place_word, added, touch_by, touched_to};

use bits::tables::{read, store};
use entity::cells::Word;
use entity::forms::Place;
use entity::numbers::{Inst, OperandRow};
use table::rows::{Kind, count, row_of};
use table::view::place_of;

// The words of an instruction.
pub const WIDTH: usize = 2;

pub const LENGTH: usize = Inst::LIMIT as usize * WIDTH;

// The word of a place's slot; slots are below 64.
fn place_word(p: Place) -> u64
    ensures { result ≡ place_word p }
{
    match p {
        Place::Slot(s) => 1 << (s.0 % 64),
        Place::Reg(_) => 0,
    }
}

#[tactic(auto, unfolding(crate::specs::Touched::added))]
fn add(words: &mut [u64], at: usize, p: Place)
    ensures { words.new ≡ added words.old at p }
{
    store(words, at, read(words, at, 0) | place_word(p));
}

fn defines(k: u32) -> bool
    ensures { result ≡ (eqb k def_word || eqb k early_word) }
{
    k == Word::DEF || k == Word::EARLY
}

// The slot of operand row n, at its instruction.
#[tactic(auto, unfolding(crate::specs::Touched::touch_by))]
fn touch(t: &[u32], places: &[u32], n: OperandRow, words: &mut [u64])
    ensures { words.new ≡ touch_by t.now places.now words.old n.0 }
{
    let row = row_of(t, Kind::OP, n.0);
    let at = read(row, 1, 0) as usize * WIDTH;
    let kind = read(row, 2, 0);
    if kind == Word::USE {
        add(words, at + 1, place_of(read(places, n.0 as usize, 0)));
        return;
    }
    if defines(kind) {
        add(words, at, place_of(read(row, 5, 0)));
    }
}

pub fn touch_all(t: &[u32], places: &[u32], words: &mut [u64])
    ensures { words.new ≡ touched_to t.now places.now words.old (count_in t.now 10) }
{
    for n in 0..count(t, Kind::OP) {
        touch(t, places, OperandRow(n), words);
    }
}
