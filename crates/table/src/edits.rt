// The edits as four cells each, kind, to, from and value: read as enums, and written back.
ghost use Rattle.std.specs.Prelude.{◌≡◌, get_or, set, ◌+◌, ◌*◌, ◌<◌};
ghost use Rattle.rules.specs.Cells.{mark_end, number_limit};
ghost use Rattle.rules.specs.Answer.{place_cell, edit_cells};
ghost use Rattle.rules.specs.Sheet.{espill_of, ereload_of, edit_of};
ghost use Rattle.table.specs.Layout.{edit_width};
ghost use Rattle.table.specs.Rows.{kind_row};
ghost use Rattle.table.specs.Edits.{edit_in, with_edit, edit_at_row, SmallPlace, SmallEdit};

use crate::rows::{Kind, row_of};
use crate::view::place_of;
use bits::tables::{read, store};
use entity::cells::{Mark, Number, Word};
use entity::forms::{Edit, Place};
use entity::numbers::{EditRow, PhysReg, SpillSlot, Value};

// How many cells an edit has.
pub const WIDTH: usize = 4;

#[tactic(auto, unfolding(rules::specs::Sheet::espill_of))]
// Stays: the two differ in which side is the slot, as the edits' types do; one function would match both ways.
fn espill_of(to: Place, from: Place) -> Edit
    ensures { result ≡ espill_of to from }
{
    match (to, from) {
        (Place::Slot(s), Place::Reg(r)) => Edit::Espill { to: s, from: r },
        _ => Edit::Misplaced { to, from },
    }
}

#[tactic(auto, unfolding(rules::specs::Sheet::ereload_of))]
fn ereload_of(to: Place, from: Place) -> Edit
    ensures { result ≡ ereload_of to from }
{
    match (to, from) {
        (Place::Reg(r), Place::Slot(s)) => Edit::Ereload { to: r, from: s },
        _ => Edit::Misplaced { to, from },
    }
}

#[tactic(auto, unfolding(rules::specs::Sheet::edit_of, rules::specs::Cells::word, rules::specs::Cells::words, rules::specs::Cells::find))]
fn edit_of(k: u32, to: u32, from: u32, value: u32) -> Edit
    ensures { result ≡ edit_of k to from value }
{
    match k {
        Word::MOVE => Edit::Move {
            to: place_of(to),
            from: place_of(from),
            value: Value(value),
        },
        Word::REMAT => Edit::Remat {
            to: place_of(to),
            value: Value(value),
        },
        Word::ESPILL => espill_of(place_of(to), place_of(from)),
        Word::ERELOAD => ereload_of(place_of(to), place_of(from)),
        _ => Edit::Nothing,
    }
}

#[tactic(auto, unfolding(rules::specs::Answer::place_cell))]
pub fn place_cell(p: Place) -> u32
    ensures { SmallPlace p → result ≡ place_cell p }
{
    match p {
        Place::Reg(r) => cell(Mark::REG, r.0),
        Place::Slot(s) => cell(Mark::SLOT, s.0),
    }
}

// A number with its mark; numbers have five digits at most.
fn cell(mark: u32, n: u32) -> u32
    requires { mark < mark_end }
    ensures { n < number_limit → result ≡ mark + n }
{
    mark + n % Number::LIMIT
}

#[tactic(auto, unfolding(crate::specs::Edits::edit_in))]
pub fn read_edit(edits: &[u32], n: EditRow) -> Edit
    ensures { result ≡ edit_in edits.now n.0 }
{
    let at = n.0 as usize * WIDTH;
    edit_of(
        read(edits, at, 0),
        read(edits, at + 1, 0),
        read(edits, at + 2, 0),
        read(edits, at + 3, 0),
    )
}

// The cells of an edit.
fn cells_of(e: Edit) -> [u32; WIDTH]
    ensures { SmallEdit e → result ≡ edit_cells e }
{
    match e {
        Edit::Move { to, from, value } => [Word::MOVE, place_cell(to), place_cell(from), value.0],
        Edit::Remat { to, value } => [Word::REMAT, place_cell(to), Word::DASH, value.0],
        Edit::Espill { to, from } => [
            Word::ESPILL,
            place_cell(Place::Slot(to)),
            place_cell(Place::Reg(from)),
            Word::DASH,
        ],
        Edit::Ereload { to, from } => [
            Word::ERELOAD,
            place_cell(Place::Reg(to)),
            place_cell(Place::Slot(from)),
            Word::DASH,
        ],
        Edit::Misplaced { .. } | Edit::Nothing => [Word::NONE, Word::DASH, Word::DASH, Word::DASH],
    }
}

pub fn store_edit(edits: &mut [u32], n: EditRow, e: Edit)
    ensures { SmallEdit e → edits.new ≡ with_edit edits.old n.0 e }
{
    let at = n.0 as usize * WIDTH;
    let [kind, to, from, value] = cells_of(e);
    store(edits, at, kind);
    store(edits, at + 1, to);
    store(edits, at + 2, from);
    store(edits, at + 3, value);
}

// Row n of the edits as it stands in the sheet.
#[tactic(auto, unfolding(crate::specs::Edits::edit_at_row))]
pub fn sheet_edit(t: &[u32], n: EditRow) -> Edit
    ensures { result ≡ edit_at_row t.now n.0 }
{
    let row = row_of(t, Kind::EDIT, n.0);
    edit_of(
        read(row, 2, 0),
        read(row, 3, 0),
        read(row, 4, 0),
        read(row, 5, 0),
    )
}
