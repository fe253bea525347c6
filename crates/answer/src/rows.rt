// The rows of an answer, in document 01's order.
ghost use Rattle.std.specs.Prelude.{◌≡◌, ◌≤◌, length};
ghost use mathlib.Core.List.{[], ◌∷◌, flat_map};
ghost use Rattle.laws.specs.Lists.{from};
ghost use Rattle.rules.specs.Cells.{digits_of};
ghost use Rattle.rules.specs.Forward.{Walk};
ghost use Rattle.rules.specs.Answer.{output, refused, printed};
ghost use Rattle.table.specs.Rows.{count_in};
ghost use Rattle.table.specs.Sheet.{sheet_in};
ghost use Rattle.answer.specs.Text.{over, Laid, cell_text};
ghost use Rattle.answer.specs.Rows.{fold_line, fold_at, edit_at, count_line, answer_most, Stands};

use crate::text::Writer;
use bits::tables::read;
use entity::forms::Refusal;
use entity::numbers::{EditRow, Inst, OperandIndex, OperandRow};
use table::edits::WIDTH;
use table::index::op_rows;
use table::rows::{Kind, count, row_of};
use table::view::edit_at;

// How many counts a count row has.
pub const COUNTS: usize = 9;

// The longest that a row can be: `fold,511,2047,s99999`, `edit,511,ereload,r99999,s99999,99999`, and nine counts of ten digits; each with CR LF.
const FOLD: usize = 22;

const EDIT: usize = 38;

const COUNT: usize = 106;

impl Writer<'_> {
    fn fold(&mut self, inst: Inst, operand: OperandIndex, place: u32)
        ensures { Laid (fold_line inst.0 operand.0 place) self.old self.new }
    {
        self.text(b"fold");
        self.next_number(inst.0);
        self.next_number(operand.0);
        self.next_cell(place);
        self.end();
    }

    // The fold row of an operand row whose place is altered.
    fn fold_of(&mut self, t: &[u32], places: &[u32], n: OperandRow)
        ensures { Laid (fold_at t.now places.now n.0) self.old self.new }
    {
        let row = row_of(t, Kind::OP, n.0);
        let place = read(places, n.0 as usize, 0);
        if place != read(row, 5, 0) {
            let inst = Inst(read(row, 1, 0));
            let rows = op_rows(t, inst);
            self.fold(inst, OperandIndex(n.0.saturating_sub(rows.from)), place);
        }
    }

    fn folds(&mut self, t: &[u32], places: &[u32])
        ensures { Laid (flat_map (fold_at t.now places.now) (from 0 (count_in t.now 10))) self.old self.new }
    {
        for n in 0..count(t, Kind::OP) {
            self.fold_of(t, places, OperandRow(n));
        }
    }

    // Its instruction, and then its kind, where to, where from and the value.
    fn edit(&mut self, t: &[u32], edits: &[u32], n: EditRow)
        ensures { Laid (edit_at t.now edits.now n.0) self.old self.new }
    {
        let i = n.0 as usize * WIDTH;
        self.text(b"edit");
        self.next_cell(edit_at(t, n).0);
        self.next_cell(read(edits, i, 0));
        self.next_cell(read(edits, i + 1, 0));
        self.next_cell(read(edits, i + 2, 0));
        self.next_cell(read(edits, i + 3, 0));
        self.end();
    }

    fn edits(&mut self, t: &[u32], edits: &[u32])
        ensures { Laid (flat_map (edit_at t.now edits.now) (from 0 (count_in t.now 12))) self.old self.new }
    {
        for n in 0..count(t, Kind::EDIT) {
            self.edit(t, edits, EditRow(n));
        }
    }

    fn counts(&mut self, counts: &[u32])
        ensures { Laid (count_line counts.now) self.old self.new }
    {
        self.text(b"count");
        for k in 0..COUNTS {
            self.next_number(read(counts, k, 0));
        }
        self.end();
    }
}

// An answer to the table's sheet is no longer than this.
pub fn most(t: &[u32]) -> usize
    ensures { result ≡ answer_most t.now }
{
    count(t, Kind::OP) as usize * FOLD + count(t, Kind::EDIT) as usize * EDIT + COUNT
}

// The whole answer from the buffer's start, as far as it fits, and how long it is.
pub fn render(t: &[u32], edits: &[u32], places: &[u32], counts: &[u32], out: &mut [u8]) -> usize
    ensures { (w : Walk) → Stands t.now edits.now places.now counts.now w
        → (result ≡ length (output (sheet_in t.now) w)) × (out.new ≡ over out.old 0 (output (sheet_in t.now) w)) }
{
    let mut writer = Writer { out, at: 0 };
    writer.folds(t, places);
    writer.edits(t, edits);
    writer.counts(counts);
    writer.at
}

// The row `refused,` and the refusal's sum from the buffer's start, as far as it fits, and how long it is: 20 bytes at most.
pub fn render_refused(r: Refusal, out: &mut [u8]) -> usize
    ensures { (result ≡ length (printed (refused r))) × (out.new ≡ over out.old 0 (printed (refused r))) × (result ≤ 20) }
{
    let mut writer = Writer { out, at: 0 };
    writer.text(b"refused,");
    writer.number(r.sum());
    writer.end();
    writer.at
}
