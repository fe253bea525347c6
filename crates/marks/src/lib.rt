// The marked edits are struck in a lent list of edit records, the form that document 01 asks of the sweep. Which edits are marked is the sweep's matter;
// here the cells of the edits become lists of up to 64 records, a list is lent to the function that strikes what is marked, and its records go back to the cells.
#![tactic(auto)]

ghost use Rattle.std.specs.Prelude.{◌≡◌, ◌≤◌, length, take};
ghost use Rattle.entity.specs.Limits.{edit_limit};
ghost use Rattle.marks.specs.Marks.{page_rows, none_record, struck_at, struck_by, record_in, Lists, with_record, with_records, applied, applied_from};

use bits::tables::{read, store};
use entity::cells::Word;
use entity::numbers::EditRow;
use table::edits::WIDTH;

// The most edits that there are.
pub const ROWS: usize = EditRow::LIMIT as usize;

// The records of a list. It is filled, lent and copied whole, so it is short.
const PAGE: usize = 64;

// The four numbers of an edit.
#[derive(Clone, Copy)]
pub struct EditRecord {
    pub kind: u32,
    pub to: u32,
    pub from: u32,
    pub value: u32,
}

fn none() -> EditRecord
    ensures { result ≡ none_record }
{
    EditRecord {
        kind: Word::NONE,
        to: Word::DASH,
        from: Word::DASH,
        value: Word::DASH,
    }
}

// Record n is struck if its mark is not 0.
fn strike(list: &mut [EditRecord], n: usize, mark: u8)
    ensures { list.new ≡ struck_at list.old n mark }
{
    if mark != 0 {
        if n < list.len() {
            list[n] = none();
        }
    }
}

// The list is lent to the marking: each record is struck by its mark.
fn mark(list: &mut [EditRecord], marks: &[u8])
    ensures { list.new ≡ struck_by list.old marks.now }
{
    for (n, m) in marks.iter().enumerate() {
        strike(list, n, *m);
    }
}

// The owner of the list lends it, and has it again after the marking.
fn marked(list: [EditRecord; PAGE], marks: &[u8]) -> [EditRecord; PAGE]
    ensures { result ≡ struck_by list marks.now }
{
    let mut own = list;
    mark(&mut own, marks);
    own
}

fn read_record(edits: &[u32], n: EditRow) -> EditRecord
    ensures { result ≡ record_in edits.now n.0 }
{
    let at = n.0 as usize * WIDTH;
    EditRecord {
        kind: read(edits, at, 0),
        to: read(edits, at + 1, 0),
        from: read(edits, at + 2, 0),
        value: read(edits, at + 3, 0),
    }
}

fn store_record(edits: &mut [u32], n: EditRow, r: EditRecord)
    ensures { edits.new ≡ with_record edits.old n.0 r }
{
    let at = n.0 as usize * WIDTH;
    store(edits, at, r.kind);
    store(edits, at + 1, r.to);
    store(edits, at + 2, r.from);
    store(edits, at + 3, r.value);
}

// Rows of the cells as a list of records, from row `first` on.
fn listed(edits: &[u32], first: usize, rows: usize) -> [EditRecord; PAGE]
    requires { (first ≤ edit_limit) × (rows ≤ page_rows) }
    ensures { Lists edits.now result first rows }
{
    let mut list = [none(); PAGE];
    for (n, r) in list[..rows].iter_mut().enumerate() {
        *r = read_record(edits, EditRow((first + n) as u32));
    }
    list
}

// The records of a list in the rows of the cells, from row `first` on.
fn lay_out(edits: &mut [u32], list: [EditRecord; PAGE], first: usize, rows: usize)
    requires { (first ≤ edit_limit) × (rows ≤ page_rows) }
    ensures { edits.new ≡ with_records edits.old list first rows }
{
    for (n, r) in list[..rows].iter().enumerate() {
        store_record(edits, EditRow((first + n) as u32), *r);
    }
}

// The cells, in which the marked rows of a page are struck, which begins at row `first`.
fn mark_page(edits: &mut [u32], first: usize, marks: &[u8])
    requires { (first ≤ edit_limit) × (length marks.now ≤ page_rows) }
    ensures { edits.new ≡ applied_from first edits.old marks.now }
{
    let rows = marks.len();
    let list = listed(edits, first, rows);
    let struck = marked(list, marks);
    lay_out(edits, struck, first, rows);
}

// The cells, in which the marked rows are struck, page by page.
fn mark_rows(edits: &mut [u32], marks: &[u8])
    requires { length marks.now ≤ edit_limit }
    ensures { edits.new ≡ applied edits.old marks.now }
{
    let mut first = 0;
    for page in marks.chunks(PAGE) {
        mark_page(edits, first, page);
        first += page.len();
    }
}

// The cells, in which the rows are struck that the first 1,024 marks name.
pub fn mark_cells(edits: &mut [u32], marks: &[u8])
    ensures { edits.new ≡ applied edits.old (take edit_limit marks.now) }
{
    mark_rows(edits, &marks[..ROWS.min(marks.len())]);
}
