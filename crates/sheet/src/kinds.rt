// KIND, the first fourteen entries of the table's INDEX: where each kind's rows begin, and how many rows there are. That kinds come in
// their order is left to grammar.
ghost use Rattle.std.specs.Prelude.{◌≡◌, ◌&&◌, List, ℕ, ◌+◌, ◌<◌, ◌≤◌, ltb, length};
ghost use Rattle.rules.specs.Words.{slots_word};
ghost use Rattle.rules.specs.Rows.{kind};
ghost use Rattle.table.specs.Layout.{cells_at};
ghost use Rattle.table.specs.Table.{Holds, Rising, Indexed};
ghost use Rattle.table.specs.Rows.{row_in};

use bits::tables::read;
use entity::cells::Word;
use table::INDEX;
use table::rows::row;

// There is a row i, and its kind comes before the k-th.
fn earlier(t: &[u32], n: u32, i: u32, k: usize) -> bool
    requires { k < 14 }
    ensures { result ≡ (ltb i n && ltb (kind (row_in t.now i)) (slots_word + k)) }
{
    if i < n {
        read(row(t, i), 0, 0) < Word::SLOTS + k as u32
    } else {
        false
    }
}

pub fn index(t: &mut [u32], n: u32)
    requires { cells_at ≤ length t.old }
    ensures { (rs : List (List ℕ)) → Holds rs t.old → length rs ≡ n → Rising rs → Indexed rs t.new }
{
    let mut i: u32 = 0;
    for k in 0..14 {
        while earlier(t, n, i, k) {
            i += 1;
        }
        t[INDEX + k] = i;
    }
}
