// Bytes, numbers and cells written into a lent buffer, one after the other.
ghost use Rattle.std.specs.Prelude.{◌≡◌, [], ◌∷◌, ◌+◌, ◌%◌, ◌≤◌};
ghost use Rattle.rules.specs.Text.{bytes};
ghost use Rattle.rules.specs.Cells.{digits_of};
ghost use Rattle.answer.specs.Text.{Laid, word_text, cell_text};

use bits::tables::store;
use entity::cells::{Mark, Number, Word};

// A lent buffer, and the place in it of the next byte.
#[derive(Drop)]
pub struct Writer<'a> {
    pub out: &'a mut [u8],
    pub at: usize,
}

impl Writer<'_> {
    // What does not fit is not stored, and the place moves all the same.
    pub fn text(&mut self, text: &[u8])
        ensures { Laid text.now self.old self.new }
    {
        let out = &mut *self.out;
        let mut at = self.at;
        for b in text {
            store(out, at, *b);
            at = at.saturating_add(1);
        }
        self.at = at;
    }

    // Stays: no heap, and the buffer may be too short: what a format prints is known of a `String` alone.
    // A number in decimal, no leading zero. Most have one digit or two.
    pub fn number(&mut self, n: u32)
        ensures { Laid (digits_of n) self.old self.new }
    {
        if n < 10 {
            self.text(&[digit(n)]);
        } else if n < 100 {
            self.text(&[digit(n / 10), digit(n)]);
        } else {
            self.number(n / 10);
            self.text(&[digit(n)]);
        }
    }

    pub fn end(&mut self)
        ensures { Laid (bytes "\r\n") self.old self.new }
    {
        self.text(b"\r\n");
    }

    // A comma and then a number.
    pub fn next_number(&mut self, n: u32)
        ensures { Laid (44 ∷ digits_of n) self.old self.new }
    {
        self.text(b",");
        self.number(n);
    }

    // A comma and then one of the words that stand in an edit row.
    fn next_word(&mut self, c: u32)
        ensures { Laid (44 ∷ word_text c) self.old self.new }
    {
        match c {
            Word::MOVE => self.text(b",move"),
            Word::REMAT => self.text(b",remat"),
            Word::ESPILL => self.text(b",espill"),
            Word::ERELOAD => self.text(b",ereload"),
            Word::NONE => self.text(b",none"),
            _ => self.text(b",-"),
        }
    }

    // A comma and then the text of a cell: a number, a word, a register or a slot.
    pub fn next_cell(&mut self, c: u32)
        ensures { Laid (44 ∷ cell_text c) self.old self.new }
    {
        if c < Number::LIMIT {
            self.next_number(c);
        } else if c < Mark::REG {
            self.next_word(c);
        } else if c < Mark::SLOT {
            self.text(b",r");
            self.number(c - Mark::REG);
        } else {
            self.text(b",s");
            self.number(c - Mark::SLOT);
        }
    }
}

fn digit(n: u32) -> u8
    ensures { result ≡ 48 + n % 10 }
{
    48 + (n % 10) as u8
}
