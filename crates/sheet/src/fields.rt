// Fields: what stands at the head of some bytes, digits, a mark or a word, and the number that it is. What ends a field is left to lexing.
ghost use Rattle.std.specs.Prelude.{◌≡◌, eqb, ltb, length};
ghost use Rattle.rules.specs.Cells.{find, marks, is_digit, decimal, word_mark};
ghost use Rattle.sheet.specs.Packing.{pack, find_num, packed};
ghost use Rattle.sheet.specs.Answers.{option_of, lead};

use bits::tables::read;
use entity::cells::Word;

// The most digits of a number, and the most bytes of a word.
const DIGITS: usize = 5;

const LETTERS: usize = 7;

// The number of some digits, and how many they are.
#[derive(Clone, Copy)]
pub struct Decimal(pub u32, pub usize);

// Some bytes as one number that no other bytes have, and how many they are.
#[derive(Clone, Copy)]
pub struct Pack(pub u64, pub usize);

#[tactic(auto, unfolding(rules::specs::Cells::is_digit))]
// Stays: a field's number has five digits at most and no leading zero, and what follows is asked next; `parse` asks for a whole text.
pub fn is_digit(b: u8) -> bool
    ensures { result ≡ is_digit b }
{
    (b'0' <= b) & (b <= b'9')
}

// The digits at the head of t, five at most.
pub fn digits(t: &[u8]) -> Decimal
    ensures { (result.0 ≡ decimal 0 (lead is_digit 5 t.now)) × (result.1 ≡ length (lead is_digit 5 t.now)) }
{
    let mut v: u32 = 0;
    for k in 0..DIGITS {
        let b = read(t, k, 0);
        if !is_digit(b) {
            return Decimal(v, k);
        }
        v = v * 10 + (b - b'0') as u32;
    }
    Decimal(v, DIGITS)
}

// Which mark a byte is, in hundred thousands of the cell.
#[tactic(auto, unfolding(rules::specs::Cells::find, rules::specs::Cells::marks, rules::specs::Text::bytes))]
pub fn mark(b: u8) -> Option<u32>
    ensures { result ≡ option_of (find (eqb b) 2 marks) }
{
    match b {
        b'r' => Some(2),
        b's' => Some(3),
        b'c' => Some(4),
        b'f' => Some(5),
        b'u' => Some(6),
        _ => None,
    }
}

// The bytes over a comma at the head of t, seven at most: all bytes of words are.
pub fn packed(t: &[u8]) -> Pack
    ensures { (result.0 ≡ pack (lead (ltb 44) 7 t.now)) × (result.1 ≡ length (lead (ltb 44) 7 t.now)) }
{
    let mut w: u64 = 0;
    let mut m: u64 = 1;
    for k in 0..LETTERS {
        let b = read(t, k, 0);
        if b <= b',' {
            return Pack(w + m, k);
        }
        w += b as u64 * m;
        m *= 256;
    }
    Pack(w + m, LETTERS)
}

// The cell of a word by its packed number: its bytes, the first one last, after a 1.
#[tactic(auto, unfolding(crate::specs::Packing::find_num, crate::specs::Packing::packed, crate::specs::Packing::pack, rules::specs::Text::bytes, rules::specs::Cells::words))]
pub fn lookup(w: u64) -> Option<u32>
    ensures { result ≡ option_of (find_num w word_mark packed) }
{
    match w {
        0x1_2d => Some(Word::DASH),
        0x1_73746f6c73 => Some(Word::SLOTS),
        0x1_676572 => Some(Word::REG),
        0x1_7373616c63 => Some(Word::CLASS),
        0x1_70756f7267 => Some(Word::GROUP),
        0x1_65756c6176 => Some(Word::VALUE),
        0x1_70756f726776 => Some(Word::VGROUP),
        0x1_6b636f6c62 => Some(Word::BLOCK),
        0x1_63637573 => Some(Word::SUCC),
        0x1_64657270 => Some(Word::PRED),
        0x1_6d61726170 => Some(Word::PARAM),
        0x1_706f => Some(Word::OP),
        0x1_626f6c63 => Some(Word::CLOB),
        0x1_74696465 => Some(Word::EDIT),
        0x1_666564 => Some(Word::DEF),
        0x1_657375 => Some(Word::USE),
        0x1_796c726165 => Some(Word::EARLY),
        0x1_67666564 => Some(Word::DEFG),
        0x1_67657375 => Some(Word::USEG),
        0x1_67796c726165 => Some(Word::EARLYG),
        0x1_6465786966 => Some(Word::FIXED),
        0x1_65766f6d => Some(Word::MOVE),
        0x1_74616d6572 => Some(Word::REMAT),
        0x1_6c6c69707365 => Some(Word::ESPILL),
        0x1_64616f6c657265 => Some(Word::ERELOAD),
        0x1_656e6f6e => Some(Word::NONE),
        _ => None,
    }
}
