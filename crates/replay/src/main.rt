// Replays a fixed list of the Rust's answers: cases from standard input, `case LEVEL SWEEP ROOM LENGTH`, LF, the sheet and LF, and for each what the
// call gives, `ans RETURNED LENGTH`, LF, the bytes and LF. The buffer is filled with a pattern first, and a byte of it that is touched where
// none should be is told. `oracle/replay` makes the list, and the judge's answers to it, which are this program's expected output.
#![tactic(auto)]

ghost use Rattle.std.specs.Prelude.{◌≡◌, ◌≤◌, length};

use drifthurdle::clean;
use entity::forms::Refusal;
use program::reading::read_full;
use std::io::Write;

const PATTERN: u8 = 165;

// The number at the start, of which only the last digits count where it is long, and what follows the byte that ends it.
fn number(s: &[u8]) -> (u64, &[u8])
    ensures { length result.1.now ≤ length s.now }
{
    let mut value: u64 = 0;
    for (i, b) in s.iter().enumerate() {
        match char::from(*b).to_digit(10) {
            Some(d) => value = value % 100000000000 * 10 + u64::from(d),
            None => return (value, &s[i + 1..]),
        }
    }
    (value, &[])
}

// Where a write fails, what it was to write is left out, the later ones are tried, and nothing says so.
// Stays: with `write!` and `?` the program stops at the first write that fails, and a number is one write.
fn write<W: Write>(writer: &mut W, bytes: &[u8]) {
    let _ = writer.write_all(bytes);
}

// Each digit is a write of its own.
fn write_number<W: Write>(writer: &mut W, n: usize) {
    if 9 < n {
        write_number(writer, n / 10);
    }
    write(writer, &[b'0' + (n % 10) as u8]);
}

// The bytes from `from` on have the pattern, or it is told.
fn tell_touched<W: Write>(writer: &mut W, out: &[u8], from: usize) {
    if !out.iter().skip(from).all(|b| *b == PATTERN) {
        write(writer, b"a byte is touched\n");
    }
}

fn write_refused<W: Write>(writer: &mut W, r: Refusal) {
    write(writer, b"ans -");
    write_number(writer, r.sum() as usize);
    write(writer, b" 0\n\n");
}

fn write_answer<W: Write>(writer: &mut W, out: &[u8], n: usize) {
    write(writer, b"ans ");
    write_number(writer, n);
    write(writer, b" ");
    write_number(writer, n);
    write(writer, b"\n");
    write(writer, out.get(..n).unwrap_or(out));
    write(writer, b"\n");
}

fn answer<W: Write>(writer: &mut W, sheet: &[u8], level: u32, sweep: u32, out: &mut [u8]) {
    out.fill(PATTERN);
    match clean(sheet, level, sweep, out) {
        Err(r) => {
            tell_touched(writer, out, 0);
            write_refused(writer, r)
        }
        Ok(n) => {
            tell_touched(writer, out, n);
            write_answer(writer, out, n)
        }
    }
}

// The case at the start, and what follows it.
fn case<'a, W: Write>(writer: &mut W, s: &'a [u8], out: &mut [u8]) -> &'a [u8]
    ensures { length result.now ≤ length s.now }
{
    let (level, s) = number(s);
    let (sweep, s) = number(s);
    let (room, s) = number(s);
    let (length, s) = number(s);
    let (sheet, s) = s
        .split_at_checked((length % 0x1_0000_0000) as usize)
        .unwrap_or((&[], &[]));
    if let Some(out) = out.get_mut(..room as usize) {
        answer(
            writer,
            sheet,
            (level % 0x1_0000_0000) as u32,
            (sweep % 0x1_0000_0000) as u32,
            out,
        );
    }
    s.get(1..).unwrap_or(&[])
}

// The word `case` and the blank after it.
const WORD: usize = 5;

fn replay<W: Write>(writer: &mut W, s: &[u8], out: &mut [u8]) {
    let mut rest = s;
    while !rest.is_empty() {
        rest = case(writer, rest.get(WORD..).unwrap_or(&[]), out);
    }
}

// So many zeros. The contract gives their number alone, so that a proof does not count a large buffer's.
fn zeros<const N: usize>() -> [u8; N]
    ensures { length result ≡ N }
{
    [0; N]
}

fn main(rt: HostRuntime) {
    let mut s = zeros::<524288>();
    let mut out = zeros::<131072>();
    let (n, _) = read_full(&mut rt.stdin(), &mut s);
    replay(&mut rt.stdout(), &s[..n], &mut out);
}
