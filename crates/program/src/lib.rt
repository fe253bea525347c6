// Document 01's small program: a sheet from standard input, level 1 with sweep, the answer into 65,536 bytes and to standard output, or the row
// `refused,` and the refusal's sum. The program crates only call `run`.
// Outside the proof: that the runtime's reader gives the bytes of standard input, that its writer hands on those that it is lent, and that `run`, of
// which no contract can say anything, takes these two; the runs of the program crates show it. Where a read fails, what was read until then is taken
// for the whole; where a write fails, the rest is not written; and nothing says so.
#![tactic(auto)]

pub mod reading;

ghost use Rattle.std.specs.Prelude.{◌≡◌, List, ℕ, length, take, OnOk, IfSome};
ghost use Rattle.std.specs.Io.KnownBytes.{Appends};
ghost use Rattle.rules.specs.Answer.{written, buffer, program};
ghost use Rattle.program.specs.Input.{FirstBytes};

use crate::reading::read_full;
use answer::rows::render_refused;
use drifthurdle::clean;
use entity::numbers::SheetByte;
use std::io;
use std::io::{Read, Write};

// One byte more than a sheet may have is read, so that a longer one is refused.
const READ: usize = SheetByte::LIMIT as usize + 1;

// The answer's room.
pub const ROOM: usize = 65536;

// Everything between reading and writing: the bytes that are to be written stand at the buffer's start, and the later ones stay.
pub fn program(input: &[u8], out: &mut [u8; ROOM]) -> usize
    ensures { (result ≡ length (program input.now)) × (out.new ≡ buffer (written (program input.now)) out.old) }
{
    match clean(input, 1, 1, out) {
        Err(r) => render_refused(r, out),
        Ok(n) => n,
    }
}

// The first n bytes, or all.
fn first(bytes: &[u8], n: usize) -> &[u8]
    ensures { result.now ≡ take n bytes.now }
{
    bytes.get(..n).unwrap_or(bytes)
}

// The same of what was read, the first `read` bytes of `input`: as many of the buffer's first bytes as it answers are what the program is to write.
fn output(input: &[u8; READ], read: usize, out: &mut [u8; ROOM]) -> usize
    ensures { (standard : List ℕ) → FirstBytes standard input.now read → take result out.new ≡ program standard }
{
    program(first(input, read), out)
}

fn write<W: Write>(writer: &mut W, out: &[u8; ROOM], n: usize) -> io::Result<()>
    ensures { OnOk result (Appends (W.contents writer.old) (W.contents writer.new) (take n out.now)) }
{
    writer.write_all(first(out, n))
}

// The program between a reader and a writer: where both tell their bytes and neither fails, `program` of the reader's is written. An error is told
// last: what was read until a read failed is answered first.
pub fn run_between<R: Read, W: Write>(reader: &mut R, writer: &mut W) -> io::Result<()>
    ensures { OnOk result (IfSome (R.remaining reader.old) (λ standard. Appends (W.contents writer.old) (W.contents writer.new) (program standard))) }
{
    let mut input = [0u8; READ];
    let mut out = [0u8; ROOM];
    let (read, end) = read_full(reader, &mut input);
    let n = output(&input, read, &mut out);
    write(writer, &out, n)?;
    end
}

pub fn run(rt: &(impl Input + Print)) {
    let _ = run_between(&mut rt.reader(), &mut io::writer(rt));
}
