// Reading until a buffer is full.
ghost use Rattle.std.specs.Prelude.{◌≡◌, ◌≤◌, ◌<◌, ◌+◌, length, take, drop, IfOk, OnOk, OnErr, IfSome};
ghost use Rattle.std.specs.Io.KnownBytes.{Consumes, IsAtEnd, Keeps};
ghost use Rattle.program.specs.Input.{FirstBytes};

use std::io;
use std::io::Read;

// One read, into the buffer from `at` on.
fn read_at<R: Read>(reader: &mut R, buf: &mut [u8], at: usize) -> io::Result<usize>
    requires { at < length buf.old }
    ensures front { take at buf.new ≡ take at buf.old }
    ensures bound { IfOk result (λ n. at + n ≤ length buf.new) }
    ensures bytes { IfOk result (λ n. Consumes (R.remaining reader.old) (R.remaining reader.new) (take n (drop at buf.new))) }
    ensures end { IfOk result (λ n. n ≡ 0 → IsAtEnd (R.remaining reader.new)) }
    ensures err { OnErr result (Keeps (R.remaining reader.old) (R.remaining reader.new)) }
{
    reader.read(&mut buf[at..])
}

// Reads until the buffer is full, the input ends or a read fails: how many bytes were read, and the failed read's error.
pub fn read_full<R: Read>(reader: &mut R, buf: &mut [u8]) -> (usize, io::Result<()>)
    ensures bound { result.0 ≤ length buf.new }
    ensures bytes { Consumes (R.remaining reader.old) (R.remaining reader.new) (take result.0 buf.new) }
    ensures first { OnOk result.1 (IfSome (R.remaining reader.old) (λ standard. FirstBytes standard buf.new result.0)) }
{
    let mut n: usize = 0;
    while n < buf.len() {
        match read_at(reader, buf, n) {
            Ok(0) => return (n, Ok(())),
            Ok(more) => n += more,
            Err(e) => return (n, Err(e)),
        }
    }
    (n, Ok(()))
}
