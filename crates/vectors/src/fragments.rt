// Document 02, 2026-03: document 01's 72 bytes read as they arrive. A case feeds the first so many bytes of a table and of one zero byte behind it,
// in pieces of one length, and says what the reader says then and once the input has ended.
ghost use Rattle.std.specs.Prelude.{◌≤◌};

use super::{STORE_BLOCKS, plain_table};
use feed::{Fed, Feed};
use std::{fmt, io};

// A table of 72 bytes with a byte behind it.
const BYTES: usize = 73;

// Document 01's table, but for the low byte of its record's length and that of its kind.
fn table_with(length: u8, kind: u8) -> [u8; BYTES] {
    let mut t = [0u8; BYTES];
    words::store(&mut t, 0, &plain_table());
    t[0] = length;
    t[2] = kind;
    t
}

// The reader that was fed bytes in pieces of a size.
fn fed(bytes: &[u8], size: usize) -> Feed
    requires { 1 ≤ size }
{
    let mut f = Feed::open(STORE_BLOCKS);
    for piece in bytes.chunks(size) {
        f = f.take(piece);
    }
    f
}

// What a reader says.
#[derive(Clone, Copy)]
struct Told(Feed);

impl fmt::Display for Told {
    fn fmt<W: fmt::Write>(&self, f: &mut fmt::Formatter<W>) -> fmt::Result {
        match self.0.answer() {
            Fed::More => write!(f, "nothing settled"),
            Fed::Accepted => write!(f, "table ok drives {}", self.0.table.count),
            Fed::Refused(number, place) => write!(f, "table refused {number} at {place}"),
        }
    }
}

// `fed in 72 pieces: table ok drives 1`
fn pieces_case(rt: &impl Print, size: usize, pieces: u64) -> io::Result<()>
    requires { 1 ≤ size }
{
    let f = fed(&plain_table(), size).end();
    println!(rt; "fed in {pieces} pieces: {}", Told(f))
}

// What is said after the first n bytes, and at their end.
fn bytes_case(rt: &impl Print, title: &str, t: &[u8; BYTES], n: usize) -> io::Result<()>
    requires { n ≤ 73 }
{
    let f = fed(&t[..n], 1);
    println!(rt; "{title} {n} bytes: {}, ended: {}", Told(f), Told(f.end()))
}

pub(crate) fn cases(rt: &impl Print) -> io::Result<()> {
    pieces_case(rt, 1, 72)?;
    pieces_case(rt, 3, 24)?;
    pieces_case(rt, 67, 2)?;
    pieces_case(rt, 68, 2)?;
    let plain = table_with(0x44, 1);
    for n in [0, 67, 68, 72, 73] {
        bytes_case(rt, "fed", &plain, n)?;
    }
    for n in [3, 4] {
        bytes_case(rt, "kind 9, fed", &table_with(0x44, 9), n)?;
    }
    for n in [3, 4] {
        bytes_case(rt, "length 67, fed", &table_with(0x43, 1), n)?;
    }
    Ok(())
}
