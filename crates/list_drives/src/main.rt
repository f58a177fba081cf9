// Lists the drive table on standard input, or says where and why it is refused. The store is taken as 2^32 blocks.
// The table is read as it arrives, a piece at a time, and is never held as a whole: so input may have any length. Once it is refused, nothing more is
// read.
#![tactic(auto)]

use drive::Drive;
use feed::{Fed, Feed};
use std::io;
use std::io::Read;
use table::Table;

const STORE_BLOCKS: u64 = 4294967296;

// Bytes of a piece, at most.
const PIECE: usize = 64;

// So many bytes, 1974, settle every table (`few` of feed's theorem), and each read but the last brings one or more. So the bound is never met, but
// it shows that the reading ends.
const MOST_READS: usize = table::LONGEST_TABLE - table::END_LENGTH as usize + table::LONGEST_RECORD;

// `80 blocks 2048 first 0 chs 2/16/63`, the drive's number in hexadecimal
fn print_drive(rt: &impl Print, number: u64, d: &Drive) -> io::Result<()> {
    println!(rt;
        "{number:02x} blocks {} first {} chs {}/{}/{}",
        d.blocks, d.first, d.c, d.h, d.s
    )
}

// `table ok drives 1`, then a line for each drive
fn print_table(rt: &impl Print, b: &Table) -> io::Result<()> {
    println!(rt; "table ok drives {}", b.count)?;
    for (number, d) in (0x80..).zip(b.drives.iter().take(b.count)) {
        print_drive(rt, number, d)?;
    }
    Ok(())
}

// The reader, fed what arrives until it is refused or the input ends. A read that fails counts as the end.
fn read_input(rt: &impl Input) -> Feed {
    let mut input = rt.reader();
    let mut f = Feed::open(STORE_BLOCKS);
    let mut piece = [0u8; PIECE];
    for _ in 0..MOST_READS {
        let n = input.read(&mut piece).unwrap_or(0);
        f = f.take(&piece[..n]);
        // Once it is settled, nothing that follows can change what the reader says.
        if n == 0 || !matches!(f.answer(), Fed::More) {
            return f;
        }
    }
    f
}

fn main(rt: HostRuntime) -> io::Result<()> {
    let f = read_input(&rt).end();
    match f.answer() {
        // The end was told: everything is settled.
        Fed::More => Ok(()),
        Fed::Accepted => print_table(&rt, &f.table),
        // `table refused 3 at 0`
        Fed::Refused(number, place) => println!(rt; "table refused {number} at {place}"),
    }
}
