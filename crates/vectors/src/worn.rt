// Document 02, 2026-04: a drive of 64 blocks, of which 20 and 41 are bad, and guest 0's requests that reach them. The buffer covers the packet.
ghost use Rattle.std.specs.Prelude.{◌+◌, ◌≤◌, length};

use super::sources::{read, say_count};
use super::{FIRST_DRIVE, Host, PACKET_SIZE, put_packet, registers, table_bytes};
use desk::HouseNumber;
use int13::Registers;
use std::{fmt, io};

// ---- the drive

// The record of two bad blocks of the first drive. Its caller leaves room for it.
fn put_list(t: &mut [u8], at: usize, first: u64, second: u64)
    requires { at + 22 ≤ length t.old }
{
    words::put(t, at, 22u16);
    words::put(t, at + 2, 3u16);
    words::put(t, at + 4, 0u16);
    words::put(t, at + 6, first);
    words::put(t, at + 14, second);
}

// The drive, its list and the end record.
fn worn_table(first: u64, second: u64) -> [u8; 94] {
    let mut t = [0u8; 94];
    words::store(&mut t, 0, &table_bytes(64, 1, 1, 0));
    put_list(&mut t, 68, first, second);
    t[90] = 4;
    t
}

// `bad blocks 20, 41: table ok`
fn list_case(rt: &impl Print, first: u64, second: u64) -> io::Result<()> {
    println!(rt;
        "bad blocks {first}, {second}: {}",
        read(&worn_table(first, second))
    )
}

// ---- what a guest is told

#[derive(Clone, Copy)]
struct PostAnswer(Result<Option<Registers>, HouseNumber>);

impl fmt::Display for PostAnswer {
    fn fmt<W: fmt::Write>(&self, f: &mut fmt::Formatter<W>) -> fmt::Result {
        match self.0 {
            Ok(Some(r)) => write!(f, "answered AX {:04x}", r.ax),
            Ok(None) => write!(f, "waits"),
            Err(_) => write!(f, "refused"),
        }
    }
}

// ---- a request

// Three turns are enough for 40 blocks; an idle one says nothing.
fn turns(rt: &impl Print, host: &mut Host) -> io::Result<()> {
    for _ in 0..3 {
        match host.turn() {
            Ok(Some(s)) => println!(rt; "turn: moved {}", s.moved)?,
            Ok(None) => (),
            Err(_) => println!(rt; "turn: refused")?,
        }
    }
    Ok(())
}

// A row that has nothing to collect says nothing.
fn collect(rt: &impl Print, host: &mut Host) -> io::Result<()> {
    let Ok(r) = host.collect(0) else {
        return Ok(());
    };
    let carry = if r.carry { " carry" } else { "" };
    println!(rt; "collected: AX {:04x}{carry}", r.ax)
}

// `AX 4200 start 3 count 40: waits`, its turns, its registers, and the word at 2. The function in AH, the sectors of
// 02h and 03h in AL; the packet of the others at place 0. 02h and 03h begin at sector 4, which is block 3.
fn request(rt: &impl Print, host: &mut Host, ax: u16, start: u64, count: u16) -> io::Result<()> {
    host.open(&worn_table(20, 41));
    put_packet(&mut host.arena, 0, PACKET_SIZE, start, count);
    let answer = PostAnswer(host.post(0, registers(ax, 0x0004, FIRST_DRIVE)));
    println!(rt; "AX {ax:04x} start {start} count {count}: {answer}")?;
    turns(rt, host)?;
    collect(rt, host)?;
    say_count(rt, &host.arena)
}

// ---- the cases

fn lists(rt: &impl Print) -> io::Result<()> {
    list_case(rt, 20, 41)?;
    list_case(rt, 41, 20)?;
    list_case(rt, 20, 20)?;
    list_case(rt, 20, 64)
}

// 40 blocks from block 3 on, of which 17 come before the first bad one.
fn by_function(rt: &impl Print, host: &mut Host) -> io::Result<()> {
    for ax in [0x4200, 0x0228, 0x4300, 0x0328] {
        request(rt, host, ax, 3, 40)?;
    }
    Ok(())
}

// A bad block behind data that lies over the packet, a bad block first, none in the range, and 44h.
fn by_range(rt: &impl Print, host: &mut Host) -> io::Result<()> {
    request(rt, host, 0x4200, 15, 8)?;
    request(rt, host, 0x4200, 20, 2)?;
    request(rt, host, 0x4200, 21, 20)?;
    request(rt, host, 0x4400, 3, 40)?;
    request(rt, host, 0x4400, 21, 20)
}

pub(crate) fn cases(rt: &impl Print, host: &mut Host) -> io::Result<()> {
    lists(rt)?;
    by_function(rt, host)?;
    by_range(rt, host)
}
