// Runs document 01's "run by program" cases and its sums, the ends of the two largest geometries, the sources' worked values that document 01 keeps
// or document 02 brings back (`sources`), parameter tables that are placed (`placement`), a table that arrives in pieces (`fragments`), a worn disk
// (`worn`), and the result of 74 bytes with the drives of kind 2 (`wide`). A line for each. The functions are called on the paper's 72-byte table and
// a window of 65,536 bytes, which each case makes anew. The turns of P9 and P10 are given by a host whose desk has a
// drive of 64 blocks.
#![tactic(auto)]

mod fragments;
mod placement;
mod sources;
mod wide;
mod worn;

ghost use Rattle.std.specs.Prelude.{◌≡◌, ◌+◌, ◌≤◌, ◌<◌, length};

use chs::{Address, Geometry, Outside};
use desk::{After, Desk, HouseNumber, Served};
use int13::{Outcome, Placement, Registers};
use std::{fmt, io};

const FIRST_DRIVE: u16 = 0x80;

const STORE_BLOCKS: u64 = 4294967296;

const PACKET_SIZE: u16 = 16;

// The window of a call that is made at no desk.
const SEGMENT: usize = 65536;

// ---- tables

// Which table a call is made at: document 01's, or that one with protection, with information flag bit 3, with P6's geometry, or with flag
// bits 3 to 6.
#[derive(Clone, Copy, PartialEq, Eq, Debug)]
enum PaperTable {
    Plain,
    Protected,
    Verifying,
    Largest,
    Flags78,
}

impl PaperTable {
    fn bytes(self) -> [u8; 72] {
        match self {
            PaperTable::Plain => plain_table(),
            PaperTable::Protected => table_bytes(2048, 2, 16, 1),
            PaperTable::Verifying => flagged_table(0x0A),
            PaperTable::Largest => largest_table(),
            PaperTable::Flags78 => flagged_table(0x78),
        }
    }
}

// The record of document 01's drive and the end record, but for its number of blocks, its C and H, and protection in byte 39.
fn table_bytes(blocks: u16, c: u8, h: u8, protection: u8) -> [u8; 72] {
    let mut t = [0u8; 72];
    words::store(
        &mut t,
        0,
        b"\x44\x00\x01\x00\x02\x00\x00\x00\x10\x00\x00\x00\x3F",
    );
    words::store(&mut t, 40, b"PCI\x00ATA\x00\x00\x00\x00\x00\x00\x1F\x01");
    words::put(&mut t, 16, blocks);
    t[32] = 0x02;
    t[34] = c;
    t[36] = h;
    t[38] = 0x3F;
    t[39] = protection;
    t[68] = 0x04;
    t
}

// Document 01's 72 bytes.
fn plain_table() -> [u8; 72] {
    table_bytes(2048, 2, 16, 0)
}

// P6: 1024/255/63 and as many blocks as it has addresses.
fn largest_table() -> [u8; 72] {
    let mut t = table_bytes(0x0400, 0, 255, 0);
    t[18] = 0xFB;
    t[35] = 0x04;
    t
}

// Document 01's drive with other information flags. With bit 3 it can write with verify.
fn flagged_table(flags: u8) -> [u8; 72] {
    let mut t = plain_table();
    t[32] = flags;
    t
}

// A record of 68 bytes among others, with another first block. Every caller leaves room for it and the end record.
fn put_drive(t: &mut [u8], at: usize, one: &[u8; 72], first: u64)
    requires { at + 72 ≤ length t.old }
{
    words::store(t, at, one);
    words::put(t, at + 24, first);
}

// ---- what is printed

// Bytes in hexadecimal, a space before each.
#[derive(Clone, Copy)]
struct Bytes<'a>(&'a [u8]);

impl fmt::Display for Bytes<'_> {
    fn fmt<W: fmt::Write>(&self, f: &mut fmt::Formatter<W>) -> fmt::Result {
        for b in self.0 {
            write!(f, " {b:02x}")?;
        }
        Ok(())
    }
}

// That a call waits, or the code in AH.
#[derive(Clone, Copy)]
struct Said(Outcome);

impl fmt::Display for Said {
    fn fmt<W: fmt::Write>(&self, f: &mut fmt::Formatter<W>) -> fmt::Result {
        match self.0 {
            Outcome::Waits(_) => write!(f, "waits"),
            Outcome::Answered(r) => write!(f, "AH {:02x}", r.ax / 256),
        }
    }
}

// ---- calls

fn registers(ax: u16, cx: u16, dx: u16) -> Registers {
    Registers {
        ax,
        bx: 0,
        cx,
        dx,
        ds: 0,
        si: 0,
        es: 0,
        carry: true,
    }
}

// Nothing is placed in the window.
const NO_PLACEMENT: Placement = Placement {
    placed: false,
    address: 0,
};

// A call at the drives of a table.
fn begin(t: &[u8], r: Registers, window: &mut [u8]) -> Outcome {
    let b = table::read_table(t, STORE_BLOCKS).table;
    int13::begin(b, NO_PLACEMENT, r, window)
}

// A call that needs nothing in the window.
fn bare_call(which: PaperTable, r: Registers) -> Outcome {
    let mut window = [0u8; SEGMENT];
    begin(&which.bytes(), r, &mut window)
}

// A packet of 16 bytes whose buffer is at 0:0, with the size that byte 0 gives it. Every caller has seen that it fits.
fn put_packet(arena: &mut [u8], at: usize, size: u16, start: u64, count: u16)
    requires { at + 16 ≤ length arena.old }
{
    words::put(arena, at, size);
    words::put(arena, at + 2, count);
    words::put(arena, at + 4, 0u32);
    words::put(arena, at + 8, start);
}

// A packet call with the packet at place 0 of the window and the buffer over it.
fn packet_call(which: PaperTable, ax: u16, size: u16, start: u64, count: u16) -> Said {
    let mut window = [0u8; SEGMENT];
    put_packet(&mut window, 0, size, start, count);
    let r = registers(ax, 0, FIRST_DRIVE);
    Said(begin(&which.bytes(), r, &mut window))
}

fn range_call(rt: &impl Print, start: u64, count: u16) -> io::Result<()> {
    let said = packet_call(PaperTable::Plain, 0x4200, PACKET_SIZE, start, count);
    println!(rt; "start {start} count {count}: {said}")
}

fn count_call(rt: &impl Print, count: u16) -> io::Result<()> {
    let said = packet_call(PaperTable::Plain, 0x4200, PACKET_SIZE, 0, count);
    println!(rt; "count {count}: {said}")
}

// 02h from cylinder 0, head 0, sector 1.
fn sector_call(rt: &impl Print, al: u8) -> io::Result<()> {
    let r = registers(0x0200 + al as u16, 0x0001, FIRST_DRIVE);
    println!(rt; "AL {al}: {}", Said(bare_call(PaperTable::Plain, r)))
}

// 48h with a result buffer of that size at place 0: the code, and the buffer's first 74 bytes afterwards.
fn result_of(t: &[u8], asked: u16) -> (Said, [u8; 74]) {
    let mut window = [0u8; SEGMENT];
    words::put(&mut window, 0, asked);
    let outcome = begin(t, registers(0x4800, 0, FIRST_DRIVE), &mut window);
    (Said(outcome), words::load(&window, 0))
}

// With the size word and the byte of the checksum, after a title. The checksum of 74 bytes stands at 73, of 66 at 65,
// and the shorter ones have none.
fn result_call(rt: &impl Print, title: &str, t: &[u8], asked: u16) -> io::Result<()> {
    let (said, out) = result_of(t, asked);
    let size: u16 = words::get(&out, 0);
    let place = if size == 74 { 73 } else { 65 };
    println!(rt;
        "{title} size {asked}: {said} size word {size} byte {place} {:02x}",
        out[place]
    )
}

fn say_geometry(rt: &impl Print, drive: u16, outcome: Outcome) -> io::Result<()> {
    let Outcome::Answered(r) = outcome else {
        return Ok(());
    };
    println!(rt;
        "08h drive {drive:02x}: AX {:04x} CX {:04x} DX {:04x}",
        r.ax, r.cx, r.dx
    )
}

// 08h.
fn geometry_call(rt: &impl Print, which: PaperTable, drive: u16) -> io::Result<()> {
    say_geometry(rt, drive, bare_call(which, registers(0x0800, 0, drive)))
}

// The registers of 41h.
fn support_asked(drive: u16, bx: u16) -> Registers {
    Registers {
        bx,
        ..registers(0x4100, 0, drive)
    }
}

fn say_support(rt: &impl Print, drive: u16, r: Registers) -> io::Result<()> {
    println!(rt;
        "41h drive {drive:02x}: AX {:04x} BX {:04x} CX {:04x}",
        r.ax, r.bx, r.cx
    )
}

// 41h.
fn extensions_call(rt: &impl Print, drive: u16, bx: u16) -> io::Result<()> {
    let Outcome::Answered(r) = bare_call(PaperTable::Plain, support_asked(drive, bx)) else {
        return Ok(());
    };
    say_support(rt, drive, r)
}

// The address of a block in the geometry 1024/h/63.
fn address_case(rt: &impl Print, h: u32, n: u64) -> io::Result<()> {
    match chs::address_of(Geometry { c: 1024, h, s: 63 }, n) {
        Ok(a) => println!(rt; "block {n} is {}/{}/{}", a.cylinder, a.head, a.sector),
        Err(Outside) => println!(rt; "block {n} AH {:02x}", chs::OUTSIDE),
    }
}

// The block of an address in the geometry of the sums, 1024/16/63.
fn block_case(rt: &impl Print, cylinder: u32, head: u32, sector: u32) -> io::Result<()> {
    let g = Geometry {
        c: 1024,
        h: 16,
        s: 63,
    };
    let a = Address {
        cylinder,
        head,
        sector,
    };
    match chs::block_of(g, a) {
        Ok(n) => println!(rt; "{cylinder}/{head}/{sector} block {n}"),
        Err(Outside) => println!(rt; "{cylinder}/{head}/{sector} AH {:02x}", chs::OUTSIDE),
    }
}

// ---- the cases of the functions

fn blocks(rt: &impl Print) -> io::Result<()> {
    block_case(rt, 0, 0, 1)?;
    block_case(rt, 0, 1, 1)?;
    block_case(rt, 1, 0, 1)?;
    block_case(rt, 1023, 15, 63)?;
    block_case(rt, 0, 0, 0)
}

fn last_blocks(rt: &impl Print) -> io::Result<()> {
    address_case(rt, 16, 1032191)?;
    address_case(rt, 16, 1032192)?;
    address_case(rt, 255, 16450559)?;
    address_case(rt, 255, 16450560)
}

// A write to a protected drive, out of range as well.
fn protected(rt: &impl Print) -> io::Result<()> {
    let said = packet_call(PaperTable::Protected, 0x4300, PACKET_SIZE, 2048, 1);
    println!(rt; "protected, start 2048 count 1: {said}")
}

fn ranges(rt: &impl Print) -> io::Result<()> {
    range_call(rt, 2047, 1)?;
    range_call(rt, 2048, 0)?;
    range_call(rt, 2048, 1)
}

fn counts(rt: &impl Print) -> io::Result<()> {
    sector_call(rt, 128)?;
    sector_call(rt, 129)?;
    count_call(rt, 127)?;
    count_call(rt, 128)
}

fn sizes(rt: &impl Print) -> io::Result<()> {
    let t = plain_table();
    for asked in [25, 26, 29, 30, 65, 66, 73, 74, 65535] {
        result_call(rt, "48h", &t, asked)?;
    }
    Ok(())
}

fn functions(rt: &impl Print) -> io::Result<()> {
    protected(rt)?;
    ranges(rt)?;
    counts(rt)?;
    extensions_call(rt, FIRST_DRIVE, 0x55AA)?;
    geometry_call(rt, PaperTable::Plain, FIRST_DRIVE)?;
    sizes(rt)?;
    geometry_call(rt, PaperTable::Largest, FIRST_DRIVE)
}

// ---- a host

// A guest's window, and all windows; the host's store of 64 blocks.
const WINDOW: usize = 20480;

const ARENA: usize = 163840;

const STORE: usize = 32768;

// A desk, with the arena and the store that its host lends it.
#[derive(Drop)]
struct Host {
    desk: Desk,
    arena: [u8; ARENA],
    store: [u8; STORE],
}

impl Host {
    // The arena and the store hold zeros, and the desk has one drive of 64 blocks.
    fn new() -> Host {
        Host {
            desk: opened(&table_bytes(64, 1, 1, 0)),
            arena: [0; ARENA],
            store: [0; STORE],
        }
    }

    // Opens a table anew.
    fn open(&mut self, t: &[u8]) {
        self.desk = opened(t);
    }

    // A store in which each block, and each byte of a block, can be told: byte i is seed + 7 x its block + i,
    // modulo 251.
    fn fill(&mut self, seed: u8) {
        for (i, b) in self.store.iter_mut().enumerate() {
            *b = ((seed as usize + 7 * (i / 512 % 64) + i % 251) % 251) as u8;
        }
    }

    // A call's answer; the host goes on with the desk that the call left.
    fn keep<A: Copy>(&mut self, after: After<A>) -> A {
        self.desk = after.desk;
        after.answer
    }

    fn post(&mut self, guest: usize, r: Registers) -> Result<Option<Registers>, HouseNumber> {
        let posted = self.desk.post(guest, r, &mut self.arena, &self.store);
        self.keep(posted)
    }

    fn turn(&mut self) -> Result<Option<Served>, HouseNumber> {
        self.desk.turn_lent(&mut self.arena, &mut self.store)
    }

    fn collect(&mut self, guest: usize) -> Result<Registers, HouseNumber> {
        let collected = self.desk.collect(guest);
        self.keep(collected)
    }

    fn withdraw(&mut self, guest: usize) -> Result<Registers, HouseNumber> {
        let withdrawn = self.desk.withdraw(guest, &mut self.arena, &self.store);
        self.keep(withdrawn)
    }

    fn place(&mut self, guest: usize, address: u64) -> Result<(), HouseNumber> {
        let desk = self.desk;
        let placing = desk.place(guest, address, &mut self.arena, &self.store);
        self.keep(placing)
    }

    // A guest's window.
    fn window(&self, guest: usize) -> &[u8]
        requires { guest < 8 }
        ensures { 20480 ≡ length result.now }
    {
        let at = WINDOW * guest;
        &self.arena[at..at + WINDOW]
    }

    // A guest waits with a packet for 40 blocks from block 0, at place 0 of its window.
    fn wait_40(&mut self, guest: usize)
        requires { guest < 8 }
    {
        put_packet(&mut self.arena, WINDOW * guest, PACKET_SIZE, 0, 40);
        let _ = self.post(guest, registers(0x4200, 0, FIRST_DRIVE));
    }
}

// The desk that an opening of a table gives.
fn opened(t: &[u8]) -> Desk {
    Desk::open(t, ARENA as u64, STORE as u64).desk
}

// ---- turns

// A byte of the first, the seventeenth and the thirty-third block of a guest's buffer: what its three turns lay down.
fn say_parts(rt: &impl Print, window: &[u8]) -> io::Result<()>
    requires { 20480 ≤ length window.now }
{
    let parts = [window[100], window[8292], window[16484]];
    println!(rt; "bytes 100, 8292, 16484:{}", Bytes(&parts))
}

fn one_turn(rt: &impl Print, host: &mut Host) -> io::Result<()> {
    match host.turn() {
        Ok(Some(s)) => {
            println!(rt; "turn: guest {} moved {}", s.guest, s.moved)?;
            if s.guest < 8 {
                say_parts(rt, host.window(s.guest))?;
            }
            Ok(())
        }
        Ok(None) => println!(rt; "turn: idle"),
        Err(_) => println!(rt; "turn: refused"),
    }
}

// P9: guests 2 and 5 wait with 40 blocks each, and seven turns follow.
fn two_guests(rt: &impl Print, host: &mut Host) -> io::Result<()> {
    host.fill(1);
    for guest in [2, 5] {
        host.wait_40(guest);
    }
    for _ in 0..7 {
        one_turn(rt, host)?;
    }
    Ok(())
}

// P10: the first turn leaves pointer 1 and all eight waiting, and eight follow.
fn eight_guests(rt: &impl Print, host: &mut Host) -> io::Result<()> {
    host.open(&table_bytes(64, 1, 1, 0));
    host.fill(101);
    for guest in 0..8 {
        host.wait_40(guest);
    }
    for _ in 0..9 {
        one_turn(rt, host)?;
    }
    Ok(())
}

fn main(rt: HostRuntime) -> io::Result<()> {
    blocks(&rt)?;
    last_blocks(&rt)?;
    functions(&rt)?;
    let mut host = Host::new();
    two_guests(&rt, &mut host)?;
    eight_guests(&rt, &mut host)?;
    sources::functions(&rt)?;
    sources::tables(&rt)?;
    sources::withdrawal(&rt, &mut host)?;
    placement::tables(&rt, &mut host)?;
    fragments::cases(&rt)?;
    worn::cases(&rt, &mut host)?;
    wide::cases(&rt)
}
