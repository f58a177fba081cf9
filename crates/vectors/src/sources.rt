// The sources' worked values that document 01 keeps, beyond its own cases, and the flags of 48h, which document 02 (2026-02) takes from document 004:
// docs/PROMISES.md, "The sources' values", has them all.
ghost use Rattle.std.specs.Prelude.{◌≤◌};

use super::{
    Bytes, FIRST_DRIVE, Host, PACKET_SIZE, PaperTable, SEGMENT, STORE_BLOCKS, Said, bare_call,
    begin, extensions_call, flagged_table, geometry_call, one_turn, packet_call, plain_table,
    put_drive, put_packet, registers, result_of, say_geometry, sector_call, table_bytes,
};
use std::{fmt, io};
use table::Refused;

// ---- addresses and packets

// A segment and an offset, and the address that they mean.
fn address_case(rt: &impl Print, segment: u16, offset: u16) -> io::Result<()> {
    let address = layout::linear(segment, offset);
    println!(rt; "address {segment:04x}:{offset:04x} is {address}")
}

// 42h of one block by a packet whose byte 0 gives that size.
fn size_call(rt: &impl Print, size: u16) -> io::Result<()> {
    let said = packet_call(PaperTable::Plain, 0x4200, size, 0, 1);
    println!(rt; "packet size {size}: {said}")
}

fn packets(rt: &impl Print) -> io::Result<()> {
    address_case(rt, 0, 0x7C00)?;
    address_case(rt, 0xA000, 0)?;
    for size in [15, 16, 17] {
        size_call(rt, size)?;
    }
    sector_call(rt, 0)
}

// ---- writes, verifies and seeks

fn write_call(rt: &impl Print, al: u8) -> io::Result<()> {
    let said = packet_call(PaperTable::Plain, 0x4300 + al as u16, PACKET_SIZE, 0, 1);
    println!(rt; "43h AL {al}: {said}")
}

// AL 2, which writes with verify.
fn verified(which: PaperTable) -> Said {
    packet_call(which, 0x4302, PACKET_SIZE, 0, 1)
}

fn writes(rt: &impl Print) -> io::Result<()> {
    for al in 0..4 {
        write_call(rt, al)?;
    }
    println!(rt;
        "43h AL 2, flag bit 3 set: {}",
        verified(PaperTable::Verifying)
    )?;
    println!(rt; "43h AL 2, flags 78: {}", verified(PaperTable::Flags78))
}

// The count word of a packet at place 0, after the call.
pub(crate) fn say_count(rt: &impl Print, window: &[u8]) -> io::Result<()> {
    if window.len() < 4 {
        return Ok(());
    }
    println!(rt; "count word {}", words::get::<u16>(window, 2))
}

// 44h of one block.
fn verify_call(rt: &impl Print, start: u64) -> io::Result<()> {
    let mut window = [0u8; SEGMENT];
    put_packet(&mut window, 0, PACKET_SIZE, start, 1);
    let r = registers(0x4400, 0, FIRST_DRIVE);
    let said = Said(begin(&plain_table(), r, &mut window));
    println!(rt; "44h start {start} count 1: {said}")?;
    say_count(rt, &window)
}

fn seek_call(rt: &impl Print, start: u64) -> io::Result<()> {
    let said = packet_call(PaperTable::Plain, 0x4700, PACKET_SIZE, start, 1);
    println!(rt; "47h start {start}: {said}")
}

fn verifies(rt: &impl Print) -> io::Result<()> {
    verify_call(rt, 2047)?;
    verify_call(rt, 2048)?;
    seek_call(rt, 2047)?;
    seek_call(rt, 2048)
}

// ---- functions and drives that are not there

// A call of which only the code in AH is shown.
fn plain_call(rt: &impl Print, ax: u16, drive: u16) -> io::Result<()> {
    let said = Said(bare_call(PaperTable::Plain, registers(ax, 0, drive)));
    println!(rt; "{:02x}h drive {drive:02x}: {said}", ax / 256)
}

fn unknown_functions(rt: &impl Print) -> io::Result<()> {
    for ax in [0x4500, 0x4600, 0x4900, 0x4E00, 0x5000] {
        plain_call(rt, ax, FIRST_DRIVE)?;
    }
    Ok(())
}

// High numbers that some BIOSes take for drive 80h.
fn unknown_drive(rt: &impl Print, drive: u16) -> io::Result<()> {
    geometry_call(rt, PaperTable::Plain, drive)?;
    plain_call(rt, 0x4800, drive)
}

fn unknown_drives(rt: &impl Print) -> io::Result<()> {
    extensions_call(rt, 0x81, 0x55AA)?;
    extensions_call(rt, FIRST_DRIVE, 0xAA55)?;
    for drive in [0x90, 0xB0, 0xD0, 0xF0] {
        unknown_drive(rt, drive)?;
    }
    Ok(())
}

pub(crate) fn functions(rt: &impl Print) -> io::Result<()> {
    packets(rt)?;
    writes(rt)?;
    verifies(rt)?;
    unknown_functions(rt)?;
    unknown_drives(rt)
}

// ---- tables and results

// Some bytes of the result of 48h with a buffer of that size, after a title.
pub(crate) fn result_case(
    rt: &impl Print,
    title: &str,
    t: &[u8],
    asked: u16,
    from: usize,
    to: usize,
) -> io::Result<()>
    requires ordered { from ≤ to }
    requires inside { to ≤ 74 }
{
    let (_, out) = result_of(t, asked);
    println!(rt; "{title} bytes from {from}:{}", Bytes(&out[from..to]))
}

// The paper's drive on another host bus and interface.
pub(crate) fn named_table(bus_and_interface: &[u8; 12]) -> [u8; 72] {
    let mut t = plain_table();
    words::store(&mut t, 40, bus_and_interface);
    t
}

// The six interface types that kind 1 has, each with a host bus.
pub(crate) const NAMES: [&[u8; 12]; 6] = [
    b"ISA\x00ATA\x00\x00\x00\x00\x00",
    b"PCI\x00ATAPI\x00\x00\x00",
    b"PCI\x00SCSI\x00\x00\x00\x00",
    b"PCI\x00USB\x00\x00\x00\x00\x00",
    b"PCI\x001394\x00\x00\x00\x00",
    b"PCI\x00FIBRE\x00\x00\x00",
];

fn names(rt: &impl Print) -> io::Result<()> {
    for name in NAMES {
        result_case(rt, "48h", &named_table(name), 66, 36, 48)?;
    }
    Ok(())
}

// The information flags that 48h shows of those in the table.
fn flags_case(rt: &impl Print, flags: u8) -> io::Result<()> {
    print!(rt; "flags {flags:02x}, ")?;
    result_case(rt, "48h", &flagged_table(flags), 66, 2, 4)
}

// Bits 4 to 6 without bit 2, with it, and with bit 3 alone.
fn flags(rt: &impl Print) -> io::Result<()> {
    for shown in [0x7A, 0x7E, 0x78] {
        flags_case(rt, shown)?;
    }
    Ok(())
}

// A drive of 2^25 blocks with these flags and this C, H and S.
fn limits_table(flags: u8, c: u16, h: u16, s: u8) -> [u8; 72] {
    let mut t = table_bytes(0, 0, 0, 0);
    words::put(&mut t, 34, c);
    words::put(&mut t, 36, h);
    t[19] = 0x02;
    t[32] = flags;
    t[38] = s;
    t
}

// What a table's bytes are answered.
#[derive(Clone, Copy)]
pub(crate) struct Verdict(Result<(), Refused>);

impl fmt::Display for Verdict {
    fn fmt<W: fmt::Write>(&self, f: &mut fmt::Formatter<W>) -> fmt::Result {
        match self.0 {
            Ok(()) => write!(f, "table ok"),
            Err(e) => write!(f, "table refused {}", e.refusal.number()),
        }
    }
}

pub(crate) fn read(t: &[u8]) -> Verdict {
    Verdict(table::read_table(t, STORE_BLOCKS).answer)
}

fn limits_case(rt: &impl Print, flags: u8, c: u16, h: u16, s: u8) -> io::Result<()> {
    let read = read(&limits_table(flags, c, h, s));
    println!(rt; "flags {flags:02x} chs {c}/{h}/{s}: {read}")
}

fn limits(rt: &impl Print) -> io::Result<()> {
    limits_case(rt, 0x7F, 1024, 255, 63)?;
    limits_case(rt, 0x80, 1024, 255, 63)?;
    limits_case(rt, 0x7F, 1025, 255, 63)?;
    limits_case(rt, 0x7F, 1024, 256, 63)?;
    limits_case(rt, 0x7F, 1024, 255, 64)
}

// The paper's drive four times, each behind the one before.
fn four_table() -> [u8; 276] {
    let mut t = [0u8; 276];
    let one = plain_table();
    put_drive(&mut t, 0, &one, 0);
    put_drive(&mut t, 68, &one, 2048);
    put_drive(&mut t, 136, &one, 4096);
    put_drive(&mut t, 204, &one, 6144);
    t
}

// 08h at a table of four drives.
fn four_drives_call(rt: &impl Print, drive: u16) -> io::Result<()> {
    let mut window = [0u8; SEGMENT];
    let outcome = begin(&four_table(), registers(0x0800, 0, drive), &mut window);
    say_geometry(rt, drive, outcome)
}

// 80h to 83h are drives, 84h is not.
fn four_drives(rt: &impl Print) -> io::Result<()> {
    for drive in 0x80..0x85 {
        four_drives_call(rt, drive)?;
    }
    Ok(())
}

pub(crate) fn tables(rt: &impl Print) -> io::Result<()> {
    result_case(rt, "48h", &plain_table(), 66, 0, 66)?;
    names(rt)?;
    flags(rt)?;
    limits(rt)?;
    four_drives(rt)
}

// ---- the desk

// Guest 0 withdraws after 16 of 40 blocks have been laid over its packet.
pub(crate) fn withdrawal(rt: &impl Print, host: &mut Host) -> io::Result<()> {
    host.open(&table_bytes(64, 1, 1, 0));
    host.fill(201);
    host.wait_40(0);
    one_turn(rt, host)?;
    match host.withdraw(0) {
        Ok(r) => println!(rt; "withdrawn: AX {:04x}", r.ax)?,
        Err(_) => println!(rt; "withdrawal refused")?,
    }
    say_count(rt, &host.arena)
}
