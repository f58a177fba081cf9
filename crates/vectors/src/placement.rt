// Document 02, 2026-01: drives 80h and 82h of three have a record of parameters. Guest 1 has the tables placed at 1A40h of its window, guest 2 has
// not.
ghost use Rattle.std.specs.Prelude.{◌+◌, ◌≤◌, ◌<◌, length};

use super::{
    Bytes, FIRST_DRIVE, Host, WINDOW, put_drive, registers, say_support, support_asked, table_bytes,
};
use std::io;

const ADDRESS: u64 = 0x1A40;

// ---- the drives

// The paper's record with 20 blocks, a track of 20 sectors.
fn twenty() -> [u8; 72] {
    let mut t = table_bytes(20, 1, 1, 0);
    t[38] = 20;
    t
}

// A drive's record of kind 4. Every caller leaves room for it.
fn put_parameters(t: &mut [u8], at: usize, drive: u16, given: &[u8; 14])
    requires { at + 20 ≤ length t.old }
{
    words::put(t, at, 20u16);
    words::put(t, at + 2, 4u16);
    words::put(t, at + 4, drive);
    words::store(t, at + 6, given);
}

// The first and the second channel of an ATA controller, and a drive between them of which nothing is known.
fn drives() -> [u8; 248] {
    let mut t = [0u8; 248];
    let one = twenty();
    put_drive(&mut t, 0, &one, 0);
    put_parameters(
        &mut t,
        68,
        0,
        b"\xF0\x01\xF6\x03\x40\x00\x0E\x80\x00\x04\x10\x00\x00\x00",
    );
    put_drive(&mut t, 88, &one, 20);
    put_drive(&mut t, 156, &one, 40);
    put_parameters(
        &mut t,
        224,
        2,
        b"\x70\x01\x76\x03\x50\x00\x0F\x10\x00\x04\x10\x00\x00\x00",
    );
    t[244] = 4;
    t
}

// ---- what a guest is shown

// 41h.
fn support_case(rt: &impl Print, host: &mut Host, guest: usize, drive: u16) -> io::Result<()> {
    let Ok(Some(r)) = host.post(guest, support_asked(drive, 0x55AA)) else {
        return Ok(());
    };
    say_support(rt, drive, r)
}

// 48h with a result buffer of 30 bytes at place 0 of a guest's window: its bytes 26 to 29 afterwards.
fn pointer_case(rt: &impl Print, host: &mut Host, guest: usize, drive: u16) -> io::Result<()>
    requires { guest < 8 }
{
    words::put(&mut host.arena, WINDOW * guest, 30u16);
    let _ = host.post(guest, registers(0x4800, 0, drive));
    let out = host.window(guest);
    println!(rt;
        "48h drive {drive:02x}: bytes 26 to 29:{}",
        Bytes(&out[26..30])
    )
}

fn shown(rt: &impl Print, host: &mut Host, guest: usize, drive: u16) -> io::Result<()>
    requires { guest < 8 }
{
    support_case(rt, host, guest, drive)?;
    pointer_case(rt, host, guest, drive)
}

// ---- placing

fn place(rt: &impl Print, host: &mut Host, guest: usize, address: u64) -> io::Result<()> {
    match host.place(guest, address) {
        Ok(()) => println!(rt; "place at {address}: done"),
        Err(e) => println!(rt; "place at {address}: refused {}", e.number()),
    }
}

// A place that is not a multiple of 16 is refused, and the desk stays. A table has sixteen bytes.
pub(crate) fn tables(rt: &impl Print, host: &mut Host) -> io::Result<()> {
    host.open(&drives());
    shown(rt, host, 1, FIRST_DRIVE)?;
    place(rt, host, 1, ADDRESS + 1)?;
    place(rt, host, 1, ADDRESS)?;
    let at = ADDRESS as usize;
    let window = host.window(1);
    println!(rt; "table:{}", Bytes(&window[at..at + 16]))?;
    println!(rt; "table:{}", Bytes(&window[at + 16..at + 32]))?;
    for drive in [0x80, 0x81, 0x82] {
        shown(rt, host, 1, drive)?;
    }
    shown(rt, host, 2, 0x80)
}
