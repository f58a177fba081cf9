// Document 02, 2026-06: the 74 bytes of 48h, of the paper's drive and of drives of kind 2, whose device path has sixteen bytes; what the table reader
// says of that kind and of I2O; and a table with such a drive written back.
use super::sources::{NAMES, named_table, read, result_case};
use super::{STORE_BLOCKS, plain_table, result_call};
use std::io;
use table::ShortBuffer;

// A table of one drive of kind 2: its record of 76 bytes and the end record.
const BYTES: usize = 80;

// ---- the drives

// The paper's drive in kind 2, with that interface type, interface path and device path.
fn wide_table(interface: &[u8; 8], paths: &[u8; 24]) -> [u8; BYTES] {
    let mut t = [0u8; BYTES];
    words::store(&mut t, 0, &plain_table());
    words::store(&mut t, 44, interface);
    words::store(&mut t, 52, paths);
    t[0] = 76;
    t[2] = 2;
    t[76] = 4;
    t
}

// The bytes of both paths, all different: 91h to 98h, then 99h to A8h.
fn numbered_table(interface: &[u8; 8]) -> [u8; BYTES] {
    wide_table(
        interface,
        b"\x91\x92\x93\x94\x95\x96\x97\x98\x99\x9A\x9B\x9C\x9D\x9E\x9F\xA0\xA1\xA2\xA3\xA4\xA5\xA6\xA7\xA8",
    )
}

fn i2o_table() -> [u8; BYTES] {
    numbered_table(b"I2O\x00\x00\x00\x00\x00")
}

// The paper's drive converted: eight zero bytes behind its device path.
fn converted_table() -> [u8; BYTES] {
    wide_table(
        b"ATA\x00\x00\x00\x00\x00",
        b"\x00\x1F\x01\x00\x00\x00\x00\x00\x00\x00\x00\x00\x00\x00\x00\x00\x00\x00\x00\x00\x00\x00\x00\x00",
    )
}

// ---- the result

// All 74 bytes of the paper's drive.
fn plain_result(rt: &impl Print) -> io::Result<()> {
    let t = plain_table();
    result_case(rt, "48h 74", &t, 74, 0, 30)?;
    result_case(rt, "48h 74", &t, 74, 30, 74)
}

// A drive of kind 1 answers 74 as its conversion: these are the same bytes.
fn converted_result(rt: &impl Print) -> io::Result<()> {
    let t = converted_table();
    result_case(rt, "kind 2, 48h 74", &t, 74, 0, 30)?;
    result_case(rt, "kind 2, 48h 74", &t, 74, 30, 74)
}

// The interface types of kind 1 are padded with 20h. I2O is the seventh.
fn padded(rt: &impl Print) -> io::Result<()> {
    for name in NAMES {
        result_case(rt, "48h 74", &named_table(name), 74, 36, 48)?;
    }
    Ok(())
}

// From 66 to 73 it is answered as if the size were 30.
fn i2o(rt: &impl Print) -> io::Result<()> {
    let t = i2o_table();
    result_case(rt, "I2O, 48h 74", &t, 74, 0, 30)?;
    result_case(rt, "I2O, 48h 74", &t, 74, 30, 74)?;
    for asked in [66, 73, 74] {
        result_call(rt, "I2O, 48h", &t, asked)?;
    }
    Ok(())
}

// A drive of kind 2 that is not I2O shows the first eight bytes of its device path in 66 bytes, and all sixteen in 74.
fn fibre(rt: &impl Print) -> io::Result<()> {
    let t = numbered_table(b"FIBRE\x00\x00\x00");
    result_case(rt, "FIBRE in kind 2, 48h", &t, 66, 30, 66)?;
    result_case(rt, "FIBRE in kind 2, 48h 74", &t, 74, 30, 74)
}

// ---- the table reader

fn i2o_kinds(rt: &impl Print) -> io::Result<()> {
    let narrow = named_table(b"PCI\x00I2O\x00\x00\x00\x00\x00");
    println!(rt; "I2O in kind 1: {}", read(&narrow))?;
    println!(rt; "I2O in kind 2: {}", read(&i2o_table()))
}

// The paper's drive in kind 2, but for its record's kind and length.
fn length_case(rt: &impl Print, kind: u8, size: u8) -> io::Result<()> {
    let mut t = converted_table();
    t[0] = size;
    t[2] = kind;
    println!(rt; "kind {kind} length {size}: {}", read(&t))
}

fn lengths(rt: &impl Print) -> io::Result<()> {
    length_case(rt, 2, 68)?;
    length_case(rt, 1, 76)?;
    length_case(rt, 2, 76)
}

// ---- the writer

// The table as it was read, laid out again in a buffer.
fn write_back(t: &[u8], out: &mut [u8]) -> Result<usize, ShortBuffer> {
    table::write_table(table::read_table(t, STORE_BLOCKS).table, out)
}

// `I2O, written back: 80 bytes, equal`, where before there was another byte in each place.
fn written_case(rt: &impl Print, title: &str, t: &[u8; BYTES]) -> io::Result<()> {
    let mut out = [0xEEu8; BYTES];
    match write_back(t, &mut out) {
        Ok(n) => print!(rt; "{title}, written back: {n} bytes, ")?,
        Err(ShortBuffer) => print!(rt; "{title}, written back: refused, ")?,
    }
    println!(rt; "{}", if *t == out { "equal" } else { "not equal" })
}

// The kind stays where eight zero bytes would allow the other one.
fn written(rt: &impl Print) -> io::Result<()> {
    written_case(rt, "kind 2, last eight bytes zero", &converted_table())?;
    written_case(rt, "I2O", &i2o_table())
}

pub(crate) fn cases(rt: &impl Print) -> io::Result<()> {
    plain_result(rt)?;
    converted_result(rt)?;
    padded(rt)?;
    i2o(rt)?;
    fibre(rt)?;
    i2o_kinds(rt)?;
    lengths(rt)?;
    written(rt)
}
