// A drive of the table: its record, of 68 or 76 bytes, and the rules of document 01 that one drive obeys.
#![tactic(auto)]

ghost use Rattle.std.specs.Prelude.{◌≡◌, ◌+◌, ◌≤◌, ◌++◌, length, replicate};
ghost use Rattle.std.proofs.lemmas.List.Edits.{sets};
ghost use Rattle.chs.specs.Chs.{size};
ghost use Rattle.words.specs.Words.{le};
ghost use Rattle.drive.specs.Drive.{is_drive_kind, drive_length, tail_of, drive_of, record_of, geometry_bytes, size_bytes, name_bytes, bus_ok, interface_ok, is_i2o, zero_tail, kind_ok, geometry_of, geometry_fits, fields_ok, in_store, overlap, is_protected, same, blank_numbers, blank_names, is_blank};

use chs::Geometry;

// The fields of a record in the paper's order. Flags and the protection byte are kept as the table has them.
#[derive(Clone, Copy, PartialEq, Eq, Default)]
pub struct Drive {
    // physical geometry, any
    pub cylinders: u32,
    pub heads: u32,
    pub sectors: u32,
    pub blocks: u64,
    // first store block
    pub first: u64,
    // information flags
    pub flags: u16,
    // the geometry that 02h, 03h and 08h use
    pub c: u16,
    pub h: u16,
    pub s: u8,
    pub protection: u8,
    // host bus and interface type, padded with NUL
    pub bus: [u8; 4],
    pub interface: [u8; 8],
    // interface path and device path, any bytes
    pub path: [u8; 8],
    pub device: [u8; 8],
    // Stays: a tail beside the kind, since `decode` promises `drive_of` for any kind, and `Demand2` names both.
    // the record's kind, 1 or 2, and in kind 2 the last eight of the device path's sixteen bytes, which else are zero
    pub kind: u16,
    pub tail: [u8; 8],
}

// A drive's record: its kind, and how long it is.
// Stays: kinds are numbers, since a record says any word there, and `decode` and `length_of` promise an answer for it.
pub const DRIVE_KIND: u16 = 1;

pub const DRIVE_LENGTH: u16 = 68;

// With sixteen bytes of device path (document 02, 2026-06).
pub const WIDE_KIND: u16 = 2;

pub const WIDE_LENGTH: u16 = 76;

// Whether a kind is that of a drive.
pub fn is_drive_kind(kind: u16) -> bool
    ensures { result ≡ is_drive_kind kind }
{
    logic::or(kind == DRIVE_KIND, kind == WIDE_KIND)
}

// How long the record of a drive of that kind is.
pub fn length_of(kind: u16) -> u16
    ensures { result ≡ drive_length kind }
{
    if kind == WIDE_KIND {
        WIDE_LENGTH
    } else {
        DRIVE_LENGTH
    }
}

// ---- the record

// The last eight bytes of the device path, of a record of that kind.
#[tactic(auto, unfolding(crate::specs::Drive::tail_of))]
fn tail_of(r: &[u8], kind: u16) -> [u8; 8]
    requires { (drive_length (le 2 r.now 2) ≤ length r.now) × (kind ≡ le 2 r.now 2) }
    ensures { result ≡ tail_of r.now }
{
    if kind == WIDE_KIND {
        return words::load(r, 68);
    }
    [0; 8]
}

// The drive of a whole record. The table reader has seen that all bytes of its kind are there.
#[tactic(auto, unfolding(crate::specs::Drive::drive_of))]
pub fn decode(r: &[u8]) -> Drive
    requires { (68 ≤ length r.now) × (drive_length (le 2 r.now 2) ≤ length r.now) }
    ensures { result ≡ drive_of r.now }
{
    let kind = words::get(r, 2);
    Drive {
        cylinders: words::get(r, 4),
        heads: words::get(r, 8),
        sectors: words::get(r, 12),
        blocks: words::get(r, 16),
        first: words::get(r, 24),
        flags: words::get(r, 32),
        c: words::get(r, 34),
        h: words::get(r, 36),
        s: r[38],
        protection: r[39],
        bus: words::load(r, 40),
        interface: words::load(r, 44),
        path: words::load(r, 52),
        device: words::load(r, 60),
        kind,
        tail: tail_of(r, kind),
    }
}

// The record of a drive as one of kind 2 would be: the record of kind 1 is its first 68 bytes.
#[tactic(auto, using(crate::proofs::DriveLaws::record_laid))]
fn encode(d: Drive) -> [u8; 76]
    ensures { result ≡ geometry_bytes d ++ (size_bytes d ++ (name_bytes d ++ d.tail)) }
{
    let mut r = [0; 76];
    words::put(&mut r, 0, length_of(d.kind));
    words::put(&mut r, 2, d.kind);
    words::put(&mut r, 4, d.cylinders);
    words::put(&mut r, 8, d.heads);
    words::put(&mut r, 12, d.sectors);
    words::put(&mut r, 16, d.blocks);
    words::put(&mut r, 24, d.first);
    words::put(&mut r, 32, d.flags);
    words::put(&mut r, 34, d.c);
    words::put(&mut r, 36, d.h);
    words::put_byte(&mut r, 38, d.s);
    words::put_byte(&mut r, 39, d.protection);
    words::store(&mut r, 40, &d.bus);
    words::store(&mut r, 44, &d.interface);
    words::store(&mut r, 52, &d.path);
    words::store(&mut r, 60, &d.device);
    words::store(&mut r, 68, &d.tail);
    r
}

// How long the record of a drive is.
pub fn record_length(d: Drive) -> usize
    ensures { (result ≡ length (record_of d)) × (result ≡ drive_length d.kind) × (result ≤ 76) }
{
    length_of(d.kind) as usize
}

// The record of a drive, laid from a place on; there is room for it.
pub fn put_record(d: Drive, out: &mut [u8], at: usize)
    requires { at + length (record_of d) ≤ length out.old }
    ensures { out.new ≡ sets out.old at (record_of d) }
{
    let n = record_length(d);
    let r = encode(d);
    words::store(out, at, &r[..n]);
}

// ---- the rules of the fields

// Names, padded with NUL.
const ISA: [u8; 4] = *b"ISA\0";

const PCI: [u8; 4] = *b"PCI\0";

const ATA: [u8; 8] = *b"ATA\0\0\0\0\0";

const ATAPI: [u8; 8] = *b"ATAPI\0\0\0";

const SCSI: [u8; 8] = *b"SCSI\0\0\0\0";

const USB: [u8; 8] = *b"USB\0\0\0\0\0";

const IEEE1394: [u8; 8] = *b"1394\0\0\0\0";

const FIBRE: [u8; 8] = *b"FIBRE\0\0\0";

const I2O: [u8; 8] = *b"I2O\0\0\0\0\0";

// Stays: names are compared as words. `contains` takes half as long again on the arrays, and each call judges eight
// drives.
fn bus_ok(b: [u8; 4]) -> bool
    ensures { result ≡ bus_ok b }
{
    let v = u32::from_le_bytes(b);
    [ISA, PCI].iter().any(|name| u32::from_le_bytes(*name) == v)
}

fn interface_ok(b: [u8; 8]) -> bool
    ensures { result ≡ interface_ok b }
{
    let v = u64::from_le_bytes(b);
    [ATA, ATAPI, SCSI, USB, IEEE1394, FIBRE]
        .iter()
        .any(|name| u64::from_le_bytes(*name) == v)
}

// The interface type is I2O, which only a drive of kind 2 has.
pub fn is_i2o(d: Drive) -> bool
    ensures { result ≡ is_i2o d }
{
    let v = u64::from_le_bytes(d.interface);
    u64::from_le_bytes(I2O) == v
}

// The last eight bytes of the device path are zero.
#[tactic(auto, using(crate::proofs::DriveLaws::pointwise_same), unfolding(crate::specs::Drive::zero_tail))]
pub fn zero_tail(d: Drive) -> bool
    ensures { result ≡ zero_tail d }
{
    d.tail == [0; 8]
}

// What the kind allows: the interface types, and what stands behind the device path's eighth byte.
#[tactic(auto, unfolding(crate::specs::Drive::kind_ok))]
fn kind_ok(d: Drive) -> bool
    ensures { result ≡ kind_ok d }
{
    let six = interface_ok(d.interface);
    if d.kind == WIDE_KIND {
        return logic::or(six, is_i2o(d));
    }
    logic::and(d.kind == DRIVE_KIND, logic::and(six, zero_tail(d)))
}

// C, H and S of the record.
pub fn geometry_of(d: Drive) -> Geometry
    ensures { result ≡ geometry_of d }
{
    Geometry {
        c: d.c as u32,
        h: d.h as u32,
        s: d.s as u32,
    }
}

// C x H x S, whatever the fields are; three numbers of 16, 16 and 8 bits fit in 64.
pub fn geometry_size(d: Drive) -> u64
    ensures { result ≡ size (geometry_of d) }
{
    d.c as u64 * d.h as u64 * d.s as u64
}

#[tactic(auto, unfolding(crate::specs::Drive::geometry_fits))]
fn geometry_fits(d: Drive) -> bool
    ensures { result ≡ geometry_fits d }
{
    let n = geometry_size(d);
    logic::and(chs::in_limits(geometry_of(d)), n <= d.blocks)
}

// Every field is as the table's rules say. Each call at a desk asks it of eight drives: it is made a part of its
// callers, so that a drive is not copied for it.
#[tactic(auto, unfolding(crate::specs::Drive::fields_ok))]
#[inline(always)]
pub fn fields_ok(d: Drive) -> bool
    ensures { result ≡ fields_ok d }
{
    let names = logic::and(bus_ok(d.bus), kind_ok(d));
    let bytes = logic::and(d.protection <= 1, names);
    logic::and(
        1 <= d.blocks,
        logic::and(d.flags < 128, logic::and(geometry_fits(d), bytes)),
    )
}

// ---- the rules of the store

// The drive ends inside a store of that many blocks.
#[tactic(auto, unfolding(crate::specs::Drive::in_store))]
pub fn in_store(d: Drive, store: u64) -> bool
    ensures { result ≡ in_store d store }
{
    logic::ends_by(d.first, d.blocks, store)
}

// The two drives share a block. Tested by differences, since first + blocks may not fit a word. They are lent: a copy
// of each drive would be most of what a reading costs.
#[tactic(auto, using(crate::proofs::DriveLaws::overlap_before, crate::proofs::DriveLaws::overlap_after), unfolding(crate::specs::Drive::overlap))]
pub fn overlaps(a: &Drive, b: &Drive) -> bool
    ensures { result ≡ overlap a.now b.now }
{
    if a.first <= b.first {
        b.first - a.first < a.blocks
    } else {
        a.first - b.first < b.blocks
    }
}

// Byte 39 says that the drive is protected.
pub fn is_protected(d: Drive) -> bool
    ensures { result ≡ is_protected d }
{
    d.protection == 1
}

// Every field is zero.
pub fn is_blank(d: Drive) -> bool
    ensures { result ≡ is_blank d }
{
    d == Drive::default()
}
