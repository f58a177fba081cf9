// The layouts that guests see in their memory: the device address packet, which the desk reads, and the result buffer of 48h and the device
// parameter table that it may point at, which the desk writes.
#![tactic(auto)]

ghost use Rattle.std.specs.Prelude.{◌≡◌, ◌+◌, ◌-◌, ◌%◌, ◌≤◌, ◌<◌, length, set, take};
ghost use Rattle.std.proofs.lemmas.List.Edits.{sets};
ghost use Rattle.layout.specs.Packet.{linear, packet_length, packet_at, read_packet, packet_numbers, packet_given};
ghost use Rattle.layout.specs.ParameterTable.{drive_flags, parameter_table};
ghost use Rattle.words.specs.Words.{part};
ghost use Rattle.layout.specs.ResultBuffer.{wide_size, returned_size, flags_shown, parameter_bytes, block_bytes, interface_of, paths_of, padded_byte, padded, checksum, whole_result, result_answer, result_out, result_numbers, size_given};

use drive::Drive;

// AH 01h.
pub const BAD_PARAMETER: u8 = 0x01;

// A refusal with AH 01h: a packet, or a result, for which the window has no room, or a size below the least.
#[derive(Clone, Copy, PartialEq, Eq, Debug)]
pub struct BadParameter;

// ---- the device address packet

// 16 times segment plus offset, never wrapped: at most 10FFEFh.
pub fn linear(segment: u16, offset: u16) -> u32
    ensures { result ≡ linear segment offset }
{
    16 * u32::from(segment) + u32::from(offset)
}

// A packet's fields in the paper's order.
#[derive(Clone, Copy)]
pub struct Packet {
    // byte 0 as the guest gave it, not yet tested
    pub size: u8,
    pub count: u16,
    // address of the buffer in the window
    pub buffer: u32,
    // first block
    pub start: u64,
}

pub const PACKET_LENGTH: u64 = 16;

// The fields of a packet that is wholly inside the window.
#[tactic(auto, unfolding(crate::specs::Packet::packet_at))]
fn packet_at(window: &[u8], at: usize) -> Packet
    requires { at + packet_length ≤ length window.now }
    ensures { result ≡ packet_at window.now at }
{
    let offset = words::get(window, at + 4);
    let segment = words::get(window, at + 6);
    Packet {
        size: window[at],
        count: words::get(window, at + 2),
        buffer: linear(segment, offset),
        start: words::get(window, at + 8),
    }
}

// The packet at a place of the window, which may be any number. Refused with 01h: a packet that is not wholly inside.
#[tactic(auto, unfolding(crate::specs::Packet::read_packet, crate::specs::Packet::packet_at, crate::specs::Packet::packet_numbers, crate::specs::Packet::packet_given))]
pub fn read_packet(window: &[u8], at: usize) -> Result<Packet, BadParameter>
    ensures { (result ≡ read_packet window.now at) × (packet_numbers result ≡ packet_given window.now at) }
{
    if logic::ends_by(at as u64, PACKET_LENGTH, window.len() as u64) {
        return Ok(packet_at(window, at));
    }
    Err(BadParameter)
}

// ---- the bytes of the result buffer

// Where bytes 26 to 29 of a result point, as the two words that stand there.
#[derive(Clone, Copy)]
pub struct Pointer {
    pub offset: u16,
    pub segment: u16,
}

const LEAST_SIZE: u16 = 26;

const POINTER_SIZE: u16 = 30;

const PATH_SIZE: u16 = 66;

const WIDE_SIZE: u16 = 74;

const BLOCK_LENGTH: u16 = memory::BLOCK_LENGTH as u16;

const PATH_KEY: u16 = 0xBEDD;

const PATH_LENGTH: u8 = 0x24;

const WIDE_PATH_LENGTH: u8 = 0x2C;

// Bytes of the longer result.
const WHOLE: usize = WIDE_SIZE as usize;

// The checksum is made over the bytes from here on.
const SUMMED: usize = 30;

// What the longer result has in a name where the record has NUL.
const PADDING: u8 = 0x20;

// The returned size for a size asked of at least 26. There are no 66 bytes of a drive of type I2O: it gets 30.
#[tactic(auto, unfolding(crate::specs::ResultBuffer::returned_size))]
fn returned_size(d: Drive, asked: u16) -> u16
    ensures { result ≡ returned_size d asked }
{
    if asked < POINTER_SIZE {
        return LEAST_SIZE;
    }
    if asked < PATH_SIZE {
        return POINTER_SIZE;
    }
    if asked < WIDE_SIZE {
        if drive::is_i2o(d) {
            return POINTER_SIZE;
        }
        return PATH_SIZE;
    }
    WIDE_SIZE
}

// The information flags that 48h shows: without bit 2, removable, bits 4 to 6 mean nothing and are zero.
fn flags_shown(d: Drive) -> u16
    ensures { result ≡ flags_shown d }
{
    let flags = d.flags;
    if flags / 4 % 2 == 1 {
        return flags;
    }
    flags % 16 + flags / 128 * 128
}

// The four runs of a result are written in a buffer of 74 bytes; the shorter result has its bytes in the first 66.
#[tactic(auto, using(crate::proofs::ResultBufferLaws::geometry_stores))]
fn put_geometry(d: Drive, n: u16, out: &mut [u8; WHOLE])
    ensures { out.new ≡ sets out.old 0 (parameter_bytes d n) }
{
    words::put(out, 0, n);
    words::put(out, 2, flags_shown(d));
    words::put(out, 4, d.cylinders);
    words::put(out, 8, d.heads);
    words::put(out, 12, d.sectors);
}

#[tactic(auto, using(crate::proofs::ResultBufferLaws::block_stores))]
fn put_blocks(d: Drive, p: Pointer, out: &mut [u8; WHOLE])
    ensures { out.new ≡ sets out.old 16 (block_bytes d p) }
{
    words::put(out, 16, d.blocks);
    words::put(out, 24, BLOCK_LENGTH);
    words::put(out, 26, p.offset);
    words::put(out, 28, p.segment);
}

// The length is a byte with three zeros after it: one dword.
#[tactic(auto, using(crate::proofs::ResultBufferLaws::interface_stores))]
fn put_interface(length: u8, bus: [u8; 4], interface: [u8; 8], out: &mut [u8; WHOLE])
    ensures { out.new ≡ sets out.old 30 (interface_of length bus interface) }
{
    words::put(out, 30, PATH_KEY);
    words::put(out, 32, u32::from(length));
    words::store(out, 36, &bus);
    words::store(out, 40, &interface);
}

// The tail has eight bytes in the longer result, and none in the shorter one.
#[tactic(auto, using(crate::proofs::ResultBufferLaws::path_stores))]
fn put_paths(d: Drive, tail: &[u8], out: &mut [u8; WHOLE])
    requires { length tail.now ≤ 8 }
    ensures { out.new ≡ sets out.old 48 (paths_of d tail.now) }
{
    words::store(out, 48, &d.path);
    words::store(out, 56, &d.device);
    words::store(out, 64, tail);
    words::put_byte(out, 64 + tail.len(), 0);
}

fn padded_byte(x: u8) -> u8
    ensures { result ≡ padded_byte x }
{
    if x == 0 { PADDING } else { x }
}

// A name with 20h for each NUL.
fn padded<const N: usize>(name: [u8; N]) -> [u8; N]
    requires { N ≤ 8 }
    ensures { result ≡ padded name.entry }
{
    name.map(padded_byte)
}

// The byte that makes the sum of s and of itself zero modulo 256.
fn checksum_of(s: &[u8]) -> u8
    ensures { result ≡ checksum s.now }
{
    s.iter()
        .fold(0u8, |sum, x| sum.wrapping_add(*x))
        .wrapping_neg()
}

// The last byte, which makes the sum of those from 30 on zero modulo 256.
fn put_checksum(out: &mut [u8; WHOLE], last: usize)
    requires { (30 ≤ last) × (last < wide_size) }
    ensures { out.new ≡ set out.old last (checksum (part (last - 30) out.old 30)) }
{
    let byte = checksum_of(&out[SUMMED..last]);
    words::put_byte(out, last, byte);
}

// All bytes of the result with the returned size n, at the start of the buffer.
fn whole_of(d: Drive, p: Pointer, n: u16) -> [u8; WHOLE]
    ensures { take (length (whole_result d p n)) result ≡ whole_result d p n }
{
    let mut r = [0; WHOLE];
    put_geometry(d, n, &mut r);
    put_blocks(d, p, &mut r);
    if n == WIDE_SIZE {
        put_interface(WIDE_PATH_LENGTH, padded(d.bus), padded(d.interface), &mut r);
        put_paths(d, &d.tail, &mut r);
        put_checksum(&mut r, 73);
    } else {
        put_interface(PATH_LENGTH, d.bus, d.interface, &mut r);
        put_paths(d, &[], &mut r);
        put_checksum(&mut r, 65);
    }
    r
}

// ---- the answer of 48h

// The result for a drive, a pointer and the size asked; out is the window from DS:SI to its end. The answer is the
// returned size. Refused with 01h, out unchanged: a size below 26, or too little room for the returned size. Bytes
// past the returned size stay.
pub fn write_result(d: Drive, p: Pointer, asked: u16, out: &mut [u8]) -> Result<u16, BadParameter>
    ensures { (result ≡ result_answer d asked (length out.old)) × (out.new ≡ result_out d p asked out.old) × (result_numbers result ≡ size_given d asked (length out.old)) }
{
    if asked < LEAST_SIZE {
        return Err(BadParameter);
    }
    let n = returned_size(d, asked);
    let size = n as usize;
    if out.len() < size {
        return Err(BadParameter);
    }
    let r = whole_of(d, p, n);
    words::store(out, 0, &r[..size]);
    Ok(n)
}

// ---- the device parameter table

// Bytes of the table, with the checksum last.
pub const PARAMETER_SIZE: usize = 16;

// Extension revision 1.1.
const REVISION: u8 = 0x11;

// Bits 7 and 5 set, the others as given.
fn drive_flags(x: u8) -> u8
    ensures { result ≡ drive_flags x }
{
    x % 32 + 32 + x / 64 % 2 * 64 + 128
}

// All sixteen bytes, of the fourteen that a drive's record gives.
#[tactic(auto, using(crate::proofs::ParameterTableLaws::table_stores))]
pub fn parameter_table(p: [u8; 14]) -> [u8; 16]
    ensures { result ≡ parameter_table p }
{
    let mut r = [0u8; 16];
    words::store(&mut r, 0, &p);
    words::put_byte(&mut r, 4, drive_flags(p[4]));
    words::put_byte(&mut r, 14, REVISION);
    let byte = checksum_of(&r[..15]);
    words::put_byte(&mut r, 15, byte);
    r
}
