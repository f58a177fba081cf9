// Addresses by cylinder, head and sector: to block numbers, back, and in the registers CX and DX.
// Every answer is given for all input: what is outside the geometry or the table's limits is refused by its BIOS code.
#![tactic(auto)]

ghost use Rattle.std.specs.Prelude.{◌≡◌, true};
ghost use Rattle.chs.specs.Chs.{unpack, address_in, is_valid, number, size, split, in_limits, block_of, address_of, block_numbers, address_numbers, block_given, address_given, pack};

use logic::{and, in_range};

// AH 04h: blocks outside the drive or geometry.
pub const OUTSIDE: u8 = 0x04;

// The table's limits of C, H and S, each from 1.
const MOST_CYLINDERS: u64 = 1024;

const MOST_HEADS: u64 = 255;

const MOST_SECTORS: u64 = 63;

// C, H and S.
#[derive(Clone, Copy, PartialEq, Eq)]
pub struct Geometry {
    pub c: u32,
    pub h: u32,
    pub s: u32,
}

// Cylinder and head count from 0, sector from 1.
#[derive(Clone, Copy, PartialEq, Eq)]
pub struct Address {
    pub cylinder: u32,
    pub head: u32,
    pub sector: u32,
}

// What CX says.
#[derive(Clone, Copy, PartialEq, Eq)]
pub struct CylinderSector {
    pub cylinder: u16,
    pub sector: u16,
}

// Why there is no block or no address: the geometry is outside the limits, or what is asked for outside the geometry.
#[derive(Clone, Copy, PartialEq, Eq, Debug)]
pub struct Outside;

// ---- geometry

// Whether C, H and S are within the table's limits.
#[tactic(auto, unfolding(crate::specs::Chs::in_limits))]
pub fn in_limits(g: Geometry) -> bool
    ensures { result ≡ in_limits g }
{
    and(
        in_range(g.c as u64, 1, MOST_CYLINDERS),
        and(
            in_range(g.h as u64, 1, MOST_HEADS),
            in_range(g.s as u64, 1, MOST_SECTORS),
        ),
    )
}

// How many blocks the geometry has. Asks for the limits, without which the product need not fit in 32 bits.
#[tactic(auto, using(crate::proofs::ChsLaws::tracks_high, crate::proofs::ChsLaws::size_high))]
fn size_of(g: Geometry) -> u32
    requires { in_limits g ≡ true }
    ensures { result ≡ size g }
{
    g.c * g.h * g.s
}

// ---- from an address to its block

#[tactic(auto, unfolding(crate::specs::Chs::is_valid))]
fn is_valid(g: Geometry, a: Address) -> bool
    ensures { result ≡ is_valid g a }
{
    and(
        a.cylinder < g.c,
        and(a.head < g.h, in_range(a.sector as u64, 1, g.s as u64)),
    )
}

#[tactic(auto, using(crate::proofs::ChsLaws::track_fits, crate::proofs::ChsLaws::number_fits, crate::proofs::ChsLaws::sector_least))]
fn number(g: Geometry, a: Address) -> u32
    requires { (in_limits g ≡ true) × (is_valid g a ≡ true) }
    ensures { result ≡ number g a }
{
    (a.cylinder * g.h + a.head) * g.s + a.sector - 1
}

// The block of an address. Refused: a geometry outside the limits, first, or an address that is not valid in it.
#[tactic(auto, unfolding(crate::specs::Chs::block_of, crate::specs::Chs::block_numbers, crate::specs::Chs::block_given))]
pub fn block_of(g: Geometry, a: Address) -> Result<u32, Outside>
    ensures { (result ≡ block_of g a) × (block_numbers result ≡ block_given g a) }
{
    if !in_limits(g) {
        return Err(Outside);
    }
    if !is_valid(g, a) {
        return Err(Outside);
    }
    Ok(number(g, a))
}

// ---- from a block to its address

// Numbers of 32 bits are divided, and nothing wider (2026-05).
#[tactic(auto, using(crate::proofs::ChsLaws::heads_pos, crate::proofs::ChsLaws::sectors_pos, crate::proofs::ChsLaws::sector_most))]
fn split(g: Geometry, n: u32) -> Address
    requires { in_limits g ≡ true }
    ensures { result ≡ split g n }
{
    Address {
        cylinder: n / g.s / g.h,
        head: n / g.s % g.h,
        sector: n % g.s + 1,
    }
}

// The one valid address of a block. Refused: a geometry outside the limits, first, or a block at or past its end.
// The block is compared in 64 bits and divided in 32, so that block 2^32 is refused and not taken for block 0.
#[tactic(auto, unfolding(crate::specs::Chs::address_of, crate::specs::Chs::address_numbers, crate::specs::Chs::address_given))]
pub fn address_of(g: Geometry, n: u64) -> Result<Address, Outside>
    ensures { (result ≡ address_of g n) × (address_numbers result ≡ address_given g n) }
{
    if !in_limits(g) {
        return Err(Outside);
    }
    if n < size_of(g) as u64 {
        Ok(split(g, n as u32))
    } else {
        Err(Outside)
    }
}

// ---- the registers of 02h, 03h and 08h

// CX for a cylinder and a sector. CH has the cylinder's low 8 bits, CL its bits 8 and 9 above the sector's
// six; bits that have no room are dropped.
pub fn pack(cylinder: u16, sector: u16) -> u16
    ensures { result ≡ pack cylinder sector }
{
    256 * (cylinder % 256) + (64 * (cylinder / 256 % 4) + sector % 64)
}

// The cylinder and the sector that CX says.
pub fn unpack(cx: u16) -> CylinderSector
    ensures { result ≡ unpack cx }
{
    CylinderSector {
        cylinder: cx / 256 + 256 * (cx % 256 / 64),
        sector: cx % 64,
    }
}

// The address that CX and DX say, whether or not it is valid.
pub fn address_in(cx: u16, dx: u16) -> Address
    ensures { result ≡ address_in cx dx }
{
    let said = unpack(cx);
    Address {
        cylinder: said.cylinder as u32,
        head: (dx / 256) as u32,
        sector: said.sector as u32,
    }
}
