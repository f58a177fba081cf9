// INT 13h: registers, requests, and the steps of each function, over one drive and one guest's window.
// A step function is handed the drive that DL names, if it names one. Where the guest can see the drive's parameter
// table it is told the segment of that table (`shown`); where bad blocks count it is handed those of the drive
// (`bads`).
#![tactic(auto)]

ghost use Rattle.std.specs.Prelude.{◌≡◌, true, ◌+◌, ◌-◌, ◌*◌, ◌/◌, ◌%◌, ◌≤◌, ◌<◌, length, replicate, ltb, eqb, Ok, is_some};
ghost use Rattle.std.proofs.lemmas.List.Edits.{sets};
ghost use Rattle.logic.specs.Logic.{pick, either};
ghost use Rattle.table.specs.Table.{parameters_to};
ghost use Rattle.int13.specs.Answers.{ah, al, dl, is_sectors, is_write, answer, succeed, stop, refuse, withdraw, bad_code, ended, posted, outcome_numbers};
ghost use Rattle.int13.specs.Placement.{tables_of, table_count, pointer_of};
ghost use Rattle.int13.specs.Steps.{named, drive_count, is_drive, drive_at, drive_in, bads_of, shown_of, fed, packet_place, verify_ok, packet_job, verified, packet_tests, packet_read, packet_plan, extended, seek_read, seek, sector_buffer, sector_job, sector_run, sectors, geometry_given, parameters, extensions_given, extensions, result_given, result_into, steps, begin};
ghost use Rattle.int13.specs.Numbers.{steps_given, begin_given};

use attached::Bads;
use drive::Drive;
use layout::{BadParameter, Packet, Pointer};
use table::Table;

// The registers of a call.
#[derive(Clone, Copy)]
pub struct Registers {
    pub ax: u16,
    pub bx: u16,
    pub cx: u16,
    pub dx: u16,
    pub ds: u16,
    pub si: u16,
    pub es: u16,
    pub carry: bool,
}

// What a request asks, which never changes while it waits. Its function is AH of the registers.
#[derive(Clone, Copy)]
pub struct Job {
    // as posted, carry clear
    pub registers: Registers,
    // the BIOS number, 80h upward
    pub drive: u8,
    // first block of the drive, and how many
    pub start: u64,
    pub count: u64,
    // places in the guest's window; packet is 0 for 02h and 03h, which have none
    pub buffer: u64,
    pub packet: u64,
}

// Where a guest's device parameter tables stand in its window, if the host has placed them: address 0 is a place. Without placement it is 0.
// Stays: a mark beside the address and no Option, since desk::accept answers on an unplaced address other than 0.
#[derive(Clone, Copy)]
pub struct Placement {
    pub placed: bool,
    pub address: u64,
}

// A call is answered at once, or it waits.
// Stays: neither case is an error, so that a Result would say less.
#[derive(Clone, Copy)]
pub enum Outcome {
    Answered(Registers),
    Waits(Job),
}

// What 42h, 43h and 44h do: refuse; refuse and set the packet's count word, to 0 but for a bad block; succeed at once; wait.
#[derive(Clone, Copy)]
pub enum Plan {
    Refuse(u8),
    Clear(u8, u16),
    Finish,
    Wait(Job),
}

// ---- document 01, "Numbers given back": the codes in AH

// Stays: codes and functions are numbers, since the public refuse, stop, is_sectors and is_write take any byte of AH.

const BAD_PARAMETER: u8 = layout::BAD_PARAMETER;

const WRITE_PROTECTED: u8 = 0x03;

const OUTSIDE: u8 = chs::OUTSIDE;

const NO_PARAMETERS: u8 = 0x07;

const BAD_BUFFER: u8 = 0x09;

const WITHDRAWN: u8 = 0x80;

// A bad block, of a read or of 44h, and of a write (document 02, 2026-04).
const BAD_READ: u8 = 0x10;

const BAD_WRITE: u8 = 0xCC;

// ---- the functions, by AH

const READ_SECTORS: u8 = 0x02;

const WRITE_SECTORS: u8 = 0x03;

const GET_PARAMETERS: u8 = 0x08;

const CHECK_EXTENSIONS: u8 = 0x41;

const EXTENDED_READ: u8 = 0x42;

const EXTENDED_WRITE: u8 = 0x43;

const EXTENDED_VERIFY: u8 = 0x44;

const EXTENDED_SEEK: u8 = 0x47;

const GET_RESULT: u8 = 0x48;

// 02h and 03h, which say a run of sectors in AL.
pub fn is_sectors(f: u8) -> bool
    ensures { result ≡ is_sectors f }
{
    matches!(f, READ_SECTORS | WRITE_SECTORS)
}

// 03h and 43h, which write the drive.
pub fn is_write(f: u8) -> bool
    ensures { result ≡ is_write f }
{
    matches!(f, WRITE_SECTORS | EXTENDED_WRITE)
}

// ---- halves of the registers

// AH.
pub fn function_of(r: Registers) -> u8
    ensures { result ≡ ah r }
{
    (r.ax / 256) as u8
}

fn al(r: Registers) -> u8
    ensures { result ≡ al r }
{
    (r.ax % 256) as u8
}

pub fn dl(r: Registers) -> u8
    ensures { result ≡ dl r }
{
    (r.dx % 256) as u8
}

// ---- answers

// Sets carry, AH and AL; the other registers stay as given. Every answer goes through it but the successes of 08h and 41h, which set
// further registers.
fn answer(carry: bool, code: u8, low: u8, r: Registers) -> Registers
    ensures { result ≡ answer carry code low r }
{
    Registers {
        ax: 256 * (code as u16) + low as u16,
        carry,
        ..r
    }
}

// Carry clear and AH = 0.
pub fn succeed(r: Registers) -> Registers
    ensures { result ≡ succeed r }
{
    answer(false, 0, al(r), r)
}

// Carry and a code, after some blocks: AL gives them for 02h and 03h, and stays for the others.
pub fn stop(code: u8, moved: u8, r: Registers) -> Registers
    ensures { result ≡ stop code moved r }
{
    if is_sectors(function_of(r)) {
        return answer(true, code, moved, r);
    }
    answer(true, code, al(r), r)
}

// A refusal, which moved no block.
pub fn refuse(code: u8, r: Registers) -> Registers
    ensures { result ≡ refuse code r }
{
    stop(code, 0, r)
}

// A request withdrawn after some blocks.
pub fn withdraw(moved: u8, r: Registers) -> Registers
    ensures { result ≡ withdraw moved r }
{
    stop(WITHDRAWN, moved, r)
}

fn bad_code(r: Registers) -> u8
    ensures { result ≡ bad_code r }
{
    if is_write(function_of(r)) {
        return BAD_WRITE;
    }
    BAD_READ
}

// A request of n blocks that ends after some of them: all, and it succeeds, or those before a bad block. A request moves no more than a byte counts.
#[tactic(auto, unfolding(crate::specs::Answers::ended))]
pub fn ended(n: u64, moved: u64, r: Registers) -> Registers
    requires { moved < 256 }
    ensures { result ≡ ended n moved r }
{
    if moved < n {
        return stop(bad_code(r), moved as u8, r);
    }
    succeed(r)
}

// The registers that a waiting row keeps: carry clear.
fn posted(r: Registers) -> Registers
    ensures { result ≡ posted r }
{
    Registers { carry: false, ..r }
}

// ---- drives and ranges

// The number of drive 0.
pub const FIRST_DRIVE: u8 = 0x80;

fn drive_count(b: Table) -> u8
    ensures { (result ≡ drive_count b) × (result ≤ 8) }
{
    table::drive_count(b) as u8
}

// Whether the table has a drive of that number. DL below 80h is never one.
#[tactic(auto, unfolding(crate::specs::Steps::is_drive))]
pub fn is_drive(b: Table, n: u8) -> bool
    ensures { result ≡ is_drive b n }
{
    let end = FIRST_DRIVE + drive_count(b);
    FIRST_DRIVE <= n && n < end
}

// The drive in the place of a number, which is the drive of that number where there is one: 80h is a multiple of eight.
pub fn drive_at(b: Table, n: u8) -> Drive
    ensures { (result ≡ drive_in b n) × (is_drive b n ≡ true → result ≡ drive_at b n) }
{
    // an index into the table would copy all of it
    let drives = b.drives;
    drives[(n % 8) as usize]
}

// The drive of a number, where it is one.
fn drive_of(b: Table, n: u8) -> Option<Drive>
    ensures { (is_some result ≡ is_drive b n) × (is_drive b n ≡ true → named result ≡ drive_at b n) }
{
    if is_drive(b, n) {
        return Some(drive_at(b, n));
    }
    None
}

// The bad blocks of the drive of a number; a number that is no drive's has none.
#[tactic(auto, unfolding(crate::specs::Steps::bads_of))]
pub fn bads_of(b: Table, n: u8) -> Bads
    ensures { result ≡ bads_of b n }
{
    if !is_drive(b, n) {
        return attached::no_bads();
    }
    table::bads_at(b, (n - FIRST_DRIVE) as usize)
}

// ---- the device parameter tables in a guest's window

// Bytes of a table.
const PARAMETER_SIZE: usize = layout::PARAMETER_SIZE;

// How many of the first n slots have a table. Its callers ask for at most eight.
fn tables_before(b: Table, n: usize) -> u8
    requires { n ≤ 8 }
    ensures { (result ≡ parameters_to n b) × (result ≤ n) }
{
    // a reference into the table would copy all of it
    let marks = b.present;
    marks[..n].iter().filter(|present| **present).count() as u8
}

// How many tables there are.
pub fn table_count(b: Table) -> u8
    ensures { (result ≡ table_count b) × (result ≤ 8) }
{
    tables_before(b, 8)
}

// The segment of a drive's table, for a guest whose tables stand from an address on, where so many stand before it.
pub fn shown_at(address: u64, before: u8) -> u16
    ensures { result ≡ (address + 16 * before) / 16 % 65536 }
{
    ((address / 16 + before as u64) % 65536) as u16
}

// The segment of the table of the drive of a number, if a guest with that placement is shown one.
#[tactic(auto, unfolding(crate::specs::Steps::shown_of))]
pub fn shown_of(b: Table, placement: Placement, n: u8) -> Option<u16>
    ensures { result ≡ shown_of b placement n }
{
    if !is_drive(b, n) {
        return None;
    }
    let slot = n - FIRST_DRIVE;
    let i = slot as usize;
    let present = b.present;
    if !(placement.placed && present[i]) {
        return None;
    }
    let before = tables_before(b, i);
    Some(shown_at(placement.address, before))
}

// All tables, one after another in drive order, and zeros behind them.
// Stays: the bytes come in an array of the most that there can be, since there is no heap; table_count counts the
// tables.
pub fn tables_of(b: Table) -> [u8; 128]
    ensures { (result ≡ sets (replicate 128 0) 0 (tables_of b)) × (length (tables_of b) ≡ 16 * table_count b) }
{
    // an index into the table would copy all of it
    let marks = b.present;
    let mut out = [0u8; 128];
    let mut at: usize = 0;
    for i in 0..8 {
        if marks[i] {
            let r = layout::parameter_table(table::parameters_at(b, i));
            words::store(&mut out, at, &r);
            at += PARAMETER_SIZE;
        }
    }
    out
}

// ---- ranges

// start + count is above the end, a sum that does not wrap: a guest's start may be any 64-bit number.
fn ends_past(end: u64, start: u64, count: u64) -> bool
    ensures { result ≡ ltb end (start + count) }
{
    !logic::ends_by(start, count, end)
}

// Bytes of a block.
const BLOCK_LENGTH: u64 = memory::BLOCK_LENGTH as u64;

// ---- 02h, 03h: read and write sectors

// The most sectors of one call.
pub const MOST_RUN: u8 = 128;

// The buffer stands at ES:BX.
fn sector_buffer(r: Registers) -> u64
    ensures { result ≡ sector_buffer r }
{
    layout::linear(r.es, r.bx) as u64
}

fn sector_job(r: Registers, start: u32) -> Job
    ensures { result ≡ sector_job r start }
{
    Job {
        registers: posted(r),
        drive: dl(r),
        start: start as u64,
        count: al(r) as u64,
        buffer: sector_buffer(r),
        packet: 0,
    }
}

// The run of AL blocks from a block of the geometry.
fn sector_run(d: Drive, r: Registers, window: usize, start: u32) -> Outcome
    ensures { result ≡ sector_run d r window (Ok start) }
{
    let count = al(r) as u64;
    let end = drive::geometry_size(d);
    if ends_past(end, start as u64, count) {
        return Outcome::Answered(refuse(OUTSIDE, r));
    }
    if ends_past(window as u64, sector_buffer(r), BLOCK_LENGTH * count) {
        return Outcome::Answered(refuse(BAD_BUFFER, r));
    }
    Outcome::Waits(sector_job(r, start))
}

#[tactic(auto, unfolding(crate::specs::Steps::sectors))]
fn sectors_02_03(drive: Option<Drive>, r: Registers, window: usize) -> Outcome
    ensures { result ≡ sectors (is_some drive) (named drive) r window }
{
    let Some(d) = drive else {
        return Outcome::Answered(refuse(BAD_PARAMETER, r));
    };
    let count = al(r);
    if count == 0 {
        return Outcome::Answered(refuse(BAD_PARAMETER, r));
    }
    if MOST_RUN < count {
        return Outcome::Answered(refuse(BAD_BUFFER, r));
    }
    if is_write(function_of(r)) && drive::is_protected(d) {
        return Outcome::Answered(refuse(WRITE_PROTECTED, r));
    }
    let block = chs::block_of(drive::geometry_of(d), chs::address_in(r.cx, r.dx));
    match block {
        Err(_) => Outcome::Answered(refuse(OUTSIDE, r)),
        Ok(start) => sector_run(d, r, window, start),
    }
}

// ---- 08h: get drive parameters

// CH and CL hold C - 1 and S; DH = H - 1; DL = the number of drives.
fn geometry_given(d: Drive, n: u8, r: Registers) -> Registers
    ensures { result ≡ geometry_given d n r }
{
    Registers {
        ax: 0,
        cx: chs::pack(d.c.saturating_sub(1), d.s as u16),
        dx: 256 * (d.h.saturating_sub(1) % 256) + n as u16,
        carry: false,
        ..r
    }
}

#[tactic(auto, unfolding(crate::specs::Steps::parameters))]
fn parameters_08(drive: Option<Drive>, count: u8, r: Registers) -> Outcome
    ensures { result ≡ parameters (is_some drive) count (named drive) r }
{
    let Some(d) = drive else {
        return Outcome::Answered(refuse(NO_PARAMETERS, r));
    };
    Outcome::Answered(geometry_given(d, count, r))
}

// ---- 41h: check extensions present

// What BX asks and answers.
const ASKED: u16 = 0x55AA;

const PRESENT: u16 = 0xAA55;

// AH = 30h, AL = 0; CX bit 0: the device access functions; bit 2 with it: the parameter table is there.
const VERSION: u16 = 0x3000;

const ACCESS: u16 = 0x0001;

const ACCESS_AND_TABLE: u16 = 0x0005;

fn support(table: bool) -> u16
    ensures { result ≡ pick table 0x0005 0x0001 }
{
    if table { ACCESS_AND_TABLE } else { ACCESS }
}

fn extensions_given(shown: Option<u16>, r: Registers) -> Registers
    ensures { result ≡ extensions_given shown r }
{
    Registers {
        ax: VERSION,
        bx: PRESENT,
        cx: support(shown.is_some()),
        carry: false,
        ..r
    }
}

#[tactic(auto, unfolding(crate::specs::Steps::extensions))]
fn extensions_41(known: bool, shown: Option<u16>, r: Registers) -> Outcome
    ensures { result ≡ extensions known shown r }
{
    if known && r.bx == ASKED {
        return Outcome::Answered(extensions_given(shown, r));
    }
    Outcome::Answered(refuse(BAD_PARAMETER, r))
}

// ---- 42h, 43h, 44h: extended read, write and verify

// The most blocks of one packet.
pub const MOST_BLOCKS: u16 = 127;

// The least size byte of a packet.
const PACKET_LENGTH: u8 = layout::PACKET_LENGTH as u8;

// The packet, and the result of 48h, stand at DS:SI.
fn packet_place(r: Registers) -> usize
    ensures { result ≡ packet_place r }
{
    layout::linear(r.ds, r.si) as usize
}

// AL of 43h: 0 and 1, or 2 where information flag bit 3 is set.
#[tactic(auto, unfolding(crate::specs::Steps::verify_ok))]
fn verify_ok(low: u8, flags: u16) -> bool
    ensures { result ≡ verify_ok low flags }
{
    low < 2 || (low == 2 && flags / 8 % 2 == 1)
}

fn packet_job(r: Registers, p: Packet) -> Job
    ensures { result ≡ packet_job r p }
{
    Job {
        registers: posted(r),
        drive: dl(r),
        start: p.start,
        count: p.count as u64,
        buffer: p.buffer as u64,
        packet: packet_place(r) as u64,
    }
}

// What 44h does, of whose blocks so many come before the first bad one.
#[tactic(auto, unfolding(crate::specs::Steps::verified))]
fn verified(good: u64, count: u16) -> Plan
    ensures { result ≡ verified good count }
{
    if good < count as u64 {
        return Plan::Clear(BAD_READ, good as u16);
    }
    Plan::Finish
}

// The tests of a packet whose size byte is good: from here a refusal sets the count word.
#[tactic(auto, unfolding(crate::specs::Steps::packet_tests))]
fn packet_tests(d: Drive, bads: Bads, r: Registers, window: usize, p: Packet) -> Plan
    ensures { result ≡ packet_tests d bads r window p }
{
    if MOST_BLOCKS < p.count {
        return Plan::Clear(BAD_PARAMETER, 0);
    }
    let f = function_of(r);
    if is_write(f) && drive::is_protected(d) {
        return Plan::Clear(WRITE_PROTECTED, 0);
    }
    let count = p.count as u64;
    if ends_past(d.blocks, p.start, count) {
        return Plan::Clear(OUTSIDE, 0);
    }
    if f == EXTENDED_VERIFY {
        return verified(attached::good(bads, p.start, count), p.count);
    }
    if ends_past(window as u64, p.buffer as u64, BLOCK_LENGTH * count) {
        return Plan::Clear(BAD_BUFFER, 0);
    }
    if p.count == 0 {
        return Plan::Finish;
    }
    Plan::Wait(packet_job(r, p))
}

fn packet_read(
    d: Drive,
    bads: Bads,
    r: Registers,
    window: usize,
    read: Result<Packet, BadParameter>,
) -> Plan
    ensures { result ≡ packet_read d bads r window read }
{
    match read {
        Err(_) => Plan::Refuse(BAD_PARAMETER),
        Ok(p) => {
            if p.size < PACKET_LENGTH {
                return Plan::Refuse(BAD_PARAMETER);
            }
            packet_tests(d, bads, r, window, p)
        }
    }
}

// All tests in the paper's order; the packet is read once, here.
#[tactic(auto, unfolding(crate::specs::Steps::packet_plan))]
fn packet_plan(drive: Option<Drive>, bads: Bads, r: Registers, window: &[u8]) -> Plan
    ensures { result ≡ packet_plan (is_some drive) (named drive) bads r window.now }
{
    let Some(d) = drive else {
        return Plan::Refuse(BAD_PARAMETER);
    };
    if is_write(function_of(r)) && !verify_ok(al(r), d.flags) {
        return Plan::Refuse(BAD_PARAMETER);
    }
    let read = layout::read_packet(window, packet_place(r));
    packet_read(d, bads, r, window.len(), read)
}

fn extended_42_43_44(drive: Option<Drive>, bads: Bads, r: Registers, window: &mut [u8]) -> Outcome
    ensures { (result ≡ (extended (is_some drive) (named drive) bads r window.old).outcome) × (window.new ≡ (extended (is_some drive) (named drive) bads r window.old).window) }
{
    let plan = packet_plan(drive, bads, r, window);
    match plan {
        Plan::Refuse(code) => Outcome::Answered(refuse(code, r)),
        Plan::Clear(code, n) => {
            words::put(window, packet_place(r) + 2, n);
            Outcome::Answered(refuse(code, r))
        }
        Plan::Finish => Outcome::Answered(succeed(r)),
        Plan::Wait(job) => Outcome::Waits(job),
    }
}

// ---- 47h: extended seek

fn seek_read(d: Drive, r: Registers, read: Result<Packet, BadParameter>) -> Outcome
    ensures { result ≡ seek_read d r read }
{
    match read {
        Err(_) => Outcome::Answered(refuse(BAD_PARAMETER, r)),
        Ok(p) => {
            if p.size < PACKET_LENGTH {
                return Outcome::Answered(refuse(BAD_PARAMETER, r));
            }
            if d.blocks <= p.start {
                return Outcome::Answered(refuse(OUTSIDE, r));
            }
            Outcome::Answered(succeed(r))
        }
    }
}

#[tactic(auto, unfolding(crate::specs::Steps::seek))]
fn seek_47(drive: Option<Drive>, r: Registers, window: &[u8]) -> Outcome
    ensures { result ≡ seek (is_some drive) (named drive) r window.now }
{
    let Some(d) = drive else {
        return Outcome::Answered(refuse(BAD_PARAMETER, r));
    };
    let read = layout::read_packet(window, packet_place(r));
    seek_read(d, r, read)
}

// ---- 48h: get drive parameters, the result buffer

fn result_given(given: Result<u16, BadParameter>, r: Registers) -> Outcome
    ensures { result ≡ result_given given r }
{
    match given {
        Err(_) => Outcome::Answered(refuse(BAD_PARAMETER, r)),
        Ok(_size) => Outcome::Answered(succeed(r)),
    }
}

// FFFFh, twice: no pointer.
const NO_POINTER: u16 = 0xFFFF;

// The pointer of a result: offset 0 and the table's segment, or none.
fn pointer_of(shown: Option<u16>) -> Pointer
    ensures { result ≡ pointer_of shown }
{
    match shown {
        Some(segment) => Pointer { offset: 0, segment },
        None => Pointer {
            offset: NO_POINTER,
            segment: NO_POINTER,
        },
    }
}

#[tactic(auto, unfolding(crate::specs::Steps::result_into))]
fn result_48(drive: Option<Drive>, shown: Option<u16>, r: Registers, window: &mut [u8]) -> Outcome
    ensures { (result ≡ (result_into (is_some drive) (named drive) shown r window.old).outcome) × (window.new ≡ (result_into (is_some drive) (named drive) shown r window.old).window) }
{
    let Some(d) = drive else {
        return Outcome::Answered(refuse(BAD_PARAMETER, r));
    };
    let place = packet_place(r);
    if window.len() < place + 2 {
        return Outcome::Answered(refuse(BAD_PARAMETER, r));
    }
    let asked = words::get(window, place);
    let given = layout::write_result(d, pointer_of(shown), asked, &mut window[place..]);
    result_given(given, r)
}

// ---- every function by AH

// What a call comes to, for any drive, registers and window: answered at once, or it waits. `drive`: the drive that DL
// names, if the table has it; `count`: how many drives there are; `bads`: its bad blocks; `shown`: the segment of its
// parameter table, if the guest is shown one. The window is written by 48h and by a refused 42h, 43h or 44h only. A
// function that is not named here is refused with 01h.
pub fn steps(
    drive: Option<Drive>,
    count: u8,
    bads: Bads,
    shown: Option<u16>,
    r: Registers,
    window: &mut [u8],
) -> Outcome
    ensures { (result ≡ (steps (is_some drive) count (named drive) bads shown r window.old).outcome) × (window.new ≡ (steps (is_some drive) count (named drive) bads shown r window.old).window) × (outcome_numbers result ≡ steps_given (is_some drive) count (named drive) bads (is_some shown) r window.old) }
{
    match function_of(r) {
        READ_SECTORS | WRITE_SECTORS => sectors_02_03(drive, r, window.len()),
        GET_PARAMETERS => parameters_08(drive, count, r),
        CHECK_EXTENSIONS => extensions_41(drive.is_some(), shown, r),
        EXTENDED_READ | EXTENDED_WRITE | EXTENDED_VERIFY => extended_42_43_44(
            drive, bads, r, window,
        ),
        EXTENDED_SEEK => seek_47(drive, r, window),
        GET_RESULT => result_48(drive, shown, r, window),
        _ => Outcome::Answered(refuse(BAD_PARAMETER, r)),
    }
}

// A call begun at a whole table, by a guest with that placement: the steps over the drive that DL names, with what they write.
pub fn begin(b: Table, placement: Placement, r: Registers, window: &mut [u8]) -> Outcome
    ensures { (result ≡ (begin (fed b placement) r window.old).outcome) × (window.new ≡ (begin (fed b placement) r window.old).window) × (outcome_numbers result ≡ begin_given b placement.placed r window.old) }
{
    let n = dl(r);
    let drive = drive_of(b, n);
    let bads = bads_of(b, n);
    let shown = shown_of(b, placement, n);
    steps(drive, drive_count(b), bads, shown, r, window)
}
