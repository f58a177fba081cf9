// The desk block: a desk laid out in bytes that the host owns. A call judges the block on its words, reads the row or the drive that it
// needs, and writes the words that it changed; no desk is made of it.
// Stays: what reads a field of the block (`next_of`, `is_drive`, `tables_before`, `put_records` and others) has a
// like over the Desk or Table value in `desk`, `int13` or `table`, and the two share their promise. To make a table
// of the block cost half of a write (docs/DECISIONS.md).
// Stays: `logic::and` in place of `&&` looks at both sides, so that the tests of a block have no branch
// (docs/PERFORMANCE.md).
#![tactic(auto)]

ghost use Rattle.std.specs.Prelude.{ℕ, ◌≡◌, ◌+◌, ◌*◌, ◌≤◌, ◌<◌, Bool, true, is_some, List, [], ◌∷◌, length, get_or, ltb, ◌++◌, eqb, refl};
ghost use Rattle.std.proofs.lemmas.List.Edits.{sets};
ghost use Rattle.logic.specs.Logic.{pick, both, either, all_below};
ghost use Rattle.words.specs.Words.{part};
ghost use Rattle.drive.specs.Drive.{drive_length};
ghost use Rattle.attached.specs.Parameters.{given_length};
ghost use Rattle.attached.specs.Bad.{most_bad, list_length};
ghost use Rattle.table.specs.Table.{most_drives, attached_at, attached_to, bads_at, listed_at, listed_to, parameters_to, records_of, write_answer, write_out};
ghost use Rattle.desk.specs.declared.Stage.TheVariants.{Vacant, Waiting, Finished};
ghost use Rattle.desk.specs.Parts.{stage_at, is_waiting, placement_at};
ghost use Rattle.desk.specs.Acceptable.{placements_ok};
ghost use Rattle.desk.specs.Calls.{first_waiting};
ghost use Rattle.memory.specs.Window.{guests};
ghost use Rattle.int13.specs.Placement.{table_count};
ghost use Rattle.int13.specs.Steps.{first_drive, drive_count, is_drive, drive_at, named, bads_of, shown_of};
ghost use Rattle.image.specs.Image.{row_size, slot_size, slot_at, desk_size, each, flat, stage_words, row_words, drive_words, image, registers_at, request_at, read_stage, read_drive, read_slots, read_marks, read_counts, read_desk, accepted, laid, put_stage, put_pointer, mark_at, present_at, bytes_at, bads_count_at, bads_list_at, marks_words, places_words, given_words, parameters_words, list_words, bads_words, put_placement};
ghost use Rattle.image.specs.Judged.{below, are_registers, is_request, is_slot, drive_good, drives_good, rest_zero, first_in, blocks_in, apart, alone_to, drives_apart, follows, ascending, waiting_good, finished_good, row_good, rows_good, table_good, zero_bytes, parameters_good, places_good, bads_good, more_good};

use attached::Bads;
use desk::{Desk, Request, Row, Stage};
use drive::Drive;
use int13::{Job, Placement, Registers};
use std::array;
use table::{ShortBuffer, Table};

// Rows of a desk and slots of a table.
// Stays: a guest and a slot are numbers, which the C interface and the loops bring; clauses say where they are below these.
const GUESTS: usize = memory::GUESTS;

const MOST_DRIVES: usize = table::MOST_DRIVES;

// Bytes of a row, of 23 words, and of a slot of the table, of 16; where the slots and the last words stand.
const ROW: usize = 8 * 23;

const SLOT: usize = 8 * 16;

const SLOTS: usize = ROW * GUESTS;

const TAIL: usize = SLOTS + SLOT * MOST_DRIVES;

// The last words: the number of drives, the turn pointer, the lengths of the opening.
const COUNT: usize = TAIL;

const POINTER: usize = TAIL + 8;

const ARENA: usize = TAIL + 16;

const STORE: usize = TAIL + 24;

// Behind them, eight words each: the guests' marks of placement, their addresses, the slots' marks of parameters; then the slots' bytes.
const MARKS: usize = TAIL + 32;

const ADDRESSES: usize = MARKS + 8 * GUESTS;

const PRESENT: usize = ADDRESSES + 8 * GUESTS;

const BYTES: usize = PRESENT + 8 * MOST_DRIVES;

// Bytes of the parameters of all slots.
const GIVEN: usize = attached::GIVEN_LENGTH * MOST_DRIVES;

// Behind those, eight words: how many bad blocks each slot has; then the slots' sixteen numbers each.
const BAD_COUNTS: usize = BYTES + GIVEN;

const BAD_LISTS: usize = BAD_COUNTS + 8 * MOST_DRIVES;

// Bytes of a block.
pub const SIZE: usize = BAD_LISTS + attached::LIST_LENGTH * MOST_DRIVES;

// Words of the placements and of the parameters.
const PLACE_WORDS: usize = (PRESENT - MARKS) / 8;

const PARAMETER_WORDS: usize = (BAD_COUNTS - PRESENT) / 8;

// The BIOS number of the first drive; bytes of a block of the store.
const FIRST_DRIVE: u8 = int13::FIRST_DRIVE;

const BLOCK_LENGTH: u64 = memory::BLOCK_LENGTH as u64;

// ---- what bytes say. Every place is inside a block of the right size, which `acceptable` has tested.

fn registers_at(b: &[u8], i: usize) -> Registers
    requires { i + 8 * 8 ≤ length b.now }
    ensures { result ≡ registers_at b.now i }
{
    Registers {
        ax: words::get(b, i),
        bx: words::get(b, i + 8),
        cx: words::get(b, i + 16),
        dx: words::get(b, i + 24),
        ds: words::get(b, i + 32),
        si: words::get(b, i + 40),
        es: words::get(b, i + 48),
        carry: b[i + 56] == 1,
    }
}

fn request_at(b: &[u8], i: usize) -> Request
    requires { i + 8 * 14 ≤ length b.now }
    ensures { result ≡ request_at b.now i }
{
    Request {
        job: Job {
            registers: registers_at(b, i),
            drive: b[i + 64],
            start: words::get(b, i + 72),
            count: words::get(b, i + 80),
            buffer: words::get(b, i + 88),
            packet: words::get(b, i + 96),
        },
        moved: words::get(b, i + 104),
    }
}

#[tactic(auto, unfolding(crate::specs::Image::read_stage))]
fn stage_at(b: &[u8], i: usize) -> Stage
    requires { i + row_size ≤ length b.now }
    ensures { result ≡ read_stage b.now i }
{
    match b[i] {
        1 => Stage::Waiting(request_at(b, i + 8)),
        2 => Stage::Finished(registers_at(b, i + 120)),
        _ => Stage::Vacant,
    }
}

#[tactic(auto, unfolding(crate::specs::Image::read_drive))]
fn drive_at(b: &[u8], i: usize) -> Drive
    requires { i + slot_size ≤ length b.now }
    ensures { result ≡ read_drive b.now i }
{
    Drive {
        cylinders: words::get(b, i),
        heads: words::get(b, i + 8),
        sectors: words::get(b, i + 16),
        blocks: words::get(b, i + 24),
        first: words::get(b, i + 32),
        flags: words::get(b, i + 40),
        c: words::get(b, i + 48),
        h: words::get(b, i + 56),
        s: b[i + 64],
        protection: b[i + 72],
        bus: words::load(b, i + 80),
        interface: words::load(b, i + 88),
        path: words::load(b, i + 96),
        device: words::load(b, i + 104),
        kind: words::get(b, i + 112),
        tail: words::load(b, i + 120),
    }
}

// The drive of a slot.
fn drive_in(b: &[u8; SIZE], i: usize) -> Drive
    requires { i < most_drives }
    ensures { result ≡ read_drive b.now (slot_at i) }
{
    drive_at(b, SLOTS + SLOT * i)
}

// Whether the mark at a place says yes.
fn mark_at(b: &[u8], at: usize) -> bool
    requires { at + 8 ≤ length b.now }
    ensures { result ≡ eqb (get_or b.now at 0) 1 }
{
    b[at] == 1
}

// The drives of all slots.
fn drives_of(b: &[u8; SIZE]) -> [Drive; 8]
    ensures { result ≡ read_slots b.now }
{
    array::from_fn(|i| drive_in(b, i))
}

// Whether a slot has parameters.
fn is_present(b: &[u8; SIZE], i: usize) -> bool
    requires { i < most_drives }
    ensures { result ≡ eqb (get_or b.now (present_at i) 0) 1 }
{
    mark_at(b, PRESENT + 8 * i)
}

// Which slots have parameters.
fn present_of(b: &[u8; SIZE]) -> [bool; 8]
    ensures { result ≡ read_marks b.now (present_at 0) }
{
    array::from_fn(|i| is_present(b, i))
}

// The bytes of all slots.
fn parameters_of(b: &[u8; SIZE]) -> [u8; 112]
    ensures { result ≡ part 112 b.now (bytes_at 0) }
{
    words::load(b, BYTES)
}

// How many bad blocks each slot has.
fn counts_of(b: &[u8; SIZE]) -> [u8; 8]
    ensures { result ≡ read_counts b.now }
{
    array::from_fn(|i| b[BAD_COUNTS + 8 * i])
}

// The numbers of all slots, where they stand in the block.
fn lists_of(b: &[u8; SIZE]) -> &[u8; 1024]
    ensures { result.now ≡ part 1024 b.now (bads_list_at 0) }
{
    let Some(lists) = b[BAD_LISTS..].as_array() else {
        unreachable!()
    };
    lists
}

#[tactic(auto, unfolding(crate::specs::Image::read_desk))]
pub fn table_of(b: &[u8; SIZE]) -> Table
    ensures { result ≡ (read_desk b.now).table }
{
    Table {
        drives: drives_of(b),
        count: words::get::<u64>(b, COUNT) as usize,
        present: present_of(b),
        parameters: parameters_of(b),
        counts: counts_of(b),
        bad: *lists_of(b),
    }
}

// ---- fields of a block that has been found acceptable, of which a call reads those that it needs

// Arena and store have the lengths of the opening.
pub fn is_lent(b: &[u8; SIZE], arena: usize, store: usize) -> bool
    ensures { result ≡ both (eqb arena (read_desk b.now).arena) (eqb store (read_desk b.now).store) }
{
    let same = arena as u64 == words::get::<u64>(b, ARENA);
    logic::and(same, store as u64 == words::get::<u64>(b, STORE))
}

// What a guest's row holds.
pub fn stage_of(b: &[u8; SIZE], guest: usize) -> Stage
    requires { guest < guests }
    ensures { result ≡ stage_at (read_desk b.now) guest }
{
    stage_at(b, ROW * guest)
}

// Whether a guest's row waits, by the number of its stage.
pub fn is_waiting(b: &[u8; SIZE], guest: usize) -> bool
    requires { guest < guests }
    ensures { result ≡ is_waiting (stage_at (read_desk b.now) guest) }
{
    b[ROW * guest] == 1
}

// The first waiting row at or after the pointer, by the numbers of the stages.
pub fn next_of(b: &[u8; SIZE]) -> Option<usize>
    requires { (read_desk b.now).pointer < guests }
    ensures { result ≡ first_waiting (read_desk b.now).rows guests (read_desk b.now).pointer }
{
    let mut guest = words::get::<u64>(b, POINTER) as usize;
    for _ in 0..GUESTS {
        if b[ROW * guest] == 1 {
            return Some(guest);
        }
        guest = (guest + 1) % GUESTS;
    }
    None
}

// How many drives the table holds, at most eight.
#[tactic(auto, using(crate::proofs::Fields::count_of))]
pub fn count_of(b: &[u8; SIZE]) -> u8
    ensures { (result ≡ drive_count (read_desk b.now).table) × (result ≤ 8) }
{
    words::get::<u64>(b, COUNT).min(8) as u8
}

// Whether the table has a drive of that BIOS number.
pub fn is_drive(b: &[u8; SIZE], n: u8) -> bool
    ensures { result ≡ is_drive (read_desk b.now).table n }
{
    let end = FIRST_DRIVE + count_of(b);
    logic::and(FIRST_DRIVE <= n, n < end)
}

// The drive of a BIOS number, or the first where the number is not known: a caller that has not tested the number asks nothing of it.
pub fn drive_named(b: &[u8; SIZE], n: u8) -> Drive
    ensures { result ≡ drive_at (read_desk b.now).table (pick (is_drive (read_desk b.now).table n) n first_drive) }
{
    if is_drive(b, n) {
        return drive_in(b, (n - FIRST_DRIVE) as usize);
    }
    drive_in(b, 0)
}

// The drive of a BIOS number, where it is one.
pub fn drive_of(b: &[u8; SIZE], n: u8) -> Option<Drive>
    ensures { (is_some result ≡ is_drive (read_desk b.now).table n) × (is_drive (read_desk b.now).table n ≡ true → named result ≡ drive_at (read_desk b.now).table n) }
{
    if is_drive(b, n) {
        return Some(drive_named(b, n));
    }
    None
}

// The bad blocks of a slot.
fn bads_in(b: &[u8; SIZE], i: usize) -> Bads
    requires { i < most_drives }
    ensures { result ≡ bads_at (read_desk b.now).table i }
{
    Bads {
        count: b[BAD_COUNTS + 8 * i],
        list: words::load(b, BAD_LISTS + attached::LIST_LENGTH * i),
    }
}

// The bad blocks of the drive of a BIOS number; a number that is no drive's has none.
pub fn bads_of(b: &[u8; SIZE], n: u8) -> Bads
    ensures { result ≡ bads_of (read_desk b.now).table n }
{
    if !is_drive(b, n) {
        return attached::no_bads();
    }
    bads_in(b, (n - FIRST_DRIVE) as usize)
}

// A guest's placement.
fn placement_of(b: &[u8; SIZE], guest: usize) -> Placement
    requires { guest < guests }
    ensures { result ≡ placement_at (read_desk b.now) guest }
{
    Placement {
        placed: mark_at(b, MARKS + 8 * guest),
        address: words::get(b, ADDRESSES + 8 * guest),
    }
}

// How many of the first n slots have parameters. Its callers ask for at most eight.
fn tables_before(b: &[u8; SIZE], n: usize) -> u8
    requires { n ≤ most_drives }
    ensures { (result ≡ parameters_to n (read_desk b.now).table) × (result ≤ n) }
{
    let mut count = 0u8;
    for i in 0..n {
        if is_present(b, i) {
            count += 1;
        }
    }
    count
}

// How many parameter tables there are.
pub fn table_count(b: &[u8; SIZE]) -> u8
    ensures { result ≡ table_count (read_desk b.now).table }
{
    tables_before(b, MOST_DRIVES)
}

// The segment of the parameter table of the drive of a BIOS number, if the guest is shown one.
pub fn shown_of(b: &[u8; SIZE], guest: usize, n: u8) -> Option<u16>
    requires { guest < guests }
    ensures { result ≡ shown_of (read_desk b.now).table (placement_at (read_desk b.now) guest) n }
{
    let p = placement_of(b, guest);
    if !logic::and(p.placed, is_drive(b, n)) {
        return None;
    }
    let i = (n - FIRST_DRIVE) as usize;
    if !is_present(b, i) {
        return None;
    }
    Some(int13::shown_at(p.address, tables_before(b, i)))
}

// ---- the block's table written back, slot by slot: no table is made of it

// How long the record of a slot's drive is, by its kind.
fn length_in(b: &[u8; SIZE], i: usize) -> usize
    requires { i < most_drives }
    ensures { (result ≡ drive_length (read_drive b.now (slot_at i)).kind) × (result ≤ 76) }
{
    drive::length_of(words::get(b, SLOTS + SLOT * i + 112)) as usize
}

// The length of the records of the first n slots. `write_table` asks for at most eight.
fn records_length(b: &[u8; SIZE], n: usize) -> usize
    requires { n ≤ most_drives }
    ensures { (result ≡ length (records_of n (read_desk b.now).table)) × (result ≤ 230 * n) }
{
    let mut total: usize = 0;
    for i in 0..n {
        let present = is_present(b, i);
        let more = table::attached_length(b[BAD_COUNTS + 8 * i], present);
        total += length_in(b, i) + more;
    }
    total
}

// The records of the first n slots, laid at the start of a buffer that `write_table` has found long enough.
fn put_records(b: &[u8; SIZE], n: usize, out: &mut [u8])
    requires { (n ≤ most_drives) × (length (records_of n (read_desk b.now).table) ≤ length out.old) }
    ensures { out.new ≡ sets out.old 0 (records_of n (read_desk b.now).table) }
{
    let mut at: usize = 0;
    for i in 0..n {
        let d = drive_in(b, i);
        let l = bads_in(b, i);
        let present = is_present(b, i);
        at = table::put_slot(d, l, present, i, &b[BYTES..BAD_COUNTS], out, at);
    }
}

// Lays the drives of the block's table out as a table.
pub fn write_table(b: &[u8; SIZE], out: &mut [u8]) -> Result<usize, ShortBuffer>
    ensures { (result ≡ write_answer (read_desk b.now).table (length out.old)) × (out.new ≡ write_out (read_desk b.now).table out.old) }
{
    let n = count_of(b) as usize;
    let end = records_length(b, n);
    let whole = end + table::END_LENGTH as usize;
    if out.len() < whole {
        return Err(ShortBuffer);
    }
    put_records(b, n, out);
    table::put_end(out, end);
    Ok(whole)
}

// ---- a block judged on its words: no desk is made of it, and every width is a test of a word

// Stays: beside `logic::all_below`, which asks all: here the first bad row or drive ends the test, so that 25 comes
// early (docs/PERFORMANCE.md).
#[inline]
fn all_in_turn<F: Fn(usize) -> bool>(n: usize, test: F) -> bool
    requires { (i : ℕ) → i < n → F.pre test i }
    ensures { (p : ℕ → Bool) → ((i : ℕ) (r : Bool) → i < n → F.post test i r → r ≡ p i) → result ≡ all_below n p }
{
    for i in 0..n {
        if !test(i) {
            return false;
        }
    }
    true
}

// Whether n words from a place are below end; below 1 they are zero.
#[tactic(auto, unfolding(crate::specs::Judged::below))]
fn below(b: &[u8], at: usize, n: usize, end: u64) -> bool
    requires { at + 8 * n ≤ length b.now }
    ensures { result ≡ below n end b.now at }
{
    logic::all_below(n, |j| words::get::<u64>(b, at + 8 * j) < end)
}

// Seven words of two bytes, and the carry bit.
fn are_registers(b: &[u8], i: usize) -> bool
    requires { i + 8 * 8 ≤ length b.now }
    ensures { result ≡ are_registers b.now i }
{
    logic::and(words::get::<u64>(b, i + 56) < 2, below(b, i, 7, 65536))
}

fn is_request(b: &[u8], i: usize) -> bool
    requires { i + 8 * 14 ≤ length b.now }
    ensures { result ≡ is_request b.now i }
{
    logic::and(words::get::<u64>(b, i + 64) < 256, are_registers(b, i))
}

fn is_slot(b: &[u8], i: usize) -> bool
    requires { i + slot_size ≤ length b.now }
    ensures { result ≡ is_slot b.now i }
{
    let numbers = logic::and(below(b, i + 40, 3, 65536), below(b, i, 3, 4294967296));
    let bytes = logic::and(below(b, i + 64, 2, 256), numbers);
    let names = logic::and(words::get::<u64>(b, i + 80) < 4294967296, bytes);
    logic::and(words::get::<u64>(b, i + 112) < 65536, names)
}

fn drive_good(b: &[u8], i: usize, store: u64) -> bool
    requires { i + slot_size ≤ length b.now }
    ensures { result ≡ drive_good b.now store i }
{
    logic::and(is_slot(b, i), table::obeys(drive_at(b, i), store))
}

// Every caller has found at most eight drives.
#[tactic(auto, unfolding(crate::specs::Judged::drives_good))]
fn drives_good(b: &[u8; SIZE], n: usize, store: u64) -> bool
    requires { n ≤ most_drives }
    ensures { result ≡ drives_good n b.now store }
{
    all_in_turn(n, |i| drive_good(b, SLOTS + SLOT * i, store))
}

// A slot past the first n is zero.
fn is_rest(b: &[u8; SIZE], n: usize, i: usize) -> bool
    requires { i < most_drives }
    ensures { result ≡ either (ltb i n) (below 16 1 b.now (slot_at i)) }
{
    i < n || below(b, SLOTS + SLOT * i, 16, 1)
}

fn rest_zero(b: &[u8; SIZE], n: usize) -> bool
    requires { n ≤ most_drives }
    ensures { result ≡ rest_zero most_drives n b.now }
{
    all_in_turn(MOST_DRIVES, |i| is_rest(b, n, i))
}

// Two runs of blocks share none, found by differences, so that no sum wraps.
fn are_apart(first: u64, blocks: u64, other: u64, others: u64) -> bool
    ensures { result ≡ apart first blocks other others }
{
    if first <= other {
        return logic::ends_by(first, blocks, other);
    }
    logic::ends_by(other, others, first)
}

fn first_in(b: &[u8; SIZE], i: usize) -> u64
    requires { i < most_drives }
    ensures { result ≡ first_in b.now i }
{
    words::get(b, SLOTS + SLOT * i + 32)
}

fn blocks_in(b: &[u8; SIZE], i: usize) -> u64
    requires { i < most_drives }
    ensures { result ≡ blocks_in b.now i }
{
    words::get(b, SLOTS + SLOT * i + 24)
}

// The drive of a slot shares no block with one before it.
#[tactic(auto, unfolding(crate::specs::Judged::alone_to))]
fn is_alone(b: &[u8; SIZE], i: usize) -> bool
    requires { i < most_drives }
    ensures { result ≡ alone_to i b.now i }
{
    let first = first_in(b, i);
    let blocks = blocks_in(b, i);
    logic::all_below(
        i,
        |j| are_apart(first, blocks, first_in(b, j), blocks_in(b, j)),
    )
}

fn next_follows(b: &[u8; SIZE], i: usize) -> bool
    requires { i + 1 < most_drives }
    ensures { result ≡ follows b.now i }
{
    let first = first_in(b, i);
    let next = first_in(b, i + 1);
    logic::and(first < next, logic::ends_by(first, blocks_in(b, i), next))
}

#[tactic(auto, unfolding(crate::specs::Judged::ascending))]
fn is_ascending(b: &[u8; SIZE], n: usize) -> bool
    requires { n ≤ most_drives }
    ensures { result ≡ ascending n b.now }
{
    logic::all_below(n.saturating_sub(1), |i| next_follows(b, i))
}

// No two of the first n drives share a block. A table in the order of the store, as most are, needs no pairs.
fn drives_apart(b: &[u8; SIZE], n: usize) -> bool
    requires { n ≤ most_drives }
    ensures { result ≡ drives_apart n b.now }
{
    if is_ascending(b, n) {
        return true;
    }
    logic::all_below(n, |i| is_alone(b, i))
}

fn table_good(b: &[u8; SIZE]) -> bool
    ensures { result ≡ table_good b.now }
{
    let count = words::get::<u64>(b, COUNT);
    if 8 < count {
        return false;
    }
    let n = count as usize;
    if !drives_good(b, n, words::get::<u64>(b, STORE) / BLOCK_LENGTH) {
        return false;
    }
    logic::and(rest_zero(b, n), drives_apart(b, n))
}

fn waiting_good(b: &[u8; SIZE], i: usize, m: u64) -> bool
    requires { i + row_size ≤ desk_size }
    ensures { result ≡ waiting_good b.now m i }
{
    let q = request_at(b, i + 8);
    let n = q.job.drive;
    if !is_drive(b, n) {
        return false;
    }
    let fits = logic::and(is_request(b, i + 8), below(b, i + 120, 8, 1));
    logic::and(fits, desk::request_ok(drive_named(b, n), m, q))
}

fn finished_good(b: &[u8], i: usize) -> bool
    requires { i + row_size ≤ length b.now }
    ensures { result ≡ finished_good b.now i }
{
    logic::and(below(b, i + 8, 14, 1), are_registers(b, i + 120))
}

#[tactic(auto, unfolding(crate::specs::Judged::row_good))]
fn row_good(b: &[u8; SIZE], i: usize, m: u64) -> bool
    requires { i + row_size ≤ desk_size }
    ensures { result ≡ row_good b.now m i }
{
    match words::get::<u64>(b, i) {
        0 => below(b, i + 8, 22, 1),
        1 => waiting_good(b, i, m),
        2 => finished_good(b, i),
        _ => false,
    }
}

fn rows_good(b: &[u8; SIZE], m: u64) -> bool
    ensures { result ≡ rows_good guests b.now m }
{
    all_in_turn(GUESTS, |g| row_good(b, ROW * g, m))
}

// The fourteen bytes of a slot are zero, tested as two words, of which the second begins inside the first.
fn zero_given(b: &[u8], at: usize) -> bool
    requires { at + given_length ≤ length b.now }
    ensures { result ≡ zero_bytes given_length b.now at }
{
    logic::and(
        words::get::<u64>(b, at) == 0,
        words::get::<u64>(b, at + 6) == 0,
    )
}

// A slot has parameters only if it has a drive, and zeros for them if it has none.
fn is_attached(b: &[u8; SIZE], i: usize) -> bool
    requires { i < most_drives }
    ensures { result ≡ attached_at (read_desk b.now).table i }
{
    if is_present(b, i) {
        return (i as u64) < words::get::<u64>(b, COUNT);
    }
    zero_given(b, BYTES + attached::GIVEN_LENGTH * i)
}

fn all_attached(b: &[u8; SIZE]) -> bool
    ensures { result ≡ attached_to most_drives (read_desk b.now).table }
{
    logic::all_below(MOST_DRIVES, |i| is_attached(b, i))
}

fn parameters_good(b: &[u8; SIZE]) -> bool
    ensures { result ≡ parameters_good b.now }
{
    logic::and(below(b, PRESENT, MOST_DRIVES, 2), all_attached(b))
}

fn placements_ok(b: &[u8; SIZE], tables: u8, m: u64) -> bool
    ensures { result ≡ placements_ok guests tables m (read_desk b.now) }
{
    logic::all_below(
        GUESTS,
        |g| desk::placement_ok(tables, m, placement_of(b, g)),
    )
}

fn places_good(b: &[u8; SIZE], m: u64) -> bool
    ensures { result ≡ places_good b.now m }
{
    logic::and(
        below(b, MARKS, GUESTS, 2),
        placements_ok(b, table_count(b), m),
    )
}

// A slot has bad blocks of its drive only, and zeros behind them.
fn is_listed(b: &[u8; SIZE], i: usize) -> bool
    requires { i < most_drives }
    ensures { result ≡ listed_at (read_desk b.now).table i }
{
    attached::bads_ok(bads_in(b, i), blocks_in(b, i))
}

fn all_listed(b: &[u8; SIZE]) -> bool
    ensures { result ≡ listed_to most_drives (read_desk b.now).table }
{
    all_in_turn(MOST_DRIVES, |i| is_listed(b, i))
}

// No slot has bad blocks, and all words for them are zero. They are tested slot by slot: of a fixed number of words that is not large the
// compiler makes one test, and of all of them at once a loop of many.
fn none_listed(b: &[u8; SIZE]) -> bool
    ensures { result ≡ below (most_drives + most_bad * most_drives) 1 b.now (bads_count_at 0) }
{
    let lists = logic::all_below(MOST_DRIVES, |i| {
        below(
            b,
            BAD_LISTS + attached::LIST_LENGTH * i,
            attached::MOST_BAD,
            1,
        )
    });
    logic::and(below(b, BAD_COUNTS, MOST_DRIVES, 1), lists)
}

// The bad blocks of all slots. In most blocks there are none, and zeros for them, which are good.
fn bads_good(b: &[u8; SIZE]) -> bool
    ensures { result ≡ bads_good b.now }
{
    if none_listed(b) {
        return true;
    }
    logic::and(below(b, BAD_COUNTS, MOST_DRIVES, 256), all_listed(b))
}

// What stands behind the last words. In most blocks that is zeros, which are good. Each case has a return of its own, so that the compiler
// keeps the tests above out of the way of such a block.
fn more_good(b: &[u8; SIZE], m: u64) -> bool
    ensures { result ≡ more_good b.now m }
{
    if !bads_good(b) {
        return false;
    }
    let bare = below(b, PRESENT, PARAMETER_WORDS, 1);
    if below(b, MARKS, PLACE_WORDS, 1) {
        if bare {
            return true;
        }
        return parameters_good(b);
    }
    if bare {
        return places_good(b, m);
    }
    logic::and(parameters_good(b), places_good(b, m))
}

// Whether a block is the image of an acceptable desk.
pub fn acceptable(b: &[u8]) -> bool
    ensures { result ≡ accepted b.now }
{
    let Some(b) = b.as_array::<SIZE>() else {
        return false;
    };
    if 8 <= words::get::<u64>(b, POINTER) {
        return false;
    }
    if !table_good(b) {
        return false;
    }
    let m = words::get::<u64>(b, ARENA) / 8;
    if !rows_good(b, m) {
        return false;
    }
    more_good(b, m)
}

// ---- the words of a desk, laid out

fn waiting_words(q: Request) -> [u64; 23]
    ensures { result ≡ stage_words (Waiting q) }
{
    let j = q.job;
    let r = j.registers;
    [
        1,
        r.ax as u64,
        r.bx as u64,
        r.cx as u64,
        r.dx as u64,
        r.ds as u64,
        r.si as u64,
        r.es as u64,
        u64::from(r.carry),
        j.drive as u64,
        j.start,
        j.count,
        j.buffer,
        j.packet,
        q.moved,
        0,
        0,
        0,
        0,
        0,
        0,
        0,
        0,
    ]
}

fn finished_words(r: Registers) -> [u64; 23]
    ensures { result ≡ stage_words (Finished r) }
{
    [
        2,
        0,
        0,
        0,
        0,
        0,
        0,
        0,
        0,
        0,
        0,
        0,
        0,
        0,
        0,
        r.ax as u64,
        r.bx as u64,
        r.cx as u64,
        r.dx as u64,
        r.ds as u64,
        r.si as u64,
        r.es as u64,
        u64::from(r.carry),
    ]
}

fn stage_words(s: Stage) -> [u64; 23]
    ensures { result ≡ stage_words s }
{
    match s {
        Stage::Vacant => [0; 23],
        Stage::Waiting(q) => waiting_words(q),
        Stage::Finished(r) => finished_words(r),
    }
}

// What stands in a block as N words.
trait Words<const N: usize>: Copy {
    ghost words: { Self → List ℕ };

    fn words(self) -> [u64; N]
        ensures { result ≡ words self };

    ghost wide: { (x : Self) → length (words x) ≡ N };
}

impl Words<23> for Row {
    ghost words = { row_words };

    ghost wide = { λ r. elim r.stage as (λ x. length (stage_words x) ≡ 23) [ Vacant ↦ refl | Waiting q ↦ refl | Finished x ↦ refl ] };

    fn words(self) -> [u64; 23] {
        stage_words(self.stage)
    }
}

impl Words<16> for Drive {
    ghost words = { drive_words };

    ghost wide = { λ x. refl };

    fn words(self) -> [u64; 16] {
        [
            self.cylinders as u64,
            self.heads as u64,
            self.sectors as u64,
            self.blocks,
            self.first,
            self.flags as u64,
            self.c as u64,
            self.h as u64,
            self.s as u64,
            self.protection as u64,
            u64::from(words::get::<u32>(&self.bus, 0)),
            words::get(&self.interface, 0),
            words::get(&self.path, 0),
            words::get(&self.device, 0),
            self.kind as u64,
            words::get(&self.tail, 0),
        ]
    }
}

// A mark: 1 where it holds.
impl Words<1> for bool {
    ghost words = { λ x. pick x 1 0 ∷ [] };

    ghost wide = { λ x. refl };

    fn words(self) -> [u64; 1] {
        [u64::from(self)]
    }
}

impl Words<1> for u8 {
    ghost words = { λ x. x ∷ [] };

    ghost wide = { λ x. refl };

    fn words(self) -> [u64; 1] {
        [u64::from(self)]
    }
}

// Lays words out from a place, which leaves room for them: every caller lays a part of a block of the right size.
fn put_words(out: &mut [u8], at: usize, w: &[u64])
    requires { at + 8 * length w.now ≤ length out.old }
    ensures { out.new ≡ sets out.old at (flat w.now) }
{
    for (j, word) in w.iter().enumerate() {
        words::put(out, at + 8 * j, *word);
    }
}

// Lays eight items out from a place, one behind the other.
fn put_each<T: Words<N>, const N: usize>(out: &mut [u8], at: usize, items: &[T; 8])
    requires { at + 8 * (N * 8) ≤ length out.old }
    ensures { out.new ≡ sets out.old at (flat (each T.words items.now)) }
{
    for (k, item) in items.iter().enumerate() {
        put_words(out, at + 8 * (N * k), &item.words());
    }
}

// What a guest's row holds from now on: only the row's words are written.
pub fn put_stage(b: &mut [u8; SIZE], guest: usize, stage: Stage)
    requires { guest < guests }
    ensures { b.new ≡ put_stage b.old guest stage }
{
    let w = stage_words(stage);
    put_words(b, ROW * guest, &w);
}

// Where the next search begins: only the pointer's word is written.
pub fn put_pointer(b: &mut [u8; SIZE], pointer: usize)
    ensures { b.new ≡ put_pointer b.old pointer }
{
    words::put(b, POINTER, pointer as u64);
}

// A guest's tables are placed from an address on: only its mark and its address are written.
pub fn put_placement(b: &mut [u8; SIZE], guest: usize, address: u64)
    requires { guest < guests }
    ensures { b.new ≡ put_placement b.old guest address }
{
    words::put(b, MARKS + 8 * guest, 1u64);
    words::put(b, ADDRESSES + 8 * guest, address);
}

// Lays the bytes of all slots out as they are: words of them have the same bytes.
fn put_given(out: &mut [u8; SIZE], bytes: &[u8; GIVEN])
    ensures { out.new ≡ sets out.old (bytes_at 0) (flat (given_words bytes.now)) }
{
    words::store(out, BYTES, bytes);
}

// Lays how many bad blocks each slot has out, a word each, and the numbers of all slots as they are.
fn put_bads(out: &mut [u8; SIZE], counts: &[u8; 8], bad: &[u8; attached::LIST_LENGTH * MOST_DRIVES])
    ensures { out.new ≡ sets out.old (bads_count_at 0) (flat (counts.now ++ list_words bad.now)) }
{
    put_each(out, BAD_COUNTS, counts);
    words::store(out, BAD_LISTS, bad);
}

// The sections behind the last words.
fn put_more(d: Desk, out: &mut [u8; SIZE])
    ensures { out.new ≡ sets out.old (mark_at 0) (flat (places_words d ++ (parameters_words d.table ++ bads_words d.table))) }
{
    let b = d.table;
    put_each(out, MARKS, &d.placed);
    put_words(out, ADDRESSES, &d.addresses);
    put_each(out, PRESENT, &b.present);
    put_given(out, &b.parameters);
    put_bads(out, &b.counts, &b.bad);
}

// Lays a desk out in a block of its size.
fn lay(d: Desk, out: &mut [u8; SIZE])
    ensures { out.new ≡ image d }
{
    put_each(out, 0, &d.rows);
    put_each(out, SLOTS, &d.table.drives);
    let tail = [d.table.count as u64, d.pointer as u64, d.arena, d.store];
    put_words(out, TAIL, &tail);
    put_more(d, out);
}

// Lays a desk out in a block; a block of another size stays.
pub fn encode(d: Desk, block: &mut [u8])
    ensures { block.new ≡ laid block.old d }
{
    if let Some(block) = block.as_mut_array::<SIZE>() {
        lay(d, block);
    }
}
