// The desk: a guest posts, the host gives turns, the guest collects. The desk goes from call to call as a record that is handed in and
// handed back with the answer.
#![tactic(auto)]

ghost use Rattle.std.specs.Prelude.{◌≡◌, true, false, ℕ, ◌+◌, ◌-◌, ◌*◌, ◌^◌, ◌≤◌, ◌<◌, leb, ltb, eqb, length, List, [], Ok, Err, Some};
ghost use Rattle.logic.specs.Logic.{pick, both};
ghost use Rattle.chs.specs.Chs.{size};
ghost use Rattle.drive.specs.Drive.{geometry_of};
ghost use Rattle.desk.specs.Parts.{own_window, with_own, stage_in, with_stage, is_waiting, next, with_pointer, placement_at, with_placement};
ghost use Rattle.desk.specs.Acceptable.{packet_ok, moved_ok, job_rules, request_ok, stage_ok, rows_ok, place_ok, placement_ok, placements_ok, accept, Servable, InRange};
ghost use Rattle.layout.specs.Packet.{packet_length};
ghost use Rattle.memory.specs.Window.{guests, window_length, span_length};
ghost use Rattle.memory.specs.Blocks.{block_length};
ghost use Rattle.int13.specs.Answers.{ah, withdraw};
ghost use Rattle.int13.specs.Placement.{table_count};
ghost use Rattle.int13.specs.Steps.{most_blocks, most_run, fed, begin};
ghost use Rattle.int13.specs.Alone.{reported};
ghost use Rattle.desk.specs.declared.HouseNumber.TheVariants.{ShortBuffer as NoRoom};
ghost use Rattle.desk.specs.Calls.{number, number_of, house_number, house_answer, done, opened, open_of, written_of, written_out, post_checked, post_of, first_waiting, quota, moves_now, goes_on, service_of, beside, Copied, Transferred, turn_of, collect_of, withdraw_of, tables_in, place_of};
ghost use Rattle.desk.specs.Numbers.{open_numbers, written_numbers, post_numbers, turn_numbers, collect_numbers, withdraw_numbers, place_numbers, open_given, write_given, post_given, turn_given, collect_given, withdraw_given, place_given};

use attached::Bads;
use drive::Drive;
use int13::{Job, Outcome, Placement, Registers};
use table::{Refused, ShortBuffer, Table};

// A request with the number of blocks that have moved.
#[derive(Clone, Copy)]
pub struct Request {
    pub job: Job,
    pub moved: u64,
}

// What a guest's row holds: nothing, a request that waits, or the registers of one that has finished.
#[derive(Clone, Copy)]
pub enum Stage {
    Vacant,
    Waiting(Request),
    Finished(Registers),
}

#[derive(Clone, Copy)]
pub struct Row {
    pub stage: Stage,
}

// One row for each guest, the turn pointer, the drives, the lengths of arena and store that it was opened with, and for each guest whether its
// parameter tables are placed in its window, and from which address on.
// Stays: marks and addresses are two arrays and no Options, since accept answers on an unplaced address other than 0.
#[derive(Clone, Copy)]
pub struct Desk {
    pub rows: [Row; 8],
    pub pointer: usize,
    pub table: Table,
    pub arena: u64,
    pub store: u64,
    pub placed: [bool; 8],
    pub addresses: [u64; 8],
}

// What a turn does to a request: the blocks that it moves, and the stage of the row after it.
#[derive(Clone, Copy)]
pub struct Service {
    pub moved: u64,
    pub stage: Stage,
}

// The guest that a turn served, and the blocks that it moved.
#[derive(Clone, Copy, PartialEq, Eq)]
pub struct Served {
    pub guest: usize,
    pub moved: u64,
}

// A refusal by the desk: document 01's house numbers.
#[derive(Clone, Copy, PartialEq, Eq, Debug)]
pub enum HouseNumber {
    NoGuest,
    NotVacant,
    NotFinished,
    NotWaiting,
    OtherLength,
    NotAcceptable,
    BadPlace,
    ShortBuffer,
}

// What a call leaves: the desk to go on with, which a refusal hands back as it was, and the answer.
#[derive(Clone, Copy)]
pub struct After<A> {
    pub desk: Desk,
    pub answer: A,
}

impl HouseNumber {
    // The paper's number.
    pub fn number(self) -> u8
        ensures { result ≡ number self }
    {
        match self {
            Self::NoGuest => 20,
            Self::NotVacant => 21,
            Self::NotFinished => 22,
            Self::NotWaiting => 23,
            Self::OtherLength => 24,
            Self::NotAcceptable => 25,
            Self::BadPlace => 26,
            Self::ShortBuffer => table::SHORT_BUFFER,
        }
    }
}

impl From<ShortBuffer> for HouseNumber {
    ghost from_gives = { λ _ r. r ≡ NoRoom };

    fn from(_short: ShortBuffer) -> HouseNumber {
        HouseNumber::ShortBuffer
    }
}

// Blocks that a turn moves at most, bytes of a block, bytes of a packet.
const TURN_BLOCKS: u64 = 16;

const BLOCK_LENGTH: u64 = memory::BLOCK_LENGTH as u64;

const PACKET_LENGTH: u64 = layout::PACKET_LENGTH;

// Bytes of a parameter table.
const PARAMETER_SIZE: u64 = layout::PARAMETER_SIZE as u64;

// Blocks of a request at most: of 02h and 03h, and of 42h and 43h.
const MOST_RUN: u64 = int13::MOST_RUN as u64;

const MOST_BLOCKS: u64 = int13::MOST_BLOCKS as u64;

// Rows of a desk.
const GUESTS: usize = memory::GUESTS;

// ---- the tests before the row's

// Stays: a guest is a number and no type of its own, since it comes so through the C interface, and 8 and more is 20.

// The first refusal that a call comes to: the only place that knows their order.
#[tactic(auto, unfolding(crate::specs::Calls::house_answer, crate::specs::Calls::house_number))]
pub fn house_tests(acceptable: bool, lent: bool, guest: bool) -> Result<(), HouseNumber>
    ensures { (result ≡ house_answer acceptable lent guest) × (number_of result ≡ house_number acceptable lent guest) }
{
    if !acceptable {
        return Err(HouseNumber::NotAcceptable);
    }
    if !lent {
        return Err(HouseNumber::OtherLength);
    }
    if !guest {
        return Err(HouseNumber::NoGuest);
    }
    Ok(())
}

// ---- acceptable desks

fn count_ok(sectors: bool, n: u64) -> bool
    ensures { result ≡ leb n (pick sectors most_run most_blocks) }
{
    n <= if sectors { MOST_RUN } else { MOST_BLOCKS }
}

fn packet_ok(sectors: bool, place: u64, m: u64) -> bool
    ensures { result ≡ pick sectors (eqb place 0) (leb (place + packet_length) m) }
{
    if sectors {
        return place == 0;
    }
    logic::ends_by(place, PACKET_LENGTH, m)
}

fn range_ok(d: Drive, sectors: bool, start: u64, count: u64) -> bool
    ensures { result ≡ both (leb (start + count) d.blocks) (pick sectors (leb (start + count) (size (geometry_of d))) true) }
{
    logic::ends_by(start, count, d.blocks)
        && (!sectors || logic::ends_by(start, count, drive::geometry_size(d)))
}

fn moved_ok(moved: u64, count: u64) -> bool
    ensures { result ≡ moved_ok moved count }
{
    moved % TURN_BLOCKS == 0 && moved < count
}

// The count first, so that its bytes do not wrap.
fn job_ok(d: Drive, m: u64, j: Job) -> bool
    ensures { result ≡ job_rules d m j }
{
    let f = int13::function_of(j.registers);
    let sectors = int13::is_sectors(f);
    let transfer = sectors || matches!(f, 0x42 | 0x43);
    let protected = int13::is_write(f) && drive::is_protected(d);
    count_ok(sectors, j.count)
        && transfer
        && range_ok(d, sectors, j.start, j.count)
        && logic::ends_by(j.buffer, BLOCK_LENGTH * j.count, m)
        && packet_ok(sectors, j.packet, m)
        && !protected
}

// What is asked of a waiting request on its drive, in windows of m bytes.
#[tactic(auto, unfolding(crate::specs::Acceptable::request_ok))]
pub fn request_ok(d: Drive, m: u64, q: Request) -> bool
    ensures { result ≡ request_ok d m q }
{
    job_ok(d, m, q.job) && moved_ok(q.moved, q.job.count)
}

fn stage_ok(b: Table, m: u64, stage: Stage) -> bool
    ensures { result ≡ stage_ok b m stage }
{
    let Stage::Waiting(q) = stage else {
        return true;
    };
    let n = q.job.drive;
    if !int13::is_drive(b, n) {
        return false;
    }
    let d = int13::drive_at(b, n);
    request_ok(d, m, q)
}

fn rows_ok(rows: [Row; 8], b: Table, m: u64) -> bool
    ensures { result ≡ rows_ok guests rows b m }
{
    rows.iter().all(|row| stage_ok(b, m, row.stage))
}

// ---- places for parameter tables

// The segments of a guest's memory.
const SEGMENTS: u64 = 0x10000;

// Whether so many tables may stand from an address on, in windows of m bytes.
#[tactic(auto, unfolding(crate::specs::Acceptable::place_ok))]
pub fn place_ok(tables: u8, m: u64, address: u64) -> bool
    ensures { result ≡ place_ok tables m address }
{
    let n = tables as u64;
    address % 16 == 0
        && logic::ends_by(address, PARAMETER_SIZE * n, m)
        && (n == 0 || address / 16 + n <= SEGMENTS)
}

// A good place, or 0 where nothing is placed.
pub fn placement_ok(tables: u8, m: u64, p: Placement) -> bool
    ensures { result ≡ placement_ok tables m p }
{
    if p.placed {
        return place_ok(tables, m, p.address);
    }
    p.address == 0
}

impl Desk {
    // A guest's placement.
    fn placement(self, guest: usize) -> Placement
        requires { guest < guests }
        ensures { result ≡ placement_at self guest }
    {
        Placement {
            placed: self.placed[guest],
            address: self.addresses[guest],
        }
    }

    fn placements_ok(self) -> bool
        ensures { result ≡ placements_ok guests (table_count self.table) (window_length self.arena) self }
    {
        let b = self.table;
        let tables = int13::table_count(b);
        let m = self.arena / 8;
        (0..GUESTS).all(|g| placement_ok(tables, m, self.placement(g)))
    }

    // A table that obeys the rules, a pointer below 8, every waiting row in range, and good places; any other desk is 25.
    #[tactic(auto, unfolding(crate::specs::Acceptable::accept))]
    pub fn accept(self) -> bool
        ensures { result ≡ accept self }
    {
        let b = self.table;
        table::is_sound(b, self.store / BLOCK_LENGTH)
            && self.pointer < GUESTS
            && rows_ok(self.rows, b, self.arena / 8)
            && self.placements_ok()
    }
}

// ---- the rows

// The stage of a guest's row.
fn stage_in(rows: [Row; 8], guest: usize) -> Stage
    requires { guest < guests }
    ensures { result ≡ stage_in rows guest }
{
    rows[guest].stage
}

// ---- the turn's search

fn waits(stage: Stage) -> bool
    ensures { result ≡ is_waiting stage }
{
    matches!(stage, Stage::Waiting(_))
}

// The first waiting row at or after the pointer, which `accept` has found below 8.
fn next_waiting(rows: [Row; 8], pointer: usize) -> Option<usize>
    requires { pointer < guests }
    ensures { result ≡ first_waiting rows guests pointer }
{
    for i in 0..GUESTS {
        let guest = (pointer + i) % GUESTS;
        if waits(stage_in(rows, guest)) {
            return Some(guest);
        }
    }
    None
}

// ---- what a turn does to a request

// The blocks that the next turn moves.
fn quota_of(q: Request) -> u64
    ensures { result ≡ quota q }
{
    let left = q.job.count.saturating_sub(q.moved);
    left.min(TURN_BLOCKS)
}

// The same before the first bad block of its drive. Its blocks have been found in range, so that their numbers do not wrap.
#[tactic(auto, unfolding(crate::specs::Calls::moves_now))]
fn moves_now(q: Request, bads: Bads) -> u64
    requires { Servable q }
    ensures { (result ≡ moves_now bads q) × (result ≤ quota q) }
{
    attached::good(bads, q.job.start + q.moved, quota_of(q))
}

// k blocks moved, the request goes on waiting: it met no bad block, and more remain.
fn goes_on(q: Request, k: u64) -> bool
    requires { q.moved + k < 2 ^ 64 }
    ensures { result ≡ goes_on q k }
{
    quota_of(q) <= k && q.moved + k < q.job.count
}

// What a turn does to a request on a drive with those bad blocks. Acceptance has found it in range.
#[tactic(auto, unfolding(crate::specs::Calls::stage_after))]
pub fn service_of(q: Request, bads: Bads) -> Service
    requires { Servable q }
    ensures { result ≡ service_of bads q }
{
    let k = moves_now(q, bads);
    let moved = q.moved + k;
    let stage = if goes_on(q, k) {
        Stage::Waiting(Request { moved, ..q })
    } else {
        Stage::Finished(int13::ended(q.job.count, moved, q.job.registers))
    };
    Service { moved: k, stage }
}

// Where the next blocks of a request stand in the window and in the store, in bytes. The request is in range, so that neither wraps.
fn window_place(buffer: u64, moved: u64) -> usize
    requires { buffer + block_length * moved < 2 ^ 64 }
    ensures { result ≡ buffer + block_length * moved }
{
    (buffer + BLOCK_LENGTH * moved) as usize
}

fn store_place(first: u64, start: u64, moved: u64) -> usize
    requires { block_length * (first + start + moved) < 2 ^ 64 }
    ensures { result ≡ block_length * (first + start + moved) }
{
    (BLOCK_LENGTH * (first + start + moved)) as usize
}

// k blocks move between a place of the guest's window and a place of the store, both of which `transfer` finds in range.
fn move_blocks(
    write: bool,
    guest: usize,
    at: usize,
    place: usize,
    k: usize,
    arena: &mut [u8],
    store: &mut [u8],
)
    requires { (at + block_length * k ≤ span_length (length arena.old) guest (window_length (length arena.old))) × (place + block_length * k ≤ length store.old) }
    ensures { Copied write guest at place k arena.old store.old arena.new store.new }
{
    let m = memory::window_length(arena.len());
    if write {
        memory::save(&arena[..], guest, m, at, store, place, k);
        return;
    }
    memory::load(arena, guest, m, at, &store[..], place, k);
}

// The next k blocks of a request move between the window and the store; `first` is the first store block of its drive. A turn serves only
// rows that acceptance has found in range.
pub fn transfer(first: u64, q: Request, k: u64, guest: usize, arena: &mut [u8], store: &mut [u8])
    requires { InRange first q k guest (length arena.old) (length store.old) }
    ensures { Transferred first q k guest arena.old store.old arena.new store.new }
{
    let at = window_place(q.job.buffer, q.moved);
    let place = store_place(first, q.job.start, q.moved);
    let write = int13::is_write(int13::function_of(q.job.registers));
    move_blocks(write, guest, at, place, k as usize, arena, store);
}

// The place of a packet's count word; the packet is in the window, so that it does not wrap.
fn count_place(packet: u64) -> usize
    requires { packet + 2 < 2 ^ 64 }
    ensures { result ≡ packet + 2 }
{
    (packet + 2) as usize
}

// ---- what an ending writes

// A number of blocks moved goes to the packet's count word; 02h and 03h, which have no packet, have it in AL alone. Acceptance has found the
// packet inside the window.
pub fn report_moved(job: Job, moved: u64, guest: usize, arena: &mut [u8])
    requires { (guest < guests) × (packet_ok (ah job.registers) job.packet (window_length (length arena.old)) ≡ true) × (moved ≤ most_run) }
    ensures { arena.new ≡ with_own arena.old guest (reported job moved (own_window arena.old guest)) }
{
    if int13::is_sectors(int13::function_of(job.registers)) {
        return;
    }
    let m = memory::window_length(arena.len());
    let at = count_place(job.packet);
    memory::put_word_in(arena, guest, m, at, moved as u16);
}

// After the data of a turn that moved k blocks: at a bad block the blocks moved in the whole request, else nothing.
pub fn report_ending(q: Request, k: u64, guest: usize, arena: &mut [u8])
    requires { (guest < guests) × (packet_ok (ah q.job.registers) q.job.packet (window_length (length arena.old)) ≡ true) × (q.moved + k ≤ most_run) }
    ensures { arena.new ≡ with_own arena.old guest (beside q k (own_window arena.old guest)) }
{
    if goes_on(q, k) {
        return;
    }
    let moved = q.moved + k;
    if q.job.count <= moved {
        return;
    }
    report_moved(q.job, moved, guest, arena);
}

// ---- what a withdrawal gives back

pub fn given_back(q: Request) -> Registers
    requires { q.moved < most_run }
    ensures { result ≡ withdraw q.moved q.job.registers }
{
    int13::withdraw(q.moved as u8, q.job.registers)
}

// ---- what placing writes

// All tables of a drive table, laid in the guest's window from an address on. `place_ok` has found that they lie there.
pub fn lay_tables(b: Table, guest: usize, address: u64, arena: &mut [u8])
    requires { (guest < guests) × (place_ok (table_count b) (window_length (length arena.old)) address ≡ true) }
    ensures { arena.new ≡ with_own arena.old guest (tables_in b address (own_window arena.old guest)) }
{
    let m = memory::window_length(arena.len());
    let bytes = int13::tables_of(b);
    let n = layout::PARAMETER_SIZE * int13::table_count(b) as usize;
    memory::put_bytes_in(arena, guest, m, address as usize, &bytes[..n]);
}

// ---- the desk by value

// A desk with all rows vacant, and nothing placed.
fn vacant(pointer: usize, b: Table, arena: u64, store: u64) -> Desk
    ensures { result ≡ with_pointer (opened b arena store) pointer }
{
    Desk {
        rows: [Row {
            stage: Stage::Vacant,
        }; GUESTS],
        pointer,
        table: b,
        arena,
        store,
        placed: [false; GUESTS],
        addresses: [0; GUESTS],
    }
}

// A call begun in the guest's own window.
fn begin_own(
    b: Table,
    placement: Placement,
    registers: Registers,
    guest: usize,
    arena: &mut [u8],
) -> Outcome
    ensures { (result ≡ (begin (fed b placement) registers (own_window arena.old guest)).outcome) × (arena.new ≡ with_own arena.old guest (begin (fed b placement) registers (own_window arena.old guest)).window) }
{
    let m = memory::window_length(arena.len());
    let span = memory::span_of(arena.len(), guest, m);
    int13::begin(b, placement, registers, &mut arena[span.start..span.end])
}

impl Desk {
    // The tests of a call that is lent an arena and a store of these lengths.
    fn house(self, arena: usize, store: usize, guest: bool) -> Result<(), HouseNumber>
        ensures { result ≡ house_answer (accept self) (both (eqb arena self.arena) (eqb store self.store)) guest }
    {
        let lent = arena as u64 == self.arena && store as u64 == self.store;
        house_tests(self.accept(), lent, guest)
    }

    // The guest's row gets another stage.
    fn set_stage(&mut self, guest: usize, stage: Stage)
        requires { guest < guests }
        ensures { self.new ≡ with_stage self.old guest stage }
    {
        self.rows[guest] = Row { stage };
    }

    // Reads the table; a desk with all rows vacant, or the table's refusal with its place and a desk at which every call is 25.
    pub fn open(t: &[u8], arena: u64, store: u64) -> After<Result<(), Refused>>
        ensures { (result ≡ open_of t.now arena store) × (open_numbers result.answer ≡ open_given t.now store) }
    {
        let reading = table::read_table(t, store / BLOCK_LENGTH);
        let answer = reading.answer;
        let desk = match answer {
            Ok(()) => vacant(0, reading.table, arena, store),
            Err(_) => vacant(GUESTS, table::empty_table(), arena, store),
        };
        After { desk, answer }
    }

    // Lays the drives out as a table again.
    pub fn write(self, out: &mut [u8]) -> Result<usize, HouseNumber>
        ensures { (result ≡ written_of self (length out.old)) × (out.new ≡ written_out self out.old) × (written_numbers result ≡ write_given self (length out.old)) }
    {
        house_tests(self.accept(), true, true)?;
        let written = table::write_table(self.table, out)?;
        Ok(written)
    }

    // Each call below is written over a desk that is lent for change, which a refusal leaves as it was. The call of the
    // same name takes the desk and hands it back with the answer.

    // What the steps make of a post: the row stays vacant, or waits with no block moved.
    fn posted(&mut self, guest: usize, outcome: Outcome) -> Option<Registers>
        requires { guest < guests }
        ensures { (self.new ≡ (post_checked self.old guest [] [] outcome []).desk) × (Ok result ≡ (post_checked self.old guest [] [] outcome []).answer) }
    {
        match outcome {
            Outcome::Answered(registers) => Some(registers),
            Outcome::Waits(job) => {
                self.set_stage(guest, Stage::Waiting(Request { job, moved: 0 }));
                None
            }
        }
    }

    fn post_lent(
        &mut self,
        guest: usize,
        registers: Registers,
        arena: &mut [u8],
        store: &[u8],
    ) -> Result<Option<Registers>, HouseNumber>
        ensures { (done self.new result arena.new store.now ≡ post_of self.old guest registers arena.old store.now) × (post_numbers result ≡ post_given self.old guest registers arena.old store.now) }
    {
        self.house(arena.len(), store.len(), guest < GUESTS)?;
        let Stage::Vacant = stage_in(self.rows, guest) else {
            return Err(HouseNumber::NotVacant);
        };
        let outcome = begin_own(self.table, self.placement(guest), registers, guest, arena);
        let answer = self.posted(guest, outcome);
        Ok(answer)
    }

    // A guest's call: answered at once, or the row waits.
    pub fn post(
        self,
        guest: usize,
        registers: Registers,
        arena: &mut [u8],
        store: &[u8],
    ) -> After<Result<Option<Registers>, HouseNumber>>
        ensures { (done result.desk result.answer arena.new store.now ≡ post_of self guest registers arena.old store.now) × (post_numbers result.answer ≡ post_given self guest registers arena.old store.now) }
    {
        let mut desk = self;
        let answer = desk.post_lent(guest, registers, arena, store);
        After { desk, answer }
    }

    // The desk after the blocks of a turn have moved.
    fn served(&mut self, guest: usize, service: Service) -> Served
        requires { guest < guests }
        ensures { (self.new ≡ with_pointer (with_stage self.old guest service.stage) (next guest)) × (result ≡ record { guest = guest; moved = service.moved }) }
    {
        self.set_stage(guest, service.stage);
        self.pointer = (guest + 1) % GUESTS;
        Served {
            guest,
            moved: service.moved,
        }
    }

    fn serve_next(
        &mut self,
        arena: &mut [u8],
        store: &mut [u8],
    ) -> Result<Option<Served>, HouseNumber>
        ensures { ((done self.new result arena.new store.new) ≡ turn_of self.old arena.old store.old) × (turn_numbers result ≡ turn_given self.old arena.old store.old) }
    {
        self.house(arena.len(), store.len(), true)?;
        let Some(guest) = next_waiting(self.rows, self.pointer) else {
            return Ok(None);
        };
        let Stage::Waiting(q) = stage_in(self.rows, guest) else {
            return Ok(None);
        };
        let b = self.table;
        let d = int13::drive_at(b, q.job.drive);
        let service = service_of(q, int13::bads_of(b, q.job.drive));
        transfer(d.first, q, service.moved, guest, arena, store);
        report_ending(q, service.moved, guest, arena);
        Ok(Some(self.served(guest, service)))
    }

    // Serves the first waiting row at or after the pointer.
    pub fn turn(
        self,
        arena: &mut [u8],
        store: &mut [u8],
    ) -> After<Result<Option<Served>, HouseNumber>>
        ensures { (done result.desk result.answer arena.new store.new ≡ turn_of self arena.old store.old) × (turn_numbers result.answer ≡ turn_given self arena.old store.old) }
    {
        let mut desk = self;
        let answer = desk.serve_next(arena, store);
        After { desk, answer }
    }

    // Stays: document 01 has the turn over a lent desk call the one by value and store what it hands back.
    pub fn turn_lent(
        &mut self,
        arena: &mut [u8],
        store: &mut [u8],
    ) -> Result<Option<Served>, HouseNumber>
        ensures { (done self.new result arena.new store.new ≡ turn_of self.old arena.old store.old) × (turn_numbers result ≡ turn_given self.old arena.old store.old) }
    {
        let after = self.turn(arena, store);
        *self = after.desk;
        after.answer
    }

    fn collect_lent(&mut self, guest: usize) -> Result<Registers, HouseNumber>
        ensures { ((arena store : List ℕ) → done self.new result arena store ≡ collect_of self.old guest arena store) × (collect_numbers result ≡ collect_given self.old guest) }
    {
        house_tests(self.accept(), true, guest < GUESTS)?;
        let Stage::Finished(registers) = stage_in(self.rows, guest) else {
            return Err(HouseNumber::NotFinished);
        };
        self.set_stage(guest, Stage::Vacant);
        Ok(registers)
    }

    // Hands the finished registers out and vacates the row.
    pub fn collect(self, guest: usize) -> After<Result<Registers, HouseNumber>>
        ensures { ((arena store : List ℕ) → done result.desk result.answer arena store ≡ collect_of self guest arena store) × (collect_numbers result.answer ≡ collect_given self guest) }
    {
        let mut desk = self;
        let answer = desk.collect_lent(guest);
        After { desk, answer }
    }

    fn withdraw_lent(
        &mut self,
        guest: usize,
        arena: &mut [u8],
        store: &[u8],
    ) -> Result<Registers, HouseNumber>
        ensures { (done self.new result arena.new store.now ≡ withdraw_of self.old guest arena.old store.now) × (withdraw_numbers result ≡ withdraw_given self.old guest arena.old store.now) }
    {
        self.house(arena.len(), store.len(), guest < GUESTS)?;
        let Stage::Waiting(q) = stage_in(self.rows, guest) else {
            return Err(HouseNumber::NotWaiting);
        };
        report_moved(q.job, q.moved, guest, arena);
        self.set_stage(guest, Stage::Vacant);
        Ok(given_back(q))
    }

    // Ends a waiting request: the row is vacant at once, and the registers say what was moved.
    pub fn withdraw(
        self,
        guest: usize,
        arena: &mut [u8],
        store: &[u8],
    ) -> After<Result<Registers, HouseNumber>>
        ensures { (done result.desk result.answer arena.new store.now ≡ withdraw_of self guest arena.old store.now) × (withdraw_numbers result.answer ≡ withdraw_given self guest arena.old store.now) }
    {
        let mut desk = self;
        let answer = desk.withdraw_lent(guest, arena, store);
        After { desk, answer }
    }

    // A guest's tables are placed from an address on.
    fn set_placement(&mut self, guest: usize, address: u64)
        requires { guest < guests }
        ensures { self.new ≡ with_placement self.old guest address }
    {
        self.placed[guest] = true;
        self.addresses[guest] = address;
    }

    fn place_lent(
        &mut self,
        guest: usize,
        address: u64,
        arena: &mut [u8],
        store: &[u8],
    ) -> Result<(), HouseNumber>
        ensures { (done self.new result arena.new store.now ≡ place_of self.old guest address arena.old store.now) × (place_numbers result ≡ place_given self.old guest address arena.old store.now) }
    {
        self.house(arena.len(), store.len(), guest < GUESTS)?;
        if waits(stage_in(self.rows, guest)) {
            return Err(HouseNumber::NotVacant);
        }
        let b = self.table;
        if !place_ok(int13::table_count(b), self.arena / 8, address) {
            return Err(HouseNumber::BadPlace);
        }
        lay_tables(b, guest, address, arena);
        self.set_placement(guest, address);
        Ok(())
    }

    // Places the parameter tables of all drives in a guest's window, from an address on.
    pub fn place(
        self,
        guest: usize,
        address: u64,
        arena: &mut [u8],
        store: &[u8],
    ) -> After<Result<(), HouseNumber>>
        ensures { (done result.desk result.answer arena.new store.now ≡ place_of self guest address arena.old store.now) × (place_numbers result.answer ≡ place_given self guest address arena.old store.now) }
    {
        let mut desk = self;
        let answer = desk.place_lent(guest, address, arena, store);
        After { desk, answer }
    }
}
