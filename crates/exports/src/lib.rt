// The calls for C, which include/edd_desk.h declares. Each makes sure that its block is that of an acceptable desk, reads the row or the
// table that it needs, does what the desk's method of the same name does, by the same functions, and writes the words that changed. The calls
// of the reader of fragments read the whole reader from its block and lay it out again. The converters and the
// calls on numbers are lent no block. Nothing is kept between calls.
// Stays: each call returns a number and takes pointers to registers and values one by one, as include/edd_desk.h
// declares them.
#![tactic(auto)]

ghost use Rattle.std.specs.Prelude.{◌≡◌, List, [], ◌∷◌, ◌+◌, ◌<◌, ltb, eqb, length};
ghost use Rattle.logic.specs.Logic.{pick, both};
ghost use Rattle.memory.specs.Window.{guests};
ghost use Rattle.int13.specs.Steps.{fed, begin};
ghost use Rattle.desk.specs.Parts.{own_window, with_own, next, placement_at};
ghost use Rattle.desk.specs.Acceptable.{accept};
ghost use Rattle.desk.specs.Calls.{number, house_answer};
ghost use Rattle.int13.specs.Answers.{register_numbers};
ghost use Rattle.table.specs.Table.{written_numbers, write_answer, write_out};
ghost use Rattle.feed.specs.Feed.{answer_of, fed_numbers};
ghost use Rattle.reader.specs.Reader.{reader_size};
ghost use Rattle.image.specs.Image.{desk_size, read_desk, desk_of, put_stage, put_pointer};
ghost use Rattle.exports.specs.Exports.{version, effect, over, open_call, write_call, post_call, turn_call, collect_call, withdraw_call, place_call, reader_open_call, reader_feed_call, reader_end_call, reader_write_call, window_call, block_call, address_call, up_call, down_call};

use chs::{Address, Geometry, Outside};
use convert::Unconvertible;
use desk::{Desk, HouseNumber, Request, Stage};
use feed::{Fed, Feed};
use int13::{Outcome, Registers};
use table::{ShortBuffer, Table};

// There is nothing to hand out yet.
const NOTHING_YET: u32 = 256;

// A buffer shorter than the table; a CHS address or a block outside the geometry; a record that cannot be converted.
// Stays: numbers, which the calls give.
const SHORT_BUFFER: u32 = table::SHORT_BUFFER as u32;

const OUTSIDE: u32 = chs::OUTSIDE as u32;

const CONVERSION: u32 = convert::CONVERSION as u32;

// The version of the interface and of the block's form: 1 is the base, and each change request that a program can see adds 1.
const VERSION: u32 = 6;

// Bytes of a block of the store.
const BLOCK_LENGTH: u64 = memory::BLOCK_LENGTH as u64;

// Guests are 0 to 7.
const GUESTS: u64 = memory::GUESTS as u64;

// The number that the house gives for a refusal.
fn numbered(e: HouseNumber) -> u32
    ensures { result ≡ number e }
{
    e.number() as u32
}

#[unsafe(no_mangle)]
pub extern "C" fn edd_version() -> u32
    ensures { result ≡ version }
{
    VERSION
}

#[unsafe(no_mangle)]
pub extern "C" fn edd_desk_size() -> u64
    ensures { result ≡ desk_size }
{
    image::SIZE as u64
}

#[unsafe(no_mangle)]
pub extern "C" fn edd_open(
    desk: &mut [u8],
    table: &[u8],
    arena: u64,
    store: u64,
    place: &mut u64,
) -> u32
    ensures { effect (result ∷ place.new ∷ []) (desk.new ∷ []) ≡ open_call desk.old table.now arena store place.old }
{
    if desk.len() != image::SIZE {
        return numbered(HouseNumber::NotAcceptable);
    }
    let opening = Desk::open(table, arena, store);
    match opening.answer {
        Ok(()) => {
            image::encode(opening.desk, desk);
            0
        }
        Err(e) => {
            *place = e.place as u64;
            e.refusal.number() as u32
        }
    }
}

#[unsafe(no_mangle)]
pub extern "C" fn edd_write(desk: &[u8], out: &mut [u8], written: &mut u64) -> u32
    ensures { effect (result ∷ written.new ∷ []) (out.new ∷ []) ≡ write_call desk.now out.old written.old }
{
    let Some(block) = desk.as_array() else {
        return numbered(HouseNumber::NotAcceptable);
    };
    if let Err(e) = desk::house_tests(image::acceptable(block), true, true) {
        return numbered(e);
    }
    match image::write_table(block, out) {
        Ok(n) => {
            *written = n as u64;
            0
        }
        Err(ShortBuffer) => SHORT_BUFFER,
    }
}

// A table's drives written into a buffer.
fn write_out(b: Table, out: &mut [u8], written: &mut u64) -> u32
    ensures { (result ∷ written.new ∷ [] ≡ over (written_numbers (write_answer b (length out.old))) (0 ∷ written.old ∷ [])) × (out.new ≡ write_out b out.old) }
{
    match table::write_table(b, out) {
        Ok(n) => {
            *written = n as u64;
            0
        }
        Err(ShortBuffer) => SHORT_BUFFER,
    }
}

// The tests that a call passes before it looks at a row.
fn tests_at(
    block: &[u8; image::SIZE],
    arena: usize,
    store: usize,
    guest: u64,
) -> Result<(), HouseNumber>
    ensures { result ≡ house_answer (accept (desk_of block.now)) (both (eqb arena (desk_of block.now).arena) (eqb store (desk_of block.now).store)) (ltb guest guests) }
{
    if !image::acceptable(block) {
        return desk::house_tests(false, false, false);
    }
    desk::house_tests(true, image::is_lent(block, arena, store), guest < GUESTS)
}

// The steps of a post over the one drive that DL names.
fn steps_at(block: &[u8; image::SIZE], guest: usize, r: Registers, window: &mut [u8]) -> Outcome
    requires { guest < guests }
    ensures { (result ≡ (begin (fed (read_desk block.now).table (placement_at (read_desk block.now) guest)) r window.old).outcome) × (window.new ≡ (begin (fed (read_desk block.now).table (placement_at (read_desk block.now) guest)) r window.old).window) }
{
    let n = int13::dl(r);
    let drive = image::drive_of(block, n);
    let count = image::count_of(block);
    let bads = image::bads_of(block, n);
    let shown = image::shown_of(block, guest, n);
    int13::steps(drive, count, bads, shown, r, window)
}

// The same in the guest's window of the arena.
fn begun(block: &[u8; image::SIZE], guest: usize, r: Registers, arena: &mut [u8]) -> Outcome
    requires { guest < guests }
    ensures { (result ≡ (begin (fed (read_desk block.now).table (placement_at (read_desk block.now) guest)) r (own_window arena.old guest)).outcome) × (arena.new ≡ with_own arena.old guest (begin (fed (read_desk block.now).table (placement_at (read_desk block.now) guest)) r (own_window arena.old guest)).window) }
{
    let m = memory::window_length(arena.len());
    let span = memory::span_of(arena.len(), guest, m);
    steps_at(block, guest, r, &mut arena[span.start..span.end])
}

#[unsafe(no_mangle)]
pub extern "C" fn edd_post(
    desk: &mut [u8],
    arena: &mut [u8],
    store: &[u8],
    guest: u64,
    ax: &mut u16,
    bx: &mut u16,
    cx: &mut u16,
    dx: &mut u16,
    ds: u16,
    si: u16,
    es: u16,
    carry: &mut u16,
) -> u32
    ensures { effect (result ∷ ax.new ∷ bx.new ∷ cx.new ∷ dx.new ∷ carry.new ∷ []) (desk.new ∷ arena.new ∷ []) ≡ post_call desk.old arena.old store.now guest ax.old bx.old cx.old dx.old ds si es carry.old }
{
    let registers = Registers {
        ax: *ax,
        bx: *bx,
        cx: *cx,
        dx: *dx,
        ds,
        si,
        es,
        carry: false,
    };
    let Some(block) = desk.as_mut_array() else {
        return numbered(HouseNumber::NotAcceptable);
    };
    if let Err(e) = tests_at(block, arena.len(), store.len(), guest) {
        return numbered(e);
    }
    let g = guest as usize;
    let Stage::Vacant = image::stage_of(block, g) else {
        return numbered(HouseNumber::NotVacant);
    };
    match begun(block, g, registers, arena) {
        Outcome::Answered(r) => {
            *ax = r.ax;
            *bx = r.bx;
            *cx = r.cx;
            *dx = r.dx;
            *carry = u16::from(r.carry);
            0
        }
        Outcome::Waits(job) => {
            image::put_stage(block, g, Stage::Waiting(Request { job, moved: 0 }));
            NOTHING_YET
        }
    }
}

// The served row and the pointer behind it.
fn put_served(block: &mut [u8; image::SIZE], guest: usize, stage: Stage)
    requires { guest < guests }
    ensures { block.new ≡ put_pointer (put_stage block.old guest stage) (next guest) }
{
    image::put_stage(block, guest, stage);
    image::put_pointer(block, (guest + 1) % memory::GUESTS);
}

#[unsafe(no_mangle)]
pub extern "C" fn edd_turn(
    desk: &mut [u8],
    arena: &mut [u8],
    store: &mut [u8],
    guest: &mut u64,
    moved: &mut u64,
) -> u32
    ensures { effect (result ∷ guest.new ∷ moved.new ∷ []) (desk.new ∷ arena.new ∷ store.new ∷ []) ≡ turn_call desk.old arena.old store.old guest.old moved.old }
{
    let Some(block) = desk.as_mut_array() else {
        return numbered(HouseNumber::NotAcceptable);
    };
    // A turn names no guest: 0 passes that test.
    if let Err(e) = tests_at(block, arena.len(), store.len(), 0) {
        return numbered(e);
    }
    let Some(g) = image::next_of(block) else {
        return NOTHING_YET;
    };
    let Stage::Waiting(q) = image::stage_of(block, g) else {
        return NOTHING_YET;
    };
    let d = image::drive_named(block, q.job.drive);
    let service = desk::service_of(q, image::bads_of(block, q.job.drive));
    desk::transfer(d.first, q, service.moved, g, arena, store);
    desk::report_ending(q, service.moved, g, arena);
    put_served(block, g, service.stage);
    *guest = g as u64;
    *moved = service.moved;
    0
}

// The eight registers behind their pointers.
fn hand(
    r: Registers,
    ax: &mut u16,
    bx: &mut u16,
    cx: &mut u16,
    dx: &mut u16,
    ds: &mut u16,
    si: &mut u16,
    es: &mut u16,
    carry: &mut u16,
)
    ensures { ax.new ∷ bx.new ∷ cx.new ∷ dx.new ∷ ds.new ∷ si.new ∷ es.new ∷ carry.new ∷ [] ≡ register_numbers r }
{
    *ax = r.ax;
    *bx = r.bx;
    *cx = r.cx;
    *dx = r.dx;
    *ds = r.ds;
    *si = r.si;
    *es = r.es;
    *carry = u16::from(r.carry);
}

#[unsafe(no_mangle)]
pub extern "C" fn edd_collect(
    desk: &mut [u8],
    guest: u64,
    ax: &mut u16,
    bx: &mut u16,
    cx: &mut u16,
    dx: &mut u16,
    ds: &mut u16,
    si: &mut u16,
    es: &mut u16,
    carry: &mut u16,
) -> u32
    ensures { effect (result ∷ ax.new ∷ bx.new ∷ cx.new ∷ dx.new ∷ ds.new ∷ si.new ∷ es.new ∷ carry.new ∷ []) (desk.new ∷ []) ≡ collect_call desk.old guest (ax.old ∷ bx.old ∷ cx.old ∷ dx.old ∷ ds.old ∷ si.old ∷ es.old ∷ carry.old ∷ []) }
{
    let Some(block) = desk.as_mut_array() else {
        return numbered(HouseNumber::NotAcceptable);
    };
    if let Err(e) = desk::house_tests(image::acceptable(block), true, guest < GUESTS) {
        return numbered(e);
    }
    let g = guest as usize;
    let Stage::Finished(r) = image::stage_of(block, g) else {
        return numbered(HouseNumber::NotFinished);
    };
    image::put_stage(block, g, Stage::Vacant);
    hand(r, ax, bx, cx, dx, ds, si, es, carry);
    0
}

#[unsafe(no_mangle)]
pub extern "C" fn edd_withdraw(
    desk: &mut [u8],
    arena: &mut [u8],
    store: &[u8],
    guest: u64,
    ax: &mut u16,
    bx: &mut u16,
    cx: &mut u16,
    dx: &mut u16,
    ds: &mut u16,
    si: &mut u16,
    es: &mut u16,
    carry: &mut u16,
) -> u32
    ensures { effect (result ∷ ax.new ∷ bx.new ∷ cx.new ∷ dx.new ∷ ds.new ∷ si.new ∷ es.new ∷ carry.new ∷ []) (desk.new ∷ arena.new ∷ []) ≡ withdraw_call desk.old arena.old store.now guest (ax.old ∷ bx.old ∷ cx.old ∷ dx.old ∷ ds.old ∷ si.old ∷ es.old ∷ carry.old ∷ []) }
{
    let Some(block) = desk.as_mut_array() else {
        return numbered(HouseNumber::NotAcceptable);
    };
    if let Err(e) = tests_at(block, arena.len(), store.len(), guest) {
        return numbered(e);
    }
    let g = guest as usize;
    let Stage::Waiting(q) = image::stage_of(block, g) else {
        return numbered(HouseNumber::NotWaiting);
    };
    desk::report_moved(q.job, q.moved, g, arena);
    image::put_stage(block, g, Stage::Vacant);
    hand(desk::given_back(q), ax, bx, cx, dx, ds, si, es, carry);
    0
}

#[unsafe(no_mangle)]
pub extern "C" fn edd_place(
    desk: &mut [u8],
    arena: &mut [u8],
    store: &[u8],
    guest: u64,
    address: u64,
) -> u32
    ensures { effect (result ∷ []) (desk.new ∷ arena.new ∷ []) ≡ place_call desk.old arena.old store.now guest address }
{
    let Some(block) = desk.as_mut_array() else {
        return numbered(HouseNumber::NotAcceptable);
    };
    if let Err(e) = tests_at(block, arena.len(), store.len(), guest) {
        return numbered(e);
    }
    let g = guest as usize;
    if image::is_waiting(block, g) {
        return numbered(HouseNumber::NotVacant);
    }
    let m = memory::window_length(arena.len()) as u64;
    if !desk::place_ok(image::table_count(block), m, address) {
        return numbered(HouseNumber::BadPlace);
    }
    desk::lay_tables(image::table_of(block), g, address, arena);
    image::put_placement(block, g, address);
    0
}

// ---- the reader of fragments

#[unsafe(no_mangle)]
pub extern "C" fn edd_reader_size() -> u64
    ensures { result ≡ reader_size }
{
    reader::SIZE as u64
}

#[unsafe(no_mangle)]
pub extern "C" fn edd_reader_open(reader: &mut [u8], store: u64) -> u32
    ensures { effect (result ∷ []) (reader.new ∷ []) ≡ reader_open_call reader.old store }
{
    if reader.len() != reader::SIZE {
        return numbered(HouseNumber::NotAcceptable);
    }
    let f = Feed::open(store / BLOCK_LENGTH);
    reader::encode(f, reader);
    0
}

// The number of what a reader says, and its place where it is refused.
fn say(f: Feed, place: &mut u64) -> u32
    ensures { result ∷ place.new ∷ [] ≡ over (fed_numbers (answer_of f)) (0 ∷ place.old ∷ []) }
{
    match f.answer() {
        Fed::More => NOTHING_YET,
        Fed::Accepted => 0,
        Fed::Refused(n, at) => {
            *place = at as u64;
            n as u32
        }
    }
}

#[unsafe(no_mangle)]
pub extern "C" fn edd_reader_feed(reader: &mut [u8], bytes: &[u8], place: &mut u64) -> u32
    ensures { effect (result ∷ place.new ∷ []) (reader.new ∷ []) ≡ reader_feed_call reader.old bytes.now place.old }
{
    if !reader::acceptable(reader) {
        return numbered(HouseNumber::NotAcceptable);
    }
    let f = reader::decode(reader).take(bytes);
    reader::encode(f, reader);
    say(f, place)
}

#[unsafe(no_mangle)]
pub extern "C" fn edd_reader_end(reader: &mut [u8], place: &mut u64) -> u32
    ensures { effect (result ∷ place.new ∷ []) (reader.new ∷ []) ≡ reader_end_call reader.old place.old }
{
    if !reader::acceptable(reader) {
        return numbered(HouseNumber::NotAcceptable);
    }
    let f = reader::decode(reader).end();
    reader::encode(f, reader);
    say(f, place)
}

#[unsafe(no_mangle)]
pub extern "C" fn edd_reader_write(reader: &[u8], out: &mut [u8], written: &mut u64) -> u32
    ensures { effect (result ∷ written.new ∷ []) (out.new ∷ []) ≡ reader_write_call reader.now out.old written.old }
{
    if !reader::acceptable(reader) {
        return numbered(HouseNumber::NotAcceptable);
    }
    let f = reader::decode(reader);
    match f.answer() {
        Fed::More => NOTHING_YET,
        Fed::Refused(n, _) => n as u32,
        Fed::Accepted => write_out(f.table, out, written),
    }
}

// ---- calls without a desk

#[unsafe(no_mangle)]
pub extern "C" fn edd_window(arena: u64, guest: u64, start: &mut u64, length: &mut u64) -> u32
    ensures { effect (result ∷ start.new ∷ length.new ∷ []) [] ≡ window_call arena guest }
{
    let n = arena as usize;
    let span = memory::span_of(n, guest as usize, memory::window_length(n));
    *start = span.start as u64;
    *length = (span.end - span.start) as u64;
    0
}

#[unsafe(no_mangle)]
pub extern "C" fn edd_block(
    cylinders: u32,
    heads: u32,
    sectors: u32,
    cylinder: u32,
    head: u32,
    sector: u32,
    block: &mut u32,
) -> u32
    ensures { effect (result ∷ block.new ∷ []) [] ≡ block_call (record { c = cylinders; h = heads; s = sectors }) (record { cylinder = cylinder; head = head; sector = sector }) block.old }
{
    let g = Geometry {
        c: cylinders,
        h: heads,
        s: sectors,
    };
    let a = Address {
        cylinder,
        head,
        sector,
    };
    match chs::block_of(g, a) {
        Ok(n) => {
            *block = n;
            0
        }
        Err(Outside) => OUTSIDE,
    }
}

#[unsafe(no_mangle)]
pub extern "C" fn edd_address(
    cylinders: u32,
    heads: u32,
    sectors: u32,
    block: u64,
    cylinder: &mut u32,
    head: &mut u32,
    sector: &mut u32,
) -> u32
    ensures { effect (result ∷ cylinder.new ∷ head.new ∷ sector.new ∷ []) [] ≡ address_call (record { c = cylinders; h = heads; s = sectors }) block cylinder.old head.old sector.old }
{
    let g = Geometry {
        c: cylinders,
        h: heads,
        s: sectors,
    };
    match chs::address_of(g, block) {
        Ok(a) => {
            *cylinder = a.cylinder;
            *head = a.head;
            *sector = a.sector;
            0
        }
        Err(Outside) => OUTSIDE,
    }
}

#[unsafe(no_mangle)]
pub extern "C" fn edd_convert_up(bytes: &[u8], out: &mut [u8]) -> u32
    ensures { effect (result ∷ []) (out.new ∷ []) ≡ up_call bytes.now out.old }
{
    match convert::up(bytes, out) {
        Ok(()) => 0,
        Err(Unconvertible) => CONVERSION,
    }
}

#[unsafe(no_mangle)]
pub extern "C" fn edd_convert_down(bytes: &[u8], out: &mut [u8]) -> u32
    ensures { effect (result ∷ []) (out.new ∷ []) ≡ down_call bytes.now out.old }
{
    match convert::down(bytes, out) {
        Ok(()) => 0,
        Err(Unconvertible) => CONVERSION,
    }
}
