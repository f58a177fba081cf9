// The drive table: a cursor that reads one record, a reader that holds its bytes, the whole table, and the writer.
#![tactic(auto)]

ghost use Rattle.std.specs.Prelude.{◌≡◌, ◌+◌, ◌-◌, ◌*◌, ◌^◌, ◌≤◌, ◌<◌, length, get_or, ltb, eqb, not, true, false};
ghost use Rattle.std.proofs.lemmas.List.Edits.{sets};
ghost use Rattle.drive.specs.Drive.{is_drive_kind, drive_length, record_of, fields_ok, in_store};
ghost use Rattle.words.specs.Words.{le, part};
ghost use Rattle.logic.specs.Logic.{pick, both, either};
ghost use Rattle.attached.specs.Parameters.{parameters_kind};
ghost use Rattle.attached.specs.Bad.{bad_kind, list_place, list_length, bad_length, held_of, list_ok};
ghost use Rattle.table.specs.Table.{number, verdict, not_last, bad_field, is_kind, length_ok, header_at, is_unfinished, overlaps_any, refusal, parameters_at, bads_at, Takes, WholeRecord, stepped, step_found, step_at, place_after, Advances, begun, empty_table, end_answer, Reads, bads_record, slot_bytes, records_of, end_length, end_record, drives_of, next_place, longest_table, write_answer, write_out, written_numbers, write_numbers, taken_at, sound_to, blank_to, attached_at, attached_to, listed_at, listed_to, is_sound};

use attached::Bads;
use drive::Drive;

// Document 01's refusals of a table, by their numbers; for bad blocks 9 comes before 5 (document 02, 2026-04). 9 is
// of a record of kind 3 or 4 that does not name the last drive read, or repeats one, and of one of kind 3 behind its
// drive's of kind 4 (document 02, 2026-01 and 2026-04).
#[derive(Clone, Copy, PartialEq, Eq, Debug)]
pub enum Refusal {
    CutOff = 1,
    WrongLength = 2,
    UnknownKind = 3,
    NinthDrive = 4,
    BadField = 5,
    PastStore = 6,
    Overlapping = 7,
    ByteFollows = 8,
    NotLast = 9,
}

impl Refusal {
    // Its number in document 01.
    pub fn number(self) -> u8
        ensures { result ≡ number self }
    {
        self as u8
    }
}

// What a table is refused for, and the place.
#[derive(Clone, Copy, PartialEq, Eq)]
pub struct Refused {
    pub refusal: Refusal,
    pub place: usize,
}

// A write to a buffer shorter than the table.
#[derive(Clone, Copy, PartialEq, Eq, Debug)]
pub struct ShortBuffer;

// The numbers of two refusals, for a reader that is fed fragments.
pub const CUT_OFF: u8 = Refusal::CutOff as u8;

pub const BYTE_FOLLOWS: u8 = Refusal::ByteFollows as u8;

// House number of a write to a buffer shorter than the table.
pub const SHORT_BUFFER: u8 = 19;

// The end record.
const END_KIND: u16 = 0;

pub const END_LENGTH: u16 = 4;

// The length word and the kind.
const HEADER_LENGTH: usize = 4;

// The longest record that there is, of sixteen bad blocks: all that a reader of fragments keeps of one.
pub const LONGEST_RECORD: usize = attached::LONGEST_BAD;

// Enough records: eight drives with a record of bad blocks and one of parameters each, and the end record or one more, which is refused.
const MOST_RECORDS: usize = 25;

// Drives: 0 to 8.
pub const MOST_DRIVES: usize = 8;

// The longest table: eight drives of kind 2 with a record of bad blocks and one of parameters each, and the end record.
pub const LONGEST_TABLE: usize = MOST_DRIVES * LONGEST_SLOT + END_LENGTH as usize;

// The records of a slot at most: its drive's, that of sixteen bad blocks, and that of its parameters.
const LONGEST_SLOT: usize = drive::WIDE_LENGTH as usize
    + attached::LONGEST_BAD
    + attached::PARAMETERS_LENGTH as usize;

// The drives in table order; the first `count` slots are in use. Where a slot has a record of parameters, `present` says so, and its fourteen
// bytes stand from 14 times the slot's number on, as the record has them; else they are zero. Where it has a record of bad blocks, `counts` says
// how many they are, and their numbers stand from 128 times the slot's number on, as the record has them, and zeros behind them; else it is 0.
// Stays: arrays side by side with a count, since `is_sound` and `write_table` answer for any values of them, as a
// count past eight or the parameters of an empty slot, which an array of options could not hold; and there is no heap
// for a list.
#[derive(Clone, Copy)]
pub struct Table {
    pub drives: [Drive; 8],
    pub count: usize,
    pub present: [bool; 8],
    pub parameters: [u8; 112],
    pub counts: [u8; 8],
    pub bad: [u8; 1024],
}

// What one record is: go on at the next place, the end of the table, or refusal number and place.
// Stays: a `Cursor` holds one, which `advance` and `Reader::new` take with any number in it; a `Refusal` would ask
// more of their callers.
#[derive(Clone, Copy)]
pub enum Step {
    Next(usize),
    Done,
    Refused(u8, usize),
}

#[derive(Clone, Copy)]
pub struct Stepped {
    pub step: Step,
    pub table: Table,
}

// Where a reading stands: the place of the next record, what the record before it was, and the drives so far. At the end of the table
// and at a refusal the place stays.
#[derive(Clone, Copy)]
pub struct Cursor {
    pub at: usize,
    pub step: Step,
    pub table: Table,
}

// What a whole table is, with the drives that were taken.
#[derive(Clone, Copy)]
pub struct Reading {
    pub answer: Result<(), Refused>,
    pub table: Table,
}

// ---- a record's header

// Stays: a kind is the word that the record has, a number: `drive` and `attached` tell which are theirs, and an enum
// here would be made of it and, for a drive's length, made into it again. A drive's is tested first: most records are
// drives, and the tests of one kind become one.
fn is_kind(kind: u16) -> bool
    ensures { result ≡ is_kind kind }
{
    drive::is_drive_kind(kind) || kind == END_KIND || is_attached(kind)
}

// The kinds of records that belong to a drive.
fn is_attached(kind: u16) -> bool
    ensures { result ≡ either (eqb kind bad_kind) (eqb kind parameters_kind) }
{
    matches!(kind, attached::BAD_KIND | attached::PARAMETERS_KIND)
}

// The length for the kind.
fn length_ok(kind: u16, size: u16) -> bool
    ensures { result ≡ length_ok kind size }
{
    match kind {
        END_KIND => size == END_LENGTH,
        attached::BAD_KIND => attached::bad_length_ok(size),
        attached::PARAMETERS_KIND => size == attached::PARAMETERS_LENGTH,
        _ => drive::is_drive_kind(kind) && size == drive::length_of(kind),
    }
}

// What the first four bytes of a record and the bytes left say: a whole record of a kind and a length, or its refusal.
#[tactic(auto, unfolding(crate::specs::Table::header_at, crate::specs::Table::header_of))]
fn header_at(t: &[u8], at: usize) -> Result<(u16, usize), Refusal>
    ensures { result ≡ header_at t.now at }
{
    let left = t.len().saturating_sub(at);
    if left < HEADER_LENGTH {
        return Err(Refusal::CutOff);
    }
    let size: u16 = words::get(t, at);
    let kind: u16 = words::get(t, at + 2);
    if !is_kind(kind) {
        return Err(Refusal::UnknownKind);
    }
    if !length_ok(kind, size) {
        return Err(Refusal::WrongLength);
    }
    let whole = size as usize;
    if left < whole {
        return Err(Refusal::CutOff);
    }
    Ok((kind, whole))
}

// The bytes are an unfinished record: cut off, and nothing else is wrong with it so far.
#[tactic(auto, unfolding(crate::specs::Table::is_unfinished))]
pub fn is_unfinished(t: &[u8]) -> bool
    ensures { result ≡ is_unfinished t.now }
{
    header_at(t, 0) == Err(Refusal::CutOff)
}

// ---- a drive among those before it

// d shares a block with one of those drives.
fn overlaps_any(d: &Drive, drives: &[Drive]) -> bool
    ensures { result ≡ overlaps_any (length drives.now) drives.now d.now }
{
    drives.iter().any(|e| drive::overlaps(d, e))
}

// A drive after those of a table is taken, or refused. It is handed over by value and in a call of its own: the
// caller then lays it into its slot as one piece, and not field by field, which is a tenth of a reading.
#[tactic(auto, unfolding(crate::specs::Table::refusal))]
#[inline(never)]
fn refusal_of(b: &Table, d: Drive, store: u64) -> Result<(), Refusal>
    ensures { verdict result ≡ refusal b.now.count b.now.drives d store }
{
    if MOST_DRIVES <= b.count {
        return Err(Refusal::NinthDrive);
    }
    if !drive::fields_ok(d) {
        return Err(Refusal::BadField);
    }
    if !drive::in_store(d, store) {
        return Err(Refusal::PastStore);
    }
    if overlaps_any(&d, &b.drives[..b.count]) {
        return Err(Refusal::Overlapping);
    }
    Ok(())
}

// ---- what belongs to the last drive read

// A record names the last drive read, by its number, and that one has no parameters yet.
fn names_last(b: &Table, number: u16) -> bool
    ensures { result ≡ both (ltb number 8) (both (eqb (number + 1) b.now.count) (not (get_or b.now.present number false))) }
{
    let i = number as usize;
    if MOST_DRIVES <= i {
        return false;
    }
    logic::and(i + 1 == b.count, !b.present[i])
}

// The fourteen bytes of a slot among those of all.
fn bytes_at(bytes: &[u8], i: usize) -> [u8; 14]
    requires { (length bytes.now ≡ 112) × (i < 8) }
    ensures { result ≡ part 14 bytes.now (14 * i) }
{
    words::load(bytes, attached::GIVEN_LENGTH * i)
}

// The fourteen bytes of a slot, one of the eight.
pub fn parameters_at(b: Table, i: usize) -> [u8; 14]
    requires { i < 8 }
    ensures { result ≡ parameters_at b i }
{
    // a reference into the table would copy all of it
    let bytes = b.parameters;
    bytes_at(&bytes, i)
}

// The bad blocks of a slot, one of the eight, from a table that is lent.
fn bads_in_slot(b: &Table, i: usize) -> Bads
    requires { i < 8 }
    ensures { result ≡ bads_at b.now i }
{
    Bads {
        count: b.counts[i],
        list: words::load(&b.bad, attached::LIST_LENGTH * i),
    }
}

// The bad blocks of a slot, one of the eight.
pub fn bads_at(b: Table, i: usize) -> Bads
    requires { i < 8 }
    ensures { result ≡ bads_at b i }
{
    // a reference into the table would copy all of it
    let counts = b.counts;
    let bad = b.bad;
    Bads {
        count: counts[i],
        list: words::load(&bad, attached::LIST_LENGTH * i),
    }
}

// A list for the last drive read, which has so many bad blocks already and so many blocks, is taken, or refused.
fn list_refusal(count: u8, l: Bads, blocks: u64) -> Result<(), Refusal>
    ensures { verdict result ≡ pick (eqb count 0) (pick (list_ok l blocks) 0 bad_field) not_last }
{
    if count != 0 {
        return Err(Refusal::NotLast);
    }
    if !attached::list_ok(l, blocks) {
        return Err(Refusal::BadField);
    }
    Ok(())
}

// ---- a record among those before it. Each is laid into the table in place: a copy of a table would be most of what
// a record costs. And the loop of a reading makes no call for each.

// A drive's record is taken, or refused.
#[inline(always)]
fn take_drive(b: &mut Table, r: &[u8], store: u64) -> Result<(), Refusal>
    requires { (length r.now ≡ drive_length (le 2 r.now 2)) × (is_drive_kind (le 2 r.now 2) ≡ true) }
    ensures { Takes (le 2 r.now 2) r.now b.old store result b.new }
{
    let d = drive::decode(r);
    refusal_of(b, d, store)?;
    b.drives[b.count] = d;
    b.count += 1;
    Ok(())
}

// Likewise one of bad blocks.
fn take_bads(b: &mut Table, r: &[u8], store: u64) -> Result<(), Refusal>
    requires { (list_place ≤ length r.now) × (length r.now ≤ list_place + list_length) }
    ensures { Takes bad_kind r.now b.old store result b.new }
{
    let number = attached::number_in(r);
    if !names_last(b, number) {
        return Err(Refusal::NotLast);
    }
    let i = number as usize;
    let l = attached::bads_in(r);
    list_refusal(b.counts[i], l, b.drives[i].blocks)?;
    b.counts[i] = l.count;
    words::store(&mut b.bad, attached::LIST_LENGTH * i, &l.list);
    Ok(())
}

// Likewise one of parameters.
fn take_parameters(b: &mut Table, r: &[u8], store: u64) -> Result<(), Refusal>
    requires { length r.now ≡ 20 }
    ensures { Takes parameters_kind r.now b.old store result b.new }
{
    let number = attached::number_in(r);
    if !names_last(b, number) {
        return Err(Refusal::NotLast);
    }
    let i = number as usize;
    b.present[i] = true;
    words::store(
        &mut b.parameters,
        attached::GIVEN_LENGTH * i,
        &attached::parameters_in(r),
    );
    Ok(())
}

// The end record, whose four bytes end at a place of n.
#[tactic(auto, unfolding(crate::specs::Table::end_answer))]
fn end_answer(next: usize, n: usize) -> Result<(), Refused>
    ensures { result ≡ end_answer next n }
{
    if next < n {
        return Err(Refused {
            refusal: Refusal::ByteFollows,
            place: next,
        });
    }
    Ok(())
}

// A record of a kind is taken, or refused.
#[inline(always)]
fn take_record(b: &mut Table, kind: u16, r: &[u8], store: u64) -> Result<(), Refusal>
    requires { WholeRecord kind r.now }
    ensures { Takes kind r.now b.old store result b.new }
{
    match kind {
        attached::BAD_KIND => take_bads(b, r, store),
        attached::PARAMETERS_KIND => take_parameters(b, r, store),
        _ => take_drive(b, r, store),
    }
}

// The record at a place is taken: the place of the next one, or None where it ends the table; or it is refused.
#[inline(always)]
fn read_record(b: &mut Table, t: &[u8], at: usize, store: u64) -> Result<Option<usize>, Refused>
    ensures { stepped (step_found result) b.new ≡ step_at t.now at b.old store }
{
    let (kind, size) = header_at(t, at).map_err(|refusal| Refused { refusal, place: at })?;
    let next = at + size;
    if kind == END_KIND {
        end_answer(next, t.len())?;
        return Ok(None);
    }
    take_record(b, kind, &t[at..next], store).map_err(|refusal| Refused { refusal, place: at })?;
    Ok(Some(next))
}

// ---- the cursor

// By number and place.
impl From<Result<Option<usize>, Refused>> for Step {
    ghost from_gives = { λ found step. step ≡ step_found found };

    fn from(found: Result<Option<usize>, Refused>) -> Step {
        match found {
            Ok(Some(next)) => Step::Next(next),
            Ok(None) => Step::Done,
            Err(r) => Step::Refused(r.refusal.number(), r.place),
        }
    }
}

// The record at a place, given the drives before it and the store's number of blocks.
fn step_at(t: &[u8], at: usize, b: Table, store: u64) -> Stepped
    ensures { result ≡ step_at t.now at b store }
{
    let mut table = b;
    let step = Step::from(read_record(&mut table, t, at, store));
    Stepped { step, table }
}

// The place after a record that began at `at`.
fn place_after(s: Step, at: usize) -> usize
    ensures { result ≡ place_after s at }
{
    match s {
        Step::Next(next) => next,
        Step::Done | Step::Refused(_, _) => at,
    }
}

// The record at the cursor's place, and on to the next.
#[inline(always)]
pub fn advance(t: &[u8], c: Cursor, store: u64) -> Cursor
    ensures { Advances t.now c store result }
{
    let Stepped { step, table } = step_at(t, c.at, c.table, store);
    Cursor {
        at: place_after(step, c.at),
        step,
        table,
    }
}

// ---- the reader that holds its bytes

// The bytes of a table, and where their reading stands.
#[derive(Clone, Copy)]
pub struct Reader<'a> {
    pub bytes: &'a [u8],
    pub cursor: Cursor,
}

impl<'a> Reader<'a> {
    // The reader of those bytes at a cursor.
    pub fn new(bytes: &'a [u8], cursor: Cursor) -> Self
        ensures { (result.bytes ≡ bytes.entry) × (result.cursor ≡ cursor) }
    {
        Reader { bytes, cursor }
    }

    // The reader, handed back at the next place with what it found.
    pub fn step(self, store: u64) -> Self
        ensures { (result.bytes ≡ self.entry.bytes) × Advances self.entry.bytes.now self.entry.cursor store result.cursor }
    {
        Reader {
            cursor: advance(self.bytes, self.cursor, store),
            ..self
        }
    }
}

// One record on, by a reader.
pub fn record_at(t: &[u8], c: Cursor, store: u64) -> Cursor
    ensures { Advances t.now c store result }
{
    Reader::new(t, c).step(store).cursor
}

// ---- the whole table

// The table with no drive.
pub fn empty_table() -> Table
    ensures { result ≡ empty_table }
{
    Table {
        drives: [Drive::default(); 8],
        count: 0,
        present: [false; 8],
        parameters: [0; 112],
        counts: [0; 8],
        bad: [0; 1024],
    }
}

// Before the first record.
pub fn start() -> Cursor
    ensures { result ≡ begun }
{
    Cursor {
        at: 0,
        step: Step::Next(0),
        table: empty_table(),
    }
}

// All drives of a table, for a store of that many blocks.
pub fn read_table(t: &[u8], store: u64) -> Reading
    ensures { Reads t.now store result }
{
    let mut table = empty_table();
    let mut at = 0;
    for _ in 0..MOST_RECORDS {
        match read_record(&mut table, t, at, store) {
            Ok(Some(next)) => at = next,
            Ok(None) => return Reading {
                answer: Ok(()),
                table,
            },
            Err(refused) => return Reading {
                answer: Err(refused),
                table,
            },
        }
    }
    let answer = Err(Refused {
        refusal: Refusal::NinthDrive,
        place: at,
    });
    Reading { answer, table }
}

// ---- the table written back

// The length of the record of n bad blocks; with none there is no record.
fn bads_length(n: u8) -> usize
    ensures { (result ≡ pick (eqb n 0) 0 (bad_length (held_of n))) × (result ≤ 134) }
{
    if n == 0 {
        return 0;
    }
    attached::bad_length(n)
}

// The length of the records of a slot behind its drive's, by its number of bad blocks and whether it has parameters.
pub fn attached_length(n: u8, present: bool) -> usize
    ensures { (result ≡ pick (eqb n 0) 0 (bad_length (held_of n)) + pick present 20 0) × (result ≤ 154) }
{
    let bads = bads_length(n);
    if present {
        return bads + attached::PARAMETERS_LENGTH as usize;
    }
    bads
}

// The length of the records of the first n slots. `write_table` asks for at most eight.
#[tactic(auto, unfolding(crate::specs::Table::records_of))]
fn records_length(b: &Table, n: usize) -> usize
    requires { n ≤ 8 }
    ensures { (result ≡ length (records_of n b.now)) × (result ≤ 230 * n) }
{
    let mut total = 0;
    for i in 0..n {
        total += drive::record_length(b.drives[i]) + attached_length(b.counts[i], b.present[i]);
    }
    total
}

// Where the next record begins, behind those of a table's drives.
pub fn next_place(b: Table) -> usize
    ensures { (result ≡ next_place b) × (result + end_length ≤ longest_table) }
{
    records_length(&b, b.count.min(MOST_DRIVES))
}

// The record of bad blocks of slot i, where it has any, laid from a place on; the place behind it.
fn put_bads(l: Bads, i: usize, out: &mut [u8], at: usize) -> usize
    requires { (length l.list ≡ 128) × (i < 8) × (at + length (bads_record i l) ≤ length out.old) }
    ensures { (out.new ≡ sets out.old at (bads_record i l)) × (result ≡ at + length (bads_record i l)) }
{
    if l.count == 0 {
        return at;
    }
    attached::put_bads(l, i as u16, out, at);
    at + attached::bad_length(l.count)
}

// The records of slot i, which has that drive, those bad blocks and, where `present` says so, its bytes of all, laid from a place on; the place
// behind them.
pub fn put_slot(
    d: Drive,
    l: Bads,
    present: bool,
    i: usize,
    bytes: &[u8],
    out: &mut [u8],
    at: usize,
) -> usize
    requires { (length l.list ≡ 128) × (length bytes.now ≡ 112) × (i < 8) × (at + length (slot_bytes d l present i (part 14 bytes.now (14 * i))) ≤ length out.old) }
    ensures { (out.new ≡ sets out.old at (slot_bytes d l present i (part 14 bytes.now (14 * i)))) × (result ≡ at + length (slot_bytes d l present i (part 14 bytes.now (14 * i)))) }
{
    drive::put_record(d, out, at);
    let behind = put_bads(l, i, out, at + drive::record_length(d));
    if !present {
        return behind;
    }
    let given = attached::encode(i as u16, bytes_at(bytes, i));
    words::store(out, behind, &given);
    behind + attached::PARAMETERS_LENGTH as usize
}

// The records of the first n slots, laid at the start of a buffer that `write_table` has found long enough.
#[tactic(auto, unfolding(crate::specs::Table::records_of))]
fn put_records(b: &Table, n: usize, out: &mut [u8])
    requires { (n ≤ 8) × (length (records_of n b.now) ≤ length out.old) }
    ensures { out.new ≡ sets out.old 0 (records_of n b.now) }
{
    let mut at = 0;
    for i in 0..n {
        at = put_slot(
            b.drives[i],
            bads_in_slot(b, i),
            b.present[i],
            i,
            &b.parameters,
            out,
            at,
        );
    }
}

// The end record, laid at a place; `write_table` has found room for it.
pub fn put_end(out: &mut [u8], at: usize)
    requires { at + 4 ≤ length out.old }
    ensures { out.new ≡ sets out.old at end_record }
{
    words::put(out, at, END_LENGTH);
    words::put(out, at + 2, END_KIND);
}

// Lays the table's drives out as a table again.
pub fn write_table(b: Table, out: &mut [u8]) -> Result<usize, ShortBuffer>
    ensures { (result ≡ write_answer b (length out.old)) × (out.new ≡ write_out b out.old) × (written_numbers result ≡ write_numbers b (length out.old)) }
{
    let n = b.count.min(MOST_DRIVES);
    let end = records_length(&b, n);
    let whole = end + END_LENGTH as usize;
    if out.len() < whole {
        return Err(ShortBuffer);
    }
    put_records(&b, n, out);
    put_end(out, end);
    Ok(whole)
}

// ---- a table that obeys the rules

// How many drives a table holds.
pub fn drive_count(b: Table) -> usize
    ensures { result ≡ length (drives_of b) }
{
    b.count.min(MOST_DRIVES)
}

// The fields obey their rules, and the drive ends inside the store. Made a part of its callers, as `drive::fields_ok`.
#[inline(always)]
pub fn obeys(d: Drive, store: u64) -> bool
    ensures { result ≡ both (fields_ok d) (in_store d store) }
{
    logic::and(drive::fields_ok(d), drive::in_store(d, store))
}

// The drive in slot i is taken after those before it.
fn taken_at(drives: &[Drive], i: usize, store: u64) -> bool
    requires { (length drives.now ≤ 8) × (i < length drives.now) }
    ensures { result ≡ taken_at drives.now store i }
{
    obeys(drives[i], store) && !overlaps_any(&drives[i], &drives[..i])
}

// Each of those drives is taken after those before it. `is_sound` asks for at most eight.
fn sound_to(drives: &[Drive], store: u64) -> bool
    requires { length drives.now ≤ 8 }
    ensures { result ≡ sound_to (length drives.now) drives.now store }
{
    (0..drives.len()).all(|i| taken_at(drives, i, store))
}

// Slots past the count are blank. `is_sound` asks where it is at most eight.
fn blank_past(b: &Table) -> bool
    requires { b.now.count ≤ 8 }
    ensures { result ≡ blank_to 8 b.now.drives b.now.count }
{
    (b.count..MOST_DRIVES).all(|i| drive::is_blank(b.drives[i]))
}

// A slot has parameters only if it has a drive, and zeros for them if it has none.
fn attached_at(b: &Table, i: usize) -> bool
    requires { i < 8 }
    ensures { result ≡ attached_at b.now i }
{
    if b.present[i] {
        i < b.count
    } else {
        bytes_at(&b.parameters, i) == [0; 14]
    }
}

// All slots have their parameters so.
fn attached_to(b: &Table) -> bool
    ensures { result ≡ attached_to 8 b.now }
{
    (0..MOST_DRIVES).all(|i| attached_at(b, i))
}

// Bad blocks of its drive in a slot, in ascending order, and zeros behind them.
fn listed_at(b: &Table, i: usize) -> bool
    requires { i < 8 }
    ensures { result ≡ listed_at b.now i }
{
    attached::bads_ok(bads_in_slot(b, i), b.drives[i].blocks)
}

// And their bad blocks.
fn listed_to(b: &Table) -> bool
    ensures { result ≡ listed_to 8 b.now }
{
    (0..MOST_DRIVES).all(|i| listed_at(b, i))
}

// At most eight drives, each of which the reader would take after those before it, blank slots past them, and parameters and bad blocks of
// drives only.
#[tactic(auto, unfolding(crate::specs::Table::is_sound))]
pub fn is_sound(b: Table, store: u64) -> bool
    ensures { result ≡ is_sound b store }
{
    if MOST_DRIVES < b.count {
        return false;
    }
    sound_to(&b.drives[..b.count], store) && blank_past(&b) && attached_to(&b) && listed_to(&b)
}
