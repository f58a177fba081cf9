// The reader block: a reader of fragments laid out in bytes that the host owns, from one call to the next. A call reads the block, and makes
// sure that what it read makes the same bytes again.
#![tactic(auto)]

ghost use Rattle.std.specs.Prelude.{◌≡◌, length, Some, None};
ghost use Rattle.std.proofs.lemmas.List.Edits.{sets};
ghost use Rattle.logic.specs.Logic.{pick};
ghost use Rattle.words.specs.Words.{le, part};
ghost use Rattle.drive.specs.Drive.{same};
ghost use Rattle.table.specs.Table.{table_of};
ghost use Rattle.feed.specs.declared.Course.TheVariants.{Reading};
ghost use Rattle.reader.specs.Reader.{course_number, refusal_number, head_bytes, image, table_at, reader_size, course_at, read_reader, is_cut, rest_zero, course_ok, accept, accepted, laid};

use feed::{Course, Feed};
use table::Step;

// Five words: course, refusal, the store's number of blocks, how many bytes are held, the length of the table.
const COURSE: usize = 0;

const REFUSAL: usize = 8;

const STORE: usize = 16;

const FILLED: usize = 24;

const LENGTH: usize = 32;

// Behind them the bytes held, and the drives so far as a table.
const HELD: usize = 40;

const TABLE: usize = HELD + table::LONGEST_RECORD;

// Bytes of a block.
pub const SIZE: usize = TABLE + table::LONGEST_TABLE;

// Refusals of a table are 1 to 9.
const MOST_REFUSAL: u8 = 9;

// ---- what bytes say. A block of the right size is an array of that size.

fn course_at(b: &[u8; SIZE]) -> Course
    ensures { result ≡ course_at b.now }
{
    match words::get::<u64>(b, COURSE) {
        0 => Course::Reading,
        1 => Course::Closed,
        2 => Course::Accepted,
        _ => Course::Refused(b[REFUSAL]),
    }
}

// The bytes of the table; a length that the block has no room for is that of all that is there.
#[tactic(auto, using(crate::proofs::ReaderLaws::table_is))]
fn table_at(b: &[u8; SIZE]) -> &[u8]
    ensures { result.now ≡ part (le 8 b.now 32) b.now table_at }
{
    let n = words::get::<u64>(b, LENGTH).min(table::LONGEST_TABLE as u64) as usize;
    &b[TABLE..TABLE + n]
}

// The reader that a block says.
#[tactic(auto, unfolding(crate::specs::Reader::read_reader))]
fn reader_of(b: &[u8; SIZE]) -> Feed
    ensures { result ≡ read_reader b.now }
{
    let store = words::get(b, STORE);
    Feed {
        table: table::read_table(table_at(b), store).table,
        store,
        held: words::load(b, HELD),
        filled: words::get::<u64>(b, FILLED) as usize,
        course: course_at(b),
    }
}

// The reader that a block of the right size says, which the caller has seen; the second arm is never taken.
// Stays: a slice: edd_reader_feed, edd_reader_end and edd_reader_write hand over the host's block as C gave it.
pub fn decode(b: &[u8]) -> Feed
    requires { length b.now ≡ reader_size }
    ensures { result ≡ read_reader b.now }
{
    match b.as_array::<SIZE>() {
        Some(block) => reader_of(block),
        None => Feed::open(0),
    }
}

// ---- the words of a reader, laid out

fn course_number(c: Course) -> u64
    ensures { result ≡ course_number c }
{
    match c {
        Course::Reading => 0,
        Course::Closed => 1,
        Course::Accepted => 2,
        Course::Refused(_) => 3,
    }
}

fn refusal_number(c: Course) -> u64
    ensures { result ≡ refusal_number c }
{
    match c {
        Course::Refused(n) => n as u64,
        _ => 0,
    }
}

// `lay` has found the length of the table.
#[tactic(auto, using(crate::proofs::ReaderLaws::head_laid))]
fn put_head(f: &Feed, whole: usize, out: &mut [u8; SIZE])
    requires { whole ≡ length (table_of f.now.table) }
    ensures { out.new ≡ sets out.old 0 (head_bytes f.now) }
{
    words::put(out, COURSE, course_number(f.course));
    words::put(out, REFUSAL, refusal_number(f.course));
    words::put(out, STORE, f.store);
    words::put(out, FILLED, f.filled as u64);
    words::put(out, LENGTH, whole as u64);
}

// Lays a reader out in a block: the words, the bytes held, and the drives so far as a table with zeros behind it.
fn lay(f: &Feed, out: &mut [u8; SIZE])
    ensures { out.new ≡ image f.now }
{
    let whole = table::next_place(f.table) + table::END_LENGTH as usize;
    put_head(f, whole, out);
    words::store(out, HELD, &f.held);
    out[TABLE..].fill(0);
    let _ = table::write_table(f.table, &mut out[TABLE..]);
}

// Lays a reader out in a block; a block of another size stays.
#[tactic(auto, unfolding(crate::specs::Reader::laid))]
pub fn encode(f: Feed, block: &mut [u8])
    ensures { block.new ≡ laid block.old f }
{
    if let Some(out) = block.as_mut_array::<SIZE>() {
        lay(&f, out);
    }
}

// ---- which blocks are accepted

fn is_cut(s: Step) -> bool
    ensures { result ≡ is_cut s }
{
    match s {
        Step::Refused(n, _) => n == table::CUT_OFF,
        _ => false,
    }
}

// The bytes past the first n are zero.
fn rest_zero(held: &[u8; table::LONGEST_RECORD], n: usize) -> bool
    ensures { result ≡ rest_zero held.now n }
{
    logic::all_below(table::LONGEST_RECORD, |j| j < n || held[j] == 0)
}

// What is held is a proper beginning of a record.
#[tactic(auto, unfolding(crate::specs::Reader::course_ok))]
fn held_ok(f: &Feed) -> bool
    ensures { result ≡ course_ok Reading f.now }
{
    if table::LONGEST_RECORD <= f.filled {
        return false;
    }
    is_cut(feed::begun(f.held, f.filled, f.table, f.store).step)
}

#[tactic(auto, unfolding(crate::specs::Reader::course_ok))]
fn course_ok(f: &Feed) -> bool
    ensures { result ≡ course_ok f.now.course f.now }
{
    let empty = f.filled == 0;
    match f.course {
        Course::Reading => held_ok(f),
        Course::Closed | Course::Accepted => empty,
        Course::Refused(n) => empty && 1 <= n && n <= MOST_REFUSAL,
    }
}

// The drives obey the table's rules, and the rest those of a reader.
#[tactic(auto, unfolding(crate::specs::Reader::accept))]
fn obeys(f: &Feed) -> bool
    ensures { result ≡ accept f.now }
{
    table::is_sound(f.table, f.store) && rest_zero(&f.held, f.filled) && course_ok(f)
}

// Whether a block has the bytes that its reader is laid out in.
fn is_image(b: &[u8; SIZE], f: &Feed) -> bool
    ensures { result ≡ same b.now (image f.now) }
{
    let mut again = [0; SIZE];
    lay(f, &mut again);
    *b == again
}

// The reader whose image a block is, where it obeys the rules.
#[tactic(auto, unfolding(crate::specs::Reader::accepted))]
fn read(b: &[u8]) -> Option<Feed>
    ensures { result ≡ pick (accepted b.now) (Some (read_reader b.now)) None }
{
    let block = b.as_array::<SIZE>()?;
    let f = reader_of(block);
    if !obeys(&f) {
        return None;
    }
    if !is_image(block, &f) {
        return None;
    }
    Some(f)
}

// Whether a block is the image of a reader that obeys the rules.
pub fn acceptable(b: &[u8]) -> bool
    ensures { result ≡ accepted b.now }
{
    read(b).is_some()
}
