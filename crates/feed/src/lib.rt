// The drive table read as it arrives: a reader that is fed fragments of any length, keeps at most one unfinished record between them, and is
// told when the input ends.
#![tactic(auto)]

ghost use Rattle.std.specs.Prelude.{◌≡◌, ◌≤◌, ◌<◌, take};
ghost use Rattle.table.specs.Table.{longest_record, step_at};
ghost use Rattle.feed.specs.declared.Course.TheVariants.{Reading};
ghost use Rattle.feed.specs.Feed.{cleared, holding, held_byte, opened, stays_open, is_over, feed_byte, feed_all, end_feed, refused_at, answer_of};

use table::{Cursor, Step, Stepped, Table};

// Document 01's refusals that a reader makes by itself: 1 at the end of input only, 8 for a byte after the end record.
const CUT_OFF: u8 = table::CUT_OFF;

const BYTE_FOLLOWS: u8 = table::BYTE_FOLLOWS;

// How the reading goes: it reads; it has read the end record; the end was told and the table is accepted; or it is refused.
// Stays: a refusal here is any byte, since a course is made of the byte that a reader block holds
// (`reader::course_ok` judges it).
#[derive(Clone, Copy, PartialEq, Eq)]
pub enum Course {
    Reading,
    Closed,
    Accepted,
    Refused(u8),
}

// The drives so far, the store's number of blocks, and the first `filled` bytes of a record that is not whole yet. Where a refused record begins
// is not kept: it follows from the drives.
#[derive(Clone, Copy)]
pub struct Feed {
    pub table: Table,
    pub store: u64,
    pub held: [u8; table::LONGEST_RECORD],
    pub filled: usize,
    pub course: Course,
}

// What a reader says: nothing is settled, the table is accepted, or refusal number and place.
// Stays: it says the number of a `Course`, which may be any byte.
#[derive(Clone, Copy, PartialEq, Eq)]
pub enum Fed {
    More,
    Accepted,
    Refused(u8, usize),
}

// The reader with those drives on that course, and no byte held.
fn cleared(f: Feed, table: Table, course: Course) -> Feed
    ensures { result ≡ cleared f table course }
{
    Feed {
        table,
        held: [0; table::LONGEST_RECORD],
        filled: 0,
        course,
        ..f
    }
}

// The reader that holds a byte more. `byte` has seen that there is room.
fn holding(f: Feed, x: u8) -> Feed
    requires { f.filled < longest_record }
    ensures { result ≡ holding f x }
{
    let n = f.filled;
    let mut held = f.held;
    held[n] = x;
    Feed {
        held,
        filled: n + 1,
        course: Course::Reading,
        ..f
    }
}

// The record that n bytes begin, after those drives: document 01's step on them alone.
#[inline(always)]
pub fn begun(held: [u8; table::LONGEST_RECORD], n: usize, b: Table, store: u64) -> Stepped
    requires { n ≤ longest_record }
    ensures { result ≡ step_at (take n held) 0 b store }
{
    let c = Cursor {
        at: 0,
        step: Step::Done,
        table: b,
    };
    let next = table::advance(&held[..n], c, store);
    Stepped {
        step: next.step,
        table: next.table,
    }
}

// A byte more of a record.
#[inline(never)]
fn held_byte(f: Feed, x: u8) -> Feed
    requires { f.filled < longest_record }
    ensures { result ≡ held_byte f x }
{
    let more = holding(f, x);
    let r = begun(more.held, more.filled, f.table, f.store);
    match r.step {
        Step::Next(_) => cleared(f, r.table, Course::Reading),
        Step::Done => cleared(f, r.table, Course::Closed),
        Step::Refused(number, _) => {
            if number == CUT_OFF {
                return more;
            }
            cleared(f, r.table, Course::Refused(number))
        }
    }
}

#[tactic(auto, unfolding(crate::specs::Feed::feed_byte, crate::specs::Feed::by_course))]
fn byte(f: Feed, x: u8) -> Feed
    ensures { result ≡ feed_byte f x }
{
    match f.course {
        Course::Reading if f.filled < table::LONGEST_RECORD => held_byte(f, x),
        Course::Closed => cleared(f, f.table, Course::Refused(BYTE_FOLLOWS)),
        _ => f,
    }
}

// Whether a byte leaves the record that n bytes begin unfinished.
fn leaves_open(held: &[u8; table::LONGEST_RECORD], n: usize, x: u8) -> bool
    ensures { result ≡ stays_open Reading held.now n x }
{
    if table::LONGEST_RECORD <= n {
        return false;
    }
    let mut more = *held;
    more[n] = x;
    let end = n + 1;
    table::is_unfinished(&more[..end])
}

#[tactic(auto, unfolding(crate::specs::Feed::stays_open))]
fn stays_open(course: Course, held: &[u8; table::LONGEST_RECORD], n: usize, x: u8) -> bool
    ensures { result ≡ stays_open course held.now n x }
{
    course == Course::Reading && leaves_open(held, n, x)
}

// Whether bytes are ignored.
#[tactic(auto, unfolding(crate::specs::Feed::is_over))]
fn is_over(course: Course) -> bool
    ensures { result ≡ is_over course }
{
    matches!(course, Course::Accepted | Course::Refused(_))
}

// Where a refusal with that number is, after those drives.
fn refused_at(number: u8, b: Table) -> usize
    ensures { result ≡ refused_at number b }
{
    let next = table::next_place(b);
    if number == BYTE_FOLLOWS {
        return next + table::END_LENGTH as usize;
    }
    next
}

impl Feed {
    // A reader for a store of that many blocks.
    #[tactic(auto, unfolding(crate::specs::Feed::opened))]
    pub fn open(store: u64) -> Self
        ensures { result ≡ opened store }
    {
        Feed {
            table: table::empty_table(),
            store,
            held: [0; table::LONGEST_RECORD],
            filled: 0,
            course: Course::Reading,
        }
    }

    // The reader after a fragment, of any length. Most bytes leave a record unfinished: they are laid in place, since to hand the reader on by value
    // copies all its drives.
    pub fn take(self, bytes: &[u8]) -> Self
        ensures { result ≡ feed_all self bytes.now }
    {
        let mut f = self;
        for &x in bytes {
            if is_over(f.course) {
                return f;
            }
            let n = f.filled;
            if stays_open(f.course, &f.held, n, x) {
                f.held[n] = x;
                f.filled = n + 1;
            } else {
                f = byte(f, x);
            }
        }
        f
    }

    // The reader once the input has ended.
    #[tactic(auto, unfolding(crate::specs::Feed::end_feed, crate::specs::Feed::end_by))]
    pub fn end(self) -> Self
        ensures { result ≡ end_feed self }
    {
        match self.course {
            Course::Reading => cleared(self, self.table, Course::Refused(CUT_OFF)),
            Course::Closed => cleared(self, self.table, Course::Accepted),
            Course::Accepted | Course::Refused(_) => self,
        }
    }

    // What it says.
    #[tactic(auto, unfolding(crate::specs::Feed::answer_of, crate::specs::Feed::answer_by))]
    pub fn answer(self) -> Fed
        ensures { result ≡ answer_of self }
    {
        match self.course {
            Course::Reading | Course::Closed => Fed::More,
            Course::Accepted => Fed::Accepted,
            Course::Refused(n) => Fed::Refused(n, refused_at(n, self.table)),
        }
    }
}
