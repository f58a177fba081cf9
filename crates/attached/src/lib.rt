// The records of a drive table that follow a drive's and belong to it: kind 3, the drive's bad blocks, and kind 4, bytes 0 to 13 of its device
// parameter table.
#![tactic(auto)]

ghost use Rattle.std.specs.Prelude.{◌≡◌, true, ◌+◌, ◌*◌, ◌≤◌, ◌<◌, length};
ghost use Rattle.std.proofs.lemmas.List.Edits.{sets};
ghost use Rattle.words.specs.Words.{le};
ghost use Rattle.attached.specs.Parameters.{parameters_length, number_in, parameters_in, parameters_record};
ghost use Rattle.attached.specs.Bad.{most_bad, bad_size, list_place, bad_length, list_length, bad_count, bad_length_ok, bads_in, held_of, bad_record, no_bads, ascends, are_blocks, list_ok, zero_past, bads_ok, good, before};

// A drive's parameters are kind 4, and their record is 20 bytes.
// Stays: kinds are numbers, as in `drive`.
pub const PARAMETERS_KIND: u16 = 4;

pub const PARAMETERS_LENGTH: u16 = 20;

// Bytes of the parameter table that the record gives.
pub const GIVEN_LENGTH: usize = 14;

// The number of the drive that a record of either kind names. The table's reader has found the record whole.
pub fn number_in(r: &[u8]) -> u16
    requires { list_place ≤ length r.now }
    ensures { result ≡ number_in r.now }
{
    words::get(r, 4)
}

// The bytes that a record gives, likewise.
pub fn parameters_in(r: &[u8]) -> [u8; GIVEN_LENGTH]
    requires { parameters_length ≤ length r.now }
    ensures { result ≡ parameters_in r.now }
{
    words::load(r, 6)
}

// The record of a drive's number and its bytes.
pub fn encode(number: u16, p: [u8; GIVEN_LENGTH]) -> [u8; 20]
    ensures { result ≡ parameters_record number p }
{
    let mut r = [0; 20];
    words::put(&mut r, 0, PARAMETERS_LENGTH);
    words::put(&mut r, 2, PARAMETERS_KIND);
    words::put(&mut r, 4, number);
    words::store(&mut r, 6, &p);
    r
}

// ---- the bad blocks of a drive

// A drive's bad blocks are kind 3.
pub const BAD_KIND: u16 = 3;

// Bad blocks of a drive at most, and bytes of a block's number.
pub const MOST_BAD: usize = 16;

const BAD_SIZE: usize = 8;

// Bytes of sixteen numbers.
pub const LIST_LENGTH: usize = MOST_BAD * BAD_SIZE;

// The numbers stand behind the record's length, its kind and the drive's number.
const LIST_PLACE: usize = 6;

// The longest record of this kind.
pub const LONGEST_BAD: usize = LIST_PLACE + LIST_LENGTH;

// Stays: a count beside a buffer, since `bads_ok` promises an answer for any count and any bytes.
// How many bad blocks a drive has, and their numbers, eight bytes each in ascending order; behind them zeros.
#[derive(Clone, Copy)]
pub struct Bads {
    pub count: u8,
    pub list: [u8; LIST_LENGTH],
}

// No list.
pub fn no_bads() -> Bads
    ensures { result ≡ no_bads }
{
    Bads {
        count: 0,
        list: [0; LIST_LENGTH],
    }
}

// How many numbers a record of that length has.
#[tactic(auto, unfolding(crate::specs::Bad::bad_count))]
fn bad_count(size: usize) -> usize
    ensures { result ≡ bad_count size }
{
    size.saturating_sub(LIST_PLACE) / BAD_SIZE
}

// The length of a record of one to sixteen numbers.
#[tactic(auto, using(crate::proofs::BadLaws::bad_count_few), unfolding(crate::specs::Bad::bad_length_ok))]
pub fn bad_length_ok(size: u16) -> bool
    ensures { result ≡ bad_length_ok size }
{
    let whole = size as usize;
    let n = bad_count(whole);
    let some = logic::in_range(n as u64, 1, MOST_BAD as u64);
    logic::and(some, whole == LIST_PLACE + BAD_SIZE * n)
}

// The bad blocks that a record gives. The table's reader has found the record whole and its length good.
#[tactic(auto, using(crate::proofs::BadLaws::bad_count_few))]
pub fn bads_in(r: &[u8]) -> Bads
    requires { (list_place ≤ length r.now) × (length r.now ≤ list_place + list_length) }
    ensures { result ≡ bads_in r.now }
{
    let mut list = [0; LIST_LENGTH];
    words::store(&mut list, 0, &r[LIST_PLACE..]);
    Bads {
        count: bad_count(r.len()) as u8,
        list,
    }
}

// Of a count, how many numbers a list has room for.
#[tactic(auto, unfolding(crate::specs::Bad::held_of))]
fn held(n: u8) -> usize
    ensures { (result ≡ held_of n) × (result ≤ most_bad) }
{
    (n as usize).min(MOST_BAD)
}

// The length of the record of n numbers.
pub fn bad_length(n: u8) -> usize
    ensures { (result ≡ bad_length (held_of n)) × (result ≤ list_place + list_length) }
{
    LIST_PLACE + BAD_SIZE * held(n)
}

// The record of a drive's number and its bad blocks, laid from a place on. `table` has found room for it.
pub fn put_bads(l: Bads, number: u16, out: &mut [u8], at: usize)
    requires { at + bad_length (held_of l.count) ≤ length out.old }
    ensures { out.new ≡ sets out.old at (bad_record number l) }
{
    let size = BAD_SIZE * held(l.count);
    words::put(out, at, (LIST_PLACE + size) as u16);
    words::put(out, at + 2, BAD_KIND);
    words::put(out, at + 4, number);
    words::store(out, at + LIST_PLACE, &l.list[..size]);
}

// ---- a list that is taken

// Number j of a list of sixteen.
fn bad_at(list: &[u8; LIST_LENGTH], j: usize) -> u64
    requires { j < most_bad }
    ensures { result ≡ le 8 list.now (bad_size * j) }
{
    words::get(list, BAD_SIZE * j)
}

fn ascends(l: Bads) -> bool
    ensures { result ≡ ascends l }
{
    (1..held(l.count)).all(|j| bad_at(&l.list, j - 1) < bad_at(&l.list, j))
}

// Of numbers that ascend the last is the greatest: it alone is looked at.
fn are_blocks(l: Bads, blocks: u64) -> bool
    requires { ascends l ≡ true }
    ensures { result ≡ are_blocks l blocks }
{
    match held(l.count) {
        0 => true,
        n => bad_at(&l.list, n - 1) < blocks,
    }
}

// Ascending numbers of blocks of a drive that has so many.
#[tactic(auto, unfolding(crate::specs::Bad::list_ok))]
pub fn list_ok(l: Bads, blocks: u64) -> bool
    ensures { result ≡ list_ok l blocks }
{
    ascends(l) && are_blocks(l, blocks)
}

fn zero_past(l: Bads) -> bool
    ensures { result ≡ zero_past l }
{
    (held(l.count)..MOST_BAD).all(|j| bad_at(&l.list, j) == 0)
}

// What a slot of a table may hold for a drive of so many blocks.
#[tactic(auto, unfolding(crate::specs::Bad::bads_ok))]
pub fn bads_ok(l: Bads, blocks: u64) -> bool
    ensures { result ≡ bads_ok l blocks }
{
    let few = l.count as usize <= MOST_BAD;
    logic::and(few, logic::and(list_ok(l, blocks), zero_past(l)))
}

// ---- the blocks before the first bad one

// What one bad block leaves of k blocks.
#[tactic(auto, using(crate::proofs::BadLaws::before_below, crate::proofs::BadLaws::before_min))]
fn before(x: u64, from: u64, k: u64) -> u64
    ensures { result ≡ before x from k }
{
    if x < from {
        return k;
    }
    let n = x - from;
    n.min(k)
}

// Of k blocks from a block on, how many come before the first bad one. One look at each bad block, however many the blocks are.
#[tactic(auto, using(crate::proofs::BadLaws::good_to_none, crate::proofs::BadLaws::good_to_more))]
pub fn good(l: Bads, from: u64, k: u64) -> u64
    ensures { (result ≡ good l from k) × (result ≤ k) }
{
    let mut left = k;
    for j in 0..held(l.count) {
        left = before(bad_at(&l.list, j), from, left);
    }
    left
}
