// The guests' windows of the lent arena, and moves of 512-byte blocks between a window and the store (document 01, "Parts of the desk").
// What hands a window out takes any number. A move or a write asks that its place lies inside the window and the store: the desk has
// tested that range before it lets a request wait, and again for each desk that it is handed.
#![tactic(auto)]

ghost use Rattle.std.specs.Prelude.{◌≡◌, ◌+◌, ◌*◌, ◌≤◌, length};
ghost use Rattle.std.proofs.lemmas.List.Edits.{sets};
ghost use Rattle.words.specs.Words.{le_bytes};
ghost use Rattle.memory.specs.Window.{window_length, span_start, span_length, window_of, with_window};
ghost use Rattle.memory.specs.Blocks.{block_length, blocks};

// Guests are 0 to 7.
pub const GUESTS: usize = 8;

// Bytes of a block.
pub const BLOCK_LENGTH: usize = 512;

// Where a window lies in the arena: the bytes from start up to, not including, end.
// Stays: a struct of its own, since a `Range` is not Copy, and callers may use the place twice.
#[derive(Clone, Copy)]
pub struct Span {
    pub start: usize,
    pub end: usize,
}

// M, the length of each window of an arena of n bytes.
pub fn window_length(n: usize) -> usize
    ensures { result ≡ window_length n }
{
    n / GUESTS
}

// Where a guest's window of m bytes lies in an arena of n: the empty part at 0 where m is above M or the guest is 8
// or more. The product is made only after m has passed, so it cannot wrap. That the end lies in the arena follows.
#[tactic(auto, unfolding(crate::specs::Window::span_start, crate::specs::Window::span_length))]
pub fn span_of(n: usize, guest: usize, m: usize) -> Span
    ensures { (result.start ≡ span_start n guest m) × (result.end ≡ span_start n guest m + span_length n guest m) × (result.end ≤ n) }
{
    if window_length(n) < m {
        return Span { start: 0, end: 0 };
    }
    if GUESTS <= guest {
        return Span { start: 0, end: 0 };
    }
    let start = guest * m;
    Span {
        start: start,
        end: start + m,
    }
}

// ---- A window, handed out as that part of the arena itself: the promise names its bytes and its place in memory.

// Stays: `window` and `window_shared` differ in what may be written; as in Rust, no parameter stands for that.
// Stays: guest and m are no struct, since document 01 has a window asked for "by guest number and window length".

// To be written.
pub fn window<'a>(arena: &'a mut [u8], guest: usize, m: usize) -> &'a mut [u8]
    ensures { (result.now ≡ window_of arena.old guest m) × (result.ref_ptr ≡ (arena.entry.ref_ptr.0, arena.entry.ref_ptr.1 + span_start (length arena.old) guest m)) }
{
    let Span { start, end } = span_of(arena.len(), guest, m);
    &mut arena[start..end]
}

// To be read.
pub fn window_shared<'a>(arena: &'a [u8], guest: usize, m: usize) -> &'a [u8]
    ensures { (result.now ≡ window_of arena.now guest m) × (result.ref_ptr ≡ (arena.entry.ref_ptr.0, arena.entry.ref_ptr.1 + span_start (length arena.now) guest m)) }
{
    let Span { start, end } = span_of(arena.len(), guest, m);
    &arena[start..end]
}

// ---- Moves of k blocks, promised as k moves of one block in ascending order.

// Bytes that go by way of a buffer.
const BUFFER: usize = 8192;

// All of a, laid over the bytes of dst from a place, as words::store does. A run of at most 8192 bytes goes by way of a buffer: a slice may
// overlap another for all that the compiler knows, a local array overlaps nothing, so it makes one memmove of the two copies.
fn lay(dst: &mut [u8], at: usize, a: &[u8])
    requires { at + length a.now ≤ length dst.old }
    ensures { dst.new ≡ sets dst.old at a.now }
{
    let n = a.len();
    if BUFFER < n {
        words::store(dst, at, a);
        return;
    }
    let mut buffer = [0; BUFFER];
    buffer[..n].copy_from_slice(a);
    words::store(dst, at, &buffer[..n]);
}

// One run of 512 × k bytes. Its callers are load and save, which ask for the same ranges.
#[tactic(auto, using(crate::proofs::BlocksLaws::blocks_splice))]
fn copy(dst: &mut [u8], at: usize, src: &[u8], from: usize, k: usize)
    requires { (at + block_length * k ≤ length dst.old) × (from + block_length * k ≤ length src.now) }
    ensures { dst.new ≡ blocks dst.old at src.now from k }
{
    let end = from + BLOCK_LENGTH * k;
    lay(dst, at, &src[from..end]);
}

// A read: k blocks of the store, from byte from, go to place at of the guest's window. The desk has tested that the buffer lies in the
// window (09h) and the named blocks in the drive (04h), and each drive lies in the store (6).
#[tactic(auto, using(crate::proofs::WindowLaws::window_back))]
pub fn load(
    arena: &mut [u8],
    guest: usize,
    m: usize,
    at: usize,
    store: &[u8],
    from: usize,
    k: usize,
)
    requires { (at + block_length * k ≤ span_length (length arena.old) guest m) × (from + block_length * k ≤ length store.now) }
    ensures { arena.new ≡ with_window arena.old guest m (blocks (window_of arena.old guest m) at store.now from k) }
{
    let Span { start, end } = span_of(arena.len(), guest, m);
    copy(&mut arena[start..end], at, store, from, k);
}

// A write: k blocks at place at of the guest's window go to the store, from byte to. The same tests as for a read.
pub fn save(arena: &[u8], guest: usize, m: usize, at: usize, store: &mut [u8], to: usize, k: usize)
    requires { (at + block_length * k ≤ span_length (length arena.now) guest m) × (to + block_length * k ≤ length store.old) }
    ensures { store.new ≡ blocks store.old to (window_of arena.now guest m) at k }
{
    let Span { start, end } = span_of(arena.len(), guest, m);
    copy(store, to, &arena[start..end], at, k);
}

// Bytes laid at a place of the guest's window, as its parameter tables. The desk has tested that they lie in the window (26).
#[tactic(auto, using(crate::proofs::WindowLaws::window_back))]
pub fn put_bytes_in(arena: &mut [u8], guest: usize, m: usize, at: usize, bytes: &[u8])
    requires { at + length bytes.now ≤ span_length (length arena.old) guest m }
    ensures { arena.new ≡ with_window arena.old guest m (sets (window_of arena.old guest m) at bytes.now) }
{
    let Span { start, end } = span_of(arena.len(), guest, m);
    words::store(&mut arena[start..end], at, bytes);
}

// A word laid at a place of the guest's window, as the packet's count. The desk has tested that the packet lies in the window (01h).
#[tactic(auto, using(crate::proofs::WindowLaws::window_back))]
pub fn put_word_in(arena: &mut [u8], guest: usize, m: usize, at: usize, x: u16)
    requires { at + 2 ≤ span_length (length arena.old) guest m }
    ensures { arena.new ≡ with_window arena.old guest m (sets (window_of arena.old guest m) at (le_bytes 2 x)) }
{
    let Span { start, end } = span_of(arena.len(), guest, m);
    words::put(&mut arena[start..end], at, x);
}
