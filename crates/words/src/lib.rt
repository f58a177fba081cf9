// Little-endian words of 2, 4 and 8 bytes, read from slices and arrays and written to them, and bytes of arrays. A
// function that reads or writes at a place asks that the place lies in the slice: every caller has tested the length
// once for all fields of its layout.
#![tactic(auto)]

ghost use Rattle.std.specs.Prelude.{◌≡◌, ◌+◌, ◌≤◌, ◌<◌, length, set, ℕ};
ghost use Rattle.std.proofs.lemmas.List.Edits.{sets};
ghost use Rattle.words.specs.Words.{le, le_bytes, part};

// ---- words of a slice

// A number that a layout holds in so many bytes, lowest first.
pub trait Word: Sized + Copy {
    ghost width: { ℕ };

    ghost value: { Self → ℕ };

    // The word whose bytes stand from at.
    fn get(s: &[u8], at: usize) -> Self
        requires { at + width ≤ length s.now }
        ensures { value result ≡ le width s.now at };

    // Its bytes, laid over those of out from at.
    fn put(self, out: &mut [u8], at: usize)
        requires { at + width ≤ length out.old }
        ensures { out.new ≡ sets out.old at (le_bytes width (value self)) };
}

impl Word for u16 {
    ghost width = { 2 };

    ghost value = { λ x. x };

    fn get(s: &[u8], at: usize) -> u16 {
        u16::from_le_bytes(load(s, at))
    }

    fn put(self, out: &mut [u8], at: usize) {
        store(out, at, &u16::to_le_bytes(self))
    }
}

impl Word for u32 {
    ghost width = { 4 };

    ghost value = { λ x. x };

    fn get(s: &[u8], at: usize) -> u32 {
        u32::from_le_bytes(load(s, at))
    }

    fn put(self, out: &mut [u8], at: usize) {
        store(out, at, &u32::to_le_bytes(self))
    }
}

impl Word for u64 {
    ghost width = { 8 };

    ghost value = { λ x. x };

    fn get(s: &[u8], at: usize) -> u64 {
        u64::from_le_bytes(load(s, at))
    }

    fn put(self, out: &mut [u8], at: usize) {
        store(out, at, &u64::to_le_bytes(self))
    }
}

pub fn get<W: Word>(s: &[u8], at: usize) -> W
    requires { at + W.width ≤ length s.now }
    ensures { W.value result ≡ le W.width s.now at }
{
    W::get(s, at)
}

pub fn put<W: Word>(out: &mut [u8], at: usize, v: W)
    requires { at + W.width ≤ length out.old }
    ensures { out.new ≡ sets out.old at (le_bytes W.width (W.value v)) }
{
    v.put(out, at)
}

// ---- bytes and arrays of a slice

pub fn put_byte(out: &mut [u8], at: usize, b: u8)
    requires { at < length out.old }
    ensures { out.new ≡ set out.old at b }
{
    out[at] = b;
}

// All of a, laid over the bytes of out from a place.
pub fn store(out: &mut [u8], at: usize, a: &[u8])
    requires { at + length a.now ≤ length out.old }
    ensures { out.new ≡ sets out.old at a.now }
{
    out[at..at + a.len()].copy_from_slice(a);
}

// The N bytes from a place.
pub fn load<const N: usize>(s: &[u8], at: usize) -> [u8; N]
    requires { at + N ≤ length s.now }
    ensures { result ≡ part N s.now at }
{
    let mut r = [0; N];
    r.copy_from_slice(&s[at..at + N]);
    r
}
