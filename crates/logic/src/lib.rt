// Tests as functions, so that a caller's test is straight-line code with a Bool definition for its promise.
#![tactic(auto)]

ghost use Rattle.std.specs.Prelude.{◌≡◌, ◌+◌, ◌<◌, leb, ℕ, Bool};
ghost use Rattle.logic.specs.Logic.{both, either, in_range, all_below};

// Stays: beside `&&` and `||`, since here both sides are worked out, without a branch: judging a desk block rests on
// that.

// Both tests hold.
pub fn and(a: bool, b: bool) -> bool
    ensures { result ≡ both a b }
{
    if a { b } else { false }
}

// At least one of the tests holds.
pub fn or(a: bool, b: bool) -> bool
    ensures { result ≡ either a b }
{
    if a { true } else { b }
}

// low ≤ x ≤ high.
pub fn in_range(x: u64, low: u64, high: u64) -> bool
    ensures { result ≡ in_range x low high }
{
    (low..=high).contains(&x)
}

// n from a place on end at or before `end`. Tested by difference, since the sum may not fit a word.
pub fn ends_by(place: u64, n: u64, end: u64) -> bool
    ensures { result ≡ leb (place + n) end }
{
    end.checked_sub(place).is_some_and(|left| n <= left)
}

// The test holds of every number below n. All are asked, without a branch between them, and the promise is in the
// definition's words, so that a caller needs no answer of its own.
#[inline]
pub fn all_below<F: Fn(usize) -> bool>(n: usize, test: F) -> bool
    requires { (i : ℕ) → i < n → F.pre test i }
    ensures { (p : ℕ → Bool) → ((i : ℕ) (r : Bool) → i < n → F.post test i r → r ≡ p i) → result ≡ all_below n p }
{
    let mut good = true;
    for i in 0..n {
        good = and(test(i), good);
    }
    good
}
