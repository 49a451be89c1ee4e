// Single numbers of 32 bits: what the language's own operators leave out. The definitions that contracts cite are in
// specs/Number.antt.
#![tactic(auto)]

ghost use Rattle.std.specs.Prelude.{◌≡◌};
ghost use Rattle.number.specs.Number.{finite, max32, min32, hold, clamp_to, abs_of, whole_part, nearest32, sticky};
ghost use Rattle.number.specs.Number.{same};

// whether x is neither a NaN nor an infinity
pub fn is_finite(x: f32) -> bool
    ensures { result ≡ finite x }
{
    let top: f32 = 1.0 / 0.0;
    x < top && -top < x
}

// document 01's max: b where a is a NaN or below b
pub fn max(a: f32, b: f32) -> f32
    ensures { result ≡ max32 a b }
{
    if a != a {
        b
    } else if a < b {
        b
    } else {
        a
    }
}

// document 01's min: b where a is a NaN or above b
pub fn min(a: f32, b: f32) -> f32
    ensures { result ≡ min32 a b }
{
    if a != a {
        b
    } else if b < a {
        b
    } else {
        a
    }
}

// x held to lo..hi
pub fn held(lo: f32, hi: f32, x: f32) -> f32
    ensures { result ≡ hold lo hi x }
{
    min(max(x, lo), hi)
}

// Rust's clamp: a NaN and the sign of a zero stay
pub fn clamp(lo: f32, hi: f32, x: f32) -> f32
    ensures { result ≡ clamp_to lo hi x }
{
    if x < lo {
        lo
    } else if hi < x {
        hi
    } else {
        x
    }
}

// x without its sign
pub fn abs(x: f32) -> f32
    ensures { result ≡ abs_of x }
{
    if x < 0.0 {
        -x
    } else if x == 0.0 {
        0.0
    } else {
        x
    }
}

// the whole part of x: 0 for a NaN and below 1, the largest number beyond the range
pub fn whole_part(x: f32) -> u64
    ensures { result ≡ whole_part x }
{
    if 0.0 < x {
        if x < 18446744073709551616.0 {
            std::num::truncating_f32_to_u64(x)
        } else {
            u64::MAX
        }
    } else {
        0
    }
}

// n in units of 2^16, its last digit set where anything below 2^17 is
fn with_sticky_digit(n: u64) -> u64
    ensures { result ≡ sticky n }
{
    if n % 131072 == 0 {
        n / 131072 * 2
    } else {
        n / 131072 * 2 + 1
    }
}

// The f32 nearest to n. Below 2^48 n has two parts of 24 digits, each of them a float exactly, and so is the upper one
// times 2^24: only the sum rounds. From 2^48 on the rounding drops 25 digits or more, so of the last 17 it matters only
// whether they are all 0.
pub fn nearest_u64_to_f32(n: u64) -> f32
    ensures { result ≡ nearest32 n }
{
    if n < 281474976710656 {
        ((n / 16777216) as f32) * 16777216.0 + ((n % 16777216) as f32)
    } else {
        let m = with_sticky_digit(n);
        ((m / 16777216) as f32) * 1099511627776.0 + ((m % 16777216) as f32) * 65536.0
    }
}

// document 01's comparison
pub fn are_same(a: f32, b: f32) -> bool
    ensures { result ≡ same a b }
{
    if a != a { b != b } else { a == b }
}
