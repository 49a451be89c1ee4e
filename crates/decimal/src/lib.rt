// Decimals of a session: a word as the nearest f32 (docs/SESSIONS.md, How a line reads). The definitions that contracts
// cite are in specs/Decimal.antt.
#![tactic(auto)]

ghost use Rattle.std.specs.Prelude.{◌≡◌, true, false, cond, ◌&&◌, ◌||◌, ◌+◌, ◌-◌, ◌*◌, ◌^◌, ◌≤◌, ◌<◌, min, ltb, eqb};
ghost use Rattle.std.specs.Prelude.{length, drop};
ghost use Rattle.std.specs.Float.{binary32};
ghost use Rattle.std.specs.Float.Ieee.{neg, round};
ghost use Rattle.std.specs.Float.Ieee.Nearest.{closest};
ghost use Rattle.decimal.specs.Decimal.{lead, is_digit, run, past, number, is_sign, is_minus, unsigned, rest};
ghost use Rattle.decimal.specs.Decimal.{has_point, after_point, mark, power, digits, exponent, is_power, is_decimal};
ghost use Rattle.decimal.specs.Decimal.{times, over, scaled, valued, decimal_of};

// Why a word has no value.
#[derive(Clone, Copy)]
pub enum Unread {
    // a decimal outside what is read
    Outside,
    // no decimal
    Other,
}

// ---- rows of bytes

// the first byte, 0 where there is none
fn lead(s: &[u8]) -> u8
    ensures { result ≡ lead s.now }
{
    s.first().copied().unwrap_or(0)
}

fn is_digit(b: u8) -> bool
    ensures { result ≡ is_digit b }
{
    b.is_ascii_digit()
}

// how many digits a row begins with
fn run(s: &[u8]) -> usize
    ensures { (result ≡ run s.now) × (result ≤ length s.now) }
{
    s.iter().position(|&b| !is_digit(b)).unwrap_or(s.len())
}

// what follows them
fn past(s: &[u8]) -> &[u8]
    ensures { result.now ≡ past s.now }
{
    let n = run(s);
    &s[n..]
}

// v with the digit b behind it, at most `most`
fn more(v: u64, b: u8, most: u64) -> u64
    requires { (v ≤ most) × (most ≤ 10 ^ 18) × (is_digit b ≡ true) }
    ensures { result ≡ min (v * 10 + (b - 48)) most }
{
    let next = v * 10 + (b - b'0') as u64;
    if most < next { most } else { next }
}

// the number whose digits are those of v, then those that the row begins with, at most `most`
fn number(v: u64, s: &[u8], most: u64) -> u64
    requires { (v ≤ most) × (most ≤ 10 ^ 18) }
    ensures { result ≡ min (number v s.now) most }
{
    let mut value = v;
    for &b in s {
        if !is_digit(b) {
            return value;
        }
        value = more(value, b, most);
    }
    value
}

fn is_minus(s: &[u8]) -> bool
    ensures { result ≡ is_minus s.now }
{
    lead(s) == b'-'
}

// without the first byte
fn tail(s: &[u8]) -> &[u8]
    ensures { result.now ≡ drop 1 s.now }
{
    match s {
        [_, rest @ ..] => rest,
        [] => s,
    }
}

// + or -
#[tactic(auto, unfolding(crate::specs::Decimal::is_sign))]
fn is_sign(b: u8) -> bool
    ensures { result ≡ is_sign b }
{
    matches!(b, b'+' | b'-')
}

// without a sign in front
fn unsigned(s: &[u8]) -> &[u8]
    ensures { result.now ≡ unsigned s.now }
{
    if is_sign(lead(s)) { tail(s) } else { s }
}

// ---- the parts of a word

// what follows the digits before the point
fn rest(w: &[u8]) -> &[u8]
    ensures { result.now ≡ rest w.now }
{
    past(unsigned(w))
}

fn has_point(w: &[u8]) -> bool
    ensures { result ≡ has_point w.now }
{
    lead(rest(w)) == b'.'
}

// what follows the point
fn after_point(w: &[u8]) -> &[u8]
    ensures { result.now ≡ after_point w.now }
{
    if has_point(w) {
        return tail(rest(w));
    }
    &w[..0]
}

// what follows all the digits
fn mark(w: &[u8]) -> &[u8]
    ensures { result.now ≡ mark w.now }
{
    if has_point(w) {
        return past(after_point(w));
    }
    rest(w)
}

// what follows the exponent's letter
fn power(w: &[u8]) -> &[u8]
    ensures { result.now ≡ power w.now }
{
    tail(mark(w))
}

// all the digits as one whole number, at most 10^18
fn digits(w: &[u8]) -> u64
    ensures { result ≡ min (digits w.now) (10 ^ 18) }
{
    let upper = number(0, unsigned(w), 1000000000000000000);
    number(upper, after_point(w), 1000000000000000000)
}

// the exponent's digits, at most 1000
fn exponent(w: &[u8]) -> u64
    ensures { result ≡ min (exponent w.now) 1000 }
{
    number(0, unsigned(power(w)), 1000)
}

// ---- the grammar

// e or E
fn is_letter(b: u8) -> bool
    ensures { result ≡ (eqb b 101 || eqb b 69) }
{
    matches!(b, b'e' | b'E')
}

// at least one digit, and nothing else
fn all_digits(s: &[u8]) -> bool
    ensures { result ≡ (ltb 0 (length s.now) && eqb (run s.now) (length s.now)) }
{
    !s.is_empty() && run(s) == s.len()
}

// whether what follows the digits is an exponent
fn is_power(w: &[u8]) -> bool
    ensures { result ≡ is_power w.now }
{
    is_letter(lead(mark(w))) && all_digits(unsigned(power(w)))
}

// whether there is a digit before the point or after it
fn has_digit(w: &[u8]) -> bool
    ensures { result ≡ ltb 0 (run (unsigned w.now) + run (after_point w.now)) }
{
    0 < run(unsigned(w)) || 0 < run(after_point(w))
}

// whether it is written as a decimal
fn is_decimal(w: &[u8]) -> bool
    ensures { result ≡ is_decimal w.now }
{
    has_digit(w) && (is_power(w) || has_point(w) && mark(w).is_empty())
}

// ---- the value

fn signed(s: bool, x: f32) -> f32
    ensures { result ≡ cond s (neg x) x }
{
    if s { -x } else { x }
}

// m * 10^p
fn times(s: bool, m: u64, p: u64) -> Result<f32, Unread>
    ensures { result ≡ times s m p }
{
    let mut n = m;
    for i in 0..p {
        let Some(next) = n.checked_mul(10) else {
            return Err(Unread::Outside);
        };
        n = next;
    }
    Ok(signed(s, number::nearest_u64_to_f32(n)))
}

fn power_of_five(k: u64) -> u64
    requires { k ≤ 17 }
    ensures { result ≡ 5 ^ k }
{
    5u64.pow(k as u32)
}

// A number doubled some times.
#[derive(Clone, Copy)]
struct Doubled {
    value: u64,
    steps: u64,
}

// d doubled until m is below it times 2^24
fn widened(m: u64, d: u64) -> Doubled
    requires { (0 < d) × (d < 2 ^ 40) × (m < 10 ^ 18) }
    ensures { (result.value ≡ d * 2 ^ result.steps) × (m < result.value * 2 ^ 24) × (result.value < 2 ^ 40) }
{
    let mut value = d;
    let mut steps = 0u64;
    // Not a for: it doubles.
    while value <= m / 16777216 {
        value = value * 2;
        steps += 1u64;
    }
    Doubled { value, steps }
}

// m doubled until it is not below b times 2^23
fn raised(m: u64, b: u64) -> Doubled
    requires { (0 < m) × (b < 2 ^ 40) × (m < b * 2 ^ 24) }
    ensures { (result.value ≡ m * 2 ^ result.steps) × (b * 2 ^ 23 ≤ result.value) × (result.value < b * 2 ^ 24) }
{
    let mut value = m;
    let mut steps = 0u64;
    // Not a for: it doubles.
    while value < b * 8388608 {
        value = value * 2;
        steps += 1u64;
    }
    Doubled { value, steps }
}

// the whole number nearest to a / b, a tie going to the even one
fn nearest(a: u64, b: u64) -> u64
    requires { (b < 2 ^ 40) × (a < b * 2 ^ 24) }
    ensures { result ≡ closest a b }
{
    let q = a / b;
    let twice = a % b * 2;
    if twice < b {
        return q;
    }
    if b < twice {
        return q + 1;
    }
    q + q % 2
}

// m / 10^k. The fraction m / 5^k times a power of two is a / b with 24 digits before the point; its nearest whole
// number is the significand.
fn quotient(m: u64, k: u64) -> f32
    requires { (0 < m) × (m < 10 ^ 18) × (k ≤ 17) }
    ensures { result ≡ round binary32 false m (10 ^ k) }
{
    let b = widened(m, power_of_five(k));
    let a = raised(m, b.value);
    let c = nearest(a.value, b.value);
    f32::from_bits(((149 + b.steps - a.steps - k) * 8388608 + c) as u32)
}

// m / 10^k, where that is read
fn over(s: bool, m: u64, k: u64) -> Result<f32, Unread>
    requires { (0 < m) × (m < 10 ^ 18) }
    ensures { result ≡ over s m k }
{
    if 17 < k {
        return Err(Unread::Outside);
    }
    Ok(signed(s, quotient(m, k)))
}

fn scaled(s: bool, m: u64, up: u64, down: u64) -> Result<f32, Unread>
    requires { m < 10 ^ 18 }
    ensures { result ≡ scaled s m up down }
{
    if m == 0 {
        return Ok(signed(s, 0.0));
    }
    if down <= up {
        return times(s, m, up - down);
    }
    over(s, m, down - up)
}

// the digits m, of which f stand after the point, times 10^-e
fn shrunk(s: bool, m: u64, f: u64, e: u64) -> Result<f32, Unread>
    requires { (m < 10 ^ 18) × (e < 1000) }
    ensures { result ≡ scaled s m 0 (f + e) }
{
    if 17 < f {
        return scaled(s, m, 0, f);
    }
    scaled(s, m, 0, f + e)
}

fn valued(s: bool, m: u64, f: u64, n: bool, e: u64) -> Result<f32, Unread>
    ensures { result ≡ valued s m f n e }
{
    if 999999999999999999 < m || 999 < e {
        return Err(Unread::Outside);
    }
    if n {
        return shrunk(s, m, f, e);
    }
    scaled(s, m, e, f)
}

// the number that a decimal stands for
pub fn read(w: &[u8]) -> Result<f32, Unread>
    ensures { result ≡ decimal_of w.now }
{
    if !is_decimal(w) {
        return Err(Unread::Other);
    }
    let places = run(after_point(w)) as u64;
    valued(
        is_minus(w),
        digits(w),
        places,
        is_minus(power(w)),
        exponent(w),
    )
}
