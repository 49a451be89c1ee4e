// The words of a session's line, and what a word stands for (oracle/README.md, Session format).
#![tactic(auto)]

ghost use Rattle.std.specs.Prelude.{◌≡◌, false, [], ◌<◌, ◌≤◌, length, drop, get_or};
ghost use Rattle.std.specs.Option.{SomeIff};
ghost use Rattle.trace_input_session.specs.Words.{is_hex, all_hex, float_of, same_bytes, decimal_of};
ghost use Rattle.trace_input_session.specs.Words.{whole_of, whole_to};
ghost use Rattle.trace_input_session.specs.Lines.{is_blank, word_from, words_of, index_of, before_of, after_of, part_of};
ghost use Rattle.trace_input_session.specs.Lines.{Skipped, Stopped, Passed, Placed, Found};

// ---- words

// a blank parts words: space, tab, line feed, vertical tab, form feed, carriage return
#[tactic(auto, unfolding(crate::specs::Lines::is_blank))]
fn is_blank(b: u8) -> bool
    ensures { result ≡ is_blank b }
{
    matches!(b, b' ' | b'\t'..=b'\r')
}

// the first place from `from` on that is no blank; the length where there is none
pub fn skip(line: &[u8], from: usize) -> usize
    ensures { Skipped line.now from result }
{
    for i in from..line.len() {
        if !is_blank(line[i]) {
            return i;
        }
    }
    line.len()
}

// the first place from `from` on that is a blank; the length where there is none
pub fn stop(line: &[u8], from: usize) -> usize
    ensures { Stopped line.now from result }
{
    for i in from..line.len() {
        if is_blank(line[i]) {
            return i;
        }
    }
    line.len()
}

// the bytes from `at` to before `end`; none where these are no places of it
pub fn part(s: &[u8], at: usize, end: usize) -> &[u8]
    ensures { result.now ≡ part_of s.now at end }
{
    if s.len() < end {
        return &s[..0];
    }
    if end < at {
        return &s[..0];
    }
    &s[at..end]
}

// the word that begins at `at`
pub fn word_at(line: &[u8], at: usize) -> &[u8]
    ensures { result.now ≡ word_from (drop at line.now) }
{
    part(line, at, stop(line, at))
}

// where the word after the one at `at` begins
pub fn next(line: &[u8], at: usize) -> usize
    ensures { Passed line.now at result }
{
    skip(line, stop(line, at))
}

// whether a word begins at a place
fn begins(line: &[u8], i: usize) -> bool {
    i < line.len() && !is_blank(line[i]) && (i == 0 || is_blank(line[i - 1]))
}

// where the last word begins that begins before `at`; 0 where there is none
pub fn back(line: &[u8], at: usize) -> usize
    ensures { (result ≤ at) × (0 < at → result < at) }
{
    for i in (0..at).rev() {
        if begins(line, i) {
            return i;
        }
    }
    0
}

// where word n begins
pub fn place(line: &[u8], n: usize) -> usize
    ensures { Placed line.now n result }
{
    let mut at = skip(line, 0);
    for k in 0..n {
        at = next(line, at);
    }
    at
}

// word n of a line; empty where there is none
pub fn word(line: &[u8], n: usize) -> &[u8]
    ensures { result.now ≡ get_or (words_of line.now) n [] }
{
    word_at(line, place(line, n))
}

// how many words a line has
pub fn count(line: &[u8]) -> usize
    ensures { (result ≡ length (words_of line.now)) × (result ≤ length line.now) }
{
    let mut p = skip(line, 0);
    let mut n = 0usize;
    // Not a for: the step is a word.
    while p < line.len() {
        p = next(line, p);
        n += 1usize;
    }
    n
}

// the place of a word in a list of words; how many there are where it is none of them
pub fn index(list: &[u8], w: &[u8]) -> usize
    ensures { result ≡ index_of (words_of list.now) w.now }
{
    let mut p = skip(list, 0);
    let mut k = 0usize;
    // Not a for: the step is a word.
    while p < list.len() {
        if is(word_at(list, p), w) {
            return k;
        }
        p = next(list, p);
        k += 1usize;
    }
    k
}

// ---- parts of a word

// the first place of a byte; the length where there is none
pub fn find(s: &[u8], b: u8) -> usize
    ensures { Found s.now b result }
{
    s.iter().position(|&c| c == b).unwrap_or(s.len())
}

// what stands before the first b; all where there is none
pub fn before(s: &[u8], b: u8) -> &[u8]
    ensures { result.now ≡ before_of b s.now }
{
    part(s, 0, find(s, b))
}

// what stands after the first b; nothing where there is none
pub fn after(s: &[u8], b: u8) -> &[u8]
    ensures { result.now ≡ after_of b s.now }
{
    let i = find(s, b);
    if s.len() <= i {
        return &s[..0];
    }
    part(s, i + 1, s.len())
}

// whether the bytes are the same
pub fn is(a: &[u8], b: &[u8]) -> bool
    ensures { result ≡ same_bytes a.now b.now }
{
    a == b
}

// ---- numbers

// a decimal digit's number
#[tactic(auto, unfolding(crate::specs::Words::decimal_of))]
fn digit(b: u8) -> Option<u64>
    ensures { SomeIff result (decimal_of b < 10) (decimal_of b) }
{
    match b {
        b'0'..=b'9' => Some((b - b'0') as u64),
        _ => None,
    }
}

// a word of decimal digits that fits 64 bits
pub fn whole(w: &[u8]) -> Option<u64>
    ensures { result ≡ whole_of w.now }
{
    if w.is_empty() {
        return None;
    }
    let mut value = 0u64;
    for &b in w {
        let d = digit(b)?;
        value = value.checked_mul(10)?.checked_add(d)?;
    }
    Some(value)
}

// the same, at most `most`
pub fn whole_to(w: &[u8], most: u64) -> Option<u64>
    ensures { result ≡ whole_to most w.now }
{
    match whole(w) {
        Some(n) if n <= most => Some(n),
        _ => None,
    }
}

#[tactic(auto, unfolding(crate::specs::Words::is_hex))]
fn is_hex(b: u8) -> bool
    ensures { result ≡ is_hex b }
{
    matches!(b, b'0'..=b'9' | b'A'..=b'F' | b'a'..=b'f')
}

pub fn all_hex(w: &[u8]) -> bool
    ensures { result ≡ all_hex w.now }
{
    w.iter().all(|&b| is_hex(b))
}

// a word of 8 hexadecimal digits, or a decimal
#[tactic(auto, unfolding(crate::specs::Words::float_of))]
pub fn float(w: &[u8]) -> Option<f32>
    ensures { result ≡ float_of w.now }
{
    if w.len() == 8 && all_hex(w) {
        return Some(hex_words::of_bits((hex_words::hex(w, 0, 8) % 0x1_0000_0000) as u32));
    }
    decimal::read(w).ok()
}
