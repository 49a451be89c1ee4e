// The lines of a list, one by one: each holds what goes in and the answer to be had, as hexadecimal words of one width.
ghost use Rattle.std.specs.Prelude.{◌+◌, ◌*◌, ◌≤◌, ◌<◌, ◌^◌, length};
ghost use Rattle.curve_table.specs.Table.{points};

use curve_table::POINTS;

// What a list's lines are answers to.
#[derive(Clone, Copy)]
pub enum List {
    // table, position: value
    Lookup,
    // seconds, sample rate: rate per sample
    Rate,
    // slew before, input, rate up, rate down, steps, snap: slew after
    Slew,
    // state: next state, its output, the upper 24 bits, the draw
    Draw,
}

// how long a line is, its end counted
pub fn width(list: List) -> usize
    ensures { 0 < result }
{
    match list {
        List::Lookup => 27,
        List::Rate => 27,
        List::Slew => 63,
        List::Draw => 69,
    }
}

// the eight digits at a place, as a whole number; past the end a digit is 0
fn word(s: &[u8], at: usize) -> u32
    requires { at + 8 < 2 ^ 64 }
{
    (hex_words::hex(s, at, 8) % 0x1_0000_0000) as u32
}

// the eight digits at a place, as a binary32
fn number(s: &[u8], at: usize) -> f32
    requires { at + 8 < 2 ^ 64 }
{
    hex_words::of_bits(word(s, at))
}

fn number_or_0(s: &[u8], i: usize) -> f32 {
    let lines = s.len() / 9;
    if i < lines { number(s, i * 9) } else { 0.0 }
}

// the numbers of a list with one a line; 0 past its end
pub fn numbers(s: &[u8], out: &mut [f32]) {
    for (i, x) in out.iter_mut().enumerate() {
        *x = number_or_0(s, i);
    }
}

fn lookup_at(tables: &[f32], t: u32, x: f32) -> f32
    requires { 3 * points ≤ length tables.now }
{
    let a = (t % 3) as usize * POINTS;
    curve_table::lookup(&tables[a..a + POINTS], x)
}

fn lookup_differs(tables: &[f32], line: &[u8]) -> bool
    requires { 3 * points ≤ length tables.now }
{
    let found = lookup_at(tables, word(line, 0), number(line, 9));
    !number::are_same(found, number(line, 18))
}

fn rate_differs(line: &[u8]) -> bool {
    let found = slew::rate_per_sample(number(line, 0), number(line, 9));
    !number::are_same(found, number(line, 18))
}

fn slew_differs(line: &[u8]) -> bool {
    let steps = number(line, 36);
    let up = slew::reach(number(line, 18), steps);
    let down = slew::reach(number(line, 27), steps);
    let found = slew::step(up, down, number(line, 45), number(line, 0), number(line, 9));
    !number::are_same(found, number(line, 54))
}

fn draw_differs(line: &[u8]) -> bool {
    let next = draw::step(hex_words::hex(line, 0, 16));
    next != hex_words::hex(line, 17, 16)
        || draw::wrapping_mul(next, 2685821657736338717) != hex_words::hex(line, 34, 16)
        || draw::bits(next) != hex_words::hex(line, 51, 8)
        || !number::are_same(draw::draw(next), number(line, 60))
}

fn differs(list: List, tables: &[f32], line: &[u8]) -> bool
    requires { 3 * points ≤ length tables.now }
{
    match list {
        List::Lookup => lookup_differs(tables, line),
        List::Rate => rate_differs(line),
        List::Slew => slew_differs(line),
        List::Draw => draw_differs(line),
    }
}

fn one_if(b: bool) -> usize
    ensures { result ≤ 1 }
{
    if b { 1 } else { 0 }
}

// how many lines of a list differ from what the code answers
pub fn count(list: List, tables: &[f32], s: &[u8]) -> usize
    requires { 3 * points ≤ length tables.now }
    ensures { result ≤ length s.now }
{
    let w = width(list);
    let mut differ = 0usize;
    let mut at = 0usize;
    // Not a for over chunks: the proof of its bound did not close.
    while w <= s.len() - at {
        differ += one_if(differs(list, tables, &s[at..at + w]));
        at += w;
    }
    differ
}
