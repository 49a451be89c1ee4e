// Output, collected in a buffer of the caller's: each call appends at a place, answers the next one, and writes the buffer
// to standard output where it is full. The buffer's last 16 bytes keep how many lines have been written (8 bytes, the lowest
// first) and whether a write failed (the byte after them); after a write that failed nothing is written any more.
#![tactic(auto)]

ghost use Rattle.std.specs.Prelude.{◌≡◌, ◌+◌, ◌<◌, ◌≤◌, length, if◌then◌else◌};
ghost use Rattle.trace_output_show.specs.Feeds.{feeds_of};
ghost use Rattle.trace_output_show.specs.Glyphs.{glyph_of, glyphs_of};

mod ending;

pub use ending::status;
use std::io::Stdout;

// How many bytes at the end of a buffer are no room for text: the count and the mark stand in the lent memory (no heap).
const KEPT: usize = 16;

// how many bytes of text a buffer has room for
fn room(out: &[u8]) -> usize
    ensures { result ≤ length out.now }
{
    out.len().saturating_sub(KEPT)
}

// ---- lines written

fn one_if(b: bool) -> u64
    ensures { (result ≤ 1) × (result ≡ (if b then 1 else 0)) }
{
    if b { 1 } else { 0 }
}

// how many line feeds there are
fn feeds(s: &[u8]) -> u64
    ensures { result ≡ feeds_of s.now }
{
    let mut n = 0u64;
    for &b in s {
        n += one_if(b == b'\n');
    }
    n
}

// the eight bytes from `from` on, the lowest first, are n more
fn add(out: &mut [u8], from: usize, n: u64)
    requires { from + 8 ≤ length out.old }
{
    let sum = kept(out, from).wrapping_add(n);
    out[from..from + 8].copy_from_slice(&sum.to_le_bytes());
}

// the number of which the eight bytes from `from` on are the digits, the lowest first
fn kept(out: &[u8], from: usize) -> u64
    requires { from + 8 ≤ length out.now }
{
    match out[from..].first_chunk::<8>() {
        Some(bytes) => u64::from_le_bytes(*bytes),
        None => 0,
    }
}

// how many lines have been written
fn written(out: &[u8]) -> u64 {
    if out.len() < KEPT {
        return 0;
    }
    kept(out, out.len() - KEPT)
}

// whether a write has failed
pub fn is_lost(out: &[u8]) -> bool {
    if out.len() < KEPT {
        return false;
    }
    out[out.len() - 8] != 0
}

fn set_lost(out: &mut [u8]) {
    if out.len() < KEPT {
        return;
    }
    let i = out.len() - 8;
    out[i] = 1;
}

// n more lines have been written, or a write has failed
fn keep(out: &mut [u8], good: bool, n: u64) {
    if !good {
        set_lost(out);
        return;
    }
    if out.len() < KEPT {
        return;
    }
    let from = out.len() - KEPT;
    add(out, from, n);
}

// writes bytes, unless a write has failed; whether that was done
fn write(stdout: Stdout, lost: bool, s: &[u8]) -> bool {
    if lost {
        return false;
    }
    let mut to = stdout;
    streams::write_all(&mut to, s)
}

// writes what is collected
pub fn flush(stdout: Stdout, out: &mut [u8], at: usize) {
    if out.len() < at {
        return;
    }
    let good = write(stdout, is_lost(out), &out[0..at]);
    let n = feeds(&out[0..at]);
    keep(out, good, n);
}

// ---- bytes

fn copy(out: &mut [u8], at: usize, s: &[u8])
    requires { at + length s.now ≤ length out.old }
{
    out[at..at + s.len()].copy_from_slice(s);
}

// the bytes, at the start
fn put_first(stdout: Stdout, out: &mut [u8], s: &[u8]) -> usize {
    if room(out) < s.len() {
        let good = write(stdout, is_lost(out), s);
        keep(out, good, feeds(s));
        return 0;
    }
    copy(out, 0, s);
    s.len()
}

// the bytes
pub fn put(stdout: Stdout, out: &mut [u8], at: usize, s: &[u8]) -> usize {
    let most = room(out);
    if most < at {
        return put_first(stdout, out, s);
    }
    if s.len() <= most - at {
        copy(out, at, s);
        return at + s.len();
    }
    flush(stdout, out, at);
    put_first(stdout, out, s)
}

// a whole number, decimal
pub fn whole(stdout: Stdout, out: &mut [u8], at: usize, n: u64) -> usize {
    let mut text = itoa::Buffer::new();
    put(stdout, out, at, text.format(n).as_bytes())
}

// the digit of the lowest four bits, in upper case
fn glyph(n: u32) -> u8
    ensures { result ≡ glyph_of n }
{
    let d = (n % 16) as u8;
    if d < 10 { b'0' + d } else { b'A' - 10 + d }
}

// eight hexadecimal digits
pub fn digits(n: u32) -> [u8; 8]
    ensures { result ≡ glyphs_of n }
{
    [
        glyph(n / 268435456),
        glyph(n / 16777216),
        glyph(n / 1048576),
        glyph(n / 65536),
        glyph(n / 4096),
        glyph(n / 256),
        glyph(n / 16),
        glyph(n),
    ]
}

// the bits of a number, as eight hexadecimal digits; a NaN's are 7FC00000
pub fn float(stdout: Stdout, out: &mut [u8], at: usize, x: f32) -> usize {
    let d = digits(hex_words::bits_of(x));
    put(stdout, out, at, &d)
}

// 1 or 0
pub fn flag(stdout: Stdout, out: &mut [u8], at: usize, on: bool) -> usize {
    either(stdout, out, at, on, b"1", b"0")
}

// the first text, or the second
pub fn either(stdout: Stdout, out: &mut [u8], at: usize, first: bool, a: &[u8], b: &[u8]) -> usize {
    put(stdout, out, at, if first { a } else { b })
}

// ---- a name, and what stands after it

pub fn whole_after(stdout: Stdout, out: &mut [u8], at: usize, name: &[u8], n: u64) -> usize {
    let p = put(stdout, out, at, name);
    whole(stdout, out, p, n)
}

pub fn float_after(stdout: Stdout, out: &mut [u8], at: usize, name: &[u8], x: f32) -> usize {
    let p = put(stdout, out, at, name);
    float(stdout, out, p, x)
}

pub fn flag_after(stdout: Stdout, out: &mut [u8], at: usize, name: &[u8], on: bool) -> usize {
    let p = put(stdout, out, at, name);
    flag(stdout, out, p, on)
}

// ---- a word of the input

// How many bytes of a word are shown.
const SHOWN: usize = 40;

// the byte where it can be seen, else a question mark
fn visible(b: u8) -> u8 {
    if b.is_ascii_graphic() { b } else { b'?' }
}

// the first bytes of a word, as far as they can be seen
fn shown(w: &[u8]) -> [u8; SHOWN]
    ensures { length result ≡ 40 }
{
    let mut cell = [0u8; SHOWN];
    for (x, &b) in cell.iter_mut().zip(w) {
        *x = visible(b);
    }
    cell
}

// a word between quotes: at most 40 bytes of it, and two points where there are more
pub fn quoted(stdout: Stdout, out: &mut [u8], at: usize, w: &[u8]) -> usize {
    let n = w.len().min(SHOWN);
    let cell = shown(w);
    let p = put(stdout, out, at, b"'");
    let q = put(stdout, out, p, &cell[0..n]);
    either(stdout, out, q, n < w.len(), b"..'", b"'")
}

// ---- how a program ends

// The last line of a trace: how many lines were printed before it.
pub fn end(stdout: Stdout, out: &mut [u8], at: usize) {
    let n = lines(out, at);
    let p = whole_after(stdout, out, at, b"END ", n);
    let q = put(stdout, out, p, b" lines\n");
    flush(stdout, out, q);
}

// how many lines have been printed, those that wait included
fn lines(out: &[u8], at: usize) -> u64 {
    if out.len() < at {
        return written(out);
    }
    written(out).wrapping_add(feeds(&out[0..at]))
}
