// Rows of numbers as text, their hash, and their places.
#![tactic(auto)]

use std::io::Stdout;

// ---- places; no product or sum of a program's comes near 2^64

pub fn product(a: usize, b: usize) -> usize {
    a.wrapping_mul(b)
}

pub fn sum(a: usize, b: usize) -> usize {
    a.wrapping_add(b)
}

pub fn lesser(a: usize, b: usize) -> usize {
    a.min(b)
}

// the n numbers from a on, as far as the memory goes
pub fn part(mem: &[f32], a: usize, n: usize) -> &[f32] {
    if mem.len() <= a {
        return &mem[..0];
    }
    let rest = &mem[a..];
    &rest[..n.min(rest.len())]
}

// row k of rows of that width
pub fn row_of(mem: &[f32], k: usize, width: usize) -> &[f32] {
    part(mem, product(k, width), width)
}

// ---- numbers

// either zero is 0
fn plain_zero(x: f32) -> f32 {
    if x == 0.0 { 0.0 } else { x }
}

// a blank and a number's bits
pub fn number(stdout: Stdout, x: f32, canon: bool, out: &mut [u8], at: usize) -> usize {
    let y = if canon { plain_zero(x) } else { x };
    trace_output_show::float_after(stdout, out, at, b" ", y)
}

// the numbers, each after a blank, and the line's end
pub fn line(stdout: Stdout, xs: &[f32], canon: bool, out: &mut [u8], at: usize) -> usize {
    let mut p = at;
    for &x in xs {
        p = number(stdout, x, canon, out, p);
    }
    trace_output_show::put(stdout, out, p, b"\n")
}

// ---- hashes: FNV-1a of 64 bits

// the hash after a byte
fn after_byte(h: u64, b: u8) -> u64 {
    (h ^ u64::from(b)).wrapping_mul(1099511628211)
}

// the hash after a number's bits, least significant byte first
fn after(h: u64, x: f32) -> u64 {
    let bytes = hex_words::bits_of(plain_zero(x)).to_le_bytes();
    bytes.iter().fold(h, |h, &b| after_byte(h, b))
}

// the hash of numbers
fn hash(xs: &[f32]) -> u64 {
    xs.iter().fold(14695981039346656037, |h, &x| after(h, x))
}

// a blank and sixteen hexadecimal digits
pub fn word(stdout: Stdout, n: u64, out: &mut [u8], at: usize) -> usize {
    let [a, b, c, d, e, f, g, h] = trace_output_show::digits((n >> 32) as u32);
    let [i, j, k, l, m, o, p, q] = trace_output_show::digits((n & 0xffff_ffff) as u32);
    let text = [b' ', a, b, c, d, e, f, g, h, i, j, k, l, m, o, p, q];
    trace_output_show::put(stdout, out, at, &text)
}

// a blank and the hash of numbers
pub fn hashed(stdout: Stdout, xs: &[f32], out: &mut [u8], at: usize) -> usize {
    word(stdout, hash(xs), out, at)
}

// ---- the start of a line

pub fn two_after(
    stdout: Stdout,
    out: &mut [u8],
    at: usize,
    name: &[u8],
    a: usize,
    b: usize,
) -> usize {
    let p = trace_output_show::whole_after(stdout, out, at, name, a as u64);
    trace_output_show::whole_after(stdout, out, p, b" ", b as u64)
}

pub fn three_after(
    stdout: Stdout,
    out: &mut [u8],
    at: usize,
    name: &[u8],
    a: usize,
    b: usize,
    c: usize,
) -> usize {
    let p = two_after(stdout, out, at, name, a, b);
    trace_output_show::whole_after(stdout, out, p, b" ", c as u64)
}
