// Replays stored answers for the leaves: table lookups, slew rates and slew steps as the Rust gives them, and draws
// as xorshift64* in C gives them. Prints, for each list, how many lines it has and how many of them differ.
#![tactic(auto)]

ghost use Rattle.std.specs.Prelude.{◌≡◌, ◌*◌, ◌≤◌, length, take};
ghost use Rattle.curve_table.specs.Table.{points};

mod lines;

use curve_table::POINTS;
use lines::List;
use std::fs::File;
use std::io::Stdout;
use std::{fs, io};

// the numbers of the three tables
const TABLES: usize = 3 * POINTS;

// the most blocks of a list
const BLOCKS: usize = 64;

// says why a file cannot be read
fn tell(rt: HostRuntime, path: &str, error: io::Error) {
    let mut to = rt.stderr();
    streams::write_failure(&mut to, path, error);
}

// the bytes of a file that fit the buffer; none where it cannot be read
fn load(rt: HostRuntime, path: &str, buf: &mut [u8]) -> usize
    ensures { (result ≤ length buf.new) × (result ≡ length (take result buf.new)) }
{
    match fs::open(&rt, path) {
        Ok(mut file) => streams::read(&mut file, buf),
        Err(error) => {
            tell(rt, path, error);
            0
        }
    }
}

fn print(stdout: Stdout, name: &[u8], lines: usize, differ: usize) {
    let mut to = stdout;
    streams::write(&mut to, name);
    streams::write_decimal(&mut to, lines as u64);
    streams::write(&mut to, b" lines, ");
    streams::write_decimal(&mut to, differ as u64);
    streams::write(&mut to, b" differ\n");
}

fn tables(rt: HostRuntime) -> [f32; TABLES]
    ensures { 3 * points ≡ length result }
{
    let mut text = [0u8; 65536];
    let mut out = [0.0f32; TABLES];
    let n = load(rt, "tables.txt", &mut text);
    lines::numbers(&text[..n], &mut out);
    out
}

// What a block of a list comes to.
#[derive(Clone, Copy)]
struct Tally {
    bytes: usize,
    differ: usize,
}

// The next block of a list. A block holds whole lines of every width.
fn next_block(file: &mut File, list: List, tables: &[f32]) -> Tally
    requires { 3 * points ≤ length tables.now }
    ensures { (result.bytes ≤ 65205) × (result.differ ≤ 65205) }
{
    let mut block = [0u8; 65205];
    let n = streams::read(file, &mut block);
    Tally {
        bytes: n,
        differ: lines::count(list, tables, &block[..n]),
    }
}

// A list of at most so many blocks.
fn replay_file(stdout: Stdout, list: List, tables: &[f32], file: &mut File, name: &[u8])
    requires { 3 * points ≤ length tables.now }
{
    let w = lines::width(list);
    let mut bytes = 0usize;
    let mut differ = 0usize;
    for k in 0..BLOCKS {
        let block = next_block(file, list, tables);
        bytes += block.bytes;
        differ += block.differ;
    }
    print(stdout, name, bytes / w, differ);
}

// The list of a file.
fn replay(rt: HostRuntime, list: List, tables: &[f32], path: &str, name: &[u8])
    requires { 3 * points ≤ length tables.now }
{
    match fs::open(&rt, path) {
        Ok(mut file) => replay_file(rt.stdout(), list, tables, &mut file, name),
        Err(error) => tell(rt, path, error),
    }
}

fn main(rt: HostRuntime) {
    let t = tables(rt);
    replay(rt, List::Lookup, &t, "lookup.txt", b"lookup: ");
    replay(rt, List::Rate, &t, "rate.txt", b"rate: ");
    replay(rt, List::Slew, &t, "slew.txt", b"slew: ");
    replay(rt, List::Draw, &t, "draw.txt", b"draw: ");
}
