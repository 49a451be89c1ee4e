// Replays the Rust's answers to the editor's calls (oracle/edits.py; data/HOW.txt): makes every call of the list on a matrix, compares what it
// answers and all slots afterwards with the list, and prints how many answers there are and how many of them differ, with the first few that do.
#![tactic(auto)]

mod calls;
mod listed;

use listed::WIDTH;
use state::{Matrix, Slot};
use std::fs;
use std::fs::File;
use std::io::Stdout;

// how many differences are printed
const SHOWN: u64 = 5;

// the most blocks of the list
const BLOCKS: usize = 64;

// How far the list is: the port's matrix, the Rust's by the list, the answers so far and how many of them differ.
#[derive(Clone, Copy)]
struct Tally {
    ours: Matrix,
    theirs: Matrix,
    answers: u64,
    differ: u64,
}

fn start() -> Tally {
    let a = calls::clear();
    let m = a.matrix;
    Tally {
        ours: m,
        theirs: m,
        answers: 0,
        differ: 0,
    }
}

// ---- lines

// slot n of a matrix becomes `slot`, where there is one
fn with_slot(m: Matrix, n: usize, slot: Slot) -> Matrix {
    if config::SLOTS <= n {
        return m;
    }
    let mut next = m;
    next.slot[n] = slot;
    next
}

// the Rust's matrix after the call of a line: a call that is refused, whose word is 256 or above, leaves it
fn after(theirs: Matrix, line: &[u8]) -> Matrix {
    if listed::word(line, 0) == 0 {
        let a = calls::clear();
        return a.matrix;
    }
    if 256 <= listed::word(line, 10) {
        return theirs;
    }
    with_slot(theirs, listed::word(line, 12) as usize, listed::slot(line))
}

fn is_stored(a: calls::Answered, line: &[u8], theirs: Matrix) -> bool {
    if a.word != listed::word(line, 10) {
        return false;
    }
    if !number::are_same(a.value, listed::float(line, 11)) {
        return false;
    }
    let ours = a.matrix;
    listed::same_matrix(ours, theirs)
}

fn show(stdout: Stdout, shown: u64, number: u64, line: &[u8]) {
    if shown < SHOWN {
        let mut to = stdout;
        streams::write(&mut to, b"answer ");
        streams::write_decimal(&mut to, number);
        streams::write(&mut to, b" differs: ");
        streams::write(&mut to, line);
    }
}

// With a line: the call is made, and its answer compared. After a difference the Rust's matrix is taken over.
fn step(stdout: Stdout, t: Tally, line: &[u8]) -> Tally {
    let ours = t.ours;
    let before = t.theirs;
    let theirs = after(before, line);
    let a = calls::call(ours, line);
    let answers = std::num::wrapping_add_u64(t.answers, 1);
    let matrix = a.matrix;
    if is_stored(a, line, theirs) {
        return Tally {
            ours: matrix,
            theirs,
            answers,
            differ: t.differ,
        };
    }
    show(stdout, t.differ, answers, line);
    Tally {
        ours: theirs,
        theirs,
        answers,
        differ: std::num::wrapping_add_u64(t.differ, 1),
    }
}

// the whole lines of a block
fn steps(stdout: Stdout, before: Tally, s: &[u8]) -> Tally {
    let mut t = before;
    for line in s.chunks_exact(WIDTH) {
        t = step(stdout, t, line);
    }
    t
}

// ---- the list

// The next block of the list, 303 lines.
fn next_block(stdout: Stdout, file: &mut File, t: Tally) -> Tally {
    let mut block = [0u8; 65448];
    let n = streams::read(file, &mut block);
    steps(stdout, t, &block[..n])
}

// A list of at most so many blocks.
fn replay(stdout: Stdout, file: &mut File) -> Tally {
    let mut t = start();
    for k in 0..BLOCKS {
        let next = next_block(stdout, file, t);
        t = next;
    }
    t
}

fn print(stdout: Stdout, t: Tally) {
    let mut to = stdout;
    streams::write(&mut to, b"edits: ");
    streams::write_decimal(&mut to, t.answers);
    streams::write(&mut to, b" answers, ");
    streams::write_decimal(&mut to, t.differ);
    streams::write(&mut to, b" differ\n");
}

fn main(rt: HostRuntime) {
    match fs::open(&rt, "edits.txt") {
        Ok(mut file) => print(rt.stdout(), replay(rt.stdout(), &mut file)),
        Err(error) => {
            let mut to = rt.stderr();
            streams::write_failure(&mut to, "edits.txt", error);
        }
    }
}
