// The calls of the list, made on the port's matrix.
use crate::listed::{float, polarity_of, slot, target, word};
use matrix::Added;
use refusal::Refusal;
use state::{Matrix, Polarity};

// What a call answers: its word of the list, its number, and the matrix.
#[derive(Clone, Copy)]
pub struct Answered {
    pub word: u32,
    pub value: f32,
    pub matrix: Matrix,
}

// the words of the list for a place that is none: the Rust's slots come before them
const FULL: u32 = 64;

const NO_FREE_LFO: u32 = 65;

fn says(word: u32, matrix: Matrix) -> Answered {
    Answered {
        word,
        value: 0.0,
        matrix,
    }
}

// a refused call: its word is 256 and the number, and the matrix stays
fn refused(m: Matrix, refusal: Refusal) -> Answered {
    says(256 + refusal.number() as u32, m)
}

fn placed(m: Matrix, added: Result<Added, Refusal>) -> Answered {
    match added {
        Ok(Added::At { slot, matrix }) => says((slot % 0x1_0000_0000) as u32, matrix),
        Ok(Added::Full) => says(FULL, m),
        Ok(Added::NoFreeLfo) => says(NO_FREE_LFO, m),
        Err(refusal) => refused(m, refusal),
    }
}

// ---- calls

// an empty matrix, whose notes glide
pub fn clear() -> Answered {
    says(
        0,
        matrix::set_velocity_legato(matrix::set_glide(matrix::new(), true), true),
    )
}

// a slot set whole
fn put(m: Matrix, line: &[u8]) -> Answered {
    match matrix::set_slot(m, word(line, 12) as usize, slot(line)) {
        Ok(next) => says(0, next),
        Err(refusal) => refused(m, refusal),
    }
}

fn drag(m: Matrix, line: &[u8]) -> Answered {
    let marks = word(line, 6);
    let added = matrix::drag(
        m,
        word(line, 1) as usize,
        target(line, 2),
        float(line, 4),
        float(line, 5),
        marks % 2 == 1,
        marks / 2 % 2 == 1,
    );
    placed(m, added)
}

// byte k of two words, the highest first
fn lfo(a: u32, b: u32, k: usize) -> usize {
    match k {
        0 => (a / 0x100_0000) as usize,
        1 => (a / 0x1_0000 % 256) as usize,
        2 => (a / 256 % 256) as usize,
        3 => (a % 256) as usize,
        4 => (b / 0x100_0000) as usize,
        5 => (b / 0x1_0000 % 256) as usize,
        6 => (b / 256 % 256) as usize,
        _ => (b % 256) as usize,
    }
}

// those from `at` to before `end`; none where these are no places of it
fn part(lfos: &[usize], at: usize, end: usize) -> &[usize] {
    if lfos.len() < end {
        return &lfos[..0];
    }
    if end < at {
        return &lfos[..0];
    }
    &lfos[at..end]
}

fn vibrato(m: Matrix, line: &[u8]) -> Answered {
    let a = word(line, 8);
    let b = word(line, 9);
    let lfos = [
        lfo(a, b, 0),
        lfo(a, b, 1),
        lfo(a, b, 2),
        lfo(a, b, 3),
        lfo(a, b, 4),
        lfo(a, b, 5),
        lfo(a, b, 6),
        lfo(a, b, 7),
    ];
    let n = word(line, 7) as usize;
    let added = matrix::create_vibrato(
        m,
        part(&lfos, 0, n),
        word(line, 1) as usize,
        target(line, 2),
        float(line, 5),
    );
    placed(m, added)
}

fn velocity(m: Matrix, line: &[u8]) -> Answered {
    let added = matrix::create_velocity_to_amp(
        m,
        word(line, 1) as usize,
        target(line, 2),
        float(line, 5),
    );
    placed(m, added)
}

fn one_if(b: bool) -> u32 {
    if b { 1 } else { 0 }
}

fn polarity(m: Matrix, line: &[u8]) -> Answered {
    match matrix::drag_polarity(float(line, 4), word(line, 6) % 2 == 1) {
        Ok(made) => says(one_if(made == Polarity::Bipolar), m),
        Err(refusal) => refused(m, refusal),
    }
}

fn depth(m: Matrix, line: &[u8]) -> Answered {
    let polarity = polarity_of(word(line, 6));
    match matrix::limit_depth(float(line, 4), polarity, float(line, 5)) {
        Ok(value) => Answered {
            word: 0,
            value,
            matrix: m,
        },
        Err(refusal) => refused(m, refusal),
    }
}

// the call of a line, made on this matrix: word 0 says which
pub fn call(m: Matrix, line: &[u8]) -> Answered {
    match word(line, 0) {
        0 => clear(),
        1 => put(m, line),
        2 => drag(m, line),
        3 => vibrato(m, line),
        4 => velocity(m, line),
        5 => polarity(m, line),
        _ => depth(m, line),
    }
}
