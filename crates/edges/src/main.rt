// Row 6 at its edges for the calls that no session reaches: a matrix that is loaded or sorted, a program that is
// installed, a curve's seconds. Prints a line for each call, with the number that it hands back.
#![tactic(auto)]

ghost use Rattle.std.specs.Prelude.{◌≤◌, length};

use config::{Config, SLOTS};
use curve_table::{Curve, POINTS};
use engine::{Engine, Swapped};
use matrix::{NoteSlot, SortBy};
use refusal::Refusal;
use slots_tables::{KEY_PLACE, TABLES};
use state::{Matrix, Polarity, Program, Slot};
use std::io::Stdout;

// the largest number, the least that is beyond 16, 16, and what is not finite
const LARGEST: u32 = 0x7F7F_FFFF;

const BEYOND: u32 = 0x4180_0001;

const SIXTEEN: u32 = 0x4180_0000;

const INFINITE: u32 = 0x7F80_0000;

const NOT_A_NUMBER: u32 = 0x7FC0_0000;

// the last number of the velocity curve's table, and of the key curve's
const VELOCITY_END: usize = KEY_PLACE * POINTS - 1;

const KEY_END: usize = TABLES - 1;

// a call, and the number that it hands back: 0 where it is accepted
fn say<T: Drop>(stdout: Stdout, what: &[u8], answer: Result<T, Refusal>) {
    let number = match answer {
        Ok(_) => 0,
        Err(refusal) => refusal.number(),
    };
    let mut to = stdout;
    streams::write(&mut to, what);
    streams::write_decimal(&mut to, number as u64);
    streams::write(&mut to, b"\n");
}

// ---- matrices

// an empty matrix, but for the numbers of its last slot
fn last_slot(amount: u32, output: u32, rise: u32, fall: u32) -> Matrix {
    let source = None;
    let aux = None;
    let source_curve = Curve::Linear;
    let aux_curve = Curve::Table {
        rise: hex_words::of_bits(rise),
        fall: hex_words::of_bits(fall),
    };
    let polarity = Polarity::Unipolar;
    let destination = None;
    let slot = Slot {
        source,
        source_curve,
        amount: hex_words::of_bits(amount),
        polarity,
        destination,
        aux,
        aux_invert: false,
        aux_curve,
        output: hex_words::of_bits(output),
        bypass: true,
    };
    let mut next = matrix::new();
    next.slot[SLOTS - 1] = slot;
    next
}

// a matrix that is loaded, and then sorted
fn both(stdout: Stdout, what: &[u8], m: Matrix, tables: &mut [f32], others: &[f32]) {
    let mut to = stdout;
    streams::write(&mut to, what);
    let loaded = matrix::load(matrix::new(), tables, m, others);
    say(stdout, b" load ", loaded);
    streams::write(&mut to, what);
    say(stdout, b" sort ", matrix::sort(m, tables, SortBy::Source));
}

// the same, with tables of its own
fn alone(stdout: Stdout, what: &[u8], m: Matrix) {
    let mut tables = [0.0f32; TABLES];
    let others = [0.0f32; TABLES];
    both(stdout, what, m, &mut tables, &others);
}

fn slots(stdout: Stdout) {
    alone(
        stdout,
        b"largest",
        last_slot(LARGEST, LARGEST, LARGEST, LARGEST),
    );
    alone(stdout, b"amount", last_slot(INFINITE, 0, 0, 0));
    alone(stdout, b"output", last_slot(0, NOT_A_NUMBER, 0, 0));
    alone(stdout, b"rise", last_slot(0, 0, INFINITE, 0));
    alone(stdout, b"fall", last_slot(0, 0, 0, NOT_A_NUMBER));
}

// a matrix whose velocity curve is the table at its place
fn velocity() -> Matrix {
    let mut tables = [0.0f32; TABLES];
    let linear = matrix::new();
    matrix::set_note_curve(linear, &mut tables, NoteSlot::Velocity, &[0.0f32; POINTS]).unwrap_or(
        linear,
    )
}

fn store(numbers: &mut [f32], at: usize, bits: u32) {
    if numbers.len() <= at {
        return;
    }
    numbers[at] = hex_words::of_bits(bits);
}

// how many of the first n numbers there are
fn most(numbers: &[f32], n: usize) -> usize
    ensures { result ≤ length numbers.now }
{
    if numbers.len() < n {
        return numbers.len();
    }
    n
}

// the first `len` numbers of both memories
fn part(stdout: Stdout, what: &[u8], len: usize, tables: &mut [f32], others: &[f32]) {
    let a = most(tables, len);
    let b = most(others, len);
    both(stdout, what, velocity(), &mut tables[0..a], &others[0..b]);
}

// with a number at a place of both
fn put(stdout: Stdout, what: &[u8], at: usize, bits: u32, len: usize) {
    let mut tables = [0.0f32; TABLES];
    let mut others = [0.0f32; TABLES];
    store(&mut tables, at, bits);
    store(&mut others, at, bits);
    part(stdout, what, len, &mut tables, &others);
}

fn named(stdout: Stdout) {
    put(
        stdout,
        b"16 in a named table",
        VELOCITY_END,
        SIXTEEN,
        TABLES,
    );
    put(stdout, b"beyond 16 in it", VELOCITY_END, BEYOND, TABLES);
    put(stdout, b"beyond 16 in another", KEY_END, BEYOND, TABLES);
    put(
        stdout,
        b"16, one number short",
        VELOCITY_END,
        SIXTEEN,
        KEY_END,
    );
    put(
        stdout,
        b"beyond 16, one number short",
        VELOCITY_END,
        BEYOND,
        KEY_END,
    );
}

// ---- programs

fn config(voices: usize) -> Config {
    Config {
        sample_rate: 64.0,
        max_frames: 64,
        voices,
    }
}

// the empty program for so many voices, but for the numbers of its last slot
fn program(voices: usize, amount: u32, output: u32) -> Result<Program, Refusal> {
    let mut next = program::empty(config(voices))?;
    let mut gains = next.gains;
    gains.amount[SLOTS - 1] = hex_words::of_bits(amount);
    gains.output[SLOTS - 1] = hex_words::of_bits(output);
    next.gains = gains;
    Ok(next)
}

// a program that is swapped into a new engine for one voice
fn swapped(made: Result<Program, Refusal>) -> Result<Swapped, Refusal> {
    let mut held = [0.0f32; 16];
    let mut globals = [0.0f32; 1];
    let mut bases = [0.0f32; 1];
    let engine = Engine::new(
        source::new(),
        dest::new(),
        config(1),
        &mut held,
        &mut globals,
        &mut bases,
    )?;
    engine.swap(made?)
}

fn programs(stdout: Stdout) {
    say(
        stdout,
        b"swap largest ",
        swapped(program(1, LARGEST, LARGEST)),
    );
    say(stdout, b"swap amount ", swapped(program(1, INFINITE, 0)));
    say(
        stdout,
        b"swap output ",
        swapped(program(1, 0, NOT_A_NUMBER)),
    );
    say(
        stdout,
        b"swap output, other voices ",
        swapped(program(2, 0, INFINITE)),
    );
    say(stdout, b"swap other voices ", swapped(program(2, 0, 0)));
}

// ---- curves

fn slewed(stdout: Stdout, what: &[u8], rise: u32, fall: u32) {
    let curve = Curve::Table {
        rise: hex_words::of_bits(rise),
        fall: hex_words::of_bits(fall),
    };
    say(stdout, what, curve::slew(curve));
}

fn curves(stdout: Stdout) {
    slewed(stdout, b"slew largest ", LARGEST, LARGEST);
    slewed(stdout, b"slew rise ", INFINITE, 0);
    slewed(stdout, b"slew fall ", 0, NOT_A_NUMBER);
}

fn main(rt: HostRuntime) {
    slots(rt.stdout());
    named(rt.stdout());
    programs(rt.stdout());
    curves(rt.stdout());
}
