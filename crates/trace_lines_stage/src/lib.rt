// What a session has said so far, and the lines that change what programs are compiled from, the programs, and what calls are lent (oracle/README.md, Session
// format).
#![tactic(auto)]

use engine::Engine;
use state::{Program, Signals, Sources};
use std::io::Stdout;
use trace_grammar::{Editing, Lending, Making, Registry};
use trace_lines_answer::Hand;
use trace_programs::Whole;
use trace_setup_preset::Preset;
use trace_stops::Stop;
use trace_store_book::DESTS;

// What a session has said so far, but for the memories and the programs. `at` bytes of output wait; `stop`: of the last
// line that was refused, or that ended the session, where there is one.
#[derive(Clone, Copy)]
pub struct State {
    pub at: usize,
    pub stop: Option<Stop>,
    pub engine: Engine,
    pub signals: Signals,
    pub preset: Preset,
}

// The state after a line, and the program that has number i from now on.
#[derive(Clone, Copy)]
pub struct After {
    pub state: State,
    pub i: usize,
    pub program: Program,
}

// ---- lines about what a program is compiled from

// a line that is not accepted, of whose answers `at` bytes wait
pub fn stopped(
    s: State,
    stop: Stop,
    number: u64,
    stdout: Stdout,
    out: &mut [u8],
    at: usize,
) -> State {
    let mut next = s;
    next.at = trace_lines_answer::stopped(stdout, stop, number, out, at);
    next.stop = Some(stop);
    next
}

// Lines about the configuration and the registries
pub fn on_registry(
    s: State,
    h: Hand,
    c: Registry,
    line: &[u8],
    stdout: Stdout,
    out: &mut [u8],
    book: &mut [usize],
) -> State {
    let before = s.preset;
    match trace_setup_preset::registry_line(before, c, line) {
        Err(row) => stopped(s, Stop::Refused(row), h.number, stdout, out, h.at),
        Ok(r) => {
            let preset = r.preset;
            trace_store_book::set(book, DESTS, trace_setup_preset::dests(preset));
            let mut next = s;
            next.preset = preset;
            next.at = trace_lines_answer::put_changed(h, r.answer, book, stdout, out);
            next
        }
    }
}

// Lines of n words about the matrix and its tables
pub fn on_matrix(
    s: State,
    h: Hand,
    c: Editing,
    line: &[u8],
    n: usize,
    stdout: Stdout,
    out: &mut [u8],
    book: &mut [usize],
    desk: &mut [f32],
    audio: &mut [f32],
) -> State {
    let mut preset = s.preset;
    let m = preset.matrix;
    match trace_setup_preset::matrix_line(m, c, line, n, book, audio, desk) {
        Err(stop) => stopped(s, stop, h.number, stdout, out, h.at),
        Ok(matrix) => {
            preset.matrix = matrix;
            let mut next = s;
            next.preset = preset;
            next.at = h.at;
            next
        }
    }
}

fn with_sources(
    s: State,
    sources: Sources,
    h: Hand,
    book: &[usize],
    stdout: Stdout,
    out: &mut [u8],
) -> State {
    let mut preset = s.preset;
    preset.sources = sources;
    let mut next = s;
    next.preset = preset;
    next.at = h.at;
    if trace_lines_answer::is_quiet(book) {
        return next;
    }
    next.at = trace_setup_roster::put(stdout, sources, out, h.at);
    next
}

// The standard sources in place of those registered
pub fn on_standard(
    s: State,
    h: Hand,
    line: &[u8],
    stdout: Stdout,
    out: &mut [u8],
    book: &[usize],
) -> State {
    match trace_setup_roster::made(line) {
        Err(stop) => stopped(s, stop, h.number, stdout, out, h.at),
        Ok(sources) => with_sources(s, sources, h, book, stdout, out),
    }
}

// ---- lines about programs and the engine as a whole

fn put_whole(r: Whole, c: Making, book: &[usize], stdout: Stdout, out: &mut [u8]) -> usize {
    if trace_lines_answer::is_quiet(book) {
        return r.at;
    }
    trace_programs::put(r, c, book, stdout, out)
}

fn with_whole(
    s: State,
    r: Whole,
    c: Making,
    book: &[usize],
    stdout: Stdout,
    out: &mut [u8],
) -> After {
    let engine = r.engine;
    let signals = r.signals;
    let program = r.program;
    let mut state = s;
    state.engine = engine;
    state.signals = signals;
    state.at = put_whole(r, c, book, stdout, out);
    After {
        state,
        i: r.i,
        program,
    }
}

fn whole_of(s: State, p: Program, i: usize, at: usize) -> Whole {
    let engine = s.engine;
    let signals = s.signals;
    Whole {
        at,
        i,
        engine,
        signals,
        program: p,
    }
}

// Lines about program i, p, and about the engine as a whole
pub fn on_whole(
    s: State,
    p: Program,
    i: usize,
    h: Hand,
    c: Making,
    stdout: Stdout,
    out: &mut [u8],
    book: &mut [usize],
    desk: &mut [f32],
    values: &mut [f32],
    audio: &mut [f32],
    pool: &mut [f32],
) -> After {
    let preset = s.preset;
    let t = whole_of(s, p, i, h.at);
    match trace_programs::whole_line(t, preset, c, i, book, desk, values, audio, pool) {
        Ok(r) => with_whole(s, r, c, book, stdout, out),
        Err(stop) => After {
            state: stopped(s, stop, h.number, stdout, out, h.at),
            i,
            program: p,
        },
    }
}

// ---- lines about what calls are lent

// Lines of n words about what calls are lent, and how outputs print
pub fn on_lending(
    s: State,
    h: Hand,
    c: Lending,
    line: &[u8],
    n: usize,
    stdout: Stdout,
    out: &mut [u8],
    book: &mut [usize],
    pool: &mut [f32],
) -> State {
    let before = s.signals;
    match trace_setup_lending::lending_line(before, c, line, n, book, pool) {
        Err(stop) => stopped(s, stop, h.number, stdout, out, h.at),
        Ok(signals) => {
            let mut next = s;
            next.signals = signals;
            next.at = h.at;
            next
        }
    }
}
