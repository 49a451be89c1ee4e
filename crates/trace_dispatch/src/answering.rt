// The lines about an engine, and every line.
use engine::Engine;
use refusal::Refusal;
use state::Program;
use std::io::Stdout;
use trace_grammar::{Command, Line, Reading, Setting};
use trace_lines_answer::Hand;
use trace_lines_stage::{After, State, stopped};
use trace_stops::Stop;

// ---- lines about the engine

// lines that set something of the engine
fn on_setting(
    s: State,
    h: Hand,
    c: Setting,
    line: &[u8],
    stdout: Stdout,
    out: &mut [u8],
    book: &[usize],
    desk: &mut [f32],
    pool: &mut [f32],
) -> State {
    let before = s.engine;
    match trace_calls::setter_line(before, c, line, book, desk, pool) {
        Err(row) => stopped(s, Stop::Refused(row), h.number, stdout, out, h.at),
        Ok(engine) => {
            let mut next = s;
            next.engine = engine;
            next.at = h.at;
            next
        }
    }
}

// the engine after a block, and what that prints
fn with_block(
    s: State,
    answer: Result<Engine, Refusal>,
    h: Hand,
    line: &[u8],
    book: &[usize],
    values: &[f32],
    audio: &[f32],
    stdout: Stdout,
    out: &mut [u8],
) -> State {
    match answer {
        Err(row) => stopped(s, Stop::Refused(row), h.number, stdout, out, h.at),
        Ok(e) => {
            let shown = trace_calls::outputs(stdout, e, line, book, values, audio, out, h.at);
            let mut next = s;
            next.engine = e;
            next.at = shown.unwrap_or(h.at);
            next
        }
    }
}

// `process START END`
fn on_process(
    s: State,
    h: Hand,
    line: &[u8],
    stdout: Stdout,
    out: &mut [u8],
    book: &mut [usize],
    desk: &mut [f32],
    values: &mut [f32],
    audio: &mut [f32],
    pool: &[f32],
) -> State {
    let e = s.engine;
    let signals = s.signals;
    let answer = trace_calls::process(e, signals, line, book, desk, values, audio, pool);
    with_block(s, answer, h, line, book, values, audio, stdout, out)
}

// lines that print what the engine answers
fn on_reading(
    s: State,
    h: Hand,
    c: Reading,
    line: &[u8],
    n: usize,
    stdout: Stdout,
    out: &mut [u8],
    book: &[usize],
    values: &[f32],
    audio: &[f32],
    pool: &mut [f32],
) -> State {
    let e = s.engine;
    match trace_calls::reader_line(stdout, e, c, line, n, book, values, audio, pool, out, h.at) {
        Err(stop) => stopped(s, stop, h.number, stdout, out, h.at),
        Ok(at) => {
            let mut next = s;
            next.at = at;
            next
        }
    }
}

// `state`
fn on_state(
    s: State,
    h: Hand,
    stdout: Stdout,
    out: &mut [u8],
    book: &[usize],
    desk: &[f32],
    pool: &[f32],
) -> State {
    if trace_lines_answer::is_quiet(book) {
        return s;
    }
    let e = s.engine;
    let mut next = s;
    next.at = trace_calls::on_state(stdout, e, book, desk, pool, out, h.at);
    next
}

// `memory`
fn on_memory(
    s: State,
    h: Hand,
    stdout: Stdout,
    out: &mut [u8],
    book: &[usize],
    values: &[f32],
    audio: &[f32],
) -> State {
    if trace_lines_answer::is_quiet(book) {
        return s;
    }
    let e = s.engine;
    let mut next = s;
    next.at = trace_calls::on_memory(stdout, e, book, values, audio, out, h.at);
    next
}

// ---- every line

fn after(state: State, i: usize, program: Program) -> After {
    After { state, i, program }
}

// a line in hand that ends the session
fn ended(s: State, h: Hand) -> State {
    let mut next = s;
    next.at = h.at;
    next.stop = h.stop;
    next
}

// a call of n words that leaves the programs outside as they are
fn on_other(
    s: State,
    h: Hand,
    c: Command,
    n: usize,
    line: &[u8],
    stdout: Stdout,
    out: &mut [u8],
    book: &mut [usize],
    desk: &mut [f32],
    values: &mut [f32],
    audio: &mut [f32],
    pool: &mut [f32],
) -> State {
    match c {
        Command::Registry(r) => trace_lines_stage::on_registry(s, h, r, line, stdout, out, book),
        Command::Editing(e) => {
            trace_lines_stage::on_matrix(s, h, e, line, n, stdout, out, book, desk, audio)
        }
        Command::Making(_) => s,
        Command::Lending(l) => trace_lines_stage::on_lending(
            s, h, l, line, n, stdout, out, book, pool,
        ),
        Command::Setting(t) => on_setting(s, h, t, line, stdout, out, book, desk, pool),
        Command::Process => on_process(s, h, line, stdout, out, book, desk, values, audio, pool),
        Command::Reading(r) => on_reading(s, h, r, line, n, stdout, out, book, values, audio, pool),
        Command::State => on_state(s, h, stdout, out, book, desk, pool),
        Command::Memory => on_memory(s, h, stdout, out, book, values, audio),
        Command::Standard => trace_lines_stage::on_standard(s, h, line, stdout, out, book),
    }
}

// a call of n words
fn on_call(
    s: State,
    p: Program,
    i: usize,
    h: Hand,
    c: Command,
    n: usize,
    line: &[u8],
    stdout: Stdout,
    out: &mut [u8],
    book: &mut [usize],
    desk: &mut [f32],
    values: &mut [f32],
    audio: &mut [f32],
    pool: &mut [f32],
) -> After {
    let Command::Making(m) = c else {
        let state = on_other(
            s, h, c, n, line, stdout, out, book, desk, values, audio, pool,
        );
        return after(state, i, p);
    };
    trace_lines_stage::on_whole(s, p, i, h, m, stdout, out, book, desk, values, audio, pool)
}

// The state after a line in hand. What it prints is appended to `out`. p is program i, which `number_of` answers.
pub fn on_line(
    s: State,
    p: Program,
    i: usize,
    h: Hand,
    line: &[u8],
    stdout: Stdout,
    out: &mut [u8],
    book: &mut [usize],
    desk: &mut [f32],
    values: &mut [f32],
    audio: &mut [f32],
    pool: &mut [f32],
) -> After {
    if h.stop.is_some() {
        return after(ended(s, h), i, p);
    }
    let said = h.said;
    let Line::Call { command, words } = said else {
        return after(s, i, p);
    };
    on_call(
        s, p, i, h, command, words, line, stdout, out, book, desk, values, audio, pool,
    )
}
