// Blocks, and lines that print something of the engine.
use crate::setters::tables_lent;
use engine::Engine;
use refusal::Refusal;
use state::Signals;
use std::io::Stdout;
use trace_grammar::Reading;
use trace_print_report::{How, Print};
use trace_setup_lending::{FROM, pool_top};
use trace_stops::{Limit, Stop};
use trace_store_book::{
    AUDIO, AUDIO_PARTS, BASES, CANON, DESTS, GLOBALS, HELD, INSTALLED, NEED, OUT, PRINT, ROUTES,
    VALUES, VALUES_PARTS,
};

// ---- what is lent

// the installed program's entry among those from `first` on
fn entry(book: &[usize], first: usize) -> usize {
    trace_store_book::sum(first, trace_store_book::get(book, INSTALLED))
}

fn lent_part<'a>(numbers: &'a [f32], book: &[usize], first: usize, k: usize) -> &'a [f32] {
    let i = entry(book, first);
    let a = trace_store_book::start(book, i, numbers.len());
    let e = trace_store_book::stop(book, i, k, a, numbers.len());
    &numbers[a..e]
}

// the installed program's values, as far as they are lent
fn values_lent<'a>(values: &'a [f32], book: &[usize]) -> &'a [f32] {
    lent_part(values, book, VALUES_PARTS, VALUES)
}

// its audio rows
fn audio_lent<'a>(audio: &'a [f32], book: &[usize]) -> &'a [f32] {
    lent_part(audio, book, AUDIO_PARTS, AUDIO)
}

fn whole_part<'a>(numbers: &'a [f32], book: &[usize], first: usize) -> &'a [f32] {
    let i = entry(book, first);
    let a = trace_store_book::start(book, i, numbers.len());
    let e = trace_store_book::whole_stop(book, i, a, numbers.len());
    &numbers[a..e]
}

fn is_canon(book: &[usize]) -> bool {
    trace_store_book::get(book, CANON) == 1
}

fn print_of(n: usize) -> Print {
    match n {
        0 => Print::Full,
        1 => Print::Hash,
        2 => Print::Cases,
        _ => Print::Silent,
    }
}

fn how(book: &[usize]) -> How {
    let print = print_of(trace_store_book::get(book, PRINT));
    How {
        print,
        canon: is_canon(book),
    }
}

// ---- a block

// A block to run: the engine before it, what is bound, and the frames.
#[derive(Clone, Copy)]
struct Block {
    engine: Engine,
    signals: Signals,
    start: usize,
    end: usize,
}

// the block, with values and audio as far as they are lent
fn run(
    b: Block,
    book: &[usize],
    desk: &mut [f32],
    globals: &mut [f32],
    values: &mut [f32],
    audio: &mut [f32],
    pool: &[f32],
) -> Result<Engine, Refusal> {
    let held = trace_store_book::lent(book, HELD, desk.len());
    let global = trace_store_book::lent(book, GLOBALS, globals.len());
    let base = trace_store_book::lent(book, BASES, pool.len());
    let e = b.engine;
    let signals = b.signals;
    e.process(
        &mut desk[0..held],
        &mut globals[0..global],
        &pool[0..base],
        values,
        audio,
        tables_lent(pool, book),
        pool,
        signals,
        b.start,
        b.end,
    )
}

// with the globals in the desk
fn globals_parted(
    b: Block,
    book: &[usize],
    desk: &mut [f32],
    values: &mut [f32],
    audio: &mut [f32],
    pool: &[f32],
) -> Result<Engine, Refusal> {
    let mut globals = trace_setup_lending::globals(desk);
    let d = run(b, book, desk, &mut globals, values, audio, pool);
    trace_setup_lending::set_globals(desk, &globals);
    d
}

// with all of the audio memory
fn audio_parted(
    b: Block,
    book: &[usize],
    desk: &mut [f32],
    values: &mut [f32],
    audio: &mut [f32],
    pool: &[f32],
) -> Result<Engine, Refusal> {
    let i = entry(book, AUDIO_PARTS);
    let from = trace_store_book::start(book, i, audio.len());
    let to = trace_store_book::stop(book, i, AUDIO, from, audio.len());
    globals_parted(b, book, desk, values, &mut audio[from..to], pool)
}

// with all of both memories
fn parted(
    b: Block,
    book: &[usize],
    desk: &mut [f32],
    values: &mut [f32],
    audio: &mut [f32],
    pool: &[f32],
) -> Result<Engine, Refusal> {
    let i = entry(book, VALUES_PARTS);
    let from = trace_store_book::start(book, i, values.len());
    let to = trace_store_book::stop(book, i, VALUES, from, values.len());
    audio_parted(b, book, desk, &mut values[from..to], audio, pool)
}

// how many frames the last nonempty block's chunks have
fn noted(book: &mut [usize], start: usize, end: usize) {
    if end <= start {
        return;
    }
    if trace_store_book::get(book, ROUTES) == 0 {
        trace_store_book::set(book, trace_store_book::sum(NEED, OUT), 0);
        return;
    }
    trace_store_book::set(book, trace_store_book::sum(NEED, OUT), end - start);
}

// `process START END`, but for what it prints
pub fn process(
    engine: Engine,
    signals: Signals,
    line: &[u8],
    book: &mut [usize],
    desk: &mut [f32],
    values: &mut [f32],
    audio: &mut [f32],
    pool: &[f32],
) -> Result<Engine, Refusal> {
    let w = trace_input_words::pair(line);
    let b = Block {
        engine,
        signals,
        start: w.a,
        end: w.b,
    };
    let next = parted(b, book, desk, values, audio, pool)?;
    noted(book, w.a, w.b);
    Ok(next)
}

// ---- outputs

// the outputs, audio rows by words 1 and 2
pub fn outputs(
    stdout: Stdout,
    e: Engine,
    line: &[u8],
    book: &[usize],
    values: &[f32],
    audio: &[f32],
    out: &mut [u8],
    at: usize,
) -> Result<usize, Stop> {
    let w = trace_input_words::pair(line);
    trace_print_report::outputs(
        stdout,
        e,
        trace_store_book::get(book, DESTS),
        values_lent(values, book),
        audio_lent(audio, book),
        w.a,
        w.b,
        how(book),
        out,
        at,
    )
}

// `out [START END]`
fn on_out(
    stdout: Stdout,
    e: Engine,
    line: &[u8],
    n: usize,
    book: &[usize],
    values: &[f32],
    audio: &[f32],
    out: &mut [u8],
    at: usize,
) -> Result<usize, Stop> {
    if n == 1 {
        return outputs(stdout, e, b"out 0 0", book, values, audio, out, at);
    }
    outputs(stdout, e, line, book, values, audio, out, at)
}

// ---- single numbers

// `latest DEST VOICE`
fn on_latest(
    stdout: Stdout,
    e: Engine,
    line: &[u8],
    book: &[usize],
    values: &[f32],
    audio: &[f32],
    out: &mut [u8],
    at: usize,
) -> Result<usize, Stop> {
    let w = trace_input_words::pair(line);
    let answer = e.latest(values_lent(values, book), audio_lent(audio, book), w.a, w.b);
    Ok(trace_print_report::latest(stdout, answer, w.a, w.b, is_canon(book), out, at)?)
}

fn all_in(
    stdout: Stdout,
    e: Engine,
    voices: usize,
    each: usize,
    book: &[usize],
    values: &[f32],
    audio: &[f32],
    all: &mut [f32],
    out: &mut [u8],
    at: usize,
) -> Result<usize, Stop> {
    all.fill(trace_print_report::unwritten());
    let answer = e.latest_all(
        values_lent(values, book),
        audio_lent(audio, book),
        voices,
        all,
    );
    Ok(trace_print_report::latest_all(stdout, answer, voices, each, all, is_canon(book), out, at)?)
}

// how many numbers there are for so many voices; more than there can be where a count is past the core's
fn count_of(voices: usize, each: usize) -> usize {
    if 65535 < voices {
        return 4294967296;
    }
    if 65535 < each {
        return 4294967296;
    }
    draw::wrapping_mul(voices as u64, each as u64) as usize
}

// `latest_all VOICES ROWS`
fn on_latest_all(
    stdout: Stdout,
    e: Engine,
    line: &[u8],
    book: &[usize],
    values: &[f32],
    audio: &[f32],
    pool: &mut [f32],
    out: &mut [u8],
    at: usize,
) -> Result<usize, Stop> {
    let w = trace_input_words::pair(line);
    let n = count_of(w.a, w.b);
    let from = trace_store_book::at_most(pool_top(book), pool.len());
    if pool.len() - from < n {
        return Err(Stop::TooLarge(Limit::Numbers));
    }
    let to = from + n;
    all_in(
        stdout,
        e,
        w.a,
        w.b,
        book,
        values,
        audio,
        &mut pool[from..to],
        out,
        at,
    )
}

fn ramp_in(
    stdout: Stdout,
    e: Engine,
    dest: usize,
    voice: usize,
    book: &[usize],
    values: &[f32],
    row: &mut [f32],
    out: &mut [u8],
    at: usize,
) -> Result<usize, Stop> {
    let answer = e.ramp(values_lent(values, book), dest, voice, row);
    Ok(trace_print_report::ramp(stdout, answer, dest, voice, row, is_canon(book), out, at)?)
}

// `ramp DEST VOICE`
fn on_ramp(
    stdout: Stdout,
    e: Engine,
    line: &[u8],
    book: &[usize],
    values: &[f32],
    pool: &mut [f32],
    out: &mut [u8],
    at: usize,
) -> Result<usize, Stop> {
    let w = trace_input_words::pair(line);
    let from = trace_store_book::at_most(pool_top(book), pool.len());
    let have = pool.len() - from;
    if have < trace_store_book::get(book, trace_store_book::sum(NEED, OUT)) {
        return Err(Stop::TooLarge(Limit::Numbers));
    }
    let to = from + trace_store_book::lent(book, OUT, have);
    ramp_in(
        stdout,
        e,
        w.a,
        w.b,
        book,
        values,
        &mut pool[from..to],
        out,
        at,
    )
}

// `is_active VOICE`
fn on_is_active(
    stdout: Stdout,
    e: Engine,
    line: &[u8],
    out: &mut [u8],
    at: usize,
) -> Result<usize, Stop> {
    let v = trace_input_words::number_at(line, 1);
    Ok(trace_print_report::is_active(stdout, e.is_active(v), v, out, at)?)
}

// `rate DEST`
fn on_rate(stdout: Stdout, e: Engine, line: &[u8], out: &mut [u8], at: usize) -> usize {
    let d = trace_input_words::number_at(line, 1);
    trace_print_report::rate(stdout, program::rate(e.program(), d), d, out, at)
}

// ---- all of it

fn named_memory(
    stdout: Stdout,
    e: Engine,
    name: &[u8],
    book: &[usize],
    values: &[f32],
    audio: &[f32],
    out: &mut [u8],
    at: usize,
) -> usize {
    let state = e.state();
    let program = state.program;
    trace_print_kept::memory(
        stdout,
        program,
        state.primed,
        name,
        whole_part(values, book, VALUES_PARTS),
        whole_part(audio, book, AUDIO_PARTS),
        is_canon(book),
        out,
        at,
    )
}

// `memory`
pub fn on_memory(
    stdout: Stdout,
    e: Engine,
    book: &[usize],
    values: &[f32],
    audio: &[f32],
    out: &mut [u8],
    at: usize,
) -> usize {
    let mut cell = [0u8; 64];
    let n = trace_store_titles::copied(book, trace_store_book::get(book, INSTALLED), &mut cell);
    let m = trace_store_book::at_most(n, 64);
    named_memory(stdout, e, &cell[0..m], book, values, audio, out, at)
}

fn globals_part(desk: &[f32]) -> &[f32] {
    if desk.len() < FROM {
        return &desk[..0];
    }
    &desk[FROM..]
}

// `state`
pub fn on_state(
    stdout: Stdout,
    e: Engine,
    book: &[usize],
    desk: &[f32],
    pool: &[f32],
    out: &mut [u8],
    at: usize,
) -> usize {
    trace_print_kept::state(
        stdout,
        e.state(),
        desk,
        globals_part(desk),
        pool,
        is_canon(book),
        out,
        at,
    )
}

// a line of n words that prints what the engine answers
pub fn reader_line(
    stdout: Stdout,
    e: Engine,
    c: Reading,
    line: &[u8],
    n: usize,
    book: &[usize],
    values: &[f32],
    audio: &[f32],
    pool: &mut [f32],
    out: &mut [u8],
    at: usize,
) -> Result<usize, Stop> {
    match c {
        Reading::Out => on_out(stdout, e, line, n, book, values, audio, out, at),
        Reading::Latest => on_latest(stdout, e, line, book, values, audio, out, at),
        Reading::LatestAll => on_latest_all(stdout, e, line, book, values, audio, pool, out, at),
        Reading::Ramp => on_ramp(stdout, e, line, book, values, pool, out, at),
        Reading::IsActive => on_is_active(stdout, e, line, out, at),
        Reading::Rate => Ok(on_rate(stdout, e, line, out, at)),
    }
}
