// Lines that bind signals, and what they are bound to. Samples and the tables of programs stand in one pool, behind the engine's bases.
#![tactic(auto)]

ghost use Rattle.std.specs.Prelude.{◌≡◌, length};

use config::SOURCES;
use refusal::Refusal;
use state::{SignalPart, Signals};
use trace_grammar::Lending;
use trace_stops::{Limit, Stop};
use trace_store_book::{NAMED, SAMPLES_PARTS, TABLES_PARTS};

// Where the pool's parts begin.
pub const BASE: usize = 1024;

// Where the engine's globals begin in the desk.
pub const FROM: usize = 8192;

// the engine's globals
pub fn globals(desk: &[f32]) -> [f32; 128]
    ensures { length result ≡ 128 }
{
    let mut numbers = [0.0f32; 128];
    for (i, x) in numbers.iter_mut().enumerate() {
        *x = list::read(desk, trace_store_book::sum(FROM, i), 0.0);
    }
    numbers
}

// the engine's globals are these
pub fn set_globals(desk: &mut [f32], numbers: &[f32]) {
    for i in 0..128 {
        if let Some(global) = desk.get_mut(trace_store_book::sum(FROM, i)) {
            *global = list::read(numbers, i, 0.0);
        }
    }
}

// where the free rest of the pool begins
pub fn pool_top(book: &[usize]) -> usize {
    trace_store_book::top(book, TABLES_PARTS, NAMED, BASE)
}

// a signal whose samples have a part begins where that does
fn placed(part: SignalPart, book: &[usize], i: usize) -> SignalPart {
    let e = trace_store_book::sum(SAMPLES_PARTS, i);
    if trace_store_names::len(book, e) == 0 {
        return part;
    }
    SignalPart {
        at: trace_store_names::place(book, e),
        len: part.len,
        stride: part.stride,
    }
}

// the signals, once parts have moved
pub fn moved(signals: Signals, book: &[usize]) -> Signals {
    let mut part = signals.part;
    for (i, samples) in part.iter_mut().enumerate() {
        *samples = placed(*samples, book, i);
    }
    Signals { part }
}

// the part of source i is given up
fn freed(book: &mut [usize], pool: &mut [f32], i: usize) {
    trace_store_book::free(
        book,
        pool,
        TABLES_PARTS,
        NAMED,
        trace_store_book::sum(SAMPLES_PARTS, i),
    );
}

// the line without its first word
fn rest(line: &[u8]) -> &[u8] {
    trace_input_session::part(line, trace_input_session::place(line, 1), line.len())
}

// source i is bound to `len` numbers from `at` on
fn joined(
    signals: Signals,
    i: usize,
    at: usize,
    len: usize,
    stride: usize,
    book: &mut [usize],
) -> Result<Signals, Refusal> {
    trace_store_names::set_place(book, trace_store_book::sum(SAMPLES_PARTS, i), at, len);
    engine::bind(moved(signals, book), i, at, len, stride)
}

// the samples of a line, behind the pool's parts: how many there are, where there is room
fn made(line: &[u8], at: usize, pool: &mut [f32]) -> Result<usize, Limit> {
    trace_store_names::make(rest(line), pool, at).map_err(|_| Limit::Numbers)
}

// source i is bound to the samples of a line
fn bound(
    signals: Signals,
    i: usize,
    stride: usize,
    line: &[u8],
    book: &mut [usize],
    pool: &mut [f32],
) -> Result<Signals, Stop> {
    freed(book, pool, i);
    let at = pool_top(book);
    let len = made(line, at, pool)?;
    Ok(joined(signals, i, at, len, stride, book)?)
}

// `bind SOURCE STRIDE hex X ..` and `bind SOURCE STRIDE gen SEED LEN KIND`
fn on_bind(
    signals: Signals,
    line: &[u8],
    book: &mut [usize],
    pool: &mut [f32],
) -> Result<Signals, Stop> {
    let w = trace_input_words::pair(line);
    engine::bind(signals, w.a, 0, 0, w.b)?;
    if SOURCES <= w.a {
        return Ok(signals);
    }
    bound(signals, w.a, w.b, line, book, pool)
}

fn free_all(book: &mut [usize], pool: &mut [f32]) {
    for i in 0..SOURCES {
        freed(book, pool, i);
    }
}

// `unbind [SOURCE]`
fn on_unbind(
    signals: Signals,
    line: &[u8],
    n: usize,
    book: &mut [usize],
    pool: &mut [f32],
) -> Result<Signals, Refusal> {
    if n == 1 {
        free_all(book, pool);
        return Ok(engine::no_signals());
    }
    let i = trace_input_words::number_at(line, 1);
    if SOURCES <= i {
        return Ok(signals);
    }
    freed(book, pool, i);
    engine::bind(moved(signals, book), i, 0, 0, 0)
}

// a number, `end` or `end+1` of a memory of so many numbers
fn place_at(line: &[u8], k: usize, have: usize) -> usize {
    let i = trace_input_words::index_at(b"end end+1", line, k);
    if i < 2 {
        return trace_store_book::sum(have, i);
    }
    trace_input_words::number_at(line, k)
}

fn with_part(signals: Signals, i: usize, part: SignalPart) -> Signals {
    if SOURCES <= i {
        return signals;
    }
    let mut next = signals;
    next.part[i] = part;
    next
}

// `signal_part SOURCE AT LEN STRIDE`
fn on_part(signals: Signals, line: &[u8], book: &mut [usize], pool: &mut [f32]) -> Signals {
    let i = trace_input_words::number_at(line, 1);
    let part = SignalPart {
        at: place_at(line, 2, pool.len()),
        len: place_at(line, 3, pool.len()),
        stride: trace_input_words::number_at(line, 4),
    };
    freed(book, pool, i);
    with_part(moved(signals, book), i, part)
}

// ---- lengths and print

// a length as the book has it
fn length_of(w: &[u8]) -> usize {
    let i = trace_input_session::index(b"all need need-1", w);
    if i < 3 {
        return i;
    }
    trace_store_book::sum(trace_input_words::number(w), 3)
}

// `memory_len WHAT LEN`
fn on_memory_len(line: &[u8], book: &mut [usize]) {
    let n = length_of(trace_input_session::word(line, 2));
    let k = trace_input_words::index_at(
        b"held globals bases values audio tables matrix_tables out engine",
        line,
        1,
    );
    if k < 8 {
        trace_store_book::set(book, trace_store_book::sum(trace_store_book::LENT, k), n);
        return;
    }
    trace_store_book::set(book, trace_store_book::LENT, n);
    trace_store_book::set(book, 1325, n);
    trace_store_book::set(book, 1326, n);
}

// number k of the book is the place in a list of the line's word 1
fn choose(list: &[u8], k: usize, line: &[u8], book: &mut [usize]) {
    trace_store_book::set(book, k, trace_input_words::index_at(list, line, 1));
}

// The signals after a line of n words about what calls are lent, and how outputs print.
pub fn lending_line(
    signals: Signals,
    c: Lending,
    line: &[u8],
    n: usize,
    book: &mut [usize],
    pool: &mut [f32],
) -> Result<Signals, Stop> {
    match c {
        Lending::MemoryLen => on_memory_len(line, book),
        Lending::Print => choose(b"full hash cases none", trace_store_book::PRINT, line, book),
        Lending::Canon => choose(b"0 1", trace_store_book::CANON, line, book),
        Lending::Bind => return on_bind(signals, line, book, pool),
        Lending::Unbind => return Ok(on_unbind(signals, line, n, book, pool)?),
        Lending::SignalPart => return Ok(on_part(signals, line, book, pool)),
    }
    Ok(signals)
}
