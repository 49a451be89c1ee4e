// Lines that make programs and engines, and that install programs.
use engine::{Engine, Swapped};
use refusal::Refusal;
use state::{Program, Signals};
use std::io::Stdout;
use trace_grammar::Making;
use trace_setup_lending::{moved, pool_top};
use trace_setup_preset::{DESK, NUMBERS, Preset};
use trace_stops::{Limit, Stop};
use trace_store_book::{
    AUDIO, AUDIO_PARTS, BARE, BASES, GLOBALS, HELD, INSTALLED, MATRIX_TABLES, NAMED, NEED,
    NEW_TABLES, OUT, OUTSIDE, OWN, PROGRAMS, ROUTES, TABLES, TABLES_PARTS, THERE, VALUES,
    VALUES_PARTS,
};

const TABLE_NUMBERS: usize = 66690;

// What a line about programs and the engine as a whole goes by and comes to. `program` is the one that the line names; after the line it is the one that has the
// number i, where that is below 9.
#[derive(Clone, Copy)]
pub struct Whole {
    pub at: usize,
    pub i: usize,
    pub engine: Engine,
    pub signals: Signals,
    pub program: Program,
}

// the number of the program that a line names, which it has from now on where the line compiles it
pub fn number_of(line: &[u8], book: &mut [usize]) -> usize {
    if trace_input_session::is(trace_input_session::word(line, 0), b"compile") {
        return trace_store_titles::made(book, trace_input_session::word(line, 1));
    }
    trace_store_titles::number(book, trace_input_session::word(line, 1))
}

// ---- what a program needs

#[derive(Clone, Copy)]
struct Needs {
    values: usize,
    audio: usize,
    tables: usize,
    routes: usize,
}

// what no program needs
const NO_NEEDS: Needs = Needs {
    values: 0,
    audio: 0,
    tables: 0,
    routes: 0,
};

fn tables_need(tabled: bool) -> usize {
    if tabled {
        return TABLE_NUMBERS;
    }
    0
}

fn needs_of(p: Program) -> Needs {
    let config = p.config;
    let frames = config.max_frames;
    Needs {
        values: layout::values(config.voices, frames, p.plans, p.routes),
        audio: layout::audio(config.voices, frames, p.plans),
        tables: tables_need(p.tabled),
        routes: p.routes,
    }
}

fn values_top(book: &[usize]) -> usize {
    trace_store_book::top(book, VALUES_PARTS, AUDIO_PARTS, 0)
}

fn audio_top(book: &[usize]) -> usize {
    trace_store_book::top(book, AUDIO_PARTS, TABLES_PARTS, NUMBERS)
}

// ---- compiling

fn compile(
    p: Preset,
    matrix_tables: &[f32],
    values: &mut [f32],
    audio: &mut [f32],
    tables: &mut [f32],
) -> Result<Program, Refusal> {
    let m = p.matrix;
    let sources = p.sources;
    let dests = p.dests;
    let config = p.config;
    program::compile(
        m,
        matrix_tables,
        sources,
        dests,
        config,
        values,
        audio,
        tables,
    )
}

fn matrix_part(desk: &[f32], n: usize) -> &[f32] {
    if desk.len() < DESK {
        return &desk[..0];
    }
    let e = DESK + trace_store_book::at_most(n, desk.len() - DESK);
    &desk[DESK..e]
}

fn matrix_lent<'a>(desk: &'a [f32], book: &[usize]) -> &'a [f32] {
    matrix_part(
        desk,
        trace_store_book::lent_by(book, MATRIX_TABLES, TABLE_NUMBERS, TABLE_NUMBERS),
    )
}

// compiles with the whole rest of each pool, which says what the program needs
fn tried(
    p: Preset,
    book: &[usize],
    desk: &[f32],
    values: &mut [f32],
    audio: &mut [f32],
    pool: &mut [f32],
) -> Result<Program, Refusal> {
    let v = trace_store_book::at_most(values_top(book), values.len());
    let u = trace_store_book::at_most(audio_top(book), audio.len());
    let t = trace_store_book::at_most(pool_top(book), pool.len());
    compile(
        p,
        matrix_part(desk, TABLE_NUMBERS),
        &mut values[v..],
        &mut audio[u..],
        &mut pool[t..],
    )
}

// compiles with the lengths that the session lends, of the pool
fn pool_lent(
    p: Preset,
    book: &[usize],
    desk: &[f32],
    values: &mut [f32],
    audio: &mut [f32],
    pool: &mut [f32],
) -> Result<Program, Refusal> {
    let from = trace_store_book::at_most(pool_top(book), pool.len());
    let to = trace_store_book::reach(book, TABLES, TABLE_NUMBERS, from, pool.len());
    compile(
        p,
        matrix_lent(desk, book),
        values,
        audio,
        &mut pool[from..to],
    )
}

// of audio, of which so many numbers are needed
fn audio_lent(
    p: Preset,
    need: usize,
    book: &[usize],
    desk: &[f32],
    values: &mut [f32],
    audio: &mut [f32],
    pool: &mut [f32],
) -> Result<Program, Refusal> {
    let from = trace_store_book::at_most(audio_top(book), audio.len());
    let to = trace_store_book::reach(book, AUDIO, need, from, audio.len());
    pool_lent(p, book, desk, values, &mut audio[from..to], pool)
}

// and of values
fn lent(
    p: Preset,
    needs: Needs,
    book: &[usize],
    desk: &[f32],
    values: &mut [f32],
    audio: &mut [f32],
    pool: &mut [f32],
) -> Result<Program, Refusal> {
    let from = trace_store_book::at_most(values_top(book), values.len());
    let to = trace_store_book::reach(book, VALUES, needs.values, from, values.len());
    audio_lent(
        p,
        needs.audio,
        book,
        desk,
        &mut values[from..to],
        audio,
        pool,
    )
}

// the second time, once it is known what the program needs; one that the pools have no room for is not refused by the call's number
fn again(
    first: Result<Program, Refusal>,
    p: Preset,
    book: &[usize],
    desk: &[f32],
    values: &mut [f32],
    audio: &mut [f32],
    pool: &mut [f32],
) -> Result<Program, Stop> {
    let needs = match first {
        Ok(program) => needs_of(program),
        Err(Refusal::Memory) => return Err(Stop::TooLarge(Limit::Numbers)),
        Err(_) => NO_NEEDS,
    };
    Ok(lent(p, needs, book, desk, values, audio, pool)?)
}

fn compiled(
    p: Preset,
    book: &[usize],
    desk: &[f32],
    values: &mut [f32],
    audio: &mut [f32],
    pool: &mut [f32],
) -> Result<Program, Stop> {
    let first = tried(p, book, desk, values, audio, pool);
    again(first, p, book, desk, values, audio, pool)
}

// ---- a program's room

// the room of program i is given up
fn freed(book: &mut [usize], i: usize, values: &mut [f32], audio: &mut [f32], pool: &mut [f32]) {
    trace_store_book::free(
        book,
        values,
        VALUES_PARTS,
        AUDIO_PARTS,
        trace_store_book::sum(VALUES_PARTS, i),
    );
    trace_store_book::free(
        book,
        audio,
        AUDIO_PARTS,
        TABLES_PARTS,
        trace_store_book::sum(AUDIO_PARTS, i),
    );
    trace_store_book::free(
        book,
        pool,
        TABLES_PARTS,
        NAMED,
        trace_store_book::sum(TABLES_PARTS, i),
    );
}

// the tables that compiling left behind the pool's parts have an entry, beside equal ones where there are any
fn tables_kept(book: &mut [usize], tabled: bool, pool: &[f32]) {
    if !tabled {
        return;
    }
    let at = pool_top(book);
    let place = trace_store_book::found(book, pool, TABLES_PARTS, NEW_TABLES, at, TABLE_NUMBERS);
    trace_store_names::set_place(book, NEW_TABLES, place, TABLE_NUMBERS);
}

// the new tables are program i's
fn tables_given(book: &mut [usize], i: usize) {
    let place = trace_store_names::place(book, NEW_TABLES);
    let len = trace_store_names::len(book, NEW_TABLES);
    trace_store_names::set_place(book, trace_store_book::sum(TABLES_PARTS, i), place, len);
    trace_store_names::set_place(book, NEW_TABLES, 0, 0);
}

// program i is a newly compiled one, outside
fn shelved(
    book: &mut [usize],
    i: usize,
    tabled: bool,
    values: &mut [f32],
    audio: &mut [f32],
    pool: &mut [f32],
) {
    tables_kept(book, tabled, pool);
    freed(book, i, values, audio, pool);
    tables_given(book, i);
    trace_store_book::set(book, trace_store_book::sum(OUTSIDE, i), 1);
    if i == 0 {
        trace_store_book::set(book, OWN, 0);
    }
}

fn with_new(t: Whole, i: usize, program: Program, book: &[usize]) -> Whole {
    let before = t.signals;
    let signals = moved(before, book);
    let mut next = t;
    next.i = i;
    next.signals = signals;
    next.program = program;
    next
}

// program i is compiled
fn on_program(
    t: Whole,
    p: Preset,
    i: usize,
    book: &mut [usize],
    desk: &[f32],
    values: &mut [f32],
    audio: &mut [f32],
    pool: &mut [f32],
) -> Result<Whole, Stop> {
    let program = compiled(p, book, desk, values, audio, pool)?;
    shelved(book, i, program.tabled, values, audio, pool);
    Ok(with_new(t, i, program, book))
}

// `compile NAME`
fn on_compile(
    t: Whole,
    p: Preset,
    i: usize,
    book: &mut [usize],
    desk: &[f32],
    values: &mut [f32],
    audio: &mut [f32],
    pool: &mut [f32],
) -> Result<Whole, Stop> {
    if PROGRAMS <= i {
        return Err(Stop::TooLarge(Limit::Programs));
    }
    on_program(t, p, i, book, desk, values, audio, pool)
}

// ---- swap

fn note_needs(book: &mut [usize], needs: Needs) {
    trace_store_book::set(book, trace_store_book::sum(NEED, VALUES), needs.values);
    trace_store_book::set(book, trace_store_book::sum(NEED, AUDIO), needs.audio);
    trace_store_book::set(book, trace_store_book::sum(NEED, TABLES), needs.tables);
    trace_store_book::set(book, ROUTES, needs.routes);
}

fn room_given(
    book: &mut [usize],
    numbers: &mut [f32],
    first: usize,
    end: usize,
    base: usize,
    i: usize,
    n: usize,
) -> Result<(), Limit> {
    let e = trace_store_book::sum(first, i);
    if trace_store_names::len(book, e) == n
        || trace_store_book::give(book, numbers, first, end, base, e, n)
    {
        return Ok(());
    }
    Err(Limit::Numbers)
}

// values and audio are given to program i where it has none yet
fn given(
    book: &mut [usize],
    i: usize,
    needs: Needs,
    values: &mut [f32],
    audio: &mut [f32],
) -> Result<(), Limit> {
    room_given(book, values, VALUES_PARTS, AUDIO_PARTS, 0, i, needs.values)?;
    room_given(
        book,
        audio,
        AUDIO_PARTS,
        TABLES_PARTS,
        NUMBERS,
        i,
        needs.audio,
    )
}

// the number under which program i is installed
fn installing(book: &[usize], i: usize) -> usize {
    if i != 0 {
        return i;
    }
    if trace_store_book::get(book, OWN) == 1 {
        return BARE;
    }
    0
}

fn own_mark(old: usize) -> usize {
    if old == BARE {
        return 1;
    }
    0
}

// program i is installed, under the number k, and the old one is outside; answers the number of the old one by its name
fn exchanged(book: &mut [usize], i: usize, k: usize) -> usize {
    let old = trace_store_book::get(book, INSTALLED);
    let j = trace_store_titles::installed(book);
    trace_store_book::set(book, trace_store_book::sum(OUTSIDE, i), 0);
    trace_store_book::set(book, trace_store_book::sum(OUTSIDE, j), 1);
    trace_store_book::set(book, INSTALLED, k);
    if j == 0 {
        trace_store_book::set(book, OWN, own_mark(old));
    }
    j
}

// the program is in the engine, and the old one outside; answers the number of the old one
fn settled(book: &mut [usize], i: usize, k: usize, needs: Needs) -> usize {
    note_needs(book, needs);
    exchanged(book, i, k)
}

fn with_swapped(t: Whole, w: Swapped, j: usize) -> Whole {
    let engine = w.engine;
    let program = w.program;
    let mut next = t;
    next.i = j;
    next.engine = engine;
    next.program = program;
    next
}

// the program i that was outside has its room in the engine
fn installed(
    t: Whole,
    w: Swapped,
    i: usize,
    needs: Needs,
    book: &mut [usize],
    values: &mut [f32],
    audio: &mut [f32],
) -> Result<Whole, Stop> {
    let k = installing(book, i);
    given(book, k, needs, values, audio)?;
    Ok(with_swapped(t, w, settled(book, i, k, needs)))
}

// `swap NAME`: program i, which is outside, is installed
fn on_swap(
    t: Whole,
    i: usize,
    book: &mut [usize],
    values: &mut [f32],
    audio: &mut [f32],
) -> Result<Whole, Stop> {
    let e = t.engine;
    let p = t.program;
    let w = e.swap(p)?;
    installed(t, w, i, needs_of(p), book, values, audio)
}

// ---- a new engine

#[derive(Clone, Copy)]
struct EngineNeeds {
    held: usize,
    globals: usize,
    bases: usize,
}

fn engine_needs(p: Preset) -> EngineNeeds {
    let config = p.config;
    let sources = p.sources;
    let dests = p.dests;
    let stride = program::stride(config).unwrap_or(0);
    let n = sources.count;
    EngineNeeds {
        held: draw::wrapping_mul(stride as u64, n as u64) as usize,
        globals: n,
        bases: dests.count,
    }
}

// with the globals apart
fn engine_with(
    p: Preset,
    n: EngineNeeds,
    book: &[usize],
    desk: &mut [f32],
    globals: &mut [f32],
    pool: &mut [f32],
) -> Result<Engine, Refusal> {
    let sources = p.sources;
    let dests = p.dests;
    let config = p.config;
    let a = trace_store_book::lent_by(book, HELD, n.held, desk.len());
    let b = trace_store_book::lent_by(book, GLOBALS, n.globals, globals.len());
    let c = trace_store_book::lent_by(book, BASES, n.bases, pool.len());
    Engine::new(
        sources,
        dests,
        config,
        &mut desk[0..a],
        &mut globals[0..b],
        &mut pool[0..c],
    )
}

fn engine_made(
    p: Preset,
    n: EngineNeeds,
    book: &[usize],
    desk: &mut [f32],
    pool: &mut [f32],
) -> Result<Engine, Refusal> {
    let mut globals = trace_setup_lending::globals(desk);
    let made = engine_with(p, n, book, desk, &mut globals, pool);
    trace_setup_lending::set_globals(desk, &globals);
    made
}

// the book of a new engine
fn opened(book: &mut [usize], n: EngineNeeds) {
    trace_store_book::set(book, trace_store_book::sum(NEED, HELD), n.held);
    trace_store_book::set(book, trace_store_book::sum(NEED, GLOBALS), n.globals);
    trace_store_book::set(book, trace_store_book::sum(NEED, BASES), n.bases);
    trace_store_book::set(book, trace_store_book::sum(NEED, OUT), 0);
    trace_store_book::set(book, INSTALLED, BARE);
    trace_store_book::set(book, THERE, 1);
    note_needs(book, NO_NEEDS);
}

// the program that is in the engine goes with it
fn dropped(book: &mut [usize], values: &mut [f32], audio: &mut [f32], pool: &mut [f32]) {
    if trace_store_book::get(book, THERE) == 0 {
        return;
    }
    let i = trace_store_book::get(book, INSTALLED);
    if PROGRAMS <= i {
        return;
    }
    freed(book, i, values, audio, pool);
}

// the new engine is there
fn entered(
    n: EngineNeeds,
    book: &mut [usize],
    values: &mut [f32],
    audio: &mut [f32],
    pool: &mut [f32],
) {
    dropped(book, values, audio, pool);
    opened(book, n);
}

fn with_engine(t: Whole, engine: Engine, book: &[usize]) -> Whole {
    let before = t.signals;
    let signals = moved(before, book);
    let mut next = t;
    next.engine = engine;
    next.signals = signals;
    next
}

// `engine`
fn on_engine(
    t: Whole,
    p: Preset,
    book: &mut [usize],
    desk: &mut [f32],
    values: &mut [f32],
    audio: &mut [f32],
    pool: &mut [f32],
) -> Result<Whole, Stop> {
    let n = engine_needs(p);
    let engine = engine_made(p, n, book, desk, pool)?;
    entered(n, book, values, audio, pool);
    Ok(with_engine(t, engine, book))
}

// a line about program i, or about the engine as a whole
pub fn whole_line(
    t: Whole,
    p: Preset,
    c: Making,
    i: usize,
    book: &mut [usize],
    desk: &mut [f32],
    values: &mut [f32],
    audio: &mut [f32],
    pool: &mut [f32],
) -> Result<Whole, Stop> {
    match c {
        Making::Compile => on_compile(t, p, i, book, desk, values, audio, pool),
        Making::Swap => on_swap(t, i, book, values, audio),
        Making::Engine => on_engine(t, p, book, desk, values, audio, pool),
    }
}

// ---- what such a line prints

fn put_swap(stdout: Stdout, book: &[usize], i: usize, out: &mut [u8], at: usize) -> usize {
    let mut p = trace_output_show::put(stdout, out, at, b"SWAP ");
    p = trace_store_titles::put(stdout, book, i, out, p);
    trace_output_show::put(stdout, out, p, b"\n")
}

fn put_engine(stdout: Stdout, e: Engine, out: &mut [u8], at: usize) -> usize {
    let p = trace_output_show::whole_after(stdout, out, at, b"ENGINE stride ", e.stride() as u64);
    trace_output_show::put(stdout, out, p, b"\n")
}

fn put_program(stdout: Stdout, p: Program, out: &mut [u8], at: usize) -> usize {
    let config = p.config;
    trace_print_dump::program(stdout, p, program::stride(config).unwrap_or(0), out, at)
}

// what a line that was not refused prints
pub fn put(t: Whole, c: Making, book: &[usize], stdout: Stdout, out: &mut [u8]) -> usize {
    let program = t.program;
    let engine = t.engine;
    match c {
        Making::Compile => put_program(stdout, program, out, t.at),
        Making::Swap => put_swap(stdout, book, t.i, out, t.at),
        Making::Engine => put_engine(stdout, engine, out, t.at),
    }
}
