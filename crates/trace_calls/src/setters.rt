// Lines that set something of the engine. Each answers as its call does.
use engine::{Engine, NoteOn};
use refusal::Refusal;
use trace_grammar::Setting;
use trace_store_book::{BASES, GLOBALS, HELD, INSTALLED, TABLES, TABLES_PARTS};

// with the globals apart
fn held_set(
    e: Engine,
    source: usize,
    x: f32,
    book: &[usize],
    desk: &mut [f32],
    globals: &mut [f32],
) -> Result<Engine, Refusal> {
    let a = trace_store_book::lent(book, HELD, desk.len());
    let b = trace_store_book::lent(book, GLOBALS, globals.len());
    e.set_held(&mut desk[0..a], &mut globals[0..b], source, x)
}

// `set_held SOURCE X`
fn set_held(e: Engine, line: &[u8], book: &[usize], desk: &mut [f32]) -> Result<Engine, Refusal> {
    let w = trace_input_words::value(line);
    let mut globals = trace_setup_lending::globals(desk);
    let d = held_set(e, w.n, w.x, book, desk, &mut globals);
    trace_setup_lending::set_globals(desk, &globals);
    d
}

// `set_voice_held SOURCE VOICE X`
fn set_voice_held(
    e: Engine,
    line: &[u8],
    book: &[usize],
    desk: &mut [f32],
) -> Result<Engine, Refusal> {
    let w = trace_input_words::pair(line);
    let x = trace_input_words::float_at(line, 3);
    let a = trace_store_book::lent(book, HELD, desk.len());
    e.set_voice_held(&mut desk[0..a], w.a, w.b, x)
}

// `set_base DEST X`
fn set_base(e: Engine, line: &[u8], book: &[usize], pool: &mut [f32]) -> Result<Engine, Refusal> {
    let w = trace_input_words::value(line);
    let a = trace_store_book::lent(book, BASES, pool.len());
    e.set_base(&mut pool[0..a], w.n, w.x)
}

// `set_amount SLOT X`
fn set_amount(e: Engine, line: &[u8]) -> Result<Engine, Refusal> {
    let w = trace_input_words::value(line);
    e.set_amount(w.n, w.x)
}

// `set_output SLOT X`
fn set_output(e: Engine, line: &[u8]) -> Result<Engine, Refusal> {
    let w = trace_input_words::value(line);
    e.set_output(w.n, w.x)
}

// `set_voice_limit N`
fn set_voice_limit(e: Engine, line: &[u8]) -> Engine {
    e.set_voice_limit(trace_input_words::number_at(line, 1))
}

// `set_rng HEX16`
fn set_rng(e: Engine, line: &[u8]) -> Engine {
    let w = trace_input_session::word(line, 1);
    let draw = hex_words::hex(w, 0, w.len());
    e.with_draw(draw)
}

// ---- notes

// KEY VELOCITY LEGATO GLIDE_SECONDS, from word 2 on
fn note_of(line: &[u8]) -> NoteOn {
    NoteOn {
        key: trace_input_words::float_at(line, 2),
        velocity: trace_input_words::float_at(line, 3),
        legato: trace_input_words::flag_at(line, 4),
        glide_seconds: trace_input_words::float_at(line, 5),
    }
}

// the installed program's tables, as far as they are lent
pub fn tables_lent<'a>(pool: &'a [f32], book: &[usize]) -> &'a [f32] {
    let i = trace_store_book::sum(TABLES_PARTS, trace_store_book::get(book, INSTALLED));
    let a = trace_store_book::start(book, i, pool.len());
    let e = trace_store_book::stop(book, i, TABLES, a, pool.len());
    &pool[a..e]
}

// `note_on VOICE KEY VELOCITY LEGATO GLIDE_SECONDS`
fn note_on(
    e: Engine,
    line: &[u8],
    book: &[usize],
    desk: &mut [f32],
    pool: &[f32],
) -> Result<Engine, Refusal> {
    let v = trace_input_words::number_at(line, 1);
    let note = note_of(line);
    let a = trace_store_book::lent(book, HELD, desk.len());
    e.note_on(&mut desk[0..a], tables_lent(pool, book), v, note)
}

// `note_off VOICE X`
fn note_off(e: Engine, line: &[u8], book: &[usize], desk: &mut [f32]) -> Result<Engine, Refusal> {
    let w = trace_input_words::value(line);
    let a = trace_store_book::lent(book, HELD, desk.len());
    e.note_off(&mut desk[0..a], w.n, w.x)
}

// `voice_ended VOICE`
fn voice_ended(e: Engine, line: &[u8], book: &[usize], desk: &[f32]) -> Result<Engine, Refusal> {
    let v = trace_input_words::number_at(line, 1);
    let a = trace_store_book::lent(book, HELD, desk.len());
    e.voice_ended(&desk[0..a], v)
}

// a line that sets something of the engine
pub fn setter_line(
    e: Engine,
    c: Setting,
    line: &[u8],
    book: &[usize],
    desk: &mut [f32],
    pool: &mut [f32],
) -> Result<Engine, Refusal> {
    match c {
        Setting::SetHeld => set_held(e, line, book, desk),
        Setting::SetVoiceHeld => set_voice_held(e, line, book, desk),
        Setting::SetBase => set_base(e, line, book, pool),
        Setting::SetAmount => set_amount(e, line),
        Setting::SetOutput => set_output(e, line),
        Setting::SetVoiceLimit => Ok(set_voice_limit(e, line)),
        Setting::NoteOn => note_on(e, line, book, desk, pool),
        Setting::NoteOff => note_off(e, line, book, desk),
        Setting::VoiceEnded => voice_ended(e, line, book, desk),
        Setting::SetRng => Ok(set_rng(e, line)),
    }
}
