// An engine made by a scenario, and the calls that are timed.
use crate::scene::{GLIDES, Gathered, NOTES, SIGNALS, Scene, first};
use crate::{hash, scene};
use config::VOICES;
use engine::{Engine, NoteOn};
use refusal::Refusal;
use state::{Program, Signals, Wiring};

// the program, on memories of its own
fn compiled(
    w: Wiring,
    values: &mut [f32],
    audio: &mut [f32],
    tables: &mut [f32],
    curves: &[f32],
) -> Result<Program, Refusal> {
    let matrix = w.matrix;
    let sources = w.sources;
    let dests = w.dests;
    program::compile(
        matrix, curves, sources, dests, w.config, values, audio, tables,
    )
}

// An engine after calls, and the number of the first that was refused, or 0.
// No Result: a benchmark goes on with what it has.
#[derive(Clone, Copy)]
pub struct Done {
    pub engine: Engine,
    pub code: u8,
}

// after one more call
fn after(from: Done, answer: Result<Engine, Refusal>) -> Done {
    match answer {
        Ok(engine) => Done {
            engine,
            code: from.code,
        },
        Err(r) => Done {
            engine: from.engine,
            code: first(from.code, r.number()),
        },
    }
}

// a new engine, on memories of its own
fn made(w: Wiring, held: &mut [f32], globals: &mut [f32], bases: &mut [f32]) -> Done {
    let sources = w.sources;
    let dests = w.dests;
    let before = Done {
        engine: Engine::bare(),
        code: 0,
    };
    after(
        before,
        Engine::new(sources, dests, w.config, held, globals, bases),
    )
}

// the engine with the program; the first refusal
fn swapped(code: u8, m: Done, c: Result<Program, Refusal>) -> Done {
    let engine = m.engine;
    match c {
        Ok(p) => {
            let before = Done {
                engine,
                code: first(code, m.code),
            };
            after(before, engine.swap(p).map(|s| s.engine))
        }
        Err(refusal) => Done {
            engine,
            code: first(code, refusal.number()),
        },
    }
}

// a new engine with the program, its bases set
fn wired(
    g: Gathered,
    c: Result<Program, Refusal>,
    calls: usize,
    held: &mut [f32],
    globals: &mut [f32],
    bases: &mut [f32],
    samples: &[f32],
) -> Done {
    let w = g.wiring;
    let m = made(w, held, globals, bases);
    let e = swapped(g.code, m, c);
    set_bases(e, calls, bases, samples)
}

// every voice goes from its note to another, which it takes a thousand seconds to reach
fn gliding(from: Done, voices: usize, held: &mut [f32], tables: &[f32]) -> Done {
    let note = NoteOn {
        key: 72.0,
        velocity: 0.0,
        legato: true,
        glide_seconds: 1000.0,
    };
    note_ons(from, 0, voices, note, held, tables)
}

// with the scenario's voices sounding
fn sounding(from: Done, s: Scene, held: &mut [f32], tables: &[f32]) -> Done {
    let voices = s.active;
    let d = note_ons(from, 0, voices, NoteOn::new(60.0, 1.0), held, tables);
    if s.also == GLIDES {
        return gliding(d, voices, held, tables);
    }
    d
}

// a new engine with its voices sounding
fn started(
    s: Scene,
    g: Gathered,
    c: Result<Program, Refusal>,
    held: &mut [f32],
    globals: &mut [f32],
    bases: &mut [f32],
    tables: &[f32],
    samples: &[f32],
) -> Done {
    let e = wired(g, c, s.dests, held, globals, bases, samples);
    sounding(e, s, held, tables)
}

// An engine with the scenario's program, its bases set and its voices sounding.
pub fn ready(
    s: Scene,
    held: &mut [f32],
    globals: &mut [f32],
    bases: &mut [f32],
    values: &mut [f32],
    audio: &mut [f32],
    tables: &mut [f32],
    curves: &[f32],
    samples: &[f32],
) -> Done {
    let g = scene::gather(s);
    let w = g.wiring;
    let c = compiled(w, values, audio, tables, curves);
    started(s, g, c, held, globals, bases, tables, samples)
}

// voice i after a first one, round the voices that there may be
fn voice_after(start: usize, i: usize) -> usize {
    (start % VOICES + i % VOICES) % VOICES
}

// calls of `note_on`, one voice after the other
fn note_ons(
    from: Done,
    start: usize,
    calls: usize,
    note: NoteOn,
    held: &mut [f32],
    tables: &[f32],
) -> Done {
    let mut code = from.code;
    let mut e = from.engine;
    for i in 0..calls {
        let voice = voice_after(start, i);
        match e.note_on(held, tables, voice, note) {
            Ok(next) => e = next,
            Err(r) => code = first(code, r.number()),
        }
    }
    Done { engine: e, code }
}

// calls of `set_base`, one destination after the other, each to the next sample
fn set_bases(from: Done, calls: usize, bases: &mut [f32], samples: &[f32]) -> Done {
    let mut code = from.code;
    let mut e = from.engine;
    for i in 0..calls {
        match e.set_base(bases, i % SIGNALS, list::read(samples, i, 0.0)) {
            Ok(next) => e = next,
            Err(r) => code = first(code, r.number()),
        }
    }
    Done { engine: e, code }
}

// calls of `set_held`, one source after the other, each to the next sample
fn set_helds(
    from: Done,
    calls: usize,
    held: &mut [f32],
    globals: &mut [f32],
    samples: &[f32],
) -> Done {
    let mut code = from.code;
    let mut e = from.engine;
    for i in 0..calls {
        match e.set_held(held, globals, i % SIGNALS, list::read(samples, i, 0.0)) {
            Ok(next) => e = next,
            Err(r) => code = first(code, r.number()),
        }
    }
    Done { engine: e, code }
}

// blocks
fn blocks(
    engine: Engine,
    n: usize,
    frames: usize,
    signals: Signals,
    held: &mut [f32],
    globals: &mut [f32],
    bases: &[f32],
    values: &mut [f32],
    audio: &mut [f32],
    tables: &[f32],
    samples: &[f32],
) -> Done {
    let mut code = 0u8;
    let mut e = engine;
    for _ in 0..n {
        match e.process(
            held, globals, bases, values, audio, tables, samples, signals, 0, frames,
        ) {
            Ok(next) => e = next,
            Err(r) => code = first(code, r.number()),
        }
    }
    Done { engine: e, code }
}

// the voice of the note before a block, so many being left
fn voice_of(left: usize, active: usize) -> usize {
    if active == 0 {
        return 0;
    }
    left % active
}

// a note on a voice, then a block
fn noted_block(
    engine: Engine,
    voice: usize,
    frames: usize,
    signals: Signals,
    held: &mut [f32],
    globals: &mut [f32],
    bases: &[f32],
    values: &mut [f32],
    audio: &mut [f32],
    tables: &[f32],
    samples: &[f32],
) -> Done {
    let before = Done { code: 0, engine };
    let a = note_ons(before, voice, 1, NoteOn::new(60.0, 1.0), held, tables);
    let e = a.engine;
    let d = blocks(
        e, 1, frames, signals, held, globals, bases, values, audio, tables, samples,
    );
    let next = d.engine;
    Done {
        code: first(a.code, d.code),
        engine: next,
    }
}

// blocks, a note before each
fn noted_blocks(
    engine: Engine,
    s: Scene,
    signals: Signals,
    held: &mut [f32],
    globals: &mut [f32],
    bases: &[f32],
    values: &mut [f32],
    audio: &mut [f32],
    tables: &[f32],
    samples: &[f32],
) -> Done {
    let active = s.active;
    let frames = s.frames;
    let mut code = 0u8;
    let mut e = engine;
    for done in 0..s.blocks {
        let voice = voice_of(s.blocks - done, active);
        let d = noted_block(
            e, voice, frames, signals, held, globals, bases, values, audio, tables, samples,
        );
        code = first(code, d.code);
        e = d.engine;
    }
    Done { code, engine: e }
}

// the scenario's blocks
fn all_blocks(
    engine: Engine,
    s: Scene,
    signals: Signals,
    held: &mut [f32],
    globals: &mut [f32],
    bases: &[f32],
    values: &mut [f32],
    audio: &mut [f32],
    tables: &[f32],
    samples: &[f32],
) -> Done {
    if s.also == NOTES {
        return noted_blocks(
            engine, s, signals, held, globals, bases, values, audio, tables, samples,
        );
    }
    blocks(
        engine, s.blocks, s.frames, signals, held, globals, bases, values, audio, tables, samples,
    )
}

// the scenario's calls
fn called(
    from: Done,
    s: Scene,
    held: &mut [f32],
    globals: &mut [f32],
    bases: &mut [f32],
    tables: &[f32],
    samples: &[f32],
) -> Done {
    if s.call == 1 {
        return set_bases(from, s.calls, bases, samples);
    }
    if s.call == 2 {
        return set_helds(from, s.calls, held, globals, samples);
    }
    if s.call == 3 {
        return note_ons(from, 0, s.calls, NoteOn::new(60.0, 1.0), held, tables);
    }
    from
}

// the scenario's blocks, and the hash
fn finished(
    from: Done,
    s: Scene,
    held: &mut [f32],
    globals: &mut [f32],
    bases: &[f32],
    values: &mut [f32],
    audio: &mut [f32],
    tables: &[f32],
    samples: &[f32],
    hash: &mut [u64],
) -> u64 {
    let b = scene::signals_of(s);
    let signals = b.signals;
    let e = from.engine;
    let d = all_blocks(
        e, s, signals, held, globals, bases, values, audio, tables, samples,
    );
    hash::put(d.engine, s.dests, s.voices, values, audio, hash);
    first(first(from.code, b.code), d.code) as u64
}

// The scenario's calls and blocks: the first refusal.
pub fn played(
    from: Done,
    s: Scene,
    held: &mut [f32],
    globals: &mut [f32],
    bases: &mut [f32],
    values: &mut [f32],
    audio: &mut [f32],
    tables: &[f32],
    samples: &[f32],
    hash: &mut [u64],
) -> u64 {
    let c = called(from, s, held, globals, bases, tables, samples);
    finished(
        c, s, held, globals, bases, values, audio, tables, samples, hash,
    )
}
