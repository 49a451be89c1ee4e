// The outputs of every destination: CHUNK, FROM, TO, A, HC, HA, D and UNMOD lines.
ghost use Rattle.std.specs.Prelude.{◌≡◌, ℕ, ◌<◌, length, get_or, set};
ghost use Rattle.config.specs.Sizes.{slots, most_frames, most_chunks};
ghost use Rattle.trace_print_order.specs.Order.{placed};

use crate::{How, Print};
use config::{DESTINATIONS, SLOTS};
use engine::{Engine, Output};
use refusal::Refusal;
use state::{Chunk, Program};
use std::io::Stdout;
use trace_print_order::NONE;
use trace_stops::{Fault, Stop};

// Which audio rows are printed, and how.
#[derive(Clone, Copy)]
struct Span {
    start: usize,
    end: usize,
    print: Print,
    canon: bool,
}

// the most chunks of a block
const CHUNKS: usize = 130;

// ---- which destinations have plans

// the destinations of the plans, or of the control plans; NONE at others
fn dests_of(program: Program, control: bool) -> [usize; SLOTS]
    ensures { length result ≡ 64 }
{
    let mut dests = [NONE; SLOTS];
    for (dest, plan) in dests.iter_mut().zip(&program.plan).take(program.plans) {
        if !(control && plan.audio) {
            *dest = plan.dest as usize;
        }
    }
    dests
}

// ---- chunks

fn chunk_places(stdout: Stdout, n: usize, k: Chunk, out: &mut [u8], at: usize) -> usize {
    let mut p = trace_output_show::whole(stdout, out, at, n as u64);
    p = trace_output_figures::three_after(stdout, out, p, b" ", k.start, k.len, k.phase);
    trace_output_show::flag_after(stdout, out, p, b" ", k.tick)
}

// a number, and where the chunk stands
fn chunk_read(stdout: Stdout, n: usize, read: Option<Chunk>, out: &mut [u8], at: usize) -> usize {
    match read {
        None => at,
        Some(k) => chunk_places(stdout, n, k, out, at),
    }
}

fn chunk_line(stdout: Stdout, read: Option<Chunk>, i: usize, out: &mut [u8], at: usize) -> usize {
    let mut p = trace_output_show::put(stdout, out, at, b"CHUNK ");
    p = chunk_read(stdout, i, read, out, p);
    trace_output_show::put(stdout, out, p, b"\n")
}

fn chunk_lines(stdout: Stdout, engine: Engine, chunks: usize, out: &mut [u8], at: usize) -> usize {
    let mut p = at;
    for i in 0..chunks {
        p = chunk_line(stdout, engine.chunk(i), i, out, p);
    }
    p
}

// ---- control plans

// A plan's destination and width, and whether -0 is printed as 0.
#[derive(Clone, Copy)]
struct Shape {
    dest: usize,
    width: usize,
    canon: bool,
}

// row k of a destination
fn row_line(
    stdout: Stdout,
    name: &[u8],
    xs: &[f32],
    s: Shape,
    k: usize,
    out: &mut [u8],
    at: usize,
) -> usize {
    let width = s.width;
    let p = trace_output_figures::three_after(stdout, out, at, name, s.dest, k, width);
    trace_output_figures::line(
        stdout,
        trace_output_figures::row_of(xs, k, width),
        s.canon,
        out,
        p,
    )
}

fn control_full(
    stdout: Stdout,
    from: &[f32],
    to: &[f32],
    s: Shape,
    chunks: usize,
    out: &mut [u8],
    at: usize,
) -> usize {
    let mut p = at;
    for i in 0..chunks {
        p = row_line(stdout, b"FROM ", from, s, i, out, p);
        p = row_line(stdout, b"TO ", to, s, i, out, p);
    }
    p
}

fn control_hash(
    stdout: Stdout,
    from: &[f32],
    to: &[f32],
    s: Shape,
    chunks: usize,
    out: &mut [u8],
    at: usize,
) -> usize {
    let mut p = trace_output_figures::three_after(stdout, out, at, b"HC ", s.dest, chunks, s.width);
    p = trace_output_figures::hashed(stdout, from, out, p);
    p = trace_output_figures::hashed(stdout, to, out, p);
    trace_output_show::put(stdout, out, p, b"\n")
}

// the number of lane 0 after a blank
fn lane_0(stdout: Stdout, xs: &[f32], s: Shape, i: usize, out: &mut [u8], at: usize) -> usize {
    let x = list::read(xs, trace_output_figures::product(i, s.width), 0.0);
    trace_output_figures::number(stdout, x, s.canon, out, at)
}

// Where the output goes on after a line, or the lines of a destination, and what they are of: a chunk, a destination.
#[derive(Clone, Copy)]
struct Line {
    at: usize,
    of: usize,
}

// the line of chunk i
fn case_line(
    stdout: Stdout,
    engine: Engine,
    from: &[f32],
    to: &[f32],
    s: Shape,
    i: usize,
    out: &mut [u8],
    at: usize,
) -> Line
    ensures { result.of ≡ i }
{
    let mut p = trace_output_show::put(stdout, out, at, b"D ");
    p = chunk_read(stdout, s.dest, engine.chunk(i), out, p);
    p = lane_0(stdout, from, s, i, out, p);
    p = lane_0(stdout, to, s, i, out, p);
    p = trace_output_show::put(stdout, out, p, b"\n");
    Line { at: p, of: i }
}

// Where the output goes on after the lines of a destination, and the chunks in the order of their lines.
#[derive(Clone, Copy)]
struct Rows {
    at: usize,
    chunks: [usize; CHUNKS],
}

// line i is of chunk c
fn noted(chunks: [usize; CHUNKS], i: usize, c: usize) -> [usize; CHUNKS]
    ensures { result ≡ set chunks i c }
{
    let mut noted = chunks;
    if i < CHUNKS {
        noted[i] = c;
    }
    noted
}

// the lines of a control plan go by chunk
fn control_cases(
    stdout: Stdout,
    engine: Engine,
    from: &[f32],
    to: &[f32],
    s: Shape,
    chunks: usize,
    out: &mut [u8],
    at: usize,
) -> Rows
    ensures { (length result.chunks ≡ most_chunks most_frames)
        × ((k : ℕ) → k < chunks → k < most_chunks most_frames → get_or result.chunks k 0 ≡ k) }
{
    let mut printed = [0usize; CHUNKS];
    let mut p = at;
    for i in 0..chunks {
        let line = case_line(stdout, engine, from, to, s, i, out, p);
        p = line.at;
        let next = noted(printed, i, line.of);
        printed = next;
    }
    Rows {
        at: p,
        chunks: printed,
    }
}

fn cases_after(
    stdout: Stdout,
    engine: Engine,
    from: &[f32],
    to: &[f32],
    s: Shape,
    chunks: usize,
    out: &mut [u8],
    at: usize,
) -> usize {
    let rows = control_cases(stdout, engine, from, to, s, chunks, out, at);
    rows.at
}

fn control(
    stdout: Stdout,
    engine: Engine,
    values: &[f32],
    s: Shape,
    chunks: usize,
    print: Print,
    out: &mut [u8],
    at: usize,
) -> usize {
    let Ok(from) = engine.from_part(values, s.dest) else {
        return at;
    };
    let Ok(to) = engine.to_part(values, s.dest) else {
        return at;
    };
    match print {
        Print::Full => control_full(stdout, from, to, s, chunks, out, at),
        Print::Hash => control_hash(stdout, from, to, s, chunks, out, at),
        Print::Cases => cases_after(stdout, engine, from, to, s, chunks, out, at),
        Print::Silent => at,
    }
}

// ---- audio plans

fn audio_full(
    stdout: Stdout,
    audio: &[f32],
    s: Shape,
    start: usize,
    stop: usize,
    out: &mut [u8],
    at: usize,
) -> usize {
    let mut p = at;
    for k in start..stop {
        p = row_line(stdout, b"A ", audio, s, k, out, p);
    }
    p
}

fn audio_hash(
    stdout: Stdout,
    audio: &[f32],
    s: Shape,
    start: usize,
    frames: usize,
    out: &mut [u8],
    at: usize,
) -> usize {
    let width = s.width;
    let p = trace_output_figures::three_after(stdout, out, at, b"HA ", s.dest, frames, width);
    let first = trace_output_figures::product(start, width);
    let all = trace_output_figures::part(
        audio,
        first,
        trace_output_figures::product(frames, width),
    );
    let q = trace_output_figures::hashed(stdout, all, out, p);
    trace_output_show::put(stdout, out, q, b"\n")
}

// from a to before b
fn between(a: usize, b: usize) -> usize {
    if b <= a {
        return 0;
    }
    b - a
}

// how many whole rows there are
fn row_count(len: usize, width: usize) -> usize {
    if width == 0 {
        return 0;
    }
    len / width
}

fn audio(stdout: Stdout, audio: &[f32], s: Shape, span: Span, out: &mut [u8], at: usize) -> usize {
    let stop = trace_output_figures::lesser(span.end, row_count(audio.len(), s.width));
    let start = span.start;
    let print = span.print;
    match print {
        Print::Full => audio_full(stdout, audio, s, start, stop, out, at),
        Print::Hash => audio_hash(stdout, audio, s, start, between(start, stop), out, at),
        Print::Cases => at,
        Print::Silent => at,
    }
}

// ---- every destination

// a control plan; the chunks stand before the first
fn control_after(
    stdout: Stdout,
    engine: Engine,
    first: bool,
    values: &[f32],
    s: Shape,
    chunks: usize,
    print: Print,
    out: &mut [u8],
    at: usize,
) -> usize {
    if first {
        let p = chunk_lines(stdout, engine, chunks, out, at);
        return control(stdout, engine, values, s, chunks, print, out, p);
    }
    control(stdout, engine, values, s, chunks, print, out, at)
}

// the audio rows of a destination
fn sounded(
    stdout: Stdout,
    engine: Engine,
    mem: &[f32],
    s: Shape,
    span: Span,
    out: &mut [u8],
    at: usize,
) -> usize {
    let Ok(rows) = engine.audio_part(mem, s.dest) else {
        return at;
    };
    audio(stdout, rows, s, span, out, at)
}

// a destination's output; `first` says that the chunks stand before it
fn shown(
    stdout: Stdout,
    engine: Engine,
    dest: usize,
    first: bool,
    values: &[f32],
    mem: &[f32],
    span: Span,
    out: &mut [u8],
    at: usize,
) -> usize {
    let print = span.print;
    let canon = span.canon;
    match engine.output(values, mem, dest) {
        Err(_) | Ok(Output::Unmodulated) => at,
        Ok(Output::Audio { width }) => {
            let s = Shape { dest, width, canon };
            sounded(stdout, engine, mem, s, span, out, at)
        }
        Ok(Output::Control { width, chunks }) => {
            let s = Shape { dest, width, canon };
            control_after(stdout, engine, first, values, s, chunks, print, out, at)
        }
    }
}

// a destination's lines
fn one(
    stdout: Stdout,
    engine: Engine,
    dest: usize,
    first: bool,
    values: &[f32],
    mem: &[f32],
    span: Span,
    out: &mut [u8],
    at: usize,
) -> Line
    ensures { result.of ≡ dest }
{
    let p = shown(stdout, engine, dest, first, values, mem, span, out, at);
    Line { at: p, of: dest }
}

// Where the output goes on after the lines of a block, and the destinations in the order of their lines, NONE after the
// last.
#[derive(Clone, Copy)]
struct Printed {
    at: usize,
    dests: [usize; SLOTS],
}

// the outputs that have plans, in this order of their destinations: their lines go by destination number
fn planned(
    stdout: Stdout,
    engine: Engine,
    dests: &[usize],
    order: &[usize],
    first: usize,
    values: &[f32],
    audio: &[f32],
    span: Span,
    out: &mut [u8],
    at: usize,
) -> Printed
    requires { (length dests.now ≡ slots) × (length order.now ≡ slots)
        × ((k : ℕ) → k < slots → get_or order.now k 0 ≡ placed dests.now k) }
    ensures { (length result.dests ≡ slots)
        × ((k : ℕ) → k < slots → get_or result.dests k 0 ≡ placed dests.now k) }
{
    let mut printed = [NONE; SLOTS];
    let mut p = at;
    for k in 0..SLOTS {
        let d = order[k];
        if d == NONE {
            return Printed {
                at: p,
                dests: printed,
            };
        }
        let lines = one(stdout, engine, d, d == first, values, audio, span, out, p);
        p = lines.at;
        printed[k] = lines.of;
    }
    Printed {
        at: p,
        dests: printed,
    }
}

// a destination without a plan, after a blank
fn plain(stdout: Stdout, dests: &[usize], d: usize, out: &mut [u8], at: usize) -> usize {
    if dests.contains(&d) {
        return at;
    }
    trace_output_show::whole_after(stdout, out, at, b" ", d as u64)
}

fn plains(stdout: Stdout, dests: &[usize], n: usize, out: &mut [u8], at: usize) -> usize {
    let mut p = at;
    for d in 0..n {
        p = plain(stdout, dests, d, out, p);
    }
    p
}

// whether every destination below n has a plan
fn all_planned(dests: &[usize], n: usize) -> bool {
    (0..n).all(|d| dests.contains(&d))
}

fn unmodulated(
    stdout: Stdout,
    dests: &[usize],
    n: usize,
    print: Print,
    out: &mut [u8],
    at: usize,
) -> usize {
    if matches!(print, Print::Cases) {
        return at;
    }
    if all_planned(dests, n) {
        return at;
    }
    let mut p = trace_output_show::put(stdout, out, at, b"UNMOD");
    p = plains(stdout, dests, n, out, p);
    trace_output_show::put(stdout, out, p, b"\n")
}

// the greater, at most 1,024
fn count(a: usize, b: usize) -> usize {
    if a < b {
        return trace_output_figures::lesser(b, DESTINATIONS);
    }
    trace_output_figures::lesser(a, DESTINATIONS)
}

// the destination that the chunks stand before: the first of a control plan, where chunks are printed
fn chunks_at(program: Program, print: Print) -> usize {
    if matches!(print, Print::Cases) {
        return NONE;
    }
    let controls = dests_of(program, true);
    trace_print_order::least(&controls, 0)
}

fn all(
    stdout: Stdout,
    engine: Engine,
    dests: usize,
    values: &[f32],
    audio: &[f32],
    span: Span,
    out: &mut [u8],
    at: usize,
) -> usize {
    let program = engine.program();
    let n = count(dests, program.dests);
    let print = span.print;
    let first = chunks_at(program, print);
    let with_plans = dests_of(program, false);
    let order = trace_print_order::in_order(&with_plans);
    let printed = planned(
        stdout,
        engine,
        &with_plans,
        &order,
        first,
        values,
        audio,
        span,
        out,
        at,
    );
    unmodulated(stdout, &with_plans, n, print, out, printed.at)
}

// of two calls the refusal of the greater row, where one is refused
fn either_refused<A: Drop, B: Drop>(
    a: Result<A, Refusal>,
    b: Result<B, Refusal>,
) -> Option<Refusal> {
    match (a.err(), b.err()) {
        (Some(x), Some(y)) => Some(if x.number() < y.number() { y } else { x }),
        (x, y) => x.or(y),
    }
}

// Whether outputs are refused: every call that shows them owes the same.
fn judged(engine: Engine, values: &[f32], audio: &[f32]) -> Result<(), Stop> {
    let shape = engine.output(values, audio, 0).err();
    let rows = either_refused(engine.audio_part(audio, 0), engine.from_part(values, 0));
    let ends = either_refused(engine.frame(audio, 0, 0), engine.to_part(values, 0));
    if shape != rows || shape != ends {
        return Err(Stop::Error(Fault::Parted));
    }
    match shape {
        Some(row) => Err(Stop::Refused(row)),
        None => Ok(()),
    }
}

// The outputs of the destinations below `dests` (the session's registry) and of those that the installed program was
// compiled against; audio rows from `start` to before `end`. Row 14 is judged whatever is printed.
pub fn outputs(
    stdout: Stdout,
    engine: Engine,
    dests: usize,
    values: &[f32],
    audio: &[f32],
    start: usize,
    end: usize,
    how: How,
    out: &mut [u8],
    at: usize,
) -> Result<usize, Stop> {
    judged(engine, values, audio)?;
    let print = how.print;
    if matches!(print, Print::Silent) {
        return Ok(at);
    }
    let span = Span {
        start,
        end,
        print,
        canon: how.canon,
    };
    Ok(all(stdout, engine, dests, values, audio, span, out, at))
}
