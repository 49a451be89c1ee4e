// An engine's state: the S lines. The clock is printed as the phase, the count of gliding values as 0, and there are no note counters: none of these is kept.
use config::{SLOTS, SOURCES, VOICES};
use state::{Gains, State};
use std::io::Stdout;
use voice::{Glide, Marks, Notes, Voices};

// ---- lanes

fn flags(
    stdout: Stdout,
    name: &[u8],
    on: [bool; VOICES],
    n: usize,
    out: &mut [u8],
    at: usize,
) -> usize {
    let mut p = trace_output_show::put(stdout, out, at, name);
    for is_on in on.iter().take(n) {
        p = trace_output_show::flag(stdout, out, p, *is_on);
    }
    trace_output_show::put(stdout, out, p, b"\n")
}

// a name and the first n numbers
fn row_line(
    stdout: Stdout,
    name: &[u8],
    xs: &[f32],
    n: usize,
    canon: bool,
    out: &mut [u8],
    at: usize,
) -> usize {
    let p = trace_output_show::put(stdout, out, at, name);
    trace_output_figures::line(stdout, trace_output_figures::part(xs, 0, n), canon, out, p)
}

// ---- the first line

fn newest(stdout: Stdout, n: Option<usize>, out: &mut [u8], at: usize) -> usize {
    match n {
        None => trace_output_show::put(stdout, out, at, b" newest -"),
        Some(v) => trace_output_show::whole_after(stdout, out, at, b" newest ", v as u64),
    }
}

fn clock(stdout: Stdout, phase: usize, out: &mut [u8], at: usize) -> usize {
    let c = phase % 32;
    let p = trace_output_show::whole_after(stdout, out, at, b"S clock ", c as u64);
    trace_output_show::whole_after(stdout, out, p, b" phase ", c as u64)
}

fn any_marks(stdout: Stdout, marks: Marks, out: &mut [u8], at: usize) -> usize {
    let mut p = trace_output_show::flag_after(stdout, out, at, b" anyfresh ", marks.any_fresh);
    p = trace_output_show::flag_after(stdout, out, p, b" anyrenote ", marks.any_renoted);
    trace_output_show::put(stdout, out, p, b"\n")
}

fn head(stdout: Stdout, state: State, out: &mut [u8], at: usize) -> usize {
    let voices = state.voices;
    let n = voices.newest;
    let marks = state.marks;
    let mut p = clock(stdout, state.phase, out, at);
    p = newest(stdout, n, out, p);
    p = trace_output_show::flag_after(stdout, out, p, b" gliding 0 alternate ", state.alternate);
    p = trace_output_show::put(stdout, out, p, b" rng");
    p = trace_output_figures::word(stdout, state.draw, out, p);
    p = trace_output_show::whole_after(stdout, out, p, b" limit ", state.limit as u64);
    any_marks(stdout, marks, out, p)
}

// ---- voices, marks and notes

fn voice_lines(
    stdout: Stdout,
    voices: Voices,
    marks: Marks,
    n: usize,
    out: &mut [u8],
    at: usize,
) -> usize {
    let active = voices.active;
    let fresh = marks.fresh;
    let renoted = marks.renoted;
    let mut p = flags(stdout, b"S active ", active, n, out, at);
    p = flags(stdout, b"S fresh ", fresh, n, out, p);
    flags(stdout, b"S renote ", renoted, n, out, p)
}

fn value_lines(
    stdout: Stdout,
    velocity: Notes,
    key: Notes,
    n: usize,
    canon: bool,
    out: &mut [u8],
    at: usize,
) -> usize {
    let velocities = velocity.value;
    let keys = key.value;
    let p = row_line(stdout, b"S notevalue 0", &velocities, n, canon, out, at);
    row_line(stdout, b"S notevalue 1", &keys, n, canon, out, p)
}

fn glide_lines(
    stdout: Stdout,
    velocity: Notes,
    key: Notes,
    n: usize,
    canon: bool,
    out: &mut [u8],
    at: usize,
) -> usize {
    let target = |notes: Notes| notes.glide.map(|g: Glide| g.target);
    let step = |notes: Notes| notes.glide.map(|g: Glide| g.step);
    let mut p = row_line(stdout, b"S target 0", &target(velocity), n, canon, out, at);
    p = row_line(stdout, b"S step 0", &step(velocity), n, canon, out, p);
    p = row_line(stdout, b"S target 1", &target(key), n, canon, out, p);
    row_line(stdout, b"S step 1", &step(key), n, canon, out, p)
}

// ---- held numbers, bases and gains

fn held_line(
    stdout: Stdout,
    held: &[f32],
    source: usize,
    stride: usize,
    canon: bool,
    out: &mut [u8],
    at: usize,
) -> usize {
    let p = trace_output_show::whole_after(stdout, out, at, b"S held ", source as u64);
    trace_output_figures::line(
        stdout,
        trace_output_figures::row_of(held, source, stride),
        canon,
        out,
        p,
    )
}

fn held_lines(
    stdout: Stdout,
    held: &[f32],
    sources: usize,
    stride: usize,
    canon: bool,
    out: &mut [u8],
    at: usize,
) -> usize {
    let n = trace_output_figures::lesser(sources, SOURCES);
    let mut p = at;
    for s in 0..n {
        p = held_line(stdout, held, s, stride, canon, out, p);
    }
    p
}

fn gain_lines(stdout: Stdout, gains: Gains, canon: bool, out: &mut [u8], at: usize) -> usize {
    let amount = gains.amount;
    let output = gains.output;
    let p = row_line(stdout, b"S amounts", &amount, SLOTS, canon, out, at);
    row_line(stdout, b"S outputs", &output, SLOTS, canon, out, p)
}

// the first line, and the voices
fn sounding(stdout: Stdout, state: State, stride: usize, out: &mut [u8], at: usize) -> usize {
    let voices = state.voices;
    let marks = state.marks;
    let p = head(stdout, state, out, at);
    voice_lines(stdout, voices, marks, stride, out, p)
}

// gains, notes and the count of chunks
fn playing(
    stdout: Stdout,
    state: State,
    stride: usize,
    canon: bool,
    out: &mut [u8],
    at: usize,
) -> usize {
    let gains = state.gains;
    let velocity = state.velocity;
    let key = state.key;
    let block = state.block;
    let mut p = gain_lines(stdout, gains, canon, out, at);
    p = value_lines(stdout, velocity, key, stride, canon, out, p);
    p = glide_lines(stdout, velocity, key, stride, canon, out, p);
    p = trace_output_show::whole_after(
        stdout,
        out,
        p,
        b"S chunks ",
        block_chunks::total(block) as u64,
    );
    trace_output_show::put(stdout, out, p, b"\n")
}

// the state, as text
pub fn state(
    stdout: Stdout,
    state: State,
    held: &[f32],
    globals: &[f32],
    bases: &[f32],
    canon: bool,
    out: &mut [u8],
    at: usize,
) -> usize {
    let config = state.config;
    let stride = config::lane_stride(config.voices);
    let sources = state.sources;
    let mut p = sounding(stdout, state, stride, out, at);
    p = row_line(stdout, b"S heldglobal", globals, sources, canon, out, p);
    p = held_lines(stdout, held, sources, stride, canon, out, p);
    p = row_line(stdout, b"S base", bases, state.dests, canon, out, p);
    playing(stdout, state, stride, canon, out, p)
}
