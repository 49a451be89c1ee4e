// The installed program's own memory: the M lines. Its places are those of docs/CALLS.md, Memories.
use config::{Config, DESTINATIONS, FRAMES, SLOTS};
use state::{Input, Plan, Program, Read, Route};
use std::io::Stdout;

// The sizes that places follow from: the lane stride, the frames, and the numbers of a plan and of all plans in the values.
#[derive(Clone, Copy)]
struct Sizes {
    stride: usize,
    frames: usize,
    plan: usize,
    plans: usize,
}

fn sizes_of(config: Config, plans: usize) -> Sizes {
    let frames = config.max_frames;
    let stride = config::lane_stride(config.voices);
    let chunks = config::most_chunks(frames);
    let plan = trace_output_figures::product(
        stride,
        trace_output_figures::sum(trace_output_figures::product(2, chunks), 6),
    );
    Sizes {
        stride,
        frames: trace_output_figures::lesser(frames, FRAMES),
        plan,
        plans: trace_output_figures::product(plans, plan),
    }
}

fn width(stride: usize, voice: bool) -> usize {
    if voice {
        return stride;
    }
    1
}

// ---- the last tick of control plans

fn tick_lines(
    stdout: Stdout,
    plan: Plan,
    i: usize,
    s: Sizes,
    values: &[f32],
    canon: bool,
    out: &mut [u8],
    at: usize,
) -> usize {
    let stride = s.stride;
    let w = width(stride, plan.voice);
    let from = trace_output_figures::product(i, s.plan);
    let mut p = trace_output_show::whole_after(stdout, out, at, b"M from ", plan.dest as u64);
    p = trace_output_figures::line(
        stdout,
        trace_output_figures::part(values, from, w),
        canon,
        out,
        p,
    );
    p = trace_output_show::whole_after(stdout, out, p, b"M cur ", plan.dest as u64);
    trace_output_figures::line(
        stdout,
        trace_output_figures::part(values, trace_output_figures::sum(from, stride), w),
        canon,
        out,
        p,
    )
}

fn ticks(
    stdout: Stdout,
    program: Program,
    s: Sizes,
    values: &[f32],
    canon: bool,
    out: &mut [u8],
    at: usize,
) -> usize {
    let mut p = at;
    for (i, plan) in program.plan.iter().enumerate().take(program.control) {
        p = tick_lines(stdout, *plan, i, s, values, canon, out, p);
    }
    p
}

// ---- slews and random inputs

// whether an input keeps random numbers, or a slew
fn keeps(input: Input, random: bool) -> bool {
    if random {
        matches!(input.read, Read::RouteRandom)
    } else {
        input.slew.is_some()
    }
}

// an input's lanes, after the slot and whether it is the aux
fn input_line(
    stdout: Stdout,
    random: bool,
    slot: u8,
    aux: bool,
    lanes: &[f32],
    canon: bool,
    out: &mut [u8],
    at: usize,
) -> usize {
    let mut p = trace_output_show::either(stdout, out, at, random, b"M random ", b"M slew ");
    p = trace_output_show::whole(stdout, out, p, slot as u64);
    p = trace_output_show::flag_after(stdout, out, p, b" ", aux);
    trace_output_figures::line(stdout, lanes, canon, out, p)
}

// of a route's numbers, those of its source
fn source_line(
    stdout: Stdout,
    route: Route,
    random: bool,
    mem: &[f32],
    stride: usize,
    canon: bool,
    out: &mut [u8],
    at: usize,
) -> usize {
    let source = route.source;
    if !keeps(source, random) {
        return at;
    }
    let lanes = trace_output_figures::row_of(mem, 0, stride);
    input_line(stdout, random, route.slot, false, lanes, canon, out, at)
}

// those of its aux
fn aux_line(
    stdout: Stdout,
    route: Route,
    random: bool,
    mem: &[f32],
    stride: usize,
    canon: bool,
    out: &mut [u8],
    at: usize,
) -> usize {
    if !route.aux.is_some_and(|input| keeps(input, random)) {
        return at;
    }
    let lanes = trace_output_figures::row_of(mem, 1, stride);
    input_line(stdout, random, route.slot, true, lanes, canon, out, at)
}

// the slews of route r, or its random inputs
fn route_part(values: &[f32], s: Sizes, r: usize, random: bool) -> &[f32] {
    let stride = s.stride;
    let at = trace_output_figures::sum(
        s.plans,
        trace_output_figures::product(r, trace_output_figures::product(8, stride)),
    );
    let two = trace_output_figures::product(2, stride);
    if random {
        return trace_output_figures::part(values, trace_output_figures::sum(at, two), two);
    }
    trace_output_figures::part(values, at, two)
}

fn route_lines(
    stdout: Stdout,
    program: Program,
    random: bool,
    s: Sizes,
    values: &[f32],
    canon: bool,
    out: &mut [u8],
    at: usize,
) -> usize {
    let stride = s.stride;
    let mut p = at;
    for (r, route) in program.route.iter().enumerate().take(program.routes) {
        let mem = route_part(values, s, r, random);
        p = source_line(stdout, *route, random, mem, stride, canon, out, p);
        p = aux_line(stdout, *route, random, mem, stride, canon, out, p);
    }
    p
}

// ---- audio rows

fn audio_line(
    stdout: Stdout,
    plan: Plan,
    i: usize,
    s: Sizes,
    audio: &[f32],
    out: &mut [u8],
    at: usize,
) -> usize {
    let w = width(s.stride, plan.voice);
    let from = trace_output_figures::product(i, trace_output_figures::product(s.stride, s.frames));
    let all = trace_output_figures::part(audio, from, trace_output_figures::product(w, s.frames));
    let mut p = trace_output_figures::two_after(
        stdout,
        out,
        at,
        b"M audio ",
        plan.dest as usize,
        w,
    );
    p = trace_output_figures::hashed(stdout, all, out, p);
    trace_output_show::put(stdout, out, p, b"\n")
}

// the audio rows of a destination
fn audio_of(
    stdout: Stdout,
    program: Program,
    dest: usize,
    s: Sizes,
    audio: &[f32],
    out: &mut [u8],
    at: usize,
) -> usize {
    for (i, plan) in program.plan.iter().enumerate().take(program.plans) {
        if plan.audio && plan.dest as usize == dest {
            return audio_line(stdout, *plan, i, s, audio, out, at);
        }
    }
    at
}

fn all_audio(
    stdout: Stdout,
    program: Program,
    s: Sizes,
    audio: &[f32],
    out: &mut [u8],
    at: usize,
) -> usize {
    let n = trace_output_figures::lesser(program.dests, DESTINATIONS);
    let mut p = at;
    for d in 0..n {
        p = audio_of(stdout, program, d, s, audio, out, p);
    }
    p
}

// the first line
fn head(stdout: Stdout, name: &[u8], primed: bool, out: &mut [u8], at: usize) -> usize {
    let mut p = trace_output_show::put(stdout, out, at, b"M program ");
    p = trace_output_show::put(stdout, out, p, name);
    p = trace_output_show::flag_after(stdout, out, p, b" primed ", primed);
    trace_output_show::put(stdout, out, p, b"\n")
}

fn all_lines(
    stdout: Stdout,
    program: Program,
    s: Sizes,
    values: &[f32],
    audio: &[f32],
    canon: bool,
    out: &mut [u8],
    at: usize,
) -> usize {
    let mut p = ticks(stdout, program, s, values, canon, out, at);
    p = route_lines(stdout, program, false, s, values, canon, out, p);
    p = route_lines(stdout, program, true, s, values, canon, out, p);
    all_audio(stdout, program, s, audio, out, p)
}

// A program's memory, as text. `primed`: its control plans have ticked since it was installed.
pub fn memory(
    stdout: Stdout,
    program: Program,
    primed: bool,
    name: &[u8],
    values: &[f32],
    audio: &[f32],
    canon: bool,
    out: &mut [u8],
    at: usize,
) -> usize {
    let config = program.config;
    let s = sizes_of(config, program.plans.min(SLOTS));
    let p = head(stdout, name, primed, out, at);
    all_lines(stdout, program, s, values, audio, canon, out, p)
}
