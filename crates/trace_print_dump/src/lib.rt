// A compiled program as text: PROGRAM, SKIP, PLAN and ROUTE lines (oracle/README.md, What is printed). The offsets are the port's own: docs/CALLS.md, Memories.
#![tactic(auto)]

use config::SLOTS;
use state::{Base, Gain, Input, Plan, Program, Read, Reason, Route, Skipped, Slew};
use std::io::Stdout;

// ---- the program

fn head(stdout: Stdout, program: Program, stride: usize, out: &mut [u8], at: usize) -> usize {
    let mut p = trace_output_show::whole_after(stdout, out, at, b"PROGRAM stride ", stride as u64);
    p = trace_output_show::whole_after(stdout, out, p, b" plans ", program.plans as u64);
    p = trace_output_show::whole_after(stdout, out, p, b" control ", program.control as u64);
    p = trace_output_show::whole_after(stdout, out, p, b" routes ", program.routes as u64);
    p = trace_output_show::flag_after(
        stdout,
        out,
        p,
        b" luts 0 slew 0 random 0 glide ",
        program.glide,
    );
    p = trace_output_show::flag_after(stdout, out, p, b" vlegato ", program.velocity_legato);
    trace_output_show::put(stdout, out, p, b"\n")
}

fn reason(stdout: Stdout, r: Reason, out: &mut [u8], at: usize) -> usize {
    match r {
        Reason::UnknownSource => trace_output_show::put(stdout, out, at, b" source\n"),
        Reason::UnknownAux => trace_output_show::put(stdout, out, at, b" aux\n"),
        Reason::UnknownDestination => trace_output_show::put(stdout, out, at, b" dest\n"),
    }
}

fn skip(stdout: Stdout, k: Skipped, out: &mut [u8], at: usize) -> usize {
    let p = trace_output_show::whole_after(stdout, out, at, b"SKIP ", k.slot as u64);
    let why = k.reason;
    reason(stdout, why, out, p)
}

fn skips(stdout: Stdout, program: Program, out: &mut [u8], at: usize) -> usize {
    let mut p = at;
    for k in program.skipped.iter().take(program.skips) {
        p = skip(stdout, *k, out, p);
    }
    p
}

// ---- plans

fn base(stdout: Stdout, b: Base, out: &mut [u8], at: usize) -> usize {
    match b {
        Base::Set => trace_output_show::put(stdout, out, at, b" base set"),
        Base::Held(n) => trace_output_show::whole_after(stdout, out, at, b" base held:", n as u64),
        Base::Amount(n) => trace_output_show::whole_after(stdout, out, at, b" base amt:", n as u64),
        Base::Output(n) => trace_output_show::whole_after(stdout, out, at, b" base out:", n as u64),
    }
}

fn plan_head(stdout: Stdout, plan: Plan, i: usize, out: &mut [u8], at: usize) -> usize {
    let mut p = trace_output_show::whole_after(stdout, out, at, b"PLAN ", i as u64);
    p = trace_output_show::whole_after(stdout, out, p, b" dest ", plan.dest as u64);
    p = trace_output_show::either(stdout, out, p, plan.voice, b" scope v", b" scope g");
    trace_output_show::either(stdout, out, p, plan.audio, b" rate a", b" rate c")
}

fn plan_routes(stdout: Stdout, plan: Plan, out: &mut [u8], at: usize) -> usize {
    let first = plan.first;
    let mut p = trace_output_show::whole_after(stdout, out, at, b" routes ", first as u64);
    p = trace_output_show::whole_after(
        stdout,
        out,
        p,
        b" ",
        std::num::wrapping_add_u64(first as u64, plan.count as u64),
    );
    trace_output_show::put(stdout, out, p, b" at 0 out 0\n")
}

fn plan_line(stdout: Stdout, plan: Plan, i: usize, out: &mut [u8], at: usize) -> usize {
    let b = plan.base;
    let mut p = plan_head(stdout, plan, i, out, at);
    p = base(stdout, b, out, p);
    p = trace_output_show::float_after(stdout, out, p, b" min ", plan.min);
    p = trace_output_show::float_after(stdout, out, p, b" max ", plan.max);
    plan_routes(stdout, plan, out, p)
}

fn plans(stdout: Stdout, program: Program, out: &mut [u8], at: usize) -> usize {
    let mut p = at;
    for (i, plan) in program.plan.iter().enumerate().take(program.plans) {
        p = plan_line(stdout, *plan, i, out, p);
    }
    p
}

// ---- routes

fn dest_of(dests: &[usize], i: u8) -> u64 {
    match dests.get(i as usize) {
        Some(dest) => *dest as u64,
        None => 65535,
    }
}

fn fed(stdout: Stdout, dests: &[usize], i: u8, voice: bool, out: &mut [u8], at: usize) -> usize {
    let p = trace_output_show::whole_after(stdout, out, at, b"fed:", dest_of(dests, i));
    trace_output_show::either(stdout, out, p, voice, b":0:v", b":0:g")
}

fn sourced(
    stdout: Stdout,
    name: &[u8],
    source: u8,
    voice: bool,
    out: &mut [u8],
    at: usize,
) -> usize {
    let p = trace_output_show::whole_after(stdout, out, at, name, source as u64);
    trace_output_show::either(stdout, out, p, voice, b":v", b":g")
}

fn read(stdout: Stdout, r: Read, dests: &[usize], out: &mut [u8], at: usize) -> usize {
    match r {
        Read::Signal { source, voice } => sourced(stdout, b"sig:", source, voice, out, at),
        Read::Held { source, voice } => sourced(stdout, b"held:", source, voice, out, at),
        Read::Fed { plan, voice } => fed(stdout, dests, plan, voice, out, at),
        Read::Constant => trace_output_show::put(stdout, out, at, b"const"),
        Read::RouteRandom => trace_output_show::put(stdout, out, at, b"rnd:0"),
    }
}

fn gain(stdout: Stdout, g: Gain, dests: &[usize], out: &mut [u8], at: usize) -> usize {
    match g {
        Gain::Live => trace_output_show::put(stdout, out, at, b"live"),
        Gain::Fed { plan, voice } => fed(stdout, dests, plan, voice, out, at),
    }
}

fn limit(stdout: Stdout, up: f32, down: f32, out: &mut [u8], at: usize) -> usize {
    let p = trace_output_show::float_after(stdout, out, at, b"0:", up);
    trace_output_show::float_after(stdout, out, p, b":", down)
}

fn slew(stdout: Stdout, s: Option<Slew>, out: &mut [u8], at: usize) -> usize {
    match s {
        None => trace_output_show::put(stdout, out, at, b"-"),
        Some(Slew { up, down }) => limit(stdout, up, down, out, at),
    }
}

fn input(stdout: Stdout, i: Input, dests: &[usize], out: &mut [u8], at: usize) -> usize {
    let r = i.read;
    let s = i.slew;
    let mut p = read(stdout, r, dests, out, at);
    p = trace_output_show::either(stdout, out, p, i.bipolar, b" b curve ", b" u curve ");
    p = trace_output_show::either(stdout, out, p, i.table, b"0 slew ", b"- slew ");
    slew(stdout, s, out, p)
}

fn aux_input(
    stdout: Stdout,
    a: Option<Input>,
    dests: &[usize],
    out: &mut [u8],
    at: usize,
) -> usize {
    match a {
        None => trace_output_show::put(stdout, out, at, b"-"),
        Some(i) => input(stdout, i, dests, out, at),
    }
}

fn input_steady(i: Input) -> bool {
    !matches!(i.read, Read::Signal { .. }) && i.slew.is_none()
}

// whether a route's value can't change within a control period: it reads no signal and slews nothing (program.rs 108-110, 492-495)
fn steady(route: Route) -> bool {
    input_steady(route.source) && route.aux.is_none_or(input_steady)
}

fn route_numbers(
    stdout: Stdout,
    route: Route,
    i: usize,
    of: usize,
    out: &mut [u8],
    at: usize,
) -> usize {
    let mut p = trace_output_show::whole_after(stdout, out, at, b"ROUTE ", i as u64);
    p = trace_output_show::whole_after(stdout, out, p, b" slot ", route.slot as u64);
    trace_output_show::whole_after(stdout, out, p, b" plan ", of as u64)
}

fn route_head(
    stdout: Stdout,
    route: Route,
    i: usize,
    of: usize,
    out: &mut [u8],
    at: usize,
) -> usize {
    let mut p = route_numbers(stdout, route, i, of, out, at);
    p = trace_output_show::either(stdout, out, p, route.voice, b" scope v", b" scope g");
    p = trace_output_show::either(stdout, out, p, route.bipolar, b" pol b", b" pol u");
    trace_output_show::flag_after(stdout, out, p, b" inv ", route.aux_invert)
}

fn route_gains(stdout: Stdout, route: Route, dests: &[usize], out: &mut [u8], at: usize) -> usize {
    let amount = route.amount;
    let output = route.output;
    let mut p = trace_output_show::put(stdout, out, at, b" amt ");
    p = gain(stdout, amount, dests, out, p);
    p = trace_output_show::put(stdout, out, p, b" out ");
    p = gain(stdout, output, dests, out, p);
    p = trace_output_show::float_after(stdout, out, p, b" affine ", route.scale);
    trace_output_show::float_after(stdout, out, p, b" ", route.offset)
}

fn route_inputs(stdout: Stdout, route: Route, dests: &[usize], out: &mut [u8], at: usize) -> usize {
    let source = route.source;
    let aux = route.aux;
    let mut p = trace_output_show::put(stdout, out, at, b" src ");
    p = input(stdout, source, dests, out, p);
    p = trace_output_show::put(stdout, out, p, b" aux ");
    p = aux_input(stdout, aux, dests, out, p);
    trace_output_show::put(stdout, out, p, b"\n")
}

fn route_line(
    stdout: Stdout,
    route: Route,
    i: usize,
    of: usize,
    dests: &[usize],
    out: &mut [u8],
    at: usize,
) -> usize {
    let mut p = route_head(stdout, route, i, of, out, at);
    p = route_gains(stdout, route, dests, out, p);
    p = trace_output_show::flag_after(stdout, out, p, b" steady ", steady(route));
    p = trace_output_show::flag_after(stdout, out, p, b" simple ", route.simple);
    route_inputs(stdout, route, dests, out, p)
}

fn has_route(plan: Plan, i: usize) -> bool {
    plan.first <= i && i - plan.first < plan.count
}

// the plan whose routes route i is among
fn plan_of(program: Program, i: usize) -> usize {
    let mut plans = program.plan.iter().take(program.plans);
    match plans.position(|plan| has_route(*plan, i)) {
        Some(k) => k,
        None => program.plans.min(SLOTS),
    }
}

// the destinations of the plans
fn dests_of(program: Program) -> [usize; SLOTS] {
    program.plan.map(|plan| plan.dest as usize)
}

fn routes(stdout: Stdout, program: Program, dests: &[usize], out: &mut [u8], at: usize) -> usize {
    let mut p = at;
    for (i, route) in program.route.iter().enumerate().take(program.routes) {
        p = route_line(stdout, *route, i, plan_of(program, i), dests, out, p);
    }
    p
}

// the whole program, as text
pub fn program(
    stdout: Stdout,
    program: Program,
    stride: usize,
    out: &mut [u8],
    at: usize,
) -> usize {
    let dests = dests_of(program);
    let mut p = head(stdout, program, stride, out, at);
    p = skips(stdout, program, out, p);
    p = plans(stdout, program, out, p);
    routes(stdout, program, &dests, out, p)
}
