// A program from what it is compiled from (document 01, Plan and route; program.rs 296-558). The definitions are in
// model's specs/Plans.
#![tactic(auto)]

ghost use Rattle.std.specs.Prelude.{◌≡◌, [], map, ◌≤◌, length};
ghost use Rattle.state.specs.declared.Slot.{Slot};
ghost use Rattle.state.specs.Registry.{dest_at};
ghost use Rattle.state_filled.specs.Filled.{no_plan, no_route, no_skip};
ghost use Rattle.model.specs.Feeds.{is_voice, counted, audio_in};
ghost use Rattle.model.specs.Routes.{routes_in};
ghost use Rattle.model.specs.Plans.{readers_into, plan_by, plans_in, routes_over, gains_of, compiled};
ghost use Rattle.model.specs.Compile.{empty_of, zeroed};
ghost use Rattle.compile_routes.specs.Added.{routes_added};

use config::{Config, SLOTS};
use state::{
    Base, Candidate, Dest, Destinations, Gains, Matrix, NoteCurve, Plan, Program, Reader, Route,
    Skipped, Slot, Sources,
};
use state_filled::List;

// ---- plans

fn plan_by(d: u16, entry: Dest, base: Base, audio: bool, first: usize, count: usize) -> Plan
    ensures { result ≡ plan_by d entry base audio first count }
{
    let scope = entry.scope;
    Plan {
        dest: d,
        voice: compile_feeds::is_voice(scope),
        audio,
        min: entry.min,
        max: entry.max,
        base,
        first,
        count,
    }
}

// the plan of the entry, number d
fn plan_of(
    sources: Sources,
    candidates: &[Candidate],
    d: u16,
    entry: Dest,
    first: usize,
    count: usize,
) -> Plan
    ensures { result ≡ plan_by d entry (counted sources entry.feed)
        (audio_in sources candidates.now d entry) first count }
{
    let feed = entry.feed;
    let base = compile_feeds::counted(sources, feed);
    let audio = compile_feeds::is_audio(sources, candidates, d, entry);
    plan_by(d, entry, base, audio, first, count)
}

// the plans in their order
#[tactic(auto, unfolding(model::specs::Plans::plan_by))]
fn plans(
    sources: Sources,
    dests: Destinations,
    candidates: &[Candidate],
    readers: &List<Reader>,
    order: &List<u16>,
) -> List<Plan>
    ensures { result.items ≡ plans_in sources dests candidates.now readers.now.items 0 order.now.items }
{
    let mut out = List::new();
    let mut first = 0;
    for d in order.as_slice() {
        let e = state_registry::dest_at(dests, *d as usize);
        let count = compile_routes::route_count(readers, *d);
        state_filled::add(&mut out, plan_of(sources, candidates, *d, e, first, count));
        first += count;
    }
    out
}

// ---- routes

// the routes, plan by plan
fn routes(
    rate: f32,
    sources: Sources,
    dests: Destinations,
    slot: [Slot; SLOTS],
    readers: &[Reader],
    order: &List<u16>,
) -> List<Route>
    ensures { result.items ≡ routes_added []
        (routes_over rate sources dests slot readers.now order.now.items order.now.items) }
{
    let mut out = List::new();
    for d in order.as_slice() {
        let e = state_registry::dest_at(dests, *d as usize);
        let voice = compile_feeds::is_voice(e.scope);
        compile_routes::add_routes(&mut out, rate, sources, order, slot, voice, *d, readers);
    }
    out
}

// ---- gains

// every slot's amount and output
fn gains(slot: [Slot; SLOTS]) -> Gains
    ensures { result ≡ gains_of slot }
{
    let mut amount = [0.0; SLOTS];
    let mut output = [0.0; SLOTS];
    for n in 0..SLOTS {
        let s = slot[n];
        amount[n] = s.amount;
        output[n] = s.output;
    }
    Gains { amount, output }
}

// ---- the program

// what stands past the last plan
fn no_plan() -> Plan
    ensures { result ≡ no_plan }
{
    Plan::default()
}

// what stands past the last route
fn no_route() -> Route
    ensures { result ≡ no_route }
{
    Route::default()
}

// what stands past the last slot left out
fn no_skip() -> Skipped
    ensures { result ≡ no_skip }
{
    Skipped::default()
}

// the program of matrix, registries and configuration
pub fn compiled(matrix: Matrix, sources: Sources, dests: Destinations, config: Config) -> Program
    ensures { result ≡ compiled (record { matrix = matrix; sources = sources; dests = dests; config = config }) }
{
    let slot = matrix.slot;
    let verdict = compile_candidates::verdicts(sources, dests, slot);
    let candidates = compile_candidates::candidates(&verdict);
    let used = compile_feeds::used_dests(sources, dests, &candidates);
    let readers = compile_feeds::readers(&used, &candidates);
    let planned = compile_order::plan_order(&used, &readers);
    let listed = compile_order::numbers(&planned);
    let order = &listed;
    let plans = plans(sources, dests, &candidates, &readers, order);
    let routes = routes(config.sample_rate, sources, dests, slot, &readers, order);
    let left_out = compile_candidates::skips(&verdict);
    Program {
        config,
        sources: state_registry::source_count(sources),
        dests: state_registry::dest_count(dests),
        plans: order.len(),
        control: planned.control,
        routes: candidates.len(),
        plan: state_filled::padded(&plans, no_plan()),
        route: state_filled::padded(&routes, no_route()),
        gains: gains(slot),
        velocity: matrix.velocity,
        key: matrix.key,
        glide: matrix.glide,
        velocity_legato: matrix.velocity_legato,
        tabled: slots_tables::names_table(matrix),
        skips: left_out.len(),
        skipped: state_filled::padded(&left_out, no_skip()),
    }
}

// the program with no plans and no routes
#[tactic(auto, unfolding(model::specs::Compile::empty_of))]
pub fn empty_of(config: Config) -> Program
    ensures { result ≡ empty_of config }
{
    Program {
        config,
        sources: 0,
        dests: 0,
        plans: 0,
        control: 0,
        routes: 0,
        plan: [no_plan(); SLOTS],
        route: [no_route(); SLOTS],
        gains: Gains {
            amount: [0.0; SLOTS],
            output: [1.0; SLOTS],
        },
        velocity: NoteCurve::Linear,
        key: NoteCurve::Linear,
        glide: false,
        velocity_legato: false,
        tabled: false,
        skips: 0,
        skipped: [no_skip(); SLOTS],
    }
}

// the first n numbers become 0
pub fn zero(mem: &mut [f32], n: usize)
    requires { n ≤ length mem.old }
    ensures { mem.new ≡ zeroed n mem.old }
{
    list::fill_part(mem, 0, n, 0.0);
}
