// The slews of a plan's routes after it was worked out, and a plan's new rows, put where they lie (engine.rs 843-935, 1326-1343, 1434-1446; document 01, Chunk and
// value). The definitions are in model's specs/Tick and specs/Slews. A contract holds of every environment that has what the function is handed: specs/Seen says
// what that is.
#![tactic(auto)]

ghost use Rattle.std.specs.Prelude.{◌≡◌, false, ℕ, ◌+◌, ◌*◌, ◌≤◌, ◌<◌, length, set, get_or, Float};
ghost use Rattle.std.specs.Float.{nan};
ghost use Rattle.config.specs.Sizes.{slots};
ghost use Rattle.number.specs.Number.{hold};
ghost use Rattle.state.specs.declared.Route.{Route};
ghost use Rattle.state_filled.specs.Filled.{no_route};
ghost use Rattle.state.specs.declared.State.{State};
ghost use Rattle.model.specs.Counts.{at};
ghost use Rattle.model.specs.Env.{Env, Rows, Own};
ghost use Rattle.model.specs.Lanes.{snap_of};
ghost use Rattle.model.specs.Mix.{Mix};
ghost use Rattle.model.specs.Routes.{free_slew};
ghost use Rattle.model.specs.Slews.{moves_in, source_after, aux_after};
ghost use Rattle.model.specs.Tick.{fill_from, lanes_from, starting, kept, held_sum, new_to, new_from, put_slews, slew_after};
ghost use Rattle.lane_input.specs.Reads.{plan_rows};
ghost use Rattle.lane.specs.View.{most_values, Placed, Viewed, own_rows};
ghost use Rattle.plan_slews.specs.Rows.{IsRow};
ghost use Rattle.plan_sum.specs.Job.{Bounded, IsMix};
ghost use Rattle.plan_slews.specs.Seen.{Lies, Ticks, Moved};
ghost use Rattle.plan_slews.specs.Put.{aux_free, still, new_need, new_start, IsNew, put_route, put_new};

use config::{SLOTS, VOICES};
use lane::View;
use lane_input::Scene;
use plan_sum::Job;
use state::{Input, Route};
use voice::Voices;

// ---- rows put where they lie

// the number of a lane of the row that starts there, where the slice has it
fn put_lane(values: &mut [f32], start: usize, lane: usize, x: f32)
    ensures { values.new ≡ set values.old (start + lane) x }
{
    let len = values.len();
    if len <= start {
        return;
    }
    if len - start <= lane {
        return;
    }
    let i = start + lane;
    values[i] = x;
}

// The first n lanes of the row that starts at `start` become those that start at `at` in `from`; beyond the end of the slice nothing is written.
pub fn put_part(values: &mut [f32], start: usize, from: &[f32], at: usize, n: usize)
    ensures { values.new ≡ fill_from values.old start (lanes_from from.now at) n }
{
    if !plan_sum::fits(values.len(), start, n) {
        put_each(values, start, from, at, n);
        return;
    }
    if !plan_sum::fits(from.len(), at, n) {
        put_each(values, start, from, at, n);
        return;
    }
    put_whole(values, start, from, at, n);
}

// the same, where both rows lie in their slices
fn put_whole(values: &mut [f32], start: usize, from: &[f32], at: usize, n: usize)
    requires { (start + n ≤ length values.old) × (at + n ≤ length from.now) }
    ensures { values.new ≡ fill_from values.old start (lanes_from from.now at) n }
{
    for l in 0..n {
        values[start + l] = from[at + l];
    }
}

// the same, lane by lane
fn put_each(values: &mut [f32], start: usize, from: &[f32], at: usize, n: usize)
    ensures { values.new ≡ fill_from values.old start (lanes_from from.now at) n }
{
    for l in 0..n {
        put_lane(values, start, l, lane_input::lane_from(from, at, l));
    }
}

// The first n lanes of the row that starts there become those of `row`.
pub fn put_row(values: &mut [f32], start: usize, row: [f32; VOICES], n: usize)
    ensures { values.new ≡ fill_from values.old start (λ (l : ℕ). get_or row l nan) n }
{
    put_part(values, start, &row, 0, n);
}

// ---- new numbers of a plan

// The first n lanes, held to the bounds.
pub fn hold_row(row: [f32; VOICES], min: f32, max: f32, n: usize) -> [f32; VOICES]
    requires { n ≤ 64 }
    ensures { IsRow n (λ (l : ℕ). hold min max (get_or row l nan)) result }
{
    let mut out = [0.0; VOICES];
    for l in 0..n {
        let x = row[l];
        out[l] = number::held(min, max, x);
    }
    out
}

// whether a voice started since the last block
fn fresh_at(fresh: [bool; VOICES], lane: usize) -> bool
    ensures { result ≡ get_or fresh lane false }
{
    if lane < VOICES {
        return fresh[lane];
    }
    false
}

// Whether a lane is of a voice that started since the last block, in its first chunk.
pub fn starting(snap: bool, voice: bool, fresh: [bool; VOICES], lane: usize) -> bool
    ensures { (t : Env) (x : Mix) → t.snap ≡ snap → t.fresh ≡ fresh → x.voice ≡ voice → result ≡ starting t x lane }
{
    snap && voice && fresh_at(fresh, lane)
}

// Whether a lane keeps its number, by whether a voice starts there.
pub fn kept(phase: usize, primed: bool, starts: bool) -> bool
    ensures { (t : Env) (x : Mix) (l : ℕ) → t.primed ≡ primed → starts ≡ starting t x l → result ≡ kept t phase x l }
{
    phase != 0 && primed && !starts
}

// What a tick's new numbers go by, besides the sums: the phase, the plan's scope, and of the scene the voices that start.
#[derive(Clone, Copy)]
pub struct Tick {
    pub phase: usize,
    pub voice: bool,
    pub primed: bool,
    pub snap: bool,
    pub fresh: [bool; VOICES],
}

// The tick of a scene.
pub fn tick_of(scene: Scene, phase: usize, voice: bool) -> Tick
    ensures { result ≡ record { phase = phase; voice = voice; primed = scene.primed; snap = scene.snap; fresh = scene.fresh } }
{
    let fresh = scene.fresh;
    Tick {
        phase,
        voice,
        primed: scene.primed,
        snap: scene.snap,
        fresh,
    }
}

// the new number in a lane, of the held sum and the number before
fn to_lane(tick: Tick, sum: f32, old: f32, lane: usize) -> f32
    ensures { (t : Env) (x : Mix) (f : Rows) (s : Own) (o : ℕ → Float) → Ticks t x tick → sum ≡ held_sum t f s x lane → old ≡ o lane → result ≡ new_to t tick.phase x f s o lane }
{
    let fresh = tick.fresh;
    let starts = starting(tick.snap, tick.voice, fresh, lane);
    if kept(tick.phase, tick.primed, starts) {
        return old;
    }
    sum
}

// where the ramp starts in a lane, of the held sum, the number before and where it started before
fn from_lane(tick: Tick, sum: f32, old: f32, from: f32, lane: usize) -> f32
    ensures { (t : Env) (x : Mix) (f : Rows) (s : Own) (o a : ℕ → Float) → Ticks t x tick → sum ≡ held_sum t f s x lane → old ≡ o lane → from ≡ a lane → result ≡ new_from t tick.phase x f s o a lane }
{
    let fresh = tick.fresh;
    let starts = starting(tick.snap, tick.voice, fresh, lane);
    if kept(tick.phase, tick.primed, starts) {
        return from;
    }
    if starts {
        return sum;
    }
    if !tick.primed {
        return sum;
    }
    old
}

// The new numbers of a plan in its first n lanes: of the held sums, and of the numbers that start at `start`.
pub fn to_row(
    tick: Tick,
    sums: [f32; VOICES],
    values: &[f32],
    start: usize,
    n: usize,
) -> [f32; VOICES]
    requires { n ≤ 64 }
    ensures { (t : Env) (x : Mix) (f : Rows) (s : Own) → Ticks t x tick → IsRow n (held_sum t f s x) sums → IsRow n (new_to t tick.phase x f s (lanes_from values.now start)) result }
{
    if tick.snap {
        return to_each(tick, sums, values, start, n);
    }
    if kept(tick.phase, tick.primed, false) {
        return row_from(values, start, n);
    }
    sums
}

// the n numbers from `start` on
pub fn row_from(values: &[f32], start: usize, n: usize) -> [f32; VOICES]
    requires { n ≤ 64 }
    ensures { IsRow n (lanes_from values.now start) result }
{
    let mut out = [0.0; VOICES];
    put_part(&mut out, 0, values, start, n);
    out
}

// the same, lane by lane
fn to_each(tick: Tick, sums: [f32; VOICES], values: &[f32], start: usize, n: usize) -> [f32; VOICES]
    requires { n ≤ 64 }
    ensures { (t : Env) (x : Mix) (f : Rows) (s : Own) → Ticks t x tick → IsRow n (held_sum t f s x) sums → IsRow n (new_to t tick.phase x f s (lanes_from values.now start)) result }
{
    let mut out = [0.0; VOICES];
    for l in 0..n {
        let sum = sums[l];
        out[l] = to_lane(tick, sum, lane_input::lane_from(values, start, l), l);
    }
    out
}

// Where the ramps of a plan start in its first n lanes: of the held sums, the numbers that start at `start`, and the starts before, at `from`.
pub fn from_row(
    tick: Tick,
    sums: [f32; VOICES],
    values: &[f32],
    start: usize,
    from: usize,
    n: usize,
) -> [f32; VOICES]
    requires { n ≤ 64 }
    ensures { (t : Env) (x : Mix) (f : Rows) (s : Own) → Ticks t x tick → IsRow n (held_sum t f s x) sums → IsRow n (new_from t tick.phase x f s (lanes_from values.now start) (lanes_from values.now from)) result }
{
    if tick.snap {
        return from_each(tick, sums, values, start, from, n);
    }
    if kept(tick.phase, tick.primed, false) {
        return row_from(values, from, n);
    }
    if !tick.primed {
        return sums;
    }
    row_from(values, start, n)
}

// the same, lane by lane
fn from_each(
    tick: Tick,
    sums: [f32; VOICES],
    values: &[f32],
    start: usize,
    from: usize,
    n: usize,
) -> [f32; VOICES]
    requires { n ≤ 64 }
    ensures { (t : Env) (x : Mix) (f : Rows) (s : Own) → Ticks t x tick → IsRow n (held_sum t f s x) sums → IsRow n (new_from t tick.phase x f s (lanes_from values.now start) (lanes_from values.now from)) result }
{
    let mut out = [0.0; VOICES];
    for l in 0..n {
        let sum = sums[l];
        let old = lane_input::lane_from(values, start, l);
        out[l] = from_lane(tick, sum, old, lane_input::lane_from(values, from, l), l);
    }
    out
}

// ---- new slews of a route

// What says in which lanes a route's slews move, and which of them end at their input.
#[derive(Clone, Copy)]
pub struct Motion {
    pub voices: Voices,
    pub fresh: [bool; VOICES],
    pub snap: bool,
    pub voice: bool,
    pub plain: bool,
    pub idle: bool,
}

// whether a route's slews move in a lane
fn moves(motion: Motion, voice: bool, lane: usize) -> bool
    ensures { (t : Env) (x : Mix) (u : Route) → u.voice ≡ voice → Moved t x u motion → result ≡ moves_in t x u lane }
{
    let voices = motion.voices;
    let worked = lane_input::worked(voices, motion.voice, voice, lane);
    lane::moves_in(motion.plain, motion.idle, worked)
}

// 1 where they end at their input
fn snap(motion: Motion, voice: bool, lane: usize) -> f32
    ensures { (t : Env) → t.snap ≡ motion.snap → t.fresh ≡ motion.fresh → result ≡ snap_of t voice lane }
{
    let fresh = motion.fresh;
    lane_input::snap_of(motion.snap, fresh, voice, lane)
}

// The slew of a route's source afterwards, in each lane.
pub fn source_row(
    route: Route,
    view: View,
    motion: Motion,
    held: &[f32],
    globals: &[f32],
    tables: &[f32],
    samples: &[f32],
    values: &[f32],
) -> [f32; VOICES]
    requires { Placed view }
    ensures { (t : Env) (x : Mix) (f : Rows) (s : Own) (j : ℕ) → Viewed t f s j view route held.now globals.now tables.now samples.now values.now → x.route j ≡ route → Moved t x route motion → IsRow view.point.stride (source_after t x f s j) result }
{
    let n = view.point.stride;
    let voice = route.voice;
    let mut out = [0.0; VOICES];
    for l in 0..n {
        let m = moves(motion, voice, l);
        let e = snap(motion, voice, l);
        out[l] = lane::source_after(route, view, m, e, l, held, globals, tables, samples, values);
    }
    out
}

// The slew of its aux.
// Not one with `source_row` over a closure: its clause and proof would be longer, in a hot loop.
pub fn aux_row(
    route: Route,
    view: View,
    motion: Motion,
    held: &[f32],
    globals: &[f32],
    tables: &[f32],
    samples: &[f32],
    values: &[f32],
) -> [f32; VOICES]
    requires { Placed view }
    ensures { (t : Env) (x : Mix) (f : Rows) (s : Own) (j : ℕ) → Viewed t f s j view route held.now globals.now tables.now samples.now values.now → x.route j ≡ route → Moved t x route motion → IsRow view.point.stride (aux_after t x f s j) result }
{
    let n = view.point.stride;
    let voice = route.voice;
    let mut out = [0.0; VOICES];
    for l in 0..n {
        let m = moves(motion, voice, l);
        let e = snap(motion, voice, l);
        out[l] = lane::aux_after(route, view, m, e, l, held, globals, tables, samples, values);
    }
    out
}

// ---- new slews of a plan

// The numbers that the new slews of 64 routes take: two rows of 64 for each.
pub const NEW: usize = 8192;

// whether an aux, where there is one, has no slew
pub fn aux_free(aux: Option<Input>) -> bool
    ensures { result ≡ aux_free aux }
{
    match aux {
        None => true,
        Some(i) => input_free(i),
    }
}

pub fn input_free(input: Input) -> bool
    ensures { result ≡ free_slew input.slew }
{
    let slew = input.slew;
    lane::free_slew(slew)
}

// Whether a route has no slew.
pub fn still(route: Route) -> bool
    ensures { result ≡ still route }
{
    let source = route.source;
    let aux = route.aux;
    if !input_free(source) {
        return false;
    }
    aux_free(aux)
}

// the new slews of route j of a plan into their places; the places of the routes before it stay as they are
pub fn new_route(
    new: &mut [f32],
    j: usize,
    route: Route,
    view: View,
    motion: Motion,
    held: &[f32],
    globals: &[f32],
    tables: &[f32],
    samples: &[f32],
    values: &[f32],
)
    requires { Placed view × (j < slots) × (length new.old ≡ new_need) }
    ensures { (length new.new ≡ new_need) × ((p : ℕ) → p < new_start j 0 → at new.new p ≡ at new.old p) × ((t : Env) (x : Mix) (f : Rows) (s : Own) → Viewed t f s j view route held.now globals.now tables.now samples.now values.now → x.route j ≡ route → Moved t x route motion → IsNew t x f s j route new.new) }
{
    let start = j * 128;
    let source = source_row(route, view, motion, held, globals, tables, samples, values);
    put_row(new, start, source, VOICES);
    let aux = aux_row(route, view, motion, held, globals, tables, samples, values);
    put_row(new, start + 64, aux, VOICES);
}

// ---- slews put where they lie

// the new slews of route j, whose own rows start at `own`, where it has any
fn put_route(values: &mut [f32], stride: usize, route: Route, own: usize, new: &[f32], j: usize)
    requires { (stride ≤ 64) × (own ≤ most_values) × (j < slots) }
    ensures { values.new ≡ put_route stride route own new.now j values.old }
{
    if still(route) {
        return;
    }
    let from = j * 128;
    put_part(values, own, new, from, stride);
    put_part(values, own + stride, new, from + 64, stride);
}

// those of the first n routes of a plan whose first route is `first`
pub fn put_new(
    values: &mut [f32],
    stride: usize,
    chunks: usize,
    plans: usize,
    first: usize,
    routes: [Route; SLOTS],
    new: &[f32],
    n: usize,
)
    requires { (stride ≤ 64) × (chunks ≤ 130) × (plans ≤ slots) × (first + n ≤ slots) }
    ensures { values.new ≡ put_new stride chunks plans first routes new.now n values.old }
{
    for j in 0..n {
        let k = first + j;
        let route = routes[k];
        let own = lane::own_start(stride, chunks, plans, k);
        put_route(values, stride, route, own, new, j);
    }
}

// how many of a plan's routes there are, where its first is there
pub fn routes_there(first: usize, count: usize) -> usize
    requires { first < slots }
    ensures { (result ≤ count) × (first + result ≤ slots) × ((j : ℕ) → result ≤ j → j < count → slots ≤ first + j) }
{
    let left = SLOTS - first;
    if left < count {
        return left;
    }
    count
}

// room for the new slews
pub fn room() -> [f32; NEW]
    ensures { length result ≡ new_need }
{
    [0.0; NEW]
}

// The new slews of `count` routes from `first` on, where there are such, put where they lie.
pub fn put_made(
    values: &mut [f32],
    first: usize,
    count: usize,
    routes: [Route; SLOTS],
    stride: usize,
    chunks: usize,
    plans: usize,
    new: &[f32],
)
    requires { (stride ≤ 64) × (chunks ≤ 130) × (plans ≤ slots) }
    ensures { (t : Env) (x : Mix) (st : State) (d : ℕ) → t.stride ≡ stride → x.count ≡ count → ((j : ℕ) → j < x.count → x.route j ≡ get_or routes (first + j) no_route) → Lies st d stride chunks plans first → ((j : ℕ) → j < x.count → j < slots → IsNew t x (plan_rows stride chunks values.old) (own_rows stride chunks plans first values.old) j (x.route j) new.now) → values.new ≡ put_slews st d (slew_after t x (plan_rows stride chunks values.old) (own_rows stride chunks plans first values.old)) x.count values.old }
{
    if SLOTS <= first {
        return;
    }
    let n = routes_there(first, count);
    put_new(values, stride, chunks, plans, first, routes, new, n);
}

// The new slews of the routes of a job's plan, put where they lie
pub fn put_slews(values: &mut [f32], job: Job, new: &[f32])
    requires { Bounded job }
    ensures { (t : Env) (x : Mix) (st : State) (d : ℕ) → t.stride ≡ job.scene.stride → IsMix x job.plan job.routes → Lies st d job.scene.stride job.chunks job.plans job.plan.first → ((j : ℕ) → j < x.count → j < slots → IsNew t x (plan_rows job.scene.stride job.chunks values.old) (own_rows job.scene.stride job.chunks job.plans job.plan.first values.old) j (x.route j) new.now) → values.new ≡ put_slews st d (slew_after t x (plan_rows job.scene.stride job.chunks values.old) (own_rows job.scene.stride job.chunks job.plans job.plan.first values.old)) x.count values.old }
{
    let plan = job.plan;
    let scene = job.scene;
    let routes = job.routes;
    put_made(
        values,
        plan.first,
        plan.count,
        routes,
        scene.stride,
        job.chunks,
        job.plans,
        new,
    );
}
