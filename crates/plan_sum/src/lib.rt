// The sum of a destination, a row of lanes at a time: the base, the plain routes, then the others (engine.rs 850-905, 1060-1112, 1313-1343; document 01, Chunk and
// value). The definitions are in model's specs/Sums. A contract holds of every environment and mix that have what the function is handed: specs/Job says what that is.
#![tactic(auto)]

ghost use Rattle.std.specs.Prelude.{◌≡◌, true, false, cond, ◌&&◌, List, ℕ, ◌+◌, ◌-◌, ◌*◌, ◌/◌, ◌≤◌, ◌<◌, ltb, leb, length, get_or, Float};
ghost use Rattle.config.specs.Sizes.{slots, most_sources, lanes};
ghost use Rattle.number.specs.Number.{plus, times};
ghost use Rattle.state_filled.specs.Filled.{no_route};
ghost use Rattle.model.specs.Counts.{at};
ghost use Rattle.model.specs.Env.{Env, Rows, Own, no_part, sample_in};
ghost use Rattle.model.specs.Lanes.{any_from, group_of, in_group, addend, in_span};
ghost use Rattle.model.specs.Mix.{Mix};
ghost use Rattle.model.specs.RouteValue.{raw_in, route_value, plain};
ghost use Rattle.model.specs.Sums.{base_in, offsets, plain_step, plains, add_lane, other_step, begun, audio_begun};
ghost use Rattle.lane_input.specs.Reads.{Works, part_for, point_of};
ghost use Rattle.lane.specs.View.{most_values, Placed, aux_part, Viewed};
ghost use Rattle.plan_sum.specs.Job.{AreSimple, Bounded, lane_count, slot_gain, base_by, IsScene, IsJob, Mixes, Shown};
ghost use Rattle.plan_sum.specs.Ground.{Based, ground_of, Chosen, part_key, aux_key, own_by, view_by, Inside, Tells, Spanned, Reached, Totalled};

use config::{LANES, SLOTS, SOURCES, VOICES};
use lane::View;
use lane_input::{Point, Scene};
use state::{Base, Gain, Gains, Input, Plan, Read, Route, SignalPart, Signals};
use voice::Voices;

// What the sum of a destination is worked out from at one frame, besides the lent numbers: its plan, the routes, scene and signals, how many chunks a plan has
// room for and how many plans there are, and whether a route of the plan is simple.
#[derive(Clone, Copy)]
pub struct Job {
    pub plan: Plan,
    pub routes: [Route; SLOTS],
    pub scene: Scene,
    pub signals: Signals,
    pub chunks: usize,
    pub plans: usize,
    pub simple: bool,
}

// What every route of a job's plan is worked out from: whether the plan is per voice, whether a voice is active, the first route, the sizes and the gains.
#[derive(Clone, Copy)]
pub struct Ground {
    pub voice: bool,
    pub sounds: bool,
    pub first: usize,
    pub plans: usize,
    pub up_to: usize,
    pub point: Point,
    pub gains: Gains,
}

// The active span: its first lane, and where it ends.
#[derive(Clone, Copy)]
pub struct Span {
    pub first: usize,
    pub end: usize,
}

// What the plain routes come to: whether there is one, whether all are plain, and the sum of their offsets.
// No Option: the sum holds whether there is one or not.
#[derive(Clone, Copy)]
pub struct Totals {
    pub some: bool,
    pub all: bool,
    pub offset: f32,
}

// Where the numbers that a route reads stand, one a lane: from there on in the held numbers, the values or the samples.
// No Option of three places: each match would hold a second one.
#[derive(Clone, Copy)]
pub enum Place {
    Held(usize),
    Values(usize),
    Samples(usize),
    Nowhere,
}

// The groups of lanes.
pub const GROUPS: usize = 4;

// The lanes that the other routes are added in: how many, and which groups of them have an active voice; the voices; and the fresh lanes.
#[derive(Clone, Copy)]
pub struct Reach {
    pub lanes: usize,
    pub groups: [bool; GROUPS],
    pub voices: Voices,
    pub fresh: [bool; VOICES],
    pub snap: bool,
}

// The lanes of the plan's row.
pub fn lane_count(job: Job) -> usize
    requires { Bounded job }
    ensures { (result ≡ lane_count job) × (result ≤ 64) }
{
    let plan = job.plan;
    let scene = job.scene;
    if plan.voice {
        return scene.stride;
    }
    1
}

// ---- a plan's routes

// what stands past the last route
fn no_route() -> Route
    ensures { result ≡ no_route }
{
    let source = Input {
        read: Read::Constant,
        bipolar: false,
        table: false,
        slew: None,
    };
    Route {
        slot: 0,
        source,
        aux: None,
        aux_invert: false,
        bipolar: false,
        amount: Gain::Live,
        output: Gain::Live,
        voice: false,
        scale: 0.0,
        offset: 0.0,
        simple: false,
    }
}

// a count, which is a usize
pub fn counted(n: usize) -> usize
    ensures { (result ≡ n) × (result ≤ 18446744073709551615) }
{
    n
}

// the routes of a job's program, and how many there is room for
pub fn routes_of(job: Job) -> [Route; SLOTS]
    ensures { (result ≡ job.routes) × (length result ≡ slots) }
{
    let routes = job.routes;
    routes
}

// the parts of the signals, and how many there are
pub fn parts_of(signals: Signals) -> [SignalPart; SOURCES]
    ensures { (result ≡ signals.part) × (length result ≡ most_sources) }
{
    let parts = signals.part;
    parts
}

// where route j after the first stands; 0 where there is none
pub fn route_index(first: usize, j: usize) -> usize
    ensures { (result < slots) × (first + j < slots → result ≡ first + j) }
{
    if SLOTS <= first {
        return 0;
    }
    if SLOTS - first <= j {
        return 0;
    }
    first + j
}

// what was read there, where there is such a route
pub fn route_or(first: usize, j: usize, stored: Route) -> Route
    ensures { result ≡ cond (ltb (first + j) slots) stored no_route }
{
    if SLOTS <= first {
        return no_route();
    }
    if SLOTS - first <= j {
        return no_route();
    }
    stored
}

// the source whose signal is read; where none is, the number after the last
fn part_key(read: Read) -> usize
    ensures { result ≡ part_key read }
{
    match read {
        Read::Signal { source, voice: _ } => source as usize,
        Read::Held {
            source: _,
            voice: _,
        } => SOURCES,
        Read::Fed { plan: _, voice: _ } => SOURCES,
        Read::Constant => SOURCES,
        Read::RouteRandom => SOURCES,
    }
}

fn input_key(input: Input) -> usize
    ensures { result ≡ part_key input.read }
{
    let read = input.read;
    part_key(read)
}

pub fn source_key(route: Route) -> usize
    ensures { result ≡ part_key route.source.read }
{
    let source = route.source;
    input_key(source)
}

fn aux_key(aux: Option<Input>) -> usize
    ensures { result ≡ aux_key aux }
{
    match aux {
        None => SOURCES,
        Some(i) => input_key(i),
    }
}

pub fn route_aux_key(route: Route) -> usize
    ensures { result ≡ aux_key route.aux }
{
    let aux = route.aux;
    aux_key(aux)
}

// Where the part of a source stands; 0 where there is none.
pub fn part_index(key: usize) -> usize
    ensures { (result < most_sources) × (key < most_sources → result ≡ key) }
{
    if key < SOURCES {
        return key;
    }
    0
}

// what was read there, where there is such a part
pub fn part_or(key: usize, stored: SignalPart) -> SignalPart
    ensures { result ≡ cond (ltb key most_sources) stored no_part }
{
    if key < SOURCES {
        return stored;
    }
    lane_input::no_part()
}

// What every route of a job is worked out from.
pub fn ground_of(job: Job) -> Ground
    ensures { result ≡ ground_of job }
{
    let plan = job.plan;
    let scene = job.scene;
    let voices = scene.voices;
    let active = voices.active;
    let gains = scene.gains;
    Ground {
        voice: plan.voice,
        sounds: lane_input::any_from(active, 0, scene.stride),
        first: plan.first,
        plans: job.plans,
        up_to: scene.up_to,
        point: lane_input::point_of(scene, job.chunks),
        gains,
    }
}

// where the own rows of route j start; 0 where there is no such route
fn own_for(ground: Ground, j: usize) -> usize
    requires { Based ground }
    ensures { (result ≡ own_by ground j) × (result ≤ most_values) }
{
    let point = ground.point;
    let first = ground.first;
    if SLOTS <= first {
        return 0;
    }
    if SLOTS - first <= j {
        return 0;
    }
    lane::own_start(point.stride, point.chunks, ground.plans, first + j)
}

// The view of route j, whose inputs read these parts.
pub fn view_for(ground: Ground, j: usize, route: Route, source: SignalPart, aux: SignalPart) -> View
    requires { Based ground }
    ensures { (result ≡ view_by ground j route source aux) × Placed result }
{
    let gains = ground.gains;
    let amount = gains.amount;
    let output = gains.output;
    let point = ground.point;
    View {
        point,
        own: own_for(ground, j),
        source,
        aux,
        amount: gain_at(amount, route.slot),
        output: gain_at(output, route.slot),
    }
}

// whether a route whose source reads that part is plain
pub fn is_plain(ground: Ground, route: Route, part: SignalPart) -> bool
    ensures { (t : Env) (w : Job) → ground ≡ ground_of w → IsScene t w.scene w.signals → part ≡ part_for w.signals route.source.read → result ≡ plain t w.plan.voice route }
{
    let point = ground.point;
    lane::plain(
        ground.voice,
        ground.sounds,
        route,
        part,
        point.stride,
        ground.up_to,
    )
}

// ---- base and offsets

// the amount or output of a slot
fn gain_at(gains: [f32; SLOTS], slot: u8) -> f32
    ensures { result ≡ at gains slot }
{
    let i = slot as usize;
    if i < SLOTS {
        return gains[i];
    }
    state_registry::not_a_number()
}

// a slot's amount times its output
fn slot_gain(gains: Gains, slot: u8) -> f32
    ensures { result ≡ slot_gain gains slot }
{
    let amount = gains.amount;
    let output = gains.output;
    gain_at(amount, slot) * gain_at(output, slot)
}

// The base of a destination, of what there is to read.
pub fn base_by(base: Base, dest: u16, gains: Gains, globals: &[f32], bases: &[f32]) -> f32
    ensures { result ≡ base_by gains globals.now bases.now dest base }
{
    let amount = gains.amount;
    let output = gains.output;
    match base {
        Base::Set => list::read(bases, dest as usize, state_registry::not_a_number()),
        Base::Held(source) => list::read(globals, source as usize, state_registry::not_a_number()),
        Base::Amount(slot) => gain_at(amount, slot),
        Base::Output(slot) => gain_at(output, slot),
    }
}

// The base of a destination.
pub fn base_in(job: Job, globals: &[f32], bases: &[f32]) -> f32
    ensures { (t : Env) (x : Mix) → IsJob t x job → t.globals ≡ globals.now → t.bases ≡ bases.now → result ≡ base_in t x }
{
    let plan = job.plan;
    let base = plan.base;
    let scene = job.scene;
    let gains = scene.gains;
    base_by(base, plan.dest, gains, globals, bases)
}

// with a route, which is plain
fn with_plain(ground: Ground, route: Route, totals: Totals) -> Totals
    ensures { (result.some ≡ true) × (result.all ≡ totals.all) × (result.offset ≡ plus totals.offset (times route.offset (slot_gain ground.gains route.slot))) }
{
    let gains = ground.gains;
    Totals {
        some: true,
        all: totals.all,
        offset: totals.offset + route.offset * slot_gain(gains, route.slot),
    }
}

// with a route whose source reads that part
fn with_route(ground: Ground, route: Route, part: SignalPart, totals: Totals) -> Totals
    ensures { (t : Env) (x : Mix) (w : Job) (j : ℕ) → IsJob t x w → Chosen w ground j route → j < x.count → part ≡ part_for w.signals route.source.read → Totalled t x j totals → Totalled t x (j + 1) result }
{
    if is_plain(ground, route, part) {
        return with_plain(ground, route, totals);
    }
    Totals {
        some: totals.some,
        all: false,
        offset: totals.offset,
    }
}

// What the plain routes come to.
pub fn totals_of(job: Job) -> Totals
    ensures { (t : Env) (x : Mix) → IsJob t x job → Totalled t x x.count result }
{
    let ground = ground_of(job);
    let plan = job.plan;
    let count = counted(plan.count);
    let routes = routes_of(job);
    let signals = job.signals;
    let parts = parts_of(signals);
    let first = plan.first;
    let mut out = Totals {
        some: false,
        all: true,
        offset: 0.0,
    };
    for j in 0..count {
        let i = route_index(first, j);
        let stored = routes[i];
        let route = route_or(first, j, stored);
        let key = source_key(route);
        let k = part_index(key);
        let kept = parts[k];
        let part = part_or(key, kept);
        let next = with_route(ground, route, part, out);
        out = next;
    }
    out
}

// ---- the active span

// The first lane of the first group with an active voice.
pub fn span_first(active: [bool; VOICES]) -> usize
    ensures { (l : ℕ) → l < 64 → leb result l ≡ any_from active 0 (group_of l + lanes) }
{
    if lane_input::any_from(active, 0, 16) {
        return 0;
    }
    if lane_input::any_from(active, 0, 32) {
        return 16;
    }
    if lane_input::any_from(active, 0, 48) {
        return 32;
    }
    if lane_input::any_from(active, 0, 64) {
        return 48;
    }
    64
}

// Where the last group with an active voice ends.
pub fn span_end(active: [bool; VOICES], stride: usize) -> usize
    ensures { (l : ℕ) → l < 64 → ltb l result ≡ any_from active (group_of l) (stride - group_of l) }
{
    if lane_input::any_from(active, 48, stride.saturating_sub(48)) {
        return 64;
    }
    if lane_input::any_from(active, 32, stride.saturating_sub(32)) {
        return 48;
    }
    if lane_input::any_from(active, 16, stride.saturating_sub(16)) {
        return 32;
    }
    if lane_input::any_from(active, 0, stride.saturating_sub(0)) {
        return 16;
    }
    0
}

// A span that starts before it ends, within the stride.
pub fn span_within(first: usize, end: usize, stride: usize) -> Span
    ensures { (result.first ≤ result.end) × (result.end ≤ stride) × ((l : ℕ) → l < stride → (leb result.first l && ltb l result.end) ≡ (leb first l && ltb l end)) }
{
    if stride < end {
        return span_ordered(first, stride);
    }
    span_ordered(first, end)
}

fn span_ordered(first: usize, end: usize) -> Span
    ensures { (result.first ≤ result.end) × (result.end ≤ end) × ((l : ℕ) → (leb result.first l && ltb l result.end) ≡ (leb first l && ltb l end)) }
{
    if end < first {
        return Span { first: 0, end: 0 };
    }
    Span { first, end }
}

// The active span of a job.
pub fn span_of(job: Job) -> Span
    requires { Bounded job }
    ensures { (result.first ≤ result.end) × (result.end ≤ job.scene.stride) × ((t : Env) → IsScene t job.scene job.signals → Spanned t result) }
{
    let scene = job.scene;
    let voices = scene.voices;
    let active = voices.active;
    let stride = scene.stride;
    span_within(span_first(active), span_end(active, stride), stride)
}

// ---- plain routes

// x in the lanes of the span; the others as they are
fn span_row(x: f32, span: Span, row: [f32; VOICES]) -> [f32; VOICES]
    requires { (span.first ≤ span.end) × (span.end ≤ 64) }
    ensures { (l : ℕ) → at result l ≡ cond (leb span.first l && ltb l span.end) x (at row l) }
{
    let end = span.end;
    let mut out = row;
    for l in span.first..end {
        out[l] = x;
    }
    out
}

// products of the numbers from `start` on, added in the lanes of the span; the others as they are
fn add_from(start: usize, gain: f32, span: Span, row: [f32; VOICES], xs: &[f32]) -> [f32; VOICES]
    requires { (span.first ≤ span.end) × (span.end ≤ 64) × (start + span.end ≤ length xs.now) }
    ensures { (l : ℕ) → at result l ≡ cond (leb span.first l && ltb l span.end) (plus (at row l) (times (at xs.now (start + l)) gain)) (at row l) }
{
    let end = span.end;
    let mut out = row;
    for l in span.first..end {
        let a = out[l];
        let raw = xs[start + l];
        out[l] = a + raw * gain;
    }
    out
}

// products of what a route reads, lane by lane
fn add_raw(
    route: Route,
    view: View,
    gain: f32,
    span: Span,
    row: [f32; VOICES],
    held: &[f32],
    globals: &[f32],
    samples: &[f32],
    values: &[f32],
) -> [f32; VOICES]
    requires { Placed view × (span.first ≤ span.end) × (span.end ≤ 64) }
    ensures { (t : Env) (f : Rows) (s : Own) (j : ℕ) → Shown t f s j view route held.now globals.now samples.now values.now → (l : ℕ) → at result l ≡ cond (leb span.first l && ltb l span.end) (plus (at row l) (times (raw_in t f s j l route) gain)) (at row l) }
{
    let end = span.end;
    let mut out = row;
    for l in span.first..end {
        let a = out[l];
        let raw = lane::raw_in(route, view, l, held, globals, samples, values);
        out[l] = a + raw * gain;
    }
    out
}

// whether n numbers from `start` on lie within a length
pub fn fits(len: usize, start: usize, n: usize) -> bool
    ensures { result ≡ leb (start + n) len }
{
    if len < start {
        return false;
    }
    n <= len - start
}

// the place of a held row
pub fn held_place(voice: bool, source: u8, stride: usize, held: &[f32]) -> Place
    requires { stride ≤ 64 }
    ensures { (i m : List Float) → Inside result stride held.now i m × ((z : ℕ → Float) → ((l : ℕ) → voice ≡ true → z l ≡ at held.now (source * stride + l)) → (l : ℕ) → Tells result held.now i m l (z l)) }
{
    if !voice {
        return Place::Nowhere;
    }
    let start = (source as usize) * stride;
    if !fits(held.len(), start, stride) {
        return Place::Nowhere;
    }
    Place::Held(start)
}

// the place of the row that starts there in the values
pub fn values_place(voice: bool, start: usize, stride: usize, values: &[f32]) -> Place
    ensures { (h i : List Float) → Inside result stride h i values.now × ((z : ℕ → Float) → ((l : ℕ) → l < stride → voice ≡ true → z l ≡ at values.now (start + l)) → (l : ℕ) → l < stride → Tells result h i values.now l (z l)) }
{
    if !voice {
        return Place::Nowhere;
    }
    if !fits(values.len(), start, stride) {
        return Place::Nowhere;
    }
    Place::Values(start)
}

// the place of a frame's row, where it lies in the part and in the samples
fn frame_place(from: usize, row: usize, stride: usize, samples: &[f32]) -> Place
    ensures { (h m : List Float) → Inside result stride h samples.now m × ((z : ℕ → Float) → ((l : ℕ) → l < stride → z l ≡ at samples.now (from + (row + l))) → (l : ℕ) → l < stride → Tells result h samples.now m l (z l)) }
{
    if !fits(samples.len(), from, row) {
        return Place::Nowhere;
    }
    let start = from + row;
    if !fits(samples.len(), start, stride) {
        return Place::Nowhere;
    }
    Place::Samples(start)
}

// the place of a signal's row
pub fn signal_place(
    voice: bool,
    part: SignalPart,
    frame: usize,
    stride: usize,
    samples: &[f32],
) -> Place
    ensures { (h m : List Float) → Inside result stride h samples.now m × ((z : ℕ → Float) → ((l : ℕ) → voice ≡ true → z l ≡ sample_in samples.now part frame true l) → (l : ℕ) → l < stride → Tells result h samples.now m l (z l)) }
{
    if !voice {
        return Place::Nowhere;
    }
    let wide = lane_input::part_stride(part);
    if wide < stride {
        return Place::Nowhere;
    }
    let rows = part.len / wide;
    if rows <= frame {
        return Place::Nowhere;
    }
    frame_place(part.at, frame * wide, stride, samples)
}

// the place of what an input reads
fn place_of(read: Read, view: View, held: &[f32], samples: &[f32], values: &[f32]) -> Place
    requires { Placed view }
    ensures { Inside result view.point.stride held.now samples.now values.now × ((t : Env) (f : Rows) (s : Own) (j : ℕ) (route : Route) (g : List Float) → route.source.read ≡ read → Shown t f s j view route held.now g samples.now values.now → (l : ℕ) → l < view.point.stride → Tells result held.now samples.now values.now l (raw_in t f s j l route)) }
{
    let point = view.point;
    let part = view.source;
    let stride = point.stride;
    match read {
        Read::Signal { source: _, voice } => signal_place(
            voice,
            part,
            point.frame,
            stride,
            samples,
        ),
        Read::Held { source, voice } => held_place(voice, source, stride, held),
        Read::Fed { plan, voice } => values_place(
            voice,
            lane_input::plan_to(stride, point.chunks, plan),
            stride,
            values,
        ),
        Read::Constant => Place::Nowhere,
        Read::RouteRandom => values_place(true, view.own + 2 * stride, stride, values),
    }
}

// products of what a route reads, at its place
fn add_at(
    place: Place,
    route: Route,
    view: View,
    gain: f32,
    span: Span,
    row: [f32; VOICES],
    held: &[f32],
    globals: &[f32],
    samples: &[f32],
    values: &[f32],
) -> [f32; VOICES]
    requires { Placed view × (span.first ≤ span.end) × (span.end ≤ view.point.stride) × Inside place view.point.stride held.now samples.now values.now }
    ensures { (t : Env) (f : Rows) (s : Own) (j : ℕ) → Shown t f s j view route held.now globals.now samples.now values.now → ((l : ℕ) → l < view.point.stride → Tells place held.now samples.now values.now l (raw_in t f s j l route)) → (l : ℕ) → l < view.point.stride → at result l ≡ cond (leb span.first l && ltb l span.end) (plus (at row l) (times (raw_in t f s j l route) gain)) (at row l) }
{
    match place {
        Place::Held(start) => add_from(start, gain, span, row, held),
        Place::Values(start) => add_from(start, gain, span, row, values),
        Place::Samples(start) => add_from(start, gain, span, row, samples),
        Place::Nowhere => add_raw(route, view, gain, span, row, held, globals, samples, values),
    }
}

// a route's products, added in the lanes of the span
fn plain_lanes(
    route: Route,
    view: View,
    gain: f32,
    span: Span,
    row: [f32; VOICES],
    held: &[f32],
    globals: &[f32],
    samples: &[f32],
    values: &[f32],
) -> [f32; VOICES]
    requires { Placed view × (span.first ≤ span.end) × (span.end ≤ view.point.stride) }
    ensures { (t : Env) (f : Rows) (s : Own) (j : ℕ) → Shown t f s j view route held.now globals.now samples.now values.now → (l : ℕ) → l < view.point.stride → at result l ≡ cond (leb span.first l && ltb l span.end) (plus (at row l) (times (raw_in t f s j l route) gain)) (at row l) }
{
    let source = route.source;
    let read = source.read;
    let place = place_of(read, view, held, samples, values);
    add_at(
        place, route, view, gain, span, row, held, globals, samples, values,
    )
}

// Route j, whose source reads that part, added where it is plain, in the lanes of the span; the others as they are.
pub fn add_plain(
    ground: Ground,
    span: Span,
    j: usize,
    route: Route,
    part: SignalPart,
    row: [f32; VOICES],
    held: &[f32],
    globals: &[f32],
    samples: &[f32],
    values: &[f32],
) -> [f32; VOICES]
    requires { Based ground × (span.first ≤ span.end) × (span.end ≤ ground.point.stride) }
    ensures { (t : Env) (f : Rows) (s : Own) (x : Mix) (w : Job) → Mixes t f s x w held.now globals.now samples.now values.now → Chosen w ground j route → j < x.count → part ≡ part_for w.signals route.source.read → Spanned t span → (l : ℕ) → l < w.scene.stride → at result l ≡ cond (in_span t l) (plain_step t f s x j l (x.route j) (at row l)) (at row l) }
{
    if !is_plain(ground, route, part) {
        return row;
    }
    let gains = ground.gains;
    let gain = route.scale * slot_gain(gains, route.slot);
    if gain == 0.0 {
        return row;
    }
    let view = view_for(ground, j, route, part, part);
    plain_lanes(route, view, gain, span, row, held, globals, samples, values)
}

// every plain route added
fn add_plains(
    job: Job,
    span: Span,
    row: [f32; VOICES],
    held: &[f32],
    globals: &[f32],
    samples: &[f32],
    values: &[f32],
) -> [f32; VOICES]
    requires { Bounded job × (span.first ≤ span.end) × (span.end ≤ job.scene.stride) }
    ensures { (t : Env) (f : Rows) (s : Own) (x : Mix) → Mixes t f s x job held.now globals.now samples.now values.now → Spanned t span → (l : ℕ) → l < job.scene.stride → (a : Float) → at row l ≡ cond (in_span t l) (plus (base_in t x) (offsets t x x.count)) a → at result l ≡ cond (in_span t l) (plains t f s x l x.count) a }
{
    let ground = ground_of(job);
    let plan = job.plan;
    let count = counted(plan.count);
    let routes = routes_of(job);
    let signals = job.signals;
    let parts = parts_of(signals);
    let first = plan.first;
    let mut out = row;
    for j in 0..count {
        let i = route_index(first, j);
        let stored = routes[i];
        let route = route_or(first, j, stored);
        let key = source_key(route);
        let k = part_index(key);
        let kept = parts[k];
        let part = part_or(key, kept);
        let next = add_plain(
            ground, span, j, route, part, out, held, globals, samples, values,
        );
        out = next;
    }
    out
}

// the plain routes, with the sum of their offsets, over the base in the lanes of the active span; the others as they are
fn plain_row(
    job: Job,
    start: f32,
    row: [f32; VOICES],
    held: &[f32],
    globals: &[f32],
    samples: &[f32],
    values: &[f32],
) -> [f32; VOICES]
    requires { Bounded job }
    ensures { (t : Env) (f : Rows) (s : Own) (x : Mix) → Mixes t f s x job held.now globals.now samples.now values.now → start ≡ plus (base_in t x) (offsets t x x.count) → (l : ℕ) → l < job.scene.stride → at result l ≡ cond (in_span t l) (plains t f s x l x.count) (at row l) }
{
    let span = span_of(job);
    let begun = span_row(start, span, row);
    add_plains(job, span, begun, held, globals, samples, values)
}

// ---- the other routes

// a route's value in a lane
fn lane_value(
    snap: bool,
    fresh: [bool; VOICES],
    route: Route,
    view: View,
    lane: usize,
    held: &[f32],
    globals: &[f32],
    tables: &[f32],
    samples: &[f32],
    values: &[f32],
) -> f32
    requires { Placed view }
    ensures { (t : Env) (f : Rows) (s : Own) (j : ℕ) → t.snap ≡ snap → t.fresh ≡ fresh → Viewed t f s j view route held.now globals.now tables.now samples.now values.now → result ≡ route_value t f s j lane route }
{
    let snapped = lane_input::snap_of(snap, fresh, route.voice, lane);
    lane::route_value(
        route, view, snapped, lane, held, globals, tables, samples, values,
    )
}

// a with the route's value in the lane that was found, where one was
fn add_lane(
    found: Option<usize>,
    snap: bool,
    fresh: [bool; VOICES],
    route: Route,
    view: View,
    a: f32,
    held: &[f32],
    globals: &[f32],
    tables: &[f32],
    samples: &[f32],
    values: &[f32],
) -> f32
    requires { Placed view }
    ensures { (t : Env) (f : Rows) (s : Own) (j : ℕ) → t.snap ≡ snap → t.fresh ≡ fresh → Viewed t f s j view route held.now globals.now tables.now samples.now values.now → result ≡ add_lane t f s j route a found }
{
    match found {
        Some(lane) => {
            a + lane_value(
                snap, fresh, route, view, lane, held, globals, tables, samples, values,
            )
        }
        None => a,
    }
}

// a with the route's value in a lane whose group has an active voice
fn add_own(
    on: bool,
    snap: bool,
    fresh: [bool; VOICES],
    route: Route,
    view: View,
    lane: usize,
    a: f32,
    held: &[f32],
    globals: &[f32],
    tables: &[f32],
    samples: &[f32],
    values: &[f32],
) -> f32
    requires { Placed view }
    ensures { (t : Env) (f : Rows) (s : Own) (j : ℕ) → t.snap ≡ snap → t.fresh ≡ fresh → Viewed t f s j view route held.now globals.now tables.now samples.now values.now → result ≡ cond on (plus a (route_value t f s j lane route)) a }
{
    if !on {
        return a;
    }
    a + lane_value(
        snap, fresh, route, view, lane, held, globals, tables, samples, values,
    )
}

// a with x, where the lane's group has an active voice
fn add_same(on: bool, a: f32, x: f32) -> f32
    ensures { result ≡ cond on (plus a x) a }
{
    if on {
        return a + x;
    }
    a
}

// a route's own values, added in each lane whose group has an active voice
fn own_lanes(
    reach: Reach,
    route: Route,
    view: View,
    row: [f32; VOICES],
    held: &[f32],
    globals: &[f32],
    tables: &[f32],
    samples: &[f32],
    values: &[f32],
) -> [f32; VOICES]
    requires { Placed view × (reach.lanes ≤ 64) }
    ensures { (t : Env) (f : Rows) (s : Own) (j : ℕ) → Reached t reach → Viewed t f s j view route held.now globals.now tables.now samples.now values.now → (l : ℕ) → l < reach.lanes → at result l ≡ cond (get_or reach.groups (l / lanes) false) (plus (at row l) (route_value t f s j l route)) (at row l) }
{
    let n = reach.lanes;
    let groups = reach.groups;
    let snap = reach.snap;
    let fresh = reach.fresh;
    let mut out = row;
    for l in 0..n {
        let a = out[l];
        let on = groups[l / LANES];
        out[l] = add_own(
            on, snap, fresh, route, view, l, a, held, globals, tables, samples, values,
        );
    }
    out
}

// x added in each lane whose group has an active voice
fn same_lanes(reach: Reach, x: f32, row: [f32; VOICES]) -> [f32; VOICES]
    requires { reach.lanes ≤ 64 }
    ensures { (l : ℕ) → l < reach.lanes → at result l ≡ cond (get_or reach.groups (l / lanes) false) (plus (at row l) x) (at row l) }
{
    let n = reach.lanes;
    let groups = reach.groups;
    let mut out = row;
    for l in 0..n {
        let a = out[l];
        let on = groups[l / LANES];
        out[l] = add_same(on, a, x);
    }
    out
}

// a route's values, added in each lane of a plan per voice
fn voice_row(
    reach: Reach,
    route: Route,
    view: View,
    row: [f32; VOICES],
    held: &[f32],
    globals: &[f32],
    tables: &[f32],
    samples: &[f32],
    values: &[f32],
) -> [f32; VOICES]
    requires { Placed view × (reach.lanes ≤ 64) }
    ensures { (t : Env) (f : Rows) (s : Own) (j : ℕ) → Reached t reach → Viewed t f s j view route held.now globals.now tables.now samples.now values.now → (l : ℕ) → l < reach.lanes → at result l ≡ add_lane t f s j route (at row l) (addend t true route.voice l) }
{
    if route.voice {
        return own_lanes(
            reach, route, view, row, held, globals, tables, samples, values,
        );
    }
    let snap = reach.snap;
    let fresh = reach.fresh;
    let x = lane_value(
        snap, fresh, route, view, 0, held, globals, tables, samples, values,
    );
    same_lanes(reach, x, row)
}

// a route's value, added in the one lane of a plan that is not per voice
fn one_row(
    reach: Reach,
    route: Route,
    view: View,
    row: [f32; VOICES],
    held: &[f32],
    globals: &[f32],
    tables: &[f32],
    samples: &[f32],
    values: &[f32],
) -> [f32; VOICES]
    requires { Placed view }
    ensures { (t : Env) (f : Rows) (s : Own) (j : ℕ) → Reached t reach → Viewed t f s j view route held.now globals.now tables.now samples.now values.now → at result 0 ≡ add_lane t f s j route (at row 0) (addend t false route.voice 0) }
{
    let voices = reach.voices;
    let snap = reach.snap;
    let fresh = reach.fresh;
    let found = lane_input::addend(voices, false, route.voice, 0);
    let mut out = row;
    let a = out[0];
    out[0] = add_lane(
        found, snap, fresh, route, view, a, held, globals, tables, samples, values,
    );
    out
}

// a route's values, added in each lane of the plan
pub fn other_lanes(
    voice: bool,
    reach: Reach,
    route: Route,
    view: View,
    row: [f32; VOICES],
    held: &[f32],
    globals: &[f32],
    tables: &[f32],
    samples: &[f32],
    values: &[f32],
) -> [f32; VOICES]
    requires { Placed view × (reach.lanes ≤ 64) × (voice ≡ false → reach.lanes ≤ 1) }
    ensures { (t : Env) (f : Rows) (s : Own) (j : ℕ) → Reached t reach → Viewed t f s j view route held.now globals.now tables.now samples.now values.now → (l : ℕ) → l < reach.lanes → at result l ≡ add_lane t f s j route (at row l) (addend t voice route.voice l) }
{
    if voice {
        return voice_row(
            reach, route, view, row, held, globals, tables, samples, values,
        );
    }
    one_row(
        reach, route, view, row, held, globals, tables, samples, values,
    )
}

// Route j, whose inputs read these parts, added where it is neither plain nor idle, in each lane of the plan.
pub fn add_other(
    ground: Ground,
    reach: Reach,
    j: usize,
    route: Route,
    source: SignalPart,
    aux: SignalPart,
    row: [f32; VOICES],
    held: &[f32],
    globals: &[f32],
    tables: &[f32],
    samples: &[f32],
    values: &[f32],
) -> [f32; VOICES]
    requires { Based ground × (reach.lanes ≤ 64) × (ground.voice ≡ false → reach.lanes ≤ 1) }
    ensures { (t : Env) (f : Rows) (s : Own) (x : Mix) (w : Job) → Mixes t f s x w held.now globals.now samples.now values.now → Works t (point_of w.scene w.chunks) tables.now → Chosen w ground j route → Reached t reach → j < x.count → source ≡ part_for w.signals route.source.read → aux ≡ aux_part w.signals route.aux → (l : ℕ) → l < reach.lanes → at result l ≡ other_step t f s x j l (x.route j) (at row l) }
{
    if is_plain(ground, route, source) {
        return row;
    }
    let view = view_for(ground, j, route, source, aux);
    if lane::idle(route, view.amount, view.output) {
        return row;
    }
    other_lanes(
        ground.voice,
        reach,
        route,
        view,
        row,
        held,
        globals,
        tables,
        samples,
        values,
    )
}

// The lanes that the other routes of a job are added in.
pub fn reach_of(job: Job) -> Reach
    requires { Bounded job }
    ensures { (result.lanes ≡ lane_count job) × (result.lanes ≤ 64) × ((t : Env) → IsScene t job.scene job.signals → Reached t result) }
{
    let scene = job.scene;
    let voices = scene.voices;
    let fresh = scene.fresh;
    let active = voices.active;
    let groups = groups_of(active);
    Reach {
        lanes: lane_count(job),
        groups,
        voices,
        fresh,
        snap: scene.snap,
    }
}

// which groups have an active voice
fn groups_of(active: [bool; VOICES]) -> [bool; GROUPS]
    ensures { (t : Env) → t.voices.active ≡ active → (l : ℕ) → l < 64 → get_or result (l / lanes) false ≡ in_group t l }
{
    let a = lane_input::in_group(active, 0);
    let b = lane_input::in_group(active, 16);
    let c = lane_input::in_group(active, 32);
    let d = lane_input::in_group(active, 48);
    [a, b, c, d]
}

// ---- simple routes

// Which routes are simple.
pub fn simples_of(routes: [Route; SLOTS]) -> [bool; SLOTS]
    ensures { AreSimple routes result }
{
    let mut out = [false; SLOTS];
    for i in 0..SLOTS {
        let route = routes[i];
        out[i] = route.simple;
    }
    out
}

// Whether one of `count` routes from `first` on is simple.
pub fn some_simple(simples: [bool; SLOTS], first: usize, count: usize) -> bool
    ensures { result ≡ false → (j : ℕ) → j < count → get_or simples (first + j) false ≡ false }
{
    for j in 0..count {
        let i = route_index(first, j);
        if simples[i] {
            return true;
        }
    }
    false
}

// ---- the sum

// what the others are added to at a tick
pub fn tick_begun(
    job: Job,
    base: f32,
    held: &[f32],
    globals: &[f32],
    samples: &[f32],
    values: &[f32],
) -> [f32; VOICES]
    requires { Bounded job }
    ensures { (t : Env) (f : Rows) (s : Own) (x : Mix) → Mixes t f s x job held.now globals.now samples.now values.now → base ≡ base_in t x → (l : ℕ) → l < lane_count job → at result l ≡ begun t f s x l }
{
    if !job.simple {
        return [base; VOICES];
    }
    let row = [base; VOICES];
    audio_plains(job, base, row, held, globals, samples, values)
}

// what the others are added to, where `old` stands in the row and a route may be plain: at a tick the base does
// Inline: a job is large, and would be copied for each of the two callers.
#[inline(always)]
fn audio_plains(
    job: Job,
    base: f32,
    old: [f32; VOICES],
    held: &[f32],
    globals: &[f32],
    samples: &[f32],
    values: &[f32],
) -> [f32; VOICES]
    requires { Bounded job }
    ensures { (t : Env) (f : Rows) (s : Own) (x : Mix) → Mixes t f s x job held.now globals.now samples.now values.now → base ≡ base_in t x → (l : ℕ) → l < lane_count job → at result l ≡ audio_begun t f s x (at old l) l }
{
    let all = totals_of(job);
    let some = all.some;
    let offset = all.offset;
    if !some {
        return [base; VOICES];
    }
    plain_row(job, base + offset, old, held, globals, samples, values)
}

// what the others are added to in audio, where `old` stands in the row
pub fn audio_begun(
    job: Job,
    base: f32,
    old: [f32; VOICES],
    held: &[f32],
    globals: &[f32],
    samples: &[f32],
    values: &[f32],
) -> [f32; VOICES]
    requires { Bounded job }
    ensures { (t : Env) (f : Rows) (s : Own) (x : Mix) → Mixes t f s x job held.now globals.now samples.now values.now → base ≡ base_in t x → (l : ℕ) → l < lane_count job → at result l ≡ audio_begun t f s x (at old l) l }
{
    if !job.simple {
        return [base; VOICES];
    }
    audio_plains(job, base, old, held, globals, samples, values)
}
