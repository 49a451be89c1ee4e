// One input of a route in one lane, and the lanes that a route is worked out in and added to (engine.rs 803-841, 1296-1343, 1401-1478; document 01, Chunk and
// value). The definitions are in model's specs/Env, specs/Input and specs/Lanes. A contract holds of every environment that has what the function is handed.
#![tactic(auto)]

ghost use Rattle.std.specs.Prelude.{◌≡◌, false, ◌+◌, ◌-◌, ◌*◌, ◌≤◌, ◌<◌, ltb, leb, get_or};
ghost use Rattle.config.specs.Sizes.{most_voices};
ghost use Rattle.list.specs.Rows.{row_at};
ghost use Rattle.curve_table.specs.Table.{points, lookup_of};
ghost use Rattle.model.specs.Counts.{at};
ghost use Rattle.model.specs.Env.{Env, Rows, no_part, part_stride, in_part, sample_in};
ghost use Rattle.model.specs.Input.{own, fed_at, read_in, unipolar, curved, slewed, input_in};
ghost use Rattle.model.specs.Lanes.{any_from, group_of, in_group, sounding, in_span, lane_if, addend, same_group, worked, snap_of};
ghost use Rattle.model.specs.Layout.{plan_size, plan_to};
ghost use Rattle.model.specs.Tick.{lanes_from};
ghost use Rattle.lane_input.specs.Signal.{signal_in};
ghost use Rattle.lane_input.specs.Reads.{Sized, IsRows, Reads, Works, part_for, fed_from, held_at, point_of};

use config::{LANES, VOICES};
use curve_table::POINTS;
use state::{Gains, Input, Read, SignalPart, Slew};
use voice::Voices;

// What lanes are worked out from at one frame, besides the lent numbers.
#[derive(Clone, Copy)]
pub struct Scene {
    pub stride: usize,
    pub voices: Voices,
    pub fresh: [bool; VOICES],
    pub gains: Gains,
    pub primed: bool,
    pub frame: usize,
    pub up_to: usize,
    pub steps: f32,
    pub snap: bool,
}

// What an input is read by: the sizes, the frame, and the samples by which slews move.
#[derive(Clone, Copy)]
pub struct Point {
    pub stride: usize,
    pub chunks: usize,
    pub frame: usize,
    pub steps: f32,
}

// The point of a scene.
pub fn point_of(scene: Scene, chunks: usize) -> Point
    ensures { result ≡ point_of scene chunks }
{
    Point {
        stride: scene.stride,
        chunks,
        frame: scene.frame,
        steps: scene.steps,
    }
}

// ---- numbers of a row

// Lane `lane` of the row that starts there.
pub fn lane_from(values: &[f32], start: usize, lane: usize) -> f32
    ensures { result ≡ lanes_from values.now start lane }
{
    let len = values.len();
    if len <= start {
        return state_registry::not_a_number();
    }
    if len - start <= lane {
        return state_registry::not_a_number();
    }
    values[start + lane]
}

// The lane of a row that has one for each voice, or only one.
pub fn own(voice: bool, lane: usize) -> usize
    ensures { result ≡ own voice lane }
{
    if voice {
        return lane;
    }
    0
}

// A fed read, of the row that starts there; beyond the stride there is no lane.
pub fn fed_at(values: &[f32], start: usize, voice: bool, lane: usize, stride: usize) -> f32
    ensures { result ≡ fed_from values.now start voice lane stride }
{
    let l = own(voice, lane);
    if stride <= l {
        return state_registry::not_a_number();
    }
    lane_from(values, start, l)
}

// The numbers of a plan in the values.
pub fn plan_size(stride: usize, chunks: usize) -> usize
    requires { (stride ≤ 64) × (chunks ≤ 130) }
    ensures { (result ≡ plan_size stride chunks) × (result ≤ 17024) }
{
    stride * (2 * chunks + 6)
}

// Where the row of a plan starts in the values.
pub fn plan_to(stride: usize, chunks: usize, plan: u8) -> usize
    requires { (stride ≤ 64) × (chunks ≤ 130) }
    ensures { result ≡ plan_to stride chunks plan }
{
    let size = plan_size(stride, chunks);
    (plan as usize) * size + stride
}

// A held number: of a lane, or of all lanes.
pub fn held_at(
    held: &[f32],
    globals: &[f32],
    source: u8,
    stride: usize,
    voice: bool,
    lane: usize,
) -> f32
    requires { stride ≤ 64 }
    ensures { result ≡ held_at held.now globals.now source stride voice lane }
{
    let i = source as usize;
    if voice {
        return lane_from(held, i * stride, lane);
    }
    list::read(globals, i, state_registry::not_a_number())
}

// ---- signals

// The stride of a part: 0 reads as 1.
pub fn part_stride(part: SignalPart) -> usize
    ensures { (result ≡ part_stride part) × (0 < result) }
{
    let stride = part.stride;
    if stride == 0 {
        return 1;
    }
    stride
}

// Whether so many rows of a signal lie within a length.
pub fn rows_within(rows: usize, stride: usize, len: usize) -> bool
    requires { 0 < stride }
    ensures { result ≡ leb (rows * stride) len }
{
    rows <= len / stride
}

// whether a row of a signal starts below a length
fn starts_below(row: usize, stride: usize, len: usize) -> bool
    requires { 0 < stride }
    ensures { result ≡ ltb (row * stride) len }
{
    if len == 0 {
        return false;
    }
    rows_within(row, stride, len - 1)
}

// number n of a part, where it has one
fn in_part(samples: &[f32], part: SignalPart, n: usize) -> f32
    ensures { result ≡ in_part samples.now part n }
{
    let len = part.len;
    if len <= n {
        return 0.0;
    }
    lane_from(samples, part.at, n)
}

// the number `lane` after the first of a frame
fn in_frame(samples: &[f32], part: SignalPart, frame: usize, stride: usize, lane: usize) -> f32
    requires { 0 < stride }
    ensures { result ≡ in_part samples.now part (frame * stride + lane) }
{
    let len = part.len;
    if !starts_below(frame, stride, len) {
        return 0.0;
    }
    let start = frame * stride;
    if len - start <= lane {
        return 0.0;
    }
    in_part(samples, part, start + lane)
}

// a part in a lane at a frame; a number of it that the samples have not got is a NaN
fn sample_at(samples: &[f32], part: SignalPart, frame: usize, voice: bool, lane: usize) -> f32
    ensures { result ≡ sample_in samples.now part frame voice lane }
{
    let stride = part_stride(part);
    if !voice {
        return in_frame(samples, part, frame, stride, 0);
    }
    if stride <= lane {
        return 0.0;
    }
    in_frame(samples, part, frame, stride, lane)
}

// what `Signal::read` reads, of the slice and the stride apart
fn signal_in(samples: &[f32], stride: usize, frame: usize, voice: bool, lane: usize) -> f32
    ensures { result ≡ signal_in samples.now stride frame voice lane }
{
    let len = samples.len();
    let whole = SignalPart { at: 0, len, stride };
    sample_at(samples, whole, frame, voice, lane)
}

// A signal: its part of the lent samples, with its stride.
#[derive(Clone, Copy)]
pub struct Signal<'a> {
    pub samples: &'a [f32],
    pub stride: usize,
}

impl<'a> Signal<'a> {
    // The signal in a lane at a frame.
    pub fn read(self, frame: usize, voice: bool, lane: usize) -> f32
        ensures { result ≡ signal_in self.entry.samples.now self.entry.stride frame voice lane }
    {
        signal_in(self.samples, self.stride, frame, voice, lane)
    }
}

// the samples of a signal and its stride as one record, read
fn read_signal(samples: &[f32], stride: usize, frame: usize, voice: bool, lane: usize) -> f32
    ensures { result ≡ signal_in samples.now stride frame voice lane }
{
    Signal { samples, stride }.read(frame, voice, lane)
}

// A signal in a lane at a frame. It is read as a record where its part lies inside the samples, which `process` sees to (row 14).
pub fn sample_in(samples: &[f32], part: SignalPart, frame: usize, voice: bool, lane: usize) -> f32
    ensures { result ≡ sample_in samples.now part frame voice lane }
{
    let at = part.at;
    let len = part.len;
    let all = samples.len();
    if all < at {
        return sample_at(samples, part, frame, voice, lane);
    }
    if all - at < len {
        return sample_at(samples, part, frame, voice, lane);
    }
    let end = at + len;
    read_signal(&samples[at..end], part.stride, frame, voice, lane)
}

// The part of a source that is not bound.
pub fn no_part() -> SignalPart
    ensures { result ≡ no_part }
{
    SignalPart {
        at: 0,
        len: 0,
        stride: 0,
    }
}

// ---- one input

// the row of a plan, in a lane
fn plan_in(values: &[f32], point: Point, plan: u8, voice: bool, lane: usize) -> f32
    requires { Sized point }
    ensures { result ≡ fed_from values.now (plan_to point.stride point.chunks plan) voice lane point.stride }
{
    let stride = point.stride;
    let start = plan_to(stride, point.chunks, plan);
    fed_at(values, start, voice, lane, stride)
}

// A fed read, of a plan's row.
pub fn fed_in(values: &[f32], point: Point, plan: u8, voice: bool, lane: usize) -> f32
    requires { Sized point }
    ensures { (t : Env) (f : Rows) → t.stride ≡ point.stride → IsRows f point values.now → result ≡ fed_at t f plan voice lane }
{
    plan_in(values, point, plan, voice, lane)
}

// What an input reads; random: the random number of this input in this lane.
pub fn read_in(
    read: Read,
    point: Point,
    part: SignalPart,
    random: f32,
    lane: usize,
    held: &[f32],
    globals: &[f32],
    samples: &[f32],
    values: &[f32],
) -> f32
    requires { Sized point }
    ensures { (t : Env) (f : Rows) → Reads t f point held.now globals.now samples.now values.now → part_for t.signals read ≡ part → result ≡ read_in t f random lane read }
{
    match read {
        Read::Signal { source: _, voice } => sample_in(samples, part, point.frame, voice, lane),
        Read::Held { source, voice } => held_at(held, globals, source, point.stride, voice, lane),
        Read::Fed { plan, voice } => plan_in(values, point, plan, voice, lane),
        Read::Constant => 1.0,
        Read::RouteRandom => random,
    }
}

// -1..1 to 0..1
fn unipolar(bipolar: bool, u: f32) -> f32
    ensures { result ≡ unipolar bipolar u }
{
    if bipolar {
        return u * 0.5 + 0.5;
    }
    u
}

// the table at a place, at u; a number that the tables have not got is a NaN
pub fn look_up(tables: &[f32], place: usize, u: f32) -> f32
    requires { place < 512 }
    ensures { result ≡ lookup_of (row_at tables.now points place) u }
{
    let start = place * POINTS;
    let p = curve_table::position(u);
    let i = curve_table::cell_at(p);
    let a = lane_from(tables, start, i);
    let b = lane_from(tables, start, i + 1);
    a + (b - a) * (p - i as f32)
}

// over the table at the place of the slot and the position, where the input has one
fn curved(tables: &[f32], slot: u8, position: usize, table: bool, u: f32) -> f32
    requires { position < 2 }
    ensures { (t : Env) → t.tables ≡ tables.now → result ≡ curved t slot position table u }
{
    if !table {
        return u;
    }
    look_up(tables, 2 * (slot as usize) + position, u)
}

// from prev, where there is a slew
fn slewed(steps: f32, snap: f32, prev: f32, slew: Option<Slew>, u: f32) -> f32
    ensures { (t : Env) → t.steps ≡ steps → result ≡ slewed t snap prev slew u }
{
    match slew {
        None => u,
        Some(Slew { up, down }) => slew::step(
            slew::reach(up, steps),
            slew::reach(down, steps),
            snap,
            prev,
            u,
        ),
    }
}

// What an input starts from in a lane: whether its slew ends at it (1 or 0), its slew before, and its random number.
#[derive(Clone, Copy)]
pub struct Lead {
    pub snap: f32,
    pub prev: f32,
    pub random: f32,
}

// An input's value in a lane, which is also its slew afterwards.
pub fn input_in(
    input: Input,
    point: Point,
    part: SignalPart,
    slot: u8,
    position: usize,
    lead: Lead,
    lane: usize,
    held: &[f32],
    globals: &[f32],
    tables: &[f32],
    samples: &[f32],
    values: &[f32],
) -> f32
    requires { Sized point × (position < 2) }
    ensures { (t : Env) (f : Rows) → Reads t f point held.now globals.now samples.now values.now → Works t point tables.now → part_for t.signals input.read ≡ part → result ≡ input_in t f slot position lead.snap lead.prev lead.random lane input }
{
    let read = input.read;
    let slew = input.slew;
    let raw = read_in(
        read,
        point,
        part,
        lead.random,
        lane,
        held,
        globals,
        samples,
        values,
    );
    let u = curved(
        tables,
        slot,
        position,
        input.table,
        unipolar(input.bipolar, raw),
    );
    slewed(point.steps, lead.snap, lead.prev, slew, u)
}

// ---- lanes

fn mark_at(marks: [bool; VOICES], i: usize) -> bool
    ensures { result ≡ get_or marks i false }
{
    if i < VOICES {
        return marks[i];
    }
    false
}

// the mark i after k
fn mark_from(marks: [bool; VOICES], k: usize, i: usize) -> bool
    ensures { result ≡ get_or marks (k + i) false }
{
    if VOICES <= k {
        return false;
    }
    if VOICES <= i {
        return false;
    }
    mark_at(marks, k + i)
}

// Whether one of the c marks from k on is set.
pub fn any_from(marks: [bool; VOICES], k: usize, c: usize) -> bool
    ensures { result ≡ any_from marks k c }
{
    for i in 0..c {
        if mark_from(marks, k, i) {
            return true;
        }
    }
    false
}

// the first lane of a lane's group
fn group_of(lane: usize) -> usize
    ensures { (result ≡ group_of lane) × (result ≤ lane) }
{
    lane / LANES * LANES
}

// Whether a lane's group has an active voice.
pub fn in_group(active: [bool; VOICES], lane: usize) -> bool
    ensures { (t : Env) → t.voices.active ≡ active → result ≡ in_group t lane }
{
    any_from(active, group_of(lane), LANES)
}

// Whether a voice is active.
pub fn sounding(active: [bool; VOICES], stride: usize) -> bool
    ensures { (t : Env) → t.voices.active ≡ active → t.stride ≡ stride → result ≡ sounding t }
{
    any_from(active, 0, stride)
}

// Whether a lane's group lies in the active span: from the first group with an active voice to the last.
pub fn in_span(active: [bool; VOICES], stride: usize, lane: usize) -> bool
    requires { lane < most_voices }
    ensures { (t : Env) → t.voices.active ≡ active → t.stride ≡ stride → result ≡ in_span t lane }
{
    let group = group_of(lane);
    any_from(active, 0, group + LANES) && any_from(active, group, stride.saturating_sub(group))
}

fn lane_if(on: bool, lane: usize) -> Option<usize>
    ensures { result ≡ lane_if on lane }
{
    if on {
        return Some(lane);
    }
    None
}

// The route's lane, if any, that is added to a lane of the plan, by whether plan and route are per voice.
pub fn addend(voices: Voices, plan: bool, route: bool, lane: usize) -> Option<usize>
    ensures { (t : Env) → t.voices ≡ voices → result ≡ addend t plan route lane }
{
    let active = voices.active;
    if plan {
        return lane_if(in_group(active, lane), own(route, lane));
    }
    if route {
        return voices.newest;
    }
    Some(0)
}

// whether a lane's group is the newest voice's
fn newest_group(newest: Option<usize>, lane: usize) -> bool
    ensures { result ≡ same_group lane newest }
{
    match newest {
        None => false,
        Some(v) => group_of(lane) == group_of(v),
    }
}

// Whether a route is worked out in a lane, so that its slews move.
pub fn worked(voices: Voices, plan: bool, route: bool, lane: usize) -> bool
    ensures { (t : Env) → t.voices ≡ voices → result ≡ worked t plan route lane }
{
    let active = voices.active;
    let newest = voices.newest;
    if !route {
        return lane < LANES;
    }
    if plan {
        return in_group(active, lane);
    }
    newest_group(newest, lane)
}

// 1 where the slews of a route's lane end at their input: fresh lanes of routes per voice.
pub fn snap_of(snap: bool, fresh: [bool; VOICES], voice: bool, lane: usize) -> f32
    ensures { (t : Env) → t.snap ≡ snap → t.fresh ≡ fresh → result ≡ snap_of t voice lane }
{
    if voice && snap && mark_at(fresh, lane) {
        return 1.0;
    }
    0.0
}
