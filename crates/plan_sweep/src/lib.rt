// Plain routes added over the rows of a chunk, 16 lanes at a time: the sums of a group stay together over four routes at a time, then over the last ones (engine.rs 951-1006,
// 1013-1036, 1056-1183; document 01, Chunk and value). What the rows become is defined in specs/Sweep; which routes and plans are swept, and by what, in specs/Leads.
#![tactic(auto)]

ghost use Rattle.std.specs.Prelude.{◌≡◌, ℕ, ◌+◌, ◌-◌, ◌*◌, ◌/◌, ◌≤◌, ◌<◌, true, false, cond, eqb, length, get_or};
ghost use Rattle.std.specs.Float.Ieee.{is_nan};
ghost use Rattle.config.specs.Sizes.{slots, most_sources, most_frames, lanes};
ghost use Rattle.number.specs.Number.{plus, times, min32, hold};
ghost use Rattle.model.specs.Counts.{at};
ghost use Rattle.model.specs.Tick.{fill_from};
ghost use Rattle.plan_sweep.specs.Sweep.{swept_step, swept, start_at, held_by, swept_row, swept_rows, some_row, some_rows, Within, head_of, after_of, four_of, levels_of, further_of, places_at, UpTo, four_at};
ghost use Rattle.plan_sweep.specs.Leads.{row_key, Moves, leads_of, Leading, Blank, offset_sum, pass_of, Fielded, Swept};

use config::{LANES, SIGNAL_STRIDE, SLOTS, SOURCES, VOICES};
use state::{Gains, Plan, Read, Route, SignalPart, Signals};

// What the rows of a plan are swept by: what the routes are added to, whether the bounds hold anything, and they; which routes; the first lane of the span and its
// groups of 16, and the lanes of a row. The bounds are no Option: they stay where `bound` alone is taken back.
#[derive(Clone, Copy)]
pub struct Pass {
    pub begun: f32,
    pub bound: bool,
    pub min: f32,
    pub max: f32,
    pub first: usize,
    pub count: usize,
    pub from: usize,
    pub groups: usize,
    pub width: usize,
}

// ---- sixteen lanes

// the products of the numbers from p on, added
fn add(acc: [f32; LANES], xs: &[f32], p: usize, gain: f32) -> [f32; LANES]
    requires { p + lanes ≤ length xs.now }
    ensures { (l : ℕ) → l < lanes → at result l ≡ plus (at acc l) (times (at xs.now (p + l)) gain) }
{
    let mut out = acc;
    for l in 0..16 {
        out[l] = out[l] + xs[p + l] * gain;
    }
    out
}

// added, where the gain is not 0
fn step(acc: [f32; LANES], xs: &[f32], p: usize, gain: f32) -> [f32; LANES]
    requires { p + lanes ≤ length xs.now }
    ensures { (l : ℕ) → l < lanes → at result l ≡ swept_step gain (at xs.now (p + l)) (at acc l) }
{
    if gain == 0.0 {
        return acc;
    }
    add(acc, xs, p, gain)
}

// a number that is no NaN, at most hi
fn below(hi: f32, y: f32) -> f32
    requires { is_nan y ≡ false }
    ensures { result ≡ min32 y hi }
{
    if hi < y {
        return hi;
    }
    y
}

// x held to lo..hi, where lo is no NaN
fn held(lo: f32, hi: f32, x: f32) -> f32
    requires { is_nan lo ≡ false }
    ensures { result ≡ hold lo hi x }
{
    below(hi, number::max(x, lo))
}

// each lane held to the bounds
fn hold_lanes(acc: [f32; LANES], lo: f32, hi: f32) -> [f32; LANES]
    requires { is_nan lo ≡ false }
    ensures { (l : ℕ) → l < lanes → at result l ≡ hold lo hi (at acc l) }
{
    let mut out = acc;
    for l in 0..16 {
        let x = out[l];
        out[l] = held(lo, hi, x);
    }
    out
}

// each lane held, where the bounds hold anything
fn bounds(acc: [f32; LANES], pass: Pass) -> [f32; LANES]
    requires { is_nan pass.min ≡ false }
    ensures { (l : ℕ) → l < lanes → at result l ≡ held_by pass (at acc l) }
{
    if pass.bound {
        return hold_lanes(acc, pass.min, pass.max);
    }
    acc
}

// sixteen lanes of a row, from `start` on
fn put(audio: &mut [f32], start: usize, row: [f32; LANES])
    requires { start + lanes ≤ length audio.old }
    ensures { audio.new ≡ fill_from audio.old start (at row) lanes }
{
    for l in 0..16 {
        audio[start + l] = row[l];
    }
}

// ---- the routes

// where a route's number stands
fn place(start: usize, step: usize, frame: usize, lane: usize) -> usize
    requires { start + (frame * step + lane) ≤ 18446744073709551615 }
    ensures { result ≡ start + (frame * step + lane) }
{
    start + (frame * step + lane)
}

// the routes added in sixteen lanes from `lane` on
fn added(
    acc: [f32; LANES],
    pass: Pass,
    starts: &[usize],
    steps: &[usize],
    gains: &[f32],
    samples: &[f32],
    frame: usize,
    lane: usize,
) -> [f32; LANES]
    requires { Within starts.now steps.now gains.now samples.now pass (frame + 1) × (lane + lanes ≤ pass.width) }
    ensures { (l : ℕ) → l < lanes → at result l ≡ swept starts.now steps.now gains.now samples.now pass.first frame (lane + l) (at acc l) pass.count }
{
    let first = pass.first;
    let count = pass.count;
    let mut out = acc;
    for j in 0..count {
        let i = first + j;
        let p = place(starts[i], steps[i], frame, lane);
        let gain = gains[i];
        let next = step(out, samples, p, gain);
        out = next;
    }
    out
}

// ---- rows

// the sixteen numbers from p on
// Not that of `lanes16`, which is not below: the loop has to be a part of its caller (docs/SPEED.md).
fn sixteen(xs: &[f32], p: usize) -> [f32; LANES]
    requires { p + lanes ≤ length xs.now }
    ensures { (l : ℕ) → l < lanes → at result l ≡ at xs.now (p + l) }
{
    let mut out = [0.0f32; LANES];
    for l in 0..16 {
        out[l] = xs[p + l];
    }
    out
}

// what the routes are added to in sixteen lanes: what stands there, or x
fn begin(audio: &[f32], over: bool, start: usize, x: f32) -> [f32; LANES]
    requires { start + lanes ≤ length audio.now }
    ensures { (l : ℕ) → l < lanes → at result l ≡ start_at over x audio.now (start + l) }
{
    if over {
        return sixteen(audio, start);
    }
    [x; LANES]
}

// sixteen lanes from `lane` on of the row that starts there
fn group(
    audio: &mut [f32],
    over: bool,
    pass: Pass,
    starts: &[usize],
    steps: &[usize],
    gains: &[f32],
    samples: &[f32],
    frame: usize,
    start: usize,
    lane: usize,
)
    requires { Within starts.now steps.now gains.now samples.now pass (frame + 1) × (lane + lanes ≤ pass.width) × (start + pass.width ≤ length audio.old) }
    ensures { audio.new ≡ fill_from audio.old (start + lane) (λ (l : ℕ). held_by pass (swept starts.now steps.now gains.now samples.now pass.first frame (lane + l) (start_at over pass.begun audio.old (start + lane + l)) pass.count)) lanes }
{
    let old = begin(audio, over, start + lane, pass.begun);
    let acc = added(old, pass, starts, steps, gains, samples, frame, lane);
    let row = bounds(acc, pass);
    put(audio, start + lane, row);
}

// the lanes of the span in the row that starts there, over what stands there or over what the routes are added to
fn some_row(
    audio: &mut [f32],
    over: bool,
    pass: Pass,
    starts: &[usize],
    steps: &[usize],
    gains: &[f32],
    samples: &[f32],
    frame: usize,
    start: usize,
)
    requires { Within starts.now steps.now gains.now samples.now pass (frame + 1) × (start + pass.width ≤ length audio.old) }
    ensures { audio.new ≡ some_row over starts.now steps.now gains.now samples.now pass start frame audio.old }
{
    let from = pass.from;
    let groups = pass.groups;
    for g in 0..groups {
        let lane = from + g * 16;
        group(
            audio, over, pass, starts, steps, gains, samples, frame, start, lane,
        );
    }
}

// The lanes of the span in the row that starts there.
pub fn span_row(
    audio: &mut [f32],
    pass: Pass,
    starts: &[usize],
    steps: &[usize],
    gains: &[f32],
    samples: &[f32],
    frame: usize,
    start: usize,
)
    requires { Within starts.now steps.now gains.now samples.now pass (frame + 1) × (start + pass.width ≤ length audio.old) }
    ensures { audio.new ≡ swept_row starts.now steps.now gains.now samples.now pass start frame audio.old }
{
    some_row(
        audio, false, pass, starts, steps, gains, samples, frame, start,
    );
}

// the same over the rows of `len` frames
fn some_rows(
    audio: &mut [f32],
    over: bool,
    pass: Pass,
    starts: &[usize],
    steps: &[usize],
    gains: &[f32],
    samples: &[f32],
    frame: usize,
    len: usize,
)
    requires { Within starts.now steps.now gains.now samples.now pass (frame + len) × (len * pass.width ≤ length audio.old) }
    ensures { audio.new ≡ some_rows over starts.now steps.now gains.now samples.now pass 0 frame len audio.old }
{
    let width = pass.width;
    for n in 0..len {
        let at = n * width;
        some_row(
            audio,
            over,
            pass,
            starts,
            steps,
            gains,
            samples,
            frame + n,
            at,
        );
    }
}

// ---- four routes

// Where the numbers of four routes stand.
#[derive(Clone, Copy)]
pub struct Places {
    pub a: usize,
    pub b: usize,
    pub c: usize,
    pub d: usize,
}

// The gains of four routes.
#[derive(Clone, Copy)]
pub struct Levels {
    pub a: f32,
    pub b: f32,
    pub c: f32,
    pub d: f32,
}

// four routes added
fn four(acc: [f32; LANES], xs: &[f32], p: Places, g: Levels) -> [f32; LANES]
    requires { UpTo (further_of p lanes) (length xs.now) }
    ensures { (l : ℕ) → l < lanes → at result l ≡ four_at xs.now p g l (at acc l) }
{
    let a = step(acc, xs, p.a, g.a);
    let b = step(a, xs, p.b, g.b);
    let c = step(b, xs, p.c, g.c);
    step(c, xs, p.d, g.d)
}

// four routes added to sixteen lanes from `start` on: to what stands there, or to x
fn four_group(audio: &mut [f32], over: bool, x: f32, start: usize, xs: &[f32], p: Places, g: Levels)
    requires { UpTo (further_of p lanes) (length xs.now) × (start + lanes ≤ length audio.old) }
    ensures { audio.new ≡ fill_from audio.old start (λ (l : ℕ). four_at xs.now p g l (start_at over x audio.old (start + l))) lanes }
{
    let old = begin(audio, over, start, x);
    let acc = four(old, xs, p, g);
    put(audio, start, acc);
}

// each place n further
fn further(p: Places, n: usize) -> Places
    requires { UpTo (further_of p n) 18446744073709551615 }
    ensures { result ≡ further_of p n }
{
    Places {
        a: p.a + n,
        b: p.b + n,
        c: p.c + n,
        d: p.d + n,
    }
}

// the same in the lanes of so many groups, of which the first stands at `start`
fn four_row(
    audio: &mut [f32],
    over: bool,
    x: f32,
    start: usize,
    groups: usize,
    xs: &[f32],
    p: Places,
    g: Levels,
)
    requires { UpTo (further_of p (groups * lanes)) (length xs.now) × (start + (groups * lanes) ≤ length audio.old) }
    ensures { audio.new ≡ fill_from audio.old start (λ (l : ℕ). four_at xs.now p g l (start_at over x audio.old (start + l))) (groups * lanes) }
{
    for k in 0..groups {
        let o = k * 16;
        let q = further(p, o);
        four_group(audio, over, x, start + o, xs, q, g);
    }
}

// where the numbers of four routes stand that start at s and move by t a frame
fn places_at(s: Places, t: Places, frame: usize, lane: usize) -> Places
    requires { UpTo (places_at s t frame lane) 18446744073709551615 }
    ensures { result ≡ places_at s t frame lane }
{
    Places {
        a: place(s.a, t.a, frame, lane),
        b: place(s.b, t.b, frame, lane),
        c: place(s.c, t.c, frame, lane),
        d: place(s.d, t.d, frame, lane),
    }
}

// the four numbers from i on
fn four_of(xs: &[usize], i: usize) -> Places
    requires { i + 4 ≤ length xs.now }
    ensures { result ≡ four_of xs.now i }
{
    Places {
        a: xs[i],
        b: xs[i + 1],
        c: xs[i + 2],
        d: xs[i + 3],
    }
}

// the four gains from i on
fn levels_of(gains: &[f32], i: usize) -> Levels
    requires { i + 4 ≤ length gains.now }
    ensures { result ≡ levels_of gains.now i }
{
    Levels {
        a: gains[i],
        b: gains[i + 1],
        c: gains[i + 2],
        d: gains[i + 3],
    }
}

// the four routes of a pass over the rows of `len` frames
fn four_rows(
    audio: &mut [f32],
    over: bool,
    pass: Pass,
    starts: &[usize],
    steps: &[usize],
    gains: &[f32],
    samples: &[f32],
    frame: usize,
    len: usize,
)
    requires { Within starts.now steps.now gains.now samples.now pass (frame + len) × (pass.count ≡ 4) × (len * pass.width ≤ length audio.old) × (pass.bound ≡ false) }
    ensures { audio.new ≡ some_rows over starts.now steps.now gains.now samples.now pass 0 frame len audio.old }
{
    let s = four_of(starts, pass.first);
    let t = four_of(steps, pass.first);
    let g = levels_of(gains, pass.first);
    let from = pass.from;
    let width = pass.width;
    for n in 0..len {
        let p = places_at(s, t, frame + n, from);
        four_row(
            audio,
            over,
            pass.begun,
            n * width + from,
            pass.groups,
            samples,
            p,
            g,
        );
    }
}

// whether the bounds hold anything once n routes are added
fn last(bound: bool, n: usize, count: usize) -> bool
    ensures { result ≡ cond (eqb n count) bound false }
{
    if n == count {
        return bound;
    }
    false
}

// n routes of a pass after the first j
fn after(pass: Pass, j: usize, n: usize) -> Pass
    requires { pass.first + (j + n) ≤ slots }
    ensures { result ≡ after_of pass j n }
{
    Pass {
        begun: pass.begun,
        bound: last(pass.bound, j + n, pass.count),
        min: pass.min,
        max: pass.max,
        first: pass.first + j,
        count: n,
        from: pass.from,
        groups: pass.groups,
        width: pass.width,
    }
}

// the rows with all routes but the last, of which at most four are left: how many they are
fn most_rows(
    audio: &mut [f32],
    pass: Pass,
    starts: &[usize],
    steps: &[usize],
    gains: &[f32],
    samples: &[f32],
    frame: usize,
    len: usize,
) -> usize
    requires { Within starts.now steps.now gains.now samples.now pass (frame + len) × (len * pass.width ≤ length audio.old) × (4 < pass.count) }
    ensures { (result < pass.count) × (audio.new ≡ swept_rows starts.now steps.now gains.now samples.now (head_of pass result) 0 frame len audio.old) }
{
    let mut j = 0usize;
    // Not a for over step_by(4): the first route that is left is wanted after the loop.
    while j + 4 < pass.count {
        four_rows(
            audio,
            0 < j,
            after(pass, j, 4),
            starts,
            steps,
            gains,
            samples,
            frame,
            len,
        );
        j += 4;
    }
    j
}

// The rows of `len` frames, of which the first is `frame` and is at the start of the audio that is lent: the lanes of the span; the others as they are.
pub fn rows(
    audio: &mut [f32],
    pass: Pass,
    starts: &[usize],
    steps: &[usize],
    gains: &[f32],
    samples: &[f32],
    frame: usize,
    len: usize,
)
    requires { Within starts.now steps.now gains.now samples.now pass (frame + len) × (len * pass.width ≤ length audio.old) }
    ensures { audio.new ≡ swept_rows starts.now steps.now gains.now samples.now pass 0 frame len audio.old }
{
    if pass.count <= 4 {
        some_rows(
            audio, false, pass, starts, steps, gains, samples, frame, len,
        );
        return;
    }
    let j = most_rows(audio, pass, starts, steps, gains, samples, frame, len);
    let rest = after(pass, j, pass.count - j);
    some_rows(audio, true, rest, starts, steps, gains, samples, frame, len);
}

// ---- plain routes whose numbers stand in the samples

// What each route of a program is swept by in a chunk: where the numbers that it reads start, by how much they move a frame (0: it is not swept), its scaled gain,
// and its offset times its gain.
#[derive(Clone, Copy)]
pub struct Leads {
    pub starts: [usize; SLOTS],
    pub steps: [usize; SLOTS],
    pub gains: [f32; SLOTS],
    pub offsets: [f32; SLOTS],
}

fn voice_key(source: u8, voice: bool) -> usize
    ensures { result ≡ cond voice source most_sources }
{
    if voice {
        return source as usize;
    }
    SOURCES
}

// the source whose signal is read lane by lane; where none is, the number after the last
fn row_key(read: Read) -> usize
    ensures { result ≡ row_key read }
{
    match read {
        Read::Signal { source, voice } => voice_key(source, voice),
        Read::Held {
            source: _,
            voice: _,
        } => SOURCES,
        Read::Fed { plan: _, voice: _ } => SOURCES,
        Read::Constant => SOURCES,
        Read::RouteRandom => SOURCES,
    }
}

fn route_key(route: Route) -> usize
    ensures { result ≡ row_key route.source.read }
{
    let source = route.source;
    let read = source.read;
    row_key(read)
}

// where the gains of a slot stand; 0 where there are none
fn slot_index(slot: u8) -> usize
    ensures { (result < slots) × (slot < slots → result ≡ slot) }
{
    let i = slot as usize;
    if i < SLOTS {
        return i;
    }
    0
}

// by how much the numbers of a part move a frame, where a row of each frame up to the last lies in the part and in the samples; else 0
fn part_step(part: SignalPart, stride: usize, up_to: usize, len: usize) -> usize
    requires { up_to ≤ most_frames }
    ensures { 0 < result → Moves part stride up_to len result }
{
    let wide = lane_input::part_stride(part);
    if wide < stride {
        return 0;
    }
    if SIGNAL_STRIDE < wide {
        return 0;
    }
    let rows = up_to * wide;
    if part.len == 0 {
        return 0;
    }
    if part.len < rows {
        return 0;
    }
    if len < part.at {
        return 0;
    }
    if len - part.at < rows {
        return 0;
    }
    wide
}

// the same of a route that reads that part
fn lead_step(
    route: Route,
    key: usize,
    part: SignalPart,
    stride: usize,
    up_to: usize,
    len: usize,
) -> usize
    requires { up_to ≤ most_frames }
    ensures { 0 < result → (route.simple ≡ true) × (key < most_sources) × (route.slot < slots) × Moves part stride up_to len result }
{
    if !route.simple {
        return 0;
    }
    if SOURCES <= key {
        return 0;
    }
    let slot = route.slot as usize;
    if SLOTS <= slot {
        return 0;
    }
    part_step(part, stride, up_to, len)
}

// What each of the first n routes is swept by up to frame `up_to`; the others are not swept.
pub fn lead_routes(
    starts: &mut [usize],
    steps: &mut [usize],
    gains: &mut [f32],
    offsets: &mut [f32],
    routes: [Route; SLOTS],
    n: usize,
    signals: Signals,
    levels: Gains,
    stride: usize,
    up_to: usize,
    samples: &[f32],
)
    requires { (up_to ≤ most_frames) × Blank n starts.old steps.old gains.old offsets.old }
    ensures { Leading signals levels stride up_to samples.now routes
        (leads_of starts.new steps.new gains.new offsets.new) }
{
    let parts = signals.part;
    let amount = levels.amount;
    let output = levels.output;
    let len = samples.len();
    for i in 0..n {
        let route = routes[i];
        let key = route_key(route);
        let part = parts[plan_sum::part_index(key)];
        let s = slot_index(route.slot);
        let gain = amount[s] * output[s];
        starts[i] = part.at;
        steps[i] = lead_step(route, key, part, stride, up_to, len);
        gains[i] = route.scale * gain;
        offsets[i] = route.offset * gain;
    }
}

// What each route is swept by in a chunk that ends at `up_to`.
pub fn leads_of(
    routes: [Route; SLOTS],
    signals: Signals,
    levels: Gains,
    stride: usize,
    up_to: usize,
    samples: &[f32],
) -> Leads
    requires { up_to ≤ most_frames }
    ensures { Leading signals levels stride up_to samples.now routes result }
{
    let mut starts = [0usize; SLOTS];
    let mut steps = [0usize; SLOTS];
    let mut gains = [0.0f32; SLOTS];
    let mut offsets = [0.0f32; SLOTS];
    lead_routes(
        &mut starts,
        &mut steps,
        &mut gains,
        &mut offsets,
        routes,
        SLOTS,
        signals,
        levels,
        stride,
        up_to,
        samples,
    );
    Leads {
        starts,
        steps,
        gains,
        offsets,
    }
}

// ---- plans that are swept

// What the plans of a chunk are swept by: whether a voice is active, the lane stride and the frames, and the active span: its first lane and its groups of 16.
// No Option: the numbers hold and are read whether `on` or not.
#[derive(Clone, Copy)]
pub struct Field {
    pub on: bool,
    pub stride: usize,
    pub frames: usize,
    pub from: usize,
    pub groups: usize,
}

// whether a voice is active, and the lanes are whole groups
fn field_on(sounds: bool, lanes: usize) -> bool
    ensures { result ≡ true → (sounds ≡ true) × (lanes / 16 * 16 ≡ lanes) }
{
    sounds && lanes / 16 * 16 == lanes
}

// The field of those voices.
pub fn field_of(active: [bool; VOICES], stride: usize, frames: usize) -> Field
    requires { stride ≤ 64 }
    ensures { Fielded active stride frames result }
{
    let span = plan_sum::span_within(
        plan_sum::span_first(active),
        plan_sum::span_end(active, stride),
        stride,
    );
    let lanes = span.end - span.first;
    let on = field_on(lane_input::sounding(active, stride), lanes);
    Field {
        on,
        stride,
        frames,
        from: span.first,
        groups: lanes / 16,
    }
}

// whether each of `count` routes from `first` on is swept
fn all_led(steps: &[usize], first: usize, count: usize) -> bool
    requires { first + count ≤ length steps.now }
    ensures { result ≡ true → (j : ℕ) → j < count → 0 < get_or steps.now (first + j) 0 }
{
    for j in 0..count {
        let i = first + j;
        if steps[i] == 0 {
            return false;
        }
    }
    true
}

// The sum of their offsets.
pub fn offset_sum(offsets: &[f32], first: usize, count: usize) -> f32
    requires { first + count ≤ length offsets.now }
    ensures { result ≡ offset_sum offsets.now first count }
{
    let mut out = 0.0f32;
    for j in 0..count {
        let i = first + j;
        out = out + offsets[i];
    }
    out
}

// What the rows of a plan with that base are swept by, held where `bound`.
pub fn pass_of(field: Field, plan: Plan, base: f32, bound: bool, offsets: &[f32]) -> Pass
    requires { plan.first + plan.count ≤ length offsets.now }
    ensures { result ≡ pass_of field plan base bound offsets.now }
{
    let offset = offset_sum(offsets, plan.first, plan.count);
    Pass {
        begun: base + offset,
        bound,
        min: plan.min,
        max: plan.max,
        first: plan.first,
        count: plan.count,
        from: field.from,
        groups: field.groups,
        width: field.stride,
    }
}

// whether x is no NaN
fn is_number(x: f32) -> bool
    ensures { result ≡ true → is_nan x ≡ false }
{
    x == x
}

// Whether the rows of a plan are swept.
pub fn is_swept(field: Field, plan: Plan, steps: &[usize]) -> bool
    requires { length steps.now ≡ slots }
    ensures { result ≡ true → Swept field plan steps.now }
{
    if !field.on {
        return false;
    }
    if !plan.voice {
        return false;
    }
    let first = plan.first;
    let count = plan.count;
    if count == 0 {
        return false;
    }
    if SLOTS < first {
        return false;
    }
    if SLOTS - first < count {
        return false;
    }
    if !is_number(plan.min) {
        return false;
    }
    all_led(steps, first, count)
}
