// What opens and closes a block: its judgement, the load, the draws, the glides and the chunk's rows. Functions take the parts of a state that they read;
// the laws that join their definitions to model's are in proofs/.
#![tactic(auto)]

ghost use Rattle.std.specs.Prelude.{◌≡◌, cond, ◌+◌, ◌*◌, ◌≤◌, ◌<◌, min, ltb, length};
ghost use Rattle.refusal.specs.Refusal.{code_of};
ghost use Rattle.draw.specs.Xorshift.{draw_of};
ghost use Rattle.voice.specs.Notes.{moving};
ghost use Rattle.slots_tables.specs.Tables.{tables_need};
ghost use Rattle.model.specs.World.{is_velocity, is_key, is_load};
ghost use Rattle.model.specs.Need.{values_rows};
ghost use Rattle.model.specs.Layout.{plan_width, plan_size, plan_from, route_random};
ghost use Rattle.model.specs.Process.{any_stride, any_outside};
ghost use Rattle.block_opening.specs.Codes.{over_stride, outside, held_need, engine_short_by, values_by, audio_by, program_short_by, code_by};
ghost use Rattle.block_opening.specs.Marks.{load_in, load_lane, load_if, held_if, moved_if, passes};
ghost use Rattle.block_opening.specs.Draws.{draw_after, drawn_voices, drawn_read, drawn_aux, drawn_routes};
ghost use Rattle.block_opening.specs.Rows.{chunk_row, chunk_rows};

use config::{DESTINATIONS, FRAMES, SIGNAL_STRIDE, SLOTS, SOURCES, VOICES};
use refusal::Refusal;
use slots_tables::TABLES;
use state::{Input, Kind, Plan, Read, Route, SignalPart, Signals, SourceMark};
use voice::{Glide, Notes, Voices};

// ---- rows 1, 13 and 14

// The numbers of a state by which memories are measured, as they stand there.
#[derive(Clone, Copy)]
pub struct Counts {
    pub voices: usize,
    pub frames: usize,
    pub sources: usize,
    pub dests: usize,
    pub plans: usize,
    pub routes: usize,
    pub tabled: bool,
}

// The lengths of what is lent.
#[derive(Clone, Copy)]
pub struct Lengths {
    pub held: usize,
    pub globals: usize,
    pub bases: usize,
    pub values: usize,
    pub audio: usize,
    pub tables: usize,
    pub samples: usize,
}

// n, or the most where it is more
pub fn at_most(n: usize, most: usize) -> usize
    ensures { result ≡ min n most }
{
    if n < most {
        return n;
    }
    most
}

fn over_stride(part: SignalPart) -> bool
    ensures { result ≡ over_stride part }
{
    SIGNAL_STRIDE < part.stride
}

// row 13: a stride above the most
pub fn any_stride(part: [SignalPart; SOURCES]) -> bool
    ensures { result ≡ any_stride part }
{
    part.iter().any(|p| over_stride(*p))
}

fn outside(part: SignalPart, n: usize) -> bool
    ensures { result ≡ outside n part }
{
    n < part.at || n - part.at < part.len
}

// a part that does not lie inside n samples
pub fn any_outside(part: [SignalPart; SOURCES], n: usize) -> bool
    ensures { result ≡ any_outside n part }
{
    part.iter().any(|p| outside(*p, n))
}

// what the held numbers take
pub fn held_need(voices: usize, sources: usize) -> usize
    ensures { result ≡ held_need voices sources }
{
    config::lane_stride(voices) * at_most(sources, SOURCES)
}

// row 14 of the engine's memories
#[tactic(auto, unfolding(crate::specs::Codes::engine_short_by))]
fn engine_short(counts: Counts, lent: Lengths) -> bool
    ensures { result ≡ engine_short_by counts lent }
{
    lent.held < held_need(counts.voices, counts.sources)
        || lent.globals < at_most(counts.sources, SOURCES)
        || lent.bases < at_most(counts.dests, DESTINATIONS)
}

fn values_need(counts: Counts) -> usize
    ensures { result ≡ values_by counts }
{
    layout::values(counts.voices, counts.frames, counts.plans, counts.routes)
}

fn audio_need(counts: Counts) -> usize
    ensures { result ≡ audio_by counts }
{
    layout::audio(counts.voices, counts.frames, counts.plans)
}

fn tables_short(tabled: bool, n: usize) -> bool
    ensures { result ≡ ltb n (cond tabled tables_need 0) }
{
    tabled && n < TABLES
}

// row 14 of the program's memories
#[tactic(auto, unfolding(crate::specs::Codes::program_short_by))]
fn program_short(counts: Counts, lent: Lengths) -> bool
    ensures { result ≡ program_short_by counts lent }
{
    lent.values < values_need(counts)
        || lent.audio < audio_need(counts)
        || tables_short(counts.tabled, lent.tables)
}

// whether a block up to frame `end` is accepted, or why it is not
pub fn process_code(
    counts: Counts,
    lent: Lengths,
    signals: Signals,
    end: usize,
) -> Result<(), Refusal>
    ensures { code_of result ≡ code_by counts lent signals.part end }
{
    if at_most(counts.frames, FRAMES) < end {
        return Err(Refusal::RangeEnd);
    }
    let part = signals.part;
    if any_stride(part) {
        return Err(Refusal::Range);
    }
    if engine_short(counts, lent) {
        return Err(Refusal::Memory);
    }
    if program_short(counts, lent) {
        return Err(Refusal::Memory);
    }
    if any_outside(part, lent.samples) {
        return Err(Refusal::Memory);
    }
    Ok(())
}

// ---- load

// active voices of the first n over the voice limit, at most 1
pub fn load_value(voices: Voices, n: usize, limit: usize) -> f32
    ensures { result ≡ load_in voices n limit }
{
    let active = voices.active_count(at_most(n, VOICES));
    let many = number::nearest_u64_to_f32(active as u64);
    let most = number::nearest_u64_to_f32(limit as u64);
    number::min(many / most, 1.0)
}

fn is_load(kind: Kind) -> bool
    ensures { result ≡ is_load kind }
{
    match kind {
        Kind::Signal => false,
        Kind::Audio => false,
        Kind::Held => false,
        Kind::Velocity => false,
        Kind::Key => false,
        Kind::ReleaseVelocity => false,
        Kind::Random => false,
        Kind::Alternate { inverse: _ } => false,
        Kind::RandomPerRoute => false,
        Kind::VoiceLoad => true,
        Kind::Constant => false,
    }
}

// what a source's global number becomes
fn load_lane(mark: SourceMark, x: f32, old: f32) -> f32
    ensures { result ≡ load_lane mark.kind x old }
{
    let kind = mark.kind;
    if is_load(kind) {
        return x;
    }
    old
}

// every load source among the first n takes x
pub fn set_load(globals: &mut [f32], mark: [SourceMark; SOURCES], n: usize, x: f32)
    requires { (n ≤ 128) × (n ≤ length globals.old) }
    ensures { globals.new ≡ load_if mark x n globals.old }
{
    for i in 0..n {
        let m = mark[i];
        let old = globals[i];
        globals[i] = load_lane(m, x, old);
    }
}

// ---- glides

// Which note value: the sources that hold it.
#[derive(Clone, Copy)]
pub enum NoteValue {
    Velocity,
    Key,
}

fn is_velocity(kind: Kind) -> bool
    ensures { result ≡ is_velocity kind }
{
    match kind {
        Kind::Signal => false,
        Kind::Audio => false,
        Kind::Held => false,
        Kind::Velocity => true,
        Kind::Key => false,
        Kind::ReleaseVelocity => false,
        Kind::Random => false,
        Kind::Alternate { inverse: _ } => false,
        Kind::RandomPerRoute => false,
        Kind::VoiceLoad => false,
        Kind::Constant => false,
    }
}

fn is_key(kind: Kind) -> bool
    ensures { result ≡ is_key kind }
{
    match kind {
        Kind::Signal => false,
        Kind::Audio => false,
        Kind::Held => false,
        Kind::Velocity => false,
        Kind::Key => true,
        Kind::ReleaseVelocity => false,
        Kind::Random => false,
        Kind::Alternate { inverse: _ } => false,
        Kind::RandomPerRoute => false,
        Kind::VoiceLoad => false,
        Kind::Constant => false,
    }
}

fn passes(note: NoteValue, kind: Kind) -> bool
    ensures { result ≡ passes note kind }
{
    match note {
        NoteValue::Velocity => is_velocity(kind),
        NoteValue::Key => is_key(kind),
    }
}

// what a source's held number becomes
fn held_lane(note: NoteValue, mark: SourceMark, x: f32, old: f32) -> f32
    ensures { result ≡ cond (passes note mark.kind) x old }
{
    let kind = mark.kind;
    if passes(note, kind) {
        return x;
    }
    old
}

// the place of a source's held number
fn held_place(i: usize, stride: usize, lane: usize) -> usize
    requires { (i ≤ 128) × (stride ≤ 64) × (lane ≤ 64) }
    ensures { result ≡ i * stride + lane }
{
    i * stride + lane
}

// every source of the note value takes x in the lane
fn put_held(
    held: &mut [f32],
    mark: [SourceMark; SOURCES],
    note: NoteValue,
    stride: usize,
    sources: usize,
    lane: usize,
    x: f32,
)
    requires { (sources ≤ 128) × (stride ≤ 64) × (lane < stride) × (stride * sources ≤ length held.old) }
    ensures { held.new ≡ held_if mark (passes note) stride lane x sources held.old }
{
    for i in 0..sources {
        let k = held_place(i, stride, lane);
        let m = mark[i];
        let old = held[k];
        held[k] = held_lane(note, m, x, old);
    }
}

// the same where the glide moved
fn put_moved(
    held: &mut [f32],
    mark: [SourceMark; SOURCES],
    note: NoteValue,
    stride: usize,
    sources: usize,
    lane: usize,
    glide: Glide,
    x: f32,
)
    requires { (sources ≤ 128) × (stride ≤ 64) × (lane < stride) × (stride * sources ≤ length held.old) }
    ensures { held.new ≡ cond (moving glide) (held_if mark (passes note) stride lane x sources held.old) held.old }
{
    if !voice::is_moving(glide) {
        return;
    }
    put_held(held, mark, note, stride, sources, lane, x);
}

// the values that moved, of the first n voices, to the sources that hold them
pub fn moved_held(
    held: &mut [f32],
    mark: [SourceMark; SOURCES],
    note: NoteValue,
    stride: usize,
    sources: usize,
    n: usize,
    old: Notes,
    new: Notes,
)
    requires { (sources ≤ 128) × (stride ≤ 64) × (n ≤ stride) × (stride * sources ≤ length held.old) }
    ensures { held.new ≡ moved_if mark (passes note) stride sources old.glide new.value n held.old }
{
    if !old.is_gliding() {
        return;
    }
    let glide = old.glide;
    let value = new.value;
    for v in 0..n {
        let g = glide[v];
        let x = value[v];
        put_moved(held, mark, note, stride, sources, v, g, x);
    }
}

// ---- draws

fn draw_after(on: bool, draw: u64) -> u64
    ensures { result ≡ draw_after on draw }
{
    if on {
        return draw::step(draw);
    }
    draw
}

fn drawn_lane(on: bool, draw: u64, old: f32) -> f32
    ensures { result ≡ cond on (draw_of draw) old }
{
    if on {
        return draw::draw(draw);
    }
    old
}

// one draw for each renoted voice of the first n, from a place on
fn draw_voices(values: &mut [f32], renoted: [bool; VOICES], at: usize, n: usize, draw: u64) -> u64
    requires { (n ≤ 64) × (at + n ≤ length values.old) }
    ensures { record { draw = result; values = values.new } ≡ drawn_voices renoted at n (record { draw = draw; values = values.old }) }
{
    let mut last = draw;
    for v in 0..n {
        let on = renoted[v];
        let k = at + v;
        let old = values[k];
        let next = draw_after(on, last);
        values[k] = drawn_lane(on, next, old);
        last = next;
    }
    last
}

// those of an input
fn draw_read(
    values: &mut [f32],
    read: Read,
    renoted: [bool; VOICES],
    at: usize,
    n: usize,
    draw: u64,
) -> u64
    requires { (n ≤ 64) × (at + n ≤ length values.old) }
    ensures { record { draw = result; values = values.new } ≡ drawn_read renoted n at read (record { draw = draw; values = values.old }) }
{
    match read {
        Read::Signal {
            source: _,
            voice: _,
        } => draw,
        Read::Held {
            source: _,
            voice: _,
        } => draw,
        Read::Fed { plan: _, voice: _ } => draw,
        Read::Constant => draw,
        Read::RouteRandom => draw_voices(values, renoted, at, n, draw),
    }
}

fn draw_aux(
    values: &mut [f32],
    aux: Option<Input>,
    renoted: [bool; VOICES],
    at: usize,
    n: usize,
    draw: u64,
) -> u64
    requires { (n ≤ 64) × (at + n ≤ length values.old) }
    ensures { record { draw = result; values = values.new } ≡ drawn_aux renoted n at aux (record { draw = draw; values = values.old }) }
{
    match aux {
        None => draw,
        Some(input) => {
            let read = input.read;
            draw_read(values, read, renoted, at, n, draw)
        }
    }
}

// the numbers of a plan
fn plan_size(stride: usize, chunks: usize) -> usize
    requires { (stride ≤ 64) × (chunks ≤ 130) }
    ensures { (result ≡ plan_size stride chunks) × (result ≤ 17024) }
{
    stride * (2 * chunks + 6)
}

// where the random numbers of a route's source start
fn random_start(stride: usize, chunks: usize, plans: usize, r: usize) -> usize
    requires { (stride ≤ 64) × (chunks ≤ 130) × (plans ≤ 64) × (r ≤ 64) }
    ensures { result ≡ route_random stride chunks plans r 0 }
{
    plans * plan_size(stride, chunks) + (r * (8 * stride) + 2 * stride)
}

// those of route r: source before aux
fn draw_route(
    values: &mut [f32],
    route: Route,
    renoted: [bool; VOICES],
    at: usize,
    stride: usize,
    n: usize,
    draw: u64,
) -> u64
    requires { (n ≤ stride) × (stride ≤ 64) × (at + stride + stride ≤ length values.old) }
    ensures { record { draw = result; values = values.new } ≡ drawn_aux renoted n (at + stride) route.aux (drawn_read renoted n at route.source.read (record { draw = draw; values = values.old })) }
{
    let source = route.source;
    let read = source.read;
    let next = draw_read(values, read, renoted, at, n, draw);
    let aux = route.aux;
    draw_aux(values, aux, renoted, at + stride, n, next)
}

// those of the first routes, in order
pub fn draw_routes(
    values: &mut [f32],
    route: [Route; SLOTS],
    routes: usize,
    renoted: [bool; VOICES],
    n: usize,
    stride: usize,
    chunks: usize,
    plans: usize,
    draw: u64,
) -> u64
    requires { (1 ≤ stride) × (n ≤ stride) × (stride ≤ 64) × (chunks ≤ 130) × (plans ≤ 64) × (routes ≤ 64) × (stride * values_rows chunks plans routes ≤ length values.old) }
    ensures { record { draw = result; values = values.new } ≡ drawn_routes renoted n stride chunks plans route routes (record { draw = draw; values = values.old }) }
{
    let mut last = draw;
    for r in 0..routes {
        let x = route[r];
        let at = random_start(stride, chunks, plans, r);
        let next = draw_route(values, x, renoted, at, stride, n, last);
        last = next;
    }
    last
}

// ---- the rows of a chunk

fn plan_width(stride: usize, voice: bool) -> usize
    requires { 1 ≤ stride }
    ensures { (result ≡ plan_width stride voice) × (result ≤ stride) }
{
    if voice {
        return stride;
    }
    1
}

fn chunk_from(start: usize, stride: usize, w: usize, i: usize) -> usize
    requires { (start ≤ 1089536) × (stride ≤ 64) × (w ≤ stride) × (i ≤ 130) }
    ensures { result ≡ start + (2 * stride + i * w) }
{
    start + (2 * stride + i * w)
}

fn chunk_to(start: usize, stride: usize, chunks: usize, w: usize, i: usize) -> usize
    requires { (start ≤ 1089536) × (stride ≤ 64) × (chunks ≤ 130) × (w ≤ stride) × (i ≤ 130) }
    ensures { result ≡ start + ((2 + chunks) * stride + i * w) }
{
    start + ((2 + chunks) * stride + i * w)
}

fn plan_start(stride: usize, chunks: usize, d: usize) -> usize
    requires { (stride ≤ 64) × (chunks ≤ 130) × (d ≤ 64) }
    ensures { (result ≡ plan_from stride chunks d) × (result ≤ 1089536) }
{
    d * plan_size(stride, chunks)
}

// the rows of one plan
fn row_of_chunk(values: &mut [f32], w: usize, d: usize, i: usize, stride: usize, chunks: usize)
    requires { (stride ≤ 64) × (chunks ≤ 130) × (w ≤ stride) × (i < chunks) × (d < 64) × (d * plan_size stride chunks + plan_size stride chunks ≤ length values.old) }
    ensures { values.new ≡ chunk_row stride chunks w i d values.old }
{
    let start = plan_start(stride, chunks, d);
    let from = chunk_from(start, stride, w, i);
    list::copy_within(values, start, from, w);
    let to = chunk_to(start, stride, chunks, w, i);
    list::copy_within(values, start + stride, to, w);
}

// the rows of the first control plans
pub fn rows_of_chunk(
    values: &mut [f32],
    plan: [Plan; SLOTS],
    control: usize,
    i: usize,
    stride: usize,
    chunks: usize,
)
    requires { (1 ≤ stride) × (stride ≤ 64) × (chunks ≤ 130) × (i < chunks) × (control ≤ 64) × (control * plan_size stride chunks ≤ length values.old) }
    ensures { values.new ≡ chunk_rows plan stride chunks i control values.old }
{
    for d in 0..control {
        let p = plan[d];
        let w = plan_width(stride, p.voice);
        row_of_chunk(values, w, d, i, stride, chunks);
    }
}
