// What is read of an engine: places, parts and numbers of its outputs. The definitions are in model's specs/Outputs.
#![tactic(auto)]

ghost use Rattle.std.specs.Prelude.{◌≡◌, false, cond, ◌&&◌, ◌||◌, [], ◌∷◌, ◌+◌, ◌-◌, ◌*◌, ◌≤◌, ◌<◌, min, leb, ltb};
ghost use Rattle.std.specs.Prelude.{length, get_or, take};
ghost use Rattle.std.specs.Float.{nan};
ghost use Rattle.config.specs.Sizes.{slots, period, most_voices, most_frames, most_destinations, most_stride};
ghost use Rattle.config.specs.Sizes.{most_chunks};
ghost use Rattle.feed.specs.Numbers.{up_from};
ghost use Rattle.refusal.specs.Judge.{judged, ◌when◌};
ghost use Rattle.refusal.specs.Refusal.{code_of};
ghost use Rattle.list.specs.Fill.{fill};
ghost use Rattle.list.specs.Part.{part, on_part};
ghost use Rattle.state_filled.specs.Filled.{no_plan};
ghost use Rattle.model.specs.Layout.{plan_width, plan_size, audio_size};
ghost use Rattle.model.specs.Process.{values_of, audio_need_of};
ghost use Rattle.model.specs.Outputs.{plan_of, output_of, audio_part, frame_part, from_part, to_part, chunk_count};
ghost use Rattle.model.specs.Outputs.{chunk_at};
ghost use Rattle.model.specs.Outputs.{audio_at, control_value, latest_of, ramp_at, ramp_length, ramp_of, latest_row};
ghost use Rattle.model.specs.Outputs.{latest_rows, latest_all};
ghost use Rattle.engine_reads.specs.Spot.{spot_of, shape_by, most_start, Bounded};
ghost use Rattle.engine_reads.specs.Ramp.{ramp_number};
ghost use Rattle.engine_reads.specs.Latest.{last_of, lane_number, latest_by};
ghost use Rattle.engine_reads.specs.Said.{output_said, part_said, reading_said, ramped_said};

use config::{DESTINATIONS, FRAMES, PERIOD, SLOTS, VOICES};
use refusal::Refusal;
use state::{Block, Chunk, Plan, State};

// ---- counts and needs

// how many voices there are
pub fn voice_count(voices: usize) -> usize
    ensures { result ≡ min voices most_voices }
{
    if voices < VOICES {
        return voices;
    }
    VOICES
}

// how many frames a block has at most
pub fn frame_count(frames: usize) -> usize
    ensures { result ≡ min frames most_frames }
{
    if frames < FRAMES {
        return frames;
    }
    FRAMES
}

// whether the values are shorter than the installed program's need
fn values_short(state: State, len: usize) -> bool
    ensures { result ≡ ltb len (values_of state) }
{
    let config = state.config;
    let program = state.program;
    len < layout::values(
        config.voices,
        config.max_frames,
        program.plans,
        program.routes,
    )
}

// whether the audio rows are
fn audio_short(state: State, len: usize) -> bool
    ensures { result ≡ ltb len (audio_need_of state) }
{
    let config = state.config;
    let program = state.program;
    len < layout::audio(config.voices, config.max_frames, program.plans)
}

// rows 2 and 14
fn judge(voices: usize, voice: usize, short: bool) -> Result<(), Refusal>
    ensures { code_of result ≡ judged (2 when leb (min voices most_voices) voice ∷ 14 when short ∷ []) }
{
    if voice_count(voices) <= voice {
        return Err(Refusal::Voice);
    }
    if short {
        return Err(Refusal::Memory);
    }
    Ok(())
}

// ---- the plan of a destination

// the place of the first plan of dest, or their number
fn plan_place(plan: [Plan; SLOTS], plans: usize, dest: usize) -> usize
    requires { plans ≤ slots }
    ensures { (result ≡ plan_of dest (take plans plan)) × (result ≤ plans) }
{
    plan[..plans]
        .iter()
        .position(|p| p.dest as usize == dest)
        .unwrap_or(plans)
}

// whether plan i runs at audio rate
fn is_audio(plan: [Plan; SLOTS], i: usize) -> bool
    ensures { result ≡ (get_or plan i no_plan).audio }
{
    if i < SLOTS {
        let p = plan[i];
        return p.audio;
    }
    false
}

// whether plan i is per voice
fn is_voice(plan: [Plan; SLOTS], i: usize) -> bool
    ensures { result ≡ (get_or plan i no_plan).voice }
{
    if i < SLOTS {
        let p = plan[i];
        return p.voice;
    }
    false
}

// the numbers of a row
fn width(stride: usize, voice: bool) -> usize
    ensures { result ≡ plan_width stride voice }
{
    if voice {
        return stride;
    }
    1
}

// the numbers of a plan in the values
fn plan_size(stride: usize, chunks: usize) -> usize
    requires { (stride ≤ most_stride) × (chunks ≤ most_chunks most_frames) }
    ensures { (result ≡ plan_size stride chunks) × (result ≤ plan_size most_stride (most_chunks most_frames)) }
{
    stride * (2 * chunks + 6)
}

// where the "from" of its chunks start
fn from_start(i: usize, stride: usize, chunks: usize) -> usize
    requires { (i ≤ slots) × (stride ≤ most_stride) × (chunks ≤ most_chunks most_frames) }
    ensures { result ≡ i * plan_size stride chunks + 2 * stride }
{
    i * plan_size(stride, chunks) + 2 * stride
}

// where the "to" of its chunks start
fn to_start(i: usize, stride: usize, chunks: usize) -> usize
    requires { (i ≤ slots) × (stride ≤ most_stride) × (chunks ≤ most_chunks most_frames) }
    ensures { result ≡ i * plan_size stride chunks + (2 + chunks) * stride }
{
    i * plan_size(stride, chunks) + (2 + chunks) * stride
}

// where its audio rows start
fn rows_start(i: usize, stride: usize, frames: usize) -> usize
    requires { (i ≤ slots) × (stride ≤ most_stride) × (frames ≤ most_frames) }
    ensures { result ≡ i * audio_size stride frames }
{
    i * (stride * frames)
}

fn and(a: bool, b: bool) -> bool
    ensures { result ≡ (a && b) }
{
    if a {
        return b;
    }
    false
}

// Where the numbers of a destination stand: whether its plan is at audio or at control rate, per voice, how wide a row
// is, and where the chunks' "from" and "to" start in the values and the audio rows in the audio memory.
#[derive(Clone, Copy)]
pub struct Spot {
    pub audio: bool,
    pub control: bool,
    pub voice: bool,
    pub width: usize,
    pub from: usize,
    pub to: usize,
    pub rows: usize,
}

// of dest
pub fn spot_of(state: State, dest: usize) -> Spot
    ensures { result ≡ spot_of state dest }
{
    let config = state.config;
    let stride = config::lane_stride(config.voices);
    let chunks = config::most_chunks(config.max_frames);
    let program = state.program;
    let plans = state_filled::held(program.plans);
    let plan = program.plan;
    let i = plan_place(plan, plans, dest);
    let voice = is_voice(plan, i);
    let audio = is_audio(plan, i);
    Spot {
        audio: and(i < plans, audio),
        control: and(i < plans, !audio),
        voice,
        width: width(stride, voice),
        from: from_start(i, stride, chunks),
        to: to_start(i, stride, chunks),
        rows: rows_start(i, stride, frame_count(config.max_frames)),
    }
}

// ---- numbers and parts of a memory

// the lane that is read for a voice
fn lane(per_voice: bool, voice: usize) -> usize
    ensures { result ≡ cond per_voice voice 0 }
{
    if per_voice {
        return voice;
    }
    0
}

// the number of row k, rows of that width from a on, in that lane; NaN past the memory
fn number_at(mem: &[f32], a: usize, width: usize, k: usize, lane: usize) -> f32
    requires { (a ≤ most_start) × (1 ≤ width) × (lane ≤ most_voices) }
    ensures { result ≡ get_or mem.now (a + k * width + lane) nan }
{
    let none = state_registry::not_a_number();
    if mem.len() / width < k {
        return none;
    }
    let i = a + k * width + lane;
    list::read(mem, i, none)
}

// the n numbers from a on, as far as the memory goes
fn part(mem: &[f32], a: usize, n: usize) -> &[f32]
    ensures { result.now ≡ part mem.now a (a + n) }
{
    let len = mem.len();
    if len <= a {
        return &mem[0..0];
    }
    if len - a <= n {
        return &mem[a..len];
    }
    let e = a + n;
    &mem[a..e]
}

// k rows of that width from a on, as far as the memory goes
fn rows(mem: &[f32], a: usize, width: usize, k: usize) -> &[f32]
    requires { 1 ≤ width }
    ensures { result.now ≡ part mem.now a (a + k * width) }
{
    if mem.len() / width < k {
        return part(mem, a, mem.len());
    }
    part(mem, a, k * width)
}

// ---- what is read of an engine

// how many chunks the last block made
pub fn chunk_count(state: State) -> usize
    ensures { result ≡ chunk_count state }
{
    let block = state.block;
    block_chunks::total(block)
}

// chunk i of the last block, where it made so many
pub fn chunk_at(state: State, i: usize) -> Option<Chunk>
    ensures { result ≡ chunk_at state i }
{
    let block = state.block;
    if block_chunks::total(block) <= i {
        return None;
    }
    Some(block_chunks::of(block, i))
}

// The shape of a destination's output: no rows, rows of that width at audio rate, or at control rate with so many
// chunks.
#[derive(Clone, Copy)]
pub enum Output {
    Unmodulated,
    Audio { width: usize },
    Control { width: usize, chunks: usize },
}

// the shape of an output
fn shape(spot: Spot, chunks: usize) -> Output
    ensures { result ≡ shape_by spot chunks }
{
    if spot.audio {
        return Output::Audio { width: spot.width };
    }
    if spot.control {
        return Output::Control {
            width: spot.width,
            chunks,
        };
    }
    Output::Unmodulated
}

// whether either memory is shorter than the installed program's need
fn short(state: State, values: usize, audio: usize) -> bool
    ensures { result ≡ (ltb values (values_of state) || ltb audio (audio_need_of state)) }
{
    if values_short(state, values) {
        return true;
    }
    audio_short(state, audio)
}

// the shape of the output of dest
pub fn output_shape(
    state: State,
    values: &[f32],
    audio: &[f32],
    dest: usize,
) -> Result<Output, Refusal>
    ensures { output_said result ≡ output_of state values.now audio.now dest }
{
    if short(state, values.len(), audio.len()) {
        return Err(Refusal::Memory);
    }
    let spot = spot_of(state, dest);
    Ok(shape(spot, chunk_count(state)))
}

// the last frame of a block, 0 of an empty one
fn last_frame(block: Block) -> usize
    ensures { result ≡ block.end - 1 }
{
    let end = block.end;
    if end == 0 {
        return 0;
    }
    end - 1
}

// the number of row k of a destination, its rows from a on, in a voice's lane
fn number_of(mem: &[f32], a: usize, spot: Spot, k: usize, voice: usize) -> f32
    requires { (a ≤ most_start) × (1 ≤ spot.width) × (voice ≤ most_voices) }
    ensures { result ≡ get_or mem.now (a + k * spot.width + cond spot.voice voice 0) nan }
{
    let lane = lane(spot.voice, voice);
    number_at(mem, a, spot.width, k, lane)
}

// the number at a frame of the audio plan of dest
pub fn at(
    state: State,
    audio: &[f32],
    dest: usize,
    frame: usize,
    voice: usize,
) -> Result<Option<f32>, Refusal>
    ensures { reading_said result ≡ audio_at state audio.now dest frame voice }
{
    let config = state.config;
    judge(config.voices, voice, audio_short(state, audio.len()))?;
    let spot = spot_of(state, dest);
    if !spot.audio {
        return Ok(None);
    }
    if frame_count(config.max_frames) <= frame {
        return Ok(None);
    }
    Ok(Some(number_of(audio, spot.rows, spot, frame, voice)))
}

// the "to" of a chunk of the control plan of dest
pub fn value(
    state: State,
    values: &[f32],
    dest: usize,
    chunk: usize,
    voice: usize,
) -> Result<Option<f32>, Refusal>
    ensures { reading_said result ≡ control_value state values.now dest chunk voice }
{
    let config = state.config;
    judge(config.voices, voice, values_short(state, values.len()))?;
    let spot = spot_of(state, dest);
    if !spot.control {
        return Ok(None);
    }
    if chunk_count(state) <= chunk {
        return Ok(None);
    }
    Ok(Some(number_of(values, spot.to, spot, chunk, voice)))
}

// the "to" of the last chunk, or the audio number at its last frame
pub fn latest(
    state: State,
    values: &[f32],
    audio: &[f32],
    dest: usize,
    voice: usize,
) -> Result<Option<f32>, Refusal>
    ensures { reading_said result ≡ latest_of state values.now audio.now dest voice }
{
    let config = state.config;
    judge(
        config.voices,
        voice,
        short(state, values.len(), audio.len()),
    )?;
    let chunks = chunk_count(state);
    if chunks == 0 {
        return Ok(None);
    }
    let spot = spot_of(state, dest);
    if spot.audio {
        let last = last_frame(state.block);
        return Ok(Some(number_of(audio, spot.rows, spot, last, voice)));
    }
    if spot.control {
        return Ok(Some(number_of(values, spot.to, spot, chunks - 1, voice)));
    }
    Ok(None)
}

// ---- parts

// the row of a short memory
const SHORT: Refusal = Refusal::Memory;

// what is read of one
const SHORT_PART: Result<&[f32], Refusal> = Err(SHORT);

// nothing of a memory
fn none(mem: &[f32]) -> &[f32]
    ensures { result.now ≡ [] }
{
    &mem[0..0]
}

// the audio rows of dest
pub fn audio_part<'a>(state: State, audio: &'a [f32], dest: usize) -> Result<&'a [f32], Refusal>
    ensures { part_said result ≡ audio_part state audio.now dest }
{
    if audio_short(state, audio.len()) {
        return SHORT_PART;
    }
    let spot = spot_of(state, dest);
    if !spot.audio {
        return Ok(none(audio));
    }
    let config = state.config;
    Ok(rows(audio, spot.rows, spot.width, frame_count(config.max_frames)))
}

// where row k starts, rows of that width from a on
fn row_start(a: usize, width: usize, k: usize) -> usize
    requires { (a ≤ most_start) × (width ≤ most_stride) × (k ≤ most_frames) }
    ensures { result ≡ a + k * width }
{
    a + k * width
}

// the audio row of dest at a frame
pub fn audio_frame<'a>(
    state: State,
    audio: &'a [f32],
    dest: usize,
    frame: usize,
) -> Result<&'a [f32], Refusal>
    ensures { part_said result ≡ frame_part state audio.now dest frame }
{
    if audio_short(state, audio.len()) {
        return SHORT_PART;
    }
    let spot = spot_of(state, dest);
    if !spot.audio {
        return Ok(none(audio));
    }
    let config = state.config;
    if frame_count(config.max_frames) <= frame {
        return Ok(none(audio));
    }
    let width = spot.width;
    Ok(part(audio, row_start(spot.rows, width, frame), width))
}

// the "from" rows of the chunks of dest
pub fn from_part<'a>(state: State, values: &'a [f32], dest: usize) -> Result<&'a [f32], Refusal>
    ensures { part_said result ≡ from_part state values.now dest }
{
    if values_short(state, values.len()) {
        return SHORT_PART;
    }
    let spot = spot_of(state, dest);
    if !spot.control {
        return Ok(none(values));
    }
    Ok(rows(values, spot.from, spot.width, chunk_count(state)))
}

// their "to" rows
pub fn to_part<'a>(state: State, values: &'a [f32], dest: usize) -> Result<&'a [f32], Refusal>
    ensures { part_said result ≡ to_part state values.now dest }
{
    if values_short(state, values.len()) {
        return SHORT_PART;
    }
    let spot = spot_of(state, dest);
    if !spot.control {
        return Ok(none(values));
    }
    Ok(rows(values, spot.to, spot.width, chunk_count(state)))
}

// ---- ramps

// the number of a ramp at place j
fn ramp_at(from: f32, to: f32, j: usize) -> f32
    ensures { result ≡ ramp_at from to j }
{
    from + (to - from) / 32.0 * number::nearest_u64_to_f32(j as u64)
}

// t samples after a period's edge, at or before the block's first frame
fn ramp_number(values: &[f32], spot: Spot, voice: usize, t: usize) -> f32
    requires { Bounded spot × (voice ≤ most_voices) }
    ensures { result ≡ ramp_number values.now spot voice t }
{
    let i = t / PERIOD;
    let from = number_of(values, spot.from, spot, i, voice);
    let to = number_of(values, spot.to, spot, i, voice);
    ramp_at(from, to, t % PERIOD)
}

// the first numbers become those of a ramp, from a phase on
fn write_ramp(
    values: &[f32],
    spot: Spot,
    voice: usize,
    phase: usize,
    frames: usize,
    out: &mut [f32],
)
    requires { Bounded spot × (voice ≤ most_voices) × (phase < period) × (frames ≤ length out.old) }
    ensures { out.new ≡ fill out.old
        (λ k. ramp_number values.now spot voice (phase + k)) frames }
{
    for k in 0..frames {
        out[k] = ramp_number(values, spot, voice, phase + k);
    }
}

// how many frames a block has
fn frames_of(block: Block) -> usize
    ensures { result ≡ block.end - block.start }
{
    let start = block.start;
    let end = block.end;
    if end <= start {
        return 0;
    }
    end - start
}

// whether what a ramp reads or writes is too short
fn ramp_short(state: State, values: usize, out: usize) -> bool
    ensures { result ≡ (ltb values (values_of state) || ltb out (ramp_length state)) }
{
    if values_short(state, values) {
        return true;
    }
    let block = state.block;
    out < frames_of(block)
}

// the ramp of the control plan of dest over the last block, a number a frame
pub fn ramp(
    state: State,
    values: &[f32],
    dest: usize,
    voice: usize,
    out: &mut [f32],
) -> Result<Option<usize>, Refusal>
    ensures { (ramped_said result ≡ (ramp_of state values.now dest voice out.old).answer)
        × (out.new ≡ (ramp_of state values.now dest voice out.old).out) }
{
    let config = state.config;
    judge(
        config.voices,
        voice,
        ramp_short(state, values.len(), out.len()),
    )?;
    let spot = spot_of(state, dest);
    if !spot.control {
        return Ok(None);
    }
    let block = state.block;
    let frames = frames_of(block);
    write_ramp(values, spot, voice, block.phase % PERIOD, frames, out);
    Ok(Some(frames))
}

// ---- every destination's latest number

// The last chunk of a block: its number and its last frame.
#[derive(Clone, Copy)]
pub struct Last {
    pub chunk: usize,
    pub frame: usize,
}

// of a block, where it made a chunk
fn last_of(block: Block) -> Option<Last>
    ensures { result ≡ last_of block }
{
    let chunks = block_chunks::total(block);
    let frame = last_frame(block);
    if chunks == 0 {
        return None;
    }
    Some(Last {
        chunk: chunks - 1,
        frame,
    })
}

// whether v is an active voice
fn is_on(active: [bool; VOICES], voices: usize, v: usize) -> bool
    requires { voices ≤ most_voices }
    ensures { result ≡ (ltb v voices && get_or active v false) }
{
    if v < voices {
        return active[v];
    }
    false
}

// the number of row k where v is an active voice, else NaN
fn lane_number(
    mem: &[f32],
    a: usize,
    spot: Spot,
    k: usize,
    active: [bool; VOICES],
    voices: usize,
    v: usize,
) -> f32
    requires { (a ≤ most_start) × (1 ≤ spot.width) × (voices ≤ most_voices) }
    ensures { result ≡ lane_number mem.now a spot k active voices v }
{
    if is_on(active, voices, v) {
        return number_of(mem, a, spot, k, v);
    }
    state_registry::not_a_number()
}

// the numbers of row k, voice by voice
fn write_lanes(
    mem: &[f32],
    a: usize,
    spot: Spot,
    k: usize,
    active: [bool; VOICES],
    voices: usize,
    out: &mut [f32],
)
    requires { (a ≤ most_start) × (1 ≤ spot.width) × (voices ≤ most_voices) }
    ensures { out.new ≡ fill out.old
        (lane_number mem.now a spot k active voices) (length out.old) }
{
    for v in 0..out.len() {
        out[v] = lane_number(mem, a, spot, k, active, voices, v);
    }
}

// every number becomes NaN
fn write_none(out: &mut [f32])
    ensures { out.new ≡ fill out.old (λ k. nan) (length out.old) }
{
    let none = state_registry::not_a_number();
    list::fill(out, none);
}

// a destination's latest numbers, voice by voice
fn write_latest(
    values: &[f32],
    audio: &[f32],
    spot: Spot,
    last: Option<Last>,
    active: [bool; VOICES],
    voices: usize,
    out: &mut [f32],
)
    requires { Bounded spot × (voices ≤ most_voices) }
    ensures { out.new ≡ fill out.old
        (latest_by values.now audio.now spot last active voices)
        (length out.old) }
{
    let Some(last) = last else {
        write_none(out);
        return;
    };
    if spot.audio {
        write_lanes(audio, spot.rows, spot, last.frame, active, voices, out);
        return;
    }
    if spot.control {
        write_lanes(values, spot.to, spot, last.chunk, active, voices, out);
        return;
    }
    write_none(out);
}

// those of dest, into the numbers from a up to e
fn write_row(
    state: State,
    values: &[f32],
    audio: &[f32],
    dest: usize,
    out: &mut [f32],
    a: usize,
    e: usize,
)
    requires { (a ≤ e) × (e ≤ length out.old) }
    ensures { out.new ≡ on_part out.old a e
        (latest_row state values.now audio.now (e - a) dest) }
{
    let spot = spot_of(state, dest);
    let block = state.block;
    let last = last_of(block);
    let config = state.config;
    let count = voice_count(config.voices);
    let voices = state.voices;
    let active = voices.active;
    write_latest(values, audio, spot, last, active, count, &mut out[a..e]);
}

// those of the first destinations, n numbers each
fn write_rows(state: State, values: &[f32], audio: &[f32], n: usize, dests: usize, out: &mut [f32])
    requires { n * dests ≤ length out.old }
    ensures { out.new ≡ on_part out.old 0 (n * dests)
        (latest_rows state values.now audio.now n (up_from 0 dests)) }
{
    for d in 0..dests {
        let a = d * n;
        let e = a + n;
        write_row(state, values, audio, d, out, a, e);
    }
}

// how many destinations a program has
fn dest_count(dests: usize) -> usize
    ensures { result ≡ min dests most_destinations }
{
    if dests < DESTINATIONS {
        return dests;
    }
    DESTINATIONS
}

// whether there is no room for n numbers of each destination
fn out_short(len: usize, n: usize, dests: usize) -> bool
    ensures { result ≡ ltb len (n * dests) }
{
    if dests == 0 {
        return false;
    }
    len / dests < n
}

// every destination's latest number for each of so many voices
pub fn latest_all(
    state: State,
    values: &[f32],
    audio: &[f32],
    voices: usize,
    out: &mut [f32],
) -> Result<(), Refusal>
    ensures { (code_of result ≡ (latest_all state values.now audio.now voices
        out.old).code) × (out.new ≡ (latest_all state values.now
        audio.now voices out.old).out) }
{
    if short(state, values.len(), audio.len()) {
        return Err(SHORT);
    }
    let program = state.program;
    let dests = dest_count(program.dests);
    if out_short(out.len(), voices, dests) {
        return Err(SHORT);
    }
    write_rows(state, values, audio, voices, dests, out);
    Ok(())
}
