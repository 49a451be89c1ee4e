// A block of a state and the lent memories: load, draws, a step a chunk (tick, chunk rows, audio rows, glides), phase and marks (engine.rs 547-611, 756-769,
// 804-1011; document 01, Chunk and value). The definitions are in model's specs/Process. A contract equates the world after the call with the definition of the
// world before it, whatever the memories are that the function is not lent.
#![tactic(auto)]

ghost use Rattle.std.specs.Prelude.{◌≡◌, true, false, cond, ◌&&◌, List, ℕ, ◌+◌, ◌*◌, ◌≤◌, ◌<◌, min, eqb, length, Float};
ghost use Rattle.config.specs.Sizes.{period};
ghost use Rattle.refusal.specs.Refusal.{code_of};
ghost use Rattle.number.specs.Number.{zero32, nearest32};
ghost use Rattle.model.specs.Counts.{voice_count, frame_count, stride_of, chunks_most, engine_sources, plan_total, route_total};
ghost use Rattle.model.specs.Tick.{off_phase, tick_of};
ghost use Rattle.model.specs.Chunks.{chunk_total};
ghost use Rattle.model.specs.States.{with_velocity, with_key};
ghost use Rattle.model.specs.World.{world_of, is_velocity, is_key};
ghost use Rattle.model.specs.Process.{values_of, glided, ticked, rowed, sounded, chunk_step, chunk_steps, block_of, no_block};
ghost use Rattle.lane_input.specs.Scene.{env_of};
ghost use Rattle.voice.specs.Notes.{advanced};
ghost use Rattle.state.specs.declared.Signals.{Signals};
ghost use Rattle.audio_rows.specs.Passes.{ReadyBy, PreparedBy, Only};
ghost use Rattle.block_opening.specs.Marks.{moved_if};
ghost use Rattle.block_opening.specs.Codes.{counts_of, code_by};
ghost use Rattle.block_opening.specs.Draws.{drawn_routes};
ghost use Rattle.block.specs.Room.{Room, Keeps, audio_size};
ghost use Rattle.block.specs.Worlds.{loaded_world, drawn_world, closed_world, routeless_world, routed_world, run_world};
ghost use Rattle.block.specs.Worlds.{answered_world};
ghost use Rattle.block.specs.Smalls.{small_of, with_small};
ghost use Rattle.block.specs.Scenes.{scene_of, work_of, drawn_of};
ghost use Rattle.block.specs.Moves.{moving_of, moved_by, glides_of, whole_of};

use audio_rows::{Sweeping, Work};
use block_opening::{Counts, Lengths, NoteValue};
use config::{FRAMES, PERIOD, SLOTS, SOURCES, VOICES};
use lane_input::Scene;
use refusal::Refusal;
use state::{Block, Chunk, Signals, SourceMark, State};
use voice::{Marks, Notes};

// ---- a chunk

// the samples by which slews move at a tick
fn tick_steps(phase: usize) -> f32
    ensures { result ≡ cond (off_phase phase) zero32 (nearest32 period) }
{
    if phase == 0 {
        return number::nearest_u64_to_f32(32u64);
    }
    0.0
}

// the scene at the start of a chunk
fn scene_of(state: State, chunk: Chunk, snap: bool) -> Scene
    requires { chunk.start ≤ 4096 }
    ensures { result ≡ scene_of state chunk snap }
{
    let config = state.config;
    let voices = state.voices;
    let marks = state.marks;
    let fresh = marks.fresh;
    let gains = state.gains;
    let stride = config::lane_stride(config.voices);
    let steps = tick_steps(chunk.phase);
    Scene {
        stride,
        voices,
        fresh,
        gains,
        primed: state.primed,
        frame: chunk.start,
        up_to: chunk.start + 1,
        steps,
        snap,
    }
}

// the values after a tick
fn tick_values(
    values: &mut [f32],
    state: State,
    chunk: Chunk,
    snap: bool,
    signals: Signals,
    held: &[f32],
    globals: &[f32],
    bases: &[f32],
    tables: &[f32],
    samples: &[f32],
)
    requires { chunk.start ≤ 4096 }
    ensures { values.new ≡ tick_of state (env_of (scene_of state chunk snap) held.now globals.now bases.now tables.now samples.now signals) chunk.phase values.old }
{
    let config = state.config;
    let program = state.program;
    let plan = program.plan;
    let routes = program.route;
    let plans = block_opening::at_most(program.plans, SLOTS);
    let control = block_opening::at_most(program.control, plans);
    let chunks = config::most_chunks(config.max_frames);
    let scene = scene_of(state, chunk, snap);
    control_tick::tick(
        values,
        plan,
        control,
        routes,
        scene,
        signals,
        chunks,
        plans,
        chunk.phase,
        held,
        globals,
        bases,
        tables,
        samples,
    );
}

// The tick of a chunk that ticks.
pub fn ticked(
    values: &mut [f32],
    state: State,
    chunk: Chunk,
    snap: bool,
    signals: Signals,
    held: &[f32],
    globals: &[f32],
    bases: &[f32],
    tables: &[f32],
    samples: &[f32],
) -> State
    requires { chunk.start ≤ 4096 }
    ensures { ((b : List Float) → world_of result held.now globals.now bases.now values.new b tables.now ≡ ticked samples.now signals chunk snap (world_of state held.now globals.now bases.now values.old b tables.now)) × Keeps state result }
{
    if !chunk.tick {
        return state;
    }
    tick_values(
        values, state, chunk, snap, signals, held, globals, bases, tables, samples,
    );
    let mut next = state;
    next.primed = true;
    next
}

// The rows of chunk i.
pub fn rowed(values: &mut [f32], state: State, i: usize)
    requires { (i < chunks_most state) × (values_of state ≤ length values.old) }
    ensures { (h g a b t : List Float) → world_of state h g a values.new b t ≡ rowed i (world_of state h g a values.old b t) }
{
    let config = state.config;
    let program = state.program;
    let plan = program.plan;
    let plans = block_opening::at_most(program.plans, SLOTS);
    let control = block_opening::at_most(program.control, plans);
    let stride = config::lane_stride(config.voices);
    let chunks = config::most_chunks(config.max_frames);
    block_opening::rows_of_chunk(values, plan, control, i, stride, chunks);
}

// what the audio of a chunk is worked out from
fn work_of(state: State, chunk: Chunk, snap: bool, signals: Signals) -> Work
    requires { chunk.start ≤ 4096 }
    ensures { result ≡ work_of state chunk snap signals }
{
    let config = state.config;
    let program = state.program;
    let plan = program.plan;
    let routes = program.route;
    let scene = scene_of(state, chunk, snap);
    let chunks = config::most_chunks(config.max_frames);
    let frames = block_opening::at_most(config.max_frames, FRAMES);
    let plans = block_opening::at_most(program.plans, SLOTS);
    let control = block_opening::at_most(program.control, plans);
    Work {
        plan,
        routes,
        scene,
        signals,
        chunks,
        frames,
        plans,
        control,
    }
}

// The audio rows of a chunk.
pub fn sounded(
    values: &mut [f32],
    audio: &mut [f32],
    state: State,
    chunk: Chunk,
    snap: bool,
    signals: Signals,
    held: &[f32],
    globals: &[f32],
    bases: &[f32],
    tables: &[f32],
    samples: &[f32],
)
    requires { (chunk.start + chunk.len ≤ frame_count state) × (audio_size state ≤ length audio.old) }
    ensures { world_of state held.now globals.now bases.now values.new audio.new tables.now ≡ sounded samples.now signals chunk snap (world_of state held.now globals.now bases.now values.old audio.old tables.now) }
{
    let work = work_of(state, chunk, snap, signals);
    audio_rows::audio_plans(
        values, audio, work, chunk, held, globals, bases, tables, samples,
    );
}

// Glides move by so many frames.
pub fn glided(held: &mut [f32], state: State, frames: usize) -> State
    requires { stride_of state * engine_sources state ≤ length held.old }
    ensures { ((g a v b t : List Float) → world_of result held.new g a v b t ≡ glided frames (world_of state held.old g a v b t)) × Keeps state result }
{
    let config = state.config;
    let mark = state.mark;
    let velocity = state.velocity;
    let key = state.key;
    let stride = config::lane_stride(config.voices);
    let sources = block_opening::at_most(state.sources, SOURCES);
    let n = block_opening::at_most(config.voices, VOICES);
    let velocity_next = velocity.advance(frames);
    let key_next = key.advance(frames);
    block_opening::moved_held(
        held,
        mark,
        NoteValue::Velocity,
        stride,
        sources,
        n,
        velocity,
        velocity_next,
    );
    block_opening::moved_held(
        held,
        mark,
        NoteValue::Key,
        stride,
        sources,
        n,
        key,
        key_next,
    );
    let mut next = state;
    next.velocity = velocity_next;
    next.key = key_next;
    next
}

// whether fresh lanes snap in chunk i
fn snaps(i: usize, fresh: bool) -> bool
    ensures { result ≡ (eqb i 0 && fresh) }
{
    if i == 0 {
        return fresh;
    }
    false
}

// THE STEP of chunk i.
pub fn chunk_step(
    state: State,
    i: usize,
    chunk: Chunk,
    held: &mut [f32],
    globals: &[f32],
    bases: &[f32],
    values: &mut [f32],
    audio: &mut [f32],
    tables: &[f32],
    samples: &[f32],
    signals: Signals,
) -> State
    requires { Room state (length held.old) (length values.old) (length audio.old) × (i < chunks_most state) × (chunk.start + chunk.len ≤ frame_count state) }
    ensures { (world_of result held.new globals.now bases.now values.new audio.new tables.now ≡ chunk_step samples.now signals i chunk (world_of state held.old globals.now bases.now values.old audio.old tables.now)) × Keeps state result }
{
    let marks = state.marks;
    let snap = snaps(i, marks.any_fresh);
    let next = ticked(
        values, state, chunk, snap, signals, held, globals, bases, tables, samples,
    );
    rowed(values, next, i);
    sounded(
        values, audio, next, chunk, snap, signals, held, globals, bases, tables, samples,
    );
    glided(held, next, chunk.len)
}

// the steps of a block's chunks, one after the other
fn each_step(
    state: State,
    block: Block,
    held: &mut [f32],
    globals: &[f32],
    bases: &[f32],
    values: &mut [f32],
    audio: &mut [f32],
    tables: &[f32],
    samples: &[f32],
    signals: Signals,
) -> State
    requires { Room state (length held.old) (length values.old) (length audio.old) × (block.end ≤ frame_count state) }
    ensures { world_of result held.new globals.now bases.now values.new audio.new tables.now ≡ chunk_steps samples.now signals block (chunk_total block) (world_of state held.old globals.now bases.now values.old audio.old tables.now) }
{
    let n = block_chunks::total(block);
    let mut next = state;
    for i in 0..n {
        let c = block_chunks::of(block, i);
        let after = chunk_step(
            next, i, c, held, globals, bases, values, audio, tables, samples, signals,
        );
        next = after;
    }
    next
}

// ---- the steps of a block whose plans all have audio and are swept

// What moves there from chunk to chunk: whether the program has ticked, and the notes.
#[derive(Clone, Copy)]
pub struct Moving {
    pub primed: bool,
    pub velocity: Notes,
    pub key: Notes,
}

// What glides go by: the marks of the sources, the lane stride, how many sources and voices.
#[derive(Clone, Copy)]
pub struct Glides {
    pub mark: [SourceMark; SOURCES],
    pub stride: usize,
    pub sources: usize,
    pub voices: usize,
}

// what moves, as it stands
fn moving_of(state: State) -> Moving
    ensures { result ≡ moving_of state }
{
    let velocity = state.velocity;
    let key = state.key;
    Moving {
        primed: state.primed,
        velocity,
        key,
    }
}

fn glides_of(state: State) -> Glides
    ensures { result ≡ glides_of state }
{
    let config = state.config;
    let mark = state.mark;
    let stride = config::lane_stride(config.voices);
    let sources = block_opening::at_most(state.sources, SOURCES);
    let voices = block_opening::at_most(config.voices, VOICES);
    Glides {
        mark,
        stride,
        sources,
        voices,
    }
}

// the state with what has moved
fn moved(state: State, moving: Moving) -> State
    ensures { result ≡ moved_by state moving }
{
    let velocity = moving.velocity;
    let key = moving.key;
    let mut next = state;
    next.primed = moving.primed;
    next.velocity = velocity;
    next.key = key;
    next
}

// whether the program has ticked
fn primes(primed: bool, tick: bool) -> bool
    ensures { result ≡ cond tick true primed }
{
    if tick {
        return true;
    }
    primed
}

// the glides of a chunk
fn glide(moving: Moving, glides: Glides, chunk: Chunk, held: &mut [f32]) -> Moving
    requires { (glides.sources ≤ 128) × (glides.stride ≤ 64) × (glides.voices ≤ glides.stride) × (glides.stride * glides.sources ≤ length held.old) }
    ensures { (result ≡ record { primed = cond chunk.tick true moving.primed; velocity = advanced moving.velocity chunk.len; key = advanced moving.key chunk.len }) × (held.new ≡ moved_if glides.mark is_key glides.stride glides.sources moving.key.glide result.key.value glides.voices (moved_if glides.mark is_velocity glides.stride glides.sources moving.velocity.glide result.velocity.value glides.voices held.old)) }
{
    let mark = glides.mark;
    let velocity = moving.velocity;
    let key = moving.key;
    let velocity_next = velocity.advance(chunk.len);
    let key_next = key.advance(chunk.len);
    block_opening::moved_held(
        held,
        mark,
        NoteValue::Velocity,
        glides.stride,
        glides.sources,
        glides.voices,
        velocity,
        velocity_next,
    );
    block_opening::moved_held(
        held,
        mark,
        NoteValue::Key,
        glides.stride,
        glides.sources,
        glides.voices,
        key,
        key_next,
    );
    Moving {
        primed: primes(moving.primed, chunk.tick),
        velocity: velocity_next,
        key: key_next,
    }
}

// the steps of the chunks
fn swept_steps(
    state: State,
    block: Block,
    sweeping: Sweeping,
    held: &mut [f32],
    globals: &[f32],
    bases: &[f32],
    audio: &mut [f32],
    samples: &[f32],
) -> State
    requires { (stride_of state * engine_sources state ≤ length held.old) × (block.start ≤ block.end) × ReadyBy (whole_of block) (length audio.old) sweeping samples.now × Only sweeping }
    ensures { (signals : Signals) (v t : List Float) → PreparedBy (work_of state (whole_of block) false signals) (whole_of block) sweeping samples.now → world_of result held.new globals.now bases.now v audio.new t ≡ chunk_steps samples.now signals block (chunk_total block) (world_of state held.old globals.now bases.now v audio.old t) }
{
    let n = block_chunks::total(block);
    let glides = glides_of(state);
    let mut moving = moving_of(state);
    for i in 0..n {
        let c = block_chunks::of(block, i);
        audio_rows::sweep_all(audio, sweeping, c, globals, bases, samples);
        let after = glide(moving, glides, c, held);
        moving = after;
    }
    moved(state, moving)
}

// a block as one chunk
fn whole_of(block: Block) -> Chunk
    requires { block.start ≤ block.end }
    ensures { result ≡ whole_of block }
{
    Chunk {
        start: block.start,
        len: block.end - block.start,
        phase: 0,
        tick: false,
    }
}

// what the plans are swept by up to the block's end
fn sweeping_of(state: State, block: Block, signals: Signals, samples: &[f32]) -> Sweeping
    requires { (block.start ≤ block.end) × (block.end ≤ frame_count state) }
    ensures { PreparedBy (work_of state (whole_of block) false signals) (whole_of block) result samples.now × ((n : ℕ) → audio_size state ≤ n → ReadyBy (whole_of block) n result samples.now) }
{
    let whole = whole_of(block);
    let work = work_of(state, whole, false, signals);
    audio_rows::sweeping_of(work, whole, samples)
}

// The steps of a block's chunks.
pub fn chunk_steps(
    state: State,
    block: Block,
    held: &mut [f32],
    globals: &[f32],
    bases: &[f32],
    values: &mut [f32],
    audio: &mut [f32],
    tables: &[f32],
    samples: &[f32],
    signals: Signals,
) -> State
    requires { Room state (length held.old) (length values.old) (length audio.old) × (block.start ≤ block.end) × (block.end ≤ frame_count state) }
    ensures { world_of result held.new globals.now bases.now values.new audio.new tables.now ≡ chunk_steps samples.now signals block (chunk_total block) (world_of state held.old globals.now bases.now values.old audio.old tables.now) }
{
    let sweeping = sweeping_of(state, block, signals, samples);
    if audio_rows::only_swept(sweeping) {
        return swept_steps(state, block, sweeping, held, globals, bases, audio, samples);
    }
    each_step(
        state, block, held, globals, bases, values, audio, tables, samples, signals,
    )
}

// ---- open and close

// The load of the voices, where globals hold it.
pub fn loaded(globals: &mut [f32], state: State)
    requires { engine_sources state ≤ length globals.old }
    ensures { (h a v b t : List Float) → world_of state h globals.new a v b t ≡ loaded_world (world_of state h globals.old a v b t) }
{
    let config = state.config;
    let mark = state.mark;
    let voices = state.voices;
    let n = block_opening::at_most(state.sources, SOURCES);
    let x = block_opening::load_value(voices, config.voices, state.limit);
    block_opening::set_load(globals, mark, n, x);
}

// the random inputs of the routes, and the state of the draws after them
fn drawn_after(values: &mut [f32], state: State) -> u64
    requires { values_of state ≤ length values.old }
    ensures { drawn_of result values.new ≡ drawn_routes state.marks.renoted (voice_count state) (stride_of state) (chunks_most state) (plan_total state.program) state.program.route (route_total state.program) (drawn_of state.draw values.old) }
{
    let config = state.config;
    let program = state.program;
    let route = program.route;
    let marks = state.marks;
    let renoted = marks.renoted;
    let routes = block_opening::at_most(program.routes, SLOTS);
    let plans = block_opening::at_most(program.plans, SLOTS);
    let n = block_opening::at_most(config.voices, VOICES);
    let stride = config::lane_stride(config.voices);
    let chunks = config::most_chunks(config.max_frames);
    block_opening::draw_routes(
        values, route, routes, renoted, n, stride, chunks, plans, state.draw,
    )
}

// The draws of a block in which a voice was renoted.
pub fn drawn(values: &mut [f32], state: State) -> State
    requires { values_of state ≤ length values.old }
    ensures { ((h g a b t : List Float) → world_of result h g a values.new b t ≡ drawn_world (world_of state h g a values.old b t)) × Keeps state result }
{
    let marks = state.marks;
    if !marks.any_renoted {
        return state;
    }
    let draw = drawn_after(values, state);
    let mut next = state;
    next.draw = draw;
    next
}

// The end of a block of so many frames: the phase moves, the marks clear, and the block is the last.
pub fn closed(state: State, block: Block, len: usize) -> State
    ensures { (h g a v b t : List Float) → world_of result h g a v b t ≡ closed_world block len (world_of state h g a v b t) }
{
    let phase = state.phase % PERIOD;
    let moved = (phase + len % PERIOD) % PERIOD;
    let marks = state.marks;
    let cleared = marks.cleared();
    let mut next = state;
    next.phase = moved;
    next.marks = cleared;
    next.block = block;
    next
}

// ---- the block

// All that a block moves of a state.
#[derive(Clone, Copy)]
pub struct Small {
    pub primed: bool,
    pub draw: u64,
    pub phase: usize,
    pub velocity: Notes,
    pub key: Notes,
    pub marks: Marks,
    pub block: Block,
}

// what it moves, as it stands
fn small_of(state: State) -> Small
    ensures { result ≡ small_of state }
{
    let velocity = state.velocity;
    let key = state.key;
    let marks = state.marks;
    let block = state.block;
    Small {
        primed: state.primed,
        draw: state.draw,
        phase: state.phase,
        velocity,
        key,
        marks,
        block,
    }
}

fn block_of(state: State, start: usize, end: usize) -> Block
    ensures { result ≡ block_of state start end }
{
    let marks = state.marks;
    Block {
        start,
        end,
        phase: state.phase % PERIOD,
        first_tick: marks.any_fresh,
    }
}

fn no_block() -> Block
    ensures { result ≡ no_block }
{
    Block {
        start: 0,
        end: 0,
        phase: 0,
        first_tick: false,
    }
}

// what has moved after a block of so many frames without routes, once the notes have
fn quiet(state: State, velocity: Notes, key: Notes, len: usize) -> Small
    ensures { (h g a v b t : List Float) → world_of (with_small state result) h g a v b t
        ≡ closed_world no_block len (world_of (with_key (with_velocity state velocity) key) h g a v b t) }
{
    let phase = state.phase % PERIOD;
    let moved = (phase + len % PERIOD) % PERIOD;
    let marks = state.marks;
    let cleared = marks.cleared();
    let block = no_block();
    Small {
        primed: state.primed,
        draw: state.draw,
        phase: moved,
        velocity,
        key,
        marks: cleared,
        block,
    }
}

// A block of so many frames without routes.
pub fn routeless(held: &mut [f32], state: State, len: usize) -> Small
    requires { stride_of state * engine_sources state ≤ length held.old }
    ensures { (g a v b t : List Float) → world_of (with_small state result) held.new g a v b t
        ≡ routeless_world len (world_of state held.old g a v b t) }
{
    let config = state.config;
    let mark = state.mark;
    let velocity = state.velocity;
    let key = state.key;
    let stride = config::lane_stride(config.voices);
    let sources = block_opening::at_most(state.sources, SOURCES);
    let n = block_opening::at_most(config.voices, VOICES);
    let velocity_next = velocity.advance(len);
    let key_next = key.advance(len);
    block_opening::moved_held(
        held,
        mark,
        NoteValue::Velocity,
        stride,
        sources,
        n,
        velocity,
        velocity_next,
    );
    block_opening::moved_held(
        held,
        mark,
        NoteValue::Key,
        stride,
        sources,
        n,
        key,
        key_next,
    );
    quiet(state, velocity_next, key_next, len)
}

// A block with routes.
pub fn routed(
    state: State,
    held: &mut [f32],
    globals: &mut [f32],
    bases: &[f32],
    values: &mut [f32],
    audio: &mut [f32],
    tables: &[f32],
    samples: &[f32],
    signals: Signals,
    start: usize,
    end: usize,
) -> State
    requires { Room state (length held.old) (length values.old) (length audio.old) × (engine_sources state ≤ length globals.old) × (start < end) × (end ≤ frame_count state) }
    ensures { world_of result held.new globals.new bases.now values.new audio.new tables.now ≡ routed_world samples.now signals start end (world_of state held.old globals.old bases.now values.old audio.old tables.now) }
{
    let block = block_of(state, start, end);
    loaded(globals, state);
    let ready = drawn(values, state);
    let moved = chunk_steps(
        ready, block, held, globals, bases, values, audio, tables, samples, signals,
    );
    closed(moved, block, end - start)
}

// A block of a nonempty range.
fn run(
    state: State,
    held: &mut [f32],
    globals: &mut [f32],
    bases: &[f32],
    values: &mut [f32],
    audio: &mut [f32],
    tables: &[f32],
    samples: &[f32],
    signals: Signals,
    start: usize,
    end: usize,
) -> Small
    requires { Room state (length held.old) (length values.old) (length audio.old)
        × (engine_sources state ≤ length globals.old) × (start < end) × (end ≤ frame_count state) }
    ensures { world_of (with_small state result) held.new globals.new bases.now
        values.new audio.new tables.now
        ≡ run_world samples.now signals start end (world_of state held.old globals.old
        bases.now values.old audio.old tables.now) }
{
    let program = state.program;
    if program.routes == 0 {
        return routeless(held, state, end - start);
    }
    let next = routed(
        state, held, globals, bases, values, audio, tables, samples, signals, start, end,
    );
    small_of(next)
}

// What has moved of the state once a call judged so is answered: a refused one and an empty range move nothing.
pub fn answered(
    judged: Result<(), Refusal>,
    state: State,
    held: &mut [f32],
    globals: &mut [f32],
    bases: &[f32],
    values: &mut [f32],
    audio: &mut [f32],
    tables: &[f32],
    samples: &[f32],
    signals: Signals,
    start: usize,
    end: usize,
) -> Small
    requires { code_of judged ≡ 0 → Room state (length held.old) (length values.old) (length audio.old)
        × (engine_sources state ≤ length globals.old) × (end ≤ frame_count state) }
    ensures { world_of (with_small state result) held.new globals.new bases.now
        values.new audio.new tables.now
        ≡ answered_world (code_of judged) samples.now signals start end (world_of state held.old
        globals.old bases.now values.old audio.old
        tables.now) }
{
    if judged.is_err() {
        return small_of(state);
    }
    if end <= start {
        return small_of(state);
    }
    run(
        state, held, globals, bases, values, audio, tables, samples, signals, start, end,
    )
}

// Whether a block up to frame `end` is accepted, or why it is not.
pub fn code(state: State, lent: Lengths, signals: Signals, end: usize) -> Result<(), Refusal>
    ensures { code_of result ≡ code_by (counts_of state) lent signals.part end }
{
    let config = state.config;
    let program = state.program;
    let counts = Counts {
        voices: config.voices,
        frames: config.max_frames,
        sources: state.sources,
        dests: state.dests,
        plans: program.plans,
        routes: program.routes,
        tabled: program.tabled,
    };
    block_opening::process_code(counts, lent, signals, end)
}
