// The engine (docs/CALLS.md). Every `pub fn` is a public call; definitions stand in the crate model, over the state and
// the lists that the lent slices hold.
#![tactic(auto)]

ghost use Rattle.std.specs.Prelude.{◌≡◌, [], not, ◌||◌};
ghost use Rattle.model.specs.World.{world_of};
ghost use Rattle.model.specs.Settings.{refused_state, new_engine, unbound_signals, bind_signal, set_held};
ghost use Rattle.model.specs.Settings.{set_voice_held};
ghost use Rattle.model.specs.Settings.{set_base, set_amount, set_output, set_voice_limit, swap_program};
ghost use Rattle.model.specs.Outputs.{engine_stride, engine_program, output_of, audio_part, frame_part, from_part};
ghost use Rattle.model.specs.Outputs.{to_part};
ghost use Rattle.model.specs.Outputs.{chunk_count, chunk_at, audio_at, control_value, ramp_of, latest_of, latest_all};
ghost use Rattle.model.specs.NoteCalls.{new_note, note_finite, note_on, note_off, voice_ended, is_active};
ghost use Rattle.model.specs.Process.{process};
ghost use Rattle.model.specs.States.{with_draw};
ghost use Rattle.refusal.specs.Refusal.{code_of};
ghost use Rattle.engine_reads.specs.Said.{output_said, part_said, reading_said, ramped_said};
ghost use Rattle.engine.specs.Said.{flag_said, bound_said, state_after, state_swapped, program_left};
ghost use Rattle.engine.specs.Noting.{note_of, setting_by};
ghost use Rattle.engine.specs.Shown.{engine_state};
ghost use Rattle.engine.specs.Replies.{chunk_reply, output_reply, reading_reply, ramped_reply};
ghost use Rattle.engine.specs.Replies.{chunk_says, output_says, at_says, value_says, latest_says, ramp_says};

use block_opening::Lengths;
use config::{Config, SIGNAL_STRIDE, SOURCES};
use engine_notes::{Setting, Sounding};
pub use engine_reads::Output;
use refusal::Refusal;
use slots_tables::{KEY_PLACE, VELOCITY_PLACE};
use state::{Chunk, Destinations, NoteCurve, Program, SignalPart, Signals, Sources, State};

// An engine; its memories are lent with each call.
#[derive(Clone, Copy)]
pub struct Engine {
    state: State,
}

// The engine with a program installed, and the program that it replaces.
#[derive(Clone, Copy)]
pub struct Swapped {
    pub engine: Engine,
    pub program: Program,
}

// ---- making, settings and swap (engine.rs 273-446)

impl Engine {
    // An engine with the empty program, its memories set to 0.
    pub fn new(
        sources: Sources,
        dests: Destinations,
        config: Config,
        held: &mut [f32],
        globals: &mut [f32],
        bases: &mut [f32],
    ) -> Result<Engine, Refusal>
        ensures answer { (code_of result ≡ (new_engine sources dests config
            (world_of refused_state held.old globals.old bases.old [] [] [])).code)
            × (state_after refused_state result ≡ (new_engine sources dests config
            (world_of refused_state held.old globals.old
            bases.old [] [] [])).world.state) }
        ensures lent { (held.new ≡ (new_engine sources dests config
            (world_of refused_state held.old globals.old
            bases.old [] [] [])).world.held)
            × ((globals.new ≡ (new_engine sources dests config
            (world_of refused_state held.old globals.old
            bases.old [] [] [])).world.globals) ×
            (bases.new ≡ (new_engine sources dests config
            (world_of refused_state held.old globals.old
            bases.old [] [] [])).world.bases)) }
    {
        let n = engine_settings::sources_of(sources.count);
        let d = engine_settings::dests_of(dests.count);
        engine_settings::new_code(config, n, d, held.len(), globals.len(), bases.len())?;
        compile::zero(held, engine_settings::held_need(config, n));
        compile::zero(globals, n);
        compile::zero(bases, d);
        let entry = sources.entry;
        let mark = engine_settings::marks_of(entry);
        let state = engine_settings::fresh_state(config, n, d, mark);
        Ok(Engine { state })
    }

    // The engine for rate 1, 0 frames and 0 voices, with nothing registered: it needs no memory.
    pub fn bare() -> Engine
        ensures { result.state ≡ refused_state }
    {
        let state = engine_settings::refused_state();
        Engine { state }
    }

    // The program is installed, and the one that it replaces comes back.
    pub fn swap(self, program: Program) -> Result<Swapped, Refusal>
        ensures { (code_of result ≡ (swap_program self.state program).code)
            × ((state_swapped self.state result ≡ (swap_program self.state program).state)
            × (program_left program result ≡ (swap_program self.state program).program)) }
    {
        let mut state = self.state;
        let config = state.config;
        let other = program.config;
        let gains = program.gains;
        engine_settings::swap_code(
            engine_settings::gains_finite(gains),
            config,
            state.sources,
            state.dests,
            other,
            program.sources,
            program.dests,
            program.routes,
        )?;
        let old = state.program;
        let voices = state.voices;
        let active = voices.active;
        let marks = state.marks;
        let swapped = marks.swapped(active);
        state.program = program;
        state.gains = gains;
        state.marks = swapped;
        state.primed = false;
        let engine = Engine { state };
        Ok(Swapped {
            engine,
            program: old,
        })
    }

    // The engine's state, to look at.
    pub fn state(self) -> State
        ensures { result ≡ engine_state self.state }
    {
        self.state
    }

    // The state of the draws is this one.
    pub fn with_draw(self, draw: u64) -> Engine
        ensures { result.state ≡ with_draw self.state draw }
    {
        let mut state = self.state;
        state.draw = draw;
        Engine { state }
    }

    // The lane stride.
    pub fn stride(self) -> usize
        ensures { result ≡ engine_stride self.state }
    {
        config::lane_stride(self.state.config.voices)
    }

    // The installed program.
    pub fn program(self) -> Program
        ensures { result ≡ engine_program self.state }
    {
        let state = self.state;
        let program = state.program;
        program
    }

    // A source's held number: all lanes of a source per voice, the one number of a global one.
    pub fn set_held(
        self,
        held: &mut [f32],
        globals: &mut [f32],
        source: usize,
        value: f32,
    ) -> Result<Engine, Refusal>
        ensures { (code_of result ≡ (set_held
            (world_of self.state held.old globals.old [] [] [] []) source value).code)
            × ((state_after self.state result ≡ (set_held
            (world_of self.state held.old globals.old [] [] [] []) source value).world.state)
            × ((held.new ≡ (set_held
            (world_of self.state held.old globals.old [] [] [] []) source value).world.held)
            × (globals.new ≡ (set_held
            (world_of self.state held.old
            globals.old [] [] [] []) source value).world.globals))) }
    {
        let state = self.state;
        let config = state.config;
        engine_settings::held_code(
            config,
            state.sources,
            held.len(),
            globals.len(),
            source,
            value,
        )?;
        let mark = state.mark;
        let voice = engine_settings::voice_at(mark, source);
        let stride = engine_settings::stride_of(config);
        engine_settings::write_held(held, globals, voice, stride, source, value);
        Ok(self)
    }

    // One lane of a source's held number.
    pub fn set_voice_held(
        self,
        held: &mut [f32],
        source: usize,
        voice: usize,
        value: f32,
    ) -> Result<Engine, Refusal>
        ensures { (code_of result ≡ (set_voice_held
            (world_of self.state held.old [] [] [] [] []) source voice value).code)
            × ((state_after self.state result ≡ (set_voice_held
            (world_of self.state held.old [] [] [] [] []) source voice value).world.state)
            × (held.new ≡ (set_voice_held
            (world_of self.state held.old [] [] [] [] []) source voice value).world.held)) }
    {
        let state = self.state;
        let config = state.config;
        engine_settings::voice_held_code(config, state.sources, held.len(), source, voice, value)?;
        let stride = engine_settings::stride_of(config);
        engine_settings::write_lane(held, stride, source, voice, value);
        Ok(self)
    }

    // A destination's base.
    pub fn set_base(self, bases: &mut [f32], dest: usize, value: f32) -> Result<Engine, Refusal>
        ensures { (code_of result ≡ (set_base
            (world_of self.state [] [] bases.old [] [] []) dest value).code)
            × ((state_after self.state result ≡ (set_base
            (world_of self.state [] [] bases.old [] [] []) dest value).world.state)
            × (bases.new ≡ (set_base
            (world_of self.state [] [] bases.old [] [] []) dest value).world.bases)) }
    {
        let state = self.state;
        engine_settings::base_code(state.dests, bases.len(), dest, value)?;
        bases[dest] = value;
        Ok(self)
    }

    // A slot's live amount, clamped to -1..1.
    pub fn set_amount(self, slot: usize, amount: f32) -> Result<Engine, Refusal>
        ensures { (code_of result ≡ (set_amount (world_of self.state [] [] [] [] [] []) slot amount).code)
            × (state_after self.state result
            ≡ (set_amount (world_of self.state [] [] [] [] [] []) slot amount).world.state) }
    {
        engine_settings::gain_code(slot, amount)?;
        let mut state = self.state;
        let gains = state.gains;
        let next = engine_settings::with_amount(gains, slot, amount);
        state.gains = next;
        Ok(Engine { state })
    }

    // A slot's live output, clamped to 0..1.
    pub fn set_output(self, slot: usize, output: f32) -> Result<Engine, Refusal>
        ensures { (code_of result ≡ (set_output (world_of self.state [] [] [] [] [] []) slot output).code)
            × (state_after self.state result
            ≡ (set_output (world_of self.state [] [] [] [] [] []) slot output).world.state) }
    {
        engine_settings::gain_code(slot, output)?;
        let mut state = self.state;
        let gains = state.gains;
        let next = engine_settings::with_output(gains, slot, output);
        state.gains = next;
        Ok(Engine { state })
    }

    // The voice limit, at least 1.
    pub fn set_voice_limit(self, voices: usize) -> Engine
        ensures { (0 ≡ (set_voice_limit (world_of self.state [] [] [] [] [] []) voices).code)
            × (result.state ≡ (set_voice_limit (world_of self.state [] [] [] [] [] []) voices).world.state) }
    {
        let limit = engine_settings::limit_of(voices);
        let mut engine = self;
        engine.state.limit = limit;
        engine
    }
}

// ---- signals (engine.rs 36-66)

// No source is bound.
pub fn no_signals() -> Signals
    ensures { result ≡ unbound_signals }
{
    let none = SignalPart {
        at: 0,
        len: 0,
        stride: 0,
    };
    let part = [none; SOURCES];
    Signals { part }
}

// A source's part of the samples.
pub fn bind(
    signals: Signals,
    source: usize,
    at: usize,
    len: usize,
    stride: usize,
) -> Result<Signals, Refusal>
    ensures { bound_said signals result ≡ bind_signal signals source at len stride }
{
    if SIGNAL_STRIDE < stride {
        return Err(Refusal::Range);
    }
    if SOURCES <= source {
        return Ok(signals);
    }
    let mut next = signals;
    let part = SignalPart { at, len, stride };
    next.part[source] = part;
    Ok(next)
}

// ---- notes

// A note that starts on a voice.
#[derive(Clone, Copy)]
pub struct NoteOn {
    pub key: f32,
    pub velocity: f32,
    pub legato: bool,
    pub glide_seconds: f32,
}

impl NoteOn {
    // a note that is not legato, with 0 seconds
    pub fn new(key: f32, velocity: f32) -> NoteOn
        ensures { note_of result ≡ new_note key velocity }
    {
        NoteOn {
            key,
            velocity,
            legato: false,
            glide_seconds: 0.0,
        }
    }
}

// row 6 of a note
fn note_finite(note: NoteOn) -> bool
    ensures { result ≡ note_finite (note_of note) }
{
    if !number::is_finite(note.key) {
        return false;
    }
    if !number::is_finite(note.velocity) {
        return false;
    }
    number::is_finite(note.glide_seconds)
}

// Of a program, what a note goes by.
#[derive(Clone, Copy)]
struct Curves {
    velocity: NoteCurve,
    key: NoteCurve,
    glide: bool,
    velocity_legato: bool,
}

// whether a note sets its velocity
fn takes_velocity(legato: bool, velocity_legato: bool) -> bool
    ensures { result ≡ not legato || velocity_legato }
{
    if !legato {
        return true;
    }
    velocity_legato
}

// what a note sets
fn setting_by(tables: &[f32], curves: Curves, rate: f32, note: NoteOn) -> Setting
    ensures { result ≡ setting_by tables.now curves rate (note_of note) }
{
    let legato = note.legato;
    let velocity_curve = curves.velocity;
    let key_curve = curves.key;
    let time = voice::legato_time(legato, curves.glide, note.glide_seconds);
    Setting {
        legato,
        time,
        rate,
        takes: takes_velocity(legato, curves.velocity_legato),
        velocity: engine_notes::note_curve(tables, VELOCITY_PLACE, velocity_curve, note.velocity),
        key: engine_notes::note_curve(tables, KEY_PLACE, key_curve, note.key / 127.0),
    }
}

impl Engine {
    // A note starts on a voice.
    pub fn note_on(
        self,
        held: &mut [f32],
        tables: &[f32],
        voice: usize,
        note: NoteOn,
    ) -> Result<Engine, Refusal>
        ensures { (code_of result ≡ (note_on
            (world_of self.state held.old [] [] [] [] tables.now) voice (note_of note)).code)
            × ((state_after self.state result ≡ (note_on
            (world_of self.state held.old [] [] [] [] tables.now) voice
            (note_of note)).world.state) ×
            (held.new ≡ (note_on (world_of self.state held.old [] [] [] []
            tables.now) voice (note_of note)).world.held)) }
    {
        let mut state = self.state;
        let config = state.config;
        let program = state.program;
        engine_notes::code(
            engine_notes::no_voice(config.voices, voice),
            note_finite(note),
            engine_notes::memory_short(
                held.len(),
                tables.len(),
                state.sources,
                config.voices,
                program.tabled,
            ),
        )?;
        let velocity_curve = program.velocity;
        let key_curve = program.key;
        let curves = Curves {
            velocity: velocity_curve,
            key: key_curve,
            glide: program.glide,
            velocity_legato: program.velocity_legato,
        };
        let setting = setting_by(tables, curves, config.sample_rate, note);
        let lane = engine_notes::lane_of(state.sources, config.voices, voice);
        let mark = state.mark;
        let voices = state.voices;
        let marks = state.marks;
        let velocity = state.velocity;
        let key = state.key;
        let sounding = Sounding {
            voices,
            marks,
            velocity,
            key,
            alternate: state.alternate,
            draw: state.draw,
        };
        let next = engine_notes::note_on(held, mark, lane, sounding, setting);
        let voices_next = next.voices;
        state.voices = voices_next;
        let marks_next = next.marks;
        state.marks = marks_next;
        let velocity_next = next.velocity;
        state.velocity = velocity_next;
        let key_next = next.key;
        state.key = key_next;
        state.alternate = next.alternate;
        state.draw = next.draw;
        Ok(Engine { state })
    }

    // A note is released: its release velocity is written, and its voice sounds on.
    pub fn note_off(
        self,
        held: &mut [f32],
        voice: usize,
        release_velocity: f32,
    ) -> Result<Engine, Refusal>
        ensures { (code_of result ≡ (note_off
            (world_of self.state held.old [] [] [] [] []) voice release_velocity).code)
            × ((state_after self.state result ≡ (note_off
            (world_of self.state held.old [] [] [] [] []) voice release_velocity).world.state)
            × (held.new ≡ (note_off
            (world_of self.state held.old [] [] [] [] []) voice release_velocity).world.held)) }
    {
        let state = self.state;
        let config = state.config;
        let judged = engine_notes::code(
            engine_notes::no_voice(config.voices, voice),
            number::is_finite(release_velocity),
            engine_notes::held_short(held.len(), state.sources, config.voices),
        );
        let mark = state.mark;
        let lane = engine_notes::lane_of(state.sources, config.voices, voice);
        engine_notes::released(judged, held, mark, lane, release_velocity);
        judged?;
        Ok(self)
    }

    // A voice has stopped sounding.
    pub fn voice_ended(self, held: &[f32], voice: usize) -> Result<Engine, Refusal>
        ensures { (code_of result ≡ (voice_ended
            (world_of self.state held.now [] [] [] [] []) voice).code)
            × (state_after self.state result ≡ (voice_ended
            (world_of self.state held.now [] [] [] [] []) voice).world.state) }
    {
        let mut state = self.state;
        let config = state.config;
        let judged = engine_notes::code(
            engine_notes::no_voice(config.voices, voice),
            true,
            engine_notes::held_short(held.len(), state.sources, config.voices),
        );
        let voices = state.voices;
        let marks = state.marks;
        let velocity = state.velocity;
        let key = state.key;
        let sounding = Sounding {
            voices,
            marks,
            velocity,
            key,
            alternate: state.alternate,
            draw: state.draw,
        };
        let next = engine_notes::ended(judged, sounding, voice);
        let voices_next = next.voices;
        state.voices = voices_next;
        let marks_next = next.marks;
        state.marks = marks_next;
        let velocity_next = next.velocity;
        state.velocity = velocity_next;
        let key_next = next.key;
        state.key = key_next;
        judged?;
        Ok(Engine { state })
    }

    // whether a voice is active
    pub fn is_active(self, voice: usize) -> Result<bool, Refusal>
        ensures { flag_said result ≡ is_active self.state voice }
    {
        let state = self.state;
        let config = state.config;
        if engine_notes::no_voice(config.voices, voice) {
            return Err(Refusal::Voice);
        }
        let voices = state.voices;
        Ok(voices.is_active(voice))
    }
}

// ---- a block (engine.rs 547-611, 756-769, 804-1011)

impl Engine {
    // The block of the frames from `start` up to `end`.
    pub fn process(
        self,
        held: &mut [f32],
        globals: &mut [f32],
        bases: &[f32],
        values: &mut [f32],
        audio: &mut [f32],
        tables: &[f32],
        samples: &[f32],
        signals: Signals,
        start: usize,
        end: usize,
    ) -> Result<Engine, Refusal>
        ensures answer { (code_of result
            ≡ (process (world_of self.state held.old globals.old bases.now
            values.old audio.old tables.now)
            samples.now signals start end).code) ×
            (state_after self.state result ≡ (process (world_of self.state held.old globals.old
            bases.now values.old audio.old tables.now)
            samples.now signals start end).world.state) }
        ensures lent { (held.new ≡ (process
            (world_of self.state held.old globals.old bases.now
            values.old audio.old tables.now)
            samples.now signals start end).world.held)
            × ((globals.new ≡ (process
            (world_of self.state held.old globals.old bases.now
            values.old audio.old tables.now)
            samples.now signals start end).world.globals)
            × ((values.new ≡ (process
            (world_of self.state held.old globals.old bases.now
            values.old audio.old tables.now)
            samples.now signals start end).world.values)
            × (audio.new ≡ (process
            (world_of self.state held.old globals.old bases.now
            values.old audio.old tables.now)
            samples.now signals start end).world.audio))) }
    {
        let mut state = self.state;
        let lent = Lengths {
            held: held.len(),
            globals: globals.len(),
            bases: bases.len(),
            values: values.len(),
            audio: audio.len(),
            tables: tables.len(),
            samples: samples.len(),
        };
        let judged = block::code(state, lent, signals, end);
        let small = block::answered(
            judged, state, held, globals, bases, values, audio, tables, samples, signals, start,
            end,
        );
        state.primed = small.primed;
        state.draw = small.draw;
        state.phase = small.phase;
        let velocity = small.velocity;
        state.velocity = velocity;
        let key = small.key;
        state.key = key;
        let marks = small.marks;
        state.marks = marks;
        let last = small.block;
        state.block = last;
        judged?;
        Ok(Engine { state })
    }
}

// ---- what is read of an engine

impl Engine {
    // The shape of a destination's output.
    pub fn output(self, values: &[f32], audio: &[f32], dest: usize) -> Result<Output, Refusal>
        ensures value { output_said result ≡ output_of self.state values.now audio.now dest }
        ensures reply { output_reply (output_said result) ≡ output_says self.state values.now
            audio.now dest }
    {
        let state = self.state;
        engine_reads::output_shape(state, values, audio, dest)
    }

    // The audio rows of a destination.
    pub fn audio_part<'a>(self, audio: &'a [f32], dest: usize) -> Result<&'a [f32], Refusal>
        ensures { part_said result ≡ audio_part self.state audio.now dest }
    {
        let state = self.state;
        engine_reads::audio_part(state, audio, dest)
    }

    // The "from" rows of the last block's chunks.
    pub fn from_part<'a>(self, values: &'a [f32], dest: usize) -> Result<&'a [f32], Refusal>
        ensures { part_said result ≡ from_part self.state values.now dest }
    {
        let state = self.state;
        engine_reads::from_part(state, values, dest)
    }

    // Their "to" rows.
    pub fn to_part<'a>(self, values: &'a [f32], dest: usize) -> Result<&'a [f32], Refusal>
        ensures { part_said result ≡ to_part self.state values.now dest }
    {
        let state = self.state;
        engine_reads::to_part(state, values, dest)
    }

    // How many chunks the last nonempty block made.
    pub fn chunk_count(self) -> usize
        ensures { result ≡ chunk_count self.state }
    {
        let state = self.state;
        engine_reads::chunk_count(state)
    }

    // Chunk i of them, where there is one.
    pub fn chunk(self, i: usize) -> Option<Chunk>
        ensures value { result ≡ chunk_at self.state i }
        ensures reply { chunk_reply result ≡ chunk_says self.state i }
    {
        let state = self.state;
        engine_reads::chunk_at(state, i)
    }

    // The number at a frame, of an audio plan.
    pub fn at(
        self,
        audio: &[f32],
        dest: usize,
        frame: usize,
        voice: usize,
    ) -> Result<Option<f32>, Refusal>
        ensures value { reading_said result ≡ audio_at self.state audio.now dest frame voice }
        ensures reply { reading_reply (reading_said result) ≡ at_says self.state audio.now dest frame voice }
    {
        let state = self.state;
        engine_reads::at(state, audio, dest, frame, voice)
    }

    // The row at a frame, of an audio plan.
    pub fn frame<'a>(
        self,
        audio: &'a [f32],
        dest: usize,
        frame: usize,
    ) -> Result<&'a [f32], Refusal>
        ensures { part_said result ≡ frame_part self.state audio.now dest frame }
    {
        let state = self.state;
        engine_reads::audio_frame(state, audio, dest, frame)
    }

    // The number after a chunk, of a control plan.
    pub fn value(
        self,
        values: &[f32],
        dest: usize,
        chunk: usize,
        voice: usize,
    ) -> Result<Option<f32>, Refusal>
        ensures value { reading_said result ≡ control_value self.state values.now dest chunk voice }
        ensures reply { reading_reply (reading_said result) ≡ value_says self.state values.now dest chunk voice }
    {
        let state = self.state;
        engine_reads::value(state, values, dest, chunk, voice)
    }

    // The ramp of a control plan over the last block, a number a frame.
    pub fn ramp(
        self,
        values: &[f32],
        dest: usize,
        voice: usize,
        out: &mut [f32],
    ) -> Result<Option<usize>, Refusal>
        ensures value { (ramped_said result ≡ (ramp_of self.state values.now dest voice out.old).answer)
            × (out.new ≡ (ramp_of self.state values.now dest voice out.old).out) }
        ensures reply { ramped_reply (ramped_said result) ≡ ramp_says self.state values.now dest voice
            out.old }
    {
        let state = self.state;
        engine_reads::ramp(state, values, dest, voice, out)
    }

    // The number after the last chunk, or at its last frame.
    pub fn latest(
        self,
        values: &[f32],
        audio: &[f32],
        dest: usize,
        voice: usize,
    ) -> Result<Option<f32>, Refusal>
        ensures value { reading_said result ≡ latest_of self.state values.now audio.now dest voice }
        ensures reply { reading_reply (reading_said result) ≡ latest_says self.state values.now
            audio.now dest voice }
    {
        let state = self.state;
        engine_reads::latest(state, values, audio, dest, voice)
    }

    // The latest number of every destination for each of so many voices.
    pub fn latest_all(
        self,
        values: &[f32],
        audio: &[f32],
        voices: usize,
        out: &mut [f32],
    ) -> Result<(), Refusal>
        ensures { (code_of result ≡ (latest_all self.state values.now audio.now voices
            out.old).code) × (out.new ≡ (latest_all self.state values.now
            audio.now voices out.old).out) }
    {
        let state = self.state;
        engine_reads::latest_all(state, values, audio, voices, out)
    }
}
