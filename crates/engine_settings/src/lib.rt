// What an engine's making, its settings and its swap judge and write, by numbers and small structs (engine.rs 273-446).
// The definitions are in model's specs/Settings.
#![tactic(auto)]

ghost use Rattle.std.specs.Prelude.{◌≡◌, cond, map, ◌+◌, ◌*◌, ◌<◌, ◌≤◌, min, max, length, get_or, set};
ghost use Rattle.std.specs.Prelude.{replicate};
ghost use Rattle.refusal.specs.Refusal.{code_of};
ghost use Rattle.config.specs.Sizes.{most_sources, most_destinations, most_voices, most_frames, lane_stride};
ghost use Rattle.list.specs.Rows.{on_row};
ghost use Rattle.model.specs.Feeds.{is_voice};
ghost use Rattle.model.specs.World.{no_mark};
ghost use Rattle.model.specs.Settings.{mark_of, refused_state, with_amount, with_output, same_config, every_finite};
ghost use Rattle.model.specs.Settings.{gains_finite};
ghost use Rattle.engine_settings.specs.Codes.{new_short, new_code, held_code, voice_held_code, base_code, gain_code};
ghost use Rattle.engine_settings.specs.Codes.{swap_code};
ghost use Rattle.engine_settings.specs.Fresh.{fresh_of};

use config::{Config, DESTINATIONS, FRAMES, SLOTS, SOURCES, VOICES};
use refusal::Refusal;
use state::{Block, Gains, Kind, Program, Scope, Source, SourceMark, State};
use voice::{Marks, Notes, Voices};

// ---- counts, held to their limits (docs/CALLS.md, Counts of a state)

// V
pub fn voice_count(config: Config) -> usize
    ensures { result ≡ min config.voices most_voices }
{
    let voices = config.voices;
    if voices < VOICES {
        return voices;
    }
    VOICES
}

// F
pub fn frame_count(config: Config) -> usize
    ensures { result ≡ min config.max_frames most_frames }
{
    let frames = config.max_frames;
    if frames < FRAMES {
        return frames;
    }
    FRAMES
}

// S
pub fn stride_of(config: Config) -> usize
    ensures { result ≡ lane_stride (min config.voices most_voices) }
{
    config::lane_stride(config.voices)
}

// N, of a count of sources
pub fn sources_of(n: usize) -> usize
    ensures { result ≡ min n most_sources }
{
    if n < SOURCES {
        return n;
    }
    SOURCES
}

// D, of a count of destinations
pub fn dests_of(n: usize) -> usize
    ensures { result ≡ min n most_destinations }
{
    if n < DESTINATIONS {
        return n;
    }
    DESTINATIONS
}

// what the held numbers of n sources take
pub fn held_need(config: Config, n: usize) -> usize
    ensures { result ≡ lane_stride (min config.voices most_voices) * min n most_sources }
{
    stride_of(config) * sources_of(n)
}

// the voice limit: at least 1
pub fn limit_of(voices: usize) -> usize
    ensures { result ≡ max voices 1 }
{
    if voices == 0 {
        return 1;
    }
    voices
}

// ---- rows; lent memories are given by their lengths

// row 14 of `new`
fn new_short(
    config: Config,
    sources: usize,
    dests: usize,
    held: usize,
    globals: usize,
    bases: usize,
) -> bool
    ensures { result ≡ new_short config sources dests held globals bases }
{
    if held < held_need(config, sources) {
        return true;
    }
    if globals < sources_of(sources) {
        return true;
    }
    bases < dests_of(dests)
}

// rows 6, 13 and 14 of `new`
pub fn new_code(
    config: Config,
    sources: usize,
    dests: usize,
    held: usize,
    globals: usize,
    bases: usize,
) -> Result<(), Refusal>
    ensures { code_of result ≡ new_code config sources dests held globals bases }
{
    let rate = config.sample_rate;
    if !number::is_finite(rate) {
        return Err(Refusal::Number);
    }
    if rate <= 0.0 {
        return Err(Refusal::Range);
    }
    if FRAMES < config.max_frames {
        return Err(Refusal::Range);
    }
    if VOICES < config.voices {
        return Err(Refusal::Range);
    }
    let short = new_short(config, sources, dests, held, globals, bases);
    refusal::when(short, Refusal::Memory)
}

// rows 3, 6 and 14 of `set_held`
pub fn held_code(
    config: Config,
    sources: usize,
    held: usize,
    globals: usize,
    source: usize,
    value: f32,
) -> Result<(), Refusal>
    ensures { code_of result ≡ held_code config sources held globals source value }
{
    let n = sources_of(sources);
    if n <= source {
        return Err(Refusal::Source);
    }
    if !number::is_finite(value) {
        return Err(Refusal::Number);
    }
    if held < held_need(config, sources) {
        return Err(Refusal::Memory);
    }
    if globals < n {
        return Err(Refusal::Memory);
    }
    Ok(())
}

// rows 2, 3, 6 and 14 of `set_voice_held`
pub fn voice_held_code(
    config: Config,
    sources: usize,
    held: usize,
    source: usize,
    voice: usize,
    value: f32,
) -> Result<(), Refusal>
    ensures { code_of result ≡ voice_held_code config sources held source voice value }
{
    if stride_of(config) <= voice {
        return Err(Refusal::Voice);
    }
    if sources_of(sources) <= source {
        return Err(Refusal::Source);
    }
    if !number::is_finite(value) {
        return Err(Refusal::Number);
    }
    if held < held_need(config, sources) {
        return Err(Refusal::Memory);
    }
    Ok(())
}

// rows 4, 6 and 14 of `set_base`
pub fn base_code(dests: usize, bases: usize, dest: usize, value: f32) -> Result<(), Refusal>
    ensures { code_of result ≡ base_code dests bases dest value }
{
    let n = dests_of(dests);
    if n <= dest {
        return Err(Refusal::Destination);
    }
    if !number::is_finite(value) {
        return Err(Refusal::Number);
    }
    if bases < n {
        return Err(Refusal::Memory);
    }
    Ok(())
}

// rows 5 and 6 of `set_amount` and `set_output`
pub fn gain_code(slot: usize, value: f32) -> Result<(), Refusal>
    ensures { code_of result ≡ gain_code slot value }
{
    if SLOTS <= slot {
        return Err(Refusal::Slot);
    }
    if !number::is_finite(value) {
        return Err(Refusal::Number);
    }
    Ok(())
}

// whether the two are alike, the rate by ==
// No derived equality: rates are floats, and a NaN is no rate.
fn same_config(a: Config, b: Config) -> bool
    ensures { result ≡ same_config a b }
{
    let same = a.sample_rate == b.sample_rate;
    if !same {
        return false;
    }
    if a.max_frames != b.max_frames {
        return false;
    }
    a.voices == b.voices
}

// whether every number is finite
fn every_finite(x: [f32; SLOTS]) -> bool
    ensures { result ≡ every_finite x }
{
    for i in 0..SLOTS {
        if !number::is_finite(x[i]) {
            return false;
        }
    }
    true
}

// whether a program's amounts and outputs are finite
pub fn gains_finite(gains: Gains) -> bool
    ensures { result ≡ gains_finite gains }
{
    let amount = gains.amount;
    if !every_finite(amount) {
        return false;
    }
    let output = gains.output;
    every_finite(output)
}

// rows 6, 7 and 8 of `swap`: whether the program's gains are finite; the engine's configuration and counts, and the
// program's
pub fn swap_code(
    gains: bool,
    config: Config,
    sources: usize,
    dests: usize,
    other: Config,
    other_sources: usize,
    other_dests: usize,
    routes: usize,
) -> Result<(), Refusal>
    ensures { code_of result ≡ swap_code gains config sources dests other other_sources other_dests routes }
{
    if !gains {
        return Err(Refusal::Number);
    }
    if !same_config(config, other) {
        return Err(Refusal::OtherConfig);
    }
    if state_filled::held(routes) == 0 {
        return Ok(());
    }
    if sources_of(sources) < other_sources {
        return Err(Refusal::OtherRegistries);
    }
    if dests_of(dests) < other_dests {
        return Err(Refusal::OtherRegistries);
    }
    Ok(())
}

// ---- what is written

// row r of width w becomes x
pub fn fill_row(mem: &mut [f32], w: usize, r: usize, x: f32)
    requires { r * w + w ≤ length mem.old }
    ensures { mem.new ≡ on_row mem.old w r (replicate w x) }
{
    let a = r * w;
    let e = a + w;
    list::fill_part(mem, a, e, x);
}

// the w lanes of a source per voice, the one number of a global one
pub fn write_held(
    held: &mut [f32],
    globals: &mut [f32],
    voice: bool,
    w: usize,
    source: usize,
    value: f32,
)
    requires { (source * w + w ≤ length held.old) × (source < length globals.old) }
    ensures rows { held.new ≡ cond voice (on_row held.old w source (replicate w value))
        held.old }
    ensures single { globals.new ≡ cond voice globals.old
        (set globals.old source value) }
{
    if voice {
        fill_row(held, w, source, value);
        return;
    }
    globals[source] = value;
}

// one lane of a source per voice
pub fn write_lane(held: &mut [f32], w: usize, source: usize, voice: usize, value: f32)
    requires { source * w + voice < length held.old }
    ensures { held.new ≡ set held.old (source * w + voice) value }
{
    let at = source * w + voice;
    held[at] = value;
}

// ---- marks and gains

// whether the engine has source i as one per voice
pub fn voice_at(mark: [SourceMark; SOURCES], i: usize) -> bool
    ensures { result ≡ is_voice (get_or mark i no_mark).scope }
{
    if SOURCES <= i {
        return true;
    }
    let m = mark[i];
    let scope = m.scope;
    compile_feeds::is_voice(scope)
}

// the amount of slot n, clamped
pub fn with_amount(gains: Gains, n: usize, amount: f32) -> Gains
    ensures { result ≡ with_amount gains n amount }
{
    if SLOTS <= n {
        return gains;
    }
    let mut next = gains;
    next.amount[n] = slots::kept_amount(amount);
    next
}

// the output of slot n, clamped
pub fn with_output(gains: Gains, n: usize, output: f32) -> Gains
    ensures { result ≡ with_output gains n output }
{
    if SLOTS <= n {
        return gains;
    }
    let mut next = gains;
    next.output[n] = slots::kept_output(output);
    next
}

// ---- a fresh engine

// what the engine knows of a source
pub fn mark_of(source: Source) -> SourceMark
    ensures { result ≡ mark_of source }
{
    let kind = source.kind;
    let scope = source.scope;
    SourceMark { kind, scope }
}

// what it knows of all
pub fn marks_of(entry: [Source; SOURCES]) -> [SourceMark; SOURCES]
    ensures { result ≡ map mark_of entry }
{
    let none = SourceMark {
        kind: Kind::Signal,
        scope: Scope::Voice,
    };
    let mut out = [none; SOURCES];
    for i in 0..SOURCES {
        let source = entry[i];
        let mark = mark_of(source);
        out[i] = mark;
    }
    out
}

// the state before any call, for so many sources and destinations, and the sources' marks
pub fn fresh_state(
    config: Config,
    sources: usize,
    dests: usize,
    mark: [SourceMark; SOURCES],
) -> State
    ensures { result ≡ fresh_of config sources dests mark }
{
    let voices = Voices::new();
    let marks = Marks::new();
    let notes = Notes::new();
    let amount = [0.0; SLOTS];
    let output = [1.0; SLOTS];
    let gains = Gains { amount, output };
    let limit = limit_of(config.voices);
    let block = Block {
        start: 0,
        end: 0,
        phase: 0,
        first_tick: false,
    };
    let program = compile::empty_of(config);
    State {
        config,
        sources,
        dests,
        mark,
        voices,
        marks,
        velocity: notes,
        key: notes,
        gains,
        alternate: false,
        draw: 0x9E37_79B9_7F4A_7C15,
        limit,
        phase: 0,
        block,
        primed: false,
        program,
    }
}

// the state of a bare engine: rate 1, 0 frames, 0 voices, nothing registered
pub fn refused_state() -> State
    ensures { result ≡ refused_state }
{
    let config = Config {
        sample_rate: 1.0,
        max_frames: 0,
        voices: 0,
    };
    let none = SourceMark {
        kind: Kind::Signal,
        scope: Scope::Voice,
    };
    let mark = [none; SOURCES];
    fresh_state(config, 0, 0, mark)
}
