// The records that several crates read: registries, slots and the compiled program; docs/CALLS.md says what each field
// means.
#![tactic(auto)]

ghost use Rattle.std.specs.Prelude.{◌≡◌};
ghost use Rattle.state.specs.Registry.{same_target};

use config::{Config, DESTINATIONS, SLOTS, SOURCES};
use curve_table::Curve;
use voice::{Marks, Notes, Voices};

pub const KEY_BYTES: usize = 32;

// ---- sources (source.rs; document 01, Source entry)

#[derive(Clone, Copy, PartialEq, Eq)]
pub enum Kind {
    Signal,
    Audio,
    Held,
    Velocity,
    Key,
    ReleaseVelocity,
    Random,
    Alternate { inverse: bool },
    RandomPerRoute,
    VoiceLoad,
    Constant,
}

#[derive(Clone, Copy, PartialEq, Eq)]
pub enum Scope {
    Voice,
    Global,
}

#[derive(Clone, Copy, PartialEq, Eq)]
pub enum Range {
    Unipolar,
    Bipolar,
}

// A source's entry. `key` has the key's bytes, then zeros; `len` is the key's length.
#[derive(Clone, Copy)]
pub struct Source {
    pub key: [u8; KEY_BYTES],
    pub len: usize,
    pub kind: Kind,
    pub scope: Scope,
    pub range: Range,
}

// The first `count` entries count; fixed memory, copied by value.
#[derive(Clone, Copy)]
pub struct Sources {
    pub count: usize,
    pub entry: [Source; SOURCES],
}

// ---- destinations (dest.rs; document 01, Destination entry)

#[derive(Clone, Copy, PartialEq, Eq)]
pub enum Target {
    Param(u32),
    LfoBus { lfo: u8, bus: u8 },
}

// Whether two targets are the same parameter, or the same bus of the same LFO.
pub fn same_target(a: Target, b: Target) -> bool
    ensures { result ≡ same_target a b }
{
    a == b
}

#[derive(Clone, Copy, PartialEq, Eq)]
pub enum Rate {
    Audio,
    Control,
    Adaptive,
}

// Flat, with a case for none: its four cases are read together.
#[derive(Clone, Copy)]
pub enum Feed {
    Nothing,
    Source(usize),
    Amount(usize),
    Output(usize),
}

#[derive(Clone, Copy)]
pub struct Dest {
    pub target: Target,
    pub scope: Scope,
    pub rate: Rate,
    pub min: f32,
    pub max: f32,
    pub feed: Feed,
}

// The first `count` entries count; fixed memory, copied by value.
#[derive(Clone, Copy)]
pub struct Destinations {
    pub count: usize,
    pub entry: [Dest; DESTINATIONS],
}

// ---- slots (matrix.rs; document 01, Slot)

#[derive(Clone, Copy, PartialEq, Eq)]
pub enum Polarity {
    Unipolar,
    Bipolar,
}

#[derive(Clone, Copy)]
pub struct Slot {
    pub source: Option<usize>,
    pub source_curve: Curve,
    pub amount: f32,
    pub polarity: Polarity,
    pub destination: Option<Target>,
    pub aux: Option<usize>,
    pub aux_invert: bool,
    pub aux_curve: Curve,
    pub output: f32,
    pub bypass: bool,
}

#[derive(Clone, Copy, PartialEq, Eq)]
pub enum NoteCurve {
    Linear,
    Table,
}

#[derive(Clone, Copy)]
pub struct Matrix {
    pub slot: [Slot; SLOTS],
    pub velocity: NoteCurve,
    pub key: NoteCurve,
    pub glide: bool,
    pub velocity_legato: bool,
}

// ---- the compiled program (program.rs; document 01, Plan and route)

#[derive(Clone, Copy, Default)]
pub enum Read {
    Signal { source: u8, voice: bool },
    Held { source: u8, voice: bool },
    Fed { plan: u8, voice: bool },
    #[default]
    Constant,
    RouteRandom,
}

// How far an input may rise and fall in a sample.
#[derive(Clone, Copy)]
pub struct Slew {
    pub up: f32,
    pub down: f32,
}

// One input of a route. `table` says that it has a curve table, at the place of its slot and position.
#[derive(Clone, Copy, Default)]
pub struct Input {
    pub read: Read,
    pub bipolar: bool,
    pub table: bool,
    pub slew: Option<Slew>,
}

// Where an amount or an output is read. No Option: live is a kind of its own, as in the Rust.
#[derive(Clone, Copy, Default)]
pub enum Gain {
    #[default]
    Live,
    Fed { plan: u8, voice: bool },
}

// `scale` and `offset` are the Rust's `affine`.
#[derive(Clone, Copy, Default)]
pub struct Route {
    pub slot: u8,
    pub source: Input,
    pub aux: Option<Input>,
    pub aux_invert: bool,
    pub bipolar: bool,
    pub amount: Gain,
    pub output: Gain,
    pub voice: bool,
    pub scale: f32,
    pub offset: f32,
    pub simple: bool,
}

// Flat, with a case for a base that is not fed: its four cases are read together.
#[derive(Clone, Copy, Default, PartialEq, Eq)]
pub enum Base {
    #[default]
    Set,
    Held(u8),
    Amount(u8),
    Output(u8),
}

// `first` and `count` say which routes are the plan's.
#[derive(Clone, Copy, Default)]
pub struct Plan {
    pub dest: u16,
    pub voice: bool,
    pub audio: bool,
    pub min: f32,
    pub max: f32,
    pub base: Base,
    pub first: usize,
    pub count: usize,
}

#[derive(Clone, Copy, Default)]
pub enum Reason {
    #[default]
    UnknownSource,
    UnknownAux,
    UnknownDestination,
}

#[derive(Clone, Copy, Default)]
pub struct Skipped {
    pub slot: u8,
    pub reason: Reason,
}

#[derive(Clone, Copy)]
pub struct Gains {
    pub amount: [f32; SLOTS],
    pub output: [f32; SLOTS],
}

#[derive(Clone, Copy)]
pub struct Program {
    pub config: Config,
    pub sources: usize,
    pub dests: usize,
    pub plans: usize,
    pub control: usize,
    pub routes: usize,
    pub plan: [Plan; SLOTS],
    pub route: [Route; SLOTS],
    pub gains: Gains,
    pub velocity: NoteCurve,
    pub key: NoteCurve,
    pub glide: bool,
    pub velocity_legato: bool,
    pub tabled: bool,
    pub skips: usize,
    pub skipped: [Skipped; SLOTS],
}

// ---- compiling (program.rs 272-372; document 01, Plan and route)

// What a program is compiled from.
#[derive(Clone, Copy)]
pub struct Wiring {
    pub matrix: Matrix,
    pub sources: Sources,
    pub dests: Destinations,
    pub config: Config,
}

// A slot that becomes a route.
#[derive(Clone, Copy, Default)]
pub struct Candidate {
    pub slot: u8,
    pub source: u8,
    pub aux: Option<u8>,
    pub dest: u16,
}

// What becomes of a slot.
// Three outcomes, none of them a refusal: an Option of a Result is no plainer.
#[derive(Clone, Copy)]
pub enum Verdict {
    Over,
    LeftOut(Reason),
    Taken(Candidate),
}

// A destination in use: its scope, its rate and its counted feed.
#[derive(Clone, Copy, Default)]
pub struct Used {
    pub dest: u16,
    pub voice: bool,
    pub audio: bool,
    pub feed: Base,
}

// The destination in use that feeds a thing and is read.
#[derive(Clone, Copy, Default)]
pub struct FedBy {
    pub dest: u16,
    pub voice: bool,
}

// A candidate and who feeds its source, its aux, its amount and its output.
#[derive(Clone, Copy, Default)]
pub struct Reader {
    pub candidate: Candidate,
    pub source: Option<FedBy>,
    pub aux: Option<FedBy>,
    pub amount: Option<FedBy>,
    pub output: Option<FedBy>,
}

// ---- the engine (engine.rs 202-260; document 01, Chunk and value)

// A source's part of the samples: (0, 0, 0) where it is unbound.
#[derive(Clone, Copy)]
pub struct SignalPart {
    pub at: usize,
    pub len: usize,
    pub stride: usize,
}

#[derive(Clone, Copy)]
pub struct Signals {
    pub part: [SignalPart; SOURCES],
}

// What the engine knows of a source.
#[derive(Clone, Copy)]
pub struct SourceMark {
    pub kind: Kind,
    pub scope: Scope,
}

#[derive(Clone, Copy)]
pub struct Chunk {
    pub start: usize,
    pub len: usize,
    pub phase: usize,
    pub tick: bool,
}

// The last nonempty block: its range, the phase at its start, and whether its first chunk ticks whatever the phase.
// `start` = `end` where it had no routes.
#[derive(Clone, Copy)]
pub struct Block {
    pub start: usize,
    pub end: usize,
    pub phase: usize,
    pub first_tick: bool,
}

#[derive(Clone, Copy)]
pub struct State {
    pub config: Config,
    pub sources: usize,
    pub dests: usize,
    pub mark: [SourceMark; SOURCES],
    pub voices: Voices,
    pub marks: Marks,
    pub velocity: Notes,
    pub key: Notes,
    pub gains: Gains,
    pub alternate: bool,
    pub draw: u64,
    pub limit: usize,
    pub phase: usize,
    pub block: Block,
    pub primed: bool,
    pub program: Program,
}
