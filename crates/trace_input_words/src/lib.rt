// What the words of a session's lines stand for: the arguments of a line, and the cases of the core's types. Lines are judged before (grammar).
#![tactic(auto)]

use config::Config;
use state::{Feed, Kind, Polarity, Range, Rate, Scope, Target};

// ---- arguments of a line: each is of its kind (grammar)

// Words 1 and 2, two whole numbers.
#[derive(Clone, Copy)]
pub struct PairWord {
    pub a: usize,
    pub b: usize,
}

// Words 1 and 2, a whole number and a number.
#[derive(Clone, Copy)]
pub struct ValueWord {
    pub n: usize,
    pub x: f32,
}

// a word that is a whole number
pub fn number(w: &[u8]) -> usize {
    trace_input_session::whole(w).unwrap_or(0) as usize
}

// a word that is a number
pub fn float(w: &[u8]) -> f32 {
    trace_input_session::float(w).unwrap_or(0.0)
}

// the place in a list of word k of a line
pub fn index_at(list: &[u8], line: &[u8], k: usize) -> usize {
    trace_input_session::index(list, trace_input_session::word(line, k))
}

// word k, a whole number
pub fn number_at(line: &[u8], k: usize) -> usize {
    number(trace_input_session::word(line, k))
}

// word k, a number
pub fn float_at(line: &[u8], k: usize) -> f32 {
    float(trace_input_session::word(line, k))
}

// whether a word, 0 or 1, is 1
pub fn flag(w: &[u8]) -> bool {
    trace_input_session::is(w, b"1")
}

// word k, 0 or 1
pub fn flag_at(line: &[u8], k: usize) -> bool {
    flag(trace_input_session::word(line, k))
}

// words 1 and 2, whole numbers
pub fn pair(line: &[u8]) -> PairWord {
    PairWord {
        a: number_at(line, 1),
        b: number_at(line, 2),
    }
}

// words 1 and 2, a whole number and a number
pub fn value(line: &[u8]) -> ValueWord {
    ValueWord {
        n: number_at(line, 1),
        x: float_at(line, 2),
    }
}

// `config RATE FRAMES VOICES`
pub fn config(line: &[u8]) -> Config {
    Config {
        sample_rate: float_at(line, 1),
        max_frames: number_at(line, 2),
        voices: number_at(line, 3),
    }
}

// ---- sources

// The kind, scope and range of a source.
#[derive(Clone, Copy)]
pub struct SourceWord {
    pub kind: Kind,
    pub scope: Scope,
    pub range: Range,
}

fn kind_of(i: usize) -> Kind {
    match i {
        0 => Kind::Signal,
        1 => Kind::Audio,
        2 => Kind::Held,
        3 => Kind::Velocity,
        4 => Kind::Key,
        5 => Kind::ReleaseVelocity,
        6 => Kind::Random,
        7 => Kind::Alternate { inverse: false },
        8 => Kind::Alternate { inverse: true },
        9 => Kind::RandomPerRoute,
        10 => Kind::VoiceLoad,
        _ => Kind::Constant,
    }
}

fn scope_of(i: usize) -> Scope {
    match i {
        0 => Scope::Voice,
        _ => Scope::Global,
    }
}

fn range_of(i: usize) -> Range {
    match i {
        0 => Range::Unipolar,
        _ => Range::Bipolar,
    }
}

// a key as written: `~` is the empty one
pub fn key(w: &[u8]) -> &[u8] {
    if trace_input_session::is(w, b"~") {
        return &w[..0];
    }
    w
}

// `source KEY KIND SCOPE RANGE`
pub fn source(line: &[u8]) -> SourceWord {
    let kinds =
        b"signal audio held velocity key release random alt altinv routerandom load constant";
    SourceWord {
        kind: kind_of(index_at(kinds, line, 2)),
        scope: scope_of(index_at(b"v g", line, 3)),
        range: range_of(index_at(b"u b", line, 4)),
    }
}

// ---- destinations

// The scope, rate and bounds of a destination.
#[derive(Clone, Copy)]
pub struct DestWord {
    pub scope: Scope,
    pub rate: Rate,
    pub min: f32,
    pub max: f32,
}

fn rate_of(i: usize) -> Rate {
    match i {
        0 => Rate::Audio,
        1 => Rate::Control,
        _ => Rate::Adaptive,
    }
}

// `dest TARGET SCOPE RATE MIN MAX FEED`, all but the target and the feed
pub fn dest(line: &[u8]) -> DestWord {
    DestWord {
        scope: scope_of(index_at(b"v g", line, 2)),
        rate: rate_of(index_at(b"audio control adaptive", line, 3)),
        min: float_at(line, 4),
        max: float_at(line, 5),
    }
}

// `p:NUMBER` or `l:LFO:BUS`
pub fn target(w: &[u8]) -> Target {
    let rest = trace_input_session::after(w, b':');
    if trace_input_session::is(trace_input_session::before(w, b':'), b"p") {
        return Target::Param((number(rest) % 4294967296) as u32);
    }
    let lfo = (number(trace_input_session::before(rest, b':')) % 256) as u8;
    let bus = (number(trace_input_session::after(rest, b':')) % 256) as u8;
    Target::LfoBus { lfo, bus }
}

fn feed_of(i: usize, n: usize) -> Feed {
    match i {
        0 => Feed::Source(n),
        1 => Feed::Amount(n),
        _ => Feed::Output(n),
    }
}

// `-`, `src:N`, `amt:SLOT`, `out:SLOT`
pub fn feed(w: &[u8]) -> Feed {
    if trace_input_session::is(w, b"-") {
        return Feed::Nothing;
    }
    let i = trace_input_session::index(b"src amt out", trace_input_session::before(w, b':'));
    feed_of(i, number(trace_input_session::after(w, b':')))
}

// ---- slots

// a source's number, or `-`
pub fn pick(w: &[u8]) -> Option<usize> {
    if trace_input_session::is(w, b"-") {
        return None;
    }
    Some(number(w))
}

// a target, or `-`
pub fn aim(w: &[u8]) -> Option<Target> {
    if trace_input_session::is(w, b"-") {
        return None;
    }
    Some(target(w))
}

// `u` or `b`
pub fn polarity(w: &[u8]) -> Polarity {
    if trace_input_session::is(w, b"u") {
        return Polarity::Unipolar;
    }
    Polarity::Bipolar
}
