// What a scenario is made of, by rules: sources, destinations, a matrix and signals.
use config::{Config, DESTINATIONS, FRAMES, SLOTS, SOURCES, VOICES};
use curve_table::Curve;
use refusal::Refusal;
use state::{
    Destinations, Feed, Kind, Matrix, Polarity, Range, Rate, Scope, Signals, Slot, Sources, Target,
    Wiring,
};

// the signals of a scenario, as many as the benchmark of the Rust has
pub const SIGNALS: usize = 64;

// How many routes into how many destinations, which are at audio rate or at control rate; whether routes have curves,
// slews and an aux, and destinations feed; voices there are, and voices that sound; frames of a block, and buffers that
// the signals share; which call is made (1 `set_base`, 2 `set_held`, 3 `note_on`), how often, and how many blocks then;
// what else is so, one of the numbers below.
#[derive(Clone, Copy)]
pub struct Scene {
    pub slots: usize,
    pub dests: usize,
    pub audio: bool,
    pub rich: bool,
    pub voices: usize,
    pub active: usize,
    pub frames: usize,
    pub buffers: usize,
    pub call: usize,
    pub calls: usize,
    pub blocks: usize,
    pub also: usize,
}

// ---- what else is so of a scenario; 0 where nothing is

// of rich slots every other one is plain
const EVERY_OTHER: usize = 1;
// sources 2 and 3 are velocity and key, and both glide in every voice
pub const GLIDES: usize = 2;
// a note starts before every block
pub const NOTES: usize = 3;
// destinations are global
const GLOBAL: usize = 4;
// a preset with slots of all kinds: its own sources, destinations and slots
const PRESET: usize = 5;

// What a scenario's program is compiled of, and the first refusal.
// No Result: a benchmark goes on with what it has.
#[derive(Clone, Copy)]
pub struct Gathered {
    pub code: u8,
    pub wiring: Wiring,
}

// A registry of sources, and the first refusal.
// No Result: a benchmark goes on with what it has.
#[derive(Clone, Copy)]
struct Named {
    code: u8,
    sources: Sources,
}

// A registry of destinations, and the first refusal.
// No Result: a benchmark goes on with what it has.
#[derive(Clone, Copy)]
struct Reached {
    code: u8,
    dests: Destinations,
}

// ---- numbers

// the first refusal of two
pub fn first(a: u8, b: u8) -> u8 {
    if a != 0 {
        return a;
    }
    b
}

// x, at most a limit
fn at_most(x: usize, limit: usize) -> usize {
    if limit < x {
        return limit;
    }
    x
}

// number i, at most a limit; 0 where it is missing
fn entry(xs: &[usize], i: usize, limit: usize) -> usize {
    if i < xs.len() {
        return at_most(xs[i], limit);
    }
    0
}

// A scenario of its numbers.
pub fn of_numbers(xs: &[usize]) -> Scene {
    let slots = entry(xs, 0, SLOTS);
    let dests = entry(xs, 1, SLOTS);
    let audio = entry(xs, 2, 1);
    let rich = entry(xs, 3, 1);
    let voices = entry(xs, 4, VOICES);
    let active = entry(xs, 5, VOICES);
    let frames = entry(xs, 6, FRAMES);
    let buffers = entry(xs, 7, SIGNALS);
    let call = entry(xs, 8, 3);
    let calls = entry(xs, 9, 4294967296);
    let blocks = entry(xs, 10, 4294967296);
    let also = entry(xs, 11, PRESET);
    Scene {
        slots,
        dests,
        audio: audio == 1,
        rich: rich == 1,
        voices,
        active,
        frames,
        buffers,
        call,
        calls,
        blocks,
        also,
    }
}

fn config_of(s: Scene) -> Config {
    Config {
        sample_rate: 48000.0,
        max_frames: s.frames,
        voices: s.voices,
    }
}

// ---- sources: signals per voice; the last four are held in a rich scenario

fn preset_kind(i: usize) -> Kind {
    match i {
        4 | 5 => Kind::Held,
        6 => Kind::Velocity,
        7 => Kind::Key,
        8 => Kind::Random,
        9 => Kind::RandomPerRoute,
        10 => Kind::Constant,
        _ => Kind::Signal,
    }
}

fn glide_kind(i: usize) -> Kind {
    match i {
        2 => Kind::Velocity,
        3 => Kind::Key,
        _ => Kind::Signal,
    }
}

fn kind_of(i: usize, s: Scene) -> Kind {
    if s.also == PRESET {
        return preset_kind(i);
    }
    if s.also == GLIDES {
        return glide_kind(i);
    }
    if s.rich && SIGNALS - 4 <= i {
        return Kind::Held;
    }
    Kind::Signal
}

// whether source i is global: of a preset a signal and two that are held
fn is_global(i: usize, s: Scene) -> bool {
    s.also == PRESET && 3 <= i && i <= 5
}

fn source_scope(i: usize, s: Scene) -> Scope {
    if is_global(i, s) {
        return Scope::Global;
    }
    Scope::Voice
}

fn range_of(i: usize, s: Scene) -> Range {
    if s.also == PRESET && i == 0 {
        return Range::Bipolar;
    }
    Range::Unipolar
}

fn with_source(from: Sources, i: usize, s: Scene) -> Named {
    let key = [(i % SOURCES) as u8];
    let added = source::add(
        from,
        &key,
        kind_of(i, s),
        source_scope(i, s),
        range_of(i, s),
    );
    match added {
        Err(refusal) => Named {
            code: refusal.number(),
            sources: from,
        },
        Ok(added) => {
            let sources = added.sources;
            Named { code: 0, sources }
        }
    }
}

fn sources_of(s: Scene) -> Named {
    let mut sources = source::new();
    let mut code = 0u8;
    for i in 0..SIGNALS {
        let a = with_source(sources, i, s);
        code = first(code, a.code);
        let next = a.sources;
        sources = next;
    }
    Named { code, sources }
}

// ---- destinations, from -1 to 1; per voice, unless all are global, or it is one of two of a preset

fn dest_scope(d: usize, s: Scene) -> Scope {
    if s.also == GLOBAL {
        return Scope::Global;
    }
    if s.also == PRESET && (d == 3 || d == 7) {
        return Scope::Global;
    }
    Scope::Voice
}

// of a preset two are at audio rate and the last goes by what reaches it
fn preset_rate(d: usize) -> Rate {
    match d {
        0 | 1 => Rate::Audio,
        9 => Rate::Adaptive,
        _ => Rate::Control,
    }
}

fn rate_of(d: usize, s: Scene) -> Rate {
    if s.also == PRESET {
        return preset_rate(d);
    }
    if s.audio {
        return Rate::Audio;
    }
    Rate::Control
}

// in a rich scenario 12 feeds a source that is read on the way to 14, 14 the output of a slot of 6, 15 a source that is
// read on the way to 13, and 13 the amount of a slot of 5
fn rich_feed(d: usize) -> Feed {
    match d {
        12 => Feed::Source(62),
        13 => Feed::Amount(5),
        14 => Feed::Output(6),
        15 => Feed::Source(61),
        _ => Feed::Nothing,
    }
}

// of a preset 7 feeds the amount of slot 0
fn feed_of(d: usize, s: Scene) -> Feed {
    if s.also == PRESET && d == 7 {
        return Feed::Amount(0);
    }
    if s.rich {
        return rich_feed(d);
    }
    Feed::Nothing
}

fn with_dest(from: Destinations, d: usize, s: Scene) -> Reached {
    let target = Target::Param((d % DESTINATIONS) as u32);
    let added = dest::add(
        from,
        target,
        dest_scope(d, s),
        rate_of(d, s),
        -1.0,
        1.0,
        feed_of(d, s),
    );
    match added {
        Err(refusal) => Reached {
            code: refusal.number(),
            dests: from,
        },
        Ok(added) => {
            let dests = added.dests;
            Reached { code: 0, dests }
        }
    }
}

fn dests_of(s: Scene) -> Reached {
    let n = s.dests;
    let mut dests = dest::new();
    let mut code = 0u8;
    for d in 0..n {
        let a = with_dest(dests, d, s);
        code = first(code, a.code);
        let next = a.dests;
        dests = next;
    }
    Reached { code, dests }
}

// ---- the matrix: slot n goes from source n to destination n modulo their number

fn polarity_of(n: usize) -> Polarity {
    if n % 2 == 0 {
        return Polarity::Unipolar;
    }
    Polarity::Bipolar
}

fn target_of(n: usize, dests: usize) -> Target {
    if dests == 0 {
        return Target::Param(0);
    }
    Target::Param((n % dests % DESTINATIONS) as u32)
}

fn plain_slot(n: usize, dests: usize) -> Slot {
    let amount = (number::nearest_u64_to_f32(n as u64) - 31.5) / 64.0;
    let destination = Some(target_of(n, dests));
    let polarity = polarity_of(n);
    Slot {
        source: Some(n),
        source_curve: Curve::Linear,
        amount,
        polarity,
        destination,
        aux: None,
        aux_invert: false,
        aux_curve: Curve::Linear,
        output: 1.0,
        bypass: false,
    }
}

// a plain slot with an aux, two tables, their slews and an output
fn rich_slot(n: usize, dests: usize) -> Slot {
    let x = number::nearest_u64_to_f32(n as u64);
    let amount = (x - 31.5) / 64.0;
    let destination = Some(target_of(n, dests));
    let polarity = polarity_of(n);
    let rise = 0.001 + x / 6400.0;
    let output = 0.5 + x / 128.0;
    let aux = (n % SIGNALS + 7) % SIGNALS;
    Slot {
        source: Some(n),
        source_curve: Curve::Table { rise, fall: 0.01 },
        amount,
        polarity,
        destination,
        aux: Some(aux),
        aux_invert: n % 3 == 0,
        aux_curve: Curve::Table {
            rise: 0.02,
            fall: rise,
        },
        output,
        bypass: false,
    }
}

// ---- the slots of a preset

const PRESET_SLOTS: usize = 12;

const PRESET_SOURCE: [usize; PRESET_SLOTS] = [0, 1, 6, 7, 5, 8, 9, 2, 3, 0, 10, 4];

const PRESET_DEST: [usize; PRESET_SLOTS] = [0, 1, 2, 1, 3, 4, 5, 6, 1, 8, 9, 7];

// which slots have an aux: 0 that of the wheel, 7 and 9 that of velocity
fn preset_aux(n: usize) -> Option<usize> {
    match n {
        0 => Some(4),
        7 | 9 => Some(6),
        _ => None,
    }
}

// which have a table, and of these which a slew
fn preset_curve(n: usize) -> Curve {
    match n {
        2 => Curve::Table {
            rise: 0.0,
            fall: 0.0,
        },
        7 | 9 => Curve::Table {
            rise: 0.05,
            fall: 0.01,
        },
        _ => Curve::Linear,
    }
}

fn preset_slot(n: usize) -> Slot {
    let i = n % PRESET_SLOTS;
    let plain = plain_slot(i, SLOTS);
    let d = PRESET_DEST[i];
    let destination = Some(target_of(d, SLOTS));
    let polarity = polarity_of(i);
    let source_curve = preset_curve(i);
    Slot {
        source: Some(PRESET_SOURCE[i]),
        source_curve,
        amount: plain.amount,
        polarity,
        destination,
        aux: preset_aux(i),
        aux_invert: i == 9,
        aux_curve: Curve::Linear,
        output: 1.0,
        bypass: false,
    }
}

// whether slot n has curves, slews and an aux
fn is_rich(n: usize, s: Scene) -> bool {
    if s.also == EVERY_OTHER {
        return s.rich && n % 2 == 0;
    }
    s.rich
}

fn slot_of(n: usize, s: Scene) -> Slot {
    if s.also == PRESET {
        return preset_slot(n);
    }
    if is_rich(n, s) {
        return rich_slot(n, s.dests);
    }
    plain_slot(n, s.dests)
}

fn matrix_of(s: Scene) -> Result<Matrix, Refusal> {
    let slots = s.slots;
    let mut m = matrix::new();
    for n in 0..slots {
        m = matrix::set_slot(m, n, slot_of(n, s))?;
    }
    Ok(m)
}

// whether note values glide, and a legato note sets its velocity
fn with_glides(m: Matrix, on: bool) -> Matrix {
    matrix::set_velocity_legato(matrix::set_glide(m, on), on)
}

// The scenario's registries, matrix and configuration.
pub fn gather(s: Scene) -> Gathered {
    let n = sources_of(s);
    let d = dests_of(s);
    let (number, slots) = match matrix_of(s) {
        Ok(matrix) => (0, matrix),
        Err(refusal) => (refusal.number(), matrix::new()),
    };
    let code = first(n.code, first(d.code, number));
    let matrix = with_glides(slots, s.also == GLIDES);
    let sources = n.sources;
    let dests = d.dests;
    let config = config_of(s);
    let wiring = Wiring {
        matrix,
        sources,
        dests,
        config,
    };
    Gathered { code, wiring }
}

// ---- signals: source i has buffer i modulo their number, a number for each frame and voice; a global one takes a
// number a frame

fn product(a: usize, b: usize) -> usize {
    draw::wrapping_mul(a as u64, b as u64) as usize
}

// where the buffer of source i begins
fn buffer_at(i: usize, buffers: usize, len: usize) -> usize {
    if buffers == 0 {
        return 0;
    }
    product(i % buffers, len)
}

// numbers of a frame
fn width_of(i: usize, s: Scene) -> usize {
    if is_global(i, s) {
        return 1;
    }
    s.voices
}

// Signals, and the number of the first call that was refused, or 0.
// No Result: a benchmark goes on with what it has.
#[derive(Clone, Copy)]
pub struct Bound {
    pub code: u8,
    pub signals: Signals,
}

// The scenario's signals.
pub fn signals_of(s: Scene) -> Bound {
    let voices = s.voices;
    let buffers = s.buffers;
    let len = product(s.frames, voices);
    let mut bound = engine::no_signals();
    let mut code = 0u8;
    for i in 0..SIGNALS {
        match engine::bind(bound, i, buffer_at(i, buffers, len), len, width_of(i, s)) {
            Ok(next) => bound = next,
            Err(r) => code = first(code, r.number()),
        }
    }
    Bound {
        code,
        signals: bound,
    }
}
