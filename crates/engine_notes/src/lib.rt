// What notes write into an engine's held numbers, and what they leave of what sounds. The definitions that contracts
// cite are in specs/Noting.antt and in the crate model.
#![tactic(auto)]

ghost use Rattle.std.specs.Prelude.{◌≡◌, true, cond, not, ◌||◌, [], ◌∷◌, ◌+◌, ◌*◌, ◌≤◌, ◌<◌, min, eqb, leb, ltb, set};
ghost use Rattle.config.specs.Sizes.{most_sources, most_voices, lane_stride};
ghost use Rattle.draw.specs.Xorshift.{step, draw_of};
ghost use Rattle.refusal.specs.Judge.{judged, ◌when◌};
ghost use Rattle.refusal.specs.Refusal.{code_of};
ghost use Rattle.curve_table.specs.Table.{cell_of, part_of, between, diagonal_at, lookup_of};
ghost use Rattle.list.specs.Rows.{row_at};
ghost use Rattle.slots_tables.specs.Tables.{places, tables_need};
ghost use Rattle.voice.specs.Notes.{value_of};
ghost use Rattle.number.specs.Number.{zero32, one32};
ghost use Rattle.model.specs.NoteCalls.{note_curve};
ghost use Rattle.engine_notes.specs.Noting.{note_kind, Inside, place_in, held_in, draws_in, randoms_in, alternate_by};
ghost use Rattle.engine_notes.specs.Noting.{alternates_in, value_in, notes_with, sound_on, held_on, sound_ended};

use config::{SOURCES, VOICES};
use curve_table::POINTS;
use refusal::Refusal;
use slots_tables::TABLES;
use state::{Kind, NoteCurve, SourceMark};
use voice::{Legato, Marks, Notes, Voices};

// ---- the lane of a voice

// How many sources there are, the numbers from one to the next, and the voice's lane.
#[derive(Clone, Copy)]
pub struct Lane {
    pub sources: usize,
    pub stride: usize,
    pub voice: usize,
}

// n, or SOURCES where it is more
fn held_sources(n: usize) -> usize
    ensures { result ≡ min n most_sources }
{
    if n < SOURCES {
        return n;
    }
    SOURCES
}

// a voice's lane
pub fn lane_of(sources: usize, voices: usize, voice: usize) -> Lane
    ensures { result ≡ record {
      sources = min sources most_sources;
      stride = lane_stride (min voices most_voices);
      voice = voice;
    } }
{
    Lane {
        sources: held_sources(sources),
        stride: config::lane_stride(voices),
        voice,
    }
}

// the lane's number of source i
fn place(lane: Lane, i: usize) -> usize
    requires { (lane.stride ≤ most_voices) × (lane.voice < most_voices) × (i < most_sources) }
    ensures { result ≡ place_in lane i }
{
    i * lane.stride + lane.voice
}

// ---- rows

// whether there is no such voice
pub fn no_voice(voices: usize, voice: usize) -> bool
    ensures { result ≡ leb (min voices most_voices) voice }
{
    if VOICES < voices {
        return VOICES <= voice;
    }
    voices <= voice
}

// whether the held numbers are too few
pub fn held_short(len: usize, sources: usize, voices: usize) -> bool
    ensures { result ≡ ltb len (lane_stride (min voices most_voices) * min sources most_sources) }
{
    let stride = config::lane_stride(voices);
    let many = held_sources(sources);
    len < stride * many
}

// whether the tables are too few
pub fn tables_short(len: usize, tabled: bool) -> bool
    ensures { result ≡ ltb len (cond tabled tables_need 0) }
{
    tabled && len < TABLES
}

// whether either memory of a note-on is too short
pub fn memory_short(held: usize, tables: usize, sources: usize, voices: usize, tabled: bool) -> bool
    ensures { result ≡ ltb held (lane_stride (min voices most_voices) * min sources most_sources)
        || ltb tables (cond tabled tables_need 0) }
{
    held_short(held, sources, voices) || tables_short(tables, tabled)
}

// rows 2, 6 and 14 of a note call
pub fn code(missing: bool, finite: bool, short: bool) -> Result<(), Refusal>
    ensures { code_of result ≡ judged (2 when missing ∷ 6 when not finite ∷ 14 when short ∷ []) }
{
    if missing {
        return Err(Refusal::Voice);
    }
    if !finite {
        return Err(Refusal::Number);
    }
    if short {
        return Err(Refusal::Memory);
    }
    Ok(())
}

// ---- note curves

// the diagonal at x
fn linear_at(x: f32) -> f32
    ensures { result ≡ between (diagonal_at (cell_of x)) (diagonal_at (cell_of x + 1)) (part_of x) }
{
    let p = curve_table::position(x);
    let i = curve_table::cell_at(p);
    let a = i as f32 / 512.0;
    let b = (i + 1) as f32 / 512.0;
    a + (b - a) * (p - i as f32)
}

// the table of a place at x
fn table_at(tables: &[f32], place: usize, x: f32) -> f32
    requires { place < places }
    ensures { result ≡ lookup_of (row_at tables.now 513 place) x }
{
    let p = curve_table::position(x);
    let i = curve_table::cell_at(p);
    let start = place * POINTS;
    let a = list::read(tables, start + i, state_registry::not_a_number());
    let b = list::read(tables, start + (i + 1), state_registry::not_a_number());
    a + (b - a) * (p - i as f32)
}

// what a note curve makes of x
pub fn note_curve(tables: &[f32], place: usize, curve: NoteCurve, x: f32) -> f32
    requires { place < places }
    ensures { result ≡ note_curve tables.now place curve x }
{
    match curve {
        NoteCurve::Linear => linear_at(x),
        NoteCurve::Table => table_at(tables, place, x),
    }
}

// ---- the kinds that a note writes

pub const VELOCITY: u8 = 1;

pub const KEY: u8 = 2;

pub const RELEASE: u8 = 3;

pub const RANDOM: u8 = 4;

pub const ALTERNATE: u8 = 5;

pub const INVERSE: u8 = 6;

fn alternate_kind(inverse: bool) -> u8
    ensures { result ≡ cond inverse 6 5 }
{
    if inverse {
        return INVERSE;
    }
    ALTERNATE
}

// a kind's number, or 0 where a note does not write it
// Not an enum: laws of the crate (proofs/KindNumbers) speak of the numbers.
fn note_kind(kind: Kind) -> u8
    ensures { result ≡ note_kind kind }
{
    match kind {
        Kind::Signal => 0,
        Kind::Audio => 0,
        Kind::Held => 0,
        Kind::Velocity => VELOCITY,
        Kind::Key => KEY,
        Kind::ReleaseVelocity => RELEASE,
        Kind::Random => RANDOM,
        Kind::Alternate { inverse } => alternate_kind(inverse),
        Kind::RandomPerRoute => 0,
        Kind::VoiceLoad => 0,
        Kind::Constant => 0,
    }
}

fn kind_of(mark: SourceMark) -> u8
    ensures { result ≡ note_kind mark.kind }
{
    let kind = mark.kind;
    note_kind(kind)
}

// ---- held numbers

// x at i where it is written
fn put(held: &mut [f32], on: bool, i: usize, x: f32)
    ensures { held.new ≡ cond on (set held.old i x) held.old }
{
    if !on {
        return;
    }
    if held.len() <= i {
        return;
    }
    held[i] = x;
}

// Every source of a kind takes x.
pub fn write_kind(held: &mut [f32], mark: [SourceMark; SOURCES], lane: Lane, kind: u8, x: f32)
    requires { Inside lane }
    ensures { held.new ≡ held_in mark lane kind x lane.sources held.old }
{
    let sources = lane.sources;
    for i in 0..sources {
        let m = mark[i];
        put(held, kind_of(m) == kind, place(lane, i), x);
    }
}

// the next state of the draws, where one is drawn
fn stepped(on: bool, draw: u64) -> u64
    ensures { result ≡ cond on (step draw) draw }
{
    if on {
        return draw::step(draw);
    }
    draw
}

// the number drawn at a state, where one is drawn
fn put_draw(held: &mut [f32], on: bool, i: usize, draw: u64)
    ensures { held.new ≡ cond on (set held.old i (draw_of draw)) held.old }
{
    if !on {
        return;
    }
    put(held, true, i, draw::draw(draw));
}

// Every random source takes a new draw; the state of the draws after.
pub fn write_randoms(held: &mut [f32], mark: [SourceMark; SOURCES], lane: Lane, draw: u64) -> u64
    requires { Inside lane }
    ensures { (result ≡ draws_in mark draw lane.sources)
        × (held.new ≡ randoms_in mark lane draw lane.sources held.old) }
{
    let sources = lane.sources;
    let mut last = draw;
    for i in 0..sources {
        let m = mark[i];
        let on = kind_of(m) == RANDOM;
        let next = stepped(on, last);
        put_draw(held, on, place(lane, i), next);
        last = next;
    }
    last
}

fn bit(on: bool) -> f32
    ensures { result ≡ cond on one32 zero32 }
{
    if on {
        return 1.0;
    }
    0.0
}

fn alternate_by(kind: u8, on: bool) -> f32
    ensures { result ≡ alternate_by kind on }
{
    if kind == INVERSE {
        return bit(!on);
    }
    bit(on)
}

// Every alternate source takes 1 or 0, the inverse ones the other way round.
pub fn write_alternates(held: &mut [f32], mark: [SourceMark; SOURCES], lane: Lane, on: bool)
    requires { Inside lane }
    ensures { held.new ≡ alternates_in mark lane on lane.sources held.old }
{
    let sources = lane.sources;
    for i in 0..sources {
        let m = mark[i];
        let kind = kind_of(m);
        put(
            held,
            ALTERNATE <= kind,
            place(lane, i),
            alternate_by(kind, on),
        );
    }
}

// ---- note values

// a voice's value
fn value_of(notes: Notes, voice: usize) -> f32
    ensures { result ≡ value_of notes voice }
{
    if VOICES <= voice {
        return state_registry::not_a_number();
    }
    let value = notes.value;
    value[voice]
}

// A value that a note takes, and that does not glide, is written to the sources of its kind.
fn write_value(
    held: &mut [f32],
    mark: [SourceMark; SOURCES],
    lane: Lane,
    kind: u8,
    takes: bool,
    notes: Notes,
    target: f32,
    time: Legato,
)
    requires { Inside lane }
    ensures { held.new ≡ value_in mark lane kind takes notes target time held.old }
{
    if !takes {
        return;
    }
    if voice::glides_to(value_of(notes, lane.voice), target, time) {
        return;
    }
    write_kind(held, mark, lane, kind, target);
}

// the values, once a note has set the voice's
fn notes_with(
    notes: Notes,
    voice: usize,
    takes: bool,
    target: f32,
    time: Legato,
    rate: f32,
) -> Notes
    ensures { result ≡ notes_with notes voice takes target time rate }
{
    if !takes {
        return notes;
    }
    notes.set(voice, target, time, rate)
}

// ---- a note

// What a note changes of an engine.
#[derive(Clone, Copy)]
pub struct Sounding {
    pub voices: Voices,
    pub marks: Marks,
    pub velocity: Notes,
    pub key: Notes,
    pub alternate: bool,
    pub draw: u64,
}

// What a note sets: its values with their time at a sample rate, and whether it takes the velocity.
#[derive(Clone, Copy)]
pub struct Setting {
    pub legato: bool,
    pub time: Legato,
    pub rate: f32,
    pub takes: bool,
    pub velocity: f32,
    pub key: f32,
}

// the held numbers that a note writes; the state of the draws after
fn write_note(
    held: &mut [f32],
    mark: [SourceMark; SOURCES],
    lane: Lane,
    sounding: Sounding,
    setting: Setting,
) -> u64
    requires { Inside lane }
    ensures { (result ≡ draws_in mark sounding.draw lane.sources)
        × (held.new ≡ held_on mark lane sounding setting held.old) }
{
    let time = setting.time;
    let velocity = sounding.velocity;
    write_value(
        held,
        mark,
        lane,
        VELOCITY,
        setting.takes,
        velocity,
        setting.velocity,
        time,
    );
    let key = sounding.key;
    write_value(held, mark, lane, KEY, true, key, setting.key, time);
    let draw = write_randoms(held, mark, lane, sounding.draw);
    write_alternates(held, mark, lane, !sounding.alternate);
    write_kind(held, mark, lane, RELEASE, 0.0);
    draw
}

// A note starts in the lane.
pub fn note_on(
    held: &mut [f32],
    mark: [SourceMark; SOURCES],
    lane: Lane,
    sounding: Sounding,
    setting: Setting,
) -> Sounding
    requires { Inside lane }
    ensures { (result ≡ sound_on mark lane sounding setting)
        × (held.new ≡ held_on mark lane sounding setting held.old) }
{
    let draw = write_note(held, mark, lane, sounding, setting);
    let voice = lane.voice;
    let time = setting.time;
    let rate = setting.rate;
    let voices = sounding.voices;
    let marks = sounding.marks;
    let velocity = sounding.velocity;
    let key = sounding.key;
    Sounding {
        voices: voices.note_on(voice),
        marks: marks.note_on(voice, setting.legato),
        velocity: notes_with(velocity, voice, setting.takes, setting.velocity, time, rate),
        key: notes_with(key, voice, true, setting.key, time, rate),
        alternate: !sounding.alternate,
        draw,
    }
}

// A voice stops sounding.
fn stopped(sounding: Sounding, voice: usize) -> Sounding
    ensures { result ≡ sound_ended sounding voice }
{
    let voices = sounding.voices;
    let marks = sounding.marks;
    let velocity = sounding.velocity;
    let key = sounding.key;
    Sounding {
        voices: voices.voice_ended(voice),
        marks: marks.voice_ended(voice),
        velocity: velocity.voice_ended(voice),
        key: key.voice_ended(voice),
        alternate: sounding.alternate,
        draw: sounding.draw,
    }
}

// ---- a call that was judged so: it does something where it is accepted

// The release velocity of the lane's note.
pub fn released(
    judged: Result<(), Refusal>,
    held: &mut [f32],
    mark: [SourceMark; SOURCES],
    lane: Lane,
    x: f32,
)
    requires { code_of judged ≡ 0 → Inside lane }
    ensures { held.new ≡ cond (eqb (code_of judged) 0) (held_in mark lane 3 x lane.sources held.old)
        held.old }
{
    if judged.is_err() {
        return;
    }
    write_kind(held, mark, lane, RELEASE, x);
}

// What sounds once the voice has stopped.
pub fn ended(judged: Result<(), Refusal>, sounding: Sounding, voice: usize) -> Sounding
    ensures { result ≡ cond (eqb (code_of judged) 0) (sound_ended sounding voice) sounding }
{
    if judged.is_err() {
        return sounding;
    }
    stopped(sounding, voice)
}
