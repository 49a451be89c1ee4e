// The kinds of words of the session language (docs/SESSIONS.md, Kinds of words), and which words are of which kind.
#![tactic(auto)]

ghost use Rattle.std.specs.Prelude.{◌≡◌};
ghost use Rattle.std.specs.Option.{is_some};
ghost use Rattle.trace_grammar_kinds.specs.Kinds.{class_of, fits, is_aim, is_bus, is_curve, is_draw};
ghost use Rattle.trace_grammar_kinds.specs.Kinds.{is_feed, is_field, is_length, is_length_or_letter, is_of, is_part};
ghost use Rattle.trace_grammar_kinds.specs.Kinds.{is_pick, is_slew, is_target, is_value};
ghost use Rattle.trace_grammar_kinds.specs.Texts.{commands, letters, samples, specs};
ghost use Rattle.trace_input_session.specs.Lines.{index_of, words_of};
ghost use Rattle.trace_input_session.specs.Words.{float_of, whole_of, whole_to};

use config::{SLOTS, SOURCES};
use curve_table::POINTS;

// the last place of a table: two a slot, then the two of the note curves
pub const LAST_PLACE: usize = 2 * SLOTS + 1;

// the last entry of a table
pub const LAST_ENTRY: usize = POINTS - 1;

// the last number of a source
pub const LAST_SOURCE: usize = SOURCES - 1;

// What may stand at a place of a line.
#[derive(Clone, Copy)]
pub enum Kind {
    // no word: the line is over
    End,
    // a whole number
    Whole,
    // a whole number, or the end of the line
    MaybeWhole,
    // the place of a table: a whole number up to LAST_PLACE
    Place,
    // the entry of a table: a whole number up to LAST_ENTRY
    Entry,
    // the number of a source: a whole number up to LAST_SOURCE
    Source,
    // a number
    Number,
    // any count of numbers
    Numbers,
    // 0 or 1
    Flag,
    // the key of a source
    Key,
    // any count of keys
    Keys,
    // a name for a table or a program
    Name,
    // the name of a table
    Table,
    // the name of a program
    Program,
    // `p:NUMBER` or `l:LFO:BUS`
    Target,
    // `-`, `src:SOURCE`, `amt:SLOT` or `out:SLOT`
    Feed,
    // any count of a slot's fields
    Fields,
    // 16 hexadecimal digits
    Draw,
    // `all`, `need`, `need-1` or a whole number up to 10^12
    Length,
    // `end`, `end+1` or a whole number
    Part,
    // a whole number, then the kind of a generator; or that kind at once
    LengthOrLetter,
    // the kind of a generator
    Letter,
    // a word that a table's numbers begin with
    Spec,
    // `hex` or `gen`
    Samples,
    // the kind of a source
    SourceKind,
    // `v` or `g`
    Scope,
    // `u` or `b`
    Range,
    // `audio`, `control` or `adaptive`
    Rate,
    // how outputs print
    Mode,
    // which memory
    Memory,
    // a command
    Command,
}

// What comes after a word.
#[derive(Clone, Copy)]
pub enum Class {
    // the next place of the row
    Single,
    // the same place, or the end of the line
    Repeated,
    // the row of a table's word
    Spec,
    // the row of a word for samples
    Samples,
    // the place after the next where the word is the kind of a generator, else the next
    Letter,
    // the next place; the line may end before the word
    Optional,
    // nothing: the line is over
    Over,
}

// ---- words of lists

// The place of a word among the commands; how many there are where it is none
pub fn command_row(w: &[u8]) -> usize
    ensures { result ≡ index_of commands w.now }
{
    trace_input_session::index(
        b"config source dest newreg find table slot note clear matrix_put compile swap engine memory_len print canon bind unbind signal_part set_held set_voice_held set_base set_amount set_output set_voice_limit note_on note_off voice_ended set_rng process out latest latest_all ramp is_active rate state memory standard",
        w,
    )
}

// The place of a word among those that a table's numbers begin with.
pub fn spec_row(w: &[u8]) -> usize
    ensures { result ≡ index_of specs w.now }
{
    trace_input_session::index(b"len put lin rev sq const step gen hex", w)
}

// The place of a word among those that samples begin with.
pub fn samples_row(w: &[u8]) -> usize
    ensures { result ≡ index_of samples w.now }
{
    trace_input_session::index(b"hex gen", w)
}

// ---- words of a kind

// whether a word is one of the n words of a list
fn is_of(list: &[u8], n: usize, w: &[u8]) -> bool
    ensures { result ≡ is_of (words_of list.now) n w.now }
{
    trace_input_session::index(list, w) < n
}

fn is_whole(w: &[u8]) -> bool
    ensures { result ≡ is_some (whole_of w.now) }
{
    trace_input_session::whole(w).is_some()
}

fn is_up_to(w: &[u8], most: u64) -> bool
    ensures { result ≡ is_some (whole_to most w.now) }
{
    trace_input_session::whole_to(w, most).is_some()
}

fn is_number(w: &[u8]) -> bool
    ensures { result ≡ is_some (float_of w.now) }
{
    trace_input_session::float(w).is_some()
}

// The kind of a generator.
pub fn is_letter(w: &[u8]) -> bool
    ensures { result ≡ is_of letters 6 w.now }
{
    is_of(b"u b t x y r", 6, w)
}

// `LFO:BUS`
#[tactic(auto, unfolding(crate::specs::Kinds::is_bus))]
fn is_bus(w: &[u8]) -> bool
    ensures { result ≡ is_bus w.now }
{
    is_up_to(trace_input_session::before(w, b':'), 255)
        && is_up_to(trace_input_session::after(w, b':'), 255)
}

// `p:NUMBER` or `l:LFO:BUS`
#[tactic(auto, unfolding(crate::specs::Kinds::is_target))]
fn is_target(w: &[u8]) -> bool
    ensures { result ≡ is_target w.now }
{
    let head = trace_input_session::before(w, b':');
    let rest = trace_input_session::after(w, b':');
    if trace_input_session::is(head, b"p") {
        return is_up_to(rest, 4294967295);
    }
    trace_input_session::is(head, b"l") && is_bus(rest)
}

// `-`, `src:SOURCE`, `amt:SLOT` or `out:SLOT`
#[tactic(auto, unfolding(crate::specs::Kinds::is_feed))]
fn is_feed(w: &[u8]) -> bool
    ensures { result ≡ is_feed w.now }
{
    if trace_input_session::is(w, b"-") {
        return true;
    }
    let head = trace_input_session::before(w, b':');
    let rest = trace_input_session::after(w, b':');
    if trace_input_session::is(head, b"src") {
        return is_up_to(rest, 65535);
    }
    is_of(b"amt out", 2, head) && is_up_to(rest, 255)
}

// `-`, or the number of a source
#[tactic(auto, unfolding(crate::specs::Kinds::is_pick))]
fn is_pick(w: &[u8]) -> bool
    ensures { result ≡ is_pick w.now }
{
    trace_input_session::is(w, b"-") || is_up_to(w, 65535)
}

// `-`, or a target
#[tactic(auto, unfolding(crate::specs::Kinds::is_aim))]
fn is_aim(w: &[u8]) -> bool
    ensures { result ≡ is_aim w.now }
{
    trace_input_session::is(w, b"-") || is_target(w)
}

// `RISE:FALL`
#[tactic(auto, unfolding(crate::specs::Kinds::is_slew))]
fn is_slew(w: &[u8]) -> bool
    ensures { result ≡ is_slew w.now }
{
    is_number(trace_input_session::before(w, b':'))
        && is_number(trace_input_session::after(w, b':'))
}

// `lin`, or `TABLE:RISE:FALL`
#[tactic(auto, unfolding(crate::specs::Kinds::is_curve))]
fn is_curve(w: &[u8]) -> bool
    ensures { result ≡ is_curve w.now }
{
    trace_input_session::is(w, b"lin") || is_slew(trace_input_session::after(w, b':'))
}

// the value of field i: src aux dst amt out pol inv byp sc ac
#[tactic(auto, unfolding(crate::specs::Kinds::is_value))]
fn is_value(i: usize, v: &[u8]) -> bool
    ensures { result ≡ is_value i v.now }
{
    match i {
        0 | 1 => is_pick(v),
        2 => is_aim(v),
        3 | 4 => is_number(v),
        5 => is_of(b"u b", 2, v),
        6 | 7 => is_of(b"0 1", 2, v),
        8 | 9 => is_curve(v),
        _ => false,
    }
}

// `FIELD=VALUE`
#[tactic(auto, unfolding(crate::specs::Kinds::is_field))]
fn is_field(w: &[u8]) -> bool
    ensures { result ≡ is_field w.now }
{
    let i = trace_input_session::index(
        b"src aux dst amt out pol inv byp sc ac",
        trace_input_session::before(w, b'='),
    );
    is_value(i, trace_input_session::after(w, b'='))
}

// 16 hexadecimal digits
#[tactic(auto, unfolding(crate::specs::Kinds::is_draw))]
fn is_draw(w: &[u8]) -> bool
    ensures { result ≡ is_draw w.now }
{
    w.len() == 16 && trace_input_session::all_hex(w)
}

// `all`, `need`, `need-1`, or a whole number up to 10^12
#[tactic(auto, unfolding(crate::specs::Kinds::is_length))]
fn is_length(w: &[u8]) -> bool
    ensures { result ≡ is_length w.now }
{
    is_of(b"all need need-1", 3, w) || is_up_to(w, 1000000000000)
}

// `end`, `end+1`, or a whole number
#[tactic(auto, unfolding(crate::specs::Kinds::is_part))]
fn is_part(w: &[u8]) -> bool
    ensures { result ≡ is_part w.now }
{
    is_of(b"end end+1", 2, w) || is_whole(w)
}

// the kind of a generator, or a whole number
#[tactic(auto, unfolding(crate::specs::Kinds::is_length_or_letter))]
fn is_length_or_letter(w: &[u8]) -> bool
    ensures { result ≡ is_length_or_letter w.now }
{
    is_letter(w) || is_whole(w)
}

// Whether a word is of a kind.
#[tactic(auto, unfolding(crate::specs::Kinds::fits))]
pub fn is_fit(kind: Kind, w: &[u8]) -> bool
    ensures { result ≡ fits kind w.now }
{
    match kind {
        Kind::End => false,
        Kind::Whole | Kind::MaybeWhole => is_whole(w),
        Kind::Place => is_up_to(w, LAST_PLACE as u64),
        Kind::Entry => is_up_to(w, LAST_ENTRY as u64),
        Kind::Source => is_up_to(w, LAST_SOURCE as u64),
        Kind::Number | Kind::Numbers => is_number(w),
        Kind::Flag => is_of(b"0 1", 2, w),
        Kind::Key | Kind::Keys | Kind::Name | Kind::Table | Kind::Program => true,
        Kind::Target => is_target(w),
        Kind::Feed => is_feed(w),
        Kind::Fields => is_field(w),
        Kind::Draw => is_draw(w),
        Kind::Length => is_length(w),
        Kind::Part => is_part(w),
        Kind::LengthOrLetter => is_length_or_letter(w),
        Kind::Letter => is_letter(w),
        Kind::Spec => is_of(b"len put lin rev sq const step gen hex", 9, w),
        Kind::Samples => is_of(b"hex gen", 2, w),
        Kind::SourceKind => is_of(
            b"signal audio held velocity key release random alt altinv routerandom load constant",
            12,
            w,
        ),
        Kind::Scope => is_of(b"v g", 2, w),
        Kind::Range => is_of(b"u b", 2, w),
        Kind::Rate => is_of(b"audio control adaptive", 3, w),
        Kind::Mode => is_of(b"full hash cases none", 4, w),
        Kind::Memory => is_of(
            b"held globals bases values audio tables matrix_tables out engine",
            9,
            w,
        ),
        Kind::Command => command_row(w) < 39,
    }
}

// What comes after a word of a kind (specs/Kinds.antt, class_of).
#[tactic(auto, unfolding(crate::specs::Kinds::class_of))]
pub fn class_of(kind: Kind) -> Class
    ensures { result ≡ class_of kind }
{
    match kind {
        Kind::End => Class::Over,
        Kind::MaybeWhole => Class::Optional,
        Kind::Numbers | Kind::Keys | Kind::Fields => Class::Repeated,
        Kind::LengthOrLetter => Class::Letter,
        Kind::Spec => Class::Spec,
        Kind::Samples => Class::Samples,
        _ => Class::Single,
    }
}
