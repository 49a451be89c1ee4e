// The session language (docs/SESSIONS.md, The grammar): the commands, what may stand after each, and what a line is by
// them.
#![tactic(auto)]

ghost use Rattle.std.specs.Prelude.{◌≡◌, false, ◌+◌, ◌*◌, ◌<◌, ◌≤◌, [], drop, get_or, length};
ghost use Rattle.trace_grammar.specs.Commands.{command_at};
ghost use Rattle.trace_grammar.specs.Grammar.{after_class, ends_class, kind_at, line_of, rest_of};
ghost use Rattle.trace_input_session.specs.Lines.{is_blank, words_of};

use trace_grammar_kinds::Kind::{
    Draw, End, Entry, Feed, Fields, Flag, Key, Keys, Length, LengthOrLetter, Letter, MaybeWhole,
    Name, Number, Numbers, Part, Place, Program, Range, Rate, Samples, Scope, Source, SourceKind,
    Spec, Table, Target, Whole,
};
use trace_grammar_kinds::{Class, Kind};

// ---- commands

// Lines about the configuration and the registries.
#[derive(Clone, Copy)]
pub enum Registry {
    Config,
    Source,
    Dest,
    Newreg,
    Find,
}

// Lines about the matrix and its tables.
#[derive(Clone, Copy)]
pub enum Editing {
    Table,
    Slot,
    Note,
    Clear,
    MatrixPut,
}

// Lines that make programs and engines, and install programs.
#[derive(Clone, Copy)]
pub enum Making {
    Compile,
    Swap,
    Engine,
}

// Lines about what calls are lent, and how outputs print.
#[derive(Clone, Copy)]
pub enum Lending {
    MemoryLen,
    Print,
    Canon,
    Bind,
    Unbind,
    SignalPart,
}

// Lines that set something of the engine.
#[derive(Clone, Copy)]
pub enum Setting {
    SetHeld,
    SetVoiceHeld,
    SetBase,
    SetAmount,
    SetOutput,
    SetVoiceLimit,
    NoteOn,
    NoteOff,
    VoiceEnded,
    SetRng,
}

// Lines that print what the engine answers.
#[derive(Clone, Copy)]
pub enum Reading {
    Out,
    Latest,
    LatestAll,
    Ramp,
    IsActive,
    Rate,
}

// The commands.
#[derive(Clone, Copy)]
pub enum Command {
    Registry(Registry),
    Editing(Editing),
    Making(Making),
    Lending(Lending),
    Setting(Setting),
    Process,
    Reading(Reading),
    State,
    Memory,
    Standard,
}

// The commands, in the order of their words.
const COMMANDS: [Command; 39] = [
    Command::Registry(Registry::Config),
    Command::Registry(Registry::Source),
    Command::Registry(Registry::Dest),
    Command::Registry(Registry::Newreg),
    Command::Registry(Registry::Find),
    Command::Editing(Editing::Table),
    Command::Editing(Editing::Slot),
    Command::Editing(Editing::Note),
    Command::Editing(Editing::Clear),
    Command::Editing(Editing::MatrixPut),
    Command::Making(Making::Compile),
    Command::Making(Making::Swap),
    Command::Making(Making::Engine),
    Command::Lending(Lending::MemoryLen),
    Command::Lending(Lending::Print),
    Command::Lending(Lending::Canon),
    Command::Lending(Lending::Bind),
    Command::Lending(Lending::Unbind),
    Command::Lending(Lending::SignalPart),
    Command::Setting(Setting::SetHeld),
    Command::Setting(Setting::SetVoiceHeld),
    Command::Setting(Setting::SetBase),
    Command::Setting(Setting::SetAmount),
    Command::Setting(Setting::SetOutput),
    Command::Setting(Setting::SetVoiceLimit),
    Command::Setting(Setting::NoteOn),
    Command::Setting(Setting::NoteOff),
    Command::Setting(Setting::VoiceEnded),
    Command::Setting(Setting::SetRng),
    Command::Process,
    Command::Reading(Reading::Out),
    Command::Reading(Reading::Latest),
    Command::Reading(Reading::LatestAll),
    Command::Reading(Reading::Ramp),
    Command::Reading(Reading::IsActive),
    Command::Reading(Reading::Rate),
    Command::State,
    Command::Memory,
    Command::Standard,
];

// the command of a row
#[tactic(auto, unfolding(crate::specs::Commands::command_list))]
fn command_at(row: usize) -> Command
    ensures { result ≡ command_at row }
{
    if row < COMMANDS.len() {
        COMMANDS[row]
    } else {
        Command::Standard
    }
}

// ---- the table

// What may stand after the word that names a row, 7 places to a row.
const ROWS: [[Kind; 7]; 50] = [
    [Number, Whole, Whole, End, End, End, End], // config
    [Key, SourceKind, Scope, Range, End, End, End], // source
    [Target, Scope, Rate, Number, Number, Feed, End], // dest
    [End, End, End, End, End, End, End], // newreg
    [Key, End, End, End, End, End, End], // find
    [Name, Spec, End, End, End, End, End], // table
    [Whole, Fields, End, End, End, End, End], // slot
    [Table, Table, Flag, Flag, End, End, End], // note
    [End, End, End, End, End, End, End], // clear
    [Place, Entry, Number, End, End, End, End], // matrix_put
    [Name, End, End, End, End, End, End], // compile
    [Program, End, End, End, End, End, End], // swap
    [End, End, End, End, End, End, End], // engine
    [Kind::Memory, Length, End, End, End, End, End], // memory_len
    [Kind::Mode, End, End, End, End, End, End], // print
    [Flag, End, End, End, End, End, End], // canon
    [Whole, Whole, Samples, End, End, End, End], // bind
    [MaybeWhole, End, End, End, End, End, End], // unbind
    [Source, Part, Part, Whole, End, End, End], // signal_part
    [Whole, Number, End, End, End, End, End], // set_held
    [Whole, Whole, Number, End, End, End, End], // set_voice_held
    [Whole, Number, End, End, End, End, End], // set_base
    [Whole, Number, End, End, End, End, End], // set_amount
    [Whole, Number, End, End, End, End, End], // set_output
    [Whole, End, End, End, End, End, End], // set_voice_limit
    [Whole, Number, Number, Flag, Number, End, End], // note_on
    [Whole, Number, End, End, End, End, End], // note_off
    [Whole, End, End, End, End, End, End], // voice_ended
    [Draw, End, End, End, End, End, End], // set_rng
    [Whole, Whole, End, End, End, End, End], // process
    [MaybeWhole, Whole, End, End, End, End, End], // out
    [Whole, Whole, End, End, End, End, End], // latest
    [Whole, Whole, End, End, End, End, End], // latest_all
    [Whole, Whole, End, End, End, End, End], // ramp
    [Whole, End, End, End, End, End, End], // is_active
    [Whole, End, End, End, End, End, End], // rate
    [End, End, End, End, End, End, End], // state
    [End, End, End, End, End, End, End], // memory
    [Whole, Whole, Whole, Whole, Keys, End, End], // standard
    [Whole, Spec, End, End, End, End, End], // len of a table
    [Whole, Number, Spec, End, End, End, End], // put of a table
    [End, End, End, End, End, End, End], // lin of a table
    [End, End, End, End, End, End, End], // rev of a table
    [End, End, End, End, End, End, End], // sq of a table
    [Number, End, End, End, End, End, End], // const of a table
    [Whole, Number, Number, End, End, End, End], // step of a table
    [Whole, LengthOrLetter, Letter, End, End, End, End], // gen of a table
    [Numbers, End, End, End, End, End, End], // hex of a table
    [Numbers, End, End, End, End, End, End], // hex of `bind`
    [Whole, Whole, Letter, End, End, End, End], // gen of `bind`
];

// the kind at a place
fn kind_at(s: usize) -> Kind
    ensures { result ≡ kind_at s }
{
    if s / 7 < ROWS.len() {
        ROWS[s / 7][s % 7]
    } else {
        End
    }
}

// the place after a word at place s, by what comes after words of its kind
#[tactic(auto, unfolding(crate::specs::Grammar::after_class))]
fn after(class: Class, s: usize, w: &[u8]) -> usize
    requires { s < 350 }
    ensures { result ≡ after_class class s w.now }
{
    match class {
        Class::Repeated => s,
        Class::Spec => 7 * (39 + trace_grammar_kinds::spec_row(w)),
        Class::Samples => 7 * (48 + trace_grammar_kinds::samples_row(w)),
        Class::Letter if trace_grammar_kinds::is_letter(w) => s + 2,
        _ => s + 1,
    }
}

// whether a line may end before a place
#[tactic(auto, unfolding(crate::specs::Grammar::ends_class))]
fn may_end(class: Class) -> bool
    ensures { result ≡ ends_class class }
{
    matches!(class, Class::Repeated | Class::Optional | Class::Over)
}

// ---- lines

// What a line is.
#[derive(Clone, Copy)]
pub enum Line {
    // blank, or a comment
    Nothing,
    // a command, and how many words the line has
    Call { command: Command, words: usize },
    // after so many words another is missing, of a kind
    Missing { words: usize, kind: Kind },
    // word n is not of the kind that belongs there; the command is word 1
    Wrong { word: usize, kind: Kind },
}

// a line whose words are over, k of them, before place s
fn ended(s: usize, k: usize, row: usize) -> Line
    ensures { result ≡ rest_of s k (command_at row) [] }
{
    let kind = kind_at(s);
    if may_end(trace_grammar_kinds::class_of(kind)) {
        return Line::Call {
            command: command_at(row),
            words: k,
        };
    }
    Line::Missing { words: k, kind }
}

// the rest of a line, from the place of its word 2 on
fn rest(line: &[u8], from: usize, row: usize) -> Line
    requires { (row < 39) × (0 < from) × (from ≤ length line.now)
        × (from < length line.now → is_blank (get_or line.now from 0) ≡ false) }
    ensures { result ≡ rest_of (7 * row) 1 (command_at row) (words_of (drop from line.now)) }
{
    let mut s = 7 * row;
    let mut p = from;
    let mut k = 1usize;
    // Not a for: the step is a word.
    while p < line.len() {
        let w = trace_input_session::word_at(line, p);
        let kind = kind_at(s);
        if !trace_grammar_kinds::is_fit(kind, w) {
            return Line::Wrong { word: k + 1, kind };
        }
        s = after(trace_grammar_kinds::class_of(kind), s, w);
        p = trace_input_session::next(line, p);
        k += 1usize;
    }
    ended(s, k, row)
}

// What a line is: blank, a comment, a command with its words, or an error at a word.
pub fn line_of(line: &[u8]) -> Line
    ensures { result ≡ line_of line.now }
{
    let at = trace_input_session::skip(line, 0);
    if line.len() <= at {
        return Line::Nothing;
    }
    if line[at] == b'#' {
        return Line::Nothing;
    }
    let row = trace_grammar_kinds::command_row(trace_input_session::word_at(line, at));
    if COMMANDS.len() <= row {
        return Line::Wrong {
            word: 1,
            kind: Kind::Command,
        };
    }
    rest(line, trace_input_session::next(line, at), row)
}
