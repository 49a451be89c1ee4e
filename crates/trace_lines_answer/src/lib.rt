// A line in hand: what is printed above its answers, where it is refused, and where it ends the session (docs/SESSIONS.md, How a line reads).
#![tactic(auto)]

ghost use Rattle.std.specs.Prelude.{◌≡◌, if◌then◌else◌};
ghost use Rattle.trace_lines_answer.specs.Endings.{after_stop, Begun, stop_of, cut_stop, status_of, passed_over};

mod absent;
mod faults;

use absent::Absent;
use std::io::Stdout;
use trace_grammar::Line;
use trace_setup_preset::Answer;
use trace_stops::{Fault, Limit, Stop};
use trace_store_book::PRINT;

// ---- what is printed

// Whether no answers are printed.
pub fn is_quiet(book: &[usize]) -> bool {
    trace_store_book::get(book, PRINT) == 2
}

// the `@LINE word` above a line's answers
fn head(stdout: Stdout, number: u64, w: &[u8], out: &mut [u8], at: usize) -> usize {
    let mut p = trace_output_show::whole_after(stdout, out, at, b"@", number);
    p = trace_output_show::put(stdout, out, p, b" ");
    p = trace_output_show::put(stdout, out, p, w);
    trace_output_show::put(stdout, out, p, b"\n")
}

// the same, where something stands there: nothing above a line `print`, and where no answers are printed
fn headed(
    stdout: Stdout,
    said: Line,
    number: u64,
    w: &[u8],
    book: &[usize],
    out: &mut [u8],
    at: usize,
) -> usize {
    if !has_head(said) {
        return at;
    }
    if trace_input_session::is(w, b"print") {
        return at;
    }
    if is_quiet(book) {
        return at;
    }
    head(stdout, number, w, out, at)
}

fn numbered(stdout: Stdout, name: &[u8], n: usize, out: &mut [u8], at: usize) -> usize {
    let p = trace_output_show::whole_after(stdout, out, at, name, n as u64);
    trace_output_show::put(stdout, out, p, b"\n")
}

// what a line about the configuration and the registries prints
fn registered(stdout: Stdout, answer: Answer, out: &mut [u8], at: usize) -> usize {
    match answer {
        Answer::Config { stride, chunks } => {
            let p = trace_output_show::whole_after(
                stdout,
                out,
                at,
                b"CONFIG stride ",
                stride as u64,
            );
            numbered(stdout, b" chunks ", chunks, out, p)
        }
        Answer::Source(id) => numbered(stdout, b"SOURCE ", id, out, at),
        Answer::Dest(id) => numbered(stdout, b"DEST ", id, out, at),
        Answer::Cleared => at,
        Answer::Found(None) => trace_output_show::put(stdout, out, at, b"FIND none\n"),
        Answer::Found(Some(id)) => numbered(stdout, b"FIND ", id, out, at),
    }
}

// what there is of a thing that a session needs more of
fn room(limit: Limit) -> &'static [u8] {
    match limit {
        Limit::Tables => b"there are 128 tables, with names of at most 63 bytes\n",
        Limit::TableNumbers => b"there are 60,000 numbers for named tables\n",
        Limit::Programs => b"there are 9 programs, with names of at most 63 bytes\n",
        Limit::Numbers => {
            b"there are 125,000 numbers for values, 666,000 for audio rows, 750,976 for tables and samples\n"
        }
        Limit::LineBytes => b"there are 65,536 bytes for a line\n",
        Limit::Keys => b"there are 256 audio keys, of 8,192 bytes in all\n",
    }
}

// what is said of an error that is no word of the line
fn error(fault: Fault) -> &'static [u8] {
    match fault {
        Fault::NoEntry => b"the table has no such entry\n",
        _ => b"the input can't be read\n",
    }
}

// what stands before the words by which the session ends at a line
fn at_line(stdout: Stdout, name: &[u8], number: u64, out: &mut [u8], at: usize) -> usize {
    let p = trace_output_show::whole_after(stdout, out, at, name, number);
    trace_output_show::put(stdout, out, p, b": ")
}

// The number by which a line was refused, or the words by which the session ends.
pub fn stopped(stdout: Stdout, stop: Stop, number: u64, out: &mut [u8], at: usize) -> usize {
    match stop {
        Stop::Refused(row) => numbered(stdout, b"REFUSED ", row.number() as usize, out, at),
        Stop::Error(fault) => {
            let p = at_line(stdout, b"ERROR line ", number, out, at);
            trace_output_show::put(stdout, out, p, error(fault))
        }
        Stop::TooLarge(limit) => {
            let p = at_line(stdout, b"TOO LARGE line ", number, out, at);
            trace_output_show::put(stdout, out, p, room(limit))
        }
    }
}

// ---- how a session ends

// Whether a session ends so: not by a refusal.
pub fn ends(stop: Option<Stop>) -> bool {
    matches!(stop, Some(Stop::Error(_) | Stop::TooLarge(_)))
}

// What a session has come to after a line: the line's stop, or the one before where the line has none.
#[tactic(auto, unfolding(crate::specs::Endings::after_stop))]
pub fn after(before: Option<Stop>, stop: Option<Stop>) -> Option<Stop>
    ensures { result ≡ after_stop before stop }
{
    match stop {
        None => before,
        Some(_) => stop,
    }
}

// The digit that says how a session ended that came to this: 0, all was accepted; 1, an error; 3, too large; 4, output
// was lost; 5, some call was refused.
#[tactic(auto, unfolding(crate::specs::Endings::status_of, crate::specs::Endings::ending_of))]
pub fn status(stop: Option<Stop>, lost: bool) -> u8
    ensures { result ≡ status_of stop lost }
{
    if lost {
        return 4;
    }
    match stop {
        None => 0,
        Some(Stop::Refused(_)) => 5,
        Some(Stop::Error(_)) => 1,
        Some(Stop::TooLarge(_)) => 3,
    }
}

// What stops a session that came to this and whose input can't be read to its end, where `failed` says so.
pub fn unread(stop: Option<Stop>, failed: bool) -> Option<Stop> {
    if failed && !ends(stop) {
        return Some(Stop::Error(Fault::Unread));
    }
    None
}

// What a line that came to this prints; nothing where nothing stops it
pub fn told(stdout: Stdout, stop: Option<Stop>, number: u64, out: &mut [u8], at: usize) -> usize {
    match stop {
        None => at,
        Some(s) => stopped(stdout, s, number, out, at),
    }
}

// ---- a line in hand

// A line in hand: its number, and what it is; `at` bytes of output wait. `stop`: by which it ends the session before its
// call is made, where it does.
#[derive(Clone, Copy)]
pub struct Hand {
    pub at: usize,
    pub number: u64,
    pub stop: Option<Stop>,
    pub said: Line,
}

// What a line about the configuration and the registries prints.
pub fn put_changed(
    h: Hand,
    answer: Answer,
    book: &[usize],
    stdout: Stdout,
    out: &mut [u8],
) -> usize {
    if is_quiet(book) {
        return h.at;
    }
    registered(stdout, answer, out, h.at)
}

const MALFORMED: Stop = Stop::Error(Fault::Malformed);

const LONG_LINE: Stop = Stop::TooLarge(Limit::LineBytes);

// what stops a cut line whose error is at word n
#[tactic(auto, unfolding(crate::specs::Endings::cut_stop))]
fn cut(n: usize) -> Stop
    ensures { result ≡ cut_stop n }
{
    if n == 1 { MALFORMED } else { LONG_LINE }
}

// what stops a line, whole where `all` says so; nothing where it is a call, blank or a comment
#[tactic(auto, unfolding(crate::specs::Endings::stop_of))]
fn stop_of(said: Line, all: bool) -> Option<Stop>
    ensures { result ≡ stop_of said all }
{
    match said {
        Line::Nothing => None,
        Line::Call { .. } => if all { None } else { Some(LONG_LINE) },
        Line::Missing { .. } => Some(if all { MALFORMED } else { LONG_LINE }),
        Line::Wrong { word, .. } => Some(if all { MALFORMED } else { cut(word) }),
    }
}

// Whether a line in hand is passed over: it is blank or a comment, and does not end the session.
#[tactic(auto, unfolding(crate::specs::Endings::passed_over))]
pub fn is_passed_over(h: Hand) -> bool
    ensures { result ≡ passed_over h.stop h.said }
{
    h.stop.is_none() && matches!(h.said, Line::Nothing)
}

// whether something stands above a line's answers: nothing above a word that is no command
fn has_head(said: Line) -> bool {
    match said {
        Line::Nothing => false,
        Line::Call { .. } | Line::Missing { .. } => true,
        Line::Wrong { word, .. } => word != 1,
    }
}

// the words by which a line ends the session
fn ended(
    stdout: Stdout,
    stop: Stop,
    said: Line,
    number: u64,
    line: &[u8],
    out: &mut [u8],
    at: usize,
) -> usize {
    if let Stop::TooLarge(_) = stop {
        return stopped(stdout, stop, number, out, at);
    }
    let p = at_line(stdout, b"ERROR line ", number, out, at);
    faults::put(stdout, said, line, out, p)
}

// what a line that nothing stops so far names that is not there
fn missed(stop: Option<Stop>, said: Line, line: &[u8], book: &[usize]) -> Result<(), Absent> {
    match said {
        Line::Call { command, .. } if stop.is_none() => absent::of(command, line, book),
        _ => Ok(()),
    }
}

// what is said where a line ends the session: of its words, or of what is not there
fn put_stop(
    stdout: Stdout,
    stop: Option<Stop>,
    there: Result<(), Absent>,
    said: Line,
    number: u64,
    line: &[u8],
    out: &mut [u8],
    at: usize,
) -> usize {
    if let Some(s) = stop {
        return ended(stdout, s, said, number, line, out, at);
    }
    let Err(a) = there else {
        return at;
    };
    let p = at_line(stdout, b"ERROR line ", number, out, at);
    absent::put(stdout, a, line, out, p)
}

// what stops a line that names something that is not there
fn absent_stop(there: Result<(), Absent>) -> Option<Stop> {
    match there {
        Ok(()) => None,
        Err(_) => Some(Stop::Error(Fault::Absent)),
    }
}

// The line in hand, whole where `all` says so, once what stands above its answers is printed, and what ends the session
// there.
pub fn begun(
    at: usize,
    number: u64,
    all: bool,
    line: &[u8],
    book: &[usize],
    stdout: Stdout,
    out: &mut [u8],
) -> Hand
    ensures { Begun line.now all result }
{
    let said = trace_grammar::line_of(line);
    let w = trace_input_session::word(line, 0);
    let p = headed(stdout, said, number, w, book, out, at);
    let words = stop_of(said, all);
    let there = missed(words, said, line, book);
    let q = put_stop(stdout, words, there, said, number, line, out, p);
    let stop = after(absent_stop(there), words);
    Hand {
        at: q,
        number,
        stop,
        said,
    }
}
