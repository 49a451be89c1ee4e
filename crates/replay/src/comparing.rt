// A line's answer, as printed, against the stored one. In a list a line that begins with = starts a new session, and one that begins with | is a line of the
// answer to the session line above it; lines that begin with # are passed over.
use std::io::Stdout;

// How far a list is: its answers so far, how many of them differ, and how many lines of the session have been answered. Of the last answer the bytes before
// `from` are as stored, and it is one that differs where `same` is not set.
#[derive(Clone, Copy)]
pub struct Tally {
    pub answers: u64,
    pub differ: u64,
    pub lines: u64,
    pub from: usize,
    pub same: bool,
}

// before any answer
pub fn none() -> Tally {
    Tally {
        answers: 0,
        differ: 0,
        lines: 0,
        from: 0,
        same: true,
    }
}

// how many differences are printed
const SHOWN: u64 = 5;

// where the line feed at the end of this text would stand behind the first `from` bytes, if it is before `at`; `at` where it is not
fn feed_at(from: usize, at: usize, text: &[u8]) -> usize {
    if at < from {
        return at;
    }
    if at - from <= text.len() {
        return at;
    }
    from + text.len()
}

// whether the output from `from` on, of which `at` bytes are there, begins with this line
fn begins(out: &[u8], from: usize, at: usize, text: &[u8]) -> bool {
    let e = feed_at(from, at, text);
    if at <= e || out.get(e) != Some(&b'\n') {
        return false;
    }
    trace_input_session::is(trace_input_session::part(out, from, e), text)
}

fn print(stdout: Stdout, number: u64, what: &[u8], text: &[u8]) {
    let mut to = stdout;
    streams::write(&mut to, b"line ");
    streams::write_decimal(&mut to, number);
    streams::write(&mut to, what);
    streams::write(&mut to, text);
    streams::write(&mut to, b"\n");
}

// the line of the output at a place
fn printed(out: &[u8], from: usize, at: usize) -> &[u8] {
    trace_input_session::part(out, from, trace_input_lines::line_end(out, from, at))
}

// the answer differs, which is printed where it is among the first that do
fn different(stdout: Stdout, t: Tally, number: u64, stored: &[u8], answered: &[u8]) -> Tally {
    let mut next = t;
    next.same = false;
    next.differ = std::num::wrapping_add_u64(t.differ, 1);
    if t.differ < SHOWN {
        print(stdout, number, b" of the list: stored ", stored);
        print(stdout, number, b" of the list: answered ", answered);
    }
    next
}

// with a stored line of the last answer
fn stored(t: Tally, number: u64, text: &[u8], stdout: Stdout, out: &[u8], at: usize) -> Tally {
    if !t.same {
        return t;
    }
    let from = t.from;
    if begins(out, from, at, text) {
        let mut next = t;
        next.from = trace_input_lines::after(feed_at(from, at, text));
        return next;
    }
    different(stdout, t, number, text, printed(out, from, at))
}

// the last answer is over: nothing of it is left
pub fn over(t: Tally, number: u64, stdout: Stdout, out: &[u8], at: usize) -> Tally {
    if !t.same {
        return t;
    }
    let from = t.from;
    if from == at {
        return t;
    }
    different(stdout, t, number, b"no more", printed(out, from, at))
}

// ---- lines of a list

// the byte that a line begins with; # where there is none
fn mark(text: &[u8]) -> u8 {
    match text.first() {
        Some(b) => *b,
        None => b'#',
    }
}

// whether a line starts a new session
pub fn starts(text: &[u8]) -> bool {
    mark(text) == b'='
}

fn is_session(b: u8) -> bool {
    !matches!(b, b'#' | b'=' | b'|')
}

// the session line that a line is; an empty one where it is none
pub fn line_of(text: &[u8]) -> &[u8] {
    if is_session(mark(text)) {
        return trace_input_session::part(text, 0, text.len());
    }
    trace_input_session::part(text, 0, 0)
}

// where the output of a session line begins; where it is none nothing changes
pub fn room(line: &[u8], at: usize) -> usize {
    if line.len() == 0 {
        return at;
    }
    0
}

// with a line that is read, before it is answered: of the last answer `at` bytes are printed
pub fn read(t: Tally, number: u64, text: &[u8], stdout: Stdout, out: &[u8], at: usize) -> Tally {
    let b = mark(text);
    if b == b'|' {
        return stored(
            t,
            number,
            trace_input_session::part(text, 1, text.len()),
            stdout,
            out,
            at,
        );
    }
    if is_session(b) {
        return over(t, number, stdout, out, at);
    }
    t
}

// the length of the `@LINE word` above an answer; 0 where there is none
fn head(out: &[u8], at: usize) -> usize {
    if at == 0 || out.first() != Some(&b'@') {
        return 0;
    }
    trace_input_lines::after(trace_input_lines::line_end(out, 0, at))
}

// the number that the next line of the session has
pub fn next_line(t: Tally) -> u64 {
    std::num::wrapping_add_u64(t.lines, 1)
}

// with the answer to a session line, of `at` bytes
pub fn answered(t: Tally, line: &[u8], out: &[u8], at: usize) -> Tally {
    if line.len() == 0 {
        return t;
    }
    Tally {
        answers: std::num::wrapping_add_u64(t.answers, 1),
        differ: t.differ,
        lines: next_line(t),
        from: head(out, at),
        same: true,
    }
}

// a new session, of which nothing is answered
pub fn begun(t: Tally) -> Tally {
    let mut next = t;
    next.lines = 0;
    next.from = 0;
    next.same = true;
    next
}

// the sums of two lists
pub fn sum(a: Tally, b: Tally) -> Tally {
    Tally {
        answers: std::num::wrapping_add_u64(a.answers, b.answers),
        differ: std::num::wrapping_add_u64(a.differ, b.differ),
        lines: 0,
        from: 0,
        same: true,
    }
}

// a list's name with its tally
pub fn show(stdout: Stdout, name: &[u8], t: Tally) {
    let mut to = stdout;
    streams::write(&mut to, name);
    streams::write_decimal(&mut to, t.answers);
    streams::write(&mut to, b" answers, ");
    streams::write_decimal(&mut to, t.differ);
    streams::write(&mut to, b" differ\n");
}
