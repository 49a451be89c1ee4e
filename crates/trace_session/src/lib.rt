// A session and one line of it more: the program that the line names is taken from the session's programs, the line is answered, and the program put back.
#![tactic(auto)]

use state::Program;
use std::io::Stdout;
use trace_lines_stage::State;

// A session but for its memories: what it has said so far, and its programs.
#[derive(Clone, Copy)]
pub struct Session {
    pub state: State,
    pub shelf: [Program; 9],
}

// before any line; all memories are 0
pub fn start() -> Session {
    let state = trace_dispatch::start();
    let empty = trace_dispatch::no_program();
    Session {
        state,
        shelf: [empty; 9],
    }
}

// how many bytes of output wait
pub fn waiting(s: &Session) -> usize {
    s.state.at
}

// with program number i, which the line names
fn answered_with(
    s: &mut Session,
    i: usize,
    at: usize,
    number: u64,
    all: bool,
    line: &[u8],
    stdout: Stdout,
    out: &mut [u8],
    book: &mut [usize],
    desk: &mut [f32],
    values: &mut [f32],
    audio: &mut [f32],
    pool: &mut [f32],
) {
    s.state.at = at;
    let h = trace_dispatch::begun(s.state, number, all, line, book, stdout, out);
    if trace_lines_answer::is_passed_over(h) {
        return;
    }
    let k = trace_dispatch::place(i);
    let p = s.shelf[k];
    let next = trace_dispatch::on_line(
        s.state, p, i, h, line, stdout, out, book, desk, values, audio, pool,
    );
    let j = trace_dispatch::place(next.i);
    s.shelf[j] = next.program;
    s.state = next.state;
}

// Answers a line of the session, whole where `all` says so, with `at` bytes of output before it.
pub fn answered(
    s: &mut Session,
    at: usize,
    number: u64,
    all: bool,
    line: &[u8],
    stdout: Stdout,
    out: &mut [u8],
    book: &mut [usize],
    desk: &mut [f32],
    values: &mut [f32],
    audio: &mut [f32],
    pool: &mut [f32],
) {
    let i = trace_dispatch::number_of(line, book);
    answered_with(
        s, i, at, number, all, line, stdout, out, book, desk, values, audio, pool,
    );
}
