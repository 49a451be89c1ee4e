// Replays stored sessions (oracle/replay.py): answers each of their lines, compares what it prints with the stored answer, and prints how many answers there are
// and how many of them differ, with the first few that do.
#![tactic(auto)]

mod comparing;

use comparing::Tally;
use std::fs;
use std::fs::File;
use std::io::Stdout;
use trace_input_lines::{Coming, Reader};
use trace_session::Session;

// ---- memories

// all numbers 0
fn clear(
    book: &mut [usize],
    desk: &mut [f32],
    values: &mut [f32],
    audio: &mut [f32],
    pool: &mut [f32],
) {
    book.fill(0);
    desk.fill(0.0);
    values.fill(0.0);
    audio.fill(0.0);
    pool.fill(0.0);
}

// ---- sessions

// After a line of the list: the list's answers so far, and whether the line starts another session.
#[derive(Clone, Copy)]
struct Stepped {
    tally: Tally,
    over: bool,
}

// With the line of the list that comes: what waits of the last answer is compared with it, or it is answered.
fn step(
    s: &mut Session,
    t: Tally,
    a: Coming,
    input: &[u8],
    stdout: Stdout,
    out: &mut [u8],
    book: &mut [usize],
    desk: &mut [f32],
    values: &mut [f32],
    audio: &mut [f32],
    pool: &mut [f32],
) -> Stepped {
    let text = trace_input_session::part(input, a.start, a.stop);
    let waiting = trace_session::waiting(s);
    let u = comparing::read(t, a.number, text, stdout, out, waiting);
    let line = comparing::line_of(text);
    trace_session::answered(
        s,
        comparing::room(line, waiting),
        comparing::next_line(u),
        a.all,
        line,
        stdout,
        out,
        book,
        desk,
        values,
        audio,
        pool,
    );
    let tally = comparing::answered(u, line, out, trace_session::waiting(s));
    Stepped {
        tally,
        over: comparing::starts(text),
    }
}

// What a session comes to: where the list goes on, and whether it is over.
#[derive(Clone, Copy)]
struct Replayed {
    reader: Reader,
    tally: Tally,
    done: bool,
}

// The rest of a session, from fresh memories; the line that starts the next one is read too.
fn replay_lines(
    file: &mut File,
    from: Reader,
    before: Tally,
    input: &mut [u8],
    stdout: Stdout,
    out: &mut [u8],
    book: &mut [usize],
    desk: &mut [f32],
    values: &mut [f32],
    audio: &mut [f32],
    pool: &mut [f32],
) -> Replayed {
    let mut s = trace_session::start();
    let mut r = from;
    let mut t = before;
    let mut done = false;
    for _ in 0..u64::MAX {
        let a = trace_input_lines::ahead(file, input, r);
        let p = step(
            &mut s, t, a, input, stdout, out, book, desk, values, audio, pool,
        );
        t = p.tally;
        r = a.reader;
        done = a.done;
        if done || p.over {
            break;
        }
    }
    let tally = comparing::over(t, r.number, stdout, out, trace_session::waiting(&s));
    Replayed {
        reader: r,
        tally,
        done,
    }
}

// a session
fn replay_session(
    file: &mut File,
    from: Reader,
    before: Tally,
    input: &mut [u8],
    stdout: Stdout,
    out: &mut [u8],
    book: &mut [usize],
    desk: &mut [f32],
    values: &mut [f32],
    audio: &mut [f32],
    pool: &mut [f32],
) -> Replayed {
    clear(book, desk, values, audio, pool);
    replay_lines(
        file,
        from,
        comparing::begun(before),
        input,
        stdout,
        out,
        book,
        desk,
        values,
        audio,
        pool,
    )
}

// ---- lists

// A list whose file is open.
fn replay_list(
    file: &mut File,
    input: &mut [u8],
    stdout: Stdout,
    out: &mut [u8],
    book: &mut [usize],
    desk: &mut [f32],
    values: &mut [f32],
    audio: &mut [f32],
    pool: &mut [f32],
) -> Tally {
    let mut t = comparing::none();
    let mut r = trace_input_lines::first();
    for _ in 0..u64::MAX {
        let p = replay_session(
            file, r, t, input, stdout, out, book, desk, values, audio, pool,
        );
        t = p.tally;
        r = p.reader;
        if p.done {
            break;
        }
    }
    t
}

// the same on arrays
fn replay_on(
    file: &mut File,
    input: &mut [u8; 65536],
    stdout: Stdout,
    out: &mut [u8; 131072],
    book: &mut [usize; trace_dispatch::BOOK],
    desk: &mut [f32; trace_dispatch::DESK],
    values: &mut [f32; trace_dispatch::VALUES],
    audio: &mut [f32; 450000],
    pool: &mut [f32; 600000],
) -> Tally {
    replay_list(file, input, stdout, out, book, desk, values, audio, pool)
}

// the same, with memories of its own
fn replay_open(stdout: Stdout, file: &mut File) -> Tally {
    let mut input = [0u8; 65536];
    let mut out = [0u8; 131072];
    let mut book = [0usize; trace_dispatch::BOOK];
    let mut desk = [0.0f32; trace_dispatch::DESK];
    let mut values = [0.0f32; trace_dispatch::VALUES];
    let mut audio = [0.0f32; 450000];
    let mut pool = [0.0f32; 600000];
    replay_on(
        file,
        &mut input,
        stdout,
        &mut out,
        &mut book,
        &mut desk,
        &mut values,
        &mut audio,
        &mut pool,
    )
}

// the list in a file
fn replay_file(rt: HostRuntime, path: &str, name: &[u8], before: Tally) -> Tally {
    match fs::open(&rt, path) {
        Ok(mut file) => {
            let t = replay_open(rt.stdout(), &mut file);
            comparing::show(rt.stdout(), name, t);
            comparing::sum(before, t)
        }
        Err(error) => {
            let mut to = rt.stderr();
            streams::write_failure(&mut to, path, error);
            before
        }
    }
}

fn main(rt: HostRuntime) {
    let cases = replay_file(rt, "cases.txt", b"cases: ", comparing::none());
    let rows = replay_file(rt, "rows.txt", b"rows: ", cases);
    let random = replay_file(rt, "random.txt", b"random: ", rows);
    let all = replay_file(rt, "words.txt", b"words: ", random);
    comparing::show(rt.stdout(), b"replay: ", all);
}
