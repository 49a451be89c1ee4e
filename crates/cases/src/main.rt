// Reads a decimal case number from standard input and prints what document 01 has for that case, 5, or 10 with its
// note, and document 02 for 13 (C-12).
#![tactic(auto)]

ghost use Rattle.std.specs.Prelude.{◌<◌};

mod digits;

use digits::Seen;
use std::io::{Stdin, Stdout};
use trace_session::Session;

// The case number on standard input, which is read in pieces, where there is one.
fn asked(stdin: Stdin) -> Option<u64> {
    let mut from = stdin;
    let mut buffer = [0u8; 65536];
    let mut seen = Seen::Nothing;
    for _ in 0..u64::MAX {
        let n = streams::read(&mut from, &mut buffer);
        seen = digits::after_all(seen, trace_input_session::part(&buffer, 0, n));
        if n < buffer.len() || matches!(seen, Seen::Other) {
            break;
        }
    }
    digits::case_of(seen)
}

// the place after a line that ends at `end`, or the end of the text
fn past(at: usize, end: usize, len: usize) -> usize
    requires { at < len }
    ensures { at < result }
{
    if end < at {
        return len;
    }
    if len <= end {
        return len;
    }
    end + 1
}

// Answers the line of the text at a place.
fn played(
    s: &mut Session,
    text: &[u8],
    at: usize,
    end: usize,
    stdout: Stdout,
    out: &mut [u8],
    book: &mut [usize],
    desk: &mut [f32],
    values: &mut [f32],
    audio: &mut [f32],
    pool: &mut [f32],
) {
    let waiting = trace_session::waiting(s);
    trace_session::answered(
        s,
        waiting,
        0,
        true,
        trace_input_session::part(text, at, end),
        stdout,
        out,
        book,
        desk,
        values,
        audio,
        pool,
    );
}

// Plays a session's lines and prints what they answer.
fn play_lines(
    text: &[u8],
    stdout: Stdout,
    out: &mut [u8],
    book: &mut [usize],
    desk: &mut [f32],
    values: &mut [f32],
    audio: &mut [f32],
    pool: &mut [f32],
) {
    let mut s = trace_session::start();
    let mut at = 0usize;
    // Not a for: the step is a line, not 1.
    while at < text.len() {
        let end = trace_input_lines::line_end(text, at, text.len());
        played(
            &mut s, text, at, end, stdout, out, book, desk, values, audio, pool,
        );
        at = past(at, end, text.len());
    }
    trace_output_show::flush(stdout, out, trace_session::waiting(&s));
}

// Plays a case, with memories that are more than it needs.
fn play_case(stdout: Stdout, text: &[u8]) {
    let mut out = [0u8; 1024];
    let mut book = [0usize; trace_dispatch::BOOK];
    let mut desk = [0.0f32; trace_dispatch::DESK];
    let mut values = [0.0f32; 4096];
    let mut audio = [0.0f32; 110000];
    let mut pool = [0.0f32; 4096];
    play_lines(
        text,
        stdout,
        &mut out,
        &mut book,
        &mut desk,
        &mut values,
        &mut audio,
        &mut pool,
    );
}

fn main(rt: HostRuntime) {
    match asked(rt.stdin()) {
        Some(5) => play_case(
            rt.stdout(),
            b"print cases\nconfig 473B8000 64 1\nsource one constant g u\ndest p:0 g control 00000000 3F800000 -\nslot 0 src=0 dst=p:0 amt=3F000000 out=3F800000\ncompile P\nengine\nset_base 0 3E800000\nswap P\nprocess 0 64\n",
        ),
        Some(10) => play_case(
            rt.stdout(),
            b"print cases\nconfig 473B8000 64 1\nsource one constant g u\ndest p:0 g control 00000000 3F800000 -\nslot 0 src=0 dst=p:0 amt=3F000000 out=3F800000\ncompile P\nengine\nset_base 0 3E800000\nprocess 0 5\nnote_on 0 42700000 3F800000 0 00000000\nvoice_ended 0\nswap P\nprocess 0 27\n",
        ),
        Some(13) => play_case(
            rt.stdout(),
            b"print cases\nconfig 473B8000 64 1\nsource one constant g u\ndest p:0 g control 00000000 3F800000 -\ndest p:1 g control 00000000 3F800000 amt:0\nslot 0 src=0 dst=p:0 amt=3F000000 out=3F800000\nslot 1 src=0 dst=p:1 amt=3E800000 out=3F800000\ncompile P\nengine\nset_base 0 3E800000\nswap P\nprocess 0 64\n",
        ),
        _ => {}
    }
}
