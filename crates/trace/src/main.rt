// Reads a session from standard input and prints what each of its calls answers (oracle/README.md, Session format).
#![tactic(auto)]

use std::alloc::AllocError;

// Reads, answers and prints line by line.
fn run(
    rt: HostRuntime,
    input: &mut [u8],
    out: &mut [u8],
    book: &mut [usize],
    desk: &mut [f32],
    values: &mut [f32],
    audio: &mut [f32],
    pool: &mut [f32],
) {
    let mut s = trace_dispatch::start();
    let empty = trace_dispatch::no_program();
    let mut shelf = [empty; 9];
    let mut from = rt.stdin();
    let mut r = trace_input_lines::first();
    for _ in 0..u64::MAX {
        let a = trace_input_lines::ahead(&mut from, input, r);
        let line = trace_input_session::part(input, a.start, a.stop);
        let i = trace_dispatch::number_of(line, book);
        let h = trace_dispatch::begun(s, a.number, a.all, line, book, rt.stdout(), out);
        if !trace_lines_answer::is_passed_over(h) {
            let k = trace_dispatch::place(i);
            let p = shelf[k];
            let next = trace_dispatch::on_line(
                s,
                p,
                i,
                h,
                line,
                rt.stdout(),
                out,
                book,
                desk,
                values,
                audio,
                pool,
            );
            let t = next.state;
            s = t;
            let j = trace_dispatch::place(next.i);
            let q = next.program;
            shelf[j] = q;
        }
        let reader = a.reader;
        r = reader;
        if a.done || trace_lines_answer::ends(s.stop) {
            break;
        }
    }
    trace_dispatch::end(s, r.failed, r.number, rt, out);
}

// The same on arrays, and on the large memories.
fn run_on(
    rt: HostRuntime,
    input: &mut [u8; 65536],
    out: &mut [u8; 65536],
    book: &mut [usize; trace_dispatch::BOOK],
    desk: &mut [f32],
    values: &mut [f32],
    audio: &mut [f32],
    pool: &mut [f32],
) {
    run(rt, input, out, book, desk, values, audio, pool);
}

fn main(rt: HostRuntime) -> Result<(), AllocError> {
    let alloc = rt.alloc();
    let mut input = [0u8; 65536];
    let mut out = [0u8; 65536];
    let mut book = [0usize; trace_dispatch::BOOK];
    let mut desk = vec![in alloc; 0.0f32; trace_dispatch::DESK]?;
    let mut values = vec![in alloc; 0.0f32; trace_dispatch::VALUES]?;
    let mut audio = vec![in alloc; 0.0f32; trace_dispatch::AUDIO]?;
    let mut pool = vec![in alloc; 0.0f32; trace_dispatch::POOL]?;
    run_on(
        rt,
        &mut input,
        &mut out,
        &mut book,
        &mut desk,
        &mut values,
        &mut audio,
        &mut pool,
    );
    Ok(())
}
