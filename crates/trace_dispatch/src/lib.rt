// What answers the lines of a session (oracle/README.md, Session format), and how much memory it is lent.
#![tactic(auto)]

ghost use Rattle.std.specs.Prelude.{◌<◌};

mod answering;

pub use answering::on_line;
use config::Config;
use engine::Engine;
use state::Program;
use std::io::Stdout;
use trace_lines_answer::Hand;
use trace_lines_stage::State;

// The lengths of the memories that `on_line` is lent, apart from the line and the output.
pub const BOOK: usize = 10064;

pub const DESK: usize = 75010;

// A session's needs beyond these are answered with TOO LARGE.
pub const VALUES: usize = 125000;

pub const AUDIO: usize = 726000;

pub const POOL: usize = 752000;

fn no_engine(config: Config) -> Engine {
    let sources = source::new();
    let dests = dest::new();
    let mut held = [0.0f32; 1];
    let mut globals = [0.0f32; 1];
    let mut bases = [0.0f32; 1];
    let made = Engine::new(sources, dests, config, &mut held, &mut globals, &mut bases);
    made.unwrap_or(Engine::bare())
}

// some program, of which a session's programs are made before any line
pub fn no_program() -> Program {
    compile::empty_of(start_config())
}

fn start_config() -> Config {
    let preset = trace_setup_preset::start();
    preset.config
}

// the number of the program that a line names, which it has from now on where the line compiles it
pub fn number_of(line: &[u8], book: &mut [usize]) -> usize {
    trace_programs::number_of(line, book)
}

// the place of program i among a session's 9 programs, or some place
pub fn place(i: usize) -> usize
    ensures { result < 9 }
{
    if i < 9 { i } else { 8 }
}

// before any line; all memories are 0
pub fn start() -> State {
    let preset = trace_setup_preset::start();
    let config = preset.config;
    let engine = no_engine(config);
    let signals = engine::no_signals();
    State {
        at: 0,
        stop: None,
        engine,
        signals,
        preset,
    }
}

// the line in hand, whole where `all` says so, once what stands above its answers is printed
pub fn begun(
    s: State,
    number: u64,
    all: bool,
    line: &[u8],
    book: &[usize],
    stdout: Stdout,
    out: &mut [u8],
) -> Hand {
    trace_lines_answer::begun(s.at, number, all, line, book, stdout, out)
}

// The end of a session, whose input can't be read to its end where `failed` says so: the last line of its trace, and the digit that
// says how it ended.
pub fn end(s: State, failed: bool, number: u64, rt: HostRuntime, out: &mut [u8]) {
    let unread = trace_lines_answer::unread(s.stop, failed);
    let at = trace_lines_answer::told(rt.stdout(), unread, number, out, s.at);
    trace_output_show::end(rt.stdout(), out, at);
    let lost = trace_output_show::is_lost(out);
    trace_output_show::status(
        rt,
        trace_lines_answer::status(trace_lines_answer::after(s.stop, unread), lost),
    );
}
