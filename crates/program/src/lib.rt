// Compiled programs, and what they are sized for. Every `pub fn` is a public call.
#![tactic(auto)]

ghost use Rattle.std.specs.Prelude.{◌≡◌, ◌&&◌, ◌||◌, ltb, length};
ghost use Rattle.refusal.specs.Refusal.{code_of};
ghost use Rattle.config.specs.Configuration.{config_code};
ghost use Rattle.slots_tables.specs.Tables.{tables_need};
ghost use Rattle.model.specs.Compile.{empty_program, numbers_allowed, compile};
ghost use Rattle.program.specs.Sizes.{stride_call, max_chunks_call};
ghost use Rattle.program.specs.Answers.{count_said, compiled_said};
ghost use Rattle.program.specs.Replies.{read_reply, plan_says, route_says, skipped_says, rate_says};
ghost use Rattle.program.specs.Readers.{route_count, plan_count, plan_at, route_at, skip_count, skipped_at, rate_by};
ghost use Rattle.program.specs.Readers.{rate_of, config_of};
ghost use Rattle.program.specs.Steps.{early_code, held_values, held_audio, copied};

use config::Config;
use refusal::Refusal;
use slots_tables::TABLES;
use state::{Destinations, Matrix, Plan, Program, Rate, Route, Skipped, Sources};

// rows 6 and 13 of a configuration
fn check(config: Config) -> Result<(), Refusal>
    ensures { code_of result ≡ config_code config.sample_rate config.max_frames config.voices }
{
    config::check(config.sample_rate, config.max_frames, config.voices)
}

// Numbers from one frame's row to the next in per-voice rows.
pub fn stride(config: Config) -> Result<usize, Refusal>
    ensures { count_said result ≡ stride_call config }
{
    check(config)?;
    Ok(config::lane_stride(config.voices))
}

// The most chunks that a block has.
pub fn max_chunks(config: Config) -> Result<usize, Refusal>
    ensures { count_said result ≡ max_chunks_call config }
{
    check(config)?;
    Ok(config::most_chunks(config.max_frames))
}

// ---- making programs

// A program with no routes.
pub fn empty(config: Config) -> Result<Program, Refusal>
    ensures { compiled_said result ≡ empty_program config }
{
    check(config)?;
    Ok(compile::empty_of(config))
}

// row 6 of the matrix and its tables
fn numbers_allowed(matrix: Matrix, tables: &[f32]) -> bool
    ensures { result ≡ numbers_allowed matrix tables.now }
{
    let slot = matrix.slot;
    if !slots::all_finite(slot) {
        return false;
    }
    slots_tables::named_allowed(matrix, tables)
}

// rows 6 and 13
fn check_early(matrix: Matrix, tables: &[f32], config: Config) -> Result<(), Refusal>
    ensures { code_of result ≡ early_code matrix tables.now config }
{
    refusal::when(!numbers_allowed(matrix, tables), Refusal::Number)?;
    check(config)
}

// row 14 of the tables, by their lengths
fn tables_short(named: bool, from: usize, to: usize) -> bool
    ensures { result ≡ named && (ltb from tables_need || ltb to tables_need) }
{
    if !named {
        return false;
    }
    if from < TABLES {
        return true;
    }
    to < TABLES
}

// row 14 of the program's own memories, by their lengths
fn memory_short(program: Program, values: usize, audio: usize) -> bool
    ensures { result ≡ ltb values (held_values program) || ltb audio (held_audio program) }
{
    if values < values_need(program) {
        return true;
    }
    audio < audio_need(program)
}

// what the program's values take
fn values_need(program: Program) -> usize
    ensures { result ≡ held_values program }
{
    let config = program.config;
    layout::values(
        config.voices,
        config.max_frames,
        program.plans,
        program.routes,
    )
}

// what its audio rows take
fn audio_need(program: Program) -> usize
    ensures { result ≡ held_audio program }
{
    let config = program.config;
    layout::audio(config.voices, config.max_frames, program.plans)
}

// the matrix's tables into the program's, where a table is named and both memories are long enough
fn copy_tables(named: bool, tables: &mut [f32], from: &[f32])
    ensures { tables.new ≡ copied named tables.old from.now }
{
    if !named {
        return;
    }
    if tables.len() < TABLES {
        return;
    }
    if from.len() < TABLES {
        return;
    }
    slots_tables::write_tables(tables, from);
}

// The program of matrix, registries and configuration, its memories set to 0 and its tables copied.
pub fn compile(
    matrix: Matrix,
    matrix_tables: &[f32],
    sources: Sources,
    dests: Destinations,
    config: Config,
    values: &mut [f32],
    audio: &mut [f32],
    tables: &mut [f32],
) -> Result<Program, Refusal>
    ensures answer { compiled_said result ≡ (compile
        (record { matrix = matrix; sources = sources; dests = dests; config = config })
        matrix_tables.now
        (record {
          values = values.old;
          audio = audio.old;
          tables = tables.old;
        })).answer }
    ensures lent { record {
      values = values.new;
      audio = audio.new;
      tables = tables.new;
    }
        ≡ (compile (record { matrix = matrix; sources = sources; dests = dests; config = config })
        matrix_tables.now
        (record {
          values = values.old;
          audio = audio.old;
          tables = tables.old;
        })).lent }
{
    check_early(matrix, matrix_tables, config)?;
    let program = compile::compiled(matrix, sources, dests, config);
    if tables_short(program.tabled, matrix_tables.len(), tables.len()) {
        return Err(Refusal::Memory);
    }
    if memory_short(program, values.len(), audio.len()) {
        return Err(Refusal::Memory);
    }
    compile::zero(values, values_need(program));
    compile::zero(audio, audio_need(program));
    copy_tables(program.tabled, tables, matrix_tables);
    Ok(program)
}

// ---- what a program tells of itself

// how many routes it runs
pub fn route_count(program: Program) -> usize
    ensures { result ≡ route_count program }
{
    state_filled::held(program.routes)
}

// how many plans it has
pub fn plan_count(program: Program) -> usize
    ensures { result ≡ plan_count program }
{
    state_filled::held(program.plans)
}

// plan i
pub fn plan(program: Program, i: usize) -> Option<Plan>
    ensures value { result ≡ plan_at program i }
    ensures reply { read_reply result ≡ plan_says program i }
{
    if state_filled::held(program.plans) <= i {
        return None;
    }
    Some(program.plan[i])
}

// route i
pub fn route(program: Program, i: usize) -> Option<Route>
    ensures value { result ≡ route_at program i }
    ensures reply { read_reply result ≡ route_says program i }
{
    if state_filled::held(program.routes) <= i {
        return None;
    }
    Some(program.route[i])
}

// how many slots were left out with a reason
pub fn skip_count(program: Program) -> usize
    ensures { result ≡ skip_count program }
{
    state_filled::held(program.skips)
}

// the i-th slot left out, and its reason
pub fn skipped(program: Program, i: usize) -> Option<Skipped>
    ensures value { result ≡ skipped_at program i }
    ensures reply { read_reply result ≡ skipped_says program i }
{
    if state_filled::held(program.skips) <= i {
        return None;
    }
    Some(program.skipped[i])
}

fn rate_by(audio: bool) -> Option<Rate>
    ensures { result ≡ rate_by audio }
{
    if audio {
        return Some(Rate::Audio);
    }
    Some(Rate::Control)
}

// the rate of the plan of dest
pub fn rate(program: Program, dest: usize) -> Option<Rate>
    ensures value { result ≡ rate_of program dest }
    ensures reply { read_reply result ≡ rate_says program dest }
{
    let n = state_filled::held(program.plans);
    for i in 0..n {
        let p = program.plan[i];
        if p.dest as usize == dest {
            return rate_by(p.audio);
        }
    }
    None
}

// what it was compiled for
pub fn config(program: Program) -> Config
    ensures { result ≡ config_of program }
{
    program.config
}
