// What the chunks of a block go by, found once a block and lent from then on as numbers: where every plan is swept, by
// route what it is swept by, by plan its row of the sheet (engine.rs 804-842, 951-1006). The definitions are in
// specs/Courses.
#![tactic(auto)]

ghost use Rattle.std.specs.Prelude.{◌≡◌, true, ◌≤◌, min, length};
ghost use Rattle.config.specs.Sizes.{slots, most_voices, most_frames, lane_stride, most_chunks};
ghost use Rattle.model.specs.Counts.{frame_count};
ghost use Rattle.plan_sweep.specs.Leads.{Fielded};
ghost use Rattle.plan_sheet.specs.Sheet.{numbers_size, words_size};
ghost use Rattle.block_prepare.specs.Courses.{course_of, Bare, Goes};

use config::{Config, FRAMES, SLOTS, VOICES};
use plan_sweep::Field;
use state::{Signals, State};

// What every chunk goes by: whether every plan is swept, the field, how many chunks a plan has room for, how many
// control plans there are, and how many with audio. No Option: the numbers hold whether `on` or not.
#[derive(Clone, Copy)]
pub struct Course {
    pub on: bool,
    pub field: Field,
    pub chunks: usize,
    pub control: usize,
    pub count: usize,
}

// the field of voices
fn field_of(config: Config, active: [bool; VOICES]) -> Field
    ensures { Fielded active (lane_stride (min config.voices most_voices))
        (min config.max_frames most_frames) result }
{
    let stride = config::lane_stride(config.voices);
    let frames = block_opening::at_most(config.max_frames, FRAMES);
    plan_sweep::field_of(active, stride, frames)
}

// the course of so many plans, of which at most `control` are control plans
fn course_of(on: bool, field: Field, config: Config, plans: usize, control: usize) -> Course
    ensures { result ≡ course_of on field (most_chunks (min config.max_frames most_frames)) plans control }
{
    let chunks = config::most_chunks(config.max_frames);
    let few = block_opening::at_most(control, plans);
    Course {
        on,
        field,
        chunks,
        control: few,
        count: plans - few,
    }
}

// The course of a block that ends at frame `up_to`; the lists are filled for it.
pub fn prepare(
    numbers: &mut [f32],
    words: &mut [usize],
    starts: &mut [usize],
    steps: &mut [usize],
    gains: &mut [f32],
    state: State,
    up_to: usize,
    signals: Signals,
    globals: &[f32],
    bases: &[f32],
    samples: &[f32],
) -> Course
    requires { (up_to ≤ frame_count state) × (length numbers.old ≡ numbers_size) × (length words.old ≡ words_size)
        × Bare starts.old steps.old gains.old }
    ensures { result.on ≡ true → Goes state up_to signals globals.now bases.now
        samples.now result numbers.new words.new starts.new steps.new
        gains.new }
{
    let mut offsets = [0.0f32; SLOTS];
    let config = state.config;
    let program = state.program;
    let routes = program.route;
    let plan = program.plan;
    let levels = state.gains;
    let voices = state.voices;
    let active = voices.active;
    let field = field_of(config, active);
    let n = block_opening::at_most(program.routes, SLOTS);
    plan_sweep::lead_routes(
        starts,
        steps,
        gains,
        &mut offsets,
        routes,
        n,
        signals,
        levels,
        field.stride,
        up_to,
        samples,
    );
    let plans = block_opening::at_most(program.plans, SLOTS);
    let on = plan_sheet::sheet(
        numbers, words, plan, plans, field, levels, globals, bases, steps, &offsets,
    );
    course_of(on, field, config, plans, program.control)
}
