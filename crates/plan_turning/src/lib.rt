// The turn of a control plan of which every route is plain and reads samples: its sums, group of 16 lanes by group, and its two rows in the lent values; its slews
// stand still (engine.rs 843-935, 1060-1112; document 01, Chunk and value). The definitions are in model's specs/Tick and in specs/Turns, which also says what a
// contract holds of.
#![tactic(auto)]

ghost use Rattle.std.specs.Prelude.{◌≡◌, true, false, List, ℕ, ◌+◌, ◌*◌, ◌≤◌, ◌<◌, length, get_or, Float};
ghost use Rattle.config.specs.Sizes.{slots, most_voices, most_frames, lanes};
ghost use Rattle.state_filled.specs.Filled.{no_plan};
ghost use Rattle.state.specs.declared.State.{State};
ghost use Rattle.model.specs.Counts.{at};
ghost use Rattle.model.specs.Env.{Env, Rows, Own};
ghost use Rattle.model.specs.Layout.{plan_from};
ghost use Rattle.model.specs.Mix.{Mix};
ghost use Rattle.model.specs.Tick.{fill_from, lanes_from, turns};
ghost use Rattle.plan_sum.specs.Job.{base_by};
ghost use Rattle.plan_slews.specs.Seen.{Ticks};
ghost use Rattle.plan_sweep.specs.Leads.{Fielded, Swept};
ghost use Rattle.plan_sweep.specs.Sweep.{Within};
ghost use Rattle.plan_turning.specs.Turns.{sum_pass, sum_at, Sums, turned, Ready, Prepared};

use config::{FRAMES, SLOTS, VOICES};
use plan_slews::Tick;
use plan_sweep::{Field, Pass};
use state::{Gains, Plan};

// What the turns of a tick go by, besides the lent numbers: the field and the tick, how many chunks a plan has room for, the frame that is read, and how many
// control plans there are.
#[derive(Clone, Copy)]
pub struct Round {
    pub field: Field,
    pub tick: Tick,
    pub chunks: usize,
    pub frame: usize,
    pub control: usize,
}

// What a plan's sums are worked out from, besides the lent numbers: what they are swept by, the base outside the span, and the frame that is read.
#[derive(Clone, Copy)]
pub struct Sweep {
    pub pass: Pass,
    pub base: f32,
    pub frame: usize,
}

// ---- once a tick

// no plan is swept
fn no_field(stride: usize) -> Field
    ensures { result ≡ record { on = false; stride = stride; frames = 1; from = 0; groups = 0 } }
{
    Field {
        on: false,
        stride,
        frames: 1,
        from: 0,
        groups: 0,
    }
}

// The field of a tick that reads at `frame`, of frames up to `up_to`; where there are none such, or no route is simple, it is off.
pub fn field_at(
    some: bool,
    active: [bool; VOICES],
    stride: usize,
    frame: usize,
    up_to: usize,
) -> Field
    requires { stride ≤ 64 }
    ensures { Fielded active stride 1 result × (result.on ≡ true → (frame < up_to) × (up_to ≤ most_frames)) }
{
    if !some {
        return no_field(stride);
    }
    if up_to <= frame {
        return no_field(stride);
    }
    if FRAMES < up_to {
        return no_field(stride);
    }
    plan_sweep::field_of(active, stride, 1)
}

// At most the frames that a block may have.
pub fn last(up_to: usize) -> usize
    ensures { (result ≤ most_frames) × (up_to ≤ most_frames → result ≡ up_to) }
{
    if FRAMES < up_to {
        return FRAMES;
    }
    up_to
}

// The bases of the first n plans.
pub fn bases_of(
    plans: [Plan; SLOTS],
    n: usize,
    levels: Gains,
    globals: &[f32],
    bases: &[f32],
) -> [f32; SLOTS]
    requires { n ≤ slots }
    ensures { (length result ≡ slots) × ((d : ℕ) → d < n → at result d ≡ base_by levels globals.now bases.now (get_or plans d no_plan).dest (get_or plans d no_plan).base) }
{
    let mut out = [0.0f32; SLOTS];
    for d in 0..n {
        let plan = plans[d];
        let base = plan.base;
        out[d] = plan_sum::base_by(base, plan.dest, levels, globals, bases);
    }
    out
}

// ---- sums

// x in n lanes, from `start` on
fn fill(rows: &mut [f32], start: usize, n: usize, x: f32)
    requires { start + n ≤ length rows.old }
    ensures { rows.new ≡ fill_from rows.old start (λ (l : ℕ). x) n }
{
    for l in 0..n {
        let i = start + l;
        rows[i] = x;
    }
}

// the held sums of a plan in the row that starts there: the routes in the span, outside it the base
fn put_sums(
    rows: &mut [f32],
    start: usize,
    sweep: Sweep,
    starts: &[usize],
    steps: &[usize],
    gains: &[f32],
    samples: &[f32],
)
    requires { Within starts.now steps.now gains.now samples.now sweep.pass (sweep.frame + 1) × (start + sweep.pass.width ≤ length rows.old) × (sweep.pass.bound ≡ true) }
    ensures { rows.new ≡ fill_from rows.old start (sum_at starts.now steps.now gains.now samples.now sweep.pass sweep.base sweep.frame) sweep.pass.width }
{
    let pass = sweep.pass;
    let frame = sweep.frame;
    let low = number::held(pass.min, pass.max, sweep.base);
    let end = pass.from + pass.groups * 16;
    fill(rows, start, pass.from, low);
    plan_sweep::span_row(rows, pass, starts, steps, gains, samples, frame, start);
    fill(rows, start + end, pass.width - end, low);
}

// ---- rows

// the row of n lanes that starts at `from` becomes the one behind it
fn lower(values: &mut [f32], from: usize, n: usize)
    requires { from + n + n ≤ length values.old }
    ensures { values.new ≡ fill_from values.old from (lanes_from values.old (from + n)) n }
{
    let to = from + n;
    for l in 0..n {
        let i = from + l;
        let k = to + l;
        values[i] = values[k];
    }
}

// both rows of a plan, of which the first starts there, at a tick in phase where no voice starts: the ramps start at the old numbers
fn next_rows(
    values: &mut [f32],
    from: usize,
    sweep: Sweep,
    starts: &[usize],
    steps: &[usize],
    gains: &[f32],
    samples: &[f32],
)
    requires { Within starts.now steps.now gains.now samples.now sweep.pass (sweep.frame + 1) × (from + sweep.pass.width + sweep.pass.width ≤ length values.old) × (sweep.pass.bound ≡ true) }
    ensures { values.new ≡ fill_from (fill_from values.old from (lanes_from values.old (from + sweep.pass.width)) sweep.pass.width) (from + sweep.pass.width) (sum_at starts.now steps.now gains.now samples.now sweep.pass sweep.base sweep.frame) sweep.pass.width }
{
    let pass = sweep.pass;
    let to = from + pass.width;
    lower(values, from, pass.width);
    put_sums(values, to, sweep, starts, steps, gains, samples);
}

// both rows at any tick
fn any_rows(
    values: &mut [f32],
    tick: Tick,
    from: usize,
    sweep: Sweep,
    starts: &[usize],
    steps: &[usize],
    gains: &[f32],
    samples: &[f32],
)
    requires { Within starts.now steps.now gains.now samples.now sweep.pass (sweep.frame + 1) × (from + sweep.pass.width + sweep.pass.width ≤ length values.old) × (sweep.pass.bound ≡ true) }
    ensures { (t : Env) (x : Mix) (f : Rows) (s : Own) → Ticks t x tick → Sums t x f s starts.now steps.now gains.now samples.now sweep.pass sweep.base sweep.frame → values.new ≡ turned t tick.phase x f s from sweep.pass.width values.old }
{
    let pass = sweep.pass;
    let n = pass.width;
    let to = from + n;
    let mut sums = [0.0f32; VOICES];
    put_sums(&mut sums, 0, sweep, starts, steps, gains, samples);
    let begins = plan_slews::from_row(tick, sums, values, to, from, n);
    let ends = plan_slews::to_row(tick, sums, values, to, n);
    plan_slews::put_row(values, from, begins, n);
    plan_slews::put_row(values, to, ends, n);
}

// whether the program has ticked, and no voice starts
fn steady(tick: Tick) -> bool
    ensures { result ≡ true → (tick.primed ≡ true) × (tick.snap ≡ false) }
{
    if !tick.primed {
        return false;
    }
    !tick.snap
}

// both rows at a tick
fn put_rows(
    values: &mut [f32],
    tick: Tick,
    from: usize,
    sweep: Sweep,
    starts: &[usize],
    steps: &[usize],
    gains: &[f32],
    samples: &[f32],
)
    requires { Within starts.now steps.now gains.now samples.now sweep.pass (sweep.frame + 1) × (from + sweep.pass.width + sweep.pass.width ≤ length values.old) × (sweep.pass.bound ≡ true) }
    ensures { (t : Env) (x : Mix) (f : Rows) (s : Own) → Ticks t x tick → Sums t x f s starts.now steps.now gains.now samples.now sweep.pass sweep.base sweep.frame → values.new ≡ turned t tick.phase x f s from sweep.pass.width values.old }
{
    if !steady(tick) {
        any_rows(values, tick, from, sweep, starts, steps, gains, samples);
        return;
    }
    if 0 < tick.phase {
        return;
    }
    next_rows(values, from, sweep, starts, steps, gains, samples);
}

// ---- plans

// Where the rows of a plan start in the values: where its ramps start, and a stride further on its numbers.
pub fn plan_from(stride: usize, chunks: usize, d: usize) -> usize
    requires { (stride ≤ 64) × (chunks ≤ 130) × (d < slots) }
    ensures { (result ≡ plan_from stride chunks d) × (result ≤ 1089536) }
{
    let size = lane_input::plan_size(stride, chunks);
    d * size
}

// The turn of plan d, whose rows start at `from`.
pub fn turn(
    values: &mut [f32],
    round: Round,
    plan: Plan,
    from: usize,
    base: f32,
    starts: &[usize],
    steps: &[usize],
    gains: &[f32],
    offsets: &[f32],
    samples: &[f32],
)
    requires { Ready round samples.now starts.now steps.now gains.now offsets.now × Swept round.field plan steps.now × (from + round.field.stride + round.field.stride ≤ length values.old) }
    ensures { (t : Env) (x : Mix) (f : Rows) (s : Own) → Ticks t x round.tick → Sums t x f s starts.now steps.now gains.now samples.now (sum_pass round.field plan base offsets.now) base round.frame → values.new ≡ turned t round.tick.phase x f s from round.field.stride values.old }
{
    let field = round.field;
    let tick = round.tick;
    let pass = plan_sweep::pass_of(field, plan, base, true, offsets);
    let sweep = Sweep {
        pass,
        base,
        frame: round.frame,
    };
    put_rows(values, tick, from, sweep, starts, steps, gains, samples);
}

// whether a plan is swept, and its rows, which start at `from`, lie in `len` numbers
fn is_turned(field: Field, plan: Plan, steps: &[usize], from: usize, len: usize) -> bool
    requires { (length steps.now ≡ slots) × (field.stride ≤ 64) × (from ≤ 1089536) }
    ensures { result ≡ true → Swept field plan steps.now × (from + field.stride + field.stride ≤ len) }
{
    if len < from + field.stride + field.stride {
        return false;
    }
    plan_sweep::is_swept(field, plan, steps)
}

// the turns of the control plans from plan `first` on, up to the first that is not swept: which that is, or their count
fn turns_from(
    values: &mut [f32],
    round: Round,
    plans: [Plan; SLOTS],
    first: usize,
    bases: &[f32],
    starts: &[usize],
    steps: &[usize],
    gains: &[f32],
    offsets: &[f32],
    samples: &[f32],
) -> usize
    requires { Ready round samples.now starts.now steps.now gains.now offsets.now × (length bases.now ≡ slots) × (first ≤ round.control) }
    ensures { (first ≤ result) × (result ≤ round.control) × ((st : State) (t : Env) (m : List Float) → Prepared st t round plans bases.now samples.now starts.now steps.now gains.now offsets.now → values.old ≡ turns st t round.tick.phase first m → values.new ≡ turns st t round.tick.phase result m) }
{
    let field = round.field;
    for d in first..round.control {
        let plan = plans[d];
        let from = plan_from(field.stride, round.chunks, d);
        if !is_turned(field, plan, steps, from, values.len()) {
            return d;
        }
        turn(
            values, round, plan, from, bases[d], starts, steps, gains, offsets, samples,
        );
    }
    round.control
}

// The same; none is swept where the field is off.
pub fn turns(
    values: &mut [f32],
    round: Round,
    plans: [Plan; SLOTS],
    first: usize,
    bases: &[f32],
    starts: &[usize],
    steps: &[usize],
    gains: &[f32],
    offsets: &[f32],
    samples: &[f32],
) -> usize
    requires { Ready round samples.now starts.now steps.now gains.now offsets.now × (length bases.now ≡ slots) × (first ≤ round.control) }
    ensures { (first ≤ result) × (result ≤ round.control) × ((st : State) (t : Env) (m : List Float) → Prepared st t round plans bases.now samples.now starts.now steps.now gains.now offsets.now → values.old ≡ turns st t round.tick.phase first m → values.new ≡ turns st t round.tick.phase result m) }
{
    if !round.field.on {
        return first;
    }
    turns_from(
        values, round, plans, first, bases, starts, steps, gains, offsets, samples,
    )
}
