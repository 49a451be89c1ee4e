// A control tick: the turn of each control plan, in the lent values (engine.rs 843-935; document 01, Chunk and value). The definitions are in model's specs/Tick.
// Plans of which every route is plain and reads samples have their turns in crate plan_turning, the others here. A contract holds of every state and environment that
// have what the function is handed: specs/Turn and specs/Rounds say what that is.
#![tactic(auto)]

ghost use Rattle.std.specs.Prelude.{◌≡◌, List, ℕ, ◌≤◌, ◌<◌, length, Float};
ghost use Rattle.config.specs.Sizes.{slots};
ghost use Rattle.state.specs.declared.State.{State};
ghost use Rattle.model.specs.Env.{Env, Rows, Own};
ghost use Rattle.model.specs.Mix.{Mix};
ghost use Rattle.model.specs.Tick.{held_sum, turn, turns, tick_of};
ghost use Rattle.plan_sum.specs.Job.{AreSimple, Bounded, lane_count, Sums};
ghost use Rattle.plan_slews.specs.Put.{new_need, IsNew};
ghost use Rattle.plan_slews.specs.Rows.{IsRow};
ghost use Rattle.plan_slews.specs.Seen.{Fits};
ghost use Rattle.control_tick.specs.Turn.{Given, IsTurn, job_of, IsTick};
ghost use Rattle.control_tick.specs.Rounds.{Sized, IsRound, IsLed, AreBases, Works};

use config::{SLOTS, VOICES};
use lane_input::Scene;
use plan_sum::Job;
use plan_sweep::Leads;
use plan_turning::Round;
use state::{Plan, Route, Signals};

// The sums of a plan, held to its bounds, in each lane of its row, and the new slews of its routes.
pub fn held_sums(
    new: &mut [f32],
    job: Job,
    held: &[f32],
    globals: &[f32],
    bases: &[f32],
    tables: &[f32],
    samples: &[f32],
    values: &[f32],
) -> [f32; VOICES]
    requires { Bounded job × (length new.old ≡ new_need) }
    ensures { (t : Env) (f : Rows) (s : Own) (x : Mix) → Sums t f s x job held.now globals.now bases.now tables.now samples.now values.now → IsRow (lane_count job) (held_sum t f s x) result × ((j : ℕ) → j < x.count → j < slots → IsNew t x f s j (x.route j) new.new) }
{
    let plan = job.plan;
    let n = plan_sum::lane_count(job);
    let sums = plan_mix::mix(new, job, held, globals, bases, tables, samples, values);
    plan_slews::hold_row(sums, plan.min, plan.max, n)
}

// The turn of plan d, whose job this is; `new` is room for its new slews.
pub fn turn(
    values: &mut [f32],
    new: &mut [f32],
    job: Job,
    d: usize,
    phase: usize,
    held: &[f32],
    globals: &[f32],
    bases: &[f32],
    tables: &[f32],
    samples: &[f32],
)
    requires { Bounded job × (d < job.plans) × (length new.old ≡ new_need) }
    ensures { (st : State) (t : Env) → IsTurn st d job → Given t job.scene job.signals held.now globals.now bases.now tables.now samples.now → values.new ≡ turn st t phase d values.old }
{
    let plan = job.plan;
    let scene = job.scene;
    let n = plan_sum::lane_count(job);
    let from = plan_turning::plan_from(scene.stride, job.chunks, d);
    let to = from + scene.stride;
    let tick = plan_slews::tick_of(scene, phase, plan.voice);
    let sums = held_sums(new, job, held, globals, bases, tables, samples, values);
    let starts = plan_slews::from_row(tick, sums, values, to, from, n);
    let ends = plan_slews::to_row(tick, sums, values, to, n);
    plan_slews::put_slews(values, job, new);
    plan_slews::put_row(values, from, starts, n);
    plan_slews::put_row(values, to, ends, n);
}

// The job of plan d.
pub fn job_of(
    plan: [Plan; SLOTS],
    d: usize,
    routes: [Route; SLOTS],
    scene: Scene,
    signals: Signals,
    chunks: usize,
    plans: usize,
    simples: [bool; SLOTS],
) -> Job
    requires { Fits scene chunks plans × (d < plans) × AreSimple routes simples }
    ensures { (result ≡ job_of plan d routes scene signals chunks plans result.simple) × Bounded result × (d < result.plans) }
{
    let p = plan[d];
    let simple = plan_sum::some_simple(simples, p.first, p.count);
    Job {
        plan: p,
        routes,
        scene,
        signals,
        chunks,
        plans,
        simple,
    }
}

// What a tick is worked out from, besides the lent numbers: the plans, of which `plans` are there and the first `control` are control plans, the routes, scene and
// signals, how many chunks a plan has room for, the phase, and which routes are simple.
#[derive(Clone, Copy)]
pub struct Work {
    pub plan: [Plan; SLOTS],
    pub control: usize,
    pub routes: [Route; SLOTS],
    pub scene: Scene,
    pub signals: Signals,
    pub chunks: usize,
    pub plans: usize,
    pub phase: usize,
    pub simples: [bool; SLOTS],
}

// what each route is swept by
fn leads_of(work: Work, samples: &[f32]) -> Leads
    ensures { IsLed work samples.now result }
{
    let routes = work.routes;
    let scene = work.scene;
    let signals = work.signals;
    let levels = scene.gains;
    let up_to = plan_turning::last(scene.up_to);
    plan_sweep::leads_of(routes, signals, levels, scene.stride, up_to, samples)
}

// what the turns go by
fn round_of(work: Work) -> Round
    requires { Sized work }
    ensures { IsRound work result }
{
    let scene = work.scene;
    let voices = scene.voices;
    let active = voices.active;
    let simples = work.simples;
    let some = plan_sum::some_simple(simples, 0, SLOTS);
    let field = plan_turning::field_at(some, active, scene.stride, scene.frame, scene.up_to);
    let tick = plan_slews::tick_of(scene, work.phase, true);
    Round {
        field,
        tick,
        chunks: work.chunks,
        frame: scene.frame,
        control: work.control,
    }
}

// the bases of the control plans
fn bases_of(work: Work, globals: &[f32], bases: &[f32]) -> [f32; SLOTS]
    requires { Sized work }
    ensures { (length result ≡ slots) × AreBases work globals.now bases.now result }
{
    let plan = work.plan;
    let levels = work.scene.gains;
    plan_turning::bases_of(plan, work.control, levels, globals, bases)
}

// the turn of plan d, where it is a control plan: the next
fn turn_at(
    values: &mut [f32],
    new: &mut [f32],
    work: Work,
    d: usize,
    held: &[f32],
    globals: &[f32],
    bases: &[f32],
    tables: &[f32],
    samples: &[f32],
) -> usize
    requires { Sized work × (d ≤ work.control) × (length new.old ≡ new_need) }
    ensures { (d ≤ result) × (result ≤ work.control) × (d < work.control → d < result) × ((st : State) (t : Env) (m : List Float) → Works st t work held.now globals.now bases.now tables.now samples.now → values.old ≡ turns st t work.phase d m → values.new ≡ turns st t work.phase result m) }
{
    if work.control <= d {
        return d;
    }
    let plan = work.plan;
    let routes = work.routes;
    let scene = work.scene;
    let signals = work.signals;
    let simples = work.simples;
    let job = job_of(
        plan,
        d,
        routes,
        scene,
        signals,
        work.chunks,
        work.plans,
        simples,
    );
    turn(
        values, new, job, d, work.phase, held, globals, bases, tables, samples,
    );
    d + 1
}

// the turns of the control plans: those that are swept together, then the one that is not
fn turns_of(
    values: &mut [f32],
    new: &mut [f32],
    work: Work,
    held: &[f32],
    globals: &[f32],
    bases: &[f32],
    tables: &[f32],
    samples: &[f32],
)
    requires { Sized work × (length new.old ≡ new_need) }
    ensures { (st : State) (t : Env) → Works st t work held.now globals.now bases.now tables.now samples.now → values.new ≡ tick_of st t work.phase values.old }
{
    let plan = work.plan;
    let round = round_of(work);
    let own = bases_of(work, globals, bases);
    let leads = leads_of(work, samples);
    let starts = leads.starts;
    let steps = leads.steps;
    let gains = leads.gains;
    let offsets = leads.offsets;
    let mut d = 0usize;
    // Not a for: a turn sweeps as many plans as it can, so d moves on by more than one.
    while d < work.control {
        let k = plan_turning::turns(
            values, round, plan, d, &own, &starts, &steps, &gains, &offsets, samples,
        );
        let next = turn_at(values, new, work, k, held, globals, bases, tables, samples);
        d = next;
    }
}

// THE TICK: the turn of each control plan, in order.
pub fn tick(
    values: &mut [f32],
    plan: [Plan; SLOTS],
    control: usize,
    routes: [Route; SLOTS],
    scene: Scene,
    signals: Signals,
    chunks: usize,
    plans: usize,
    phase: usize,
    held: &[f32],
    globals: &[f32],
    bases: &[f32],
    tables: &[f32],
    samples: &[f32],
)
    requires { Fits scene chunks plans × (control ≤ plans) }
    ensures { (st : State) (t : Env) → IsTick st plan control routes scene.stride chunks plans → Given t scene signals held.now globals.now bases.now tables.now samples.now → values.new ≡ tick_of st t phase values.old }
{
    if control == 0 {
        return;
    }
    let simples = plan_sum::simples_of(routes);
    let work = Work {
        plan,
        control,
        routes,
        scene,
        signals,
        chunks,
        plans,
        phase,
        simples,
    };
    let mut new = plan_slews::room();
    turns_of(
        values, &mut new, work, held, globals, bases, tables, samples,
    );
}
