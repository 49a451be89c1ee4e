// The audio rows of a chunk: plan after plan, frame after frame, the slews moving by one sample (engine.rs 940-1006, 1224-1294; document 01, Chunk and value). The
// definitions are in model's specs/Audio. A contract holds of every state that has what the function is handed: specs/Rows and specs/Work say what that is.
#![tactic(auto)]

ghost use Rattle.std.specs.Prelude.{◌≡◌, true, false, not, cond, ◌&&◌, ◌||◌, List, ℕ, ◌+◌, ◌*◌, ◌≤◌, ◌<◌, eqb, length, get_or, Float};
ghost use Rattle.std.specs.Float.{inf};
ghost use Rattle.std.specs.Float.Ieee.{lt};
ghost use Rattle.config.specs.Sizes.{slots, most_voices};
ghost use Rattle.number.specs.Number.{hold};
ghost use Rattle.state_filled.specs.Filled.{no_plan};
ghost use Rattle.state.specs.declared.State.{State};
ghost use Rattle.model.specs.Audio.{Sounds, whole_plain, new_audio, audio_frames, audio_plans, audio_of};
ghost use Rattle.model.specs.Counts.{at};
ghost use Rattle.model.specs.Env.{Env, Rows, Own};
ghost use Rattle.model.specs.Lanes.{in_span};
ghost use Rattle.model.specs.Layout.{audio_row};
ghost use Rattle.model.specs.Mix.{Mix};
ghost use Rattle.model.specs.Tick.{lanes_from};
ghost use Rattle.plan_slews.specs.Put.{new_need, IsNew};
ghost use Rattle.plan_slews.specs.Rows.{IsRow};
ghost use Rattle.plan_sum.specs.Job.{NoneSimple, Bounded, lane_count, base_by, IsScene, IsJob, Sums};
ghost use Rattle.plan_sweep.specs.Leads.{Swept};
ghost use Rattle.plan_sweep.specs.Sweep.{swept_rows, Within};
ghost use Rattle.audio_rows.specs.Rows.{sounds, scene_at, job_at, job_env, Of, row_frame, row_frames};
ghost use Rattle.audio_rows.specs.Work.{Sized, audio_room, Installed, job_of, work_env};
ghost use Rattle.audio_rows.specs.Passes.{row_pass, Ready, Prepared, ReadyBy, PreparedBy, Only};

use config::{SLOTS, VOICES};
use lane_input::Scene;
use plan_sum::Job;
use plan_sweep::{Field, Leads, Pass};
use state::{Chunk, Gains, Plan, Route, Signals};

// ---- one row

// The scene at a frame of a chunk that ends at `end`: slews move by one sample.
pub fn scene_at(scene: Scene, frame: usize, end: usize, snap: bool) -> Scene
    ensures { result ≡ scene_at scene frame end snap }
{
    let voices = scene.voices;
    let fresh = scene.fresh;
    let gains = scene.gains;
    Scene {
        stride: scene.stride,
        voices,
        fresh,
        gains,
        primed: scene.primed,
        frame,
        up_to: end,
        steps: 1.0,
        snap,
    }
}

// The first n lanes of the row that starts there.
pub fn old_row(audio: &[f32], start: usize, n: usize) -> [f32; VOICES]
    requires { n ≤ 64 }
    ensures { IsRow n (lanes_from audio.now start) result }
{
    let mut out = [0.0; VOICES];
    for l in 0..n {
        out[l] = lane_input::lane_from(audio, start, l);
    }
    out
}

fn infinity() -> f32
    ensures { result ≡ inf false }
{
    let one = 1.0f32;
    one / 0.0
}

fn minus_infinity() -> f32
    ensures { result ≡ inf true }
{
    let one = -1.0f32;
    one / 0.0
}

// whether one of the bounds is no infinity that holds nothing
fn bounded(min: f32, max: f32) -> bool
    ensures { result ≡ (lt (inf true) min || lt max (inf false)) }
{
    let low = minus_infinity();
    if low < min {
        return true;
    }
    let high = infinity();
    max < high
}

// whether every route is plain, and there are some
fn whole_plain(job: Job) -> bool
    ensures { (t : Env) (x : Mix) → IsJob t x job → result ≡ whole_plain t x }
{
    let all = plan_sum::totals_of(job);
    all.some && all.all
}

// x held to the bounds; where every route is plain, only in the active span
fn hold_lane(job: Job, whole: bool, lane: usize, x: f32) -> f32
    requires { lane < most_voices }
    ensures { (t : Env) → IsScene t job.scene job.signals → result ≡ cond (not whole || in_span t lane) (hold job.plan.min job.plan.max x) x }
{
    let plan = job.plan;
    if !whole {
        return number::held(plan.min, plan.max, x);
    }
    let scene = job.scene;
    let voices = scene.voices;
    let active = voices.active;
    if lane_input::in_span(active, scene.stride, lane) {
        return number::held(plan.min, plan.max, x);
    }
    x
}

// each lane of the row so
fn hold_lanes(job: Job, whole: bool, row: [f32; VOICES]) -> [f32; VOICES]
    requires { Bounded job }
    ensures { (t : Env) → IsScene t job.scene job.signals → (l : ℕ) → l < lane_count job → at result l ≡ cond (not whole || in_span t l) (hold job.plan.min job.plan.max (at row l)) (at row l) }
{
    let n = plan_sum::lane_count(job);
    let mut out = row;
    for l in 0..n {
        let a = out[l];
        out[l] = hold_lane(job, whole, l, a);
    }
    out
}

// The numbers of a destination at a frame, in each lane of its row, where `old` stands there, and the new slews of its routes.
pub fn new_row(
    new: &mut [f32],
    job: Job,
    old: [f32; VOICES],
    held: &[f32],
    globals: &[f32],
    bases: &[f32],
    tables: &[f32],
    samples: &[f32],
    values: &[f32],
) -> [f32; VOICES]
    requires { Bounded job × (length new.old ≡ new_need) }
    ensures { (t : Env) (f : Rows) (s : Own) (x : Mix) → Sums t f s x job held.now globals.now bases.now tables.now samples.now values.now → ((o : ℕ → Float) → IsRow (lane_count job) o old → IsRow (lane_count job) (new_audio t x f s o) result) × ((j : ℕ) → j < x.count → j < slots → IsNew t x f s j (x.route j) new.new) }
{
    let row = plan_mix::mix_audio(new, job, old, held, globals, bases, tables, samples, values);
    let plan = job.plan;
    if !bounded(plan.min, plan.max) {
        return row;
    }
    let whole = whole_plain(job);
    hold_lanes(job, whole, row)
}

// ---- one frame

// The row of a plan at a frame, which starts there, and the plan's slews; `new` is room for them.
pub fn frame(
    values: &mut [f32],
    audio: &mut [f32],
    new: &mut [f32],
    job: Job,
    start: usize,
    held: &[f32],
    globals: &[f32],
    bases: &[f32],
    tables: &[f32],
    samples: &[f32],
)
    requires { Bounded job × (length new.old ≡ new_need) }
    ensures { (st : State) (d : ℕ) → Of st d job → sounds values.new audio.new ≡ row_frame st (job_env job held.now globals.now bases.now tables.now samples.now) d start (sounds values.old audio.old) }
{
    let n = plan_sum::lane_count(job);
    let old = old_row(audio, start, n);
    let row = new_row(new, job, old, held, globals, bases, tables, samples, values);
    plan_slews::put_slews(values, job, new);
    plan_slews::put_row(audio, start, row, n);
}

// ---- the frames of a chunk

// whether fresh lanes snap at frame n of a chunk
fn snaps(snap: bool, n: usize) -> bool
    ensures { result ≡ (snap && eqb n 0) }
{
    snap && n == 0
}

// The job at frame n of a chunk.
pub fn job_at(job: Job, chunk: Chunk, n: usize) -> Job
    requires { (chunk.start + chunk.len ≤ 4096) × (n ≤ chunk.len) }
    ensures { result ≡ job_at job chunk n }
{
    let plan = job.plan;
    let routes = job.routes;
    let before = job.scene;
    let signals = job.signals;
    let snap = snaps(before.snap, n);
    let scene = scene_at(before, chunk.start + n, chunk.start + chunk.len, snap);
    Job {
        plan,
        routes,
        scene,
        signals,
        chunks: job.chunks,
        plans: job.plans,
        simple: job.simple,
    }
}

// where row n starts, of rows of that width
fn row_at(width: usize, n: usize) -> usize
    requires { (width ≤ 64) × (n ≤ 4096) }
    ensures { (result ≡ n * width) × (result ≤ 262144) }
{
    n * width
}

// The rows of a plan in a chunk, of which the first is at the start of the audio that is lent, and the plan's slews; `new` is room for them.
pub fn frames(
    values: &mut [f32],
    audio: &mut [f32],
    new: &mut [f32],
    job: Job,
    chunk: Chunk,
    held: &[f32],
    globals: &[f32],
    bases: &[f32],
    tables: &[f32],
    samples: &[f32],
)
    requires { Bounded job × (chunk.start + chunk.len ≤ 4096) × (length new.old ≡ new_need) }
    ensures { (st : State) (d : ℕ) → Of st d job → sounds values.new audio.new ≡ row_frames st (job_env job held.now globals.now bases.now tables.now samples.now) chunk d 0 chunk.len (sounds values.old audio.old) }
{
    let width = plan_sum::lane_count(job);
    let len = chunk.len;
    for n in 0..len {
        let here = job_at(job, chunk, n);
        let start = row_at(width, n);
        frame(
            values, audio, new, here, start, held, globals, bases, tables, samples,
        );
    }
}

// ---- the plans

// What the audio of a chunk is worked out from, besides the lent numbers: the plans, of which `plans` are there and the first `control` have no audio, the routes,
// scene and signals, how many chunks a plan has room for, and how many frames.
#[derive(Clone, Copy)]
pub struct Work {
    pub plan: [Plan; SLOTS],
    pub routes: [Route; SLOTS],
    pub scene: Scene,
    pub signals: Signals,
    pub chunks: usize,
    pub frames: usize,
    pub plans: usize,
    pub control: usize,
}

// a plan of the program
fn plan_at(plans: [Plan; SLOTS], d: usize) -> Plan
    requires { d < slots }
    ensures { result ≡ get_or plans d no_plan }
{
    plans[d]
}

// the job of plan d
fn job_of(work: Work, d: usize) -> Job
    requires { d < slots }
    ensures { (result ≡ job_of work (get_or work.plan d no_plan) result.simple) × (result.simple ≡ false → NoneSimple work.routes (get_or work.plan d no_plan)) }
{
    let plans = work.plan;
    let routes = work.routes;
    let scene = work.scene;
    let signals = work.signals;
    let plan = plan_at(plans, d);
    let simples = plan_sum::simples_of(routes);
    let simple = plan_sum::some_simple(simples, plan.first, plan.count);
    Job {
        plan,
        routes,
        scene,
        signals,
        chunks: work.chunks,
        plans: work.plans,
        simple,
    }
}

// where the row of plan d, of that width, starts at frame k
fn audio_at(stride: usize, frames: usize, d: usize, width: usize, k: usize) -> usize
    requires { (stride ≤ 64) × (frames ≤ 4096) × (d < slots) × (width ≤ 64) × (k ≤ 4096) }
    ensures { (result ≡ audio_row stride frames d width k) × (result ≤ 33554432) }
{
    d * (stride * frames) + k * width
}

// The rows of plan d in a chunk, which are a part of the audio, and its slews.
pub fn plan_frames(
    values: &mut [f32],
    audio: &mut [f32],
    work: Work,
    chunk: Chunk,
    d: usize,
    held: &[f32],
    globals: &[f32],
    bases: &[f32],
    tables: &[f32],
    samples: &[f32],
)
    requires { Sized work chunk × (d < work.plans) × (audio_room work ≤ length audio.old) }
    ensures { (st : State) → Installed st work → sounds values.new audio.new ≡ audio_frames st (work_env work held.now globals.now bases.now tables.now samples.now) chunk d chunk.len (sounds values.old audio.old) }
{
    let stride = work.scene.stride;
    let job = job_of(work, d);
    let width = plan_sum::lane_count(job);
    let a = audio_at(stride, work.frames, d, width, chunk.start);
    let e = a + row_at(width, chunk.len);
    let mut new = plan_slews::room();
    frames(
        values,
        &mut audio[a..e],
        &mut new,
        job,
        chunk,
        held,
        globals,
        bases,
        tables,
        samples,
    );
}

// ---- plans that are swept

// what the rows of a plan are swept by
fn pass_of(
    field: Field,
    plan: Plan,
    levels: Gains,
    globals: &[f32],
    bases: &[f32],
    offsets: &[f32],
) -> Pass
    requires { plan.first + plan.count ≤ length offsets.now }
    ensures { result ≡ row_pass field plan (base_by levels globals.now bases.now plan.dest plan.base) offsets.now }
{
    let kind = plan.base;
    let base = plan_sum::base_by(kind, plan.dest, levels, globals, bases);
    let bound = bounded(plan.min, plan.max);
    plan_sweep::pass_of(field, plan, base, bound, offsets)
}

// The rows of a plan in a chunk, which are a part of the audio that starts at a.
pub fn sweep_plan(
    audio: &mut [f32],
    pass: Pass,
    a: usize,
    chunk: Chunk,
    starts: &[usize],
    steps: &[usize],
    gains: &[f32],
    samples: &[f32],
)
    requires { Within starts.now steps.now gains.now samples.now pass (chunk.start + chunk.len) × (a + chunk.len * pass.width ≤ length audio.old) }
    ensures { audio.new ≡ swept_rows starts.now steps.now gains.now samples.now pass a chunk.start chunk.len audio.old }
{
    let e = a + row_at(pass.width, chunk.len);
    plan_sweep::rows(
        &mut audio[a..e],
        pass,
        starts,
        steps,
        gains,
        samples,
        chunk.start,
        chunk.len,
    );
}

// The rows of the plans that have audio, from plan `from` of these on, up to the first that is not swept: which that is, or their count.
pub fn sweep_plans(
    audio: &mut [f32],
    field: Field,
    plans: [Plan; SLOTS],
    control: usize,
    from: usize,
    count: usize,
    chunk: Chunk,
    levels: Gains,
    globals: &[f32],
    bases: &[f32],
    starts: &[usize],
    steps: &[usize],
    gains: &[f32],
    offsets: &[f32],
    samples: &[f32],
) -> usize
    requires { Ready field chunk (control + count) (length audio.old) samples.now starts.now steps.now gains.now offsets.now × (from ≤ count) }
    ensures { (from ≤ result) × (result ≤ count) × ((st : State) (w : Work) (h b v : List Float) (m : Sounds) → Installed st w → Prepared w chunk field plans control levels samples.now starts.now steps.now gains.now offsets.now → sounds v audio.old ≡ audio_plans st (work_env w h globals.now bases.now b samples.now) chunk from m → sounds v audio.new ≡ audio_plans st (work_env w h globals.now bases.now b samples.now) chunk result m) }
{
    for k in from..count {
        let d = control + k;
        let plan = plans[d];
        if !plan_sweep::is_swept(field, plan, steps) {
            return k;
        }
        let pass = pass_of(field, plan, levels, globals, bases, offsets);
        let a = audio_at(field.stride, field.frames, d, field.stride, chunk.start);
        sweep_plan(audio, pass, a, chunk, starts, steps, gains, samples);
    }
    count
}

// What the plans of a chunk that have audio are swept by, besides the lent numbers: the field, the plans, of which the first `control` have no audio and `count` have,
// the gains as set, and what each route is swept by.
#[derive(Clone, Copy)]
pub struct Sweeping {
    pub field: Field,
    pub plan: [Plan; SLOTS],
    pub control: usize,
    pub count: usize,
    pub levels: Gains,
    pub leads: Leads,
}

// That of the work.
pub fn sweeping_of(work: Work, chunk: Chunk, samples: &[f32]) -> Sweeping
    requires { Sized work chunk }
    ensures { PreparedBy work chunk result samples.now × ((n : ℕ) → audio_room work ≤ n → ReadyBy chunk n result samples.now) }
{
    let plan = work.plan;
    let routes = work.routes;
    let signals = work.signals;
    let scene = work.scene;
    let voices = scene.voices;
    let active = voices.active;
    let levels = scene.gains;
    let up_to = chunk.start + chunk.len;
    let field = plan_sweep::field_of(active, scene.stride, work.frames);
    let leads = plan_sweep::leads_of(routes, signals, levels, scene.stride, up_to, samples);
    Sweeping {
        field,
        plan,
        control: work.control,
        count: work.plans - work.control,
        levels,
        leads,
    }
}

// the plans from `from` on up to the first that is not swept
fn sweep_from(
    audio: &mut [f32],
    sweeping: Sweeping,
    chunk: Chunk,
    from: usize,
    globals: &[f32],
    bases: &[f32],
    samples: &[f32],
) -> usize
    requires { ReadyBy chunk (length audio.old) sweeping samples.now × (from ≤ sweeping.count) }
    ensures { (from ≤ result) × (result ≤ sweeping.count) × ((st : State) (w : Work) (h b v : List Float) (m : Sounds) → Installed st w → PreparedBy w chunk sweeping samples.now → sounds v audio.old ≡ audio_plans st (work_env w h globals.now bases.now b samples.now) chunk from m → sounds v audio.new ≡ audio_plans st (work_env w h globals.now bases.now b samples.now) chunk result m) }
{
    let plans = sweeping.plan;
    let levels = sweeping.levels;
    let leads = sweeping.leads;
    let starts = leads.starts;
    let steps = leads.steps;
    let gains = leads.gains;
    let offsets = leads.offsets;
    sweep_plans(
        audio,
        sweeping.field,
        plans,
        sweeping.control,
        from,
        sweeping.count,
        chunk,
        levels,
        globals,
        bases,
        &starts,
        &steps,
        &gains,
        &offsets,
        samples,
    )
}

// ---- where every plan is swept

// whether each of `count` plans from plan `control` on is swept
fn each_swept(
    field: Field,
    plans: [Plan; SLOTS],
    control: usize,
    count: usize,
    steps: &[usize],
) -> bool
    requires { (length steps.now ≡ slots) × (control + count ≤ slots) }
    ensures { result ≡ true → (k : ℕ) → k < count → Swept field (get_or plans (control + k) no_plan) steps.now }
{
    for k in 0..count {
        let d = control + k;
        let plan = plans[d];
        if !plan_sweep::is_swept(field, plan, steps) {
            return false;
        }
    }
    true
}

// Whether there are no control plans, and every plan is swept.
pub fn only_swept(sweeping: Sweeping) -> bool
    requires { (length sweeping.leads.steps ≡ slots) × (sweeping.control + sweeping.count ≤ slots) }
    ensures { result ≡ true → Only sweeping }
{
    if 0 < sweeping.control {
        return false;
    }
    let plans = sweeping.plan;
    let leads = sweeping.leads;
    let steps = leads.steps;
    each_swept(
        sweeping.field,
        plans,
        sweeping.control,
        sweeping.count,
        &steps,
    )
}

// the rows of `count` plans from plan `control` on, each of which is swept
fn sweep_each(
    audio: &mut [f32],
    field: Field,
    plans: [Plan; SLOTS],
    control: usize,
    count: usize,
    chunk: Chunk,
    levels: Gains,
    globals: &[f32],
    bases: &[f32],
    starts: &[usize],
    steps: &[usize],
    gains: &[f32],
    offsets: &[f32],
    samples: &[f32],
)
    requires { Ready field chunk (control + count) (length audio.old) samples.now starts.now steps.now gains.now offsets.now × ((k : ℕ) → k < count → Swept field (get_or plans (control + k) no_plan) steps.now) }
    ensures { (st : State) (w : Work) (h b v : List Float) → Installed st w → Prepared w chunk field plans control levels samples.now starts.now steps.now gains.now offsets.now → sounds v audio.new ≡ audio_plans st (work_env w h globals.now bases.now b samples.now) chunk count (sounds v audio.old) }
{
    for k in 0..count {
        let d = control + k;
        let plan = plans[d];
        let pass = pass_of(field, plan, levels, globals, bases, offsets);
        let a = audio_at(field.stride, field.frames, d, field.stride, chunk.start);
        sweep_plan(audio, pass, a, chunk, starts, steps, gains, samples);
    }
}

// The rows of a chunk where every plan is swept.
pub fn sweep_all(
    audio: &mut [f32],
    sweeping: Sweeping,
    chunk: Chunk,
    globals: &[f32],
    bases: &[f32],
    samples: &[f32],
)
    requires { ReadyBy chunk (length audio.old) sweeping samples.now × Only sweeping }
    ensures { (st : State) (w : Work) (h b v : List Float) → Installed st w → PreparedBy w chunk sweeping samples.now → sounds v audio.new ≡ audio_of st (work_env w h globals.now bases.now b samples.now) chunk (sounds v audio.old) }
{
    let plans = sweeping.plan;
    let levels = sweeping.levels;
    let leads = sweeping.leads;
    let starts = leads.starts;
    let steps = leads.steps;
    let gains = leads.gains;
    let offsets = leads.offsets;
    sweep_each(
        audio,
        sweeping.field,
        plans,
        sweeping.control,
        sweeping.count,
        chunk,
        levels,
        globals,
        bases,
        &starts,
        &steps,
        &gains,
        &offsets,
        samples,
    );
}

// The rows of the plans that have audio, and their slews: those that are swept together, then the one that is not.
fn plans_from(
    values: &mut [f32],
    audio: &mut [f32],
    work: Work,
    sweeping: Sweeping,
    chunk: Chunk,
    held: &[f32],
    globals: &[f32],
    bases: &[f32],
    tables: &[f32],
    samples: &[f32],
)
    requires { Sized work chunk × (audio_room work ≤ length audio.old) × ReadyBy chunk (length audio.old) sweeping samples.now × PreparedBy work chunk sweeping samples.now }
    ensures { (st : State) → Installed st work → sounds values.new audio.new ≡ audio_of st (work_env work held.now globals.now bases.now tables.now samples.now) chunk (sounds values.old audio.old) }
{
    let control = work.control;
    let count = sweeping.count;
    let mut k = 0usize;
    // Not a for: a turn sweeps as many plans as it can, so k moves on by more than one.
    while k < count {
        let m = sweep_from(audio, sweeping, chunk, k, globals, bases, samples);
        if count <= m {
            return;
        }
        let d = control + m;
        plan_frames(
            values, audio, work, chunk, d, held, globals, bases, tables, samples,
        );
        k = m + 1;
    }
}

// The audio of a chunk: the rows of the plans that have audio, and their slews.
pub fn audio_plans(
    values: &mut [f32],
    audio: &mut [f32],
    work: Work,
    chunk: Chunk,
    held: &[f32],
    globals: &[f32],
    bases: &[f32],
    tables: &[f32],
    samples: &[f32],
)
    requires { Sized work chunk × (audio_room work ≤ length audio.old) }
    ensures { (st : State) → Installed st work → sounds values.new audio.new ≡ audio_of st (work_env work held.now globals.now bases.now tables.now samples.now) chunk (sounds values.old audio.old) }
{
    if work.plans <= work.control {
        return;
    }
    let sweeping = sweeping_of(work, chunk, samples);
    plans_from(
        values, audio, work, sweeping, chunk, held, globals, bases, tables, samples,
    );
}
