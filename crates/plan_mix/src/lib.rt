// The sums of a plan, at a tick or at a frame of audio, and the new slews of its routes, in one pass over the routes: each input is worked out once, sixteen lanes at a time where plan and
// route are per voice (engine.rs 843-935, 1313-1399; document 01, Chunk and value). The definitions are in model's specs/Sums and specs/Slews.
#![tactic(auto)]

ghost use Rattle.std.specs.Prelude.{◌≡◌, true, false, cond, List, ℕ, ◌+◌, ◌*◌, ◌/◌, ◌≤◌, ◌<◌, length, Float};
ghost use Rattle.config.specs.Sizes.{slots, lanes};
ghost use Rattle.number.specs.Number.{plus};
ghost use Rattle.state.specs.declared.Route.{Route};
ghost use Rattle.model.specs.Counts.{at};
ghost use Rattle.model.specs.Env.{Env, Rows, Own};
ghost use Rattle.model.specs.Lanes.{in_group, addend};
ghost use Rattle.model.specs.Mix.{Mix};
ghost use Rattle.model.specs.RouteValue.{idle, plain};
ghost use Rattle.model.specs.Sums.{add_lane, other_step, others, tick_sum, audio_sum};
ghost use Rattle.lane_input.specs.Reads.{Works, part_for, point_of};
ghost use Rattle.lane.specs.View.{Placed, aux_part, IsOwn, Viewed};
ghost use Rattle.plan_sum.specs.Job.{Bounded, lane_count, Mixes, Sums};
ghost use Rattle.plan_sum.specs.Ground.{Based, Inside, Chosen, Reached};
ghost use Rattle.plan_slews.specs.Put.{still, new_need, new_start, IsNew};
ghost use Rattle.lanes16.specs.Told.{Told, Stands, AuxStands, Leads, Withs};
ghost use Rattle.plan_mix.specs.Mixed.{Between, Apart, Beside, slew_by, NewGroup, sum_by, SumGroup};

use config::{LANES, SLOTS, VOICES};
use lane::View;
use plan_slews::Motion;
use plan_sum::{GROUPS, Ground, Job, Place, Reach};
use state::{Input, Route, SignalPart};

// ---- sixteen lanes

// the row added to the numbers from `lane` on
fn add_to(sums: &mut [f32], lane: usize, row: [f32; LANES])
    requires { lane + lanes ≤ length sums.old }
    ensures { Between lane lanes (λ (l : ℕ). plus (at sums.old (lane + l)) (at row l)) sums.old sums.new }
{
    for l in 0..16 {
        let p = lane + l;
        let a = sums[p];
        sums[p] = a + row[l];
    }
}

// the row from `start` on
// Not that of `plan_sweep`, which is not below.
fn put_to(new: &mut [f32], start: usize, row: [f32; LANES])
    requires { start + lanes ≤ length new.old }
    ensures { Between start lanes (at row) new.old new.new }
{
    for l in 0..16 {
        new[start + l] = row[l];
    }
}

// the place of what an input at a position reads
fn input_place(
    input: Input,
    view: View,
    part: SignalPart,
    position: usize,
    held: &[f32],
    samples: &[f32],
    values: &[f32],
) -> Place
    requires { Placed view × (position < 2) }
    ensures { Inside result view.point.stride held.now samples.now values.now × ((t : Env) (f : Rows) (s : Own) (j : ℕ) (g : List Float) → Told t f s j view input.read part held.now g samples.now values.now → Stands t f s j position input.read result view.point.stride held.now samples.now values.now) }
{
    let read = input.read;
    lanes16::place_for(read, view, part, position, held, samples, values)
}

// the place of what an aux reads, where there is one
fn aux_place(aux: Option<Input>, view: View, held: &[f32], samples: &[f32], values: &[f32]) -> Place
    requires { Placed view }
    ensures { Inside result view.point.stride held.now samples.now values.now × ((t : Env) (f : Rows) (s : Own) (j : ℕ) (route : Route) (g b : List Float) → route.aux ≡ aux → Viewed t f s j view route held.now g b samples.now values.now → AuxStands t f s j aux result view.point.stride held.now samples.now values.now) }
{
    let part = view.aux;
    match aux {
        None => Place::Nowhere,
        Some(i) => input_place(i, view, part, 1, held, samples, values),
    }
}

// the new slews of an input: the row, or as they are where it has no slew
fn after(
    free: bool,
    row: [f32; LANES],
    view: View,
    q: usize,
    lane: usize,
    values: &[f32],
) -> [f32; LANES]
    requires { Placed view × (q < 2) × (lane + lanes ≤ 64) }
    ensures { (s : Own) (j : ℕ) → IsOwn s j view.own view.point.stride values.now → (l : ℕ) → l < lanes → at result l ≡ cond free (s j q (lane + l)) (at row l) }
{
    if free {
        return lanes16::own_lanes(values, view.own, view.point.stride, q, lane);
    }
    row
}

// the slews of route j, where it has any, in a group that is not worked out: as they are
fn keep_group(new: &mut [f32], j: usize, route: Route, view: View, lane: usize, values: &[f32])
    requires { Placed view × (j < slots) × (lane + lanes ≤ 64) × (length new.old ≡ new_need) }
    ensures { Apart j lane new.old new.new × ((t : Env) (f : Rows) (s : Own) → IsOwn s j view.own view.point.stride values.now → NewGroup t f s j route false lane new.new) }
{
    if plan_slews::still(route) {
        return;
    }
    let start = j * 128 + lane;
    let stride = view.point.stride;
    let source = lanes16::own_lanes(values, view.own, stride, 0, lane);
    put_to(new, start, source);
    let with = lanes16::own_lanes(values, view.own, stride, 1, lane);
    put_to(new, start + 64, with);
}

// the new slews of route j, where it has any, in a group that is worked out, of its source and its aux there
fn put_group(
    new: &mut [f32],
    j: usize,
    route: Route,
    view: View,
    lane: usize,
    source: [f32; LANES],
    with: [f32; LANES],
    values: &[f32],
)
    requires { Placed view × (j < slots) × (lane + lanes ≤ 64) × (length new.old ≡ new_need) }
    ensures { Apart j lane new.old new.new × ((t : Env) (f : Rows) (s : Own) → IsOwn s j view.own view.point.stride values.now → Leads t f s j route lane source → Withs t f s j route route.aux lane with → NewGroup t f s j route true lane new.new) }
{
    if plan_slews::still(route) {
        return;
    }
    let input = route.source;
    let aux = route.aux;
    let start = j * 128 + lane;
    let a = after(plan_slews::input_free(input), source, view, 0, lane, values);
    put_to(new, start, a);
    let b = after(plan_slews::aux_free(aux), with, view, 1, lane, values);
    put_to(new, start + 64, b);
}

// route j in a group, which is worked out where it is on
fn mix_group(
    new: &mut [f32],
    sums: &mut [f32],
    on: bool,
    snap: bool,
    fresh: [bool; VOICES],
    j: usize,
    route: Route,
    view: View,
    source: Place,
    with: Place,
    lane: usize,
    held: &[f32],
    globals: &[f32],
    tables: &[f32],
    samples: &[f32],
    values: &[f32],
)
    requires { Placed view × (j < slots) × (lane + lanes ≤ view.point.stride) × (length new.old ≡ new_need) × (length sums.old ≡ 64) × Inside source view.point.stride held.now samples.now values.now × Inside with view.point.stride held.now samples.now values.now }
    ensures { Apart j lane new.old new.new × Beside lane sums.old sums.new × ((t : Env) (f : Rows) (s : Own) → t.snap ≡ snap → t.fresh ≡ fresh → route.voice ≡ true → Viewed t f s j view route held.now globals.now tables.now samples.now values.now → Stands t f s j 0 route.source.read source view.point.stride held.now samples.now values.now → AuxStands t f s j route.aux with view.point.stride held.now samples.now values.now → NewGroup t f s j route on lane new.new × SumGroup t f s j route on lane sums.old sums.new) }
{
    if !on {
        keep_group(new, j, route, view, lane, values);
        return;
    }
    let aux = route.aux;
    let snaps = lanes16::snap_lanes(snap, fresh, lane);
    let a = lanes16::source_lanes(
        route, source, view, snaps, lane, held, globals, tables, samples, values,
    );
    let b = lanes16::aux_lanes(
        aux, route.slot, with, view, snaps, lane, held, globals, tables, samples, values,
    );
    let v = lanes16::value_lanes(route, view, lane, a, b, values);
    put_group(new, j, route, view, lane, a, b, values);
    add_to(sums, lane, v);
}

// ---- one route

// which groups have an active voice, and how many groups there are
fn marks_of(reach: Reach) -> [bool; GROUPS]
    ensures { (result ≡ reach.groups) × (length result ≡ 4) }
{
    let groups = reach.groups;
    groups
}

// Route j, in each group of lanes.
pub fn mix_voice(
    new: &mut [f32],
    sums: &mut [f32],
    reach: Reach,
    j: usize,
    route: Route,
    view: View,
    held: &[f32],
    globals: &[f32],
    tables: &[f32],
    samples: &[f32],
    values: &[f32],
)
    requires { Placed view × (j < slots) × (length new.old ≡ new_need) × (length sums.old ≡ 64) }
    ensures { (length new.new ≡ new_need) × (length sums.new ≡ 64) × ((p : ℕ) → p < new_start j 0 → at new.new p ≡ at new.old p) × ((t : Env) (f : Rows) (s : Own) → Reached t reach → route.voice ≡ true → Viewed t f s j view route held.now globals.now tables.now samples.now values.now → (l : ℕ) → l < view.point.stride / 16 * 16 → (at sums.new l ≡ sum_by t f s j route (in_group t l) l (at sums.old l)) × (still route ≡ false → (q : ℕ) → q < 2 → at new.new (new_start j q + l) ≡ slew_by t f s j route (in_group t l) q l)) }
{
    let input = route.source;
    let aux = route.aux;
    let part = view.source;
    let fresh = reach.fresh;
    let snap = reach.snap;
    let groups = marks_of(reach);
    let source = input_place(input, view, part, 0, held, samples, values);
    let with = aux_place(aux, view, held, samples, values);
    let n = view.point.stride / 16;
    for g in 0..n {
        let on = groups[g];
        mix_group(
            new,
            sums,
            on,
            snap,
            fresh,
            j,
            route,
            view,
            source,
            with,
            g * 16,
            held,
            globals,
            tables,
            samples,
            values,
        );
    }
}

// the new slews of route j, lane by lane, where it is plain (it skips) or idle (it rests) as they are
fn new_slow(
    new: &mut [f32],
    voice: bool,
    skips: bool,
    rests: bool,
    reach: Reach,
    j: usize,
    route: Route,
    view: View,
    held: &[f32],
    globals: &[f32],
    tables: &[f32],
    samples: &[f32],
    values: &[f32],
)
    requires { Placed view × (j < slots) × (length new.old ≡ new_need) }
    ensures { (length new.new ≡ new_need) × ((p : ℕ) → p < new_start j 0 → at new.new p ≡ at new.old p) × ((t : Env) (f : Rows) (s : Own) (x : Mix) → Reached t reach → Viewed t f s j view route held.now globals.now tables.now samples.now values.now → x.voice ≡ voice → x.route j ≡ route → skips ≡ plain t x.voice route → rests ≡ idle t route → IsNew t x f s j route new.new) }
{
    if plan_slews::still(route) {
        return;
    }
    let voices = reach.voices;
    let fresh = reach.fresh;
    let motion = Motion {
        voices,
        fresh,
        snap: reach.snap,
        voice,
        plain: skips,
        idle: rests,
    };
    plan_slews::new_route(
        new, j, route, view, motion, held, globals, tables, samples, values,
    );
}

// the route's values added, lane by lane
fn sum_slow(
    sums: &mut [f32],
    voice: bool,
    reach: Reach,
    route: Route,
    view: View,
    held: &[f32],
    globals: &[f32],
    tables: &[f32],
    samples: &[f32],
    values: &[f32],
)
    requires { Placed view × (reach.lanes ≤ 64) × (voice ≡ false → reach.lanes ≤ 1) × (length sums.old ≡ 64) }
    ensures { (length sums.new ≡ 64) × ((t : Env) (f : Rows) (s : Own) (j : ℕ) → Reached t reach → Viewed t f s j view route held.now globals.now tables.now samples.now values.now → (l : ℕ) → l < reach.lanes → at sums.new l ≡ add_lane t f s j route (at sums.old l) (addend t voice route.voice l)) }
{
    let row = plan_slews::row_from(sums, 0, VOICES);
    let out = plan_sum::other_lanes(
        voice, reach, route, view, row, held, globals, tables, samples, values,
    );
    plan_slews::put_row(sums, 0, out, VOICES);
}

// whether plan and route are per voice, and the lanes are whole groups
fn wide(voice: bool, route: bool, stride: usize) -> bool
    ensures { result ≡ true → (voice ≡ true) × (route ≡ true) × (stride / 16 * 16 ≡ stride) }
{
    voice && route && stride / 16 * 16 == stride
}

// route j, which is neither plain nor idle, lane by lane
fn mix_slow(
    new: &mut [f32],
    sums: &mut [f32],
    voice: bool,
    reach: Reach,
    j: usize,
    route: Route,
    view: View,
    held: &[f32],
    globals: &[f32],
    tables: &[f32],
    samples: &[f32],
    values: &[f32],
)
    requires { Placed view × (j < slots) × (length new.old ≡ new_need) × (length sums.old ≡ 64) × (reach.lanes ≤ 64) × (voice ≡ false → reach.lanes ≤ 1) }
    ensures { (length new.new ≡ new_need) × (length sums.new ≡ 64) × ((p : ℕ) → p < new_start j 0 → at new.new p ≡ at new.old p) × ((t : Env) (f : Rows) (s : Own) → Reached t reach → Viewed t f s j view route held.now globals.now tables.now samples.now values.now → ((l : ℕ) → l < reach.lanes → at sums.new l ≡ add_lane t f s j route (at sums.old l) (addend t voice route.voice l)) × ((x : Mix) → x.voice ≡ voice → x.route j ≡ route → plain t x.voice route ≡ false → idle t route ≡ false → IsNew t x f s j route new.new)) }
{
    new_slow(
        new, voice, false, false, reach, j, route, view, held, globals, tables, samples, values,
    );
    sum_slow(
        sums, voice, reach, route, view, held, globals, tables, samples, values,
    );
}

// route j, which is neither plain nor idle: its values added, and its new slews
fn mix_moving(
    new: &mut [f32],
    sums: &mut [f32],
    voice: bool,
    reach: Reach,
    j: usize,
    route: Route,
    view: View,
    held: &[f32],
    globals: &[f32],
    tables: &[f32],
    samples: &[f32],
    values: &[f32],
)
    requires { Placed view × (j < slots) × (length new.old ≡ new_need) × (length sums.old ≡ 64) × (reach.lanes ≤ 64) × (voice ≡ false → reach.lanes ≤ 1) × (voice ≡ true → reach.lanes ≤ view.point.stride) }
    ensures { (length new.new ≡ new_need) × (length sums.new ≡ 64) × ((p : ℕ) → p < new_start j 0 → at new.new p ≡ at new.old p) × ((t : Env) (f : Rows) (s : Own) → Reached t reach → Viewed t f s j view route held.now globals.now tables.now samples.now values.now → ((l : ℕ) → l < reach.lanes → at sums.new l ≡ add_lane t f s j route (at sums.old l) (addend t voice route.voice l)) × ((x : Mix) → x.voice ≡ voice → x.route j ≡ route → plain t x.voice route ≡ false → idle t route ≡ false → IsNew t x f s j route new.new)) }
{
    if wide(voice, route.voice, view.point.stride) {
        mix_voice(
            new, sums, reach, j, route, view, held, globals, tables, samples, values,
        );
        return;
    }
    mix_slow(
        new, sums, voice, reach, j, route, view, held, globals, tables, samples, values,
    );
}

// route j, past those that there is room for: added
fn rest_route(
    sums: &mut [f32],
    ground: Ground,
    reach: Reach,
    j: usize,
    route: Route,
    source: SignalPart,
    aux: SignalPart,
    held: &[f32],
    globals: &[f32],
    tables: &[f32],
    samples: &[f32],
    values: &[f32],
)
    requires { Based ground × (reach.lanes ≤ 64) × (ground.voice ≡ false → reach.lanes ≤ 1) × (length sums.old ≡ 64) }
    ensures { (length sums.new ≡ 64) × ((t : Env) (f : Rows) (s : Own) (x : Mix) (w : Job) → Mixes t f s x w held.now globals.now samples.now values.now → Works t (point_of w.scene w.chunks) tables.now → Chosen w ground j route → Reached t reach → j < x.count → source ≡ part_for w.signals route.source.read → aux ≡ aux_part w.signals route.aux → (l : ℕ) → l < reach.lanes → at sums.new l ≡ other_step t f s x j l (x.route j) (at sums.old l)) }
{
    let row = plan_slews::row_from(sums, 0, VOICES);
    let out = plan_sum::add_other(
        ground, reach, j, route, source, aux, row, held, globals, tables, samples, values,
    );
    plan_slews::put_row(sums, 0, out, VOICES);
}

// route j, whose inputs read these parts, where there is room for its new slews: added where it is neither plain nor idle, and its new slews
fn mix_there(
    new: &mut [f32],
    sums: &mut [f32],
    ground: Ground,
    reach: Reach,
    j: usize,
    route: Route,
    source: SignalPart,
    aux: SignalPart,
    held: &[f32],
    globals: &[f32],
    tables: &[f32],
    samples: &[f32],
    values: &[f32],
)
    requires { Based ground × (reach.lanes ≤ 64) × (ground.voice ≡ false → reach.lanes ≤ 1) × (ground.voice ≡ true → reach.lanes ≤ ground.point.stride) × (length new.old ≡ new_need) × (length sums.old ≡ 64) × (j < slots) }
    ensures { (length new.new ≡ new_need) × (length sums.new ≡ 64) × ((p : ℕ) → p < new_start j 0 → at new.new p ≡ at new.old p) × ((t : Env) (f : Rows) (s : Own) (x : Mix) (w : Job) → Mixes t f s x w held.now globals.now samples.now values.now → Works t (point_of w.scene w.chunks) tables.now → Chosen w ground j route → Reached t reach → j < x.count → source ≡ part_for w.signals route.source.read → aux ≡ aux_part w.signals route.aux → ((l : ℕ) → l < reach.lanes → at sums.new l ≡ other_step t f s x j l (x.route j) (at sums.old l)) × IsNew t x f s j route new.new) }
{
    let voice = ground.voice;
    let view = plan_sum::view_for(ground, j, route, source, aux);
    let plain = plan_sum::is_plain(ground, route, source);
    let idle = lane::idle(route, view.amount, view.output);
    if lane::moves_in(plain, idle, true) {
        mix_moving(
            new, sums, voice, reach, j, route, view, held, globals, tables, samples, values,
        );
        return;
    }
    new_slow(
        new, voice, plain, idle, reach, j, route, view, held, globals, tables, samples, values,
    );
}

// route j, whose inputs read these parts: added where it is neither plain nor idle, and its new slews where there is room for them
fn mix_route(
    new: &mut [f32],
    sums: &mut [f32],
    ground: Ground,
    reach: Reach,
    j: usize,
    route: Route,
    source: SignalPart,
    aux: SignalPart,
    held: &[f32],
    globals: &[f32],
    tables: &[f32],
    samples: &[f32],
    values: &[f32],
)
    requires { Based ground × (reach.lanes ≤ 64) × (ground.voice ≡ false → reach.lanes ≤ 1) × (ground.voice ≡ true → reach.lanes ≤ ground.point.stride) × (length new.old ≡ new_need) × (length sums.old ≡ 64) }
    ensures { (length new.new ≡ new_need) × (length sums.new ≡ 64) × ((p : ℕ) → p < new_start j 0 → at new.new p ≡ at new.old p) × ((t : Env) (f : Rows) (s : Own) (x : Mix) (w : Job) → Mixes t f s x w held.now globals.now samples.now values.now → Works t (point_of w.scene w.chunks) tables.now → Chosen w ground j route → Reached t reach → j < x.count → source ≡ part_for w.signals route.source.read → aux ≡ aux_part w.signals route.aux → ((l : ℕ) → l < reach.lanes → at sums.new l ≡ other_step t f s x j l (x.route j) (at sums.old l)) × (j < slots → IsNew t x f s j route new.new)) }
{
    if SLOTS <= j {
        rest_route(
            sums, ground, reach, j, route, source, aux, held, globals, tables, samples, values,
        );
        return;
    }
    mix_there(
        new, sums, ground, reach, j, route, source, aux, held, globals, tables, samples, values,
    );
}

// ---- all routes

// every other route added, and the new slews of all
fn mix_all(
    new: &mut [f32],
    sums: &mut [f32],
    job: Job,
    held: &[f32],
    globals: &[f32],
    tables: &[f32],
    samples: &[f32],
    values: &[f32],
)
    requires { Bounded job × (length new.old ≡ new_need) × (length sums.old ≡ 64) }
    ensures { (length new.new ≡ new_need) × (length sums.new ≡ 64) × ((t : Env) (f : Rows) (s : Own) (x : Mix) → Mixes t f s x job held.now globals.now samples.now values.now → Works t (point_of job.scene job.chunks) tables.now → ((l : ℕ) → l < lane_count job → at sums.new l ≡ others t f s x l (at sums.old l) x.count) × ((j : ℕ) → j < x.count → j < slots → IsNew t x f s j (x.route j) new.new)) }
{
    let ground = plan_sum::ground_of(job);
    let reach = plan_sum::reach_of(job);
    let plan = job.plan;
    let count = plan_sum::counted(plan.count);
    let routes = plan_sum::routes_of(job);
    let signals = job.signals;
    let parts = plan_sum::parts_of(signals);
    let first = plan.first;
    for j in 0..count {
        let i = plan_sum::route_index(first, j);
        let stored = routes[i];
        let route = plan_sum::route_or(first, j, stored);
        let key = plan_sum::source_key(route);
        let k = plan_sum::part_index(key);
        let kept = parts[k];
        let source = plan_sum::part_or(key, kept);
        let other = plan_sum::route_aux_key(route);
        let m = plan_sum::part_index(other);
        let spare = parts[m];
        let aux = plan_sum::part_or(other, spare);
        mix_route(
            new, sums, ground, reach, j, route, source, aux, held, globals, tables, samples, values,
        );
    }
}

// The sum of a destination at a tick in each lane of its row, and the new slews of its routes.
pub fn mix(
    new: &mut [f32],
    job: Job,
    held: &[f32],
    globals: &[f32],
    bases: &[f32],
    tables: &[f32],
    samples: &[f32],
    values: &[f32],
) -> [f32; VOICES]
    requires { Bounded job × (length new.old ≡ new_need) }
    ensures { (length new.new ≡ new_need) × ((t : Env) (f : Rows) (s : Own) (x : Mix) → Sums t f s x job held.now globals.now bases.now tables.now samples.now values.now → ((l : ℕ) → l < lane_count job → at result l ≡ tick_sum t f s x l) × ((j : ℕ) → j < x.count → j < slots → IsNew t x f s j (x.route j) new.new)) }
{
    let base = plan_sum::base_in(job, globals, bases);
    let mut row = plan_sum::tick_begun(job, base, held, globals, samples, values);
    mix_all(new, &mut row, job, held, globals, tables, samples, values);
    row
}

// the same at a frame of audio, in a loop of its own, so that each loop becomes a part of its caller (docs/SPEED.md)
fn mix_frame(
    new: &mut [f32],
    sums: &mut [f32],
    job: Job,
    held: &[f32],
    globals: &[f32],
    tables: &[f32],
    samples: &[f32],
    values: &[f32],
)
    requires { Bounded job × (length new.old ≡ new_need) × (length sums.old ≡ 64) }
    ensures { (length new.new ≡ new_need) × (length sums.new ≡ 64) × ((t : Env) (f : Rows) (s : Own) (x : Mix) → Mixes t f s x job held.now globals.now samples.now values.now → Works t (point_of job.scene job.chunks) tables.now → ((l : ℕ) → l < lane_count job → at sums.new l ≡ others t f s x l (at sums.old l) x.count) × ((j : ℕ) → j < x.count → j < slots → IsNew t x f s j (x.route j) new.new)) }
{
    let ground = plan_sum::ground_of(job);
    let reach = plan_sum::reach_of(job);
    let plan = job.plan;
    let count = plan_sum::counted(plan.count);
    let routes = plan_sum::routes_of(job);
    let signals = job.signals;
    let parts = plan_sum::parts_of(signals);
    let first = plan.first;
    for j in 0..count {
        let i = plan_sum::route_index(first, j);
        let stored = routes[i];
        let route = plan_sum::route_or(first, j, stored);
        let key = plan_sum::source_key(route);
        let k = plan_sum::part_index(key);
        let kept = parts[k];
        let source = plan_sum::part_or(key, kept);
        let other = plan_sum::route_aux_key(route);
        let m = plan_sum::part_index(other);
        let spare = parts[m];
        let aux = plan_sum::part_or(other, spare);
        mix_route(
            new, sums, ground, reach, j, route, source, aux, held, globals, tables, samples, values,
        );
    }
}

// The sum of a destination in audio in each lane of its row, where `old` stands there, and the new slews of its routes.
pub fn mix_audio(
    new: &mut [f32],
    job: Job,
    old: [f32; VOICES],
    held: &[f32],
    globals: &[f32],
    bases: &[f32],
    tables: &[f32],
    samples: &[f32],
    values: &[f32],
) -> [f32; VOICES]
    requires { Bounded job × (length new.old ≡ new_need) }
    ensures { (length new.new ≡ new_need) × ((t : Env) (f : Rows) (s : Own) (x : Mix) → Sums t f s x job held.now globals.now bases.now tables.now samples.now values.now → ((l : ℕ) → l < lane_count job → at result l ≡ audio_sum t f s x (at old l) l) × ((j : ℕ) → j < x.count → j < slots → IsNew t x f s j (x.route j) new.new)) }
{
    let base = plan_sum::base_in(job, globals, bases);
    let mut row = plan_sum::audio_begun(job, base, old, held, globals, samples, values);
    mix_frame(new, &mut row, job, held, globals, tables, samples, values);
    row
}
