// A route's inputs and its value in sixteen lanes, stage by stage (engine.rs 1013-1039, 1345-1478; document 01, Chunk and value). The definitions are in model's
// specs/Input and specs/RouteValue. A contract holds of every environment that has what the function is handed.
#![tactic(auto)]

ghost use Rattle.std.specs.Prelude.{◌≡◌, true, cond, List, ℕ, ◌+◌, ◌*◌, ◌≤◌, ◌<◌, ltb, length, get_or, Float};
ghost use Rattle.std.specs.Float.Ieee.{le};
ghost use Rattle.config.specs.Sizes.{lanes};
ghost use Rattle.number.specs.Number.{zero32, one32, plus, less, times, whole_part, nearest32};
ghost use Rattle.list.specs.Rows.{row_at};
ghost use Rattle.curve_table.specs.Table.{points, position, cell_at, between, lookup_of};
ghost use Rattle.slew.specs.Slew.{slew_step};
ghost use Rattle.model.specs.Counts.{at};
ghost use Rattle.model.specs.Env.{Env, Rows, Own, part_stride, sample_in, live_amount_of, live_output_of};
ghost use Rattle.model.specs.Input.{unipolar, curved, slewed, input_in, fed_at};
ghost use Rattle.model.specs.Lanes.{snap_of};
ghost use Rattle.model.specs.RouteValue.{own_at, spread, flipped, sourced, with_aux, gain_in, route_value};
ghost use Rattle.lane_input.specs.Reads.{Sized, IsRows, Reads, Works};
ghost use Rattle.lane.specs.View.{most_values, Placed, IsOwn, Viewed};
ghost use Rattle.plan_sum.specs.Ground.{Inside, Tells};
ghost use Rattle.lanes16.specs.Told.{read_at, Told, Stands, AuxStands, bare, lead_in, Snaps, Leads, Withs};
ghost use Rattle.lanes16.specs.Cells.{last32, Celled};

use config::{LANES, VOICES};
use curve_table::POINTS;
use lane::View;
use lane_input::Point;
use plan_sum::Place;
use state::{Gain, Input, Read, Route, SignalPart, Slew};

// ---- sixteen numbers

// sixteen numbers from p on
fn copied(xs: &[f32], p: usize) -> [f32; LANES]
    requires { p + lanes ≤ length xs.now }
    ensures { (l : ℕ) → l < lanes → at result l ≡ at xs.now (p + l) }
{
    let mut out = [0.0f32; LANES];
    for l in 0..16 {
        out[l] = xs[p + l];
    }
    out
}

// a times b
fn times_lanes(a: [f32; LANES], b: [f32; LANES]) -> [f32; LANES]
    ensures { (l : ℕ) → l < lanes → at result l ≡ times (at a l) (at b l) }
{
    let mut out = a;
    for l in 0..16 {
        out[l] = out[l] * b[l];
    }
    out
}

// ---- what an input reads

// The place of what an input at a position reads.
pub fn place_for(
    read: Read,
    view: View,
    part: SignalPart,
    position: usize,
    held: &[f32],
    samples: &[f32],
    values: &[f32],
) -> Place
    requires { Placed view × (position < 2) }
    ensures { Inside result view.point.stride held.now samples.now values.now × ((t : Env) (f : Rows) (s : Own) (j : ℕ) (g : List Float) → Told t f s j view read part held.now g samples.now values.now → Stands t f s j position read result view.point.stride held.now samples.now values.now) }
{
    let point = view.point;
    let stride = point.stride;
    match read {
        Read::Signal { source: _, voice } => plan_sum::signal_place(
            voice,
            part,
            point.frame,
            stride,
            samples,
        ),
        Read::Held { source, voice } => plan_sum::held_place(voice, source, stride, held),
        Read::Fed { plan, voice } => plan_sum::values_place(
            voice,
            lane_input::plan_to(stride, point.chunks, plan),
            stride,
            values,
        ),
        Read::Constant => Place::Nowhere,
        Read::RouteRandom => plan_sum::values_place(
            true,
            lane::own_row(view.own, stride, 2 + position),
            stride,
            values,
        ),
    }
}

// what an input at a position reads in a lane
fn read_lane(
    read: Read,
    view: View,
    part: SignalPart,
    position: usize,
    lane: usize,
    held: &[f32],
    globals: &[f32],
    samples: &[f32],
    values: &[f32],
) -> f32
    requires { Placed view × (position < 2) }
    ensures { (t : Env) (f : Rows) (s : Own) (j : ℕ) → Told t f s j view read part held.now globals.now samples.now values.now → result ≡ read_at t f s j position read lane }
{
    let point = view.point;
    let random = lane::own_at(values, view.own, point.stride, 2 + position, lane);
    lane_input::read_in(
        read, point, part, random, lane, held, globals, samples, values,
    )
}

// the same in sixteen lanes from `lane` on, one by one
fn read_each(
    read: Read,
    view: View,
    part: SignalPart,
    position: usize,
    lane: usize,
    held: &[f32],
    globals: &[f32],
    samples: &[f32],
    values: &[f32],
) -> [f32; LANES]
    requires { Placed view × (position < 2) × (lane + lanes ≤ 64) }
    ensures { (t : Env) (f : Rows) (s : Own) (j : ℕ) → Told t f s j view read part held.now globals.now samples.now values.now → (l : ℕ) → l < lanes → at result l ≡ read_at t f s j position read (lane + l) }
{
    let mut out = [0.0f32; LANES];
    for l in 0..16 {
        out[l] = read_lane(
            read,
            view,
            part,
            position,
            lane + l,
            held,
            globals,
            samples,
            values,
        );
    }
    out
}

// ---- a signal that has fewer numbers a frame than there are lanes

// number p of the `wide` from `start` on; beyond them 0
fn narrow(samples: &[f32], start: usize, wide: usize, p: usize) -> f32
    requires { start + wide ≤ length samples.now }
    ensures { result ≡ cond (ltb p wide) (at samples.now (start + p)) zero32 }
{
    if p < wide {
        return samples[start + p];
    }
    0.0
}

// those in sixteen lanes from `lane` on
fn narrow_lanes(samples: &[f32], start: usize, wide: usize, lane: usize) -> [f32; LANES]
    requires { (start + wide ≤ length samples.now) × (lane + lanes ≤ 64) }
    ensures { (l : ℕ) → l < lanes → at result l ≡ cond (ltb (lane + l) wide) (at samples.now (start + (lane + l))) zero32 }
{
    let mut out = [0.0f32; LANES];
    for l in 0..16 {
        out[l] = narrow(samples, start, wide, lane + l);
    }
    out
}

// a signal per voice in sixteen lanes, one by one
fn sample_each(samples: &[f32], part: SignalPart, frame: usize, lane: usize) -> [f32; LANES]
    requires { lane + lanes ≤ 64 }
    ensures { (l : ℕ) → l < lanes → at result l ≡ sample_in samples.now part frame true (lane + l) }
{
    let mut out = [0.0f32; LANES];
    for l in 0..16 {
        out[l] = lane_input::sample_in(samples, part, frame, true, lane + l);
    }
    out
}

// the same, where its row of `wide` numbers stands at a place
fn sample_at(
    place: Place,
    samples: &[f32],
    part: SignalPart,
    frame: usize,
    wide: usize,
    lane: usize,
) -> [f32; LANES]
    requires { ((h m : List Float) → Inside place wide h samples.now m) × (lane + lanes ≤ 64) }
    ensures { ((h m : List Float) (l : ℕ) → l < wide → Tells place h samples.now m l (sample_in samples.now part frame true l)) → wide ≡ part_stride part → (l : ℕ) → l < lanes → at result l ≡ sample_in samples.now part frame true (lane + l) }
{
    match place {
        Place::Samples(start) => narrow_lanes(samples, start, wide, lane),
        Place::Held(_) => sample_each(samples, part, frame, lane),
        Place::Values(_) => sample_each(samples, part, frame, lane),
        Place::Nowhere => sample_each(samples, part, frame, lane),
    }
}

// A signal in sixteen lanes from `lane` on.
pub fn sample_lanes(
    samples: &[f32],
    part: SignalPart,
    frame: usize,
    voice: bool,
    lane: usize,
) -> [f32; LANES]
    requires { lane + lanes ≤ 64 }
    ensures { (l : ℕ) → l < lanes → at result l ≡ sample_in samples.now part frame voice (lane + l) }
{
    if !voice {
        let x = lane_input::sample_in(samples, part, frame, false, 0);
        return [x; LANES];
    }
    let wide = lane_input::part_stride(part);
    let place = plan_sum::signal_place(true, part, frame, wide, samples);
    sample_at(place, samples, part, frame, wide, lane)
}

// ---- what an input reads, in sixteen lanes

// the same, a signal by its row
fn read_lanes(
    read: Read,
    view: View,
    part: SignalPart,
    position: usize,
    lane: usize,
    held: &[f32],
    globals: &[f32],
    samples: &[f32],
    values: &[f32],
) -> [f32; LANES]
    requires { Placed view × (position < 2) × (lane + lanes ≤ 64) }
    ensures { (t : Env) (f : Rows) (s : Own) (j : ℕ) → Told t f s j view read part held.now globals.now samples.now values.now → (l : ℕ) → l < lanes → at result l ≡ read_at t f s j position read (lane + l) }
{
    let frame = view.point.frame;
    match read {
        Read::Signal { source: _, voice } => sample_lanes(samples, part, frame, voice, lane),
        Read::Held {
            source: _,
            voice: _,
        } => read_each(
            read, view, part, position, lane, held, globals, samples, values,
        ),
        Read::Fed { plan: _, voice: _ } => read_each(
            read, view, part, position, lane, held, globals, samples, values,
        ),
        Read::Constant => read_each(
            read, view, part, position, lane, held, globals, samples, values,
        ),
        Read::RouteRandom => read_each(
            read, view, part, position, lane, held, globals, samples, values,
        ),
    }
}

// What an input reads in sixteen lanes, of numbers that stand at a place.
fn raw_lanes(
    place: Place,
    read: Read,
    view: View,
    part: SignalPart,
    position: usize,
    lane: usize,
    held: &[f32],
    globals: &[f32],
    samples: &[f32],
    values: &[f32],
) -> [f32; LANES]
    requires { Placed view × (position < 2) × (lane + lanes ≤ view.point.stride) × Inside place view.point.stride held.now samples.now values.now }
    ensures { (t : Env) (f : Rows) (s : Own) (j : ℕ) → Told t f s j view read part held.now globals.now samples.now values.now → Stands t f s j position read place view.point.stride held.now samples.now values.now → (l : ℕ) → l < lanes → at result l ≡ read_at t f s j position read (lane + l) }
{
    match place {
        Place::Held(start) => copied(held, start + lane),
        Place::Values(start) => copied(values, start + lane),
        Place::Samples(start) => copied(samples, start + lane),
        Place::Nowhere => read_lanes(
            read, view, part, position, lane, held, globals, samples, values,
        ),
    }
}

// ---- scaling, curve and slew

// -1..1 to 0..1
fn unipolar_lanes(bipolar: bool, row: [f32; LANES]) -> [f32; LANES]
    ensures { (l : ℕ) → l < lanes → at result l ≡ unipolar bipolar (at row l) }
{
    if !bipolar {
        return row;
    }
    halved_lanes(row)
}

// a half of each, and a half
fn halved_lanes(row: [f32; LANES]) -> [f32; LANES]
    ensures { (l : ℕ) → l < lanes → at result l ≡ unipolar true (at row l) }
{
    let mut out = row;
    for l in 0..16 {
        out[l] = out[l] * 0.5 + 0.5;
    }
    out
}

// where each lies in a table
fn positions(row: [f32; LANES]) -> [f32; LANES]
    ensures { (l : ℕ) → l < lanes → at result l ≡ position (at row l) }
{
    let mut out = row;
    for l in 0..16 {
        let u = out[l];
        out[l] = curve_table::position(u);
    }
    out
}

// the whole part of a number from 0 to 511, by the bits of its sum with 512
fn whole(x: f32) -> u32
    requires { (le zero32 x ≡ true) × (le x last32 ≡ true) }
    ensures { (result ≡ whole_part x) × (result < 512) }
{
    let sum = x + 512.0;
    let bits: u32 = f32::to_bits(sum);
    let n: u32 = (bits >> 14) & 511;
    if n as f32 > x {
        return (n + 511) & 511;
    }
    n
}

// the cell of each position
fn cell_lanes(row: [f32; LANES]) -> [u32; LANES]
    ensures { Celled result row }
{
    let mut out = [0u32; LANES];
    for l in 0..16 {
        let x = number::held(0.0, 511.0, row[l]);
        out[l] = whole(x);
    }
    out
}

// the number at each cell, of the table that starts there
fn points_at(tables: &[f32], start: usize, cells: [u32; LANES]) -> [f32; LANES]
    requires { (start + 512 ≤ length tables.now) × ((l : ℕ) → l < lanes → get_or cells l 0 < 512) }
    ensures { (l : ℕ) → l < lanes → at result l ≡ at tables.now (start + get_or cells l 0) }
{
    let mut out = [0.0f32; LANES];
    for l in 0..16 {
        out[l] = tables[start + cells[l] as usize];
    }
    out
}

// from each number of a towards that of b, by what is left of the position over its cell
fn between_lanes(
    a: [f32; LANES],
    b: [f32; LANES],
    cells: [u32; LANES],
    row: [f32; LANES],
) -> [f32; LANES]
    requires { (l : ℕ) → l < lanes → get_or cells l 0 < 512 }
    ensures { (l : ℕ) → l < lanes → at result l ≡ between (at a l) (at b l) (less (at row l) (nearest32 (get_or cells l 0))) }
{
    let mut out = row;
    for l in 0..16 {
        let p = out[l];
        let x = a[l];
        let y = b[l];
        let c = cells[l];
        out[l] = x + (y - x) * (p - c as f32);
    }
    out
}

// the table that starts there, at each position
fn look_lanes(tables: &[f32], start: usize, row: [f32; LANES]) -> [f32; LANES]
    requires { start + points ≤ length tables.now }
    ensures { (l : ℕ) → l < lanes → at result l ≡ between (at tables.now (start + cell_at (at row l))) (at tables.now (start + (cell_at (at row l) + 1))) (less (at row l) (nearest32 (cell_at (at row l)))) }
{
    let c = cell_lanes(row);
    let a = points_at(tables, start, c);
    let b = points_at(tables, start + 1, c);
    between_lanes(a, b, c, row)
}

// the table at a place, at each
fn table_lanes(tables: &[f32], place: usize, row: [f32; LANES]) -> [f32; LANES]
    requires { place < 512 }
    ensures { (l : ℕ) → l < lanes → at result l ≡ lookup_of (row_at tables.now points place) (at row l) }
{
    let mut out = row;
    for l in 0..16 {
        let u = out[l];
        out[l] = lane_input::look_up(tables, place, u);
    }
    out
}

// over the table at the place of the slot and the position, where the input has one
fn curved_lanes(
    tables: &[f32],
    slot: u8,
    position: usize,
    table: bool,
    row: [f32; LANES],
) -> [f32; LANES]
    requires { position < 2 }
    ensures { (t : Env) → t.tables ≡ tables.now → (l : ℕ) → l < lanes → at result l ≡ curved t slot position table (at row l) }
{
    if !table {
        return row;
    }
    let place = 2 * (slot as usize) + position;
    let start = place * POINTS;
    if plan_sum::fits(tables.len(), start, POINTS) {
        return look_lanes(tables, start, positions(row));
    }
    table_lanes(tables, place, row)
}

// a step of each slew
fn step_lanes(
    up: f32,
    down: f32,
    snap: [f32; LANES],
    prev: [f32; LANES],
    row: [f32; LANES],
) -> [f32; LANES]
    ensures { (l : ℕ) → l < lanes → at result l ≡ slew_step up down (at snap l) (at prev l) (at row l) }
{
    let mut out = row;
    for l in 0..16 {
        let u = out[l];
        out[l] = slew::step(up, down, snap[l], prev[l], u);
    }
    out
}

// row q of the own rows in sixteen lanes, one by one
fn own_each(values: &[f32], own: usize, stride: usize, q: usize, lane: usize) -> [f32; LANES]
    requires { (own ≤ most_values) × (stride ≤ 64) × (q < 4) × (lane + lanes ≤ 64) }
    ensures { (s : Own) (j : ℕ) → IsOwn s j own stride values.now → (l : ℕ) → l < lanes → at result l ≡ s j q (lane + l) }
{
    let mut out = [0.0f32; LANES];
    for l in 0..16 {
        out[l] = lane::own_kept(values, own, stride, q, lane + l);
    }
    out
}

// Row q of the own rows in sixteen lanes from `lane` on.
pub fn own_lanes(values: &[f32], own: usize, stride: usize, q: usize, lane: usize) -> [f32; LANES]
    requires { (own ≤ most_values) × (stride ≤ 64) × (q < 4) × (lane + lanes ≤ 64) }
    ensures { (s : Own) (j : ℕ) → IsOwn s j own stride values.now → (l : ℕ) → l < lanes → at result l ≡ s j q (lane + l) }
{
    let start = lane::own_row(own, stride, q);
    if plan_sum::fits(values.len(), start, lane + 16) {
        return copied(values, start + lane);
    }
    own_each(values, own, stride, q, lane)
}

// from the slews before, where there is a slew
fn slewed_lanes(
    slew: Option<Slew>,
    view: View,
    position: usize,
    lane: usize,
    snap: [f32; LANES],
    row: [f32; LANES],
    values: &[f32],
) -> [f32; LANES]
    requires { Placed view × (position < 2) × (lane + lanes ≤ view.point.stride) }
    ensures { (t : Env) (s : Own) (j : ℕ) → t.steps ≡ view.point.steps → t.stride ≡ view.point.stride → IsOwn s j view.own view.point.stride values.now → (l : ℕ) → l < lanes → at result l ≡ slewed t (at snap l) (own_at t s j position (lane + l)) slew (at row l) }
{
    let point = view.point;
    match slew {
        None => row,
        Some(Slew { up, down }) => step_lanes(
            slew::reach(up, point.steps),
            slew::reach(down, point.steps),
            snap,
            own_lanes(values, view.own, point.stride, position, lane),
            row,
        ),
    }
}

// ---- one input

// An input at a position in sixteen lanes from `lane` on, whose numbers stand at a place.
pub fn input_lanes(
    input: Input,
    place: Place,
    view: View,
    part: SignalPart,
    slot: u8,
    position: usize,
    snap: [f32; LANES],
    lane: usize,
    held: &[f32],
    globals: &[f32],
    tables: &[f32],
    samples: &[f32],
    values: &[f32],
) -> [f32; LANES]
    requires { Placed view × (position < 2) × (lane + lanes ≤ view.point.stride) × Inside place view.point.stride held.now samples.now values.now }
    ensures { (t : Env) (f : Rows) (s : Own) (j : ℕ) → Told t f s j view input.read part held.now globals.now samples.now values.now → Works t view.point tables.now → Stands t f s j position input.read place view.point.stride held.now samples.now values.now → (l : ℕ) → l < lanes → at result l ≡ input_in t f slot position (at snap l) (own_at t s j position (lane + l)) (own_at t s j (2 + position) (lane + l)) (lane + l) input }
{
    let read = input.read;
    let slew = input.slew;
    let raw = raw_lanes(
        place, read, view, part, position, lane, held, globals, samples, values,
    );
    let unit = unipolar_lanes(input.bipolar, raw);
    let u = curved_lanes(tables, slot, position, input.table, unit);
    slewed_lanes(slew, view, position, lane, snap, u, values)
}

// ---- source and aux

// 1 in each lane of a voice that is fresh
fn snap_each(fresh: [bool; VOICES], lane: usize) -> [f32; LANES]
    requires { lane + lanes ≤ 64 }
    ensures { (t : Env) → t.snap ≡ true → t.fresh ≡ fresh → Snaps t true lane result }
{
    let mut out = [0.0f32; LANES];
    for l in 0..16 {
        out[l] = lane_input::snap_of(true, fresh, true, lane + l);
    }
    out
}

// 1 in each lane in which the slews of a route per voice end at their input.
pub fn snap_lanes(snap: bool, fresh: [bool; VOICES], lane: usize) -> [f32; LANES]
    requires { lane + lanes ≤ 64 }
    ensures { (t : Env) → t.snap ≡ snap → t.fresh ≡ fresh → Snaps t true lane result }
{
    if !snap {
        return [0.0f32; LANES];
    }
    snap_each(fresh, lane)
}

// A route's source in sixteen lanes: as it is read, where it has neither curve nor slew.
pub fn source_lanes(
    route: Route,
    place: Place,
    view: View,
    snap: [f32; LANES],
    lane: usize,
    held: &[f32],
    globals: &[f32],
    tables: &[f32],
    samples: &[f32],
    values: &[f32],
) -> [f32; LANES]
    requires { Placed view × (lane + lanes ≤ view.point.stride) × Inside place view.point.stride held.now samples.now values.now }
    ensures { (t : Env) (f : Rows) (s : Own) (j : ℕ) → Viewed t f s j view route held.now globals.now tables.now samples.now values.now → Stands t f s j 0 route.source.read place view.point.stride held.now samples.now values.now → Snaps t route.voice lane snap → Leads t f s j route lane result }
{
    let input = route.source;
    let part = view.source;
    if lane::is_bare(input) {
        let read = input.read;
        return raw_lanes(
            place, read, view, part, 0, lane, held, globals, samples, values,
        );
    }
    input_lanes(
        input, place, view, part, route.slot, 0, snap, lane, held, globals, tables, samples, values,
    )
}

// Its aux, where there is one.
pub fn aux_lanes(
    aux: Option<Input>,
    slot: u8,
    place: Place,
    view: View,
    snap: [f32; LANES],
    lane: usize,
    held: &[f32],
    globals: &[f32],
    tables: &[f32],
    samples: &[f32],
    values: &[f32],
) -> [f32; LANES]
    requires { Placed view × (lane + lanes ≤ view.point.stride) × Inside place view.point.stride held.now samples.now values.now }
    ensures { (t : Env) (f : Rows) (s : Own) (j : ℕ) (route : Route) → route.aux ≡ aux → route.slot ≡ slot → Viewed t f s j view route held.now globals.now tables.now samples.now values.now → AuxStands t f s j aux place view.point.stride held.now samples.now values.now → Snaps t route.voice lane snap → Withs t f s j route aux lane result }
{
    let part = view.aux;
    match aux {
        None => [0.0f32; LANES],
        Some(i) => input_lanes(
            i, place, view, part, slot, 1, snap, lane, held, globals, tables, samples, values,
        ),
    }
}

// ---- the value

// scaled
fn scaled_lanes(scale: f32, offset: f32, row: [f32; LANES]) -> [f32; LANES]
    ensures { (l : ℕ) → l < lanes → at result l ≡ plus (times (at row l) scale) offset }
{
    let mut out = row;
    for l in 0..16 {
        out[l] = out[l] * scale + offset;
    }
    out
}

// both ways
fn spread_lanes(bipolar: bool, row: [f32; LANES]) -> [f32; LANES]
    ensures { (l : ℕ) → l < lanes → at result l ≡ spread bipolar (at row l) }
{
    if !bipolar {
        return row;
    }
    doubled_lanes(row)
}

// 0..1 to -1..1
fn doubled_lanes(row: [f32; LANES]) -> [f32; LANES]
    ensures { (l : ℕ) → l < lanes → at result l ≡ spread true (at row l) }
{
    let mut out = row;
    for l in 0..16 {
        out[l] = out[l] * 2.0 - 1.0;
    }
    out
}

// a route's source, scaled as it is read where it has neither curve nor slew
fn sourced_lanes(route: Route, row: [f32; LANES]) -> [f32; LANES]
    ensures { (t : Env) (f : Rows) (s : Own) (j lane : ℕ) → Leads t f s j route lane row → (l : ℕ) → l < lanes → at result l ≡ sourced t f s j (lane + l) route }
{
    let input = route.source;
    if lane::is_bare(input) {
        return scaled_lanes(route.scale, route.offset, row);
    }
    spread_lanes(route.bipolar, row)
}

// flipped, where inverted
fn flipped_lanes(invert: bool, row: [f32; LANES]) -> [f32; LANES]
    ensures { (l : ℕ) → l < lanes → at result l ≡ flipped invert (at row l) }
{
    if !invert {
        return row;
    }
    inverted_lanes(row)
}

// 1 less each
fn inverted_lanes(row: [f32; LANES]) -> [f32; LANES]
    ensures { (l : ℕ) → l < lanes → at result l ≡ less one32 (at row l) }
{
    let mut out = row;
    for l in 0..16 {
        out[l] = 1.0 - out[l];
    }
    out
}

// times the aux, where there is one
fn aux_times(
    aux: Option<Input>,
    invert: bool,
    row: [f32; LANES],
    with: [f32; LANES],
) -> [f32; LANES]
    ensures { (t : Env) (f : Rows) (s : Own) (j lane : ℕ) (route : Route) → route.aux_invert ≡ invert → Withs t f s j route aux lane with → (l : ℕ) → l < lanes → at result l ≡ with_aux t f s j (lane + l) route aux (at row l) }
{
    match aux {
        None => row,
        Some(_) => times_lanes(row, flipped_lanes(invert, with)),
    }
}

// a plan's row, one lane by one
fn fed_each(plan: u8, voice: bool, point: Point, lane: usize, values: &[f32]) -> [f32; LANES]
    requires { Sized point × (lane + lanes ≤ 64) }
    ensures { (t : Env) (f : Rows) → t.stride ≡ point.stride → IsRows f point values.now → (l : ℕ) → l < lanes → at result l ≡ fed_at t f plan voice (lane + l) }
{
    let mut out = [0.0f32; LANES];
    for l in 0..16 {
        out[l] = lane_input::fed_in(values, point, plan, voice, lane + l);
    }
    out
}

// a plan's row, of lanes that it has
fn fed_lanes(plan: u8, voice: bool, point: Point, lane: usize, values: &[f32]) -> [f32; LANES]
    requires { Sized point × (lane + lanes ≤ point.stride) }
    ensures { (t : Env) (f : Rows) → t.stride ≡ point.stride → IsRows f point values.now → (l : ℕ) → l < lanes → at result l ≡ fed_at t f plan voice (lane + l) }
{
    if !voice {
        return fed_each(plan, voice, point, lane, values);
    }
    let start = lane_input::plan_to(point.stride, point.chunks, plan);
    if plan_sum::fits(values.len(), start, lane + 16) {
        return copied(values, start + lane);
    }
    fed_each(plan, voice, point, lane, values)
}

// an amount or output: the live one, or the feeder's
fn gain_lanes(gain: Gain, live: f32, point: Point, lane: usize, values: &[f32]) -> [f32; LANES]
    requires { Sized point × (lane + lanes ≤ point.stride) }
    ensures { (t : Env) (f : Rows) → t.stride ≡ point.stride → IsRows f point values.now → (l : ℕ) → l < lanes → at result l ≡ gain_in t f (lane + l) live gain }
{
    match gain {
        Gain::Live => [live; LANES],
        Gain::Fed { plan, voice } => fed_lanes(plan, voice, point, lane, values),
    }
}

// A route's value in sixteen lanes, of its source and its aux.
pub fn value_lanes(
    route: Route,
    view: View,
    lane: usize,
    source: [f32; LANES],
    with: [f32; LANES],
    values: &[f32],
) -> [f32; LANES]
    requires { Placed view × (lane + lanes ≤ view.point.stride) }
    ensures { (t : Env) (f : Rows) (s : Own) (j : ℕ) → t.stride ≡ view.point.stride → IsRows f view.point values.now → live_amount_of t route.slot ≡ view.amount → live_output_of t route.slot ≡ view.output → Leads t f s j route lane source → Withs t f s j route route.aux lane with → (l : ℕ) → l < lanes → at result l ≡ route_value t f s j (lane + l) route }
{
    let aux = route.aux;
    let amount = route.amount;
    let output = route.output;
    let point = view.point;
    let p = sourced_lanes(route, source);
    let x = aux_times(aux, route.aux_invert, p, with);
    let a = gain_lanes(amount, view.amount, point, lane, values);
    let b = gain_lanes(output, view.output, point, lane, values);
    times_lanes(x, times_lanes(a, b))
}
