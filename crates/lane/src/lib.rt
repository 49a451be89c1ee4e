// One route's value in a lane, and its slews afterwards (engine.rs 1013-1039, 1313-1399, 1434-1446; document 01, Chunk and value). The definitions are in model's
// specs/RouteValue and specs/Slews. A contract holds of every environment that has what the function is handed: specs/View says what that is.
#![tactic(auto)]

ghost use Rattle.std.specs.Prelude.{◌≡◌, not, ◌&&◌, ◌||◌, ℕ, ◌+◌, ◌*◌, ◌≤◌, ◌<◌, ltb, leb, Some};
ghost use Rattle.config.specs.Sizes.{slots};
ghost use Rattle.model.specs.Env.{Env, Rows, Own, part_stride, live_amount_of, live_output_of};
ghost use Rattle.model.specs.Input.{input_in};
ghost use Rattle.model.specs.Layout.{route_slew};
ghost use Rattle.model.specs.Lanes.{sounding, snap_of};
ghost use Rattle.model.specs.Mix.{Mix};
ghost use Rattle.model.specs.Routes.{free_slew, live_gain};
ghost use Rattle.model.specs.RouteValue.{own_at, spread, flipped, source_in, aux_in, raw_in, sourced, with_aux, gain_in, gained, route_value, idle, whole_row, plain};
ghost use Rattle.model.specs.Slews.{moves_in, aux_slew, source_after, aux_after};
ghost use Rattle.lane_input.specs.Reads.{Sized, IsRows, Reads, Works, part_for};
ghost use Rattle.lane.specs.View.{most_values, Placed, IsOwn, Viewed};

use lane_input::{Lead, Point};
use state::{Gain, Input, Read, Route, SignalPart, Slew};

// What a route's lanes are worked out from at one frame, besides the lent numbers: its own rows start at `own`, its inputs read the parts `source` and `aux`
// of the signals, and `amount` and `output` are its slot's as set.
#[derive(Clone, Copy)]
pub struct View {
    pub point: Point,
    pub own: usize,
    pub source: SignalPart,
    pub aux: SignalPart,
    pub amount: f32,
    pub output: f32,
}

// Where the own rows of a route start in the values.
pub fn own_start(stride: usize, chunks: usize, plans: usize, route: usize) -> usize
    requires { (stride ≤ 64) × (chunks ≤ 130) × (plans ≤ slots) × (route < slots) }
    ensures { (result ≡ route_slew stride chunks plans route 0) × (result ≤ most_values) }
{
    let size = lane_input::plan_size(stride, chunks);
    plans * size + route * (8 * stride)
}

// ---- own rows

// where row q of the own rows starts
pub fn own_row(own: usize, stride: usize, q: usize) -> usize
    requires { (own ≤ most_values) × (stride ≤ 64) × (q < 4) }
    ensures { result ≡ own + q * stride }
{
    own + q * stride
}

// the number of row q in a lane; beyond the stride there is no lane
pub fn own_at(values: &[f32], own: usize, stride: usize, q: usize, lane: usize) -> f32
    requires { (own ≤ most_values) × (stride ≤ 64) × (q < 4) }
    ensures { (t : Env) (s : Own) (j : ℕ) → t.stride ≡ stride → IsOwn s j own stride values.now → result ≡ own_at t s j q lane }
{
    let start = own_row(own, stride, q);
    lane_input::fed_at(values, start, true, lane, stride)
}

// ---- inputs

// an input at a position: its slew is row `position`, its random number in row 2 + `position`
fn placed_in(
    input: Input,
    view: View,
    part: SignalPart,
    slot: u8,
    position: usize,
    snap: f32,
    lane: usize,
    held: &[f32],
    globals: &[f32],
    tables: &[f32],
    samples: &[f32],
    values: &[f32],
) -> f32
    requires { Placed view × (position < 2) }
    ensures { (t : Env) (f : Rows) (s : Own) (j : ℕ) → Reads t f view.point held.now globals.now samples.now values.now → Works t view.point tables.now → IsOwn s j view.own view.point.stride values.now → part_for t.signals input.read ≡ part → result ≡ input_in t f slot position snap (own_at t s j position lane) (own_at t s j (2 + position) lane) lane input }
{
    let point = view.point;
    let prev = own_at(values, view.own, point.stride, position, lane);
    let random = own_at(values, view.own, point.stride, 2 + position, lane);
    lane_input::input_in(
        input,
        point,
        part,
        slot,
        position,
        Lead { snap, prev, random },
        lane,
        held,
        globals,
        tables,
        samples,
        values,
    )
}

// A route's source in a lane, curved and slewed.
pub fn source_in(
    route: Route,
    view: View,
    snap: f32,
    lane: usize,
    held: &[f32],
    globals: &[f32],
    tables: &[f32],
    samples: &[f32],
    values: &[f32],
) -> f32
    requires { Placed view }
    ensures { (t : Env) (f : Rows) (s : Own) (j : ℕ) → Viewed t f s j view route held.now globals.now tables.now samples.now values.now → snap ≡ snap_of t route.voice lane → result ≡ source_in t f s j lane route }
{
    let input = route.source;
    let part = view.source;
    placed_in(
        input, view, part, route.slot, 0, snap, lane, held, globals, tables, samples, values,
    )
}

// The same of its aux, where that is the input.
pub fn aux_in(
    route: Route,
    input: Input,
    view: View,
    snap: f32,
    lane: usize,
    held: &[f32],
    globals: &[f32],
    tables: &[f32],
    samples: &[f32],
    values: &[f32],
) -> f32
    requires { Placed view }
    ensures { (t : Env) (f : Rows) (s : Own) (j : ℕ) → Viewed t f s j view route held.now globals.now tables.now samples.now values.now → route.aux ≡ Some input → snap ≡ snap_of t route.voice lane → result ≡ aux_in t f s j lane route input }
{
    let part = view.aux;
    placed_in(
        input, view, part, route.slot, 1, snap, lane, held, globals, tables, samples, values,
    )
}

// A route's source as it is read.
pub fn raw_in(
    route: Route,
    view: View,
    lane: usize,
    held: &[f32],
    globals: &[f32],
    samples: &[f32],
    values: &[f32],
) -> f32
    requires { Placed view }
    ensures { (t : Env) (f : Rows) (s : Own) (j : ℕ) → Reads t f view.point held.now globals.now samples.now values.now → IsOwn s j view.own view.point.stride values.now → part_for t.signals route.source.read ≡ view.source → result ≡ raw_in t f s j lane route }
{
    let input = route.source;
    let read = input.read;
    let point = view.point;
    let part = view.source;
    let random = own_at(values, view.own, point.stride, 2, lane);
    lane_input::read_in(
        read, point, part, random, lane, held, globals, samples, values,
    )
}

// ---- the value

// both ways
fn spread(bipolar: bool, u: f32) -> f32
    ensures { result ≡ spread bipolar u }
{
    if bipolar {
        return u * 2.0 - 1.0;
    }
    u
}

fn flipped(invert: bool, a: f32) -> f32
    ensures { result ≡ flipped invert a }
{
    if invert {
        return 1.0 - a;
    }
    a
}

// Whether there is no slew.
pub fn free_slew(slew: Option<Slew>) -> bool
    ensures { result ≡ free_slew slew }
{
    slew.is_none()
}

// whether an input has neither curve nor slew
pub fn is_bare(input: Input) -> bool
    ensures { result ≡ not input.table && free_slew input.slew }
{
    if input.table {
        return false;
    }
    let slew = input.slew;
    free_slew(slew)
}

// A route's source, scaled as it is read where it has neither curve nor slew.
pub fn sourced(
    route: Route,
    view: View,
    snap: f32,
    lane: usize,
    held: &[f32],
    globals: &[f32],
    tables: &[f32],
    samples: &[f32],
    values: &[f32],
) -> f32
    requires { Placed view }
    ensures { (t : Env) (f : Rows) (s : Own) (j : ℕ) → Viewed t f s j view route held.now globals.now tables.now samples.now values.now → snap ≡ snap_of t route.voice lane → result ≡ sourced t f s j lane route }
{
    let input = route.source;
    if is_bare(input) {
        let raw = raw_in(route, view, lane, held, globals, samples, values);
        return raw * route.scale + route.offset;
    }
    let u = source_in(
        route, view, snap, lane, held, globals, tables, samples, values,
    );
    spread(route.bipolar, u)
}

// p times the aux, where there is one
fn with_aux(
    route: Route,
    p: f32,
    view: View,
    snap: f32,
    lane: usize,
    held: &[f32],
    globals: &[f32],
    tables: &[f32],
    samples: &[f32],
    values: &[f32],
) -> f32
    requires { Placed view }
    ensures { (t : Env) (f : Rows) (s : Own) (j : ℕ) → Viewed t f s j view route held.now globals.now tables.now samples.now values.now → snap ≡ snap_of t route.voice lane → result ≡ with_aux t f s j lane route route.aux p }
{
    let aux = route.aux;
    match aux {
        None => p,
        Some(i) => {
            p * flipped(
                route.aux_invert,
                aux_in(
                    route, i, view, snap, lane, held, globals, tables, samples, values,
                ),
            )
        }
    }
}

// an amount or output: the live one, or the feeder's
fn gain_in(gain: Gain, live: f32, point: Point, lane: usize, values: &[f32]) -> f32
    requires { Sized point }
    ensures { (t : Env) (f : Rows) → t.stride ≡ point.stride → IsRows f point values.now → result ≡ gain_in t f lane live gain }
{
    match gain {
        Gain::Live => live,
        Gain::Fed { plan, voice } => lane_input::fed_in(values, point, plan, voice, lane),
    }
}

// Amount times output.
pub fn gained(route: Route, view: View, lane: usize, values: &[f32]) -> f32
    requires { Placed view }
    ensures { (t : Env) (f : Rows) → t.stride ≡ view.point.stride → IsRows f view.point values.now → live_amount_of t route.slot ≡ view.amount → live_output_of t route.slot ≡ view.output → result ≡ gained t f lane route }
{
    let amount = route.amount;
    let output = route.output;
    let point = view.point;
    gain_in(amount, view.amount, point, lane, values)
        * gain_in(output, view.output, point, lane, values)
}

// A route's value in a lane.
pub fn route_value(
    route: Route,
    view: View,
    snap: f32,
    lane: usize,
    held: &[f32],
    globals: &[f32],
    tables: &[f32],
    samples: &[f32],
    values: &[f32],
) -> f32
    requires { Placed view }
    ensures { (t : Env) (f : Rows) (s : Own) (j : ℕ) → Viewed t f s j view route held.now globals.now tables.now samples.now values.now → snap ≡ snap_of t route.voice lane → result ≡ route_value t f s j lane route }
{
    let p = sourced(
        route, view, snap, lane, held, globals, tables, samples, values,
    );
    let x = with_aux(
        route, p, view, snap, lane, held, globals, tables, samples, values,
    );
    x * gained(route, view, lane, values)
}

// ---- idle and plain routes

fn live_gain(gain: Gain) -> bool
    ensures { result ≡ live_gain gain }
{
    match gain {
        Gain::Live => true,
        Gain::Fed { plan: _, voice: _ } => false,
    }
}

// Whether amount and output are unfed, with product 0.
pub fn idle(route: Route, live_amount: f32, live_output: f32) -> bool
    ensures { (t : Env) → live_amount_of t route.slot ≡ live_amount → live_output_of t route.slot ≡ live_output → result ≡ idle t route }
{
    let amount = route.amount;
    if !live_gain(amount) {
        return false;
    }
    let output = route.output;
    if !live_gain(output) {
        return false;
    }
    live_amount * live_output == 0.0
}

// whether a whole row of a signal's part stands there to be read
fn row_whole(part: SignalPart, stride: usize, up_to: usize) -> bool
    ensures { result ≡ ltb 0 part.len && (leb stride (part_stride part) && leb (up_to * part_stride part) part.len) }
{
    let len = part.len;
    if len == 0 {
        return false;
    }
    let wide = lane_input::part_stride(part);
    if wide < stride {
        return false;
    }
    lane_input::rows_within(up_to, wide, len)
}

fn signal_rowed(voice: bool, part: SignalPart, stride: usize, up_to: usize) -> bool
    ensures { result ≡ voice && (ltb 0 part.len && (leb stride (part_stride part) && leb (up_to * part_stride part) part.len)) }
{
    if !voice {
        return false;
    }
    row_whole(part, stride, up_to)
}

// Whether a whole row stands there to be read.
pub fn rowed(read: Read, part: SignalPart, stride: usize, up_to: usize) -> bool
    ensures { (t : Env) → t.stride ≡ stride → t.up_to ≡ up_to → part_for t.signals read ≡ part → result ≡ whole_row t read }
{
    match read {
        Read::Signal { source: _, voice } => signal_rowed(voice, part, stride, up_to),
        Read::Held { source: _, voice } => voice,
        Read::Fed { plan: _, voice } => voice,
        Read::Constant => false,
        Read::RouteRandom => true,
    }
}

// Whether a route is plain, into a destination per voice while a voice is active.
#[tactic(auto, unfolding(model::specs::RouteValue::plain))]
pub fn plain(
    voice: bool,
    sounds: bool,
    route: Route,
    part: SignalPart,
    stride: usize,
    up_to: usize,
) -> bool
    ensures { (t : Env) → sounds ≡ sounding t → t.stride ≡ stride → t.up_to ≡ up_to → part_for t.signals route.source.read ≡ part → result ≡ plain t voice route }
{
    voice && sounds && route.simple && rowed(route.source.read, part, stride, up_to)
}

// ---- slews

// Whether a lane's slews move, by whether the route is plain, idle and worked out there.
pub fn moves_in(plain: bool, idle: bool, worked: bool) -> bool
    ensures { result ≡ not (plain || idle) && worked }
{
    !plain && !idle && worked
}

// the number of own row q in a lane, kept
pub fn own_kept(values: &[f32], own: usize, stride: usize, q: usize, lane: usize) -> f32
    requires { (own ≤ most_values) × (stride ≤ 64) × (q < 4) }
    ensures { (s : Own) (j : ℕ) → IsOwn s j own stride values.now → result ≡ s j q lane }
{
    let start = own_row(own, stride, q);
    lane_input::lane_from(values, start, lane)
}

// whether an input has a slew that moves
fn slews(input: Input, moves: bool) -> bool
    ensures { result ≡ not (free_slew input.slew) && moves }
{
    let slew = input.slew;
    if free_slew(slew) {
        return false;
    }
    moves
}

// The slew of a route's source afterwards.
pub fn source_after(
    route: Route,
    view: View,
    moves: bool,
    snap: f32,
    lane: usize,
    held: &[f32],
    globals: &[f32],
    tables: &[f32],
    samples: &[f32],
    values: &[f32],
) -> f32
    requires { Placed view }
    ensures { (t : Env) (x : Mix) (f : Rows) (s : Own) (j : ℕ) → Viewed t f s j view route held.now globals.now tables.now samples.now values.now → x.route j ≡ route → moves ≡ moves_in t x route lane → snap ≡ snap_of t route.voice lane → result ≡ source_after t x f s j lane }
{
    let input = route.source;
    if slews(input, moves) {
        return source_in(
            route, view, snap, lane, held, globals, tables, samples, values,
        );
    }
    let point = view.point;
    own_kept(values, view.own, point.stride, 0, lane)
}

// the slew of an aux that is the input
fn aux_moved(
    route: Route,
    input: Input,
    view: View,
    moves: bool,
    snap: f32,
    lane: usize,
    held: &[f32],
    globals: &[f32],
    tables: &[f32],
    samples: &[f32],
    values: &[f32],
) -> f32
    requires { Placed view }
    ensures { (t : Env) (x : Mix) (f : Rows) (s : Own) (j : ℕ) → Viewed t f s j view route held.now globals.now tables.now samples.now values.now → route.aux ≡ Some input → moves ≡ moves_in t x route lane → snap ≡ snap_of t route.voice lane → result ≡ aux_slew t x f s j route lane (Some input) }
{
    if slews(input, moves) {
        return aux_in(
            route, input, view, snap, lane, held, globals, tables, samples, values,
        );
    }
    let point = view.point;
    own_kept(values, view.own, point.stride, 1, lane)
}

// the slew of the aux, where there is one
fn aux_slew(
    aux: Option<Input>,
    route: Route,
    view: View,
    moves: bool,
    snap: f32,
    lane: usize,
    held: &[f32],
    globals: &[f32],
    tables: &[f32],
    samples: &[f32],
    values: &[f32],
) -> f32
    requires { Placed view }
    ensures { (t : Env) (x : Mix) (f : Rows) (s : Own) (j : ℕ) → Viewed t f s j view route held.now globals.now tables.now samples.now values.now → route.aux ≡ aux → moves ≡ moves_in t x route lane → snap ≡ snap_of t route.voice lane → result ≡ aux_slew t x f s j route lane aux }
{
    let point = view.point;
    match aux {
        None => own_kept(values, view.own, point.stride, 1, lane),
        Some(i) => aux_moved(
            route, i, view, moves, snap, lane, held, globals, tables, samples, values,
        ),
    }
}

// The slew of a route's aux afterwards.
pub fn aux_after(
    route: Route,
    view: View,
    moves: bool,
    snap: f32,
    lane: usize,
    held: &[f32],
    globals: &[f32],
    tables: &[f32],
    samples: &[f32],
    values: &[f32],
) -> f32
    requires { Placed view }
    ensures { (t : Env) (x : Mix) (f : Rows) (s : Own) (j : ℕ) → Viewed t f s j view route held.now globals.now tables.now samples.now values.now → x.route j ≡ route → moves ≡ moves_in t x route lane → snap ≡ snap_of t route.voice lane → result ≡ aux_after t x f s j lane }
{
    let aux = route.aux;
    aux_slew(
        aux, route, view, moves, snap, lane, held, globals, tables, samples, values,
    )
}
