// The routes of a program (document 01, Plan and route; program.rs 409-519). The definitions are in model's
// specs/Routes and specs/Plans.
#![tactic(auto)]

ghost use Rattle.std.specs.Prelude.{◌≡◌, not, ◌&&◌, ◌||◌, ◌≤◌, eqb, length, get_or};
ghost use Rattle.config.specs.Sizes.{slots};
ghost use Rattle.feed.specs.Numbers.{index_of};
ghost use Rattle.model.specs.Feeds.{is_voice};
ghost use Rattle.model.specs.Routes.{linked, voice_gain, live_gain, unfed_read, read_by, voice_read, slew_for};
ghost use Rattle.model.specs.Routes.{free_slew};
ghost use Rattle.model.specs.Routes.{is_bipolar, input_by, aux_by, voice_aux, no_aux, two_way, scale_of, offset_of};
ghost use Rattle.model.specs.Routes.{no_slot};
ghost use Rattle.model.specs.Routes.{simple_route, route_by, route_in, routes_in};
ghost use Rattle.model.specs.Plans.{readers_into};
ghost use Rattle.compile_routes.specs.Added.{routes_added};

use config::SLOTS;
use curve_table::Curve;
use state::{
    FedBy, Gain, Input, Kind, Polarity, Range, Read, Reader, Route, Scope, Slew, Slot, Source,
    Sources,
};
use state_filled::List;

// ---- links

// the place of d in the order; the order's length where it is not there
fn place(order: &List<u16>, d: u16) -> u8
    ensures { result ≡ index_of d order.now.items }
{
    for i in 0..order.len() {
        if order[i] == d {
            return i as u8;
        }
    }
    order.len() as u8
}

// a thing at the plan of its feeder, or live
fn link(order: &List<u16>, feeder: Option<FedBy>) -> Gain
    ensures { result ≡ linked order.now.items feeder }
{
    match feeder {
        None => Gain::Live,
        Some(f) => Gain::Fed {
            plan: place(order, f.dest),
            voice: f.voice,
        },
    }
}

fn voice_gain(gain: Gain) -> bool
    ensures { result ≡ voice_gain gain }
{
    match gain {
        Gain::Live => false,
        Gain::Fed { plan: _, voice } => voice,
    }
}

fn live_gain(gain: Gain) -> bool
    ensures { result ≡ live_gain gain }
{
    match gain {
        Gain::Live => true,
        Gain::Fed { plan: _, voice: _ } => false,
    }
}

// ---- inputs

fn is_voice(scope: Scope) -> bool
    ensures { result ≡ is_voice scope }
{
    scope == Scope::Voice
}

fn is_bipolar(range: Range) -> bool
    ensures { result ≡ is_bipolar range }
{
    range == Range::Bipolar
}

// where a source that nothing feeds is read
fn unfed_read(kind: Kind, source: u8, voice: bool) -> Read
    ensures { result ≡ unfed_read kind source voice }
{
    match kind {
        Kind::Signal => Read::Signal { source, voice },
        Kind::Audio => Read::Signal { source, voice },
        Kind::Held => Read::Held { source, voice },
        Kind::Velocity => Read::Held { source, voice },
        Kind::Key => Read::Held { source, voice },
        Kind::ReleaseVelocity => Read::Held { source, voice },
        Kind::Random => Read::Held { source, voice },
        Kind::Alternate { inverse: _ } => Read::Held { source, voice },
        Kind::RandomPerRoute => Read::RouteRandom,
        Kind::VoiceLoad => Read::Held { source, voice },
        Kind::Constant => Read::Constant,
    }
}

// where source i is read
fn read_by(source: Source, i: u8, link: Gain) -> Read
    ensures { result ≡ read_by source i link }
{
    let kind = source.kind;
    let scope = source.scope;
    let own = is_voice(scope);
    match link {
        Gain::Live => unfed_read(kind, i, own),
        Gain::Fed { plan, voice } => Read::Fed { plan, voice },
    }
}

fn voice_read(read: Read) -> bool
    ensures { result ≡ voice_read read }
{
    match read {
        Read::Signal { source: _, voice } => voice,
        Read::Held { source: _, voice } => voice,
        Read::Fed { plan: _, voice } => voice,
        Read::Constant => false,
        Read::RouteRandom => true,
    }
}

// the slew of a curve, where a rise or a fall is above 0
fn slew_for(rate: f32, curve: Curve) -> Option<Slew>
    ensures { result ≡ slew_for rate curve }
{
    let seconds = curve_table::seconds_of(curve);
    let limit = Slew {
        up: slew::rate_per_sample(seconds.rise, rate),
        down: slew::rate_per_sample(seconds.fall, rate),
    };
    if 0.0 < seconds.rise {
        return Some(limit);
    }
    if 0.0 < seconds.fall {
        return Some(limit);
    }
    None
}

fn free_slew(slew: Option<Slew>) -> bool
    ensures { result ≡ free_slew slew }
{
    slew.is_none()
}

// source i, read by the link, over the curve
fn input(rate: f32, source: Source, i: u8, link: Gain, curve: Curve) -> Input
    ensures { result ≡ input_by rate source i link curve }
{
    let range = source.range;
    let read = read_by(source, i, link);
    let slew = slew_for(rate, curve);
    Input {
        read,
        bipolar: is_bipolar(range),
        table: !curve_table::is_linear(curve),
        slew,
    }
}

fn aux_input(
    rate: f32,
    sources: Sources,
    aux: Option<u8>,
    link: Gain,
    curve: Curve,
) -> Option<Input>
    ensures { result ≡ aux_by rate sources aux link curve }
{
    match aux {
        None => None,
        Some(i) => Some(input(
            rate,
            state_registry::source_at(sources, i as usize),
            i,
            link,
            curve,
        )),
    }
}

fn voice_input(input: Input) -> bool
    ensures { result ≡ voice_read input.read }
{
    let read = input.read;
    voice_read(read)
}

fn voice_aux(aux: Option<Input>) -> bool
    ensures { result ≡ voice_aux aux }
{
    match aux {
        None => false,
        Some(i) => voice_input(i),
    }
}

fn no_aux(aux: Option<Input>) -> bool
    ensures { result ≡ no_aux aux }
{
    aux.is_none()
}

// ---- a route

fn two_way(polarity: Polarity) -> bool
    ensures { result ≡ two_way polarity }
{
    polarity == Polarity::Bipolar
}

fn scale_of(source: bool, slot: bool) -> f32
    ensures { result ≡ scale_of source slot }
{
    if source {
        if slot { 1.0 } else { 0.5 }
    } else {
        if slot { 2.0 } else { 1.0 }
    }
}

fn offset_of(source: bool, slot: bool) -> f32
    ensures { result ≡ offset_of source slot }
{
    if source {
        if slot { 0.0 } else { 0.5 }
    } else {
        if slot { -1.0 } else { 0.0 }
    }
}

// no aux, and the slot's live gains
fn is_live(aux: Option<Input>, amount: Gain, output: Gain) -> bool
    ensures { result ≡ no_aux aux && (live_gain amount && live_gain output) }
{
    if !no_aux(aux) {
        return false;
    }
    if !live_gain(amount) {
        return false;
    }
    live_gain(output)
}

// uncurved, unslewed and live
fn is_straight(input: Input, aux: Option<Input>, amount: Gain, output: Gain) -> bool
    ensures { result ≡ not input.table
        && (free_slew input.slew && (no_aux aux && (live_gain amount && live_gain output))) }
{
    if input.table {
        return false;
    }
    let slew = input.slew;
    if !free_slew(slew) {
        return false;
    }
    is_live(aux, amount, output)
}

// whether a route is plain
fn is_simple(dest_voice: bool, input: Input, aux: Option<Input>, amount: Gain, output: Gain) -> bool
    ensures { result ≡ simple_route dest_voice input aux amount output }
{
    if !voice_input(input) {
        return false;
    }
    if !dest_voice {
        return false;
    }
    is_straight(input, aux, amount, output)
}

// whether any part of a route is per voice
fn any_voice(input: Input, aux: Option<Input>, amount: Gain, output: Gain) -> bool
    ensures { result ≡ voice_read input.read || (voice_aux aux || (voice_gain amount || voice_gain output)) }
{
    if voice_input(input) {
        return true;
    }
    if voice_aux(aux) {
        return true;
    }
    if voice_gain(amount) {
        return true;
    }
    voice_gain(output)
}

// the route of slot n, by its inputs and gains
fn route_by(
    n: u8,
    slot: Slot,
    dest_voice: bool,
    input: Input,
    aux: Option<Input>,
    amount: Gain,
    output: Gain,
) -> Route
    ensures { result ≡ route_by n slot dest_voice input aux amount output }
{
    let polarity = slot.polarity;
    let bipolar = two_way(polarity);
    Route {
        slot: n,
        source: input,
        aux,
        aux_invert: slot.aux_invert,
        bipolar,
        amount,
        output,
        voice: any_voice(input, aux, amount, output),
        scale: scale_of(input.bipolar, bipolar),
        offset: offset_of(input.bipolar, bipolar),
        simple: is_simple(dest_voice, input, aux, amount, output),
    }
}

// the route of a reader whose slot is given
fn route_in(
    rate: f32,
    sources: Sources,
    order: &List<u16>,
    slot: Slot,
    dest_voice: bool,
    r: Reader,
) -> Route
    ensures { result ≡ route_in rate sources order.now.items slot dest_voice r }
{
    let c = r.candidate;
    let source_feeder = r.source;
    let aux_feeder = r.aux;
    let amount_feeder = r.amount;
    let output_feeder = r.output;
    let source_curve = slot.source_curve;
    let aux_curve = slot.aux_curve;
    let aux = c.aux;
    route_by(
        c.slot,
        slot,
        dest_voice,
        input(
            rate,
            state_registry::source_at(sources, c.source as usize),
            c.source,
            link(order, source_feeder),
            source_curve,
        ),
        aux_input(rate, sources, aux, link(order, aux_feeder), aux_curve),
        link(order, amount_feeder),
        link(order, output_feeder),
    )
}

fn no_slot() -> Slot
    ensures { result ≡ no_slot }
{
    let nan = state_registry::not_a_number();
    Slot {
        source: None,
        source_curve: Curve::Linear,
        amount: nan,
        polarity: Polarity::Unipolar,
        destination: None,
        aux: None,
        aux_invert: false,
        aux_curve: Curve::Linear,
        output: nan,
        bypass: false,
    }
}

fn slot_at(slot: [Slot; SLOTS], n: usize) -> Slot
    ensures { result ≡ get_or slot n no_slot }
{
    if n < SLOTS {
        return slot[n];
    }
    no_slot()
}

// ---- the routes of a destination

// the routes so far, and those of d
pub fn add_routes(
    list: &mut List<Route>,
    rate: f32,
    sources: Sources,
    order: &List<u16>,
    slot: [Slot; SLOTS],
    dest_voice: bool,
    d: u16,
    readers: &[Reader],
)
    ensures { list.new.items ≡ routes_added list.old.items
        (routes_in rate sources order.now.items slot dest_voice (readers_into d readers.now)) }
{
    for r in readers {
        if r.candidate.dest == d {
            let s = slot_at(slot, r.candidate.slot as usize);
            state_filled::add(list, route_in(rate, sources, order, s, dest_voice, *r));
        }
    }
}

// how many routes d has
pub fn route_count(readers: &List<Reader>, d: u16) -> usize
    ensures count { result ≡ length (readers_into d readers.now.items) }
    ensures most { result ≤ slots }
{
    let mut count = 0;
    for r in readers.as_slice() {
        if r.candidate.dest == d {
            count += 1;
        }
    }
    count
}
