// The registry of destinations (dest.rs; document 01, Destination entry). The definitions that contracts cite are in
// specs/.
#![tactic(auto)]

ghost use Rattle.std.specs.Prelude.{◌≡◌};
ghost use Rattle.refusal.specs.Refusal.{code_of};
ghost use Rattle.state.specs.Registry.{dest_count};
ghost use Rattle.dest.specs.Entries.{no_dests, dests_empty, get_dest, find_dest};
ghost use Rattle.dest.specs.Replies.{entry_reply, found_reply, entry_says, found_says};
ghost use Rattle.dest.specs.Adding.{bad_slot, add_code, added_said, add_dest};
ghost use Rattle.dest.specs.Info.{
  dest_voice,
  dest_global,
  dest_audio,
  dest_control,
  dest_adaptive,
  dest_bounds,
  dest_unbounded,
  dest_feeds,
  param_info,
  lfo_bus_info,
  macro_info,
  slot_amount_info,
  slot_output_info,
};

use config::{DESTINATIONS, SLOTS};
use refusal::Refusal;
use state::{Dest, Destinations, Feed, Rate, Scope, Target};

// The registry with one entry more, and the entry's number.
#[derive(Clone, Copy)]
pub struct Added {
    pub id: usize,
    pub dests: Destinations,
}

// An entry that is made by steps; add judges it.
#[derive(Clone, Copy)]
pub struct DestInfo {
    pub target: Target,
    pub scope: Scope,
    pub rate: Rate,
    pub min: f32,
    pub max: f32,
    pub feed: Feed,
}

// ---- the registry

// the empty registry
pub fn new() -> Destinations
    ensures { result ≡ no_dests }
{
    let blank = Dest {
        target: Target::Param(0),
        scope: Scope::Voice,
        rate: Rate::Audio,
        min: 0.0,
        max: 0.0,
        feed: Feed::Nothing,
    };
    Destinations {
        count: 0,
        entry: [blank; DESTINATIONS],
    }
}

// how many destinations are registered
pub fn len(dests: Destinations) -> usize
    ensures { result ≡ dest_count dests }
{
    let count = dests.count;
    if count <= DESTINATIONS {
        count
    } else {
        DESTINATIONS
    }
}

// whether none is registered
pub fn is_empty(dests: Destinations) -> bool
    ensures { result ≡ dests_empty dests }
{
    len(dests) == 0
}

// destination id, if it is registered
pub fn get(dests: Destinations, id: usize) -> Option<Dest>
    ensures value { result ≡ get_dest dests id }
    ensures reply { entry_reply result ≡ entry_says dests id }
{
    if id < len(dests) {
        return Some(dests.entry[id]);
    }
    None
}

// the number of the destination with this target, if there is one
pub fn find(dests: Destinations, target: Target) -> Option<usize>
    ensures value { result ≡ find_dest dests target }
    ensures reply { found_reply result ≡ found_says dests target }
{
    let n = len(dests);
    for i in 0..n {
        let e = dests.entry[i];
        if state::same_target(e.target, target) {
            return Some(i);
        }
    }
    None
}

// whether the feed is onto a slot that the matrix does not have
fn feeds_no_slot(feed: Feed) -> bool
    ensures { result ≡ bad_slot feed }
{
    match feed {
        Feed::Nothing => false,
        Feed::Source(_) => false,
        Feed::Amount(n) => SLOTS <= n,
        Feed::Output(n) => SLOTS <= n,
    }
}

// whether an entry may be added, or why it may not
fn check(dests: Destinations, d: Dest) -> Result<(), Refusal>
    ensures { code_of result ≡ add_code dests d }
{
    refusal::when(find(dests, d.target).is_some(), Refusal::Registered)?;
    refusal::when(!(d.min < d.max), Refusal::Bounds)?;
    refusal::when(feeds_no_slot(d.feed), Refusal::FeedSlot)?;
    refusal::when(DESTINATIONS <= len(dests), Refusal::Full)
}

// the registry with one more entry, and the entry's number
pub fn add(
    dests: Destinations,
    target: Target,
    scope: Scope,
    rate: Rate,
    min: f32,
    max: f32,
    feed: Feed,
) -> Result<Added, Refusal>
    ensures { added_said dests result ≡ add_dest dests
        (record { target = target; scope = scope; rate = rate; min = min; max = max; feed = feed }) }
{
    let d = Dest {
        target,
        scope,
        rate,
        min,
        max,
        feed,
    };
    check(dests, d)?;
    let id = len(dests);
    let mut next = dests;
    next.entry[id] = d;
    next.count = id + 1;
    Ok(Added { id, dests: next })
}

// ---- entries by steps

impl DestInfo {
    // parameter id: global, at control rate, from 0 to 1
    pub fn param(id: u32) -> DestInfo
        ensures { result ≡ param_info id }
    {
        DestInfo {
            target: Target::Param(id),
            scope: Scope::Global,
            rate: Rate::Control,
            min: 0.0,
            max: 1.0,
            feed: Feed::Nothing,
        }
    }

    // a bus of an LFO: per voice, at control rate, from -1 to 1
    pub fn lfo_bus(lfo: u8, bus: u8) -> DestInfo
        ensures { result ≡ lfo_bus_info lfo bus }
    {
        DestInfo {
            target: Target::LfoBus { lfo, bus },
            scope: Scope::Voice,
            rate: Rate::Control,
            min: -1.0,
            max: 1.0,
            feed: Feed::Nothing,
        }
    }

    // parameter id, the control of a held source
    pub fn macro_control(id: u32, source: usize) -> DestInfo
        ensures { result ≡ macro_info id source }
    {
        DestInfo::param(id).feeds(Feed::Source(source))
    }

    // parameter id, a slot's amount, from -1 to 1
    pub fn slot_amount(id: u32, slot: usize) -> DestInfo
        ensures { result ≡ slot_amount_info id slot }
    {
        DestInfo::param(id)
            .bounds(-1.0, 1.0)
            .feeds(Feed::Amount(slot))
    }

    // parameter id, a slot's output, from 0 to 1
    pub fn slot_output(id: u32, slot: usize) -> DestInfo
        ensures { result ≡ slot_output_info id slot }
    {
        DestInfo::param(id).feeds(Feed::Output(slot))
    }

    // per voice
    pub fn voice(mut self) -> DestInfo
        ensures { result ≡ dest_voice self }
    {
        self.scope = Scope::Voice;
        self
    }

    // global
    pub fn global(mut self) -> DestInfo
        ensures { result ≡ dest_global self }
    {
        self.scope = Scope::Global;
        self
    }

    // at audio rate
    pub fn audio(mut self) -> DestInfo
        ensures { result ≡ dest_audio self }
    {
        self.rate = Rate::Audio;
        self
    }

    // at control rate
    pub fn control(mut self) -> DestInfo
        ensures { result ≡ dest_control self }
    {
        self.rate = Rate::Control;
        self
    }

    // at audio rate where a route into it reads audio
    pub fn adaptive(mut self) -> DestInfo
        ensures { result ≡ dest_adaptive self }
    {
        self.rate = Rate::Adaptive;
        self
    }

    // held to min and max
    pub fn bounds(mut self, min: f32, max: f32) -> DestInfo
        ensures { result ≡ dest_bounds self min max }
    {
        self.min = min;
        self.max = max;
        self
    }

    // held to no bounds
    pub fn unbounded(mut self) -> DestInfo
        ensures { result ≡ dest_unbounded self }
    {
        let top: f32 = 1.0 / 0.0;
        self.bounds(-top, top)
    }

    // feeding the matrix, at control rate
    pub fn feeds(mut self, feed: Feed) -> DestInfo
        ensures { result ≡ dest_feeds self feed }
    {
        self.rate = Rate::Control;
        self.feed = feed;
        self
    }
}
