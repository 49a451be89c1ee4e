// The entries that stand in the two registries, read whatever number is asked for. The definitions are in state's
// specs/Registry.
#![tactic(auto)]

ghost use Rattle.std.specs.Prelude.{◌≡◌};
ghost use Rattle.std.specs.Float.{nan};
ghost use Rattle.state.specs.Registry.{source_count, known_source, source_at, no_source, dest_count, dest_at, no_dest};
ghost use Rattle.state.specs.Registry.{dest_place};

use config::{DESTINATIONS, SOURCES};
use state::{
    Dest, Destinations, Feed, KEY_BYTES, Kind, Range, Rate, Scope, Source, Sources, Target,
};

// how many sources are registered
pub fn source_count(sources: Sources) -> usize
    ensures { result ≡ source_count sources }
{
    sources.count.min(SOURCES)
}

// whether there is a source i
pub fn known_source(sources: Sources, i: usize) -> bool
    ensures { result ≡ known_source sources i }
{
    i < source_count(sources)
}

fn no_source() -> Source
    ensures { result ≡ no_source }
{
    Source {
        key: [0; KEY_BYTES],
        len: 0,
        kind: Kind::Signal,
        scope: Scope::Voice,
        range: Range::Unipolar,
    }
}

// entry i
pub fn source_at(sources: Sources, i: usize) -> Source
    ensures { result ≡ source_at sources i }
{
    if i < SOURCES {
        return sources.entry[i];
    }
    no_source()
}

// how many destinations are registered
pub fn dest_count(dests: Destinations) -> usize
    ensures { result ≡ dest_count dests }
{
    dests.count.min(DESTINATIONS)
}

pub fn not_a_number() -> f32
    ensures { result ≡ nan }
{
    let zero = 0.0f32;
    zero / zero
}

fn no_dest() -> Dest
    ensures { result ≡ no_dest }
{
    let min = not_a_number();
    Dest {
        target: Target::Param(0),
        scope: Scope::Voice,
        rate: Rate::Audio,
        min,
        max: min,
        feed: Feed::Nothing,
    }
}

// entry d
pub fn dest_at(dests: Destinations, d: usize) -> Dest
    ensures { result ≡ dest_at dests d }
{
    if d < DESTINATIONS {
        return dests.entry[d];
    }
    no_dest()
}

// the number of the destination with the target; the count where there is none
pub fn dest_place(dests: Destinations, target: Target) -> usize
    ensures { result ≡ dest_place dests target }
{
    let n = dest_count(dests);
    dests.entry[..n]
        .iter()
        .position(|d| state::same_target(d.target, target))
        .unwrap_or(n)
}
