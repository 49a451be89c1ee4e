// Which destinations are in use, what they feed, and who is read by which route (document 01, Plan and route;
// program.rs 296-357). The definitions are in model's specs/Feeds.
#![tactic(auto)]

ghost use Rattle.std.specs.Prelude.{◌≡◌, cond, ◌&&◌, ◌||◌, map, eqb};
ghost use Rattle.state.specs.declared.Feed.TheVariants as F;
ghost use Rattle.state.specs.Fed.{by_dest};
ghost use Rattle.state.specs.Registry.{source_at};
ghost use Rattle.model.specs.Feeds.{named, is_held, is_voice, held_global, counted, same_thing, is_audio_kind};
ghost use Rattle.model.specs.Feeds.{audio_aux};
ghost use Rattle.model.specs.Feeds.{hears_audio, audio_rate, unless_fed, audio_in, used_as, used_in, feeder_in};
ghost use Rattle.model.specs.Feeds.{aux_thing};
ghost use Rattle.model.specs.Feeds.{reader_by};

use config::SLOTS;
use state::{
    Base, Candidate, Dest, Destinations, FedBy, Feed, Kind, Rate, Reader, Scope, Source, Sources,
    Used,
};
use state_filled::List;

// ---- feeds that count

fn is_held(kind: Kind) -> bool
    ensures { result ≡ is_held kind }
{
    kind == Kind::Held
}

pub fn is_voice(scope: Scope) -> bool
    ensures { result ≡ is_voice scope }
{
    scope == Scope::Voice
}

fn held_global(source: Source) -> bool
    ensures { result ≡ held_global source }
{
    is_held(source.kind) && !is_voice(source.scope)
}

// a feed onto source i
fn counted_source(sources: Sources, i: usize) -> Base
    ensures { result ≡ counted sources (F.Source i) }
{
    if !state_registry::known_source(sources, i) {
        return Base::Set;
    }
    if !held_global(state_registry::source_at(sources, i)) {
        return Base::Set;
    }
    Base::Held(i as u8)
}

fn counted_amount(sources: Sources, n: usize) -> Base
    ensures { result ≡ counted sources (F.Amount n) }
{
    if n < SLOTS {
        return Base::Amount(n as u8);
    }
    Base::Set
}

fn counted_output(sources: Sources, n: usize) -> Base
    ensures { result ≡ counted sources (F.Output n) }
{
    if n < SLOTS {
        return Base::Output(n as u8);
    }
    Base::Set
}

// what is fed, where the feed counts
pub fn counted(sources: Sources, feed: Feed) -> Base
    ensures { result ≡ counted sources feed }
{
    match feed {
        Feed::Nothing => Base::Set,
        Feed::Source(i) => counted_source(sources, i),
        Feed::Amount(n) => counted_amount(sources, n),
        Feed::Output(n) => counted_output(sources, n),
    }
}

// ---- control or audio

fn is_audio_kind(kind: Kind) -> bool
    ensures { result ≡ is_audio_kind kind }
{
    kind == Kind::Audio
}

fn audio_source(sources: Sources, i: usize) -> bool
    ensures { result ≡ is_audio_kind (source_at sources i).kind }
{
    let s = state_registry::source_at(sources, i);
    let kind = s.kind;
    is_audio_kind(kind)
}

fn audio_aux(sources: Sources, aux: Option<u8>) -> bool
    ensures { result ≡ audio_aux sources aux }
{
    match aux {
        None => false,
        Some(i) => audio_source(sources, i as usize),
    }
}

// whether the candidate is d's and has an Audio source or aux
fn hears(sources: Sources, c: Candidate, d: u16) -> bool
    ensures { result ≡ eqb c.dest d
        && (is_audio_kind (source_at sources c.source).kind || audio_aux sources c.aux) }
{
    c.dest == d && (audio_source(sources, c.source as usize) || audio_aux(sources, c.aux))
}

// whether some candidate of d has an Audio source or aux
#[tactic(auto, unfolding(model::specs::Feeds::hears_audio))]
fn hears_audio(sources: Sources, candidates: &[Candidate], d: u16) -> bool
    ensures { result ≡ hears_audio sources candidates.now d }
{
    for c in candidates {
        if hears(sources, *c, d) {
            return true;
        }
    }
    false
}

fn audio_rate(hears: bool, rate: Rate) -> bool
    ensures { result ≡ audio_rate hears rate }
{
    match rate {
        Rate::Audio => true,
        Rate::Control => false,
        Rate::Adaptive => hears,
    }
}

fn unless_fed(feed: Base, audio: bool) -> bool
    ensures { result ≡ unless_fed feed audio }
{
    audio && matches!(feed, Base::Set)
}

// whether the entry, number d, runs at audio rate
pub fn is_audio(sources: Sources, candidates: &[Candidate], d: u16, entry: Dest) -> bool
    ensures { result ≡ audio_in sources candidates.now d entry }
{
    let feed = entry.feed;
    let rate = entry.rate;
    let hears = hears_audio(sources, candidates, d);
    unless_fed(counted(sources, feed), audio_rate(hears, rate))
}

// ---- destinations in use

fn is_named(candidates: &[Candidate], d: u16) -> bool
    ensures { result ≡ named candidates.now d }
{
    for c in candidates {
        if c.dest == d {
            return true;
        }
    }
    false
}

fn used_as(sources: Sources, candidates: &[Candidate], d: u16, entry: Dest) -> Used
    ensures { result ≡ used_as sources candidates.now d entry }
{
    let scope = entry.scope;
    let feed = entry.feed;
    Used {
        dest: d,
        voice: is_voice(scope),
        audio: is_audio(sources, candidates, d, entry),
        feed: counted(sources, feed),
    }
}

// the destinations that the candidates name, ascending
pub fn used_dests(sources: Sources, dests: Destinations, candidates: &List<Candidate>) -> List<Used>
    ensures { result.items ≡ used_in sources dests candidates.now.items }
{
    let mut out = List::new();
    for d in 0..state_registry::dest_count(dests) {
        if is_named(candidates, d as u16) {
            state_filled::add(
                &mut out,
                used_as(sources, candidates, d as u16, dests.entry[d]),
            );
        }
    }
    out
}

// ---- the feeder that is read

// No derived equality: a base that is not fed is the same as nothing.
fn same_thing(a: Base, b: Base) -> bool
    ensures { result ≡ same_thing a b }
{
    a != Base::Set && a == b
}

// the last of those in use that feeds the thing
fn feeder(used: &[Used], thing: Base) -> Option<FedBy>
    ensures { result ≡ feeder_in used.now thing }
{
    let mut found = None;
    for u in used {
        if same_thing(u.feed, thing) {
            found = Some(FedBy {
                dest: u.dest,
                voice: u.voice,
            });
        }
    }
    found
}

fn aux_thing(aux: Option<u8>) -> Base
    ensures { result ≡ aux_thing aux }
{
    match aux {
        None => Base::Set,
        Some(i) => Base::Held(i),
    }
}

// a candidate, with the feeders that it reads
fn reader(used: &[Used], c: Candidate) -> Reader
    ensures { result ≡ reader_by (feeder_in used.now) c }
{
    Reader {
        candidate: c,
        source: feeder(used, Base::Held(c.source)),
        aux: feeder(used, aux_thing(c.aux)),
        amount: feeder(used, Base::Amount(c.slot)),
        output: feeder(used, Base::Output(c.slot)),
    }
}

// the candidates, each with the feeders that it reads
pub fn readers(used: &[Used], candidates: &List<Candidate>) -> List<Reader>
    ensures { result.items ≡ map (reader_by (feeder_in used.now)) candidates.now.items }
{
    let mut out = List::new();
    for c in candidates.as_slice() {
        state_filled::add(&mut out, reader(used, *c));
    }
    out
}
