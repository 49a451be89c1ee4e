// The slots that become routes, and those that are left out (document 01, Slot; program.rs 560-591). The definitions
// are in model's specs/Wiring.
#![tactic(auto)]

ghost use Rattle.std.specs.Prelude.{◌≡◌, true, ◌<◌};
ghost use Rattle.config.specs.Sizes.{slots};
ghost use Rattle.state.specs.Registry.{dest_place};
ghost use Rattle.model.specs.Wiring.{aux_known, aux_of, looked, verdict_by, verdict, verdicts_from, taken_of};
ghost use Rattle.model.specs.Wiring.{left_out_from};

use config::SLOTS;
use state::{Candidate, Destinations, Reason, Skipped, Slot, Sources, Target, Verdict};
use state_filled::List;

fn aux_known(sources: Sources, aux: Option<usize>) -> bool
    ensures { result ≡ aux_known sources aux }
{
    match aux {
        None => true,
        Some(i) => state_registry::known_source(sources, i),
    }
}

// a known aux as a candidate keeps it
fn aux_of(sources: Sources, aux: Option<usize>) -> Option<u8>
    ensures { aux_known sources aux ≡ true → result ≡ aux_of aux }
{
    match aux {
        None => None,
        Some(i) => kept(i),
    }
}

// a number of a source in a byte
fn kept(i: usize) -> Option<u8>
    ensures { i < 256 → result ≡ Some i }
{
    Some((i % 256) as u8)
}

// what becomes of slot n, which names source i and the target
fn look(
    sources: Sources,
    dests: Destinations,
    n: usize,
    i: usize,
    aux: Option<usize>,
    target: Target,
) -> Verdict
    requires { n < slots }
    ensures { result ≡ looked sources dests n i aux (dest_place dests target) }
{
    let known = state_registry::known_source(sources, i);
    let known_aux = aux_known(sources, aux);
    if !known {
        return Verdict::LeftOut(Reason::UnknownSource);
    }
    if !known_aux {
        return Verdict::LeftOut(Reason::UnknownAux);
    }
    let d = state_registry::dest_place(dests, target);
    if state_registry::dest_count(dests) <= d {
        return Verdict::LeftOut(Reason::UnknownDestination);
    }
    let slot = n as u8;
    let source = i as u8;
    let dest = d as u16;
    Verdict::Taken(Candidate {
        slot,
        source,
        aux: aux_of(sources, aux),
        dest,
    })
}

// by its destination
fn aimed(
    sources: Sources,
    dests: Destinations,
    n: usize,
    i: usize,
    aux: Option<usize>,
    bypass: bool,
    destination: Option<Target>,
) -> Verdict
    requires { n < slots }
    ensures { result ≡ verdict_by sources dests n bypass aux (Some i) destination }
{
    match destination {
        None => Verdict::Over,
        Some(target) => {
            if bypass {
                Verdict::Over
            } else {
                look(sources, dests, n, i, aux, target)
            }
        }
    }
}

// what becomes of slot n
fn verdict(sources: Sources, dests: Destinations, n: usize, slot: Slot) -> Verdict
    requires { n < slots }
    ensures { result ≡ verdict sources dests n slot }
{
    let source = slot.source;
    let aux = slot.aux;
    let destination = slot.destination;
    match source {
        None => Verdict::Over,
        Some(i) => aimed(sources, dests, n, i, aux, slot.bypass, destination),
    }
}

// what becomes of each slot
pub fn verdicts(sources: Sources, dests: Destinations, slot: [Slot; SLOTS]) -> [Verdict; SLOTS]
    ensures { result ≡ verdicts_from sources dests 0 slot }
{
    let over = Verdict::Over;
    let mut out = [over; SLOTS];
    for n in 0..SLOTS {
        let s = slot[n];
        let v = verdict(sources, dests, n, s);
        out[n] = v;
    }
    out
}

// the candidates, in slot order
pub fn candidates(verdict: &[Verdict; SLOTS]) -> List<Candidate>
    ensures { result.items ≡ taken_of verdict.now }
{
    let mut out = List::new();
    for v in verdict {
        if let Verdict::Taken(c) = v {
            state_filled::add(&mut out, *c);
        }
    }
    out
}

// the slots left out, with their reasons, in slot order
pub fn skips(verdict: &[Verdict; SLOTS]) -> List<Skipped>
    ensures { result.items ≡ left_out_from 0 verdict.now }
{
    let mut out = List::new();
    for n in 0..SLOTS {
        if let Verdict::LeftOut(reason) = verdict[n] {
            state_filled::add(
                &mut out,
                Skipped {
                    slot: n as u8,
                    reason,
                },
            );
        }
    }
    out
}
