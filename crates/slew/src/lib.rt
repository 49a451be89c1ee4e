// How a slewed value moves, in one lane. The definitions that contracts cite are in specs/Slew.antt.
#![tactic(auto)]

ghost use Rattle.std.specs.Prelude.{◌≡◌};
ghost use Rattle.slew.specs.Slew.{rate_per_sample, reach, slew_step};

// the most that a slewed value moves per sample
pub fn rate_per_sample(seconds: f32, sample_rate: f32) -> f32
    ensures { result ≡ rate_per_sample seconds sample_rate }
{
    if seconds > 0.0 {
        1.0 / (seconds * sample_rate)
    } else {
        1.0 / 0.0
    }
}

// the most that it moves in so many samples
pub fn reach(rate: f32, steps: f32) -> f32
    ensures { result ≡ reach rate steps }
{
    if steps == 0.0 { 0.0 } else { rate * steps }
}

// one step from prev towards u, at most up upwards and down downwards; snap is 1 where it ends at u, else 0
pub fn step(up: f32, down: f32, snap: f32, prev: f32, u: f32) -> f32
    ensures { result ≡ slew_step up down snap prev u }
{
    let moved = prev + number::min(number::max(u - prev, -down), up);
    moved + (u - moved) * snap
}
