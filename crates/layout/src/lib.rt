// How much memory a program needs (docs/CALLS.md, Memories; document 01, row 14). The definitions are in model's
// specs/Need; counts above their limits count as these.
#![tactic(auto)]

ghost use Rattle.std.specs.Prelude.{◌≡◌, ◌≤◌, min};
ghost use Rattle.config.specs.Sizes.{slots, most_voices, most_frames, most_chunks};
ghost use Rattle.model.specs.Need.{values_rows, values_need, audio_need};

use config::FRAMES;

// what the values of a program take
pub fn values(voices: usize, frames: usize, plans: usize, routes: usize) -> usize
    ensures { result ≡ values_need (min voices most_voices) (min frames most_frames) (min plans slots)
        (min routes slots) }
{
    config::lane_stride(voices)
        * rows(
            config::most_chunks(frames),
            state_filled::held(plans),
            state_filled::held(routes),
        )
}

// rows of a lane stride in them
fn rows(chunks: usize, plans: usize, routes: usize) -> usize
    requires { (chunks ≤ most_chunks most_frames) × (plans ≤ slots) × (routes ≤ slots) }
    ensures { (result ≡ values_rows chunks plans routes)
        × (result ≤ values_rows (most_chunks most_frames) slots slots) }
{
    plans * (2 * chunks + 6) + 8 * routes
}

fn held_frames(frames: usize) -> usize
    ensures { result ≡ min frames most_frames }
{
    if frames < FRAMES {
        return frames;
    }
    FRAMES
}

// what its audio rows take
pub fn audio(voices: usize, frames: usize, plans: usize) -> usize
    ensures { result ≡ audio_need (min voices most_voices) (min frames most_frames) (min plans slots) }
{
    config::lane_stride(voices) * (state_filled::held(plans) * held_frames(frames))
}
