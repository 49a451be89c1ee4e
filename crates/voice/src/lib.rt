// What notes do to the voices, to their marks and to their note values (engine.rs 450-520, 701-754). The definitions
// that contracts cite are in specs/. Every call is total: a voice not below VOICES changes nothing.
#![tactic(auto)]

ghost use Rattle.std.specs.Prelude.{◌≡◌, true, ◌||◌, cond, map, ◌<◌, ◌≤◌, take};
ghost use Rattle.config.specs.Sizes.{most_voices};
ghost use Rattle.voice.specs.Joined.{joined};
ghost use Rattle.voice.specs.Marks.{any_of, no_marks, marks_on, marks_ended, marks_swapped, marks_cleared};
ghost use Rattle.voice.specs.Notes.{stopped, no_notes, legato_time, step_of, glides_to, set_glide, set_value, set_note};
ghost use Rattle.voice.specs.Notes.{ended_note, moving, arrives, moved, moved_value, moved_glide, set_lane};
ghost use Rattle.voice.specs.Notes.{moved_lane, any_moving, advanced, gliding};
ghost use Rattle.voice.specs.Voices.{up_from, raised, rank_of, is_voice, later, latest, newest_after, no_voices};
ghost use Rattle.voice.specs.Voices.{sounded_on, released_of, ended_of, is_sounding, count_on, active_count};

use config::VOICES;

// ---- voices

// Which voices sound, which sounded last, and how many sounded since each: the newest has rank 0.
#[derive(Clone, Copy)]
pub struct Voices {
    pub active: [bool; VOICES],
    pub rank: [u8; VOICES],
    pub newest: Option<usize>,
}

// 0, 1, .., the ranks before any note
fn first_ranks() -> [u8; VOICES]
    ensures { result ≡ up_from 0 most_voices }
{
    let mut out = [0u8; VOICES];
    for k in 0..VOICES {
        out[k] = k as u8;
    }
    out
}

// one more, below the limit
fn raised_rank(x: u8, limit: u8) -> u8
    ensures { result ≡ raised limit x }
{
    if x < limit { x + 1 } else { x }
}

// each rank below the limit goes up by one
fn raised_ranks(rank: [u8; VOICES], limit: u8) -> [u8; VOICES]
    ensures { result ≡ map (raised limit) rank }
{
    let mut out = rank;
    for x in out.iter_mut() {
        *x = raised_rank(*x, limit);
    }
    out
}

// a voice's rank
fn rank_of(rank: [u8; VOICES], voice: usize) -> u8
    ensures { result ≡ rank_of rank voice }
{
    rank.get(voice).copied().unwrap_or(0)
}

// of a voice and the newest of those looked at before it, the one that sounded last
fn later(newest: Option<usize>, voice: usize, rank: [u8; VOICES]) -> Option<usize>
    ensures { result ≡ later rank voice newest }
{
    match newest {
        None => Some(voice),
        Some(w) => {
            if rank_of(rank, voice) < rank_of(rank, w) {
                Some(voice)
            } else {
                Some(w)
            }
        }
    }
}

// the newest of those looked at, once a voice was looked at
fn latest_with(on: bool, newest: Option<usize>, voice: usize, rank: [u8; VOICES]) -> Option<usize>
    ensures { result ≡ cond on (later rank voice newest) newest }
{
    if on {
        return later(newest, voice, rank);
    }
    newest
}

// the active voice that sounded last
fn latest(active: [bool; VOICES], rank: [u8; VOICES]) -> Option<usize>
    ensures { result ≡ latest active rank most_voices }
{
    let mut newest = None;
    for v in 0..VOICES {
        newest = latest_with(active[v], newest, v, rank);
    }
    newest
}

// whether the newest is this voice
fn is_voice(newest: Option<usize>, voice: usize) -> bool
    ensures { result ≡ is_voice newest voice }
{
    match newest {
        None => false,
        Some(w) => w == voice,
    }
}

// the newest after a voice has ended
fn newest_after(
    newest: Option<usize>,
    voice: usize,
    active: [bool; VOICES],
    rank: [u8; VOICES],
) -> Option<usize>
    ensures { result ≡ newest_after newest voice active rank }
{
    if is_voice(newest, voice) {
        return latest(active, rank);
    }
    newest
}

// how many of the first n are on
fn count_on(active: [bool; VOICES], n: usize) -> usize
    requires { n ≤ most_voices }
    ensures { result ≡ count_on (take n active) }
{
    active[..n].iter().filter(|on| **on).count()
}

impl Voices {
    // no voice sounds
    pub fn new() -> Self
        ensures { result ≡ no_voices }
    {
        Voices {
            active: [false; VOICES],
            rank: first_ranks(),
            newest: None,
        }
    }

    // A note starts on a voice: it is active and the newest.
    pub fn note_on(mut self, voice: usize) -> Self
        ensures { result ≡ sounded_on self voice }
    {
        if VOICES <= voice {
            return self;
        }
        self.active[voice] = true;
        let active = self.active;
        let rank = self.rank;
        let limit = rank[voice];
        let mut next = raised_ranks(rank, limit);
        next[voice] = 0;
        Voices {
            active,
            rank: next,
            newest: Some(voice),
        }
    }

    // A note is released: its voice sounds on.
    pub fn note_off(mut self, voice: usize) -> Self
        ensures { result ≡ released_of self voice }
    {
        self
    }

    // A voice has stopped sounding.
    pub fn voice_ended(mut self, voice: usize) -> Self
        ensures { result ≡ ended_of self voice }
    {
        if VOICES <= voice {
            return self;
        }
        self.active[voice] = false;
        let active = self.active;
        let rank = self.rank;
        let newest = self.newest;
        let next = newest_after(newest, voice, active, rank);
        Voices {
            active,
            rank,
            newest: next,
        }
    }

    // whether a voice sounds
    #[tactic(auto, unfolding(crate::specs::Voices::is_sounding))]
    pub fn is_active(self, voice: usize) -> bool
        ensures { result ≡ is_sounding self voice }
    {
        self.active.get(voice).copied().unwrap_or(false)
    }

    // how many of the first n voices sound
    pub fn active_count(self, n: usize) -> usize
        ensures { result ≡ active_count self n }
    {
        count_on(self.active, n.min(VOICES))
    }
}

// ---- marks

// Which voices start at their new values (fresh) and take new random numbers (renoted), and whether any was marked
// since the last block.
#[derive(Clone, Copy)]
pub struct Marks {
    pub fresh: [bool; VOICES],
    pub any_fresh: bool,
    pub renoted: [bool; VOICES],
    pub any_renoted: bool,
}

// each mark that either has
fn either(marks: [bool; VOICES], others: [bool; VOICES]) -> [bool; VOICES]
    ensures { result ≡ joined ◌||◌ marks others }
{
    let mut out = marks;
    for v in 0..VOICES {
        out[v] = out[v] | others[v];
    }
    out
}

// whether any is on
fn any(marks: [bool; VOICES]) -> bool
    ensures { result ≡ any_of marks }
{
    marks.iter().any(|on| *on)
}

impl Marks {
    // no marks
    pub fn new() -> Self
        ensures { result ≡ no_marks }
    {
        Marks {
            fresh: [false; VOICES],
            any_fresh: false,
            renoted: [false; VOICES],
            any_renoted: false,
        }
    }

    // A note starts on a voice: it is renoted, and fresh unless legato.
    pub fn note_on(mut self, voice: usize, legato: bool) -> Self
        ensures { result ≡ marks_on self voice legato }
    {
        if VOICES <= voice {
            return self;
        }
        self.renoted[voice] = true;
        self.any_renoted = true;
        if legato {
            return self;
        }
        self.fresh[voice] = true;
        self.any_fresh = true;
        self
    }

    // A voice has ended: its marks go, and the any-marks stay.
    pub fn voice_ended(mut self, voice: usize) -> Self
        ensures { result ≡ marks_ended self voice }
    {
        if VOICES <= voice {
            return self;
        }
        self.fresh[voice] = false;
        self.renoted[voice] = false;
        self
    }

    // A program is installed: every active voice is fresh and renoted.
    pub fn swapped(mut self, active: [bool; VOICES]) -> Self
        ensures { result ≡ marks_swapped self active }
    {
        let some = any(active);
        let fresh = self.fresh;
        let renoted = self.renoted;
        Marks {
            fresh: either(fresh, active),
            any_fresh: self.any_fresh | some,
            renoted: either(renoted, active),
            any_renoted: self.any_renoted | some,
        }
    }

    // A block is over.
    pub fn cleared(mut self) -> Self
        ensures { result ≡ marks_cleared self }
    {
        Marks::new()
    }
}

// ---- note values

// A note value's way to its target: the step is per sample, and 0 where it stands still.
#[derive(Clone, Copy)]
pub struct Glide {
    pub target: f32,
    pub step: f32,
}

// A legato time. The scope names the form, an enum of its own rather than an Option (docs/SCOPE.md, S143).
#[derive(Clone, Copy)]
pub enum Legato {
    NoGlide,
    Glide { seconds: f32 },
}

// The values that a note curve gave each voice.
#[derive(Clone, Copy)]
pub struct Notes {
    pub value: [f32; VOICES],
    pub glide: [Glide; VOICES],
}

// a note's legato time: none unless it is legato, the program glides and the seconds are above 0
pub fn legato_time(legato: bool, glide: bool, seconds: f32) -> Legato
    ensures { result ≡ legato_time legato glide seconds }
{
    if legato && glide && seconds > 0.0 {
        Legato::Glide { seconds }
    } else {
        Legato::NoGlide
    }
}

// whether a value set glides to its target; where it does not, it is there at once
pub fn glides_to(value: f32, target: f32, legato: Legato) -> bool
    ensures { result ≡ glides_to value target legato }
{
    match legato {
        Legato::NoGlide => false,
        Legato::Glide { seconds: _ } => target != value,
    }
}

// a glide ended
fn stopped(glide: Glide) -> Glide
    ensures { result ≡ stopped glide }
{
    Glide {
        target: glide.target,
        step: 0.0,
    }
}

// the step per sample that makes the way in so many seconds
fn step_of(value: f32, target: f32, legato: Legato, sample_rate: f32) -> f32
    ensures { result ≡ step_of value target legato sample_rate }
{
    match legato {
        Legato::NoGlide => 0.0,
        Legato::Glide { seconds } => number::abs(target - value) / (seconds * sample_rate),
    }
}

// the glide, once a value is set
fn set_glide(glide: Glide, value: f32, target: f32, legato: Legato, sample_rate: f32) -> Glide
    ensures { result ≡ set_glide glide value target legato sample_rate }
{
    if glides_to(value, target, legato) {
        return Glide {
            target,
            step: step_of(value, target, legato, sample_rate),
        };
    }
    stopped(glide)
}

// the value, once it is set
fn set_value(value: f32, target: f32, legato: Legato) -> f32
    ensures { result ≡ set_value value target legato }
{
    if glides_to(value, target, legato) {
        return value;
    }
    target
}

// whether a glide moves
pub fn is_moving(glide: Glide) -> bool
    ensures { result ≡ moving glide }
{
    let step = glide.step;
    !(step <= 0.0)
}

// whether what is left is at most what a glide moves
fn arrives(value: f32, glide: Glide, delta: f32) -> bool
    ensures { result ≡ arrives value glide delta }
{
    number::abs(glide.target - value) <= delta
}

// a value on its way, moved by delta
fn moved(value: f32, glide: Glide, delta: f32) -> f32
    ensures { result ≡ moved value glide delta }
{
    let target = glide.target;
    if arrives(value, glide, delta) {
        return target;
    }
    if value < target {
        return value + delta;
    }
    value - delta
}

// what a held lane has, once the value is set
pub fn set_lane(lane: f32, value: f32, target: f32, legato: Legato) -> f32
    ensures { result ≡ set_lane value target legato lane }
{
    if glides_to(value, target, legato) {
        return lane;
    }
    target
}

// what a held lane has after so many frames: the glide is the one before them, the value the one after
pub fn moved_lane(lane: f32, glide: Glide, value: f32) -> f32
    ensures { result ≡ moved_lane glide value lane }
{
    if is_moving(glide) {
        return value;
    }
    lane
}

// a value after so many frames
fn moved_value(value: f32, glide: Glide, frames: f32) -> f32
    ensures { result ≡ moved_value frames value glide }
{
    if is_moving(glide) {
        return moved(value, glide, glide.step * frames);
    }
    value
}

// its glide after so many frames
fn moved_glide(value: f32, glide: Glide, frames: f32) -> Glide
    ensures { result ≡ moved_glide frames value glide }
{
    if is_moving(glide) && arrives(value, glide, glide.step * frames) {
        return stopped(glide);
    }
    glide
}

// whether any glide moves
fn any_moving(glide: [Glide; VOICES]) -> bool
    ensures { result ≡ any_moving glide }
{
    glide.iter().any(|g| is_moving(*g))
}

// every value after so many frames
fn moved_values(value: [f32; VOICES], glide: [Glide; VOICES], frames: f32) -> [f32; VOICES]
    ensures { result ≡ joined (moved_value frames) value glide }
{
    let mut out = value;
    for v in 0..VOICES {
        let x = out[v];
        let g = glide[v];
        out[v] = moved_value(x, g, frames);
    }
    out
}

// every glide after so many frames
fn moved_glides(value: [f32; VOICES], glide: [Glide; VOICES], frames: f32) -> [Glide; VOICES]
    ensures { result ≡ joined (moved_glide frames) value glide }
{
    let mut out = glide;
    for v in 0..VOICES {
        let x = value[v];
        let g = out[v];
        out[v] = moved_glide(x, g, frames);
    }
    out
}

impl Notes {
    // every value 0, and no glide
    pub fn new() -> Self
        ensures { result ≡ no_notes }
    {
        let rest = Glide {
            target: 0.0,
            step: 0.0,
        };
        Notes {
            value: [0.0; VOICES],
            glide: [rest; VOICES],
        }
    }

    // A note sets its voice's value, at once or by a glide.
    pub fn set(mut self, voice: usize, target: f32, legato: Legato, sample_rate: f32) -> Self
        ensures { result ≡ set_note self voice target legato sample_rate }
    {
        if VOICES <= voice {
            return self;
        }
        let x = self.value[voice];
        let g = self.glide[voice];
        let next = set_glide(g, x, target, legato, sample_rate);
        self.glide[voice] = next;
        self.value[voice] = set_value(x, target, legato);
        self
    }

    // A voice has ended: its glide ends where it is.
    pub fn voice_ended(mut self, voice: usize) -> Self
        ensures { result ≡ ended_note self voice }
    {
        if VOICES <= voice {
            return self;
        }
        let g = self.glide[voice];
        let next = stopped(g);
        self.glide[voice] = next;
        self
    }

    // So many frames pass.
    pub fn advance(mut self, frames: usize) -> Self
        ensures { result ≡ advanced self frames }
    {
        let glide = self.glide;
        if !any_moving(glide) {
            return self;
        }
        let value = self.value;
        let many = number::nearest_u64_to_f32(frames as u64);
        Notes {
            value: moved_values(value, glide, many),
            glide: moved_glides(value, glide, many),
        }
    }

    // whether any value is on its way
    pub fn is_gliding(self) -> bool
        ensures { result ≡ gliding self }
    {
        let glide = self.glide;
        any_moving(glide)
    }
}
