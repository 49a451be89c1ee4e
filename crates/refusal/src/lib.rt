// Why a call is refused, and its judgement row by row: when(t1, Refusal::Number)?; when(t2, Refusal::Range)?; ..
#![tactic(auto)]

ghost use Rattle.std.specs.Prelude.{◌≡◌, [], ◌∷◌};
ghost use Rattle.refusal.specs.Judge.{judged, ◌when◌};
ghost use Rattle.refusal.specs.Refusal.{number_of, code_of};

// Why a call is refused: the rows of docs/CALLS.md, in the order of their numbers.
#[derive(Clone, Copy, Debug, PartialEq, Eq)]
pub enum Refusal {
    // 1: the range ends above the frames
    RangeEnd,
    // 2: no such voice
    Voice,
    // 3: no such source
    Source,
    // 4: no such destination
    Destination,
    // 5: no such slot
    Slot,
    // 6: a number that is not finite, or that no table may hold
    Number,
    // 7: a program for another configuration
    OtherConfig,
    // 8: a program compiled against more sources or destinations
    OtherRegistries,
    // 9: a key or a target that is registered already
    Registered,
    // 10: bounds that are no bounds
    Bounds,
    // 11: a feed of no slot
    FeedSlot,
    // 12: a registry that is full
    Full,
    // 13: a configuration or a stride outside its range
    Range,
    // 14: lent memory that is too short
    Memory,
    // 15: a table or a key that has another length
    Length,
}

impl Refusal {
    // The number of its row.
    pub fn number(self) -> u8
        ensures { result ≡ number_of self }
    {
        match self {
            Refusal::RangeEnd => 1,
            Refusal::Voice => 2,
            Refusal::Source => 3,
            Refusal::Destination => 4,
            Refusal::Slot => 5,
            Refusal::Number => 6,
            Refusal::OtherConfig => 7,
            Refusal::OtherRegistries => 8,
            Refusal::Registered => 9,
            Refusal::Bounds => 10,
            Refusal::FeedSlot => 11,
            Refusal::Full => 12,
            Refusal::Range => 13,
            Refusal::Memory => 14,
            Refusal::Length => 15,
        }
    }
}

// A row: the call is refused so where the test holds.
pub fn when(applies: bool, refusal: Refusal) -> Result<(), Refusal>
    ensures { code_of result ≡ judged (number_of refusal when applies ∷ []) }
{
    if applies {
        return Err(refusal);
    }
    Ok(())
}
