// What a line of a session comes to where it is not accepted (docs/SESSIONS.md): its call is refused, or it ends the
// session.
#![tactic(auto)]

use refusal::Refusal;

// Why a line is not accepted.
#[derive(Clone, Copy)]
pub enum Stop {
    // its call is refused; the session goes on
    Refused(Refusal),
    // an error ends the session
    Error(Fault),
    // a need that is beyond the program's memories ends the session
    TooLarge(Limit),
}

// The errors.
#[derive(Clone, Copy)]
pub enum Fault {
    // a word that does not belong where it stands, or one that is missing
    Malformed,
    // an engine, a program or a table that is not there
    Absent,
    // a table's line that asks for an entry that is not there
    NoEntry,
    // the input can't be read to its end
    Unread,
    // calls that owe one answer gave two
    Parted,
}

// The needs.
#[derive(Clone, Copy)]
pub enum Limit {
    // more tables than there are places, or longer names
    Tables,
    // more numbers in named tables than there is room for
    TableNumbers,
    // more programs than there are places, or longer names
    Programs,
    // more numbers in values, audio, tables or samples than there is room for
    Numbers,
    // a line that is longer than the buffer
    LineBytes,
    // more audio keys, or longer ones, than there is room for
    Keys,
}

impl From<Refusal> for Stop {
    fn from(refusal: Refusal) -> Stop {
        Stop::Refused(refusal)
    }
}

impl From<Fault> for Stop {
    fn from(fault: Fault) -> Stop {
        Stop::Error(fault)
    }
}

impl From<Limit> for Stop {
    fn from(limit: Limit) -> Stop {
        Stop::TooLarge(limit)
    }
}
