// A case number: decimal digits, at least one, then at most one line feed, then nothing (docs/DECISIONS.md, D44).
ghost use Rattle.std.specs.Prelude.{◌≡◌, ◌≤◌};
ghost use Rattle.cases.specs.Numbers.{grown, with_digit, after_digits, after, after_all, case_of};

// What the bytes so far are. A number of 100 or more stays what it is.
#[derive(Clone, Copy)]
pub enum Seen {
    // no bytes
    Nothing,
    // the digits of a number
    Digits(u64),
    // the same, and a line feed
    Ended(u64),
    // no case number, whatever follows
    Other,
}

#[tactic(auto, unfolding(crate::specs::Numbers::grown))]
fn grown(n: u64, digit: u64) -> u64
    requires { digit ≤ 9 }
    ensures { result ≡ grown n digit }
{
    if 99 < n {
        return n;
    }
    n * 10 + digit
}

#[tactic(auto, unfolding(crate::specs::Numbers::with_digit))]
fn with_digit(n: u64, b: u8) -> Seen
    ensures { result ≡ with_digit n b }
{
    if b < 48 {
        return Seen::Other;
    }
    if 57 < b {
        return Seen::Other;
    }
    Seen::Digits(grown(n, (b - 48) as u64))
}

#[tactic(auto, unfolding(crate::specs::Numbers::after_digits))]
fn after_digits(n: u64, b: u8) -> Seen
    ensures { result ≡ after_digits n b }
{
    if b == 10 {
        return Seen::Ended(n);
    }
    with_digit(n, b)
}

#[tactic(auto, unfolding(crate::specs::Numbers::after))]
fn after(seen: Seen, b: u8) -> Seen
    ensures { result ≡ after seen b }
{
    match seen {
        Seen::Nothing => with_digit(0, b),
        Seen::Digits(n) => after_digits(n, b),
        Seen::Ended(_) | Seen::Other => Seen::Other,
    }
}

// what the bytes so far and these are
pub fn after_all(seen: Seen, bytes: &[u8]) -> Seen
    ensures { result ≡ after_all seen bytes.now }
{
    let mut s = seen;
    for b in bytes {
        s = after(s, *b);
    }
    s
}

// the number that these bytes are, where they are one
#[tactic(auto, unfolding(crate::specs::Numbers::case_of))]
pub fn case_of(seen: Seen) -> Option<u64>
    ensures { result ≡ case_of seen }
{
    match seen {
        Seen::Digits(n) | Seen::Ended(n) => Some(n),
        Seen::Nothing | Seen::Other => None,
    }
}
