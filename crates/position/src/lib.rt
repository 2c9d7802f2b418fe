// A position: its key, by which positions are told apart and put in order, and its two totals.
#![tactic(auto)]

ghost use Rattle.std.specs.Prelude.{◌≡◌};

// What tells one position from another; keys are ordered "by BIC in byte order and then date".
#[derive(Clone, Copy, PartialEq, Eq, PartialOrd, Ord)]
pub struct Key {
    // The sender, the number of its BIC.
    pub bank: u64,
    // The centralisation date.
    pub date: u32,
}

// A position. Its totals may be those of a sum that is over their limit (15), so that what bounds them is a clause where they are added.
#[derive(Clone, Copy, PartialEq, Eq)]
pub struct Position {
    // Its bank and date.
    pub key: Key,
    // The sum of its MT103.
    pub transferred: u64,
    // The sum of its MT101.
    pub detailed: u64,
}

// "Each total is at most 99,999,999,999,999."
pub const LIMIT: u64 = 99999999999999;

impl Position {
    ghost use Rattle.position.specs.Values.{empty};

    // "A missing one begins with 0 and 0."
    pub fn empty(key: Key) -> Self
        ensures { result ≡ empty key }
    {
        Position {
            key,
            transferred: 0,
            detailed: 0,
        }
    }
}
