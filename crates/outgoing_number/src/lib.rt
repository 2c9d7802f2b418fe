// "The outgoing number is one small record of day and count, stepped forward where it is kept; a message's reference is the day, `GA`, six digits from 000001."
#![tactic(auto)]

ghost use Rattle.std.specs.Prelude.{◌+◌, ◌<◌, ◌^◌};

// The outgoing number.
#[derive(Clone, Copy)]
pub struct Outgoing {
    // The day.
    pub day: u32,
    // How many messages were numbered on it.
    pub count: u32,
}

// What a message's reference is made of. It is no `Outgoing`: that one counts from 0, and what it counts is behind it.
#[derive(Clone, Copy)]
pub struct Reference {
    // The day.
    pub day: u32,
    // The number on it, from 1.
    pub number: u32,
}

impl Outgoing {
    ghost use Rattle.outgoing_number.specs.Issue.{Steps};

    // The next reference: the count is stepped forward where it is kept.
    pub fn issue(&mut self) -> Reference
        requires { self.old.count + 1 < 2 ^ 32 }
        ensures { Steps self.old result self.new }
    {
        self.count += 1;
        Reference {
            day: self.day,
            number: self.count,
        }
    }
}
