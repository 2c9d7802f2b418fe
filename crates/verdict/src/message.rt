// The details of a message with their verdicts.
ghost use Rattle.std.specs.Prelude.{◌≡◌};
ghost use Rattle.verdict.specs.Details.{KeptIn};

use crate::Judged;

// The details of a message as they were judged.
#[derive(Clone, Copy)]
pub struct Details<'a> {
    // The message's bytes.
    pub message: &'a [u8],
    // What is kept of each of its details, in their order.
    pub kept: &'a [Judged],
    ghost its: { ∥ KeptIn message.now kept.now ∥₁ },
}

impl<'a> Details<'a> {
    // Those of a message, all of them kept.
    pub fn of(message: &'a [u8], kept: &'a [Judged]) -> Details<'a>
        requires { KeptIn message.now kept.now }
        ensures message { result.message.now ≡ message.now }
        ensures kept { result.kept.now ≡ kept.now }
    {
        Details { message, kept }
    }
}
