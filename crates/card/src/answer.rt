// What a call answers.
ghost use Rattle.std.specs.Prelude.{◌≡◌};
ghost use Rattle.card.specs.Accepted.{number_in, written_in, difference_in};

use refusal::Refusal;

// What an accepted call tells besides what it writes.
#[derive(Clone, Copy)]
pub struct Accepted {
    // How many bytes it wrote.
    pub written: usize,
    // The difference.
    pub difference: i64,
}

// The number of a call, and what it tells, as the line card's C program has them: a refused one wrote nothing.
pub fn answer(call: Result<Accepted, Refusal>, written: &mut usize, difference: &mut i64) -> u32
    ensures number { result ≡ number_in call }
    ensures written { written.new ≡ written_in call }
    ensures difference { difference.new ≡ difference_in call }
{
    match call {
        Ok(accepted) => {
            *written = accepted.written;
            *difference = accepted.difference;
            0
        }
        Err(refusal) => {
            *written = 0;
            *difference = 0;
            refusal.number()
        }
    }
}
