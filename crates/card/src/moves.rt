// The moves of a register's text from the old form to the new and back: no engine area is lent to them.
ghost use Rattle.std.specs.Prelude.{◌≡◌, [], pos};
ghost use Rattle.rules.specs.Area.{card_newer, card_older};
ghost use Rattle.card.specs.Answers.{Answers};
ghost use Rattle.card.specs.Accepted.{Answered};
ghost use Rattle.card.specs.Moves.{moved_by};

use crate::answer::{Accepted, answer};
use put::Writer;
use refusal::Refusal;
use register_moves::{Newer, Older, RegisterMove};

// A move that wrote so many bytes: it tells no difference.
fn moved(written: usize) -> Accepted
    ensures { result ≡ record { written = written; difference = pos 0 } }
{
    Accepted {
        written,
        difference: 0,
    }
}

// A register's text in another form.
fn move_text<M: RegisterMove>(text: &[u8], output: &mut [u8]) -> Result<Accepted, Refusal>
    ensures { Answered (moved_by M.stops M.made text.now output.old) result [] output.new }
{
    M::stop(text, output.len())?;
    let mut w = Writer::new(output);
    M::put(&mut w, text);
    Ok(moved(w.at))
}

// Moves an old register's text to the newer form.
#[tactic(auto, unfolding(rules::specs::Area::card_newer, rules::specs::Moves::newer_call))]
pub fn card_newer(text: &[u8], output: &mut [u8], written: &mut usize, difference: &mut i64) -> u32
    ensures { Answers (card_newer text.now output.old) result written.new difference.new [] output.new }
{
    let call = move_text::<Newer>(text, output);
    answer(call, written, difference)
}

// Moves a register's text to the older form.
#[tactic(auto, unfolding(rules::specs::Area::card_older, rules::specs::Moves::older_call))]
pub fn card_older(text: &[u8], output: &mut [u8], written: &mut usize, difference: &mut i64) -> u32
    ensures { Answers (card_older text.now output.old) result written.new difference.new [] output.new }
{
    let call = move_text::<Older>(text, output);
    answer(call, written, difference)
}
