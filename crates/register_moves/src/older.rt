// From the new form to the old: the condition that stops the move, and its text.
#![tactic(auto, using(crate::specs::Stops::stopping))]

ghost use Rattle.std.specs.Prelude.{◌≡◌};
ghost use Rattle.rules.specs.Calls.{first_of};
ghost use Rattle.rules.specs.Moves.{without_end, older_stops};
ghost use Rattle.register_moves.specs.Stops.{way_stops};
ghost use Rattle.register_moves.specs.Texts.{older_way_of};
ghost use Rattle.refusal.specs.Numbers.{stop_of};

use crate::moving::RegisterMove;
use put::Writer;
use refusal::Refusal;
use register::Register;

// 19 or 16, the first that holds: of code lines in the way, and of a text that does not fit. (What is true is found out before, so that their order stands in one plain function.)
fn way_stop(coded: bool, fits: bool) -> Result<(), Refusal>
    ensures { stop_of result ≡ first_of (way_stops coded fits) }
{
    if coded {
        return Err(Refusal::HasCodes);
    }
    if !fits {
        return Err(Refusal::OutputTooShort);
    }
    Ok(())
}

pub struct Older;

impl RegisterMove for Older {
    ghost stops = { older_stops };

    ghost least = { 5 };

    ghost made = { without_end };

    // 9, 19 or 16, the first that holds.
    fn stop(text: &[u8], room: usize) -> Result<(), Refusal> {
        let register = Register::of(text).ok_or(Refusal::BadRegister)?;
        way_stop(register.has_codes(), text.len() - 5 <= room)
    }

    // The text without its last line.
    fn put(w: &mut Writer, text: &[u8]) {
        w.put_bytes(&text[..text.len() - 5]);
    }

    ghost way = { older_way_of };
}
