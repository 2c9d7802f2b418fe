// From the old form to the new: the condition that stops the move, and its text.
ghost use Rattle.rules.specs.Moves.{with_end, newer_stops};
ghost use Rattle.register_moves.specs.Texts.{newer_way_of};

use crate::moving::RegisterMove;
use put::Writer;
use refusal::Refusal;

pub struct Newer;

impl RegisterMove for Newer {
    ghost stops = { newer_stops };

    ghost least = { 0 };

    ghost made = { with_end };

    // 9 or 16, the first that holds.
    #[tactic(auto, using(crate::specs::Stops::stopping))]
    fn stop(text: &[u8], room: usize) -> Result<(), Refusal> {
        if !register::old_register_passes(text) {
            return Err(Refusal::BadRegister);
        }
        if room < text.len() + 5 {
            return Err(Refusal::OutputTooShort);
        }
        Ok(())
    }

    // The text and the last line.
    fn put(w: &mut Writer, text: &[u8]) {
        w.put_bytes(text);
        w.put_bytes(b"END\r\n");
    }

    ghost way = { newer_way_of };
}
