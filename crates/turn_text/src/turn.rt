// The text of a turn: posting lines, then messages, for the positions that it corrects.
ghost use Rattle.rules.specs.Written.{correction_postings};
ghost use Rattle.rules.specs.Area.{decode};
ghost use Rattle.put.specs.Writes.{Writes};
ghost use Rattle.turn_text.specs.Turn.{temporary_at, CorrectionsPut};
ghost use Rattle.turn_text.specs.Area.{TurnPut};

use crate::positions::is_corrected;
use engine::Engine;
use outgoing_number::Outgoing;
use put::Writer;
use written::{put_correction, put_correction_posting};

// The posting lines of the positions, in their order.
fn put_correction_postings(w: &mut Writer, day: u32, engine: Engine)
    ensures { Writes (correction_postings day (temporary_at engine.entry.area.now) (decode engine.entry.area.now).positions) w.old w.new }
{
    let n = engine.header().positions;
    let temporary = engine.temporary();
    for i in 0..n {
        let p = engine.position(i);
        if is_corrected(p) {
            put_correction_posting(w, day, temporary, p);
        }
    }
}

// The messages of the positions that are to correct, each by the next reference of the day. Answers how many they are.
fn put_corrections(w: &mut Writer, day: u32, engine: Engine) -> u32
    ensures { CorrectionsPut day engine.entry.area.now w.old result w.new }
{
    let n = engine.header().positions;
    let mut outgoing = Outgoing { day, count: 0 };
    for i in 0..n {
        let p = engine.position(i);
        if is_corrected(p) {
            let r = outgoing.issue();
            put_correction(w, r, engine.temporary(), p);
        }
    }
    outgoing.count
}

// The whole text of a turn to a day. Answers how many messages it has.
pub fn put_turn_text(w: &mut Writer, day: u32, engine: Engine) -> u32
    ensures { TurnPut engine.entry.area.now day w.old result w.new }
{
    put_correction_postings(w, day, engine);
    put_corrections(w, day, engine)
}
