// The text of a message that is booked.
ghost use Rattle.std.specs.Prelude.{◌≡◌, ◌*◌, ◌^◌, ◌≤◌, ◌<◌};
ghost use Rattle.rules.specs.Calls.{position_after};
ghost use Rattle.rules.specs.Area.{decode};
ghost use Rattle.details.specs.Message.{message_in};
ghost use Rattle.conditions.specs.Books.{Books, is_transfer};
ghost use Rattle.verdict.specs.Details.{JudgedIn};
ghost use Rattle.position.specs.Values.{position_value};
ghost use Rattle.engine.specs.Totals.{begun};
ghost use Rattle.message_text.specs.Message.{AfterOf, PartsFor, TextPut, verdict_follows};

use crate::postings::put_postings;
use crate::returns::put_returns;
use crate::verdicts::{count_listed, parts_of, put_parts};
use conditions::{Booking, Kind};
use engine::Engine;
use outgoing_number::Outgoing;
use position::Position;
use put::Writer;
use state_conditions::added_by;
use verdict::Details;
use written::Book;

// The position as the message leaves it, where it was open or missing before.
pub fn position_after(b: Booking, before: Option<Position>) -> Position
    requires transferred_bound { (begun b.key before).transferred < 2 ^ 48 }
    requires detailed_bound { (begun b.key before).detailed < 2 ^ 48 }
    requires amount_bound { b.amount ≤ 16 * 10 ^ 16 }
    ensures { AfterOf b (begun b.key before) result }
{
    let x = before.unwrap_or(Position::empty(b.key));
    let added = added_by(b);
    Position {
        transferred: x.transferred + added.transferred,
        detailed: x.detailed + added.detailed,
        ..added
    }
}

// Does an MT199 follow? It follows an MT101, and an MT103 whose position has details.
fn has_verdict(b: Booking, p: Position) -> bool
    ensures { result ≡ verdict_follows (is_transfer b.kind) p.detailed }
{
    match b.kind {
        Kind::Transfer => 1 <= p.detailed,
        Kind::Order(_) => true,
    }
}

// How many parts of an MT199 follow.
fn parts_for(b: Booking, p: Position, details: Details) -> u32
    ensures { PartsFor b p details.entry.kept.now result }
{
    if has_verdict(b, p) {
        return parts_of(count_listed(details));
    }
    0
}

// The whole text of a message; p is its position as it leaves it. Answers the outgoing count that is then kept.
pub fn put_message_text(
    w: &mut Writer,
    details: Details,
    engine: Engine,
    b: Booking,
    p: Position,
) -> u32
    requires books { Books details.message.now (message_in details.message.now) b }
    requires judged_in { JudgedIn (decode engine.area.now).register details.message.now details.kept.now }
    requires leaves { position_value p ≡ position_after (decode engine.area.now) (message_in details.message.now) }
    ensures { TextPut (decode engine.entry.area.now) (message_in details.entry.message.now) w.old result w.new }
{
    let h = engine.header();
    let register = engine.register();
    let book = Book {
        day: h.day,
        key: p.key,
    };
    let mut o = Outgoing {
        day: h.day,
        count: h.count,
    };
    let parts = parts_for(b, p, details);
    put_postings(w, book, register, details, b);
    put_parts(w, &mut o, parts, p, details);
    put_returns(w, &mut o, book, register, details);
    o.count
}
