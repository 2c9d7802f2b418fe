// A message. That the area holds an engine is a clause over its bytes before, since the calls change them (see `engine_change`). Area and output stand apart, since the line card lends two areas.
ghost use Rattle.std.specs.Prelude.{◌≡◌, true, ◌+◌, ◌≤◌, length};
ghost use Rattle.std.proofs.Math.Option.{some};
ghost use Rattle.rules.specs.Text.{is_some};
ghost use Rattle.rules.specs.Calls.{first_of, limit_stops, message_text, messages_written};
ghost use Rattle.rules.specs.Area.{holds, decode, card_message};
ghost use Rattle.details.specs.Message.{message_in};
ghost use Rattle.conditions.specs.Answers.{Passes};
ghost use Rattle.conditions.specs.Books.{Books};
ghost use Rattle.card.specs.Answers.{Answers};
ghost use Rattle.card.specs.Accepted.{Answered};
ghost use Rattle.card.specs.Measured.{Measured};
ghost use Rattle.card.specs.Message.{Sent, AreaBooked, Leaves, Ready};

use crate::answer::{Accepted, answer};
use conditions::Booking;
use engine::{BankReference, Engine};
use position::Position;
use put::Writer;
use refusal::Refusal;
use verdict::{Details, NO_DETAIL};

// How many bytes the message makes the card write.
fn message_size(details: Details, engine: Engine, b: Booking, p: Position) -> usize
    requires { Ready details.message.now engine.area.now b p details.kept.now }
    ensures { Measured (message_text (decode engine.entry.area.now) (message_in details.entry.message.now)) result }
{
    let mut nothing = [0u8; 0];
    let mut w = Writer::new(&mut nothing);
    message_text::put_message_text(&mut w, details, engine, b, p);
    w.at
}

// The message booked in the area: its reference, its position and the outgoing count behind it.
fn book_in(message: &[u8], area: &mut [u8], b: Booking, count: u32)
    requires area_value { is_some (holds area.old) ≡ true }
    requires books { Books message.now (message_in message.now) b }
    requires value { 0 ≡ first_of (limit_stops (decode area.old) (some (message_in message.now))) }
    requires count_value { count ≡ (decode area.old).count + messages_written (decode area.old) (message_in message.now) }
    ensures { AreaBooked message.now area.old area.new }
{
    let field = b.reference.of(message);
    let reference = BankReference::new(b.key.bank, field);
    engine_change::book_area(area, reference, state_conditions::added_by(b), count);
}

// A message that no condition stops: its text is written, its difference told, and it is booked.
fn accept_message(
    details: Details,
    b: Booking,
    p: Position,
    area: &mut [u8],
    output: &mut [u8],
) -> Accepted
    requires ready { Ready details.message.now area.old b p details.kept.now }
    requires fits { length (message_text (decode area.old) (message_in details.message.now)) ≤ length output.old }
    ensures { Sent details.entry.message.now area.old output.old result.written result.difference area.new output.new }
{
    let engine = Engine::held(area);
    let mut w = Writer::new(output);
    let count = message_text::put_message_text(&mut w, details, engine, b, p);
    book_in(details.message, area, b, count);
    Accepted {
        written: w.at,
        difference: p.transferred as i64 - p.detailed as i64,
    }
}

// A message that none of 1 to 15 stops; p is its position as it leaves it.
fn send_message(
    details: Details,
    b: Booking,
    p: Position,
    area: &mut [u8],
    output: &mut [u8],
) -> Result<Accepted, Refusal>
    requires holds_engine { is_some (holds area.old) ≡ true }
    requires passes { Passes details.message.now (decode area.old).register b details.kept.now }
    requires none_holds { 0 ≡ first_of (limit_stops (decode area.old) (some (message_in details.message.now))) }
    requires leaves { Leaves area.old details.message.now p }
    ensures { Answered (card_message details.entry.message.now area.old output.old) result area.new output.new }
{
    let size = message_size(details, Engine::held(area), b, p);
    if output.len() < size {
        return Err(Refusal::OutputTooShort);
    }
    Ok(accept_message(details, b, p, area, output))
}

// A message that passed 1 to 8.
fn book_message(
    details: Details,
    b: Booking,
    area: &mut [u8],
    output: &mut [u8],
) -> Result<Accepted, Refusal>
    requires holds_engine { is_some (holds area.old) ≡ true }
    requires passes { Passes details.message.now (decode area.old).register b details.kept.now }
    ensures { Answered (card_message details.entry.message.now area.old output.old) result area.new output.new }
{
    let engine = Engine::held(area);
    let before = engine.totals_of(b.key);
    state_conditions::state_stop(details.message, engine, b, before)?;
    let p = message_text::position_after(b, before);
    send_message(details, b, p, area, output)
}

// A message to an area that holds an engine.
fn message_engine(message: &[u8], area: &mut [u8], output: &mut [u8]) -> Result<Accepted, Refusal>
    requires { is_some (holds area.old) ≡ true }
    ensures { Answered (card_message message.now area.old output.old) result area.new output.new }
{
    let mut kept = [NO_DETAIL; 16];
    let register = Engine::held(area).register();
    let b = conditions::check_message(message, register, &mut kept)?;
    let details = Details::of(message, &kept[0..b.count() as usize]);
    book_message(details, b, area, output)
}

// A message to any area.
#[tactic(auto, using(crate::specs::Message::message_no_engine))]
fn take_message(message: &[u8], area: &mut [u8], output: &mut [u8]) -> Result<Accepted, Refusal>
    ensures { Answered (card_message message.now area.old output.old) result area.new output.new }
{
    if !engine_check::limits_hold(area) {
        return Err(Refusal::NoEngine);
    }
    message_engine(message, area, output)
}

// Takes an MT103 or MT101.
pub fn card_message(
    message: &[u8],
    area: &mut [u8],
    output: &mut [u8],
    written: &mut usize,
    difference: &mut i64,
) -> u32
    ensures { Answers (card_message message.now area.old output.old) result written.new difference.new area.new output.new }
{
    let call = take_message(message, area, output);
    answer(call, written, difference)
}
