// The check of a whole message: the lowest condition of 1 to 8 that holds, or what booking it needs.
ghost use Rattle.std.specs.Prelude.{◌≡◌};
ghost use Rattle.rules.specs.Text.{equal};
ghost use Rattle.rules.specs.Lines.{type};
ghost use Rattle.rules.specs.Messages.{read_order};
ghost use Rattle.rules.specs.Calls.{addressed};
ghost use Rattle.conditions.specs.Answers.{CheckedBy, CheckedAs};
ghost use Rattle.conditions.specs.Checks.{TransferChecked};

use crate::booking::{Booking, Kind, booking_of};
use crate::order::order_stop;
use crate::tally::tally_details;
use field_conditions::transfer_stop;
use forms::{MESSAGE_20, read_rows, read_transfer};
use lines::Message;
use refusal::Refusal;
use register::Register;
use verdict::Judged;

// 3 to 8 of an MT103.
#[tactic(auto, using(crate::specs::Checks::transfer_formless, crate::specs::Checks::transfer_date))]
fn check_transfer(message: Message, temporary: &[u8]) -> Result<Booking, Refusal>
    ensures { TransferChecked temporary.now message.entry.text.now result }
{
    let t = read_transfer(message).ok_or(Refusal::NotInForm)?;
    transfer_stop(message.text, temporary, t)?;
    let reference = t.spans[MESSAGE_20].behind(4);
    Ok(booking_of(message, Kind::Transfer, reference, t.date, t.amount))
}

// 3 to 8 of an MT101, its details judged by the register.
fn check_order(
    message: Message,
    register: Register,
    kept: &mut [Judged; 16],
) -> Result<Booking, Refusal>
    ensures { CheckedBy message.entry.text.now register.entry.text.now (read_order message.entry.text.now) result kept.new }
{
    let mut reader = message.body();
    let spans = read_rows::<1>(&mut reader, 0).ok_or(Refusal::NotInForm)?;
    let t = tally_details(&mut reader, register, kept).ok_or(Refusal::NotInForm)?;
    let line = spans[MESSAGE_20];
    order_stop(message.text, line.of(message.text), kept, t)?;
    let reference = line.behind(4);
    let kind = Kind::Order(t.count as u8);
    Ok(booking_of(message, kind, reference, t.date, t.sum))
}

// Is the message of the type t?
#[tactic(auto, using(crate::specs::Checks::checking))]
fn is_type(message: Message, t: &[u8]) -> bool
    ensures { result ≡ equal (type message.entry.text.now) t.now }
{
    text::equal(&message.text[0..3], t)
}

// 2: is it an MT101 or MT103, to BNBGBGSD?
#[tactic(auto, using(crate::specs::Checks::checking))]
fn is_addressed(message: Message) -> bool
    ensures { result ≡ addressed message.entry.text.now }
{
    if text::equal(&message.text[13..21], b"BNBGBGSD") {
        if is_type(message, b"101") {
            return true;
        }
        return is_type(message, b"103");
    }
    false
}

// 1 to 8 of any bytes; the details are judged by the register.
pub fn check_message(
    s: &[u8],
    register: Register,
    kept: &mut [Judged; 16],
) -> Result<Booking, Refusal>
    ensures { CheckedAs s.now register.entry.text.now result kept.new }
{
    let message = Message::framed(s).ok_or(Refusal::NotFramed)?;
    if !is_addressed(message) {
        return Err(Refusal::NotAddressed);
    }
    if is_type(message, b"103") {
        return check_transfer(message, register.temporary());
    }
    check_order(message, register, kept)
}
