// The conditions 11 to 15, "stopped by the state".
#![tactic(auto, using(crate::specs::Stops::stops))]

ghost use Rattle.std.specs.Prelude.{◌≡◌, not, ◌+◌, ◌*◌, ◌^◌, ◌<◌, ◌≤◌, leb};
ghost use Rattle.std.proofs.Math.Option.{some};
ghost use Rattle.rules.specs.Text.{any};
ghost use Rattle.rules.specs.Engine.{limit, same_reference};
ghost use Rattle.rules.specs.Calls.{first_of, own_reference, limit_stops};
ghost use Rattle.rules.specs.Area.{decode};
ghost use Rattle.details.specs.Message.{message_in};
ghost use Rattle.conditions.specs.Books.{Books, is_transfer, amount_if, misdated_by};
ghost use Rattle.engine.specs.Totals.{TotalsOf, begun};
ghost use Rattle.refusal.specs.Numbers.{stop_of};
ghost use Rattle.state_conditions.specs.Limit.{over_by};
ghost use Rattle.state_conditions.specs.Stops.{addition_by, rest_number};

use conditions::{Booking, Kind};
use engine::{BankReference, Engine};
use position::{LIMIT, Position};
use refusal::Refusal;

// 11: an MT103 not dated on the day, an MT101 dated after it?
fn is_misdated(b: Booking, day: u32) -> bool
    ensures { result ≡ misdated_by (is_transfer b.kind) b.key.date day }
{
    match b.kind {
        Kind::Transfer => b.key.date != day,
        Kind::Order(_) => day < b.key.date,
    }
}

// What a message adds to its position.
pub fn added_by(b: Booking) -> Position
    ensures { result ≡ addition_by b }
{
    let nothing = Position::empty(b.key);
    match b.kind {
        Kind::Transfer => Position {
            transferred: b.amount,
            ..nothing
        },
        Kind::Order(_) => Position {
            detailed: b.amount,
            ..nothing
        },
    }
}

// Is a total with so much added over its limit?
fn total_over(total: u64, added: u64) -> bool
    requires total_bound { total < 2 ^ 48 }
    requires added_bound { added ≤ 16 * 10 ^ 16 }
    ensures { result ≡ not (leb (total + added) limit) }
{
    if total + added <= LIMIT {
        return false;
    }
    true
}

// 15: is one of both totals over its limit?
fn is_over(t: Position, b: Booking) -> bool
    requires transferred_bound { t.transferred < 2 ^ 48 }
    requires detailed_bound { t.detailed < 2 ^ 48 }
    requires amount_bound { b.amount ≤ 16 * 10 ^ 16 }
    ensures { result ≡ over_by t b }
{
    let added = added_by(b);
    total_over(t.transferred, added.transferred) || total_over(t.detailed, added.detailed)
}

// 14 or 15, the first that holds, with n positions open.
fn rest_stop(n: u32, before: Option<Position>, b: Booking) -> Result<(), Refusal>
    requires transferred_bound { (begun b.key before).transferred < 2 ^ 48 }
    requires detailed_bound { (begun b.key before).detailed < 2 ^ 48 }
    requires amount_bound { b.amount ≤ 16 * 10 ^ 16 }
    ensures { stop_of result ≡ rest_number n before b }
{
    let over = is_over(before.unwrap_or(Position::empty(b.key)), b);
    if before.is_some() {
        if over {
            return Err(Refusal::OverLimit);
        }
        return Ok(());
    }
    if 32 <= n {
        return Err(Refusal::TooManyPositions);
    }
    if over {
        return Err(Refusal::OverLimit);
    }
    Ok(())
}

// Was its field 20 accepted today from this sender?
#[tactic(auto, using(crate::specs::Stops::field_short))]
fn already_accepted(s: &[u8], engine: Engine, b: Booking) -> bool
    requires { Books s.now (message_in s.now) b }
    ensures { result ≡ any (same_reference (own_reference (message_in s.now))) (decode engine.entry.area.now).references }
{
    let field = b.reference.of(s);
    engine.is_used(BankReference::new(b.key.bank, field))
}

// 11 to 15, the first that holds, the message's position being open or missing.
pub fn state_stop(
    s: &[u8],
    engine: Engine,
    b: Booking,
    before: Option<Position>,
) -> Result<(), Refusal>
    requires books { Books s.now (message_in s.now) b }
    requires totals_of { TotalsOf (decode engine.area.now).positions b.key before }
    ensures { stop_of result ≡ first_of (limit_stops (decode engine.entry.area.now) (some (message_in s.now))) }
{
    let h = engine.header();
    if is_misdated(b, h.day) {
        return Err(Refusal::Misdated);
    }
    if already_accepted(s, engine, b) {
        return Err(Refusal::AlreadyAccepted);
    }
    if 64 <= h.references {
        return Err(Refusal::TooManyMessages);
    }
    rest_stop(h.positions, before, b)
}
