// The turn. That the area holds an engine is a clause over its bytes before, as in a message.
ghost use Rattle.std.specs.Prelude.{◌≡◌, true, ◌≤◌, length};
ghost use Rattle.rules.specs.Text.{is_some};
ghost use Rattle.rules.specs.Calls.{first_of, turn_text};
ghost use Rattle.rules.specs.Area.{holds, decode, card_turn};
ghost use Rattle.card.specs.Answers.{Answers};
ghost use Rattle.card.specs.Accepted.{Answered};
ghost use Rattle.card.specs.Turn.{later_stops, day_stops, Turned};
ghost use Rattle.card.specs.Measured.{Measured};
ghost use Rattle.refusal.specs.Numbers.{stop_of};

use crate::answer::{Accepted, answer};
use engine::Engine;
use put::Writer;
use refusal::Refusal;

// A turn that no condition stops: its text is written, its difference told, and the area turned.
fn accept_turn(day: u32, area: &mut [u8], output: &mut [u8]) -> Accepted
    requires holds_engine { is_some (holds area.old) ≡ true }
    requires fits { length (turn_text (decode area.old) day) ≤ length output.old }
    ensures { Turned day area.old output.old result.written result.difference area.new output.new }
{
    let engine = Engine::held(area);
    let mut w = Writer::new(output);
    let count = turn_text::put_turn_text(&mut w, day, engine);
    let sums = turn_text::turn_sums(engine);
    engine_change::turn_area(area, day, count);
    Accepted {
        written: w.at,
        difference: sums.refunded as i64 - sums.collected as i64,
    }
}

// How many bytes the turn writes.
fn turn_size(day: u32, engine: Engine) -> usize
    ensures { Measured (turn_text (decode engine.entry.area.now) day) result }
{
    let mut nothing = [0u8; 0];
    let mut w = Writer::new(&mut nothing);
    turn_text::put_turn_text(&mut w, day, engine);
    w.at
}

// 11 or 17, the first that holds: of a day that is no later, and of one that is no banking day. (As `opening_stop`.)
#[tactic(auto, using(crate::specs::Turn::stopping))]
fn later_stop(early: bool, banking: bool) -> Result<(), Refusal>
    ensures { stop_of result ≡ first_of (later_stops early banking) }
{
    if early {
        return Err(Refusal::Misdated);
    }
    if !banking {
        return Err(Refusal::NotBankingDay);
    }
    Ok(())
}

// 3, 11 or 17, the first that holds of a turn to a day.
#[tactic(auto, using(crate::specs::Turn::stop_date, crate::specs::Turn::stop_later))]
fn day_stop(day: u32, engine: Engine) -> Result<(), Refusal>
    ensures { stop_of result ≡ first_of (day_stops (decode engine.entry.area.now) day) }
{
    if !calendar::exists(day) {
        return Err(Refusal::NotInForm);
    }
    let banking = banking_days::is_banking_day(engine.holidays(), day);
    later_stop(day <= engine.header().day, banking)
}

// The turn of an area that holds an engine.
fn turn_engine(day: u32, area: &mut [u8], output: &mut [u8]) -> Result<Accepted, Refusal>
    requires { is_some (holds area.old) ≡ true }
    ensures { Answered (card_turn day area.old output.old) result area.new output.new }
{
    let engine = Engine::held(area);
    day_stop(day, engine)?;
    if output.len() < turn_size(day, engine) {
        return Err(Refusal::OutputTooShort);
    }
    Ok(accept_turn(day, area, output))
}

// The turn of any area.
#[tactic(auto, using(crate::specs::Turn::turn_no_engine))]
fn make_turn(day: u32, area: &mut [u8], output: &mut [u8]) -> Result<Accepted, Refusal>
    ensures { Answered (card_turn day area.old output.old) result area.new output.new }
{
    if !engine_check::limits_hold(area) {
        return Err(Refusal::NoEngine);
    }
    turn_engine(day, area, output)
}

// Turns to a later day.
pub fn card_turn(
    day: u32,
    area: &mut [u8],
    output: &mut [u8],
    written: &mut usize,
    difference: &mut i64,
) -> u32
    ensures { Answers (card_turn day area.old output.old) result written.new difference.new area.new output.new }
{
    let call = make_turn(day, area, output);
    answer(call, written, difference)
}
