// Opening.
ghost use Rattle.std.specs.Prelude.{◌≡◌, []};
ghost use Rattle.rules.specs.Calls.{first_of};
ghost use Rattle.rules.specs.Area.{card_open};
ghost use Rattle.card.specs.Answers.{Answers};
ghost use Rattle.card.specs.Accepted.{Answered};
ghost use Rattle.card.specs.Opening.{text_stops};
ghost use Rattle.refusal.specs.Numbers.{stop_of};

use crate::answer::{Accepted, answer};
use refusal::Refusal;

// 9, 18 or 17, the first that holds: of the register, of the holiday list, and of the day. (What is true is found out before, so that their order stands in one plain function.)
#[tactic(auto, using(crate::specs::Opening::opening))]
fn opening_stop(registered: bool, listed: bool, banking: bool) -> Result<(), Refusal>
    ensures { stop_of result ≡ first_of (text_stops registered listed banking) }
{
    if !registered {
        return Err(Refusal::BadRegister);
    }
    if !listed {
        return Err(Refusal::BadHolidays);
    }
    if !banking {
        return Err(Refusal::NotBankingDay);
    }
    Ok(())
}

// An engine with a register, a holiday list and a day: it writes nothing.
#[tactic(auto, using(crate::specs::Opening::opening))]
fn open_engine(text: &[u8], list: &[u8], day: u32, area: &mut [u8]) -> Result<Accepted, Refusal>
    ensures { Answered (card_open text.now list.now day area.old) result area.new [] }
{
    if !engine::has_room(area) {
        return Err(Refusal::NoEngine);
    }
    if !calendar::exists(day) {
        return Err(Refusal::NotInForm);
    }
    let registered = register::register_passes(text);
    let listed = banking_days::list_passes(list);
    let banking = banking_days::is_banking_day(list, day);
    opening_stop(registered, listed, banking)?;
    engine_change::open_area(area, text, list, day);
    Ok(Accepted {
        written: 0,
        difference: 0,
    })
}

// Opens an engine with a register, a holiday list and a day.
pub fn card_open(
    text: &[u8],
    list: &[u8],
    day: u32,
    area: &mut [u8],
    written: &mut usize,
    difference: &mut i64,
) -> u32
    ensures { Answers (card_open text.now list.now day area.old) result written.new difference.new area.new [] }
{
    let call = open_engine(text, list, day, area);
    answer(call, written, difference)
}
