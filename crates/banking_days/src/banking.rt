// Is a day a banking day?
ghost use Rattle.std.specs.Prelude.{◌≡◌, true};
ghost use Rattle.rules.specs.Dates.{exists};
ghost use Rattle.banking_days.specs.Lists.{Banking};

use crate::list::is_listed;
use crate::weekday::is_weekend;

// Is an existing day neither a Saturday nor a Sunday nor a date of the list?
#[tactic(auto, using(crate::specs::Seeking::seeks))]
pub fn is_banking_day(list: &[u8], day: u32) -> bool
    requires { exists day ≡ true }
    ensures { Banking list.now day result }
{
    if is_weekend(day) {
        return false;
    }
    !is_listed(list, day)
}
