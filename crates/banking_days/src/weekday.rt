// The days of the week, counted from 1 January 2000, a Saturday.
ghost use Rattle.std.specs.Prelude.{◌≡◌, true, ◌≤◌};
ghost use Rattle.rules.specs.Dates.{exists};
ghost use Rattle.rules.specs.BankingDays.{days_to, is_weekend};
ghost use Rattle.banking_days.specs.Weekdays.{DaysBefore, Existing};

use calendar::{month_and_day, month_length, year_of};

// How many days of a year stand before a month.
fn days_before(year: u16, month: u16) -> u16
    requires le_month { 1 ≤ month }
    requires month_bound { month ≤ 12 }
    ensures { DaysBefore year month result }
{
    let mut days: u16 = 0;
    for m in 1..month {
        days += month_length(year, m as usize) as u16;
    }
    days
}

// How many days there are from 1 January 2000 to an existing date: 365 for each year, and one for each leap year.
#[tactic(auto, using(crate::specs::Weekdays::weekdays))]
fn days_to(day: u32) -> u16
    requires { Existing day }
    ensures { result ≡ days_to day }
{
    let year = year_of(day);
    let rest = month_and_day(day, year);
    let month = rest / 100;
    let before = days_before(year, month);
    year * 365 + (year + 3) / 4 + before + (rest - month * 100 - 1)
}

// Is an existing date a Saturday or a Sunday?
pub fn is_weekend(day: u32) -> bool
    requires { exists day ≡ true }
    ensures { result ≡ is_weekend day }
{
    days_to(day) % 7 <= 1
}
