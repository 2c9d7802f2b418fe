// Dates: six digits, year, month, day, in 2000 to 2099.
#![tactic(auto, using(crate::specs::Days::days))]

ghost use Rattle.std.specs.Prelude.{◌≡◌, true, ◌/◌, ◌%◌, ◌<◌, ◌≤◌, length};
ghost use Rattle.std.proofs.Math.Option.{some};
ghost use Rattle.laws.specs.Told.{told};
ghost use Rattle.rules.specs.Text.{digits, every, is_digit};
ghost use Rattle.rules.specs.Dates.{month_length, date};
ghost use Rattle.rules.specs.Dates as D;
ghost use Rattle.calendar.specs.Days.{RowOf, is_date};

use text::{Digit, is_all, small_value};

// The lengths of the months, one row for leap years.
const MONTHS: [[u8; 12]; 2] = [
    [31, 28, 31, 30, 31, 30, 31, 31, 30, 31, 30, 31],
    [31, 29, 31, 30, 31, 30, 31, 31, 30, 31, 30, 31],
];

// A year's row of the table: a year is leap if four divides it.
fn leap_row(year: u16) -> usize
    ensures { RowOf year result }
{
    if year % 4 == 0 {
        return 1;
    }
    0
}

// The length of a month.
pub fn month_length(year: u16, month: usize) -> u8
    requires le_month { 1 ≤ month }
    requires month_bound { month ≤ 12 }
    ensures { result ≡ month_length year month }
{
    let row = leap_row(year);
    MONTHS[row][month - 1]
}

// The year of six digits.
pub fn year_of(n: u32) -> u16
    requires { n ≤ 999999 }
    ensures { result ≡ n / 10000 }
{
    (n / 16) as u16 / 625
}

// Their month and day.
pub fn month_and_day(n: u32, year: u16) -> u16
    requires { year ≡ n / 10000 }
    ensures { result ≡ n % 10000 }
{
    (n - year as u32 * 10000) as u16
}

// Do a year, a month and a day make an existing date?
fn is_date(year: u16, month: u16, day: u16) -> bool
    ensures { result ≡ is_date year month day }
{
    if month < 1 || 12 < month {
        return false;
    }
    let last = month_length(year, month as usize);
    1 <= day && day <= last as u16
}

// Is the number an existing date?
pub fn exists(n: u32) -> bool
    ensures { result ≡ D.exists n }
{
    if 999999 < n {
        return false;
    }
    let year = year_of(n);
    let rest = month_and_day(n, year);
    let month = rest / 100;
    is_date(year, month, rest - month * 100)
}

// The date that six digits are: their number, where it exists.
pub fn read_date(s: &[u8]) -> Option<u32>
    ensures { told result ≡ date s.now }
{
    if s.len() != 6 || !is_all::<Digit>(s) {
        return None;
    }
    let year = small_value(&s[..2]) as u16;
    let month = small_value(&s[2..4]) as u16;
    let day = small_value(&s[4..6]) as u16;
    if is_date(year, month, day) {
        return Some(year as u32 * 10000 + (month * 100 + day) as u32);
    }
    None
}
