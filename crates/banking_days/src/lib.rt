// Banking days: neither a Saturday nor a Sunday nor a listed holiday. That the day exists is a clause: the calls have it as a number, and a type of it would be made of that at each of the three calls.
#![tactic(auto)]

mod banking;
mod list;
mod weekday;

pub use banking::is_banking_day;
pub use list::{LONGEST, list_passes};
