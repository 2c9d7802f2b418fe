// The conditions 1 to 8, "stopped by the input", of any bytes; of a message that passes them what booking it needs, and its details judged.
#![tactic(auto)]

mod booking;
mod message;
mod order;
mod tally;
mod walk;

pub use booking::{Booking, Kind};
pub use message::check_message;
