// A day replayed: commands carried out one after the other, and their answers printed.
#![tactic(auto)]

mod call;
mod onward;
mod print;
mod replay;
mod rooms;

pub use onward::{Onward, go_on};
pub use replay::replay_day;
pub use rooms::room;
