// The replay program's input and output: commands read, answers printed.
#![tactic(auto)]

mod command;
mod letter;
mod number;
mod print;
mod room;
mod window;

pub use command::{Command, read_command};
pub use letter::Handed;
pub use number::read_room;
pub use print::put_signed;
pub use room::Room;
pub use window::make_room;
