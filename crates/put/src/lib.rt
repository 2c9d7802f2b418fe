// The writer, and bytes moved within an area.
#![tactic(auto)]

mod amount;
mod digits;
mod groups;
mod moves;
mod parts;

pub use moves::move_bytes;
pub use parts::Writer;
