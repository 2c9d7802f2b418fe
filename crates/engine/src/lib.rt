// The engine read off its area. Before an area is known to hold one, its functions ask for the bytes that they read, by the area's length, and for the numbers of records and texts: a type of a whole area would ask for more than each of them does. A record is told by its place, since the walks over a section hand out places; texts are counted, as the area's definition counts them.
#![tactic(auto)]

mod header;
mod held;
pub mod layout;
mod places;
mod positions;
mod reference;
mod texts;

pub use header::{Header, has_room, header_at};
pub use held::Engine;
pub use places::{is_at, place_by, place_of};
pub use positions::{key_at, nth_position, position_at, position_place};
pub use reference::{BankReference, filed_at, files_before};
pub use texts::{length_at, text_at, text_place};
