// The area changed by accepted calls: opened, with a message booked, turned. An area is lent as bytes and its clause is over those before: between two changes it holds no engine.
#![tactic(auto)]

mod booking;
mod filing;
mod opening;
mod parts;
mod records;
mod turning;

pub use booking::book_area;
pub use opening::open_area;
pub use turning::turn_area;
