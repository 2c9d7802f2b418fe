// The conditions of one transfer or one detail, 5 to 8, by their fields.
#![tactic(auto)]

mod fields;
mod stops;

pub use fields::slashed_behind;
pub use stops::{detail_stop, transfer_stop};
