// The conditions 11 to 15 that the state may stop a message by.
#![tactic(auto)]

mod stops;

pub use stops::{added_by, state_stop};
