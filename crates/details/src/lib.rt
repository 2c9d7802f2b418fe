// The details of an MT101 as they are kept: of each its amount, and the places of the lines that are named when it is posted or returned.
#![tactic(auto)]

mod kept;

pub use kept::Kept;
