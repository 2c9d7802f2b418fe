// Bytes and texts: classes of bytes, runs of a class, parts compared with each other, numbers.
#![tactic(auto)]

mod against;
mod classes;
mod numbers;

pub use against::{begins_as, equal, equal_backward, fits_sign, precedes};
pub use classes::{Alnum, Class, Digit, Letter, Text, is_all, is_run, leading};
pub use numbers::{big_endian, read_digits, small_value, value_of};
