// The register's text: its check (9), and the search for an account line, by its IBAN or by a code. It is a first line, account lines, code lines and the last line; an old text is the first line and the account lines.
#![tactic(auto)]

mod check;
mod search;

pub use check::{LONGEST, old_register_passes, register_passes};
pub use search::Register;

// How many bytes a line of each kind has.
const FIRST_LINE: u32 = 24;

const ACCOUNT_LINE: u32 = 38;

const CODE_LINE: u32 = 35;
