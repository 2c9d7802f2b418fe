// The moves of a register's text from the old form to the new and back. 19 is asked of the new form alone, and one way writes a last line where the other leaves it out.
#![tactic(auto)]

mod moving;
mod newer;
mod older;

pub use moving::RegisterMove;
pub use newer::Newer;
pub use older::Older;
