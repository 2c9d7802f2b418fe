// The lines of a register's text: a single line, lines of one form one behind the other, and how one is told from the others.
#![tactic(auto)]

mod forms;
mod lines;
mod section;

pub use forms::{AccountLine, CodeLine, LineForm, lines_from};
pub use lines::{bound, first_line_passes};
pub use section::{Section, mark_of, put_marks};
