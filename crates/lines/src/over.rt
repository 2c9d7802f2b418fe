// "A line reader made over the message hands out one line after another." The reader over a text of any length, at any place.
ghost use Rattle.std.specs.Prelude.{◌≡◌, ◌≤◌, length};
ghost use Rattle.lines.specs.Answers.{LineAt, over};

use crate::line::next_line;

// A reader over a text.
#[derive(Clone, Copy)]
pub struct Reader<'a> {
    // The text.
    pub text: &'a [u8],
    // The place from which the next line is handed out.
    pub at: usize,
}

// The reader made over a text, at a place.
pub fn reader_over<'a>(text: &'a [u8], at: usize) -> Reader<'a>
    ensures { result ≡ over text.entry at }
{
    Reader { text, at }
}

// Where the line that a reader hands out ends; none where there is none.
pub fn take_line<'a>(r: Reader<'a>) -> Option<usize>
    requires { r.at ≤ length r.text.now }
    ensures { LineAt r.entry.text.now r.entry.at result }
{
    next_line(r.text, r.at)
}
