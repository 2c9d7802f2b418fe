// "A line reader made over the message hands out one line after another."
ghost use Rattle.std.specs.Prelude.{◌≡◌, ◌≤◌, length};
ghost use Rattle.rules.specs.Lines.{is_closing_line};
ghost use Rattle.laws.specs.Parts.{from};

use crate::frame::is_closing_line;
use crate::line::next_line;

// A reader over a message of at most 4,096 bytes, at a place within it.
#[derive(Clone, Copy)]
pub struct LineReader<'a> {
    // The message.
    pub text: &'a [u8],
    // Where the line to come begins.
    pub at: usize,
    ghost short: { length text.now ≤ 4096 },
    ghost within: { at ≤ length text.now },
}

impl<'a> LineReader<'a> {
    ghost use Rattle.lines.specs.Answers.{LineAt, HandsOut};

    // The reader of a text from a place on.
    pub fn from(text: &'a [u8], at: usize) -> LineReader<'a>
        requires short { length text.now ≤ 4096 }
        requires within { at ≤ length text.now }
        ensures text { result.text ≡ text.entry }
        ensures at { result.at ≡ at }
    {
        LineReader { text, at }
    }

    // Where the line to come ends; none where there is none.
    pub fn peek(&self) -> Option<usize>
        ensures { LineAt self.now.text.now self.now.at result }
    {
        next_line(self.text, self.at)
    }

    // Is all that is to come the closing line?
    #[tactic(auto, using(crate::specs::Laws::closing_rest))]
    pub fn closes(&self) -> bool
        ensures { result ≡ is_closing_line (from self.now.text.now self.now.at) }
    {
        is_closing_line(&self.text[self.at..])
    }

    // Hands out the line to come, and is moved behind it; stays where there is none.
    pub fn next_line(&mut self) -> Option<usize>
        ensures { HandsOut self.old self.new result }
    {
        let end = self.peek()?;
        self.at = end + 2;
        Some(end)
    }
}
