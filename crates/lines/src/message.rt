// A message in its frame.
ghost use Rattle.std.specs.Prelude.{◌≡◌, ◌≤◌, length, IfSome};
ghost use Rattle.std.specs.Option.{is_some};
ghost use Rattle.rules.specs.Lines.{framed};

use crate::frame::is_framed;
use crate::reader::LineReader;

// A message in its frame: at most 4,096 bytes, with a first line.
#[derive(Clone, Copy)]
pub struct Message<'a> {
    // Its bytes.
    pub text: &'a [u8],
    ghost headed: { 23 ≤ length text.now },
    ghost short: { length text.now ≤ 4096 },
}

impl<'a> Message<'a> {
    // The message that some bytes are, where they are in the frame.
    #[tactic(auto, using(crate::specs::Laws::framed_high, crate::specs::Laws::framed_low))]
    pub fn framed(text: &'a [u8]) -> Option<Message<'a>>
        ensures framed { is_some result ≡ framed text.entry.now }
        ensures its { IfSome result (λ m. m.text ≡ text.entry) }
    {
        if is_framed(text) {
            return Some(Message { text });
        }
        None
    }

    // A reader of what stands behind its first line.
    pub fn body(self) -> LineReader<'a>
        ensures text { result.text ≡ self.entry.text }
        ensures at { result.at ≡ 23 }
    {
        LineReader::from(self.text, 23)
    }
}
