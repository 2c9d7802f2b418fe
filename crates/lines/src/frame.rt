// The frame of a message: its length, its lines, the closing line and the first line's form.
ghost use Rattle.std.specs.Prelude.{◌≡◌, ◌-◌, ◌≤◌, length};
ghost use Rattle.rules.specs.Lines.{lines, in_lines, is_closing_line, framed};
ghost use Rattle.laws.specs.Parts.{from};

use crate::reader::LineReader;

// Is a text the closing line?
#[tactic(auto, unfolding(rules::specs::Lines::is_closing_line))]
pub fn is_closing_line(rest: &[u8]) -> bool
    ensures { result ≡ is_closing_line rest.now }
{
    text::equal(rest, b"-\r\n")
}

// Is all of it lines, the last of them the closing line? (Inlined, a message with 16 returns takes 1 % more instructions.)
#[inline(never)]
#[tactic(auto, using(crate::specs::Seen::seeing))]
fn in_lines(s: &[u8]) -> bool
    requires { length s.now ≤ 4096 }
    ensures { result ≡ in_lines (lines s.now) }
{
    let mut reader = LineReader::from(s, 0);
    let mut last = 0;
    while reader.at < s.len() {
        last = reader.at;
        if reader.next_line().is_none() {
            return false;
        }
    }
    is_closing_line(&s[last..])
}

// Do the last bytes make the closing line?
#[tactic(auto, using(crate::specs::Laws::closing_long, crate::specs::Laws::closing_rest))]
fn ends_closed(s: &[u8]) -> bool
    ensures { result ≡ is_closing_line (from s.now (length s.now - 3)) }
{
    if s.len() < 3 {
        return false;
    }
    is_closing_line(&s[s.len() - 3..])
}

// At most 4,096 bytes, in lines, with the closing line and a first line `type,sender,receiver`?
#[tactic(auto, using(crate::specs::Laws::framing))]
pub fn is_framed(s: &[u8]) -> bool
    ensures { result ≡ framed s.now }
{
    if 4096 < s.len() {
        return false;
    }
    // The end is looked at before the lines: a text without it is refused at once.
    if !ends_closed(s) {
        return false;
    }
    in_lines(s) && text::begins_as(b"nnn,aaaaaacc,aaaaaacc\r\n", s)
}
