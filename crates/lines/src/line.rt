// The line at a place of a text.
ghost use Rattle.std.specs.Prelude.{◌≤◌, length};
ghost use Rattle.lines.specs.Answers.{LineAt};

// Where the line that begins at `at` ends: the place of the CR LF behind it; none where there is no line. (A place of the text and not what is left of it: the answer is a place too.)
#[tactic(auto, using(crate::specs::Laws::lining))]
pub fn next_line(s: &[u8], at: usize) -> Option<usize>
    requires { at ≤ length s.now }
    ensures { LineAt s.now at result }
{
    for (k, &c) in s[at..].iter().enumerate() {
        // Most bytes pass by this one test: CR is 13, LF is 10.
        if c < 14 {
            let i = at + k;
            if c == b'\r' {
                if i + 1 < s.len() && s[i + 1] == b'\n' {
                    return Some(i);
                }
                return None;
            }
            if c == b'\n' {
                return None;
            }
        }
    }
    None
}
