// A single line of the register.
#![tactic(auto, using(crate::specs::Sets::lining))]

ghost use Rattle.std.specs.Prelude.{◌≡◌, true, leb, length};
ghost use Rattle.register_lines.specs.Places.{ends_at, bound_at, first_in};
ghost use Rattle.register_lines.specs.Formed.{bounds_at};
ghost use Rattle.register_lines.specs.AccountLine.{bound};

use text::{Digit, is_all};

// The number of a bound's six digits.
pub fn bound(digits: &[u8]) -> u64
    requires { length digits.now ≡ 6 }
    ensures { result ≡ bound digits.now }
{
    text::read_digits(digits).unwrap_or(0)
}

// Are they two bounds of six digits, a comma before each?
pub fn are_bounds(part: &[u8]) -> bool
    requires { length part.now ≡ 14 }
    ensures { result ≡ bounds_at part.now 0 }
{
    if part[0] != b',' {
        return false;
    }
    if !is_all::<Digit>(&part[1..7]) {
        return false;
    }
    if part[7] != b',' {
        return false;
    }
    is_all::<Digit>(&part[8..14])
}

// Is the first of two bounds at most the second?
pub fn in_order(part: &[u8]) -> bool
    requires size { length part.now ≡ 14 }
    requires bounds { bounds_at part.now 0 ≡ true }
    ensures { result ≡ leb (bound_at part.now 1) (bound_at part.now 8) }
{
    text::small_value(&part[1..7]) <= text::small_value(&part[8..14])
}

// Are they a line's end, CR LF?
pub fn is_end(two: &[u8]) -> bool
    requires { length two.now ≡ 2 }
    ensures { result ≡ ends_at two.now 0 }
{
    text::equal(two, b"\r\n")
}

// Does the first line pass: the temporary account's IBAN?
pub fn first_line_passes(text: &[u8]) -> bool
    ensures { result ≡ first_in text.now }
{
    if text.len() < 24 {
        return false;
    }
    if account::iban_passes(&text[0..22]) {
        return is_end(&text[22..24]);
    }
    false
}
