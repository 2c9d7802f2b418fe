// Two texts compared with each other: equal bytes, their order, and bytes against a pattern.
ghost use Rattle.std.specs.Prelude.{◌≡◌, length, take};
ghost use Rattle.rules.specs.Text.{equal, text_before, fits, fits_sign};

use crate::classes::{Alnum, Class, Digit, Letter};

// Are both texts equal?
#[tactic(auto, using(laws::specs::Slices::equal_is))]
pub fn equal(s: &[u8], t: &[u8]) -> bool
    ensures { result ≡ equal s.now t.now }
{
    s == t
}

// Are two texts of one length equal? Compared from the last byte on, where IBANs of one bank, codes and references of one sender differ: by `==` a message with 16 credited takes 608,019 instructions, of 515,000.
#[tactic(auto, using(crate::specs::Backward::backward))]
pub fn equal_backward(s: &[u8], t: &[u8]) -> bool
    requires { length s.now ≡ length t.now }
    ensures { result ≡ equal s.now t.now }
{
    for k in (0..s.len()).rev() {
        if s[k] != t[k] {
            return false;
        }
    }
    true
}

// Does the one text stand before the other, in byte order? By `<` of slices a refusal by 1 takes 111,581 instructions, of 110,000.
#[tactic(auto, using(crate::specs::Order::ordering))]
pub fn precedes(s: &[u8], t: &[u8]) -> bool
    ensures { result ≡ text_before s.now t.now }
{
    for k in 0..s.len().min(t.len()) {
        if s[k] != t[k] {
            return s[k] < t[k];
        }
    }
    s.len() < t.len()
}

// Do the first bytes fit the pattern, as many as it has? Not where fewer are there.
pub fn begins_as(pattern: &[u8], s: &[u8]) -> bool
    ensures { result ≡ fits pattern.now (take (length pattern.now) s.now) }
{
    pattern.len() <= s.len() && pattern.iter().zip(s).all(|(p, c)| fits_sign(*p, *c))
}

// A byte against the sign of its place: n a digit, a a letter, c a letter or digit, any other sign itself.
#[tactic(auto, using(laws::specs::Tests::tests), unfolding(rules::specs::Text::fits_sign))]
pub fn fits_sign(p: u8, c: u8) -> bool
    ensures { result ≡ fits_sign p c }
{
    match p {
        b'n' => Digit::has(c),
        b'a' => Letter::has(c),
        b'c' => Alnum::has(c),
        _ => p == c,
    }
}
