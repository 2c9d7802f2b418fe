// The shapes of a BIC and an IBAN, run by run.
#![tactic(auto, using(crate::specs::Shape::shapes))]

ghost use Rattle.std.specs.Prelude.{◌≡◌, length};
ghost use Rattle.rules.specs.Accounts.{is_bic, iban_shape};
ghost use Rattle.account.specs.Shape.{iban_head, iban_tail};

use text::{Alnum, Digit, Letter, is_all};

// Is the text a BIC: six letters, then two letters or digits?
pub fn is_bic(s: &[u8]) -> bool
    ensures { result ≡ is_bic s.now }
{
    if s.len() != 8 {
        return false;
    }
    is_all::<Letter>(&s[..6]) && is_all::<Alnum>(&s[6..8])
}

// Do the 22 characters begin as an IBAN: `BG` and two control digits?
fn iban_head(s: &[u8]) -> bool
    requires { length s.now ≡ 22 }
    ensures { result ≡ iban_head s.now }
{
    if s[0] != b'B' {
        return false;
    }
    if s[1] != b'G' {
        return false;
    }
    is_all::<Digit>(&s[2..4])
}

// Do they go on as one: four letters, six digits, eight letters or digits?
fn iban_tail(s: &[u8]) -> bool
    requires { length s.now ≡ 22 }
    ensures { result ≡ iban_tail s.now }
{
    if !is_all::<Letter>(&s[4..8]) {
        return false;
    }
    is_all::<Digit>(&s[8..14]) && is_all::<Alnum>(&s[14..22])
}

// Is the text of the shape of an IBAN?
pub fn iban_shape(s: &[u8]) -> bool
    ensures { result ≡ iban_shape s.now }
{
    if s.len() != 22 {
        return false;
    }
    iban_head(s) && iban_tail(s)
}
