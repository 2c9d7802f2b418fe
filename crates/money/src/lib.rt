// Amounts, read in stotinki.
#![tactic(auto, using(crate::specs::Sums::sums))]

ghost use Rattle.std.specs.Prelude.{◌≡◌, ◌^◌, ◌<◌, ◌≤◌, length};
ghost use Rattle.rules.specs.Amounts.{decimals, levs, amount};
ghost use Rattle.laws.specs.Told.{told};

use text::{Class, Digit};

// Zero to two digits behind the comma, with v levs before it: a digit that is left out is a zero.
fn read_decimals(v: u64, s: &[u8]) -> Option<u64>
    requires { v < 10 ^ 14 }
    ensures { told result ≡ decimals v s.now }
{
    match s {
        [] => Some(v * 100),
        [c] if Digit::has(*c) => Some(v * 100 + (*c - 48) as u64 * 10),
        [c, d] if Digit::has(*c) && Digit::has(*d) => {
            Some(v * 100 + (*c - 48) as u64 * 10 + (*d - 48) as u64)
        }
        _ => None,
    }
}

// Digits, one comma, and what stands behind it.
fn read_levs(s: &[u8]) -> Option<u64>
    requires { length s.now ≤ 15 }
    ensures { told result ≡ levs 0 s.now }
{
    let k = text::leading::<Digit>(s);
    let v = text::value_of(&s[..k]);
    match &s[k..] {
        [b',', behind @ ..] => read_decimals(v, behind),
        _ => None,
    }
}

// The amount: 1 to 15 characters that begin with a digit.
pub fn read_amount(s: &[u8]) -> Option<u64>
    ensures { told result ≡ amount s.now }
{
    match s {
        [first, ..] if s.len() <= 15 && Digit::has(*first) => read_levs(s),
        _ => None,
    }
}
