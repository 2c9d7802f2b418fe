// Numbers, in base ten and in bytes.
ghost use Rattle.std.specs.Prelude.{◌≡◌, true, ◌<◌, ◌≤◌, ◌^◌, length};
ghost use Rattle.std.proofs.Math.Option.{some};
ghost use Rattle.rules.specs.Text.{is_digit, every, digits, big_endian};
ghost use Rattle.laws.specs.Told.{told};

use crate::classes::{Digit, is_all};

// The number of some digits, 9 of them at most.
#[tactic(auto, using(crate::specs::Placing::placing))]
pub fn small_value(s: &[u8]) -> u32
    requires few { length s.now ≤ 9 }
    requires each { every is_digit s.now ≡ true }
    ensures value { some result ≡ digits s.now }
    ensures small { result < 10 ^ length s.now }
{
    let mut v = 0;
    for &c in s {
        v = v * 10 + (c - 48) as u32;
    }
    v
}

// The number of bytes that are digits, 18 of them at most: of two groups, so that a digit takes a product of 32 bits and not of 64.
#[tactic(auto, using(crate::specs::Placing::groups))]
pub fn value_of(s: &[u8]) -> u64
    requires few { length s.now ≤ 18 }
    requires each { every is_digit s.now ≡ true }
    ensures value { some result ≡ digits s.now }
    ensures small { result < 10 ^ length s.now }
{
    if s.len() <= 9 {
        return small_value(s) as u64;
    }
    let h = s.len() - 9;
    small_value(&s[..h]) as u64 * 1000000000 + small_value(&s[h..]) as u64
}

// The number of some bytes, 8 of them at most, the first the most significant.
#[tactic(auto, using(crate::specs::Placing::placing))]
pub fn big_endian(s: &[u8]) -> u64
    requires { length s.now ≤ 8 }
    ensures value { result ≡ big_endian s.now }
    ensures small { result < 256 ^ length s.now }
{
    let mut v = 0;
    for &c in s {
        v = v * 256 + c as u64;
    }
    v
}

// The number of some bytes, 18 of them at most, where each is a digit.
#[tactic(auto, using(laws::specs::Values::every_none))]
pub fn read_digits(s: &[u8]) -> Option<u64>
    requires { length s.now ≤ 18 }
    ensures { told result ≡ digits s.now }
{
    if !is_all::<Digit>(s) {
        return None;
    }
    Some(value_of(s))
}
