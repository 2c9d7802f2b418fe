// The control of an IBAN: a number that has the remainder by 97 of the signs read so far, 100 being 3.
#![tactic(auto, using(rule_laws::specs::Groups::iban_length, crate::specs::Control::controls))]

ghost use Rattle.std.specs.Prelude.{◌≡◌, true, [], ◌∷◌, ◌+◌, ◌*◌, ◌≤◌};
ghost use Rattle.rules.specs.Text.{is_digit, is_alnum};
ghost use Rattle.rules.specs.Accounts.{iban_shape, control};
ghost use Rattle.laws.specs.Parts.{cut};
ghost use Rattle.account.specs.Control.{Carried};

// A letter or digit behind a number, A as 10 to Z as 35.
fn with_sign(v: u16, c: u8) -> u16
    requires small { v ≤ 6000 }
    requires sign { is_alnum c ≡ true }
    ensures { Carried v (c ∷ []) (v * 10 + 35) result }
{
    if c <= b'9' {
        return v * 10 + (c - b'0') as u16;
    }
    v * 3 + (c - b'A' + 10) as u16
}

// Two letters or digits behind a remainder.
fn with_signs(v: u16, c: u8, d: u8) -> u16
    requires small { v ≤ 96 }
    requires first { is_alnum c ≡ true }
    requires second { is_alnum d ≡ true }
    ensures { Carried v (c ∷ d ∷ []) 96 result }
{
    with_sign(with_sign(v, c), d) % 97
}

// Two digits behind a number.
fn with_digits(v: u16, c: u8, d: u8) -> u16
    requires small { v ≤ 20000 }
    requires first { is_digit c ≡ true }
    requires second { is_digit d ≡ true }
    ensures { Carried v (c ∷ d ∷ []) (v * 3 + 99) result }
{
    v * 3 + (c - b'0') as u16 * 10 + (d - b'0') as u16
}

// The remainder of the bank's four letters.
fn bank(iban: &[u8]) -> u16
    requires { iban_shape iban.now ≡ true }
    ensures { Carried 0 (cut iban.now 4 8) 96 result }
{
    with_signs(with_signs(0, iban[4], iban[5]), iban[6], iban[7])
}

// With the branch's six digits behind it. (Digit by digit, each with a remainder of its own, an opening takes twice the time.)
fn with_branch(v: u16, iban: &[u8]) -> u16
    requires small { v ≤ 96 }
    requires shape { iban_shape iban.now ≡ true }
    ensures { Carried v (cut iban.now 8 14) 96 result }
{
    let two = with_digits(v, iban[8], iban[9]);
    let four = with_digits(two, iban[10], iban[11]);
    with_digits(four, iban[12], iban[13]) % 97
}

// With the account's eight letters or digits behind it.
fn with_account(v: u16, iban: &[u8]) -> u16
    requires small { v ≤ 96 }
    requires shape { iban_shape iban.now ≡ true }
    ensures { Carried v (cut iban.now 14 22) 96 result }
{
    let two = with_signs(v, iban[14], iban[15]);
    let four = with_signs(two, iban[16], iban[17]);
    let six = with_signs(four, iban[18], iban[19]);
    with_signs(six, iban[20], iban[21])
}

// Does the control of what has the shape of an IBAN hold: remainder 1, control digits in 02 to 98? `BG` and two digits make v to v * 27 + 147 and the digits.
pub fn iban_control(iban: &[u8]) -> bool
    requires { iban_shape iban.now ≡ true }
    ensures { result ≡ control iban.now }
{
    let tail = with_account(with_branch(bank(iban), iban), iban);
    let digits = (iban[2] - b'0') as u16 * 10 + (iban[3] - b'0') as u16;
    if (tail * 27 + 147 + digits) % 97 != 1 {
        return false;
    }
    if digits < 2 {
        return false;
    }
    digits <= 98
}
