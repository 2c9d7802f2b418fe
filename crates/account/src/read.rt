// An account with which a part begins, in either form: 22 characters, or groups of four with single spaces and a last group of two.
#![tactic(auto, using(crate::specs::Read::readings))]

ghost use Rattle.std.specs.Prelude.{◌≡◌, ◌≤◌, length};
ghost use Rattle.std.proofs.Math.Option.{map};
ghost use Rattle.rules.specs.Accounts.{compact, read_account};
ghost use Rattle.laws.specs.Told.{told};
ghost use Rattle.account.specs.Read.{account_of};

use crate::shape::iban_shape;

// The form of an account that was read.
#[derive(Clone, Copy, PartialEq, Eq)]
pub enum AccountForm {
    // The compact form, which uses 22 bytes.
    Compact,
    // The grouped form, which uses 27.
    Grouped,
}

// The account with which the part begins.
pub fn read_account(part: &[u8]) -> Option<AccountForm>
    ensures { map (account_of part.now) (told result) ≡ read_account part.now }
{
    if part.len() >= 22 && iban_shape(&part[0..22]) {
        return Some(AccountForm::Compact);
    }
    if text::begins_as(b"BGnn aaaa nnnn nncc cccc cc", part) {
        return Some(AccountForm::Grouped);
    }
    None
}

// The compact form of the grouped one with which the part begins: behind four characters each there is a space.
pub fn compact_of(part: &[u8]) -> [u8; 22]
    requires { 27 ≤ length part.now }
    ensures { result ≡ compact part.now }
{
    let mut iban = [0u8; 22];
    for k in 0..22u32 {
        iban[k as usize] = part[(k + k / 4) as usize];
    }
    iban
}
