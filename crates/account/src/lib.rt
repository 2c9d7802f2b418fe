// BIC and IBAN.
#![tactic(auto)]

mod control;
mod read;
mod shape;

ghost use Rattle.std.specs.Prelude.{◌≡◌};
ghost use Rattle.rules.specs.Accounts.{passes};

pub use control::iban_control;
pub use read::{AccountForm, compact_of, read_account};
pub use shape::{iban_shape, is_bic};

// Does the IBAN pass?
pub fn iban_passes(iban: &[u8]) -> bool
    ensures { result ≡ passes iban.now }
{
    iban_shape(iban) && iban_control(iban)
}
