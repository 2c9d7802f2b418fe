// The conditions that a single field can break: 5 a reference, 6 an amount, 7 an account.
ghost use Rattle.std.specs.Prelude.{◌≡◌, take, drop};
ghost use Rattle.rules.specs.Text.{equal};
ghost use Rattle.rules.specs.Lines.{sender};
ghost use Rattle.rules.specs.Engine.{slashed};
ghost use Rattle.rules.specs.Calls.{bad_sum};
ghost use Rattle.field_conditions.specs.Fields.{foreign};

use account::iban_passes;
use forms::{behind, front};

// 5: does the reference behind the first k bytes of a part begin or end with a slash, or have two one behind the other?
pub fn slashed_behind(part: &[u8], k: usize) -> bool
    ensures { result ≡ slashed (drop k part.now) }
{
    references::slashed(behind(part, k))
}

// 6: is the currency behind the first k bytes of a part not BGN, or the amount 0?
#[tactic(auto, using(crate::specs::Fields::sums))]
pub fn bad_sum(part: &[u8], k: usize, amount: u64) -> bool
    ensures { result ≡ bad_sum (take 3 (drop k part.now)) amount }
{
    amount == 0 || !text::equal(front(behind(part, k), 3), b"BGN")
}

// 7: is the account of 50H's line none that passes, or of another bank than the sender, which stands in the message's first line?
#[tactic(auto, using(crate::specs::Fields::payers))]
pub fn is_foreign(message: &[u8], part: &[u8]) -> bool
    ensures { result ≡ foreign (sender message.now) part.now }
{
    let account = front(behind(part, 6), 22);
    let bank = front(behind(account, 4), 4);
    !iban_passes(account) || !text::equal(bank, front(behind(message, 4), 4))
}

// 7: is the account behind the first k bytes of a part the text t, and nothing else?
pub fn is_same(part: &[u8], k: usize, t: &[u8]) -> bool
    ensures { result ≡ equal (drop k part.now) t.now }
{
    text::equal(behind(part, k), t)
}
