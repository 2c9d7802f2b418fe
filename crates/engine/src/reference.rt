// A bank's reference, and whether it is among those accepted today.
#![tactic(auto, using(crate::specs::References::used))]

ghost use Rattle.std.specs.Prelude.{◌≡◌, true, [], ◌+◌, ◌≤◌, length, drop};
ghost use Rattle.rules.specs.Text.{is_text, every, equal, any};
ghost use Rattle.rules.specs.Engine.{same_reference};
ghost use Rattle.rules.specs.Area.{until_zero, number_at, references_place, positions_place, record_size};
ghost use Rattle.laws.specs.Parts.{cut};
ghost use Rattle.engine_laws.specs.Tests.{precedes_by};
ghost use Rattle.engine.specs.References.{of_bank, reference_at, references_at};

use crate::layout::{RECORD, REFERENCES, SIZE, TEXT};
use text::big_endian;

// A bank's reference: field 20 of a message, under its sender.
#[derive(Clone, Copy)]
pub struct BankReference<'a> {
    // The bank.
    pub bank: u64,
    // The field.
    pub text: &'a [u8],
    ghost short: { length text.now ≤ 16 },
    ghost is_text: { every is_text text.now ≡ true },
}

impl<'a> BankReference<'a> {
    // The reference of a bank and a text.
    pub fn new(bank: u64, text: &'a [u8]) -> BankReference<'a>
        requires short { length text.now ≤ 16 }
        requires is_text { every is_text text.now ≡ true }
        ensures bank { result.bank ≡ bank }
        ensures text { result.text.now ≡ text.now }
    {
        BankReference { bank, text }
    }

    // Is its text that of these 16 bytes?
    fn has_text(self, padded: &[u8]) -> bool
        requires { length padded.now ≡ 16 }
        ensures { result ≡ equal self.entry.text.now (until_zero padded.now) }
    {
        let n = self.text.len();
        text::equal_backward(self.text, &padded[..n]) && ends_at(padded, n)
    }

    // Is it the record at p?
    fn stands_at(self, area: &[u8], p: usize) -> bool
        requires { p + record_size ≤ length area.now }
        ensures { result ≡ same_reference (of_bank self.entry.bank self.entry.text.now) (reference_at area.now p) }
    {
        self.has_text(&area[p + TEXT..p + SIZE]) && self.bank == big_endian(&area[p..p + TEXT])
    }

    // Is it among the first n?
    pub fn is_among(self, area: &[u8], n: u32) -> bool
        requires few { n ≤ 64 }
        requires references_in_bounds { positions_place ≤ length area.now }
        ensures { result ≡ any (same_reference (of_bank self.entry.bank self.entry.text.now)) (references_at area.now references_place n) }
    {
        for i in 0..n {
            if self.stands_at(area, (REFERENCES + RECORD * i) as usize) {
                return true;
            }
        }
        false
    }
}

// Does a text end behind n bytes, where a zero stands or no byte?
fn ends_at(padded: &[u8], n: usize) -> bool
    requires { n ≤ length padded.now }
    ensures { result ≡ equal [] (until_zero (drop n padded.now)) }
{
    n == padded.len() || padded[n] == 0
}

// The sender of the record at a place, and the bytes of its text.
#[tactic(auto, using(crate::specs::References::text_stands))]
pub fn filed_at<'a>(area: &'a [u8], p: usize) -> (u64, &'a [u8])
    requires { p + record_size ≤ length area.now }
    ensures sender { result.0 ≡ number_at area.now p 8 }
    ensures text { result.1.now ≡ cut area.now (p + 8) (p + 8 + 16) }
{
    (big_endian(&area[p..p + TEXT]), &area[p + TEXT..p + SIZE])
}

// Does one sender with its text stand before another: by sender, then by text? (As pairs, by `<`, both would be compared by the slices' order: see `precedes` of `text`.)
#[tactic(auto, using(crate::specs::References::sender_same, crate::specs::References::sender_other))]
pub fn files_before(a: (u64, &[u8]), b: (u64, &[u8])) -> bool
    ensures { result ≡ precedes_by a.entry.0 a.entry.1.now b.entry.0 b.entry.1.now }
{
    if a.0 == b.0 {
        return text::precedes(a.1, b.1);
    }
    a.0 < b.0
}
