// What stands in a field: bytes behind others of its line, a date, an amount.
ghost use Rattle.std.specs.Prelude.{◌≡◌, take, drop};
ghost use Rattle.rules.specs.Dates.{date};
ghost use Rattle.rules.specs.Amounts.{amount};
ghost use Rattle.laws.specs.Told.{told};

use calendar::read_date;
use money::read_amount;

// What stands behind the first k bytes of a part.
pub fn behind(part: &[u8], k: usize) -> &[u8]
    ensures { result.now ≡ drop k part.now }
{
    &part[k.min(part.len())..]
}

// The first n bytes of a part, or what there is of them.
pub fn front(part: &[u8], n: usize) -> &[u8]
    ensures { result.now ≡ take n part.now }
{
    &part[..n.min(part.len())]
}

// The date that the six bytes behind the first k of a part are.
pub fn date_in(part: &[u8], k: usize) -> Option<u32>
    ensures { told result ≡ date (take 6 (drop k part.now)) }
{
    read_date(front(behind(part, k), 6))
}

// The amount that stands behind the first k bytes of a part.
pub fn amount_in(part: &[u8], k: usize) -> Option<u64>
    ensures { told result ≡ amount (drop k part.now) }
{
    read_amount(behind(part, k))
}
