// The holiday list: its check and the search for a day.
ghost use Rattle.std.specs.Prelude.{◌≡◌, true, ◌≤◌, length};
ghost use Rattle.rules.specs.Text.{is_some};
ghost use Rattle.rules.specs.Dates.{exists};
ghost use Rattle.rules.specs.BankingDays.{holidays};
ghost use Rattle.banking_days.specs.Lists.{rising, stands_from, Listed};

use put::Writer;

// The bytes of the longest list: 60 dates of six digits, and a comma between two.
pub const LONGEST: usize = 419;

// Are the bytes dates that are parted by commas, each later than the last? (Six bytes at a time: parted at its commas by `split`, 60 holidays take 3,844 instructions, 6.9 %, more in an opening.)
fn dates_rise(list: &[u8]) -> bool
    ensures { result ≡ rising 0 list.now }
{
    let mut last = 0;
    let mut rest = list;
    while let Some((six, behind)) = rest.split_at_checked(6) {
        let Some(date) = calendar::read_date(six) else {
            return false;
        };
        if date <= last {
            return false;
        }
        match behind {
            [] => return true,
            [b',', more @ ..] => rest = more,
            _ => return false,
        }
        last = date;
    }
    false
}

// Is the text a holiday list? An empty one is.
#[tactic(auto, using(crate::specs::Rising::rises))]
pub fn list_passes(list: &[u8]) -> bool
    ensures { result ≡ is_some (holidays list.now) }
{
    if list.len() == 0 {
        return true;
    }
    if list.len() > LONGEST {
        return false;
    }
    dates_rise(list)
}

// Are six bytes those of one of the dates of a list? (By places and not by chunks of seven, with which 60 holidays take 910 instructions, 1.6 %, more in an opening.)
#[tactic(auto, using(crate::specs::Seeking::seeks))]
fn stands_in(list: &[u8], six: &[u8; 6]) -> bool
    requires { length list.now ≤ 65535 }
    ensures { result ≡ stands_from six.now list.now 0 }
{
    let dates = (list.len() as u32 + 1) / 7;
    for k in 0..dates {
        let at = (7 * k) as usize;
        if text::equal(&list[at..at + 6], six) {
            return true;
        }
    }
    false
}

// Is the day one of the dates of a list?
pub fn is_listed(list: &[u8], day: u32) -> bool
    requires { exists day ≡ true }
    ensures { Listed list.now day result }
{
    if list.len() > LONGEST {
        return false;
    }
    let mut six = [0u8; 6];
    let mut w = Writer::new(&mut six);
    w.put_fixed(6, day as u64);
    stands_in(list, &six)
}
