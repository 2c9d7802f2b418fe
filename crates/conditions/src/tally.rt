// The details of an MT101, each read once: judged, kept and summed one by one up to the closing line.
ghost use Rattle.std.specs.Prelude.{◌≡◌, ◌*◌, ◌^◌, ◌<◌, ◌≤◌, min};
ghost use Rattle.forms.specs.Spans.{SpansWithin};
ghost use Rattle.field_conditions.specs.Stops.{low_of};
ghost use Rattle.conditions.specs.Tally.{After, KeepsFirst, TallyAt};

use field_conditions::detail_stop;
use forms::{DETAIL_59, DETAIL_CODE, Detail, read_detail};
use lines::LineReader;
use refusal::Refusal;
use register::Register;
use verdict::{Judged, judge_line, keep};

// What is told of all details together.
#[derive(Clone, Copy)]
pub struct Tally {
    // How many there are.
    pub count: u32,
    // The sum of their amounts.
    pub sum: u64,
    // The centralisation date of the first; 0, which is no date, where there is none, as in the definition of a message's date.
    pub date: u64,
    // The lowest of 5 to 8 that one of them breaks.
    pub low: Result<(), Refusal>,
}

// The lower of what refuses each of two.
fn lower(a: Result<(), Refusal>, b: Result<(), Refusal>) -> Result<(), Refusal>
    ensures { low_of result ≡ min (low_of a) (low_of b) }
{
    let Err(x) = a else {
        return b;
    };
    let Err(y) = b else {
        return a;
    };
    if x < y {
        return a;
    }
    b
}

// The tally with one more detail. The bytes of a message hold fewer than 1,024, so that the sum of all fits 64 bits.
#[tactic(auto, using(crate::specs::Tally::day_first, crate::specs::Tally::day_later))]
fn after(s: &[u8], t: Tally, d: Detail) -> Tally
    requires spans_within { SpansWithin s.now d.spans }
    requires count_bound { t.count < 1024 }
    requires sum_bound { t.sum ≤ t.count * 10 ^ 16 }
    requires amount_bound { d.amount < 10 ^ 16 }
    ensures { After s.now t d result }
{
    let date = if t.count == 0 { d.date } else { t.date };
    Tally {
        count: t.count + 1,
        sum: t.sum + d.amount,
        date,
        low: lower(t.low, detail_stop(s, d, date)),
    }
}

// The detail judged by the register and kept, where it is one of the first 16; n are before it.
#[tactic(auto, using(crate::specs::Tally::keeping))]
fn keep_first(s: &[u8], register: Register, kept: &mut [Judged; 16], n: u32, d: Detail)
    requires { SpansWithin s.now d.spans }
    ensures { KeepsFirst s.now register.entry.text.now n d kept.old kept.new }
{
    if n < 16 {
        let verdict = judge_line(
            register,
            d.spans[DETAIL_59].of(s),
            d.spans[DETAIL_CODE].of(s),
        );
        keep(kept, n, d, verdict);
    }
}

// The tally of all details to come up to the closing line, the first 16 judged by the register and kept; none where one is not in form.
pub fn tally_details(
    reader: &mut LineReader,
    register: Register,
    kept: &mut [Judged; 16],
) -> Option<Tally>
    ensures { TallyAt reader.old.text.now register.entry.text.now reader.old.at result kept.new }
{
    let message = reader.text;
    let mut t = Tally {
        count: 0,
        sum: 0,
        date: 0,
        low: Ok(()),
    };
    for n in 0..4096 {
        let d = read_detail(reader)?;
        keep_first(message, register, kept, n, d);
        t = after(message, t, d);
        if reader.closes() {
            return Some(t);
        }
    }
    None
}
