// A detail with its verdict.
ghost use Rattle.std.specs.Prelude.{◌≡◌, ◌<◌, slice_set};
ghost use Rattle.rules.specs.Messages.{past};
ghost use Rattle.rules.specs.Register.{register_of};
ghost use Rattle.rules.specs.Verdict.{verdict, by_code};
ghost use Rattle.verdict.specs.Answers.{verdict_of, LineSmall};
ghost use Rattle.verdict.specs.Details.{low_line, byte_verdict, verdict_kept, judged_of};

use crate::{Cause, Verdict, by_code, judge};
use details::Kept;
use forms::{Detail, Span, behind};
use register::Register;

// A verdict as it is kept, its account line in a byte: with a `usize` the 16 kept would take 256 bytes more of the stack.
#[derive(Clone, Copy)]
enum KeptVerdict {
    // Credited.
    Credited(u8),
    // Credited by its code.
    CreditedByCode(u8, Cause),
    // Returned.
    Returned(Cause),
}

impl KeptVerdict {
    // What is kept of a verdict: of its line the lowest byte, which a line below 256 is itself.
    fn of(v: Verdict) -> KeptVerdict
        ensures { result ≡ byte_verdict (low_line v) }
    {
        match v {
            Verdict::Credited(i) => KeptVerdict::Credited((i % 256) as u8),
            Verdict::CreditedByCode(i, c) => KeptVerdict::CreditedByCode((i % 256) as u8, c),
            Verdict::Returned(c) => KeptVerdict::Returned(c),
        }
    }
}

// What is kept of a detail, and its verdict. That all of them are a message's is a clause (`KeptIn`): an array of a type with the message in it would hold its slice 16 times.
#[derive(Clone, Copy)]
pub struct Judged {
    pub detail: Kept,
    verdict: KeptVerdict,
}

impl Judged {
    // Its verdict, whose line fits a byte.
    #[tactic(auto, using(crate::specs::Details::keeping))]
    pub fn verdict(&self) -> Verdict
        ensures kept { result ≡ verdict_kept self.now }
        ensures small { LineSmall result }
    {
        match self.verdict {
            KeptVerdict::Credited(i) => Verdict::Credited(i as usize),
            KeptVerdict::CreditedByCode(i, c) => Verdict::CreditedByCode(i as usize, c),
            KeptVerdict::Returned(c) => Verdict::Returned(c),
        }
    }
}

// The line of a detail that is not there.
const NO_LINE: Span = Span { start: 0, end: 0 };

// What stands where no detail is kept.
pub const NO_DETAIL: Judged = Judged {
    detail: Kept {
        amount: 0,
        reference: NO_LINE,
        payer: NO_LINE,
        branch: NO_LINE,
        account: NO_LINE,
        baeref: NO_LINE,
    },
    verdict: KeptVerdict::Returned(Cause::WrongShape),
};

// A detail judged by 59's line, and by the second line behind 50H's account.
pub fn judge_line(register: Register, account: &[u8], code: &[u8]) -> Verdict
    ensures { verdict_of result ≡ by_code (register_of register.entry.text.now) code.now (verdict (register_of register.entry.text.now) (past ":59:/" account.now)) }
{
    let v = judge(register, behind(account, 5));
    by_code(register, v, code)
}

// Detail i is kept with its verdict; of a line that no byte holds, which no register has, the lowest byte.
#[tactic(auto, using(crate::specs::Details::keeping))]
pub fn keep(kept: &mut [Judged; 16], i: u32, d: Detail, verdict: Verdict)
    requires { i < 16 }
    ensures low { kept.new ≡ slice_set kept.old i (judged_of d (low_line verdict)) }
    ensures small { LineSmall verdict → kept.new ≡ slice_set kept.old i (judged_of d verdict) }
{
    kept[i as usize] = Judged {
        detail: Kept::from(d),
        verdict: KeptVerdict::of(verdict),
    };
}

#[cfg(test)]
mod tests {
    use super::*;

    // Is what is kept at place i, of a detail with the verdict, the verdict wanted?
    fn keeps(i: u32, verdict: Verdict, wanted: Verdict) -> bool
        requires { i < 16 }
    {
        let d = Detail {
            date: 20261130,
            amount: 1,
            spans: [NO_LINE; 17],
        };
        let mut kept = [NO_DETAIL; 16];
        keep(&mut kept, i, d, verdict);
        kept[i as usize].verdict() == wanted && kept[i as usize].detail.amount == 1
    }

    #[test]
    fn keeps_verdicts(rt: HostRuntime) {
        let last = Verdict::CreditedByCode(39, Cause::OutOfBounds);
        let back = Verdict::Returned(Cause::NotInRegister);
        let largest = Verdict::Credited(255);
        assert!(rt; keeps(15, last, last), "the last line of a register");
        assert!(rt; keeps(7, back, back), "a return");
        assert!(rt; keeps(0, largest, largest), "the largest byte");
        assert!(rt;
            keeps(1, Verdict::Credited(296), Verdict::Credited(40)),
            "no byte"
        );
    }
}
