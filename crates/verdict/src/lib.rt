// The judgement of a detail: field 59 behind its slash, credited or returned; where it would be returned, its code.
#![tactic(auto, using(crate::specs::Judging::judging))]

mod detail;
mod message;

ghost use Rattle.std.specs.Prelude.{◌≡◌, ◌||◌, true, [], ◌<◌, length};
ghost use Rattle.rules.specs.Text.{ascii, equal, fits};
ghost use Rattle.rules.specs.Register.{register_of};
ghost use Rattle.rules.specs.Verdict.{account_at, shaped, in_bounds, verdict, by_code, is_returned, is_listed199};
ghost use Rattle.verdict.specs.Answers.{verdict_of};

pub use detail::{Judged, NO_DETAIL, judge_line, keep};
pub use message::Details;
use register::Register;
use text::begins_as;

// Why a detail is returned: the first cause that holds.
#[derive(Clone, Copy, PartialEq, Eq)]
pub enum Cause {
    // Its account is no IBAN, alone or with a payment code.
    WrongShape,
    // The IBAN's control fails.
    WrongControl,
    // The register has no such IBAN.
    NotInRegister,
    // The payment code is outside its bounds.
    OutOfBounds,
}

// The verdict on a detail.
#[derive(Clone, Copy, PartialEq, Eq)]
pub enum Verdict {
    // Credited: the account line found, counted from 0.
    Credited(usize),
    // Credited by its code: the account line found, and the cause for which it would have been returned.
    CreditedByCode(usize, Cause),
    // Returned: the cause.
    Returned(Cause),
}

impl Verdict {
    // Does the MT199 list the detail? It lists what is returned, and what its code credits.
    #[tactic(auto, using(crate::specs::Details::choosing))]
    pub fn is_listed(self) -> bool
        ensures { result ≡ is_listed199 (verdict_of self) }
    {
        match self {
            Verdict::Credited(_) => false,
            Verdict::CreditedByCode(_, _) => true,
            Verdict::Returned(_) => true,
        }
    }

    // Does it return the detail?
    #[tactic(auto, using(crate::specs::Details::choosing))]
    pub fn is_returned(self) -> bool
        ensures { result ≡ is_returned (verdict_of self) }
    {
        match self {
            Verdict::Credited(_) => false,
            Verdict::CreditedByCode(_, _) => false,
            Verdict::Returned(_) => true,
        }
    }
}

// Is what stands behind an IBAN nothing, or `PAY` and six digits?
fn is_code_or_nothing(rest: &[u8]) -> bool
    ensures { result ≡ (equal rest.now [] || fits (ascii "PAYnnnnnn") rest.now) }
{
    if rest.is_empty() {
        return true;
    }
    rest.len() == 9 && begins_as(b"PAYnnnnnn", rest)
}

// Is the part an IBAN, alone or followed by `PAY` and six digits?
fn is_shaped(part: &[u8]) -> bool
    ensures { result ≡ shaped part.now }
{
    if part.len() < 22 {
        return false;
    }
    account::iban_shape(&part[..22]) && is_code_or_nothing(&part[22..])
}

// Is the code behind the IBAN within the bounds of account line i? A missing code is.
fn is_in_bounds(register: Register, i: usize, part: &[u8]) -> bool
    requires listed { i < length (register_of register.text.now).accounts }
    requires shaped { shaped part.now ≡ true }
    ensures { result ≡ in_bounds (account_at (register_of register.entry.text.now) i) part.now }
{
    if part.len() == 22 {
        return true;
    }
    let code = register_lines::bound(&part[25..]);
    let (low, high) = register.bounds(i);
    low <= code && code <= high
}

// The verdict on field 59 behind its slash, without codes.
pub fn judge(register: Register, part: &[u8]) -> Verdict
    ensures { verdict_of result ≡ verdict (register_of register.entry.text.now) part.now }
{
    if !is_shaped(part) {
        return Verdict::Returned(Cause::WrongShape);
    }
    let iban = &part[..22];
    if !account::iban_control(iban) {
        return Verdict::Returned(Cause::WrongControl);
    }
    match register.find_account(iban) {
        Some(i) => {
            if is_in_bounds(register, i as usize, part) {
                return Verdict::Credited(i as usize);
            }
            Verdict::Returned(Cause::OutOfBounds)
        }
        None => Verdict::Returned(Cause::NotInRegister),
    }
}

// The verdict v; where it returns the detail and the bytes are a code of the register, credited by that.
pub fn by_code(register: Register, v: Verdict, code: &[u8]) -> Verdict
    ensures { verdict_of result ≡ by_code (register_of register.entry.text.now) code.now (verdict_of v) }
{
    match v {
        Verdict::Returned(c) => match register.find_code(code) {
            Some(i) => Verdict::CreditedByCode(i as usize, c),
            None => v,
        },
        Verdict::Credited(_) => v,
        Verdict::CreditedByCode(_, _) => v,
    }
}
