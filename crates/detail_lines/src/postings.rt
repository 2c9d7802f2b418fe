// The posting lines of a message's details.
ghost use Rattle.std.specs.Prelude.{◌<◌, length};
ghost use Rattle.rules.specs.Register.{register_of};
ghost use Rattle.rules.specs.Verdict.{account_at};
ghost use Rattle.rules.specs.Written.{to_account};
ghost use Rattle.rules.specs.Calls.{detail_postings};
ghost use Rattle.put.specs.Writes.{Writes};
ghost use Rattle.details.specs.Message.{details_in};
ghost use Rattle.verdict.specs.Answers.{verdict_of, InRegister};
ghost use Rattle.verdict.specs.Details.{JudgedIn};
ghost use Rattle.detail_lines.specs.Postings.{book_by, verdict_posting};

use put::Writer;
use register::Register;
use verdict::{Details, Verdict};
use written::{Book, put_to_account, put_to_bank};

// The posting line that credits account line i.
fn put_credit(w: &mut Writer, book: Book, register: Register, i: usize, amount: u64)
    requires { i < length (register_of register.text.now).accounts }
    ensures { Writes (to_account (book_by register.entry.text.now book) (account_at (register_of register.entry.text.now) i).iban amount) w.old w.new }
{
    put_to_account(w, book, register.temporary(), register.iban(i), amount);
}

// The posting line of an amount by its verdict: a credit, or a return.
#[tactic(auto, using(crate::specs::Postings::crediting))]
fn put_verdict_posting(w: &mut Writer, book: Book, register: Register, v: Verdict, amount: u64)
    requires { InRegister register.text.now v }
    ensures { Writes (verdict_posting (register_of register.entry.text.now) (book_by register.entry.text.now book) amount (verdict_of v)) w.old w.new }
{
    match v {
        Verdict::Credited(i) => put_credit(w, book, register, i, amount),
        Verdict::CreditedByCode(i, _) => put_credit(w, book, register, i, amount),
        Verdict::Returned(_) => put_to_bank(w, book, register.temporary(), amount),
    }
}

// The posting lines of a message's details, in their order.
#[tactic(auto, using(crate::specs::Postings::judged_known, crate::specs::Postings::credits_end))]
pub fn put_detail_postings(w: &mut Writer, book: Book, register: Register, details: Details)
    requires { JudgedIn register.text.now details.message.now details.kept.now }
    ensures { Writes (detail_postings (register_of register.entry.text.now) (book_by register.entry.text.now book) (details_in details.entry.message.now)) w.old w.new }
{
    for j in details.kept {
        put_verdict_posting(w, book, register, j.verdict(), j.detail.amount);
    }
}
