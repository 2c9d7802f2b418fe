// The posting lines of a message.
ghost use Rattle.rules.specs.Register.{register_of};
ghost use Rattle.rules.specs.Calls.{postings};
ghost use Rattle.put.specs.Writes.{Writes};
ghost use Rattle.details.specs.Message.{message_in};
ghost use Rattle.conditions.specs.Books.{Books};
ghost use Rattle.verdict.specs.Details.{JudgedIn};
ghost use Rattle.detail_lines.specs.Postings.{book_by};

use conditions::{Booking, Kind};
use detail_lines::put_detail_postings;
use put::Writer;
use register::Register;
use verdict::Details;
use written::{Book, put_from_bank};

// A transfer's, or those of the details.
pub fn put_postings(w: &mut Writer, book: Book, register: Register, details: Details, b: Booking)
    requires books { Books details.message.now (message_in details.message.now) b }
    requires judged_in { JudgedIn register.text.now details.message.now details.kept.now }
    ensures { Writes (postings (register_of register.entry.text.now) (book_by register.entry.text.now book) (message_in details.entry.message.now)) w.old w.new }
{
    match b.kind {
        Kind::Transfer => put_from_bank(w, book, register.temporary(), b.amount),
        Kind::Order(_) => put_detail_postings(w, book, register, details),
    }
}
