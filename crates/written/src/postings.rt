// Posting lines: `day,debit,credit,stotinki,bank,centralisation date`.
ghost use Rattle.std.specs.Prelude.{[], ◌++◌};
ghost use Rattle.rules.specs.Text.{ascii, fixed, decimal};
ghost use Rattle.rules.specs.Engine.{bic};
ghost use Rattle.rules.specs.Written.{posting, from_bank, to_account, to_bank};
ghost use Rattle.put.specs.Writes.{Writes};
ghost use Rattle.written.specs.Values.{book_of};

use crate::Book;
use crate::shown::{Bank, Date, Shown};
use position::Key;
use put::Writer;

// The day and the debit.
fn put_debit<P: Shown>(w: &mut Writer, day: u32, debit: P)
    ensures { Writes (fixed 6 day ++ ascii "," ++ P.text debit ++ ascii ",") w.old w.new }
{
    Date(day).put(w);
    w.put_byte(b',');
    debit.put(w);
    w.put_byte(b',');
}

// The credit and the stotinki.
fn put_credit<P: Shown>(w: &mut Writer, credit: P, stotinki: u64)
    ensures { Writes (P.text credit ++ ascii "," ++ decimal stotinki ++ ascii ",") w.old w.new }
{
    credit.put(w);
    w.put_byte(b',');
    w.put_decimal(stotinki);
    w.put_byte(b',');
}

// The bank, the centralisation date and the end of the line.
fn put_behalf(w: &mut Writer, key: Key)
    ensures { Writes (bic key.bank ++ ascii "," ++ fixed 6 key.date ++ ascii "\r\n") w.old w.new }
{
    Bank(key.bank).put(w);
    w.put_byte(b',');
    Date(key.date).put(w);
    w.put_end();
}

// A posting line of two parties, each a BIC or an account.
fn put_posting<D: Shown, C: Shown>(w: &mut Writer, book: Book, debit: D, credit: C, stotinki: u64)
    ensures { Writes (posting (book_of [] book) (D.text debit) (C.text credit) stotinki) w.old w.new }
{
    put_debit(w, book.day, debit);
    put_credit(w, credit, stotinki);
    put_behalf(w, book.key);
}

// Transfer and collection: bank to temporary account.
pub fn put_from_bank(w: &mut Writer, book: Book, temporary: &[u8], stotinki: u64)
    ensures { Writes (from_bank (book_of temporary.now book) stotinki) w.old w.new }
{
    put_posting(w, book, Bank(book.key.bank), temporary, stotinki);
}

// Credit: temporary account to the register's account.
pub fn put_to_account(w: &mut Writer, book: Book, temporary: &[u8], iban: &[u8], stotinki: u64)
    ensures { Writes (to_account (book_of temporary.now book) iban.now stotinki) w.old w.new }
{
    put_posting(w, book, temporary, iban, stotinki);
}

// Return and refund: temporary account to bank.
pub fn put_to_bank(w: &mut Writer, book: Book, temporary: &[u8], stotinki: u64)
    ensures { Writes (to_bank (book_of temporary.now book) stotinki) w.old w.new }
{
    put_posting(w, book, temporary, Bank(book.key.bank), stotinki);
}
