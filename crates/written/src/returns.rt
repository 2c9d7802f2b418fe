// The MT103 of a return. The temporary account is a slice of 22 bytes or more: an array would ask callers for 22 alone.
ghost use Rattle.std.specs.Prelude.{◌++◌, ◌≤◌, length};
ghost use Rattle.rules.specs.Text.{ascii, fixed};
ghost use Rattle.rules.specs.Accounts.{bae_of};
ghost use Rattle.rules.specs.Written.{reference, first_line, field, field32a, temporary_field, baeref_row, return103};
ghost use Rattle.put.specs.Writes.{Writes};
ghost use Rattle.written.specs.Values.{book_of};

use crate::Book;
use crate::fields::{put_baeref_row, put_field, put_field32a, put_opened, put_temporary_field};
use crate::shown::Date;
use outgoing_number::Reference;
use position::Key;
use put::Writer;

// First line and fields 20, 23B and 32A.
fn put_opened103(w: &mut Writer, r: Reference, key: Key, v: u64)
    ensures { Writes (first_line (ascii "103") key.bank ++ field (ascii ":20:") (reference r.day r.number) ++ ascii ":23B:CRED\r\n" ++ field32a r.day v) w.old w.new }
{
    put_opened(w, b"103", key.bank);
    put_field(w, b":20:", r);
    w.put_bytes(b":23B:CRED\r\n");
    put_field32a(w, r.day, v);
}

// Fields 50K and 52D: the temporary account, its BAE code and `BNB`.
fn put_temporary103(w: &mut Writer, temporary: &[u8])
    requires { 22 ≤ length temporary.now }
    ensures { Writes (temporary_field (ascii ":50K:/") temporary.now ++ field (ascii ":52D:") (bae_of temporary.now) ++ ascii "BNB\r\n") w.old w.new }
{
    put_temporary_field(w, b":50K:/", temporary);
    put_field(w, b":52D:", &temporary[4..12]);
    w.put_bytes(b"BNB\r\n");
}

// Fields 57D and 59, with the detail's lines.
fn put_beneficiary103(w: &mut Writer, lines52d: &[u8], lines50h: &[u8])
    ensures { Writes (ascii ":57D:" ++ lines52d.now ++ ascii ":59:" ++ lines50h.now) w.old w.new }
{
    w.put_bytes(b":57D:");
    w.put_bytes(lines52d);
    w.put_bytes(b":59:");
    w.put_bytes(lines50h);
}

// Fields 70, 71A and 72, and the closing line.
fn put_closed103(w: &mut Writer, r: Reference, key: Key)
    ensures { Writes (field (ascii ":70:VRASHTANE CENTRB") (fixed 6 key.date) ++ ascii ":71A:OUR\r\n:72:/DTYPE/PORD\r\n" ++ baeref_row (ascii "/BAEREF/") r.day r.number ++ ascii "-\r\n") w.old w.new }
{
    put_field(w, b":70:VRASHTANE CENTRB", Date(key.date));
    w.put_bytes(b":71A:OUR\r\n:72:/DTYPE/PORD\r\n");
    put_baeref_row(w, b"/BAEREF/", r);
    w.put_bytes(b"-\r\n");
}

// The MT103 of a return, by its number: v goes back to the payer of 50H, at the branch of 52D.
pub fn put_return(
    w: &mut Writer,
    book: Book,
    temporary: &[u8],
    n: u32,
    v: u64,
    lines52d: &[u8],
    lines50h: &[u8],
)
    requires { 22 ≤ length temporary.now }
    ensures { Writes (return103 (book_of temporary.now book) n v lines52d.now lines50h.now) w.old w.new }
{
    let r = Reference {
        day: book.day,
        number: n,
    };
    put_opened103(w, r, book.key, v);
    put_temporary103(w, temporary);
    put_beneficiary103(w, lines52d, lines50h);
    put_closed103(w, r, book.key);
}
