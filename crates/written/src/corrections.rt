// Corrections of a turn: the posting line of one, and its MT204 or MT205.
ghost use Rattle.std.specs.Prelude.{◌++◌};
ghost use Rattle.rules.specs.Text.{ascii, fixed};
ghost use Rattle.rules.specs.Amounts.{with_comma, with_point};
ghost use Rattle.rules.specs.Engine.{bic};
ghost use Rattle.rules.specs.Written.{reference, first_line, field, temporary_field, field72, mt204, mt205, correction_posting, correction};
ghost use Rattle.put.specs.Writes.{Writes};
ghost use Rattle.position.specs.Values.{position_value};

use crate::Book;
use crate::fields::{put_baeref_row, put_field, put_field32a, put_opened, put_temporary_field};
use crate::postings::{put_from_bank, put_to_bank};
use crate::shown::{Amount, Bank, Date};
use outgoing_number::Reference;
use position::Position;
use put::Writer;

// The last row of 72, and the closing line.
fn put_detailed_row(w: &mut Writer, detailed: u64)
    ensures { Writes (field (ascii "//SUMA PREZ BISERA ") (with_point detailed) ++ ascii "-\r\n") w.old w.new }
{
    put_field(
        w,
        b"//SUMA PREZ BISERA ",
        Amount {
            mark: b'.',
            stotinki: detailed,
        },
    );
    w.put_bytes(b"-\r\n");
}

// Field 72, dated with the centralisation date, and the closing line.
fn put_field72(w: &mut Writer, r: Reference, p: Position)
    ensures { Writes (field72 r.day r.number (position_value p)) w.old w.new }
{
    put_baeref_row(w, b":72:/BAEREF/", r);
    put_field(w, b"/RELREF/ERRCENTRB", Date(p.key.date));
    w.put_bytes(b"//RAZLIKA OT CENTRALIZACIA NA BS\r\n");
    put_field(
        w,
        b"//SUMA PREZ RINGS ",
        Amount {
            mark: b'.',
            stotinki: p.transferred,
        },
    );
    put_detailed_row(w, p.detailed);
}

// First line and fields 20, 19 and 30 of an MT204.
fn put_opened204(w: &mut Writer, r: Reference, bank: u64, v: u64)
    ensures { Writes (first_line (ascii "204") bank ++ field (ascii ":20:") (reference r.day r.number) ++ field (ascii ":19:") (with_comma v) ++ field (ascii ":30:") (fixed 6 r.day)) w.old w.new }
{
    put_opened(w, b"204", bank);
    put_field(w, b":20:", r);
    put_field(
        w,
        b":19:",
        Amount {
            mark: b',',
            stotinki: v,
        },
    );
    put_field(w, b":30:", Date(r.day));
}

// Field 58D, and field 20 behind it.
fn put_temporary204(w: &mut Writer, temporary: &[u8], r: Reference)
    ensures { Writes (temporary_field (ascii ":58D:/") temporary.now ++ field (ascii ":20:") (reference r.day r.number)) w.old w.new }
{
    put_temporary_field(w, b":58D:/", temporary);
    put_field(w, b":20:", r);
}

// Fields 32B and 53A.
fn put_collected204(w: &mut Writer, v: u64, bank: u64)
    ensures { Writes (field (ascii ":32B:BGN") (with_comma v) ++ field (ascii ":53A:") (bic bank)) w.old w.new }
{
    put_field(
        w,
        b":32B:BGN",
        Amount {
            mark: b',',
            stotinki: v,
        },
    );
    put_field(w, b":53A:", Bank(bank));
}

// An MT204: v is collected.
fn put_mt204(w: &mut Writer, r: Reference, temporary: &[u8], p: Position, v: u64)
    ensures { Writes (mt204 r.day temporary.now r.number (position_value p) v) w.old w.new }
{
    put_opened204(w, r, p.key.bank, v);
    put_temporary204(w, temporary, r);
    put_collected204(w, v, p.key.bank);
    put_field72(w, r, p);
}

// First line and fields 20 and 21 of an MT205.
fn put_opened205(w: &mut Writer, r: Reference, bank: u64)
    ensures { Writes (first_line (ascii "205") bank ++ field (ascii ":20:") (reference r.day r.number) ++ field (ascii ":21:") (reference r.day r.number)) w.old w.new }
{
    put_opened(w, b"205", bank);
    put_field(w, b":20:", r);
    put_field(w, b":21:", r);
}

// Fields 52A and 58A.
fn put_parties205(w: &mut Writer, bank: u64)
    ensures { Writes (ascii ":52A:BNBGBGSD\r\n" ++ field (ascii ":58A:") (bic bank)) w.old w.new }
{
    w.put_bytes(b":52A:BNBGBGSD\r\n");
    put_field(w, b":58A:", Bank(bank));
}

// An MT205: v is refunded.
fn put_mt205(w: &mut Writer, r: Reference, p: Position, v: u64)
    ensures { Writes (mt205 r.day r.number (position_value p) v) w.old w.new }
{
    put_opened205(w, r, p.key.bank);
    put_field32a(w, r.day, v);
    put_parties205(w, p.key.bank);
    put_field72(w, r, p);
}

// The posting line of a correction: a refund to the bank, or a collection from it.
#[tactic(auto, unfolding(rules::specs::Written::correction_posting, rules::specs::Written::is_refunded))]
pub fn put_correction_posting(w: &mut Writer, day: u32, temporary: &[u8], p: Position)
    ensures { Writes (correction_posting day temporary.now (position_value p)) w.old w.new }
{
    let book = Book { day, key: p.key };
    if p.detailed <= p.transferred {
        return put_to_bank(w, book, temporary, p.transferred - p.detailed);
    }
    put_from_bank(w, book, temporary, p.detailed - p.transferred);
}

// The message of a correction, by its number: an MT205 refunds, an MT204 collects.
#[tactic(auto, unfolding(rules::specs::Written::correction, rules::specs::Written::is_refunded))]
pub fn put_correction(w: &mut Writer, r: Reference, temporary: &[u8], p: Position)
    ensures { Writes (correction r.day temporary.now r.number (position_value p)) w.old w.new }
{
    if p.detailed <= p.transferred {
        return put_mt205(w, r, p, p.transferred - p.detailed);
    }
    put_mt204(w, r, temporary, p, p.detailed - p.transferred);
}
