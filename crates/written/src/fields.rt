// A message's first line, and its fields.
ghost use Rattle.rules.specs.Written.{first_line, field, field32a, temporary_field, baeref_row};
ghost use Rattle.put.specs.Writes.{Writes};

use crate::shown::Shown;
use outgoing_number::Reference;
use put::Writer;

// The first line of a written message: type, BNBGBGSD, bank.
pub fn put_opened(w: &mut Writer, kind: &[u8], bank: u64)
    ensures { Writes (first_line kind.now bank) w.old w.new }
{
    w.put_bytes(kind);
    w.put_bytes(b",BNBGBGSD,");
    w.put_be(8, bank);
    w.put_end();
}

// A field of one line, by its tag.
pub fn put_field<V: Shown>(w: &mut Writer, tag: &[u8], value: V)
    ensures { Writes (field tag.now (V.text value)) w.old w.new }
{
    w.put_bytes(tag);
    value.put(w);
    w.put_end();
}

// Field 32A: the day, BGN and the amount.
pub fn put_field32a(w: &mut Writer, day: u32, v: u64)
    ensures { Writes (field32a day v) w.old w.new }
{
    w.put_bytes(b":32A:");
    w.put_fixed(6, day as u64);
    w.put_bytes(b"BGN");
    w.put_amount(b',', v);
    w.put_end();
}

// A field that holds the temporary account, and the line with its name.
pub fn put_temporary_field(w: &mut Writer, tag: &[u8], temporary: &[u8])
    ensures { Writes (temporary_field tag.now temporary.now) w.old w.new }
{
    put_field(w, tag, temporary);
    w.put_bytes(b"SMETKA ZA RAZPREDELENIE NA PREVODI\r\n");
}

// 72's row BAEREF, by its tag: the day and the message's number.
pub fn put_baeref_row(w: &mut Writer, tag: &[u8], r: Reference)
    ensures { Writes (baeref_row tag.now r.day r.number) w.old w.new }
{
    w.put_bytes(tag);
    w.put_fixed(6, r.day as u64);
    w.put_fixed(6, r.number as u64);
    w.put_end();
}
