// A reference put in its place among those of an area, which stand by sender in byte order and then text.
ghost use Rattle.std.specs.Prelude.{◌≡◌, ◌+◌, ◌≤◌, length};
ghost use Rattle.rules.specs.Engine.{precedes};
ghost use Rattle.rules.specs.Area.{reference_record, decode, references_place, record_size};
ghost use Rattle.put.specs.Writes.{Writes};
ghost use Rattle.laws.specs.Moving.{RoomFor};
ghost use Rattle.engine.specs.References.{of_bank, reference_at};
ghost use Rattle.engine_change.specs.Filing.{Today, FiledAt, Files};

use crate::parts::put_padded;
use engine::layout::{FIRST_REFERENCE, RECORD, REFERENCES};
use engine::{BankReference, filed_at, files_before, place_by};
use put::Writer;

// Does the reference of the record at a place precede a bank's? (By the place, as the search for one hands them out.)
#[tactic(auto, using(crate::specs::Filing::pair_precedes))]
fn is_before(area: &[u8], at: usize, reference: BankReference) -> bool
    requires { at + record_size ≤ length area.now }
    ensures { result ≡ precedes (reference_at area.now at) (of_bank reference.entry.bank reference.entry.text.now) }
{
    let filed = filed_at(area, at);
    files_before(filed, (reference.bank, reference.text))
}

// The place of that reference: how many precede it.
pub fn reference_place(area: &[u8], n: u32, reference: BankReference) -> u32
    requires { Today area.now n }
    ensures { FiledAt (of_bank reference.entry.bank reference.entry.text.now) (decode area.now).references result }
{
    place_by(
        n,
        |i| is_before(area, (REFERENCES + RECORD * i) as usize, reference),
    )
}

// The record of a bank's reference.
fn put_reference(w: &mut Writer, reference: BankReference)
    ensures { Writes (reference_record (of_bank reference.entry.bank reference.entry.text.now)) w.old w.new }
{
    w.put_be(8, reference.bank);
    put_padded(w, 16, reference.text);
}

// The reference put in its place i among n: those behind it are moved up.
pub fn file_reference(area: &mut [u8], n: u32, i: u32, reference: BankReference)
    requires few { n ≤ 64 }
    requires room_for { RoomFor references_place record_size n i (length area.old) }
    ensures { Files n i (of_bank reference.entry.bank reference.entry.text.now) area.old area.new }
{
    crate::records::open_record(area, FIRST_REFERENCE, RECORD, n, i);
    let mut w = Writer::at(area, (REFERENCES + RECORD * i) as usize);
    put_reference(&mut w, reference);
}
