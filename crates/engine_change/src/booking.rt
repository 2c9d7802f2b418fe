// A message booked in an area: its position raised or put in its place, its reference put in its place, the header's numbers.
ghost use Rattle.std.specs.Prelude.{◌≡◌, true, ◌++◌, drop};
ghost use Rattle.rules.specs.Text.{is_some};
ghost use Rattle.rules.specs.Engine.{booked};
ghost use Rattle.rules.specs.Area.{key_bytes, position_record, encode, decode, holds, area_size};
ghost use Rattle.put.specs.Writes.{Writes, WroteAt};
ghost use Rattle.position.specs.Values.{key_value, position_value};
ghost use Rattle.engine.specs.Records.{Many};
ghost use Rattle.engine.specs.References.{of_bank};
ghost use Rattle.engine_change.specs.Booking.{raised_at, Raises, CanBook, Positions, booked_with};

use crate::filing::{file_reference, reference_place};
use crate::parts::put_header;
use engine::layout::{FIRST_POSITION, RECORD};
use engine::{BankReference, Engine, Header, is_at, place_of, position_at, position_place};
use position::{Key, Position};
use put::Writer;

// A key, and the byte for its block.
fn put_key(w: &mut Writer, k: Key)
    ensures { Writes (key_bytes (key_value k)) w.old w.new }
{
    w.put_be(8, k.bank);
    w.put_be(3, k.date as u64);
    w.put_be(1, 0);
}

// The record of a position.
fn put_position(w: &mut Writer, p: Position)
    ensures { Writes (position_record (position_value p)) w.old w.new }
{
    put_key(w, p.key);
    w.put_be(6, p.transferred);
    w.put_be(6, p.detailed);
}

// The record at a place, which is that of p's key, with both totals of p added.
fn raise(area: &mut [u8], at: usize, p: Position)
    requires { Raises area.old at (position_value p) }
    ensures { WroteAt (position_record (raised_at area.old at (position_value p))) at area.old area.new }
{
    let q = position_at(area, at);
    let key = p.key;
    let sum = Position {
        key,
        transferred: q.transferred + p.transferred,
        detailed: q.detailed + p.detailed,
    };
    let mut w = Writer::at(area, at);
    put_position(&mut w, sum);
}

// Both totals of p added to the position of its key, which opens in its place where it is missing. Answers how many positions there are then.
fn book_position(area: &mut [u8], n: u32, p: Position) -> u32
    requires area_value { is_some (holds area.old) ≡ true }
    requires many { Many area.old n }
    requires can_book { CanBook (decode area.old) (position_value p) }
    ensures { Positions (booked (position_value p) (decode area.old).positions) area.old result area.new }
{
    let i = place_of(area, n, p.key);
    let at = position_place(i);
    if is_at(area, n, i, p.key) {
        raise(area, at, p);
        return n;
    }
    crate::records::open_record(area, FIRST_POSITION, RECORD, n, i);
    let mut w = Writer::at(area, at);
    put_position(&mut w, p);
    n + 1
}

// A bank's message booked: what it adds to its position, its reference, and the outgoing count behind it.
#[tactic(auto, using(crate::specs::Sets::booking))]
pub fn book_area(area: &mut [u8], reference: BankReference, p: Position, count: u32)
    requires holds_engine { is_some (holds area.old) ≡ true }
    requires can_book { CanBook (decode area.old) (position_value p) }
    ensures { area.new ≡ encode (booked_with (decode area.old) (position_value p) (of_bank reference.entry.bank reference.entry.text.now) count) ++ drop area_size area.old }
{
    let h = Engine::held(area).header();
    let n = h.references;
    let i = reference_place(area, n, reference);
    let k = book_position(area, h.positions, p);
    file_reference(area, n, i, reference);
    let mut w = Writer::new(area);
    let header = Header {
        count,
        positions: k,
        references: n + 1,
        ..h
    };
    put_header(&mut w, header);
}
