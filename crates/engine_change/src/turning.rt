// A turn made in an area: positions with details are removed, references and outgoing number start anew.
ghost use Rattle.std.specs.Prelude.{◌≡◌, true, ◌++◌, ◌+◌, ◌*◌, ◌≤◌, length, take, drop};
ghost use Rattle.rules.specs.Text.{is_some};
ghost use Rattle.rules.specs.Area.{encode, decode, holds, area_size, positions_place, record_size};
ghost use Rattle.laws.specs.Moving.{Sifted};
ghost use Rattle.engine_change.specs.Turning.{turned, stays};

use crate::parts::put_header;
use engine::layout::{
    DETAILED, FIRST_POSITION, FIRST_REFERENCE, POSITIONS, RECORD, REFERENCES_ROOM, SIZE,
};
use engine::{Engine, Header};
use put::Writer;
use text::big_endian;

// "A position without details stays": that of the record at a place? (Records are told by places: see `engine`.)
#[tactic(auto, using(crate::specs::Sets::turning))]
fn stays_at(area: &[u8], at: usize) -> bool
    requires { at + record_size ≤ length area.now }
    ensures { result ≡ stays (take record_size (drop at area.now)) }
{
    big_endian(&area[at + DETAILED..at + SIZE]) == 0
}

// Of n positions those without details are kept, in their order; the room of the others is zero. Answers how many are kept.
fn remove_detailed(area: &mut [u8], n: u32) -> u32
    requires n_bound { n ≤ 32 }
    requires n_in_bounds { positions_place + record_size * n ≤ length area.old }
    ensures { Sifted stays record_size n positions_place area.old result area.new }
{
    let mut j: u32 = 0;
    for i in 0..n {
        if stays_at(area, (POSITIONS + RECORD * i) as usize) {
            crate::records::keep_record(area, FIRST_POSITION, RECORD, i, j);
            j += 1;
        }
    }
    let mut w = Writer::at(area, (POSITIONS + RECORD * j) as usize);
    w.put_zeros((RECORD * (n - j)) as usize);
    j
}

// The turn of an engine to a day, with the count of the messages that it writes.
pub fn turn_area(area: &mut [u8], day: u32, count: u32)
    requires { is_some (holds area.old) ≡ true }
    ensures { area.new ≡ encode (turned (decode area.old) day count) ++ drop area_size area.old }
{
    let h = Engine::held(area).header();
    let kept = remove_detailed(area, h.positions);
    Writer::at(area, FIRST_REFERENCE).put_zeros(REFERENCES_ROOM);
    let header = Header {
        day,
        count,
        positions: kept,
        references: 0,
    };
    put_header(&mut Writer::new(area), header);
}
