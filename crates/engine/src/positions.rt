// The positions of the area.
ghost use Rattle.std.specs.Prelude.{◌≡◌, ◌+◌, ◌*◌, ◌≤◌, ◌<◌, length};
ghost use Rattle.rules.specs.Area.{positions_place, texts_place, record_size};
ghost use Rattle.engine_laws.specs.Tests.{key_at};
ghost use Rattle.position.specs.Values.{key_value};
ghost use Rattle.engine.specs.Positions.{PositionAt};

use crate::layout::{BLOCK, DATE, DETAILED, POSITIONS, RECORD, SIZE, TRANSFERRED};
use position::{Key, Position};
use text::big_endian;

// Where the position stands that is the i-th, counted from 0.
pub fn position_place(i: u32) -> usize
    requires { i ≤ 32 }
    ensures { result ≡ positions_place + record_size * i }
{
    (POSITIONS + RECORD * i) as usize
}

// The key of the position at a place.
pub fn key_at(area: &[u8], p: usize) -> Key
    requires { p + record_size ≤ length area.now }
    ensures { key_value result ≡ key_at area.now p }
{
    let bank = big_endian(&area[p..p + DATE]);
    let date = big_endian(&area[p + DATE..p + BLOCK]);
    Key {
        bank,
        date: date as u32,
    }
}

// The position at a place.
pub fn position_at(area: &[u8], p: usize) -> Position
    requires { p + record_size ≤ length area.now }
    ensures { PositionAt area.now p result }
{
    let key = key_at(area, p);
    let transferred = big_endian(&area[p + TRANSFERRED..p + DETAILED]);
    let detailed = big_endian(&area[p + DETAILED..p + SIZE]);
    Position {
        key,
        transferred,
        detailed,
    }
}

// The i-th position.
pub fn nth_position(area: &[u8], i: u32) -> Position
    requires i_bound { i < 32 }
    requires texts_place_in_bounds { texts_place ≤ length area.now }
    ensures { PositionAt area.now (positions_place + record_size * i) result }
{
    position_at(area, position_place(i))
}
