// The header of an area.
ghost use Rattle.std.specs.Prelude.{◌≡◌, ◌≤◌, leb, length};
ghost use Rattle.rules.specs.Area.{area_size, references_place};
ghost use Rattle.engine.specs.Header.{HeaderAt};

use crate::layout::{AREA, COUNT, DAY, MANY_POSITIONS, MANY_REFERENCES};
use text::big_endian;

// The numbers of an area's header.
#[derive(Clone, Copy)]
pub struct Header {
    // The day.
    pub day: u32,
    // The outgoing count.
    pub count: u32,
    // How many positions are open.
    pub positions: u32,
    // How many references were accepted.
    pub references: u32,
}

// Has an area room for an engine?
pub fn has_room(area: &[u8]) -> bool
    ensures { result ≡ leb area_size (length area.now) }
{
    AREA <= area.len()
}

// The header of any bytes that have room for one. (Number 10 reads it before an area is known to hold an engine; of an engine it is `Engine::header`.)
pub fn header_at(area: &[u8]) -> Header
    requires { references_place ≤ length area.now }
    ensures { HeaderAt area.now result }
{
    let day = big_endian(&area[DAY..COUNT]);
    let count = big_endian(&area[COUNT..MANY_POSITIONS]);
    Header {
        day: day as u32,
        count: count as u32,
        positions: area[MANY_POSITIONS] as u32,
        references: area[MANY_REFERENCES] as u32,
    }
}
