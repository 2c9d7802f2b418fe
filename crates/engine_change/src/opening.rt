// An opening written into an area.
ghost use Rattle.std.specs.Prelude.{◌≡◌, true, [], ◌∷◌, ◌++◌, ◌+◌, ◌≤◌, length, drop};
ghost use Rattle.rules.specs.Text.{is_some};
ghost use Rattle.rules.specs.BankingDays.{holidays};
ghost use Rattle.rules.specs.Register.{register};
ghost use Rattle.rules.specs.Calls.{opened};
ghost use Rattle.rules.specs.Area.{encode, area_size, texts_room};
ghost use Rattle.put.specs.Writes.{Writes};
ghost use Rattle.engine_laws.specs.Sections.{text_part};
ghost use Rattle.engine_change.specs.Header.{lengths};
ghost use Rattle.engine_change.specs.Opening.{opened_parts};

use crate::parts::put_header;
use engine::Header;
use engine::layout::{POSITIONS_ROOM, REFERENCES_ROOM, TEXTS_ROOM};
use put::Writer;

// What an engine is opened with.
#[derive(Clone, Copy)]
struct Opening<'a> {
    // The register.
    text: &'a [u8],
    // The holiday list.
    list: &'a [u8],
    // The day.
    day: u32,
    ghost room: { length text.now + length list.now ≤ texts_room },
}

impl<'a> Opening<'a> {
    // The header's currency and lengths of texts.
    fn put_lengths(self, w: &mut Writer)
        ensures { Writes (lengths (self.entry.text.now ∷ self.entry.list.now ∷ [])) w.old w.new }
    {
        w.put_be(1, 0);
        w.put_be(2, self.text.len() as u64);
        w.put_be(2, self.list.len() as u64);
        w.put_zeros(2);
    }

    // The texts, with zeros behind the last.
    fn put_texts(self, w: &mut Writer)
        ensures { Writes (text_part (self.entry.text.now ∷ self.entry.list.now ∷ [])) w.old w.new }
    {
        w.put_bytes(self.text);
        w.put_bytes(self.list);
        w.put_zeros(TEXTS_ROOM - self.text.len() - self.list.len());
    }

    // The parts of the engine's area.
    fn put_area(self, w: &mut Writer)
        ensures { Writes (opened_parts self.entry.text.now self.entry.list.now self.entry.day) w.old w.new }
    {
        let header = Header {
            day: self.day,
            count: 0,
            positions: 0,
            references: 0,
        };
        put_header(w, header);
        self.put_lengths(w);
        w.put_zeros(REFERENCES_ROOM);
        w.put_zeros(POSITIONS_ROOM);
        self.put_texts(w);
    }
}

// "Opening takes the register and a day and gives an engine with no positions, references or output.", and the holiday list.
pub fn open_area(area: &mut [u8], text: &[u8], list: &[u8], day: u32)
    requires area_size_in_bounds { area_size ≤ length area.old }
    requires text_value { is_some (register text.now) ≡ true }
    requires list_value { is_some (holidays list.now) ≡ true }
    ensures { area.new ≡ encode (opened text.now list.now day) ++ drop area_size area.old }
{
    let opening = Opening { text, list, day };
    opening.put_area(&mut Writer::new(area));
}
