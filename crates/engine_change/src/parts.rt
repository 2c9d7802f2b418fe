// Parts of an area that more than one step reads or writes.
ghost use Rattle.std.specs.Prelude.{◌≤◌, length};
ghost use Rattle.rules.specs.Area.{padded};
ghost use Rattle.put.specs.Writes.{Writes};
ghost use Rattle.engine_change.specs.Header.{numbers};

use engine::Header;
use put::Writer;

// The header's numbers written, behind the mark.
pub fn put_header(w: &mut Writer, h: Header)
    ensures { Writes (numbers h.day h.count h.positions h.references) w.old w.new }
{
    w.put_bytes(b"RC");
    w.put_be(3, h.day as u64);
    w.put_be(2, h.count as u64);
    w.put_be(1, h.positions as u64);
    w.put_be(1, h.references as u64);
}

// A text in room for n bytes, with zeros behind it.
pub fn put_padded(w: &mut Writer, n: usize, cs: &[u8])
    requires { length cs.now ≤ n }
    ensures { Writes (padded n cs.now) w.old w.new }
{
    w.put_bytes(cs);
    w.put_zeros(n - cs.len());
}
