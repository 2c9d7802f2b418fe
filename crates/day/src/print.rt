// An answer printed.
ghost use Rattle.std.specs.Prelude.{◌≤◌, ◌<◌, ◌^◌, length};
ghost use Rattle.std.specs.Int.Signed.{mag};
ghost use Rattle.put.specs.Writes.{Writes};
ghost use Rattle.day.specs.Told.{answer_text};

use crate::call::Outcome;
use put::Writer;

// The number and the difference, then the output.
pub fn put_answer(w: &mut Writer, a: Outcome, out: &[u8])
    requires written_in_bounds { a.written ≤ length out.now }
    requires difference_bound { mag a.difference < 2 ^ 63 }
    ensures { Writes (answer_text a out.now) w.old w.new }
{
    w.put_decimal(a.number as u64);
    w.put_byte(b',');
    commands::put_signed(w, a.difference);
    w.put_end();
    w.put_bytes(&out[0..a.written]);
}
