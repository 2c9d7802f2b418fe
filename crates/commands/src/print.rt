// Answers printed.
ghost use Rattle.rules.specs.Replay.{signed};
ghost use Rattle.put.specs.Writes.{Writes};

use put::Writer;

// A difference, with its sign where it is below 0.
pub fn put_signed(w: &mut Writer, z: i64)
    ensures { Writes (signed z) w.old w.new }
{
    if z < 0 {
        w.put_byte(b'-');
        return w.put_decimal(z.unsigned_abs());
    }
    w.put_decimal(z.unsigned_abs());
}
