// An MT101: 4 to 8.
ghost use Rattle.std.specs.Prelude.{◌≡◌, map, take};
ghost use Rattle.rules.specs.Text.{equal, twice};
ghost use Rattle.rules.specs.Messages.{past};
ghost use Rattle.rules.specs.Engine.{slashed};
ghost use Rattle.refusal.specs.Numbers.{stop_of};
ghost use Rattle.field_conditions.specs.Stops.{low_of};
ghost use Rattle.conditions.specs.Walk.{NamedFirst, named};
ghost use Rattle.conditions.specs.Order.{order_stop};

use crate::tally::Tally;
use crate::walk::appears_twice;
use field_conditions::slashed_behind;
use refusal::Refusal;
use verdict::Judged;

// The lowest condition of 4 to 8 that holds; `line` is field 20's, t the details' tally, the first 16 of which are kept.
pub fn order_stop(s: &[u8], line: &[u8], kept: &[Judged; 16], t: Tally) -> Result<(), Refusal>
    requires { NamedFirst s.now kept.now t.count }
    ensures { stop_of result ≡ order_stop t.count (slashed (past ":20:" line.now)) (low_of t.low) (twice equal (map (named s.now) (take t.count kept.now))) }
{
    if 16 < t.count {
        return Err(Refusal::TooManyDetails);
    }
    if slashed_behind(line, 4) {
        return Err(Refusal::BadReference);
    }
    if appears_twice(s, &kept[0..t.count as usize]) {
        return Err(Refusal::BadReference);
    }
    t.low
}
