// The positions that a turn corrects.
ghost use Rattle.std.specs.Prelude.{◌≡◌};
ghost use Rattle.rules.specs.Written.{corrected};
ghost use Rattle.position.specs.Values.{position_value};

use position::Position;

// Does a turn correct it: has it details, and do its totals differ?
#[tactic(auto, using(crate::specs::Turn::turning))]
pub fn is_corrected(p: Position) -> bool
    ensures { result ≡ corrected (position_value p) }
{
    p.detailed != 0 && p.transferred != p.detailed
}
