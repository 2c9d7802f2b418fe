// What a turn refunds and collects.
ghost use Rattle.std.specs.Prelude.{◌+◌, ◌^◌, ◌<◌};
ghost use Rattle.rules.specs.Area.{decode};
ghost use Rattle.position.specs.Values.{position_value};
ghost use Rattle.turn_text.specs.Sums.{SumsOf};

use engine::Engine;
use position::Position;

// The sums of a turn.
#[derive(Clone, Copy)]
pub struct Sums {
    // The sum refunded.
    pub refunded: u64,
    // The sum collected.
    pub collected: u64,
}

impl Sums {
    ghost use Rattle.turn_text.specs.Sums.{Adds};

    // With one position more.
    fn with_position(self, p: Position) -> Sums
        requires transferred_bound { self.refunded + p.transferred < 2 ^ 64 }
        requires detailed_bound { self.collected + p.detailed < 2 ^ 64 }
        ensures { Adds (position_value p) self result }
    {
        if p.detailed == 0 {
            return self;
        }
        Sums {
            refunded: self.refunded + p.transferred.saturating_sub(p.detailed),
            collected: self.collected + p.detailed.saturating_sub(p.transferred),
        }
    }
}

// The sums of a turn.
pub fn turn_sums(engine: Engine) -> Sums
    ensures { SumsOf (decode engine.entry.area.now).positions result }
{
    let n = engine.header().positions;
    let mut s = Sums {
        refunded: 0,
        collected: 0,
    };
    for i in 0..n {
        s = s.with_position(engine.position(i));
    }
    s
}
