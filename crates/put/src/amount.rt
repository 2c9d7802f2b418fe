// Amounts: levs, a mark and two decimals, of the digits of the stotinki.
ghost use Rattle.std.specs.Prelude.{◌≡◌, ◌/◌, ◌≤◌};
ghost use Rattle.rules.specs.Text.{width};

use crate::groups::{eight, width_of};
use crate::parts::Writer;

// How many digits the levs of some stotinki have: the last two are no levs.
fn width_levs(v: u64) -> usize
    ensures { (result ≡ width 19 (v / 100)) × (result ≤ 20) }
{
    width_of(v).max(3) - 2
}

impl<'a> Writer<'a> {
    ghost use Rattle.std.specs.Prelude.{[], ◌∷◌};
    ghost use Rattle.rules.specs.Amounts.{written};
    ghost use Rattle.put.specs.Groups.{levs_of};
    ghost use Rattle.put.specs.Writes.{Writes};

    // The levs in w digits: those of q, and all but two of the eight behind them.
    fn put_levs(&mut self, w: usize, q: u64, d: &[u8; 8])
        ensures { Writes (levs_of w q d.now) self.old self.new }
    {
        if w <= 6 {
            return self.put_bytes(&d[6 - w..6]);
        }
        self.put_fixed(w - 6, q);
        self.put_bytes(&d[0..6]);
    }

    // An amount in levs: the mark, a comma or a point, before the two decimals.
    pub fn put_amount(&mut self, mark: u8, v: u64)
        ensures { Writes (written (mark ∷ []) v) self.old self.new }
    {
        let w = width_levs(v);
        if self.at >= self.out.len() {
            return self.step(w + 3);
        }
        let d = eight((v % 100000000) as u32);
        self.put_levs(w, v / 100000000, &d);
        self.put_byte(mark);
        self.put_bytes(&d[6..8]);
    }
}
