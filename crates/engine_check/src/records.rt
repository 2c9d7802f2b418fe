// The records of a section, of 24 bytes each, tested one by one.
ghost use Rattle.std.specs.Prelude.{ℕ, ◌+◌, ◌-◌, ◌*◌, ◌^◌, ◌<◌, ◌≤◌, length};
ghost use Rattle.rules.specs.Area.{record_size};
ghost use Rattle.engine_check.specs.Walks.{Walks, Sections};

use crate::header::all_zero;
use engine::layout::RECORD;

// Do the n records from a place on pass a test, each where it stands?
#[tactic(auto, using(crate::specs::Walks::left_bad, crate::specs::Walks::left_more, crate::specs::Walks::left_none))]
fn each_passes<F: Fn(usize) -> bool>(first: usize, n: u32, passes: F) -> bool
    requires few { record_size * n < 2 ^ 32 }
    requires in_memory { first + record_size * n < 2 ^ 64 }
    requires callable { (k : ℕ) → k < n → F.pre passes (first + record_size * k) }
    ensures { Walks (F.post passes) n first result }
{
    for k in 0..n {
        if !passes(first + (RECORD * k) as usize) {
            return false;
        }
    }
    true
}

// Does a section of n records pass: each record a test of it, each but the last a test with the next one, and zeros behind them up to the section's end?
#[tactic(auto, using(crate::specs::Zeros::zeros_part))]
pub fn section_holds<F: Fn(usize) -> bool, G: Fn(usize) -> bool>(
    area: &[u8],
    first: usize,
    end: usize,
    n: u32,
    fits: F,
    before: G,
) -> bool
    requires few { record_size * n < 2 ^ 32 }
    requires room { first + record_size * n ≤ end }
    requires in_bounds { end ≤ length area.now }
    requires fits_callable { (k : ℕ) → k < n → F.pre fits (first + record_size * k) }
    requires before_callable { (k : ℕ) → k < n - 1 → G.pre before (first + record_size * k) }
    ensures { Sections (F.post fits) (G.post before) area.now first end n result }
{
    each_passes(first, n, fits)
        && each_passes(first, n.saturating_sub(1), before)
        && all_zero(&area[first + (RECORD * n) as usize..end])
}
