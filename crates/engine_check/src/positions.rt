// The section of positions: each within the limits, in order, and zeros behind them.
ghost use Rattle.std.specs.Prelude.{◌≡◌, ◌+◌, ◌≤◌, length};
ghost use Rattle.rules.specs.Area.{texts_place, record_size};
ghost use Rattle.engine_laws.specs.Tests.{date_test, values_test, position_test, order_test, positions_test};
ghost use Rattle.position.specs.Values.{position_value};

use crate::header::all_zero;
use crate::records::section_holds;
use engine::layout::{BLOCK, FIRST_POSITION, SIZE, TEXTS, TRANSFERRED};
use engine::{key_at, position_at};
use position::{LIMIT, Position};

// Does the date exist, and is it no later than the day?
#[tactic(auto, unfolding(engine_laws::specs::Tests::date_test))]
fn date_fits(date: u32, day: u32) -> bool
    ensures { result ≡ date_test day date }
{
    calendar::exists(date) && date <= day
}

// Are the date and both totals within the limits?
#[tactic(auto, unfolding(engine_laws::specs::Tests::values_test))]
fn values_fit(q: Position, day: u32) -> bool
    ensures { result ≡ values_test day (position_value q) }
{
    date_fits(q.key.date, day) && q.transferred <= LIMIT && q.detailed <= LIMIT
}

// Is the position there within the limits, and its byte for a block zero?
#[tactic(auto, using(crate::specs::Read::positions, crate::specs::Zeros::zeros_part), unfolding(engine_laws::specs::Tests::position_test, engine_laws::specs::Tests::position_fits, engine_laws::specs::Tests::value_at))]
fn position_fits(area: &[u8], p: usize, day: u32) -> bool
    requires { p + record_size ≤ length area.now }
    ensures { result ≡ position_test day area.now p }
{
    account::is_bic(&area[p..p + 8])
        && all_zero(&area[p + BLOCK..p + TRANSFERRED])
        && values_fit(position_at(area, p), day)
}

// Does the position there stand before the next one?
fn in_order(area: &[u8], p: usize) -> bool
    requires { p + record_size + record_size ≤ length area.now }
    ensures { result ≡ order_test area.now p }
{
    key_at(area, p) < key_at(area, p + SIZE)
}

// Does the section of n positions pass?
#[tactic(auto, unfolding(engine_laws::specs::Tests::positions_test))]
pub fn positions_hold(area: &[u8], n: u32, day: u32) -> bool
    requires n_bound { n ≤ 32 }
    requires texts_place_in_bounds { texts_place ≤ length area.now }
    ensures { result ≡ positions_test day area.now n }
{
    section_holds(
        area,
        FIRST_POSITION,
        TEXTS,
        n,
        |p| position_fits(area, p, day),
        |p| in_order(area, p),
    )
}
