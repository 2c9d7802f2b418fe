// The sections of an area by the numbers of its header, and the whole area.
ghost use Rattle.std.specs.Prelude.{◌≡◌, ◌<◌, ◌≤◌, length};
ghost use Rattle.rules.specs.Text.{is_some};
ghost use Rattle.rules.specs.Area.{holds, area_size};
ghost use Rattle.engine_laws.specs.Several.{TextRoom};
ghost use Rattle.engine_laws.specs.Tests.{texts_test, area_test};
ghost use Rattle.engine_check.specs.Passing.{Passes};

use crate::accepted::references_hold;
use crate::header::{all_zero, header_holds};
use crate::positions::positions_hold;
use banking_days::list_passes;
use engine::layout::AREA;
use engine::{header_at, length_at, text_at, text_place};
use register::register_passes;

// Has text k no more bytes than the limit, and does it pass a test?
#[tactic(auto, using(engine_laws::specs::Ways::lettering))]
fn text_holds<F: FnOnce(&[u8]) -> bool>(area: &[u8], k: u32, limit: usize, passes: F) -> bool
    requires k_bound { k < 3 }
    requires text_room { TextRoom area.now k limit }
    requires callable { F.IsAlwaysCallable passes }
    ensures { Passes (F.post passes) limit area.now k result }
{
    if length_at(area, k) > limit {
        return false;
    }
    passes(text_at(area, k))
}

// Do the texts pass, with zeros behind the last?
#[tactic(auto, using(engine_laws::specs::Ways::lettering, engine_laws::specs::Ways::calling, crate::specs::Read::read), unfolding(engine_laws::specs::Tests::texts_test, engine_laws::specs::Tests::is_register, engine_laws::specs::Tests::is_list))]
fn texts_hold(area: &[u8]) -> bool
    requires { area_size ≤ length area.now }
    ensures { result ≡ texts_test area.now }
{
    if !text_holds(area, 0, register::LONGEST, |t| register_passes(t)) {
        return false;
    }
    if !text_holds(area, 1, banking_days::LONGEST, |t| list_passes(t)) {
        return false;
    }
    all_zero(&area[text_place(area, 2)..AREA])
}

// Does the whole area pass?
fn area_passes(area: &[u8]) -> bool
    ensures { result ≡ area_test area.now }
{
    if area.len() < AREA {
        return false;
    }
    let h = header_at(area);
    if !header_holds(area, h) {
        return false;
    }
    if !references_hold(area, h.references) {
        return false;
    }
    if !positions_hold(area, h.positions, h.day) {
        return false;
    }
    texts_hold(area)
}

// Does the area hold an engine within its limits?
#[tactic(auto, using(engine_laws::specs::Holding::holds_tests))]
pub fn limits_hold(area: &[u8]) -> bool
    ensures { result ≡ is_some (holds area.now) }
{
    area_passes(area)
}
