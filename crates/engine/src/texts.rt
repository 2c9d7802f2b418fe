// The texts of an area, one behind the other.
ghost use Rattle.std.specs.Prelude.{◌≡◌, ◌+◌, ◌*◌, ◌≤◌, ◌<◌, length};
ghost use Rattle.rules.specs.Area.{length_at, text_at, lengths_place, references_place};
ghost use Rattle.engine_laws.specs.Several.{TextRoom};
ghost use Rattle.engine.specs.Numbers.{NumberAt};
ghost use Rattle.engine.specs.Texts.{PlaceAt};

use crate::layout::{LENGTHS, TEXTS};
use text::big_endian;

// The length of text k.
pub fn length_at(area: &[u8], k: u32) -> usize
    requires k_bound { k < 3 }
    requires references_place_in_bounds { references_place ≤ length area.now }
    ensures { NumberAt area.now (lengths_place + 2 * k) 2 result }
{
    let p = LENGTHS + (2 * k) as usize;
    big_endian(&area[p..p + 2]) as usize
}

// Where text k begins: behind those before it.
pub fn text_place(area: &[u8], k: u32) -> usize
    requires k_bound { k ≤ 3 }
    requires references_place_in_bounds { references_place ≤ length area.now }
    ensures { PlaceAt area.now k result }
{
    let mut p = TEXTS;
    for i in 0..k {
        p += length_at(area, i);
    }
    p
}

// Text k.
pub fn text_at<'a>(area: &'a [u8], k: u32) -> &'a [u8]
    requires k_bound { k < 3 }
    requires text_room { TextRoom area.now k (length_at area.now k) }
    ensures { result.now ≡ text_at area.now k }
{
    let a = text_place(area, k);
    let b = a + length_at(area, k);
    &area[a..b]
}
