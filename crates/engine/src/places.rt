// The place of a key among the positions of an area, which stand by BIC in byte order and then date.
ghost use Rattle.std.specs.Prelude.{◌≡◌, ℕ, ◌+◌, ◌*◌, ◌≤◌, ◌<◌, length, drop};
ghost use Rattle.rules.specs.Engine.{key_before};
ghost use Rattle.rules.specs.Area.{decode, positions_place, texts_place, record_size};
ghost use Rattle.engine_laws.specs.Tests.{key_at};
ghost use Rattle.position.specs.Values.{key_value};
ghost use Rattle.engine.specs.Front.{UpTo};
ghost use Rattle.engine.specs.Places.{is_first, PlaceOf};
ghost use Rattle.engine.specs.Records.{Many};

use crate::positions::{key_at, position_place};
use position::Key;

// How many of n records stand before what is looked for: those up to the first that does not. (They stand as bytes in an area: there is no slice of them to be searched.)
#[tactic(auto, using(crate::specs::Front::fronting))]
pub fn place_by<F: Fn(u32) -> bool>(n: u32, before: F) -> u32
    requires { (i : ℕ) → i < n → F.pre before i }
    ensures { UpTo (F.post before) n result }
{
    for i in 0..n {
        if !before(i) {
            return i;
        }
    }
    n
}

// Does the i-th position stand before a key?
#[tactic(auto, using(position::proofs::Keys::comparing))]
fn is_before(area: &[u8], i: u32, k: Key) -> bool
    requires few { i < 32 }
    requires in_bounds { texts_place ≤ length area.now }
    ensures { result ≡ key_before (key_at area.now (positions_place + record_size * i)) (key_value k) }
{
    key_at(area, position_place(i)) < k
}

// How many of the n positions stand before a key.
pub fn place_of(area: &[u8], n: u32, k: Key) -> u32
    requires { Many area.now n }
    ensures { PlaceOf (key_value k) (decode area.now).positions result }
{
    place_by(n, |i| is_before(area, i, k))
}

// Is the i-th position that of a key?
pub fn is_at(area: &[u8], n: u32, i: u32, k: Key) -> bool
    requires { Many area.now n }
    ensures { result ≡ is_first (key_value k) (drop i (decode area.now).positions) }
{
    i < n && key_at(area, position_place(i)) == k
}
