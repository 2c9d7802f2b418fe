// What the replay programs lend.
ghost use Rattle.std.specs.Prelude.{◌≡◌, length};
ghost use Rattle.rules.specs.Area.{zeros};

// Room of so many bytes: zeros, as the engine area begins.
#[tactic(auto, unfolding(rules::specs::Area::zeros))]
pub fn room<const N: usize>() -> [u8; N]
    ensures zeros { result ≡ zeros N }
    ensures size { length result ≡ N }
{
    [0; N]
}
