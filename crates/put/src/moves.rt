// Bytes moved within an area, to places that may overlap those they come from.
ghost use Rattle.std.specs.Prelude.{◌≡◌, ◌+◌, ◌≤◌, length};
ghost use Rattle.laws.specs.Standing.{moved};

// The n bytes at one place, moved to another.
#[tactic(auto, using(crate::specs::Laying::moved_copy))]
pub fn move_bytes(area: &mut [u8], here: usize, there: usize, n: usize)
    requires here_in_bounds { here + n ≤ length area.old }
    requires there_in_bounds { there + n ≤ length area.old }
    ensures { area.new ≡ moved here there n area.old }
{
    area.copy_within(here..here + n, there);
}
