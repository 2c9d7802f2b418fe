// A room of the output.
ghost use Rattle.std.specs.Prelude.{◌≤◌};

// So many bytes: what a replay can be asked for.
#[derive(Clone, Copy)]
pub struct Room {
    // The bytes.
    pub bytes: usize,
    ghost within: { bytes ≤ 1048576 },
}
