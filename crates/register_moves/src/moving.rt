// A move of a register's text to another form.
ghost use Rattle.std.specs.Prelude.{◌≡◌, List, ℕ, ◌≤◌, length};
ghost use Rattle.rules.specs.Calls.{Stop, first_of};
ghost use Rattle.put.specs.Writes.{Writes};
ghost use Rattle.register_moves.specs.Texts.{WayOf};
ghost use Rattle.refusal.specs.Numbers.{stop_of};

use put::Writer;
use refusal::Refusal;

pub trait RegisterMove {
    // The conditions that stop it, with so much room for what it writes.
    ghost stops: { ℕ → List ℕ → List Stop };

    // How many bytes a text has at least that none of them stops.
    ghost least: { ℕ };

    // The text that is made of it.
    ghost made: { List ℕ → List ℕ };

    // The first condition that holds.
    fn stop(text: &[u8], room: usize) -> Result<(), Refusal>
        ensures { stop_of result ≡ first_of (stops room text.now) };

    // Writes that text.
    fn put(w: &mut Writer, text: &[u8])
        requires { least ≤ length text.now }
        ensures { Writes (made text.now) w.old w.new };

    ghost way: { WayOf stops least made };
}
