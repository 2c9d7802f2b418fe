// The replay of a day.
ghost use Rattle.std.specs.Prelude.{◌≤◌, length};
ghost use Rattle.rules.specs.Replay.{replay_from};
ghost use Rattle.rules.specs.Area.{holds, area_size};
ghost use Rattle.laws.specs.Writing.{Wrote};
ghost use Rattle.commands.specs.Answers.{command_in};
ghost use Rattle.day.specs.Replaying.{CarriedOut};

use crate::call::perform;
use crate::print::put_answer;
use commands::{Command, read_command};
use put::Writer;

// Carries out a command and prints its answer.
pub fn carry_out(command: Command, area: &mut [u8], out: &mut [u8], w: &mut Writer)
    requires { area_size ≤ length area.old }
    ensures { CarriedOut (command_in command.entry) area.old out.old w.old area.new out.new w.new }
{
    let outcome = perform(command, area, out);
    put_answer(w, outcome, out);
}

// Carries out the commands of the input one after the other and prints their answers, as far as `printed` reaches; answers how many bytes they are.
pub fn replay_day(input: &[u8], area: &mut [u8], out: &mut [u8], printed: &mut [u8]) -> usize
    requires { area_size ≤ length area.old }
    ensures { Wrote (replay_from (length input.now) (length out.old) (holds area.old) input.now) 0 printed.old result printed.new }
{
    let mut w = Writer::new(printed);
    let mut rest = input;
    while let Some((command, behind)) = read_command(rest) {
        carry_out(command, area, out, &mut w);
        rest = behind;
    }
    w.at
}
