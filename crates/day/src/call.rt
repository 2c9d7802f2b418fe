// A command carried out by the card. An area is bytes here, 6,144 at least, as the line card lends it.
ghost use Rattle.std.specs.Prelude.{◌≤◌, length};
ghost use Rattle.rules.specs.Replay.{called};
ghost use Rattle.rules.specs.Area.{holds, area_size};
ghost use Rattle.commands.specs.Answers.{command_in};
ghost use Rattle.card.specs.Answers.{Answers};
ghost use Rattle.day.specs.Same.{result_of};
ghost use Rattle.day.specs.Told.{CallTold};

use commands::{Command, Handed};

// What a call answered, as the line card's C program has it.
#[derive(Clone, Copy)]
pub struct Outcome {
    // 0 for an acceptance, else the number of the refusal.
    pub number: u32,
    // How many bytes were written.
    pub written: usize,
    // The difference, in stotinki.
    pub difference: i64,
}

// The card's call that a command is for: an opening is not lent the output, and a move not the area.
fn call_card(
    command: Command,
    area: &mut [u8],
    out: &mut [u8],
    written: &mut usize,
    difference: &mut i64,
) -> u32
    ensures { Answers (result_of command.entry area.old out.old) result written.new difference.new area.new out.new }
{
    match command {
        Command::Opens {
            day,
            register,
            holidays,
        } => card::card_open(register, holidays, day, area, written, difference),
        Command::Hands { kind, text } => match kind {
            Handed::Message => card::card_message(text, area, out, written, difference),
            Handed::Newer => card::card_newer(text, out, written, difference),
            Handed::Older => card::card_older(text, out, written, difference),
        },
        Command::Turns { day } => card::card_turn(day, area, out, written, difference),
    }
}

// A command carried out.
pub fn perform(command: Command, area: &mut [u8], out: &mut [u8]) -> Outcome
    requires { area_size ≤ length area.old }
    ensures { CallTold (called (length out.old) (holds area.old) (command_in command.entry)) result area.old area.new out.old out.new }
{
    let mut written = 0;
    let mut difference = 0;
    let number = call_card(command, area, out, &mut written, &mut difference);
    Outcome {
        number,
        written,
        difference,
    }
}
