// Commands.
#![tactic(auto, using(crate::specs::Lines::commanding))]

ghost use Rattle.std.specs.Prelude.{◌≡◌};
ghost use Rattle.rules.specs.Replay.{command_of, command, single, texts_behind};
ghost use Rattle.commands.specs.Answers.{commanded_of, making, turn_behind, opening_behind};

use crate::letter::{Handed, letter_at};
use crate::number::{read_length, six_digits, two_lengths};

// A command, with the parts of the input that are its texts.
#[derive(Clone, Copy)]
pub enum Command<'a> {
    Opens {
        day: u32,
        register: &'a [u8],
        holidays: &'a [u8],
    },
    Hands {
        kind: Handed,
        text: &'a [u8],
    },
    Turns {
        day: u32,
    },
}

// `M,length`, `N,length` or `P,length`, and the text.
fn text_command<'a>(kind: Handed, size: &[u8], behind: &'a [u8]) -> Option<(Command<'a>, &'a [u8])>
    ensures { commanded_of result ≡ texts_behind (single (making kind)) 1 size.now behind.now }
{
    let n = read_length(size)?;
    let (text, rest) = behind.split_at_checked(n as usize)?;
    Some((Command::Hands { kind, text }, rest))
}

// `T,day`.
fn turn_command<'a>(day: &[u8], behind: &'a [u8]) -> Option<(Command<'a>, &'a [u8])>
    ensures { commanded_of result ≡ turn_behind day.now behind.now }
{
    let day = six_digits(day)? as u32;
    Some((Command::Turns { day }, behind))
}

// `O,day,length,length`, a register and a holiday list.
fn open_command<'a>(parts: &[u8], behind: &'a [u8]) -> Option<(Command<'a>, &'a [u8])>
    ensures { commanded_of result ≡ opening_behind parts.now behind.now }
{
    let (day, sizes) = parts.split_at_checked(6)?;
    let sizes = sizes.strip_prefix(b",")?;
    let day = six_digits(day)? as u32;
    let (m, n) = two_lengths(sizes)?;
    let (register, others) = behind.split_at_checked(m as usize)?;
    let (holidays, rest) = others.split_at_checked(n as usize)?;
    Some((
        Command::Opens {
            day,
            register,
            holidays,
        },
        rest,
    ))
}

// The command of a line, and what stands behind its texts.
#[tactic(auto, using(crate::specs::Lines::by_kind))]
fn line_command<'a>(line: &[u8], behind: &'a [u8]) -> Option<(Command<'a>, &'a [u8])>
    ensures { commanded_of result ≡ command_of line.now behind.now }
{
    if let Some(kind) = letter_at(line) {
        return text_command(kind, &line[2..], behind);
    }
    if let Some(day) = line.strip_prefix(b"T,") {
        return turn_command(day, behind);
    }
    if let Some(parts) = line.strip_prefix(b"O,") {
        return open_command(parts, behind);
    }
    None
}

// The command that the input begins with, and what stands behind it.
pub fn read_command(input: &[u8]) -> Option<(Command<'_>, &[u8])>
    ensures { commanded_of result ≡ command input.now }
{
    let e = lines::next_line(input, 0)?;
    line_command(&input[..e], &input[e + 2..])
}
