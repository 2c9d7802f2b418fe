// The card's calls, exported for the line card's C program.
#![tactic(auto)]

ghost use Rattle.std.specs.Prelude.{[]};
ghost use Rattle.rules.specs.Area.{card_open, card_message, card_turn, card_newer, card_older};
ghost use Rattle.card.specs.Answers.{Answers};

// Opens an engine with a register, a holiday list and a day.
#[unsafe(no_mangle)]
pub extern "C" fn card_open(
    text: &[u8],
    list: &[u8],
    day: u32,
    area: &mut [u8],
    written: &mut usize,
    difference: &mut i64,
) -> u32
    ensures { Answers (card_open text.now list.now day area.old) result written.new difference.new area.new [] }
{
    card::card_open(text, list, day, area, written, difference)
}

// Takes an MT103 or MT101.
#[unsafe(no_mangle)]
pub extern "C" fn card_message(
    message: &[u8],
    area: &mut [u8],
    output: &mut [u8],
    written: &mut usize,
    difference: &mut i64,
) -> u32
    ensures { Answers (card_message message.now area.old output.old) result written.new difference.new area.new output.new }
{
    card::card_message(message, area, output, written, difference)
}

// Turns to a later day.
#[unsafe(no_mangle)]
pub extern "C" fn card_turn(
    day: u32,
    area: &mut [u8],
    output: &mut [u8],
    written: &mut usize,
    difference: &mut i64,
) -> u32
    ensures { Answers (card_turn day area.old output.old) result written.new difference.new area.new output.new }
{
    card::card_turn(day, area, output, written, difference)
}

// Moves an old register's text to the newer form.
#[unsafe(no_mangle)]
pub extern "C" fn card_newer(
    text: &[u8],
    output: &mut [u8],
    written: &mut usize,
    difference: &mut i64,
) -> u32
    ensures { Answers (card_newer text.now output.old) result written.new difference.new [] output.new }
{
    card::card_newer(text, output, written, difference)
}

// Moves a register's text to the older form.
#[unsafe(no_mangle)]
pub extern "C" fn card_older(
    text: &[u8],
    output: &mut [u8],
    written: &mut usize,
    difference: &mut i64,
) -> u32
    ensures { Answers (card_older text.now output.old) result written.new difference.new [] output.new }
{
    card::card_older(text, output, written, difference)
}
