// A turn over a window of the input.
#![tactic(auto, using(crate::specs::Onwards::going_on))]

ghost use Rattle.day.specs.Onwards.{WindowReady, Unread, Wanted, Onwards};

use crate::replay::carry_out;
use commands::read_command;
use put::Writer;

// What came of a turn. It is no option: there are three ways to go on, each with what it needs.
#[derive(Clone, Copy)]
pub enum Onward {
    // An answer was printed: the place behind its command, and its size.
    Answered(usize, usize),
    // More input is wanted behind so many bytes.
    Wants(usize),
    // No command follows.
    Ends,
}

// No command stands from at up to n: room is made behind those bytes, unless they are as many as no command has.
fn want(input: &mut [u8], at: usize, n: usize) -> Onward
    requires { Unread input.old at n }
    ensures { Wanted input.old at n input.new result }
{
    let left = commands::make_room(input, at, n);
    if left == input.len() {
        return Onward::Ends;
    }
    Onward::Wants(left)
}

// A turn over the bytes from at up to n, which are read and not yet carried out. (The window is lent with both places: between two turns the program reads into it.)
pub fn go_on(
    input: &mut [u8],
    at: usize,
    n: usize,
    area: &mut [u8],
    out: &mut [u8],
    printed: &mut [u8],
) -> Onward
    requires { WindowReady input.old at n area.old out.old printed.old }
    ensures { Onwards input.old at n area.old out.old printed.old input.new area.new out.new printed.new result }
{
    match read_command(&input[at..n]) {
        Some((command, rest)) => {
            let next = n - rest.len();
            let mut w = Writer::new(printed);
            carry_out(command, area, out, &mut w);
            Onward::Answered(next, w.at)
        }
        None => want(input, at, n),
    }
}
