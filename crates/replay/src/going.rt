// The input replayed, turn by turn.
ghost use Rattle.std.specs.Prelude.{◌≤◌, length, MatchResult};
ghost use Rattle.day.specs.Onwards.{WindowReady};
ghost use Rattle.replay.specs.Going.{More};

use commands::Room;
use day::Onward;
use std::io;
use std::io::{Input, Read, Write};

// Reads once behind the first n bytes; answers how many there are then.
fn read_more(reader: &mut impl Read, input: &mut [u8], n: usize) -> io::Result<usize>
    requires { n ≤ length input.old }
    ensures { MatchResult result (λ r. More input.old n r input.new) (λ _. More input.old n n input.new) }
{
    let got = reader.read(&mut input[n..])?;
    Ok(n + got)
}

// Turn by turn until no command follows, the input ends or nobody takes what is printed; as many turns as no run uses up.
fn replay_input(
    reader: &mut impl Read,
    writer: &mut impl Write,
    input: &mut [u8],
    area: &mut [u8],
    out: &mut [u8],
    printed: &mut [u8],
) -> io::Result<()>
    requires { WindowReady input.old 0 0 area.old out.old printed.old }
{
    let mut at: usize = 0;
    let mut n: usize = 0;
    for _ in 0..u64::MAX {
        match day::go_on(input, at, n, area, out, printed) {
            Onward::Answered(next, p) => {
                writer.write_all(&printed[0..p])?;
                writer.flush()?;
                at = next;
            }
            Onward::Wants(left) => {
                n = read_more(reader, input, left)?;
                if n == left {
                    return Ok(());
                }
                at = 0;
            }
            Onward::Ends => return Ok(()),
        }
    }
    Ok(())
}

// The replay of standard input with so many bytes of output: a window of 65,536 bytes, and room for an answer's line and the output.
pub fn replay(rt: &(impl Input + Print), room: Room) -> io::Result<()> {
    let mut input: [u8; 65536] = day::room();
    let mut area: [u8; 6144] = day::room();
    let mut output: [u8; 1048576] = day::room();
    let mut printed: [u8; 1048640] = day::room();
    replay_input(
        &mut rt.reader(),
        &mut io::writer(rt),
        &mut input,
        &mut area,
        &mut output[0..room.bytes],
        &mut printed,
    )
}
