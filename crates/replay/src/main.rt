// The replay program: reads commands from standard input and prints the card's answers; `--room N` gives the output another room than 32,768 bytes.
#![tactic(auto)]

mod going;
mod words;

use std::io;
use std::process::ExitCode;

fn main(rt: HostRuntime) -> io::Result<ExitCode> {
    let Some(room) = words::asked_room(&rt) else {
        eprintln!(rt;
            "usage: replay [--room N] <COMMANDS >ANSWERS (N: the room of the output in bytes, at most 1048576)"
        )?;
        return Ok(ExitCode::from(2));
    };
    going::replay(&rt, room)?;
    Ok(ExitCode::SUCCESS)
}
