// Replays days and compares what is printed with what is expected: three words for each, the input's file, the expected output's, and the output's room.
#![tactic(auto)]

ghost use Rattle.std.specs.Prelude.{◌≡◌, ◌≤◌, length, take};

use commands::Room;
use std::io::Read;
use std::rt::Files;
use std::{env, fs, io};

// The file of that name, as much of it as the buffer takes; one that cannot be read is cut short.
fn read_file(rt: &impl Files, name: &str, buf: &mut [u8]) -> usize
    ensures within { result ≤ length buf.new }
    ensures whole { result ≡ length (take result buf.new) }
{
    let Ok(mut file) = fs::open(rt, name) else {
        return 0;
    };
    let mut n: usize = 0;
    for _ in 0..u64::MAX {
        let Ok(got) = file.read(&mut buf[n..]) else {
            break;
        };
        if got == 0 {
            break;
        }
        n += got;
    }
    n
}

// The room that a word is, 32,768 bytes where there is none or it is none.
fn room_of(word: Option<&str>) -> Room {
    let asked = word.and_then(|w| commands::read_room(w.as_bytes()));
    asked.unwrap_or(Room { bytes: 32768 })
}

// Replays the input with so many bytes of output; answers how many bytes were printed.
fn replay_with(input: &[u8], room: Room, printed: &mut [u8]) -> usize {
    let mut area: [u8; 6144] = day::room();
    let mut output: [u8; 1048576] = day::room();
    day::replay_day(input, &mut area, &mut output[0..room.bytes], printed)
}

// Does the day of these words print what is expected? An input is cut behind 131,072 bytes, an expected output behind 65,536.
fn agrees(rt: &impl Files, input: &str, expected: &str, room: Option<&str>) -> bool {
    let mut read: [u8; 131072] = day::room();
    let n = read_file(rt, input, &mut read);
    let mut printed: [u8; 65536] = day::room();
    let m = replay_with(&read[..n], room_of(room), &mut printed);
    let mut wanted: [u8; 65536] = day::room();
    let e = read_file(rt, expected, &mut wanted);
    printed.get(..m) == Some(&wanted[..e])
}

// Says it of the day of these words.
fn tell(
    rt: &(impl Files + Print),
    input: &str,
    expected: &str,
    room: Option<&str>,
) -> io::Result<()> {
    if agrees(rt, input, expected, room) {
        println!(rt; "{expected} agrees")
    } else {
        println!(rt; "{expected} differs")
    }
}

fn main(rt: HostRuntime) -> io::Result<()> {
    let words: Vec<String> = env::args(&rt)?.skip(1).collect(rt.alloc())?;
    for day in words.chunks(3) {
        match day {
            [input, expected, room] => {
                tell(&rt, input.as_str(), expected.as_str(), Some(room.as_str()))?;
            }
            [input, expected] => tell(&rt, input.as_str(), expected.as_str(), None)?,
            [input] => tell(&rt, input.as_str(), "", None)?,
            _ => {}
        }
    }
    Ok(())
}
