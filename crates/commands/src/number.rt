// Days and lengths of command lines.
ghost use Rattle.std.specs.Prelude.{◌≡◌, ◌==◌, ◌≤◌, length, position};
ghost use Rattle.rules.specs.Replay.{length_of, parted_lengths, six_digits};
ghost use Rattle.laws.specs.Told.{told};
ghost use Rattle.commands.specs.Numbers.{bytes_in, lengths_in, room_of};

use crate::room::Room;
use text::{Class, Digit};

// A length: one or more digits, at most 8192.
#[tactic(auto, using(crate::specs::Numbers::numbers))]
pub fn read_length(part: &[u8]) -> Option<u64>
    ensures { told result ≡ length_of part.now }
{
    if part.is_empty() {
        return None;
    }
    let mut n: u64 = 0;
    for &c in part {
        if !Digit::has(c) {
            return None;
        }
        n = n * 10 + (c - 48) as u64;
        if n > 8192 {
            return None;
        }
    }
    Some(n)
}

// Where the first comma stands.
fn comma_at(part: &[u8]) -> Option<usize>
    ensures { result ≡ position (λ c. c == 44) part.now }
{
    part.iter().position(|&c| c == b',')
}

// Two lengths with a comma between them: the register's and the holiday list's.
#[tactic(auto, using(crate::specs::Numbers::both_lengths))]
pub fn two_lengths(part: &[u8]) -> Option<(u64, u64)>
    ensures { lengths_in result ≡ parted_lengths 2 part.now }
{
    let k = comma_at(part)?;
    let m = read_length(&part[..k])?;
    let n = read_length(&part[k + 1..])?;
    Some((m, n))
}

// A day: six digits.
#[tactic(auto, using(crate::specs::Numbers::numbers))]
pub fn six_digits(part: &[u8]) -> Option<u64>
    ensures { told result ≡ six_digits part.now }
{
    if part.len() != 6 {
        return None;
    }
    text::read_digits(part)
}

// The room that one to seven digits are, of 1,048,576 bytes at most.
pub fn read_room(part: &[u8]) -> Option<Room>
    ensures { bytes_in result ≡ room_of part.now }
{
    if part.is_empty() || part.len() > 7 {
        return None;
    }
    let room = text::read_digits(part)?;
    if room > 1048576 {
        return None;
    }
    Some(Room {
        bytes: room as usize,
    })
}
