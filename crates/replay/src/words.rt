// The words of the command line.
use commands::Room;
use std::env::{Env, FillError};

// Is there a word at i? The program's name is at 0: it may be no UTF-8, and `env::args` would fail on it.
fn has_word(rt: &impl Env, i: usize) -> bool {
    let mut word = [0u8; 16];
    !matches!(rt.arg(i, &mut word), Err(FillError::NotPresent))
}

// Is the first word `--room`?
fn says_room(rt: &impl Env) -> bool {
    let mut word = [0u8; 16];
    let Ok(n) = rt.arg(1, &mut word) else {
        return false;
    };
    &word[..n] == b"--room".as_slice()
}

// The room that the second word is.
fn room_word(rt: &impl Env) -> Option<Room> {
    let mut word = [0u8; 16];
    let n = rt.arg(2, &mut word).ok()?;
    commands::read_room(&word[..n])
}

// The room that the words ask for, 32,768 bytes where there are none, and no room where they say something else.
pub fn asked_room(rt: &impl Env) -> Option<Room> {
    if !has_word(rt, 1) {
        return Some(Room { bytes: 32768 });
    }
    if has_word(rt, 3) || !says_room(rt) {
        return None;
    }
    room_word(rt)
}
