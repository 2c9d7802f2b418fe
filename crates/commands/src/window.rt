// Room made in a window of the input.
ghost use Rattle.std.specs.Prelude.{◌≡◌, ◌==◌, ◌≤◌, length, take_while};
ghost use Rattle.commands.specs.Seeking.{SeekingAt, NextLength, IdleAt};
ghost use Rattle.commands.specs.Window.{Roomed};

use crate::letter::letter_at;

// Where the first length begins on the line that w begins with.
#[tactic(auto, using(crate::specs::Seeking::seeking))]
fn first_length(w: &[u8]) -> Option<usize>
    ensures { SeekingAt w.now result }
{
    if letter_at(w).is_some() {
        return Some(2);
    }
    if text::begins_as(b"O,nnnnnn,", w) {
        return Some(9);
    }
    None
}

// Where the length behind the one at p begins. (A place of the window, as the answer is.)
fn next_length(w: &[u8], p: usize) -> Option<usize>
    requires { p ≤ length w.now }
    ensures { NextLength w.now p result }
{
    let e = p + text::leading::<text::Digit>(&w[p..]);
    if e < w.len() && w[e] == b',' {
        return Some(e + 1);
    }
    None
}

// Where the first length begins that begins with two zeros.
fn idle_place(w: &[u8]) -> Option<usize>
    ensures { IdleAt w.now result }
{
    let mut place = first_length(w);
    while let Some(p) = place {
        if text::begins_as(b"00", &w[p..]) {
            return Some(p);
        }
        place = next_length(w, p);
    }
    None
}

// How many zeros stand at the front.
fn zeros_at(part: &[u8]) -> usize
    ensures { result ≡ length (take_while (λ c. c == 48) part.now) }
{
    part.iter().take_while(|c| **c == b'0').count()
}

// Takes all zeros but one off the front of a length that the first n bytes have; answers how many bytes are left.
#[tactic(auto, using(crate::specs::Window::shortening))]
fn shorten(s: &mut [u8], n: usize) -> usize
    requires within { n ≤ length s.old }
    ensures { Roomed s.old 0 n result s.new }
{
    let Some(p) = idle_place(&s[..n]) else {
        return n;
    };
    let a = p + 1;
    let z = zeros_at(&s[a..n]);
    let m = n - a - z;
    put::move_bytes(s, a + z, a, m);
    a + m
}

// Moves the bytes from at up to n to the front and leaves out zeros that a length begins with; answers how many bytes are left.
#[tactic(auto, using(crate::specs::Window::room_made))]
pub fn make_room(s: &mut [u8], at: usize, n: usize) -> usize
    requires within { (at ≤ n) × (n ≤ length s.old) }
    ensures { Roomed s.old at n result s.new }
{
    put::move_bytes(s, at, 0, n - at);
    shorten(s, n - at)
}
