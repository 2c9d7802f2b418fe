// Classes of bytes.
ghost use Rattle.std.specs.Prelude.{◌≡◌, ◌≤◌, ℕ, Bool, length};
ghost use Rattle.std.specs.List.{prefix_len};
ghost use Rattle.rules.specs.Text.{is_digit, is_letter, is_alnum, is_text, every, run};

// A class of bytes.
pub trait Class {
    ghost test: { ℕ → Bool };

    // Is the byte one of the class?
    fn has(c: u8) -> bool
        ensures { result ≡ test c };
}

// A digit, `n` in a pattern.
#[derive(Clone, Copy)]
pub struct Digit;

impl Class for Digit {
    ghost test = { is_digit };

    #[tactic(auto, unfolding(rules::specs::Text::is_digit))]
    fn has(c: u8) -> bool {
        c.is_ascii_digit()
    }
}

// A letter, A to Z, `a` in a pattern.
#[derive(Clone, Copy)]
pub struct Letter;

impl Class for Letter {
    ghost test = { is_letter };

    #[tactic(auto, unfolding(rules::specs::Text::is_letter))]
    fn has(c: u8) -> bool {
        c.is_ascii_uppercase()
    }
}

// A letter or digit, `c` in a pattern.
#[derive(Clone, Copy)]
pub struct Alnum;

impl Class for Alnum {
    ghost test = { is_alnum };

    #[tactic(auto, unfolding(rules::specs::Text::is_alnum))]
    fn has(c: u8) -> bool {
        Digit::has(c) || Letter::has(c)
    }
}

// A byte of a text, T: 32 to 255, never 125.
#[derive(Clone, Copy)]
pub struct Text;

impl Class for Text {
    ghost test = { is_text };

    #[tactic(auto, unfolding(rules::specs::Text::is_text))]
    fn has(c: u8) -> bool {
        32 <= c && c != 125
    }
}

// Are all bytes of the class?
pub fn is_all<C: Class>(s: &[u8]) -> bool
    ensures { result ≡ every C.test s.now }
{
    s.iter().all(|c| C::has(*c))
}

// How many of the bytes at the front are of the class.
pub fn leading<C: Class>(s: &[u8]) -> usize
    ensures count { result ≡ prefix_len C.test s.now }
    ensures within { result ≤ length s.now }
{
    s.iter().take_while(|c| C::has(**c)).count()
}

// Are there low to high bytes, each of the class?
#[tactic(auto, using(laws::specs::Tests::tests), unfolding(rules::specs::Text::run))]
pub fn is_run<C: Class>(low: usize, high: usize, s: &[u8]) -> bool
    ensures { result ≡ run C.test low high s.now }
{
    low <= s.len() && s.len() <= high && is_all::<C>(s)
}
