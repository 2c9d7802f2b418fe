// The two forms of the lines behind the first, and how many of one form stand one behind the other.
ghost use Rattle.std.specs.Prelude.{◌≡◌, Bool, List, ℕ, ◌+◌, ◌≤◌, length};
ghost use Rattle.register_lines.specs.Places.{account_stands, code_stands};
ghost use Rattle.register_lines.specs.Forms.{FormOf, account_form_of, code_form_of};
ghost use Rattle.register_lines.specs.Counts.{LinesFrom};

use crate::lines::{are_bounds, in_order, is_end};
use text::{Alnum, Digit, is_all};

// A form of lines.
pub trait LineForm {
    // How many bytes a line has.
    ghost WIDTH: { ℕ };

    const WIDTH: u32;

    // By how many of its first bytes it is told from others.
    ghost KEY: { ℕ };

    const KEY: u32;

    // Does a line stand at a place of a text?
    ghost standing: { List ℕ → ℕ → Bool };

    // Is it a line?
    fn stands(line: &[u8]) -> bool
        requires { length line.now ≡ WIDTH }
        ensures { result ≡ standing line.now 0 };

    ghost form: { FormOf WIDTH KEY standing };
}

// `IBAN,low,high`, told from others by its IBAN.
#[derive(Clone, Copy)]
pub struct AccountLine;

impl LineForm for AccountLine {
    const WIDTH: u32 = 38;

    ghost WIDTH = { 38 };

    const KEY: u32 = 22;

    ghost KEY = { 22 };

    ghost standing = { account_stands };

    // An IBAN that passes, its bounds, its end, low at most high?
    #[tactic(auto, using(crate::specs::Sets::lining))]
    fn stands(line: &[u8]) -> bool {
        if !account::iban_passes(&line[..22]) {
            return false;
        }
        if !are_bounds(&line[22..36]) {
            return false;
        }
        if !is_end(&line[36..38]) {
            return false;
        }
        in_order(&line[22..36])
    }

    ghost form = { account_form_of };
}

// `code,IBAN`, told from others by its code.
#[derive(Clone, Copy)]
pub struct CodeLine;

impl LineForm for CodeLine {
    const WIDTH: u32 = 35;

    ghost WIDTH = { 35 };

    const KEY: u32 = 10;

    ghost KEY = { 10 };

    ghost standing = { code_stands };

    // Ten digits, a comma, 22 letters or digits, its end?
    #[tactic(auto, using(crate::specs::Sets::lining))]
    fn stands(line: &[u8]) -> bool {
        if !is_all::<Digit>(&line[..10]) {
            return false;
        }
        if line[10] != b',' {
            return false;
        }
        if !is_all::<Alnum>(&line[11..33]) {
            return false;
        }
        is_end(&line[33..35])
    }

    ghost form = { code_form_of };
}

// Does a text begin with a line of the form?
fn line_begins<F: LineForm>(rest: &[u8]) -> bool
    ensures { result ≡ F.standing rest.now 0 }
{
    rest.len() >= F::WIDTH as usize && F::stands(&rest[..F::WIDTH as usize])
}

// How many lines of the form stand at a place one behind the other, 40 at most. (A place of the text and not what is left of it: where lines stand in a register is told by places.)
pub fn lines_from<F: LineForm>(text: &[u8], at: usize) -> u32
    requires { at ≤ length text.now }
    ensures { LinesFrom F.standing F.WIDTH text.now at result }
{
    let mut place = at;
    for i in 0..40u32 {
        if !line_begins::<F>(&text[place..]) {
            return i;
        }
        place += F::WIDTH as usize;
    }
    40
}
