// A register's text that passed, and the search in it.
#![tactic(auto, using(crate::specs::Sets::seeking))]

ghost use Rattle.std.specs.Prelude.{◌≡◌, MatchOption, true, false, ◌+◌, ◌*◌, ◌<◌, length};
ghost use Rattle.rules.specs.Text.{is_some};
ghost use Rattle.rules.specs.Register.{register, register_of};
ghost use Rattle.rules.specs.Verdict.{found, account_at, line_by_code};
ghost use Rattle.rules.specs.Moves.{has_codes};
ghost use Rattle.laws.specs.Parts.{cut};
ghost use Rattle.laws.specs.Told.{told};
ghost use Rattle.register.specs.Searching.{AccountCount, CodesOf};

use crate::check::register_passes;
use crate::{ACCOUNT_LINE, CODE_LINE, FIRST_LINE};
use register_lines::bound;
use text::equal_backward;

// A register's text that passed. An account line is named by its number, which is below how many there are by a clause: a verdict that is kept has it in a byte.
#[derive(Clone, Copy)]
pub struct Register<'a> {
    // The text.
    pub text: &'a [u8],
    ghost passes: { is_some (register text.now) ≡ true },
}

// The code lines of a register.
#[derive(Clone, Copy)]
struct Codes {
    // Where the first begins.
    at: u32,
    // How many there are.
    lines: u32,
}

impl<'a> Register<'a> {
    // The register of a text that passes.
    pub fn passed(text: &'a [u8]) -> Register<'a>
        requires { is_some (register text.now) ≡ true }
        ensures { result.text.now ≡ text.now }
    {
        Register { text }
    }

    // The register of a text, if it passes.
    pub fn of(text: &'a [u8]) -> Option<Register<'a>>
        ensures { MatchOption result (is_some (register text.now) ≡ false) (λ r. r.text.now ≡ text.now) }
    {
        if register_passes(text) {
            return Some(Register::passed(text));
        }
        None
    }

    // The temporary account, with which the text begins.
    #[tactic(auto, using(crate::specs::Passed::text_first, crate::specs::Sets::seeking))]
    pub fn temporary(self) -> &'a [u8]
        ensures account { result.now ≡ (register_of self.entry.text.now).temporary }
        ensures size { length result.now ≡ 22 }
    {
        &self.text[..22]
    }

    // How many account lines there are. From the last line back, by the width of a code line while one stands there, and no place is counted: behind the ten digits of a code line stands a comma, where an account line has a letter or digit.
    fn account_count(self) -> u32
        ensures { AccountCount self.entry.text.now result }
    {
        let mut end = self.text.len() as u32;
        while end > 29 {
            if self.text[(end - 30) as usize] == b',' {
                end -= CODE_LINE;
            } else {
                return ((end - 29) as u16 / 38) as u32;
            }
        }
        0
    }

    // Account line i, counted from 0.
    fn account_line(self, i: usize) -> &'a [u8]
        requires { i < length (register_of self.text.now).accounts }
        ensures line { result.now ≡ cut self.entry.text.now (24 + 38 * i) (24 + 38 * i + 38) }
        ensures size { length result.now ≡ 38 }
    {
        let place = (FIRST_LINE + ACCOUNT_LINE * i as u32) as usize;
        &self.text[place..place + 38]
    }

    // Its IBAN.
    pub fn iban(self, i: usize) -> &'a [u8]
        requires { i < length (register_of self.text.now).accounts }
        ensures account { result.now ≡ (account_at (register_of self.entry.text.now) i).iban }
        ensures size { length result.now ≡ 22 }
    {
        &self.account_line(i)[..22]
    }

    // Its bounds, the low one and the high one.
    pub fn bounds(self, i: usize) -> (u64, u64)
        requires { i < length (register_of self.text.now).accounts }
        ensures low { result.0 ≡ (account_at (register_of self.entry.text.now) i).low }
        ensures high { result.1 ≡ (account_at (register_of self.entry.text.now) i).high }
    {
        let line = self.account_line(i);
        (bound(&line[23..29]), bound(&line[30..36]))
    }

    // The account line of an IBAN, counted from 0. It is compared from the last byte on, where IBANs of one bank differ: `==` of slices begins with the first.
    pub fn find_account(self, iban: &[u8]) -> Option<u8>
        requires { length iban.now ≡ 22 }
        ensures { told result ≡ found iban.now 0 (register_of self.entry.text.now).accounts }
    {
        for i in 0..self.account_count() {
            if equal_backward(self.iban(i as usize), iban) {
                return Some(i as u8);
            }
        }
        None
    }

    // The code lines, behind all account lines. (The last line is shorter than one of them.)
    fn codes(self) -> Codes
        ensures { CodesOf self.entry.text.now result.at result.lines }
    {
        let at = FIRST_LINE + ACCOUNT_LINE * self.account_count();
        Codes {
            at,
            lines: ((self.text.len() as u32 - at) as u16 / 35) as u32,
        }
    }

    // Does the register have code lines?
    pub fn has_codes(self) -> bool
        ensures { result ≡ has_codes (register_of self.entry.text.now) }
    {
        self.codes().lines >= 1
    }

    // The account line to which a code leads, counted from 0.
    pub fn find_code(self, code: &[u8]) -> Option<u8>
        ensures { told result ≡ line_by_code (register_of self.entry.text.now) code.now }
    {
        if code.len() != 10 {
            return None;
        }
        let codes = self.codes();
        for j in 0..codes.lines {
            let place = (codes.at + CODE_LINE * j) as usize;
            if equal_backward(&self.text[place..place + 10], code) {
                return self.find_account(&self.text[place + 11..place + 33]);
            }
        }
        None
    }
}
