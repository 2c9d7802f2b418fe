// The check of a register's text (9), and of an old one.
#![tactic(auto, using(crate::specs::Sets::checking))]

ghost use Rattle.std.specs.Prelude.{◌≡◌, ◌+◌, ◌*◌, ◌≤◌, length};
ghost use Rattle.rules.specs.Text.{is_some};
ghost use Rattle.rules.specs.Register.{register, old_register};
ghost use Rattle.register.specs.Whole.{foreign_in, again_in, lines_test};

use crate::{ACCOUNT_LINE, CODE_LINE, FIRST_LINE};
use register_lines::{AccountLine, CodeLine, Section, first_line_passes, lines_from, put_marks};

// The longest text that passes: a first line, 40 account lines, 40 code lines and the last line.
pub const LONGEST: usize = 2949;

// Does an IBAN appear twice in the first line and the account lines?
fn iban_again(accounts: &Section<AccountLine>) -> bool
    requires first { 24 ≤ length accounts.now.text.now }
    requires place { accounts.now.at ≡ 24 }
    ensures { result ≡ again_in accounts.now.text.now accounts.now.count }
{
    accounts.has(&accounts.text[0..22]) || accounts.repeats()
}

// Is the account of one of the m code lines from a place on none of the account lines?
fn has_foreign(accounts: &Section<AccountLine>, at: usize, m: u32) -> bool
    requires place { accounts.now.at ≡ 24 }
    requires few { m ≤ 40 }
    requires room { at + 35 * m ≤ length accounts.now.text.now }
    ensures { result ≡ foreign_in accounts.now.text.now accounts.now.count at m }
{
    for k in 0..m {
        let a = at + (CODE_LINE * k) as usize + 11;
        if !accounts.has(&accounts.text[a..a + 22]) {
            return true;
        }
    }
    false
}

// Of n account lines and m code lines behind them, does each IBAN and each code appear a single time, and is no account foreign?
fn lines_pass(text: &[u8], n: u32, m: u32) -> bool
    requires accounts_few { n ≤ 40 }
    requires codes_few { m ≤ 40 }
    requires room { 24 + 38 * n + 35 * m ≤ length text.now }
    ensures { result ≡ lines_test text.now n m }
{
    let first = FIRST_LINE as usize;
    let mut marks = [0; 40];
    put_marks::<AccountLine>(text, first, n, &mut marks);
    let accounts = Section::<AccountLine>::new(text, first, n, &marks);
    if iban_again(&accounts) {
        return false;
    }
    let at = (FIRST_LINE + ACCOUNT_LINE * n) as usize;
    if has_foreign(&accounts, at, m) {
        return false;
    }
    put_marks::<CodeLine>(text, at, m, &mut marks);
    !Section::<CodeLine>::new(text, at, m, &marks).repeats()
}

// Does the text pass?
pub fn register_passes(text: &[u8]) -> bool
    ensures { result ≡ is_some (register text.now) }
{
    if !first_line_passes(text) {
        return false;
    }
    let n = lines_from::<AccountLine>(text, FIRST_LINE as usize);
    let at = FIRST_LINE + ACCOUNT_LINE * n;
    let m = lines_from::<CodeLine>(text, at as usize);
    if !text::equal(&text[(at + CODE_LINE * m) as usize..], b"END\r\n") {
        return false;
    }
    lines_pass(text, n, m)
}

// Does an old text pass: account lines alone behind its first line?
pub fn old_register_passes(text: &[u8]) -> bool
    ensures { result ≡ is_some (old_register text.now) }
{
    if !first_line_passes(text) {
        return false;
    }
    let n = lines_from::<AccountLine>(text, FIRST_LINE as usize);
    if text.len() != (FIRST_LINE + ACCOUNT_LINE * n) as usize {
        return false;
    }
    lines_pass(text, n, 0)
}
