// Reads registers, `#NAME` and the text, which passes or falls under 9, and fields 59, `@FIELD` or `@FIELD|CODE`, which are judged by the register before them.
#![tactic(auto)]

ghost use Rattle.std.specs.Prelude.{◌≡◌, ◌+◌, length};

use register::Register;
use std::fmt;
use std::io::{self, Read};
use verdict::{Cause, Verdict};

// What stands before the first of some bytes, and what from there on.
fn until<'a>(s: &'a [u8], stops: &[u8]) -> (&'a [u8], &'a [u8])
    ensures { length result.0.now + length result.1.now ≡ length s.now }
{
    let n = s.iter().position(|c| stops.contains(c)).unwrap_or(s.len());
    s.split_at(n)
}

// The cause of a return, as it is printed.
#[derive(Clone, Copy)]
struct Said(Cause);

impl fmt::Display for Said {
    fn fmt<W: fmt::Write>(&self, f: &mut fmt::Formatter<W>) -> fmt::Result {
        match self.0 {
            Cause::WrongShape => write!(f, "shape"),
            Cause::WrongControl => write!(f, "control"),
            Cause::NotInRegister => write!(f, "not in the register"),
            Cause::OutOfBounds => write!(f, "outside its bounds"),
        }
    }
}

// A verdict, as it is printed.
#[derive(Clone, Copy)]
struct Judged(Verdict);

impl fmt::Display for Judged {
    fn fmt<W: fmt::Write>(&self, f: &mut fmt::Formatter<W>) -> fmt::Result {
        match self.0 {
            Verdict::Credited(i) => write!(f, "credited to line {i}"),
            Verdict::CreditedByCode(i, c) => {
                write!(
                    f,
                    "credited by its code to line {i}, not returned: {}",
                    Said(c)
                )
            }
            Verdict::Returned(c) => write!(f, "returned: {}", Said(c)),
        }
    }
}

// The verdict on the field on a line, and on the code behind its bar, where there is a register.
fn try_field(rt: &impl Print, text: &[u8], line: &[u8]) -> io::Result<()> {
    if let Some(register) = Register::of(text) {
        let (field, others) = until(line, b"|");
        let code = others.strip_prefix(b"|").unwrap_or(others);
        let v = verdict::judge(register, field);
        print!(rt; "{}", Judged(verdict::by_code(register, v, code)))?;
    } else {
        rt.write_all(b"no register")?;
    }
    rt.write_all(b"\n")
}

// Does the text pass?
fn try_text(rt: &impl Print, text: &[u8]) -> io::Result<()> {
    if register::register_passes(text) {
        rt.write_all(b"passes")?;
    } else {
        rt.write_all(b"9")?;
    }
    rt.write_all(b"\n")
}

// What the input asks, one after the other.
fn try_each(rt: &impl Print, s: &[u8]) -> io::Result<()> {
    let mut text: &[u8] = b"";
    let mut rest = s;
    while let Some((mark, behind)) = rest.split_first() {
        if *mark == b'\n' {
            return Ok(());
        }
        let (line, others) = until(behind, b"\n");
        let Some((_, next)) = others.split_first() else {
            return Ok(());
        };
        rt.write_all(line)?;
        rt.write_all(b" ")?;
        if *mark == b'#' {
            (text, rest) = until(next, b"#@");
            try_text(rt, text)?;
        } else {
            try_field(rt, text, line)?;
            rest = next;
        }
    }
    Ok(())
}

// All of the input. (Four lines in each of three programs: a crate for them would be no plainer.)
fn try_all(rt: &(impl Print + Input + AllocGlobal)) -> io::Result<()> {
    let mut text = Vec::new(rt.alloc());
    rt.reader().read_to_end(&mut text)?;
    try_each(rt, &text)
}

fn main(rt: HostRuntime) -> io::Result<()> {
    try_all(&rt)
}
