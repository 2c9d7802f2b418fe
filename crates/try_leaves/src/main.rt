// Reads lines KIND=TEXT and writes each with what the text is: d a date, n a day's number, a an amount, i an IBAN, b a BIC.
#![tactic(auto)]

use std::io::{self, Read};

// A number that was read, or none.
fn say_number(rt: &impl Print, r: Option<u64>) -> io::Result<()> {
    match r {
        Some(v) => print!(rt; "{v}"),
        None => print!(rt; "none"),
    }
}

// A date: six digits.
fn try_date(rt: &impl Print, s: &[u8]) -> io::Result<()> {
    say_number(rt, calendar::read_date(s).map(|n| n as u64))
}

// The number of a day, as it is handed to a call.
fn try_day(rt: &impl Print, s: &[u8]) -> io::Result<()> {
    if s.len() <= 18 {
        if let Some(n) = text::read_digits(s) {
            if let Ok(day) = u32::try_from(n) {
                return print!(rt;
                    "{}",
                    if calendar::exists(day) {
                        "exists"
                    } else {
                        "none"
                    }
                );
            }
        }
    }
    Ok(())
}

// Of an IBAN: it passes, or the first of shape and control that does not hold.
fn iban_says(s: &[u8]) -> &'static str {
    if s.len() != 22 {
        return "shape";
    }
    if account::iban_passes(s) {
        if account::iban_shape(s) {
            "passes"
        } else {
            "passes, and no shape"
        }
    } else if !account::iban_shape(s) {
        "shape"
    } else if account::iban_control(s) {
        "control holds, and does not pass"
    } else {
        "control"
    }
}

// Of a BIC: eight characters.
fn bic_says(s: &[u8]) -> &'static str {
    if account::is_bic(s) { "bic" } else { "none" }
}

// A text, by its kind: the letter that stands in front of it in the input.
fn try_text(rt: &impl Print, kind: u8, s: &[u8]) -> io::Result<()> {
    match kind {
        b'd' => try_date(rt, s),
        b'n' => try_day(rt, s),
        b'a' => say_number(rt, money::read_amount(s)),
        b'i' => print!(rt; "{}", iban_says(s)),
        b'b' => print!(rt; "{}", bic_says(s)),
        _ => Ok(()),
    }
}

// A line, and behind it what its text is.
fn try_line(rt: &impl Print, line: &[u8]) -> io::Result<()> {
    rt.write_all(line)?;
    rt.write_all(b" ")?;
    if 2 <= line.len() {
        try_text(rt, line[0], &line[2..])?;
    }
    rt.write_all(b"\n")
}

// Each line of the input.
fn try_lines(rt: &impl Print, s: &[u8]) -> io::Result<()> {
    for line in s.split_inclusive(|c| *c == b'\n') {
        if let Some(text) = line.strip_suffix(b"\n") {
            try_line(rt, text)?;
        }
    }
    Ok(())
}

// All of the input. (Four lines in each of three programs: a crate for them would be no plainer.)
fn try_all(rt: &(impl Print + Input + AllocGlobal)) -> io::Result<()> {
    let mut text = Vec::new(rt.alloc());
    rt.reader().read_to_end(&mut text)?;
    try_lines(rt, &text)
}

fn main(rt: HostRuntime) -> io::Result<()> {
    try_all(&rt)
}
