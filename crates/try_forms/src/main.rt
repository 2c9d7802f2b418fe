// Reads messages, `@NAME` and the bytes up to the next `@`, and writes for each the lowest number of 1 to 8 that stops it, or 0 and its parts.
#![tactic(auto)]

use conditions::Booking;
use forms::{DETAIL_21, Span};
use lines::{LineReader, Message};
use refusal::Refusal;
use register::Register;
use std::io::{self, Read};
use verdict::{Judged, NO_DETAIL};

// A part of the message. (`Span::of` asks that it lies within, which nothing says here.)
fn say_part(rt: &impl Print, s: &[u8], p: Span) -> io::Result<()> {
    if let Some(part) = s.get(p.start as usize..p.end as usize) {
        rt.write_all(b" ")?;
        rt.write_all(part)?;
    }
    Ok(())
}

// The details that the reader comes to: field 21's line, and the amount that is kept.
fn say_details(rt: &impl Print, reader: &mut LineReader, kept: &[Judged]) -> io::Result<()> {
    for judged in kept {
        let text = reader.text;
        let Some(d) = forms::read_detail(reader) else {
            return Ok(());
        };
        say_part(rt, text, d.spans[DETAIL_21])?;
        print!(rt; " {}", judged.detail.amount)?;
    }
    Ok(())
}

// The reader of an MT101 behind its field 20, where the details begin.
fn behind_field_20(s: &[u8]) -> Option<LineReader<'_>> {
    let mut reader = Message::framed(s)?.body();
    forms::read_rows::<1>(&mut reader, 0)?;
    Some(reader)
}

// The answer of the check, and the details that it kept.
fn say_checked(
    rt: &impl Print,
    s: &[u8],
    r: Result<Booking, Refusal>,
    kept: &[Judged; 16],
) -> io::Result<()> {
    match r {
        Err(refusal) => print!(rt; " {}", refusal.number()),
        Ok(b) => {
            print!(rt; " 0")?;
            say_part(rt, s, b.reference)?;
            print!(rt; " {} {}", b.key.date, b.amount)?;
            let n = kept.len().min(b.count() as usize);
            match behind_field_20(s) {
                Some(mut reader) => say_details(rt, &mut reader, &kept[..n]),
                None => Ok(()),
            }
        }
    }
}

// A message to the card with the register of a text.
fn say_message(rt: &impl Print, s: &[u8], text: &[u8]) -> io::Result<()> {
    let mut kept = [NO_DETAIL; 16];
    if let Some(register) = Register::of(text) {
        let r = conditions::check_message(s, register, &mut kept);
        say_checked(rt, s, r, &kept)?;
    }
    Ok(())
}

// A message to the card whose temporary account is BG80BNBG96611020345678.
fn try_message(rt: &impl Print, s: &[u8]) -> io::Result<()> {
    say_message(rt, s, b"BG80BNBG96611020345678\r\nEND\r\n")?;
    rt.write_all(b"\n")
}

// Each message of the input.
fn try_each(rt: &impl Print, s: &[u8]) -> io::Result<()> {
    let mut rest = s;
    while let Some(e) = rest.iter().position(|c| *c == b'\n') {
        if e == 0 {
            return Ok(());
        }
        rt.write_all(&rest[1..e])?;
        let behind = &rest[e + 1..];
        let n = behind
            .iter()
            .position(|c| *c == b'@')
            .unwrap_or(behind.len());
        try_message(rt, &behind[..n])?;
        rest = &behind[n..];
    }
    Ok(())
}

// All of the input. (Four lines in each of three programs: a crate for them would be no plainer.)
fn try_all(rt: &(impl Print + Input + AllocGlobal)) -> io::Result<()> {
    let mut text = Vec::new(rt.alloc());
    rt.reader().read_to_end(&mut text)?;
    try_each(rt, &text)
}

fn main(rt: HostRuntime) -> io::Result<()> {
    try_all(&rt)
}
