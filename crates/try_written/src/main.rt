// Writes texts of worked days: the listing's posting lines, a turn that collects and refunds, the rows around the returned details of an MT199, and returns.
#![tactic(auto)]

ghost use Rattle.std.specs.Prelude.{◌≤◌, ◌<◌, length};

use outgoing_number::Reference;
use position::{Key, Position};
use put::Writer;
use std::io;
use written::Book;

// What is written.
fn say(rt: &impl Print, w: &Writer) -> io::Result<()> {
    if let Some(text) = w.out.get(..w.at) {
        rt.write_all(text)?;
    }
    Ok(())
}

// What the posting lines of a call share, by the bank's BIC.
fn book_of(day: u32, bic: [u8; 8], date: u32) -> Book {
    Book {
        day,
        key: Key {
            bank: u64::from_be_bytes(bic),
            date,
        },
    }
}

// Transfer, credit and return of the listing.
fn try_postings(rt: &impl Print) -> io::Result<()> {
    let mut out = [0u8; 256];
    let mut w = Writer::new(&mut out);
    let book = book_of(60302, *b"AAAABGSF", 60302);
    written::put_from_bank(&mut w, book, b"BG80BNBG96611020345678", 10000);
    written::put_to_account(
        &mut w,
        book,
        b"BG80BNBG96611020345678",
        b"BG56BNBG96613000000001",
        6000,
    );
    written::put_to_bank(&mut w, book, b"BG80BNBG96611020345678", 5400);
    say(rt, &w)
}

// A turn to 040607.
fn try_turn(rt: &impl Print) -> io::Result<()> {
    let mut out = [0u8; 1024];
    let mut w = Writer::new(&mut out);
    let bank = u64::from_be_bytes(*b"ZHSRPL8S");
    let p = Position {
        key: Key { bank, date: 40305 },
        transferred: 0,
        detailed: 106935,
    };
    let q = Position {
        key: Key { bank, date: 40508 },
        transferred: 766367971,
        detailed: 2,
    };
    written::put_correction_posting(&mut w, 40607, b"BG18BNBG96611633648985", p);
    written::put_correction_posting(&mut w, 40607, b"BG18BNBG96611633648985", q);
    let r = Reference {
        day: 40607,
        number: 1,
    };
    written::put_correction(&mut w, r, b"BG18BNBG96611633648985", p);
    let s = Reference {
        day: 40607,
        number: 2,
    };
    written::put_correction(&mut w, s, b"BG18BNBG96611633648985", q);
    say(rt, &w)
}

// An MT199 without its details: the last part of those that begin with a number.
fn say_part(
    rt: &impl Print,
    bank: &[u8; 8],
    r: Reference,
    first: u32,
    part: u32,
    transferred: u64,
    detailed: u64,
) -> io::Result<()>
    requires { 0 < first }
{
    let mut out = [0u8; 256];
    let mut w = Writer::new(&mut out);
    written::put_opened199(&mut w, r, first, u64::from_be_bytes(*bank), part);
    written::put_position79(&mut w, r.day, transferred, detailed);
    written::put_closed79(&mut w, part, part);
    say(rt, &w)
}

// The listing's MT199, without its returned detail.
fn try_only_part(rt: &impl Print) -> io::Result<()> {
    let r = Reference {
        day: 60302,
        number: 1,
    };
    say_part(rt, b"AAAABGSF", r, 1, 1, 10000, 11400)
}

// The second part of an MT199 whose first is 000003.
fn try_second_part(rt: &impl Print) -> io::Result<()> {
    let r = Reference {
        day: 51108,
        number: 4,
    };
    say_part(rt, b"FBBMXFIK", r, 3, 2, 0, 39876122005479)
}

// A return, by its number and amount and the lines of 52D and 50H.
fn say_return(
    rt: &impl Print,
    book: Book,
    temporary: &[u8],
    n: u32,
    v: u64,
    lines52d: &[u8],
    lines50h: &[u8],
) -> io::Result<()>
    requires { 22 ≤ length temporary.now }
{
    let mut out = [0u8; 512];
    let mut w = Writer::new(&mut out);
    written::put_return(&mut w, book, temporary, n, v, lines52d, lines50h);
    say(rt, &w)
}

// The return of the listing.
fn try_return(rt: &impl Print) -> io::Result<()> {
    let book = book_of(60302, *b"AAAABGSF", 60302);
    say_return(
        rt,
        book,
        b"BG80BNBG96611020345678",
        2,
        5400,
        b"AAAA1231\r\nBANKA A\r\n",
        b"/BG33AAAA12311012345678PAY000001\r\nPREDPRIATIE\r\n",
    )
}

// Five stotinki, returned on a later day than the centralisation date, from another temporary account, to a payer of three further lines.
fn try_small_return(rt: &impl Print) -> io::Result<()> {
    let book = book_of(40607, *b"ZHSRPL8S", 40305);
    say_return(
        rt,
        book,
        b"BG40CCCC111110ABCDEFGH",
        19,
        5,
        b"ZHSR0000\r\nKLON\r\n",
        b"/BG33AAAA12311012345678PAY000001\r\nIME\r\nULICA 1\r\nSOFIA\r\n",
    )
}

// The largest amount of 15 characters, to a branch and a payer whose lines have bytes up to 255.
fn try_large_return(rt: &impl Print) -> io::Result<()> {
    let book = book_of(51108, *b"FBBMXFIK", 51107);
    say_return(
        rt,
        book,
        b"BG18BNBG96611633648985",
        1184,
        9999999999999900,
        b"FBBM1234\r\n\x80\xc1\xff\r\n",
        b"/BG33AAAA12311012345678PAY999999\r\n\xff \xe0\r\n",
    )
}

fn main(rt: HostRuntime) -> io::Result<()> {
    try_postings(&rt)?;
    try_turn(&rt)?;
    try_only_part(&rt)?;
    try_second_part(&rt)?;
    try_return(&rt)?;
    try_small_return(&rt)?;
    try_large_return(&rt)
}
