// The parts of an MT199 around the rows of returned details.
ghost use Rattle.std.specs.Prelude.{◌++◌, ◌-◌, ◌<◌};
ghost use Rattle.rules.specs.Text.{ascii};
ghost use Rattle.rules.specs.Written.{reference, first_line, field, linked, position79, closed79};
ghost use Rattle.put.specs.Writes.{Writes};

use crate::fields::{put_field, put_opened};
use crate::shown::{Amount, Date};
use outgoing_number::Reference;
use put::Writer;

// Field 21, from part 2 on: part 1's reference, by its number.
fn put_linked(w: &mut Writer, first: Reference, part: u32)
    requires { 0 < first.number }
    ensures { Writes (linked first.day (first.number - 1) part) w.old w.new }
{
    if part < 2 {
        return;
    }
    put_field(w, b":21:", first);
}

// First line, field 20 with the part's own number, and field 21 with that of part 1.
pub fn put_opened199(w: &mut Writer, r: Reference, first: u32, bank: u64, part: u32)
    requires { 0 < first }
    ensures { Writes (first_line (ascii "199") bank ++ field (ascii ":20:") (reference r.day r.number) ++ linked r.day (first - 1) part) w.old w.new }
{
    put_opened(w, b"199", bank);
    put_field(w, b":20:", r);
    let first = Reference {
        day: r.day,
        number: first,
    };
    put_linked(w, first, part);
}

// The rows of 79 before the returned details.
pub fn put_position79(w: &mut Writer, date: u32, transferred: u64, detailed: u64)
    ensures { Writes (position79 date transferred detailed) w.old w.new }
{
    put_field(w, b":79:/CENTRB/", Date(date));
    put_field(
        w,
        b"",
        Amount {
            mark: b',',
            stotinki: transferred,
        },
    );
    put_field(
        w,
        b"",
        Amount {
            mark: b',',
            stotinki: detailed,
        },
    );
    let size = transferred.abs_diff(detailed);
    put_field(
        w,
        b"",
        Amount {
            mark: b',',
            stotinki: size,
        },
    );
    w.put_bytes(b"NEKOREKTNI SMETKI\r\n");
}

// The row part/parts, and the closing line.
pub fn put_closed79(w: &mut Writer, part: u32, parts: u32)
    ensures { Writes (closed79 part parts) w.old w.new }
{
    w.put_decimal(part as u64);
    w.put_byte(b'/');
    w.put_decimal(parts as u64);
    w.put_bytes(b"\r\n-\r\n");
}
