// The lines of a text matched against some rows of the table, one behind the other.
ghost use Rattle.std.specs.Prelude.{◌≡◌, ◌+◌, ◌<◌, ◌≤◌};
ghost use Rattle.forms.specs.Rows.{RowTaken, RowsTaken};

use crate::fits::row_fits;
use crate::table::row_at;
use lines::LineReader;

// A part of the message, within which it lies by a clause (`SpanIn`, `SpansWithin`). Its places in 16 bits and no slice, 4 bytes and not 16 on the card, whose stack holds many at once.
#[derive(Clone, Copy)]
pub struct Span {
    // The place of its first byte.
    pub start: u16,
    // The place behind its last byte.
    pub end: u16,
}

impl Span {
    ghost use Rattle.forms.specs.Spans.{SpanIs, SpanIn, span_of};
    ghost use Rattle.forms.specs.Fields.{Behind};

    // The part from a up to e.
    pub fn between(a: usize, e: usize) -> Span
        requires order { a ≤ e }
        requires small { e < 65536 }
        ensures { SpanIs a e result }
    {
        Span {
            start: a as u16,
            end: e as u16,
        }
    }

    // Its bytes in a text.
    #[tactic(auto, using(crate::specs::Spans::span_slice))]
    pub fn of(self, s: &[u8]) -> &[u8]
        requires { SpanIn s.now self }
        ensures { result.now ≡ span_of s.now self }
    {
        &s[self.start as usize..self.end as usize]
    }

    // The part behind its first k bytes.
    pub fn behind(self, k: u16) -> Span
        requires { self.start ≤ self.end }
        ensures { Behind self k result }
    {
        Span {
            start: self.start + k.min(self.end - self.start),
            end: self.end,
        }
    }
}

// What row k of the table takes of the text that the reader goes on with: its line, or the empty part where the row may be left out.
#[tactic(auto, using(crate::specs::Rows::no_line, crate::specs::Rows::line_left, crate::specs::Rows::line_other))]
fn take_row(reader: &mut LineReader, k: usize) -> Option<Span>
    requires { k < 40 }
    ensures { RowTaken reader.old reader.new k result }
{
    let row = row_at(k);
    let start = reader.at;
    let end = reader.peek()?;
    if row_fits(&reader.text[start..end], row) {
        reader.at = end + 2;
        return Some(Span::between(start, end));
    }
    if row.optional {
        return Some(Span::between(start, start));
    }
    None
}

// The lines to come against N rows of the table, from row first on: the reader is behind them then. A row that is left out has the empty part at its place.
#[tactic(auto, using(crate::specs::Rows::rows_start, crate::specs::Rows::rows_stop, crate::specs::Rows::row_taken, crate::specs::Rows::rows_on, crate::specs::Rows::rows_done))]
pub fn read_rows<const N: usize>(reader: &mut LineReader, first: usize) -> Option<[Span; N]>
    requires { first + N ≤ 40 }
    ensures { RowsTaken reader.old reader.new first N result }
{
    let mut spans = [Span { start: 0, end: 0 }; N];
    for i in 0..N {
        spans[i] = take_row(reader, first + i)?;
    }
    Some(spans)
}
