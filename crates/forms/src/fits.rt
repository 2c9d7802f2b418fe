// A line matched against a row of a form.
ghost use Rattle.std.specs.Prelude.{◌≡◌, ◌+◌, ◌≤◌};
ghost use Rattle.rules.specs.Forms.{text_line, fits_rest, fits_row};
ghost use Rattle.forms.specs.Table.{rest_of, row_of};

use crate::table::{HEADS, Rest, Row};
use text::{Alnum, Text, begins_as, is_run};

// Is it a text line T: 1 to 35 such bytes, the first neither `:` nor `-`?
#[tactic(auto, using(crate::specs::Fits::fitting))]
fn text_line(s: &[u8]) -> bool
    ensures { result ≡ text_line s.now }
{
    if s.is_empty() || s[0] == b':' || s[0] == b'-' {
        return false;
    }
    is_run::<Text>(1, 35, s)
}

// Does it fit behind a row's head? By an enum: a row of the table holds no pointer to a test.
#[tactic(auto, unfolding(rules::specs::Forms::fits_rest))]
fn rest_fits(rest: Rest, s: &[u8]) -> bool
    ensures { result ≡ fits_rest (rest_of rest) s.now }
{
    match rest {
        Rest::Nothing => s.is_empty(),
        Rest::Text => text_line(s),
        Rest::Reference => is_run::<Text>(1, 16, s),
        Rest::Account => is_run::<Text>(1, 34, s),
        Rest::Name => is_run::<Alnum>(1, 12, s),
        Rest::Sum => true,
    }
}

// Does the line fit the row? Kept apart: inlined, a message with 16 details takes 12,300 instructions more.
#[inline(never)]
pub fn row_fits(line: &[u8], row: Row) -> bool
    requires { row.start + row.size ≤ 186 }
    ensures { result ≡ fits_row (row_of row) line.now }
{
    let start = row.start as usize;
    let size = row.size as usize;
    begins_as(&HEADS[start..start + size], line) && rest_fits(row.rest, &line[size..])
}
