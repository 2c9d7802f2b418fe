// A detail of an MT101.
ghost use Rattle.forms.specs.Details.{DetailTaken};

use crate::fields::{amount_in, date_in};
use crate::names::{DETAIL_32B, DETAIL_BAEREF, DETAIL_CENTRB, DETAIL_ROWS, TRANSFER_ROWS};
use crate::rows::{Span, read_rows};
use lines::LineReader;

// A detail as it is read.
#[derive(Clone, Copy)]
pub struct Detail {
    // 70's CENTRB date.
    pub date: u64,
    // 32B's amount.
    pub amount: u64,
    // Its lines by rows.
    pub spans: [Span; DETAIL_ROWS],
}

// The detail to come: the reader is behind it then.
pub fn read_detail(reader: &mut LineReader) -> Option<Detail>
    ensures { DetailTaken reader.old reader.new result }
{
    let text = reader.text;
    let spans = read_rows(reader, TRANSFER_ROWS)?;
    let amount = amount_in(spans[DETAIL_32B].of(text), 8)?;
    let date = date_in(spans[DETAIL_CENTRB].of(text), 10)?;
    date_in(spans[DETAIL_BAEREF].of(text), 6)?;
    Some(Detail {
        date: date as u64,
        amount,
        spans,
    })
}
