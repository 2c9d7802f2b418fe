// A detail kept.
ghost use Rattle.std.specs.Prelude.{◌≡◌};
ghost use Rattle.details.specs.Kept.{kept_of};

use forms::{DETAIL_21, DETAIL_50H, DETAIL_52D, DETAIL_59, DETAIL_BAEREF, Detail, Span};

// What is kept of a detail.
#[derive(Clone, Copy)]
pub struct Kept {
    // Its amount.
    pub amount: u64,
    // The line of field 21.
    pub reference: Span,
    // 50H's account line and its first three further lines.
    pub payer: Span,
    // 52D's lines.
    pub branch: Span,
    // 59's account line.
    pub account: Span,
    // The line of BAEREF.
    pub baeref: Span,
}

// The stretch from the beginning of one line up to that of another.
fn stretch(p: Span, q: Span) -> Span
    ensures { result ≡ record { start = p.start; end = q.start } }
{
    Span {
        start: p.start,
        end: q.start,
    }
}

impl From<Detail> for Kept {
    ghost from_gives = { λ d k. k ≡ kept_of d };

    fn from(d: Detail) -> Self {
        Kept {
            amount: d.amount,
            reference: d.spans[DETAIL_21],
            payer: stretch(d.spans[DETAIL_50H], d.spans[DETAIL_50H + 4]),
            branch: stretch(d.spans[DETAIL_52D], d.spans[DETAIL_52D + 2]),
            account: d.spans[DETAIL_59],
            baeref: d.spans[DETAIL_BAEREF],
        }
    }
}
