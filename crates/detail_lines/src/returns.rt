// The MT103 of a returned detail.
ghost use Rattle.std.specs.Prelude.{◌≤◌, length};
ghost use Rattle.rules.specs.Messages.{past};
ghost use Rattle.rules.specs.Written.{return103};
ghost use Rattle.put.specs.Writes.{Writes};
ghost use Rattle.written.specs.Values.{book_of};
ghost use Rattle.forms.specs.Spans.{span_of, SpanIn};

use details::Kept;
use forms::behind;
use put::Writer;
use written::{Book, put_return};

// From what is kept of the detail, by the number of its return: 52D's lines and 50H's, behind their tags, as they stand in the message s.
pub fn put_detail_return(
    w: &mut Writer,
    book: Book,
    temporary: &[u8],
    n: u32,
    s: &[u8],
    detail: &Kept,
)
    requires in_bounds { 22 ≤ length temporary.now }
    requires branch_within { SpanIn s.now detail.now.branch }
    requires payer_within { SpanIn s.now detail.now.payer }
    ensures { Writes (return103 (book_of temporary.now book) n detail.now.amount (past ":52D:" (span_of s.now detail.now.branch)) (past ":50H:" (span_of s.now detail.now.payer))) w.old w.new }
{
    put_return(
        w,
        book,
        temporary,
        n,
        detail.amount,
        behind(detail.branch.of(s), 5),
        behind(detail.payer.of(s), 5),
    );
}
