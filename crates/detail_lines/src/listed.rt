// The rows of the details that the MT199 lists.
ghost use Rattle.std.specs.Prelude.{◌≤◌, length};
ghost use Rattle.detail_lines.specs.Listed.{LinesIn, RowsPut};

use crate::rows::put_listed_rows;
use put::Writer;
use verdict::Judged;

// The rows of the listed of the details of the message s, from detail `first` on, `most` of them at most. Answers the detail that is the first of those left, by its number: a slice that is handed on would be told anew whose details it holds. The message and what is kept stand by themselves: `Details` would ask for more than the lines that are written.
#[tactic(auto, using(crate::specs::Listed::rows_full, crate::specs::Listed::rows_end))]
pub fn put_listed(w: &mut Writer, s: &[u8], kept: &[Judged], first: usize, most: u32) -> usize
    requires lines_in { LinesIn s.now kept.now }
    requires first_within { first ≤ length kept.now }
    ensures { RowsPut s.now kept.now first most w.old result w.new }
{
    let mut left = most;
    for i in first..kept.len() {
        if left == 0 {
            return i;
        }
        let j = &kept[i];
        if j.verdict().is_listed() {
            put_listed_rows(
                w,
                j.detail.branch.of(s),
                j.detail.account.of(s),
                j.detail.baeref.of(s),
            );
            left -= 1;
        }
    }
    kept.len()
}
