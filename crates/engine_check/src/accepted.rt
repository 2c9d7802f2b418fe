// The section of the references accepted today: each of the right form, in order and so distinct, and zeros behind them.
ghost use Rattle.std.specs.Prelude.{◌≡◌, ◌+◌, ◌≤◌, length};
ghost use Rattle.rules.specs.Area.{texts_place, record_size};
ghost use Rattle.engine_laws.specs.Tests.{text_fits, reference_test, filed_test, references_test};
ghost use Rattle.engine_laws.specs.Texts.{ended_fits};

use crate::header::all_zero;
use crate::records::section_holds;
use engine::layout::{FIRST_POSITION, FIRST_REFERENCE, SIZE, TEXT};
use engine::{filed_at, files_before};

// Are the first n of 16 bytes, a text's, a reference that 5 lets pass, with zeros behind them?
#[tactic(auto, using(crate::specs::References::ended_is, laws::specs::Slices::rest_whole))]
fn ended_fits(padded: &[u8], n: usize) -> bool
    requires size { length padded.now ≡ 16 }
    requires few { n ≤ 16 }
    ensures { result ≡ ended_fits padded.now 0 n }
{
    if n < 1 {
        return false;
    }
    if references::slashed(&padded[..n]) {
        return false;
    }
    all_zero(&padded[n..])
}

// Do 16 bytes hold a reference's text?
#[tactic(auto, using(crate::specs::References::text_told))]
fn text_fits(padded: &[u8]) -> bool
    requires { length padded.now ≡ 16 }
    ensures { result ≡ text_fits padded.now }
{
    ended_fits(padded, text::leading::<text::Text>(padded))
}

// Is the record there a bank's reference?
fn reference_fits(area: &[u8], p: usize) -> bool
    requires { p + record_size ≤ length area.now }
    ensures { result ≡ reference_test area.now p }
{
    if !account::is_bic(&area[p..p + 8]) {
        return false;
    }
    text_fits(&area[p + TEXT..p + SIZE])
}

// Does the record there stand before the next one?
#[tactic(auto, using(crate::specs::References::filed_told))]
fn stands_before(area: &[u8], p: usize) -> bool
    requires { p + record_size + record_size ≤ length area.now }
    ensures { result ≡ filed_test area.now p }
{
    let filed = filed_at(area, p);
    let next = filed_at(area, p + SIZE);
    files_before(filed, next)
}

// Does the section of n references pass?
#[tactic(auto, unfolding(engine_laws::specs::Tests::references_test))]
pub fn references_hold(area: &[u8], n: u32) -> bool
    requires n_bound { n ≤ 64 }
    requires texts_place_in_bounds { texts_place ≤ length area.now }
    ensures { result ≡ references_test area.now n }
{
    section_holds(
        area,
        FIRST_REFERENCE,
        FIRST_POSITION,
        n,
        |p| reference_fits(area, p),
        |p| stands_before(area, p),
    )
}
