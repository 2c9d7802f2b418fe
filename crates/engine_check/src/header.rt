// Numbers and zeros of an area, and its header.
ghost use Rattle.std.specs.Prelude.{◌≡◌, ◌&&◌, ◌+◌, ◌*◌, ◌≤◌, length};
ghost use Rattle.rules.specs.Text.{every, equal};
ghost use Rattle.rules.specs.Area.{mark, currency_place, lengths_place, references_place, day_place};
ghost use Rattle.laws.specs.Parts.{cut};
ghost use Rattle.engine_laws.specs.Tests.{is_zero, counts_test, text_count, header_test};
ghost use Rattle.engine.specs.Header.{HeaderAt};

use engine::Header;
use engine::layout::{CURRENCY, DAY, FIRST_REFERENCE, LENGTHS, NO_LENGTHS};

// Are eight bytes zero?
fn eight_zero(eight: &[u8; 8]) -> bool
    ensures { result ≡ every is_zero eight.now }
{
    let [a, b, c, d, e, f, g, h] = *eight;
    (a | b | c | d) | (e | f | g | h) == 0
}

// Is each byte zero? Eight by eight: with byte by byte a message of 1 byte to an engine that has just been opened takes six times the time.
pub fn all_zero(s: &[u8]) -> bool
    ensures { result ≡ every is_zero s.now }
{
    let (eights, rest) = s.as_chunks::<8>();
    for eight in eights {
        if !eight_zero(eight) {
            return false;
        }
    }
    rest.iter().all(|&c| c == 0)
}

// Are the outgoing count and the numbers of positions and references within their limits?
#[tactic(auto, unfolding(engine_laws::specs::Tests::counts_test))]
fn counts_fit(h: Header) -> bool
    ensures { result ≡ counts_test h.count h.positions h.references }
{
    if h.references > 64 {
        return false;
    }
    if h.positions > 32 {
        return false;
    }
    h.count <= 32 + 18 * h.references
}

// Does the mark stand there?
#[tactic(auto, unfolding(laws::specs::Parts::cut))]
fn mark_stands(area: &[u8]) -> bool
    requires { references_place ≤ length area.now }
    ensures { result ≡ equal (cut area.now 0 day_place) mark }
{
    text::equal(&area[..DAY], b"RC")
}

// Are the currency and the lengths behind those of the texts zero?
fn unused_zero(area: &[u8]) -> bool
    requires { references_place ≤ length area.now }
    ensures { result ≡ (every is_zero (cut area.now currency_place lengths_place) && every is_zero (cut area.now (lengths_place + 2 * text_count) references_place)) }
{
    all_zero(&area[CURRENCY..LENGTHS]) && all_zero(&area[NO_LENGTHS..FIRST_REFERENCE])
}

// Does the header pass?
#[tactic(auto, using(crate::specs::Read::day_read, crate::specs::Read::counts_read), unfolding(engine_laws::specs::Tests::header_test))]
pub fn header_holds(area: &[u8], h: Header) -> bool
    requires references_place_in_bounds { references_place ≤ length area.now }
    requires header_at { HeaderAt area.now h }
    ensures { result ≡ header_test area.now }
{
    if !mark_stands(area) {
        return false;
    }
    if !calendar::exists(h.day) {
        return false;
    }
    if !counts_fit(h) {
        return false;
    }
    unused_zero(area)
}
