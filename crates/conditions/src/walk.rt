// The fields 21 of the details: 5, one field 21 twice.
#![tactic(auto, using(crate::specs::Walk::walking))]

ghost use Rattle.std.specs.Prelude.{◌≡◌, map};
ghost use Rattle.rules.specs.Text.{equal, any, twice};
ghost use Rattle.forms.specs.Spans.{SpanIn};
ghost use Rattle.conditions.specs.Walk.{NamedIn, named};

use forms::behind;
use verdict::Judged;

// Have the two details one field 21?
fn same_names(s: &[u8], a: &Judged, b: &Judged) -> bool
    requires a_within { SpanIn s.now a.now.detail.reference }
    requires b_within { SpanIn s.now b.now.detail.reference }
    ensures { result ≡ equal (named s.now a.now) (named s.now b.now) }
{
    text::equal(
        behind(a.detail.reference.of(s), 4),
        behind(b.detail.reference.of(s), 4),
    )
}

// Has one of the others this one's field 21?
fn again(s: &[u8], one: &Judged, others: &[Judged]) -> bool
    requires one_within { SpanIn s.now one.now.detail.reference }
    requires others_within { NamedIn s.now others.now }
    ensures { result ≡ any (equal (named s.now one.now)) (map (named s.now) others.now) }
{
    for other in others {
        if same_names(s, one, other) {
            return true;
        }
    }
    false
}

// Have two of the details one field 21?
pub fn appears_twice(s: &[u8], kept: &[Judged]) -> bool
    requires { NamedIn s.now kept.now }
    ensures { result ≡ twice equal (map (named s.now) kept.now) }
{
    for (i, one) in kept.iter().enumerate() {
        if again(s, one, &kept[i + 1..]) {
            return true;
        }
    }
    false
}
