// References: slashes where condition 5 lets none stand.
#![tactic(auto, using(crate::specs::Slashes::slashes))]

ghost use Rattle.std.specs.Prelude.{◌≡◌, ◌&&◌, ◌≤◌, eqb, length};
ghost use Rattle.rules.specs.Engine.{slashed};
ghost use Rattle.references.specs.Slashes.{doubled};

// Are both bytes slashes?
fn two_slashes(c: u8, d: u8) -> bool
    ensures { result ≡ (eqb c 47 && eqb d 47) }
{
    c == b'/' && d == b'/'
}

// Does a slash stand behind a slash?
fn has_double(reference: &[u8]) -> bool
    requires { 1 ≤ length reference.now }
    ensures { result ≡ doubled reference.now }
{
    for k in 1..reference.len() {
        if two_slashes(reference[k - 1], reference[k]) {
            return true;
        }
    }
    false
}

// Does the reference begin or end with a slash, or have two one behind the other?
pub fn slashed(reference: &[u8]) -> bool
    ensures { result ≡ slashed reference.now }
{
    let n = reference.len();
    if n < 1 {
        return false;
    }
    if reference[0] == b'/' {
        return true;
    }
    has_double(reference) || reference[n - 1] == b'/'
}
