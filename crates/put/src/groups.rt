// Eight digits of a number, and how many digits it has. That a number is below a hundred million is a clause: as a type it would be made and taken apart at each call.
ghost use Rattle.std.specs.Prelude.{◌≡◌, ◌/◌, ◌<◌};
ghost use Rattle.rules.specs.Text.{fixed, width};

// A number below a hundred million without its last four digits: by 16-bit division where that serves.
fn upper_four(v: u32) -> u16
    requires { v < 100000000 }
    ensures { result ≡ v / 10000 }
{
    if v < 1000000 {
        return (v / 16) as u16 / 625;
    }
    (v / 10000) as u16
}

// The eight digits of a number below a hundred million. A loop that takes one digit at a time misses a bound: a turn takes 887,344 instructions then, of 615,000.
#[tactic(auto, using(laws::specs::Digits::eight_is))]
pub fn eight(v: u32) -> [u8; 8]
    requires { v < 100000000 }
    ensures { result ≡ fixed 8 v }
{
    let h = upper_four(v);
    let l = (v - h as u32 * 10000) as u16;
    let a = h / 10;
    let b = a / 10;
    let c = b / 10;
    let d = l / 10;
    let e = d / 10;
    let f = e / 10;
    [
        48 + c as u8,
        48 + (b - c * 10) as u8,
        48 + (a - b * 10) as u8,
        48 + (h - a * 10) as u8,
        48 + f as u8,
        48 + (e - f * 10) as u8,
        48 + (d - e * 10) as u8,
        48 + (l - d * 10) as u8,
    ]
}

// How many digits a number has.
pub fn width_of(v: u64) -> usize
    ensures { result ≡ width 19 v }
{
    if v == 0 {
        return 1;
    }
    v.ilog10() as usize + 1
}
