// An MT199 in its parts.
ghost use Rattle.std.specs.Prelude.{◌≡◌, ◌+◌, ◌<◌, ◌≤◌, length};
ghost use Rattle.position.specs.Values.{position_value};
ghost use Rattle.message_text.specs.Parts.{PartsOf, PartPut, PartsPut, listed_of};

use detail_lines::put_listed;
use outgoing_number::{Outgoing, Reference};
use position::Position;
use put::Writer;
use verdict::Details;
use written::{put_closed79, put_opened199, put_position79};

// How many of the details are listed.
pub fn count_listed(details: Details) -> u32
    ensures { result ≡ listed_of details.entry.kept.now }
{
    details
        .kept
        .iter()
        .filter(|j| j.verdict().is_listed())
        .count() as u32
}

// How many parts there are: 14 listed details to each, and one part where there are none.
#[tactic(auto, using(crate::specs::Parts::parts_one, crate::specs::Parts::parts_more))]
pub fn parts_of(listed: u32) -> u32
    requires { listed ≤ 16 }
    ensures { PartsOf listed result }
{
    if listed == 0 {
        return 1;
    }
    ((listed as u16 + 13) / 14) as u32
}

// One of the parts, by the reference that was issued for it: the next 14 listed of the details, from detail i on. Answers the detail with which the next part begins. (By their numbers: of a slice that is handed on it would have to be told anew whose details it holds.)
fn put_part(
    w: &mut Writer,
    i: usize,
    r: Reference,
    part: u32,
    parts: u32,
    p: Position,
    details: Details,
) -> usize
    requires i_within { i ≤ length details.kept.now }
    requires part_from_one { 1 ≤ part }
    requires part_numbered { part ≤ r.number }
    ensures { PartPut r part parts (position_value p) details.entry.message.now details.entry.kept.now i w.old result w.new }
{
    let first = r.number - (part - 1);
    put_opened199(w, r, first, p.key.bank, part);
    put_position79(w, p.key.date, p.transferred, p.detailed);
    let next = put_listed(w, details.message, details.kept, i, 14);
    put_closed79(w, part, parts);
    next
}

// All parts, each by the next reference.
pub fn put_parts(w: &mut Writer, o: &mut Outgoing, parts: u32, p: Position, details: Details)
    requires { o.old.count + parts < 4294967296 }
    ensures { PartsPut o.old o.new parts (position_value p) details.entry.message.now details.entry.kept.now w.old w.new }
{
    let mut i = 0;
    for k in 0..parts {
        let r = o.issue();
        i = put_part(w, i, r, k + 1, parts, p, details);
    }
}
