// Records of a section moved: room made for one, and one kept at a lower place.
ghost use Rattle.std.specs.Prelude.{◌≡◌, ◌+◌, ◌-◌, ◌*◌, ◌≤◌, length};
ghost use Rattle.rules.specs.Area.{area_size};
ghost use Rattle.laws.specs.Standing.{moved};
ghost use Rattle.laws.specs.Moving.{RoomFor, Lowers};

use put::move_bytes;

// Room before record i of some records of w bytes at base: those from i on are moved up by a record.
pub fn open_record(area: &mut [u8], base: usize, w: u32, count: u32, i: u32)
    requires count_bound { w * count ≤ area_size }
    requires room_for { RoomFor base w count i (length area.old) }
    ensures { area.new ≡ moved (base + w * i) (base + w * i + w) (w * (count - i)) area.old }
{
    let p = base + (w * i) as usize;
    move_bytes(area, p, p + w as usize, (w * (count - i)) as usize);
}

// Record i of w bytes at base, kept as record j.
pub fn keep_record(area: &mut [u8], base: usize, w: u32, i: u32, j: u32)
    requires i_bound { w * i ≤ area_size }
    requires lowers { Lowers base w i j (length area.old) }
    ensures { area.new ≡ moved (base + w * i) (base + w * j) w area.old }
{
    move_bytes(
        area,
        base + (w * i) as usize,
        base + (w * j) as usize,
        w as usize,
    );
}
