// Numbers, written by groups of eight places.
use crate::groups::{eight, width_of};
use crate::parts::Writer;

impl<'a> Writer<'a> {
    ghost use Rattle.std.specs.Prelude.{◌^◌, ◌<◌};
    ghost use Rattle.rules.specs.Text.{fixed, bytes, decimal};
    ghost use Rattle.put.specs.Groups.{last_of};
    ghost use Rattle.put.specs.Writes.{Writes};

    // The last k of eight places, and nulls in front where k are more.
    fn put_last(&mut self, k: usize, null: u8, d: &[u8; 8])
        ensures { Writes (last_of null k d.now) self.old self.new }
    {
        if k <= 8 {
            return self.put_bytes(&d[8 - k..8]);
        }
        self.put_same(k - 8, null);
        self.put_bytes(d);
    }

    // A number below a hundred million in k digits.
    fn put_eight(&mut self, k: usize, v: u32)
        requires { v < 100000000 }
        ensures { Writes (fixed k v) self.old self.new }
    {
        let d = eight(v);
        self.put_last(k, b'0', &d);
    }

    // A number of sixteen digits at most in k digits: the upper ones of `put_fixed`, which would else call itself, and a recursion has no bound on the stack.
    fn put_sixteen(&mut self, k: usize, v: u64)
        requires { v < 10 ^ 16 }
        ensures { Writes (fixed k v) self.old self.new }
    {
        if v < 100000000 {
            return self.put_eight(k, v as u32);
        }
        let low = (v % 100000000) as u32;
        if k <= 8 {
            return self.put_eight(k, low);
        }
        self.put_eight(k - 8, (v / 100000000) as u32);
        self.put_eight(8, low);
    }

    // A number in k digits, with the zeros in front.
    pub fn put_fixed(&mut self, k: usize, v: u64)
        ensures { Writes (fixed k v) self.old self.new }
    {
        if self.at >= self.out.len() {
            return self.step(k);
        }
        if v < 100000000 {
            return self.put_eight(k, v as u32);
        }
        let low = (v % 100000000) as u32;
        if k <= 8 {
            return self.put_eight(k, low);
        }
        self.put_sixteen(k - 8, v / 100000000);
        self.put_eight(8, low);
    }

    // A number in k bytes, big-endian.
    pub fn put_be(&mut self, k: usize, v: u64)
        ensures { Writes (bytes k v) self.old self.new }
    {
        self.put_last(k, 0, &v.to_be_bytes());
    }

    // A number with no leading zero.
    pub fn put_decimal(&mut self, v: u64)
        ensures { Writes (decimal v) self.old self.new }
    {
        self.put_fixed(width_of(v), v);
    }
}
