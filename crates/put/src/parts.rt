// A writer, and its bytes: one, those of a slice, one again and again.
ghost use Rattle.std.specs.Prelude.{◌≡◌, length};

// No output reaches to this place.
const FURTHEST: usize = 9223372036854775808;

// The bytes of src, laid over as many. Short texts go byte by byte: with `copy_from_slice` for them too a turn takes 9 % more instructions, and no landing makes a call slower.
fn lay(out: &mut [u8], src: &[u8])
    requires { length out.old ≡ length src.now }
    ensures { out.new ≡ src.now }
{
    if src.len() > 65535 {
        return out.copy_from_slice(src);
    }
    for k in 0..src.len() as u32 {
        out[k as usize] = src[k as usize];
    }
}

// An output, and the place up to which it is written; over an empty output a writer only measures.
#[derive(Drop)]
pub struct Writer<'a> {
    pub out: &'a mut [u8],
    pub at: usize,
}

impl<'a> Writer<'a> {
    ghost use Rattle.std.specs.Prelude.{[], ◌∷◌, ◌+◌, ◌≤◌, length};
    ghost use Rattle.rules.specs.Text.{ascii};
    ghost use Rattle.rules.specs.Area.{zeros};
    ghost use Rattle.laws.specs.Writing.{filled};
    ghost use Rattle.put.specs.Writes.{Writes, Passes};

    // At a place of an output.
    pub fn at(out: &'a mut [u8], at: usize) -> Writer<'a>
        ensures same { result.out.ghost_name ≡ out.entry.ghost_name }
        ensures output { result.out.now ≡ out.old }
        ensures place { result.at ≡ at }
    {
        Writer { out, at }
    }

    // At the front of an output.
    pub fn new(out: &'a mut [u8]) -> Writer<'a>
        ensures same { result.out.ghost_name ≡ out.entry.ghost_name }
        ensures output { result.out.now ≡ out.old }
        ensures place { result.at ≡ 0 }
    {
        Writer { out, at: 0 }
    }

    // n bytes are passed over.
    #[tactic(auto, unfolding(laws::specs::Writing::ahead))]
    pub(crate) fn step(&mut self, n: usize)
        ensures { Passes n self.old self.new }
    {
        self.at += n.min(FURTHEST.saturating_sub(self.at));
    }

    // One byte.
    pub fn put_byte(&mut self, b: u8)
        ensures { Writes (b ∷ []) self.old self.new }
    {
        if self.at < self.out.len() {
            self.out[self.at] = b;
            self.at += 1;
            return;
        }
        self.step(1);
    }

    // The end of a line: CR LF.
    pub fn put_end(&mut self)
        ensures { Writes (ascii "\r\n") self.old self.new }
    {
        self.put_byte(b'\r');
        self.put_byte(b'\n');
    }

    // The bytes of src, for which the output has room.
    fn put_whole(&mut self, src: &[u8])
        requires { self.old.at + length src.now ≤ length self.old.out.now }
        ensures { Writes src.now self.old self.new }
    {
        let end = self.at + src.len();
        lay(&mut self.out[self.at..end], src);
        self.at = end;
    }

    // The bytes of src.
    pub fn put_bytes(&mut self, src: &[u8])
        ensures { Writes src.now self.old self.new }
    {
        if self.at < self.out.len() {
            if src.len() <= self.out.len() - self.at {
                return self.put_whole(src);
            }
            let n = src.len().min(self.out.len() - self.at);
            lay(&mut self.out[self.at..self.at + n], &src[..n]);
        }
        self.step(src.len());
    }

    // A byte n times.
    pub(crate) fn put_same(&mut self, n: usize, b: u8)
        ensures { Writes (filled n b) self.old self.new }
    {
        if self.at < self.out.len() {
            let m = n.min(self.out.len() - self.at);
            self.out[self.at..self.at + m].fill(b);
        }
        self.step(n);
    }

    // Some zeros.
    pub fn put_zeros(&mut self, n: usize)
        ensures { Writes (zeros n) self.old self.new }
    {
        self.put_same(n, 0);
    }
}
