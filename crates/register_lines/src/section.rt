// Lines of one form told from each other by their IBANs or codes, which are compared where their marks are the same: marks that differ belong to bytes that do.
#![tactic(auto, using(crate::specs::Sets::marking))]

ghost use Rattle.std.specs.Prelude.{◌≡◌, ◌+◌, ◌*◌, ◌≤◌, ◌<◌, length};
ghost use Rattle.rules.specs.Text.{equal};
ghost use Rattle.register_lines.specs.Places.{key_in, stands_in, repeat_in};
ghost use Rattle.register_lines.specs.Marks.{mark_of, MarksOf};

use crate::forms::LineForm;
use std::marker::PhantomData;

// The mark of an IBAN or code: each byte counts twice as much as the next.
pub fn mark_of(key: &[u8]) -> u32
    requires { length key.now ≤ 22 }
    ensures { result ≡ mark_of key.now }
{
    let mut mark: u32 = 0;
    for &c in key {
        mark = mark * 2 + c as u32;
    }
    mark
}

// The marks of the IBANs or codes of n lines of a form, the first at a place.
// By a place in the text: a slice that moves on from line to line has a length of 64 bits to keep beside it.
pub fn put_marks<F: LineForm>(text: &[u8], at: usize, n: u32, marks: &mut [u32; 40])
    requires few { n ≤ 40 }
    requires room { at + F.WIDTH * n ≤ length text.now }
    ensures { MarksOf F.WIDTH F.KEY text.now at n marks.new }
{
    let mut place = at;
    for i in 0..n {
        marks[i as usize] = mark_of(&text[place..place + F::KEY as usize]);
        place += F::WIDTH as usize;
    }
}

// Lines of one form. Their marks are lent: a struct that held them would be copied, 160 bytes of the stack each time.
#[derive(Drop)]
pub struct Section<'a, F: LineForm> {
    // The text.
    pub text: &'a [u8],
    // Where the first line begins.
    pub at: usize,
    // How many there are.
    pub count: u32,
    // The marks of their IBANs or codes.
    marks: &'a [u32; 40],
    form: PhantomData<F>,
    ghost marked: { MarksOf F.WIDTH F.KEY text.now at count marks.now },
}

impl<'a, F: LineForm> Section<'a, F> {
    // So many lines from a place on, which have their marks.
    pub fn new(text: &'a [u8], at: usize, count: u32, marks: &'a [u32; 40]) -> Section<'a, F>
        requires { MarksOf F.WIDTH F.KEY text.now at count marks.now }
        ensures text { result.text.now ≡ text.now }
        ensures at { result.at ≡ at }
        ensures count { result.count ≡ count }
    {
        Section {
            text,
            at,
            count,
            marks,
            form: PhantomData,
        }
    }

    // The IBAN or code of line i.
    #[tactic(auto, using(crate::specs::Marks::key_is))]
    fn key(&self, i: u32) -> &'a [u8]
        requires { i < self.now.count }
        ensures { result.now ≡ key_in self.now.text.now F.KEY (self.now.at + F.WIDTH * i) }
    {
        let place = self.at + (F::WIDTH * i) as usize;
        &self.text[place..place + F::KEY as usize]
    }

    // Is the IBAN or code, which has the mark, that of line i? (Its size is a clause here as in `has`: a struct of both for two private methods would be no plainer.)
    fn is_key(&self, key: &[u8], mark: u32, i: u32) -> bool
        requires size { length key.now ≡ F.KEY }
        requires marked { mark ≡ mark_of key.now }
        requires listed { i < self.now.count }
        ensures { result ≡ equal key.now (key_in self.now.text.now F.KEY (self.now.at + F.WIDTH * i)) }
    {
        if self.marks[i as usize] != mark {
            return false;
        }
        text::equal_backward(key, self.key(i))
    }

    // Is it that of one of the lines from line `first` on?
    pub fn has_from(&self, key: &[u8], mark: u32, first: u32) -> bool
        requires size { length key.now ≡ F.KEY }
        requires marked { mark ≡ mark_of key.now }
        ensures { result ≡ stands_in self.now.text.now F.KEY F.WIDTH key.now self.now.at first self.now.count }
    {
        for i in first..self.count {
            if self.is_key(key, mark, i) {
                return true;
            }
        }
        false
    }

    // Is the IBAN or code that of one of the lines?
    pub fn has(&self, key: &[u8]) -> bool
        requires { length key.now ≡ F.KEY }
        ensures { result ≡ stands_in self.now.text.now F.KEY F.WIDTH key.now self.now.at 0 self.now.count }
    {
        self.has_from(key, mark_of(key), 0)
    }

    // Does an IBAN or code appear twice among them?
    pub fn repeats(&self) -> bool
        ensures { result ≡ repeat_in self.now.text.now F.KEY F.WIDTH self.now.at 0 self.now.count }
    {
        for i in 0..self.count {
            if self.has_from(self.key(i), self.marks[i as usize], i + 1) {
                return true;
            }
        }
        false
    }
}
