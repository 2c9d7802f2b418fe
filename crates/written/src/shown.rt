// What a field or a line shows, each by its text.
ghost use Rattle.std.specs.Prelude.{List, ℕ, [], ◌∷◌};
ghost use Rattle.rules.specs.Text.{fixed};
ghost use Rattle.rules.specs.Amounts.{written};
ghost use Rattle.rules.specs.Engine.{bic};
ghost use Rattle.rules.specs.Written.{reference};
ghost use Rattle.put.specs.Writes.{Writes};

use outgoing_number::Reference;
use put::Writer;

pub trait Shown {
    // The text that it is shown as.
    ghost text: { Self → List ℕ };

    fn put(self, w: &mut Writer)
        ensures { Writes (text self) w.old w.new };
}

// A text, as it stands.
impl Shown for &[u8] {
    ghost text = { λ s. s.now };

    fn put(self, w: &mut Writer) {
        w.put_bytes(self);
    }
}

// A bank, by its BIC.
#[derive(Clone, Copy)]
pub struct Bank(pub u64);

impl Shown for Bank {
    ghost text = { λ b. bic b.0 };

    fn put(self, w: &mut Writer) {
        w.put_be(8, self.0);
    }
}

// A date, by its six digits.
#[derive(Clone, Copy)]
pub struct Date(pub u32);

impl Shown for Date {
    ghost text = { λ d. fixed 6 d.0 };

    fn put(self, w: &mut Writer) {
        w.put_fixed(6, self.0 as u64);
    }
}

// A message's reference: the day, `GA`, its number in six digits.
impl Shown for Reference {
    ghost text = { λ r. reference r.day r.number };

    fn put(self, w: &mut Writer) {
        w.put_fixed(6, self.day as u64);
        w.put_bytes(b"GA");
        w.put_fixed(6, self.number as u64);
    }
}

// An amount in levs; the mark before the decimals is a comma or a point.
#[derive(Clone, Copy)]
pub struct Amount {
    pub mark: u8,
    pub stotinki: u64,
}

impl Shown for Amount {
    ghost text = { λ a. written (a.mark ∷ []) a.stotinki };

    fn put(self, w: &mut Writer) {
        w.put_amount(self.mark, self.stotinki);
    }
}
