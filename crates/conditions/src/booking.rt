// What booking a message needs of it.
ghost use Rattle.std.specs.Prelude.{◌≡◌, ◌<◌};
ghost use Rattle.conditions.specs.Books.{count_of, booking_of};

use forms::Span;
use lines::Message;
use position::Key;

// What a message is.
#[derive(Clone, Copy)]
pub enum Kind {
    // An MT103.
    Transfer,
    // An MT101, with how many details it has: all of them, of which 16 are kept, so that it is no length of those before 4 is tested.
    Order(u8),
}

// A message as it is booked. What it says of the message, and that its amount is that of 16 details at most, are clauses: a struct that held the message too would be copied at each call, and it is not booked before 1 to 8 are done.
#[derive(Clone, Copy)]
pub struct Booking {
    // The key of its position.
    pub key: Key,
    // The amount of an MT103, the sum of amounts of an MT101.
    pub amount: u64,
    // Its field 20.
    pub reference: Span,
    // Which of both it is.
    pub kind: Kind,
}

impl Booking {
    // How many details the message has.
    pub fn count(self) -> u8
        ensures { result ≡ count_of self.kind }
    {
        match self.kind {
            Kind::Transfer => 0,
            Kind::Order(count) => count,
        }
    }
}

// The booking of a message, whose sender stands in its first line.
pub fn booking_of(message: Message, kind: Kind, reference: Span, date: u64, amount: u64) -> Booking
    requires { date < 1000000 }
    ensures { result ≡ booking_of message.entry.text.now kind reference date amount }
{
    Booking {
        key: Key {
            bank: text::big_endian(&message.text[4..12]),
            date: date as u32,
        },
        amount,
        reference,
        kind,
    }
}
