// Why a call is refused: document 01's conditions of refusal, in the order of their numbers.
#![tactic(auto)]

ghost use Rattle.std.specs.Prelude.{◌≡◌};
ghost use Rattle.refusal.specs.Numbers.{number_of};

// A condition of refusal that holds.
#[derive(Clone, Copy, PartialEq, Eq, PartialOrd, Ord)]
pub enum Refusal {
    // Length, line end, first line's form or closing line.
    NotFramed = 1,
    // Type or receiver.
    NotAddressed = 2,
    // A field's order or form, or a date that does not exist.
    NotInForm = 3,
    // More than 16 details.
    TooManyDetails = 4,
    // A reference with slashes where none may stand, or one field 21 twice.
    BadReference = 5,
    // Currency not BGN, or amount 0.
    BadAmount = 6,
    // An account that is not the temporary one, or 50H's that does not pass or is of another bank.
    BadAccount = 7,
    // Details of different centralisation dates.
    ManyDates = 8,
    // Register.
    BadRegister = 9,
    // The engine area is too short or holds no engine.
    NoEngine = 10,
    // A message or a turn of the wrong day.
    Misdated = 11,
    // The sender's field 20 already accepted today.
    AlreadyAccepted = 12,
    // 64 messages accepted today.
    TooManyMessages = 13,
    // 32 positions open, none of them this one.
    TooManyPositions = 14,
    // A total over its limit.
    OverLimit = 15,
    // Output shorter than this call's bytes.
    OutputTooShort = 16,
    // A day that is no banking day.
    NotBankingDay = 17,
    // Holiday list.
    BadHolidays = 18,
    // A register with codes, which the older form has no lines for.
    HasCodes = 19,
}

impl Refusal {
    // Its number.
    pub fn number(self) -> u32
        ensures { result ≡ number_of self }
    {
        self as u32
    }
}
