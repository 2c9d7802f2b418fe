// An area that holds an engine, and what is read of it by the numbers of its header.
ghost use Rattle.std.specs.Prelude.{◌≡◌, true, ◌+◌, ◌*◌, ◌<◌, length};
ghost use Rattle.rules.specs.Text.{is_some, any};
ghost use Rattle.rules.specs.Engine.{same_reference};
ghost use Rattle.rules.specs.Register.{register_of};
ghost use Rattle.rules.specs.Area.{decode, holds, positions_place, record_size};
ghost use Rattle.engine.specs.Header.{HeaderOf};
ghost use Rattle.engine.specs.Positions.{PositionAt};
ghost use Rattle.engine.specs.Totals.{LookedUp};
ghost use Rattle.engine.specs.References.{of_bank};
ghost use Rattle.engine.specs.Texts.{RegisterOf, ListOf};

use crate::header::{Header, header_at};
use crate::layout::{TEMPORARY_END, TEXTS};
use crate::places::{is_at, place_of};
use crate::positions::nth_position;
use crate::reference::BankReference;
use crate::texts::text_at;
use position::{Key, Position};
use register::Register;

// An area that holds an engine.
#[derive(Clone, Copy)]
pub struct Engine<'a> {
    // The area.
    pub area: &'a [u8],
    ghost holds: { is_some (holds area.now) ≡ true },
}

impl<'a> Engine<'a> {
    // The engine that an area holds.
    pub fn held(area: &'a [u8]) -> Engine<'a>
        requires { is_some (holds area.now) ≡ true }
        ensures { result.area.now ≡ area.now }
    {
        Engine { area }
    }

    // The header: the engine's own numbers.
    pub fn header(self) -> Header
        ensures { HeaderOf self.entry.area.now result }
    {
        header_at(self.area)
    }

    // The i-th position.
    pub fn position(self, i: u32) -> Position
        requires { i < length (decode self.area.now).positions }
        ensures { PositionAt self.entry.area.now (positions_place + record_size * i) result }
    {
        nth_position(self.area, i)
    }

    // The position of a key, if it is open.
    pub fn totals_of(self, k: Key) -> Option<Position>
        ensures { LookedUp (decode self.entry.area.now).positions k result }
    {
        let n = self.header().positions;
        let i = place_of(self.area, n, k);
        if is_at(self.area, n, i, k) {
            return Some(nth_position(self.area, i));
        }
        None
    }

    // Was a bank's reference accepted today?
    #[tactic(auto, using(crate::specs::Lookup::looking))]
    pub fn is_used(self, reference: BankReference) -> bool
        ensures { result ≡ any (same_reference (of_bank reference.entry.bank reference.entry.text.now)) (decode self.entry.area.now).references }
    {
        reference.is_among(self.area, self.header().references)
    }

    // The register.
    pub fn register(self) -> Register<'a>
        ensures { RegisterOf self.entry.area.now result.text.now }
    {
        Register::passed(text_at(self.area, 0))
    }

    // The holiday list.
    pub fn holidays(self) -> &'a [u8]
        ensures { ListOf self.entry.area.now result.now }
    {
        text_at(self.area, 1)
    }

    // The temporary account, with which the register begins.
    #[tactic(auto, using(crate::specs::Texts::lettering))]
    pub fn temporary(self) -> &'a [u8]
        ensures { result.now ≡ (register_of (decode self.entry.area.now).register).temporary }
    {
        &self.area[TEXTS..TEMPORARY_END]
    }
}
