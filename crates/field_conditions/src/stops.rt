// What refuses a transfer by its fields, and what refuses one detail: the lowest condition that it breaks.
ghost use Rattle.std.specs.Prelude.{◌≡◌};
ghost use Rattle.refusal.specs.Numbers.{stop_of};
ghost use Rattle.forms.specs.Spans.{SpansWithin};
ghost use Rattle.field_conditions.specs.Stops.{transfer_stop, detail_stop, low_of};

use crate::fields::{bad_sum, is_foreign, is_same, slashed_behind};
use forms::{
    DETAIL_21, DETAIL_32B, DETAIL_50H, Detail, MESSAGE_20, TRANSFER_32A, TRANSFER_59, Transfer,
};
use refusal::Refusal;

// Of a transfer: 5, 6 or 7.
pub fn transfer_stop(s: &[u8], temporary: &[u8], t: Transfer) -> Result<(), Refusal>
    requires { SpansWithin s.now t.spans }
    ensures { stop_of result ≡ transfer_stop s.now temporary.now t }
{
    if slashed_behind(t.spans[MESSAGE_20].of(s), 4) {
        return Err(Refusal::BadReference);
    }
    if bad_sum(t.spans[TRANSFER_32A].of(s), 11, t.amount) {
        return Err(Refusal::BadAmount);
    }
    if is_same(t.spans[TRANSFER_59].of(s), 5, temporary) {
        return Ok(());
    }
    Err(Refusal::BadAccount)
}

// Of one detail, day being the date of the first: 5, 6, 7 or 8.
pub fn detail_stop(s: &[u8], d: Detail, day: u64) -> Result<(), Refusal>
    requires { SpansWithin s.now d.spans }
    ensures { low_of result ≡ detail_stop s.now day d }
{
    if slashed_behind(d.spans[DETAIL_21].of(s), 4) {
        return Err(Refusal::BadReference);
    }
    if bad_sum(d.spans[DETAIL_32B].of(s), 5, d.amount) {
        return Err(Refusal::BadAmount);
    }
    if is_foreign(s, d.spans[DETAIL_50H].of(s)) {
        return Err(Refusal::BadAccount);
    }
    if d.date != day {
        return Err(Refusal::ManyDates);
    }
    Ok(())
}
