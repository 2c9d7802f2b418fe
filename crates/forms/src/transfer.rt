// An MT103.
ghost use Rattle.std.specs.Prelude.{◌≡◌, MatchOption};
ghost use Rattle.std.proofs.Math.Option.{none};
ghost use Rattle.rules.specs.Messages.{read_transfer};
ghost use Rattle.forms.specs.Transfers.{TransferIn};

use crate::fields::{amount_in, date_in};
use crate::names::{TRANSFER_32A, TRANSFER_BAEREF, TRANSFER_ROWS};
use crate::rows::{Span, read_rows};
use lines::Message;

// A transfer as it is read.
#[derive(Clone, Copy)]
pub struct Transfer {
    // 32A's date.
    pub date: u64,
    // 32A's amount.
    pub amount: u64,
    // Its lines by rows.
    pub spans: [Span; TRANSFER_ROWS],
}

// The transfer that stands behind the first line.
pub fn read_transfer(message: Message) -> Option<Transfer>
    ensures { MatchOption result (read_transfer message.entry.text.now ≡ none) (λ t. TransferIn message.entry.text.now t) }
{
    let mut reader = message.body();
    let spans = read_rows(&mut reader, 0)?;
    if !reader.closes() {
        return None;
    }
    let date = date_in(spans[TRANSFER_32A].of(message.text), 5)?;
    let amount = amount_in(spans[TRANSFER_32A].of(message.text), 14)?;
    date_in(spans[TRANSFER_BAEREF].of(message.text), 8)?;
    Some(Transfer {
        date: date as u64,
        amount,
        spans,
    })
}
