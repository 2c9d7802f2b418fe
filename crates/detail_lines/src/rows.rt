// The two rows of a listed detail in field 79.
ghost use Rattle.std.specs.Prelude.{◌++◌};
ghost use Rattle.rules.specs.Text.{ascii};
ghost use Rattle.rules.specs.Messages.{past};
ghost use Rattle.put.specs.Writes.{Writes};
ghost use Rattle.detail_lines.specs.Rows.{row_front, rows_of};

use forms::{behind, front};
use put::Writer;

// 52D's BAE, a slash, BAEREF's date, a slash.
fn put_row_front(w: &mut Writer, branch: &[u8], baeref: &[u8])
    ensures { Writes (row_front branch.now baeref.now) w.old w.new }
{
    w.put_bytes(front(behind(branch, 5), 8));
    w.put_byte(b'/');
    w.put_bytes(front(behind(baeref, 6), 6));
    w.put_byte(b'/');
}

// The first row: BAEREF's N behind it.
fn put_reference_row(w: &mut Writer, branch: &[u8], baeref: &[u8])
    ensures { Writes (row_front branch.now baeref.now ++ past "BAEREFnnnnnn" baeref.now ++ ascii "\r\n") w.old w.new }
{
    put_row_front(w, branch, baeref);
    w.put_bytes(behind(baeref, 12));
    w.put_end();
}

// The second row: field 59 behind its slash.
fn put_account_row(w: &mut Writer, account: &[u8])
    ensures { Writes (past ":59:/" account.now ++ ascii "\r\n") w.old w.new }
{
    w.put_bytes(behind(account, 5));
    w.put_end();
}

// Both rows, from 52D's lines and those of 59 and BAEREF.
pub fn put_listed_rows(w: &mut Writer, branch: &[u8], account: &[u8], baeref: &[u8])
    ensures { Writes (rows_of branch.now account.now baeref.now) w.old w.new }
{
    put_reference_row(w, branch, baeref);
    put_account_row(w, account);
}
