// The forms of MT103 and MT101 as one table of rows, one row for each line: first MT103's 23, then the 17 of a detail.
ghost use Rattle.std.specs.Prelude.{◌<◌};
ghost use Rattle.forms.specs.Table.{RowAt};

// What stands behind a row's head.
#[derive(Clone, Copy)]
pub enum Rest {
    // The head is the whole line.
    Nothing,
    // T.
    Text,
    // A reference, R.
    Reference,
    // The bytes behind an account line's slash.
    Account,
    // N.
    Name,
    // An amount.
    Sum,
}

// A row of a form.
#[derive(Clone, Copy)]
pub struct Row {
    // Where its head, the pattern of the line's first bytes, begins among the heads.
    pub start: u8,
    // How many signs the head has.
    pub size: u8,
    // What stands behind the head.
    pub rest: Rest,
    // May the line be left out?
    pub optional: bool,
}

// A row with a head, whose line is never left out.
macro_rules! head_row {
    ($start:literal, $size:literal, $rest:ident) => {
        Row {
            start: $start,
            size: $size,
            rest: Rest::$rest,
            optional: false,
        }
    };
}

// A further T.
const TEXT_ROW: Row = head_row!(0, 0, Text);

// A T that may be left out.
const MORE_ROW: Row = Row {
    start: 0,
    size: 0,
    rest: Rest::Text,
    optional: true,
};

// The rows. A static stands in flash; a constant array is written to the stack each time that it is used.
static ROWS: [Row; 40] = [
    head_row!(0, 4, Reference),
    head_row!(4, 9, Nothing),
    head_row!(13, 14, Sum),
    head_row!(27, 6, Account),
    TEXT_ROW,
    MORE_ROW,
    MORE_ROW,
    head_row!(33, 13, Nothing),
    TEXT_ROW,
    head_row!(46, 13, Nothing),
    TEXT_ROW,
    head_row!(59, 5, Account),
    TEXT_ROW,
    MORE_ROW,
    MORE_ROW,
    head_row!(158, 4, Text),
    MORE_ROW,
    MORE_ROW,
    MORE_ROW,
    head_row!(64, 8, Nothing),
    head_row!(72, 15, Nothing),
    head_row!(87, 14, Name),
    head_row!(101, 8, Nothing),
    head_row!(109, 4, Reference),
    head_row!(113, 8, Sum),
    head_row!(121, 37, Nothing),
    TEXT_ROW,
    MORE_ROW,
    MORE_ROW,
    MORE_ROW,
    head_row!(33, 13, Nothing),
    TEXT_ROW,
    head_row!(59, 5, Account),
    TEXT_ROW,
    MORE_ROW,
    MORE_ROW,
    head_row!(158, 16, Nothing),
    head_row!(174, 12, Name),
    TEXT_ROW,
    MORE_ROW,
];

// The patterns of all heads, one behind the other.
pub static HEADS: [u8; 186] =
    *b":20::23B:CRED:32A:nnnnnnaaa:50K:/:52D:aaaannnn:57D:aaaannnn:59:/:71A:aaa:72:/DTYPE/PORD/BAEREF/nnnnnn/CENTRB/:21::32B:aaa:50H:/ccccccccccccccccccccccPAYnnnnnn:70:CENTRBnnnnnnBAEREFnnnnnn";

// A row of the table.
pub fn row_at(k: usize) -> Row
    requires { k < 40 }
    ensures { RowAt k result }
{
    ROWS[k]
}
