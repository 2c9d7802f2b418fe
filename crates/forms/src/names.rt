// The rows that are read again have names: the form, then the field or the row's own word, as in the definitions.

// 20, the first row of either message.
pub const MESSAGE_20: usize = 0;

// Of an MT103: 32A.
pub const TRANSFER_32A: usize = 2;

// 59's account line.
pub const TRANSFER_59: usize = 11;

// 72's second row, `/BAEREF/`.
pub const TRANSFER_BAEREF: usize = 21;

// Of a detail of an MT101: 21.
pub const DETAIL_21: usize = 0;

// 32B.
pub const DETAIL_32B: usize = 1;

// 50H's account.
pub const DETAIL_50H: usize = 2;

// 50H's second line behind the account.
pub const DETAIL_CODE: usize = 4;

// 52D's BAE.
pub const DETAIL_52D: usize = 7;

// 59's account line.
pub const DETAIL_59: usize = 9;

// 70's first row, `CENTRB`.
pub const DETAIL_CENTRB: usize = 13;

// 70's second row, `BAEREF`.
pub const DETAIL_BAEREF: usize = 14;

// How many rows an MT103 has: those of a detail follow them in the table.
pub const TRANSFER_ROWS: usize = 23;

// How many rows a detail of an MT101 has.
pub const DETAIL_ROWS: usize = 17;
