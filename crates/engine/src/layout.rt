// The layout of the area, as `Area` in `rules` has it.

// Where the header's numbers begin, behind the mark; behind the lengths of the texts there are, the others are zero.
pub const DAY: usize = 2;

pub const COUNT: usize = 5;

pub const MANY_POSITIONS: usize = 7;

pub const MANY_REFERENCES: usize = 8;

pub const CURRENCY: usize = 9;

pub const LENGTHS: usize = 10;

pub const NO_LENGTHS: usize = LENGTHS + 4;

// Where the sections begin, where the temporary account ends that the first text begins with, and where the area ends.
pub const REFERENCES: u32 = 16;

pub const POSITIONS: u32 = 1552;

pub const TEXTS: usize = 2320;

pub const TEMPORARY_END: usize = TEXTS + 22;

pub const AREA: usize = 6144;

// The first record of each, and the room of a section.
pub const FIRST_REFERENCE: usize = REFERENCES as usize;

pub const FIRST_POSITION: usize = POSITIONS as usize;

pub const REFERENCES_ROOM: usize = 1536;

pub const POSITIONS_ROOM: usize = 768;

pub const TEXTS_ROOM: usize = 3824;

// The size of a record, and where its parts begin in it: a reference's text, a position's date, block and totals.
pub const RECORD: u32 = 24;

pub const SIZE: usize = RECORD as usize;

pub const TEXT: usize = 8;

pub const DATE: usize = 8;

pub const BLOCK: usize = 11;

pub const TRANSFERRED: usize = 12;

pub const DETAILED: usize = 18;
