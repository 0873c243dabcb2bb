// The codes of the steps, in document 01's words; specs/Steps.antt has the same numbers, docs/LAYOUT.md shows them. Every code
// from UNKNOWN to LAST stands for nothing.
pub const LAST: u16 = 65535;

pub const ALL: u16 = 0;

pub const NONE: u16 = 1;

pub const IS: u16 = 2;

pub const ISNOT: u16 = 3;

pub const TEST: u16 = 4;

pub const UNTEST: u16 = 5;

pub const BOTH: u16 = 6;

pub const EITHER: u16 = 7;

pub const COUNT: u16 = 8;

pub const EVERY: u16 = 9;

pub const EQUAL: u16 = 10;

pub const UNEQUAL: u16 = 11;

pub const APART: u16 = 12;

pub const MEET: u16 = 13;

pub const CLOSED: u16 = 14;

pub const OPEN: u16 = 15;

pub const LESS: u16 = 16;

pub const NOTLESS: u16 = 17;

pub const LESSEQ: u16 = 18;

pub const NOTLESSEQ: u16 = 19;

pub const ONELANG: u16 = 20;

pub const MANYLANG: u16 = 21;

pub const FROM: u16 = 22;

pub const INTO: u16 = 23;

pub const TYPED: u16 = 24;

pub const UNKNOWN: u16 = 25;
