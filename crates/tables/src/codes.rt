// The codes of the tables, in document 01's words; specs/Codes.antt has the same numbers, docs/LAYOUT.md shows them. Every
// code from UNKNOWN to LAST stands for nothing.
pub const LAST: u16 = 65535;

// kinds of nodes
pub const NODE_THING: u16 = 0;

pub const NODE_BLANK: u16 = 1;

pub const NODE_NUMBER: u16 = 2;

pub const NODE_TEXT: u16 = 3;

pub const NODE_WORDS: u16 = 4;

pub const NODE_UNKNOWN: u16 = 5;

// path entries: a bare link, and the words after a bracket
pub const PATH_LINK: u16 = 0;

pub const PATH_INV: u16 = 1;

pub const PATH_SEQ: u16 = 2;

pub const PATH_ALT: u16 = 3;

pub const PATH_STAR: u16 = 4;

pub const PATH_PLUS: u16 = 5;

pub const PATH_UNKNOWN: u16 = 6;

// form entries
pub const FORM_TRUE: u16 = 0;

pub const FORM_IS: u16 = 1;

pub const FORM_SHAPE: u16 = 2;

pub const FORM_AND: u16 = 3;

pub const FORM_OR: u16 = 4;

pub const FORM_NOT: u16 = 5;

pub const FORM_KIND: u16 = 6;

pub const FORM_DATATYPE: u16 = 7;

pub const FORM_LANG: u16 = 8;

pub const FORM_FROM: u16 = 9;

pub const FORM_ABOVE: u16 = 10;

pub const FORM_TO: u16 = 11;

pub const FORM_BELOW: u16 = 12;

pub const FORM_COUNT: u16 = 13;

pub const FORM_ALL: u16 = 14;

pub const FORM_EQUAL: u16 = 15;

pub const FORM_APART: u16 = 16;

pub const FORM_CLOSED: u16 = 17;

pub const FORM_LESS: u16 = 18;

pub const FORM_LESSEQ: u16 = 19;

pub const FORM_ONELANG: u16 = 20;

pub const FORM_UNKNOWN: u16 = 21;

// the operand of `kind`
pub const KIND_THING: u16 = 0;

pub const KIND_BLANK: u16 = 1;

pub const KIND_LITERAL: u16 = 2;

pub const KIND_UNKNOWN: u16 = 3;

// targets of rules
pub const TARGET_NODE: u16 = 0;

pub const TARGET_SUBJECTS: u16 = 1;

pub const TARGET_OBJECTS: u16 = 2;

pub const TARGET_CLASS: u16 = 3;

pub const TARGET_UNKNOWN: u16 = 4;
