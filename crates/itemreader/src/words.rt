// The words after an opening bracket, by their number in the family that they are looked up in, and how many words each family
// has.
// They stay numbers: a number and one is the code of an entry, which document 01 gives, and matches decide over them by ranges.
ghost use Rattle.std.specs.Prelude.{◌≡◌, ℕ, map};
ghost use Rattle.text.specs.Pool.{index_of};
ghost use Rattle.itemreader.specs.Words.{words_in};

use text::find_word;

#[derive(Clone, Copy, PartialEq, Eq)]
pub enum Family {
    Paths,
    Forms,
    Targets,
    Lines,
    Kinds,
}

// The words of a family, each at its number.
pub fn words(family: Family) -> &'static [&'static [u8]]
    ensures { map (λ w. w.now) result.now ≡ words_in family }
{
    match family {
        Family::Paths => &[b"inv", b"seq", b"alt", b"star", b"plus"],
        Family::Forms => &[
            b"is",
            b"shape",
            b"and",
            b"or",
            b"not",
            b"kind",
            b"datatype",
            b"lang",
            b"from",
            b"above",
            b"to",
            b"below",
            b"count",
            b"all",
            b"equal",
            b"apart",
            b"closed",
            b"less",
            b"lesseq",
            b"onelang",
        ],
        Family::Targets => &[b"node", b"subjects", b"objects", b"class"],
        Family::Lines => &[
            b"link", b"type", b"lang", b"thing", b"blank", b"number", b"text", b"words", b"fact",
            b"shape", b"rule",
        ],
        Family::Kinds => &[b"thing", b"blank", b"literal"],
    }
}

// The number of a word in its family.
pub fn keyword(family: Family, word: &[u8]) -> Option<usize>
    ensures { result ≡ index_of (words_in family) word.now }
{
    find_word(words(family), word)
}

// of paths: one less than the code of its entry, since a bare link has no bracket
pub const PATH_INV: usize = 0;

pub const PATH_SEQ: usize = 1;

pub const PATH_ALT: usize = 2;

pub const PATH_STAR: usize = 3;

pub const PATH_PLUS: usize = 4;

pub const PATH_FAMILY: usize = PATH_PLUS + 1;

// of forms: one less than the code of its entry, since `true` has no bracket
pub const IS: usize = 0;

pub const SHAPE: usize = 1;

pub const AND: usize = 2;

pub const OR: usize = 3;

pub const NOT: usize = 4;

pub const KIND: usize = 5;

pub const DATATYPE: usize = 6;

pub const LANG: usize = 7;

pub const FROM: usize = 8;

pub const ABOVE: usize = 9;

pub const TO: usize = 10;

pub const BELOW: usize = 11;

pub const COUNT: usize = 12;

pub const ALL: usize = 13;

pub const EQUAL: usize = 14;

pub const APART: usize = 15;

pub const CLOSED: usize = 16;

pub const LESS: usize = 17;

pub const LESSEQ: usize = 18;

pub const ONELANG: usize = 19;

pub const FORM_FAMILY: usize = ONELANG + 1;

// of targets
pub const TARGET_NODE: usize = 0;

pub const TARGET_SUBJECTS: usize = 1;

pub const TARGET_OBJECTS: usize = 2;

pub const TARGET_CLASS: usize = 3;

pub const TARGET_FAMILY: usize = TARGET_CLASS + 1;

// of lines
pub const LINE_LINK: usize = 0;

pub const LINE_TYPE: usize = 1;

pub const LINE_LANG: usize = 2;

pub const LINE_THING: usize = 3;

pub const LINE_BLANK: usize = 4;

pub const LINE_NUMBER: usize = 5;

pub const LINE_TEXT: usize = 6;

pub const LINE_WORDS: usize = 7;

pub const LINE_FACT: usize = 8;

pub const LINE_SHAPE: usize = 9;

pub const LINE_RULE: usize = 10;

pub const LINE_FAMILY: usize = LINE_RULE + 1;
