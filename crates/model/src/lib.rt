// The meaning of a book: graph, paths, shapes, targets and rules (specs/), with their laws (proofs/).
// Operations: code and line, what document 01 prints of a refusal.
#![tactic(auto)]

ghost use Rattle.std.specs.Prelude.{◌≡◌};
ghost use Rattle.model.specs.Refusals.{code_of, line_of, refusal_at};

// The limits of document 01.
pub const MAX_BYTES: usize = 65536;

pub const MAX_NODES: usize = 1024;

pub const MAX_LINKS: usize = 256;

pub const MAX_TYPES: usize = 32;

pub const MAX_LANGS: usize = 32;

pub const MAX_SHAPES: usize = 64;

pub const MAX_RULES: usize = 32;

pub const MAX_FACTS: usize = 4096;

pub const MAX_FORMS: usize = 112;

pub const MAX_PATHS: usize = 128;

pub const MAX_ITEMS: usize = 128;

pub const MAX_COUNT: usize = 1024;

pub const MAX_DEPTH: usize = 32;

pub const MAX_NAME: usize = 31;

// A name is stored in so many bytes: the name, then zeros.
pub const NAME_BYTES: usize = 32;

pub const MAX_STEPS: usize = 512;

// The number of a node in its pool. Never the number of a link: source 000 keeps properties apart from nodes.
#[derive(Clone, Copy, PartialEq, Eq)]
pub struct NodeNo(pub u16);

// The number of a link (a predicate) in its pool.
#[derive(Clone, Copy, PartialEq, Eq)]
pub struct LinkNo(pub u16);

// The link `a` and the type `langstring` come first in their pools.
pub const LINK_A: u16 = 0;

pub const TYPE_LANGSTRING: u16 = 0;

// How many of each a book has: the ten counts of its tables.
#[derive(Clone, Copy, Default)]
pub struct Counts {
    pub nodes: usize,
    pub links: usize,
    pub types: usize,
    pub langs: usize,
    pub shapes: usize,
    pub facts: usize,
    pub paths: usize,
    pub forms: usize,
    pub items: usize,
    pub rules: usize,
}

// Why an operation declines. The first seven are the book writer's, with the line; the others the caller's.
#[derive(Clone, Copy, PartialEq, Eq)]
pub enum Refusal {
    TooLong,
    Grammar(usize),
    Range(usize),
    Nesting(usize),
    Undefined(usize),
    Repeated(usize),
    Limit(usize),
    Short,
    Malformed,
    Absent,
    Console,
}

// The number of document 01; 11 of document 02.
pub fn code(r: Refusal) -> usize
    ensures { result ≡ code_of r }
{
    match r {
        Refusal::TooLong => 1,
        Refusal::Grammar(_) => 2,
        Refusal::Range(_) => 3,
        Refusal::Nesting(_) => 4,
        Refusal::Undefined(_) => 5,
        Refusal::Repeated(_) => 6,
        Refusal::Limit(_) => 7,
        Refusal::Short => 8,
        Refusal::Malformed => 9,
        Refusal::Absent => 10,
        Refusal::Console => 11,
    }
}

// The line, from 1; 0 for a refusal that has none.
pub fn line(r: Refusal) -> usize
    ensures { result ≡ line_of r }
{
    match r {
        Refusal::TooLong => 0,
        Refusal::Grammar(at) => at,
        Refusal::Range(at) => at,
        Refusal::Nesting(at) => at,
        Refusal::Undefined(at) => at,
        Refusal::Repeated(at) => at,
        Refusal::Limit(at) => at,
        Refusal::Short => 0,
        Refusal::Malformed => 0,
        Refusal::Absent => 0,
        Refusal::Console => 0,
    }
}

// Why a line of a book is refused, before it is known which line it is.
#[derive(Clone, Copy, PartialEq, Eq)]
pub enum Fault {
    Grammar,
    Range,
    Nesting,
    Undefined,
    Repeated,
    Limit,
}

impl Fault {
    // The refusal of a line with this fault.
    pub fn at(self, line: usize) -> Refusal
        ensures { result ≡ refusal_at self line }
    {
        match self {
            Fault::Grammar => Refusal::Grammar(line),
            Fault::Range => Refusal::Range(line),
            Fault::Nesting => Refusal::Nesting(line),
            Fault::Undefined => Refusal::Undefined(line),
            Fault::Repeated => Refusal::Repeated(line),
            Fault::Limit => Refusal::Limit(line),
        }
    }
}
