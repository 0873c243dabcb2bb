// Where each column begins and how long each table is: a column begins where the one before it ends. specs/Layout.antt has the
// same sums, docs/LAYOUT.md shows the numbers.
use model::{
    MAX_FACTS, MAX_FORMS, MAX_ITEMS, MAX_LANGS, MAX_LINKS, MAX_NODES, MAX_PATHS, MAX_RULES,
    MAX_SHAPES, MAX_TYPES, NAME_BYTES,
};

// cells: ten counts
pub const NODE_COUNT: usize = 0;

pub const LINK_COUNT: usize = 1;

pub const TYPE_COUNT: usize = 2;

pub const LANG_COUNT: usize = 3;

pub const SHAPE_COUNT: usize = 4;

pub const FACT_COUNT: usize = 5;

pub const PATH_COUNT: usize = 6;

pub const FORM_COUNT: usize = 7;

pub const ITEM_COUNT: usize = 8;

pub const RULE_COUNT: usize = 9;

// per node
pub const NODE_KINDS: usize = RULE_COUNT + 1;

pub const NODE_TYPES: usize = NODE_KINDS + MAX_NODES;

pub const NODE_LANGS: usize = NODE_TYPES + MAX_NODES;

// per triple
pub const SUBJECTS: usize = NODE_LANGS + MAX_NODES;

pub const PREDICATES: usize = SUBJECTS + MAX_FACTS;

pub const OBJECTS: usize = PREDICATES + MAX_FACTS;

// per path entry
pub const PATH_CODES: usize = OBJECTS + MAX_FACTS;

pub const PATH_FIRSTS: usize = PATH_CODES + MAX_PATHS;

pub const PATH_SECONDS: usize = PATH_FIRSTS + MAX_PATHS;

// per form entry
pub const FORM_CODES: usize = PATH_SECONDS + MAX_PATHS;

pub const FORM_FIRSTS: usize = FORM_CODES + MAX_FORMS;

pub const FORM_SECONDS: usize = FORM_FIRSTS + MAX_FORMS;

pub const FORM_THIRDS: usize = FORM_SECONDS + MAX_FORMS;

pub const FORM_FOURTHS: usize = FORM_THIRDS + MAX_FORMS;

// list items
pub const ITEMS: usize = FORM_FOURTHS + MAX_FORMS;

// per shape
pub const ROOTS: usize = ITEMS + MAX_ITEMS;

// per rule
pub const RULE_SHAPES: usize = ROOTS + MAX_SHAPES;

pub const RULE_TARGETS: usize = RULE_SHAPES + MAX_RULES;

pub const RULE_OPERANDS: usize = RULE_TARGETS + MAX_RULES;

pub const CELLS: usize = RULE_OPERANDS + MAX_RULES;

// values: per node, then per form entry
pub const FORM_VALUES: usize = MAX_NODES;

pub const VALUES: usize = FORM_VALUES + MAX_FORMS;

// names: those of nodes, then of links, types, langs and shapes
pub const LINK_NAMES: usize = MAX_NODES * NAME_BYTES;

pub const TYPE_NAMES: usize = LINK_NAMES + MAX_LINKS * NAME_BYTES;

pub const LANG_NAMES: usize = TYPE_NAMES + MAX_TYPES * NAME_BYTES;

pub const SHAPE_NAMES: usize = LANG_NAMES + MAX_LANGS * NAME_BYTES;

pub const NAMES: usize = SHAPE_NAMES + MAX_SHAPES * NAME_BYTES;

// `*` for HI, and `id` for END
pub const NO_NUMBER: u16 = 65535;
