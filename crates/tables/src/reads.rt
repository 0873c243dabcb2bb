// What stands at a place of the tables. A place past the end of a lent slice reads as zero. Node and link numbers are wrapped here.
// Each read has a name of its own: one read by a column, `cell_at`, would leave the column and the wrapping to every caller.
ghost use Rattle.std.specs.Prelude.{◌≡◌, ◌+◌, get_or};
ghost use Rattle.tables.specs.Layout.{node_count, link_count, type_count, lang_count, shape_count, fact_count, path_count, form_count, item_count, rule_count, kind_at, type_at, lang_at, predicate_at, path_code_at, path_first_at, path_second_at, form_code_at, form_first_at, form_second_at, form_third_at, form_fourth_at, item_at, root_at, rule_shape_at, rule_target_at, rule_operand_at, number_at, limit_at};

use crate::layout::{
    FACT_COUNT, FORM_CODES, FORM_COUNT, FORM_FIRSTS, FORM_FOURTHS, FORM_SECONDS, FORM_THIRDS,
    FORM_VALUES, ITEM_COUNT, ITEMS, LANG_COUNT, LINK_COUNT, NODE_COUNT, NODE_KINDS, NODE_LANGS,
    NODE_TYPES, PATH_CODES, PATH_COUNT, PATH_FIRSTS, PATH_SECONDS, PREDICATES, ROOTS, RULE_COUNT,
    RULE_OPERANDS, RULE_SHAPES, RULE_TARGETS, SHAPE_COUNT, TYPE_COUNT,
};
use base::cell;
use model::{LinkNo, NodeNo};

// Place i of the column that begins at base, the default past the end.
fn at<T: Copy>(list: &[T], base: usize, i: usize, default: T) -> T
    ensures { result ≡ get_or list.now (base + i) default }
{
    cell(list, base.saturating_add(i), default)
}

// The same of the cells.
pub fn cell_at(cells: &[u16], base: usize, i: usize) -> u16
    ensures { result ≡ get_or cells.now (base + i) 0 }
{
    at(cells, base, i, 0)
}

// A cell as an index: `usize::from` by a name that says what the number is for.
pub fn wide(x: u16) -> usize
    ensures { result ≡ x }
{
    usize::from(x)
}

pub fn node_count(cells: &[u16]) -> usize
    ensures { result ≡ node_count cells.now }
{
    wide(cell_at(cells, 0, NODE_COUNT))
}

pub fn link_count(cells: &[u16]) -> usize
    ensures { result ≡ link_count cells.now }
{
    wide(cell_at(cells, 0, LINK_COUNT))
}

pub fn type_count(cells: &[u16]) -> usize
    ensures { result ≡ type_count cells.now }
{
    wide(cell_at(cells, 0, TYPE_COUNT))
}

pub fn lang_count(cells: &[u16]) -> usize
    ensures { result ≡ lang_count cells.now }
{
    wide(cell_at(cells, 0, LANG_COUNT))
}

pub fn shape_count(cells: &[u16]) -> usize
    ensures { result ≡ shape_count cells.now }
{
    wide(cell_at(cells, 0, SHAPE_COUNT))
}

pub fn fact_count(cells: &[u16]) -> usize
    ensures { result ≡ fact_count cells.now }
{
    wide(cell_at(cells, 0, FACT_COUNT))
}

pub fn path_count(cells: &[u16]) -> usize
    ensures { result ≡ path_count cells.now }
{
    wide(cell_at(cells, 0, PATH_COUNT))
}

pub fn form_count(cells: &[u16]) -> usize
    ensures { result ≡ form_count cells.now }
{
    wide(cell_at(cells, 0, FORM_COUNT))
}

pub fn item_count(cells: &[u16]) -> usize
    ensures { result ≡ item_count cells.now }
{
    wide(cell_at(cells, 0, ITEM_COUNT))
}

pub fn rule_count(cells: &[u16]) -> usize
    ensures { result ≡ rule_count cells.now }
{
    wide(cell_at(cells, 0, RULE_COUNT))
}

// Node v: its kind's code, its datatype, its language.
pub fn node_kind(cells: &[u16], v: NodeNo) -> u16
    ensures { result ≡ kind_at cells.now v.0 }
{
    cell_at(cells, NODE_KINDS, v.0 as usize)
}

pub fn node_type(cells: &[u16], v: NodeNo) -> u16
    ensures { result ≡ type_at cells.now v.0 }
{
    cell_at(cells, NODE_TYPES, v.0 as usize)
}

pub fn node_lang(cells: &[u16], v: NodeNo) -> u16
    ensures { result ≡ lang_at cells.now v.0 }
{
    cell_at(cells, NODE_LANGS, v.0 as usize)
}

// The link of triple i. Its subject and object are read from the columns that are lent to the path functions.
pub fn predicate(cells: &[u16], i: usize) -> LinkNo
    ensures { result.0 ≡ predicate_at cells.now i }
{
    LinkNo(cell_at(cells, PREDICATES, i))
}

// Path entry e: its code; the link of a bare link; the entries that it is made of.
pub fn path_code(cells: &[u16], e: usize) -> u16
    ensures { result ≡ path_code_at cells.now e }
{
    cell_at(cells, PATH_CODES, e)
}

pub fn path_link(cells: &[u16], e: usize) -> LinkNo
    ensures { result.0 ≡ path_first_at cells.now e }
{
    LinkNo(cell_at(cells, PATH_FIRSTS, e))
}

pub fn path_first(cells: &[u16], e: usize) -> usize
    ensures { result ≡ path_first_at cells.now e }
{
    wide(cell_at(cells, PATH_FIRSTS, e))
}

pub fn path_second(cells: &[u16], e: usize) -> usize
    ensures { result ≡ path_second_at cells.now e }
{
    wide(cell_at(cells, PATH_SECONDS, e))
}

// Form entry e: its code and operands; the first as a node (`is`), the second as a link (`equal`, `apart`, `less`, `lesseq`).
pub fn form_code(cells: &[u16], e: usize) -> u16
    ensures { result ≡ form_code_at cells.now e }
{
    cell_at(cells, FORM_CODES, e)
}

pub fn form_first(cells: &[u16], e: usize) -> u16
    ensures { result ≡ form_first_at cells.now e }
{
    cell_at(cells, FORM_FIRSTS, e)
}

pub fn form_second(cells: &[u16], e: usize) -> u16
    ensures { result ≡ form_second_at cells.now e }
{
    cell_at(cells, FORM_SECONDS, e)
}

pub fn form_third(cells: &[u16], e: usize) -> u16
    ensures { result ≡ form_third_at cells.now e }
{
    cell_at(cells, FORM_THIRDS, e)
}

pub fn form_fourth(cells: &[u16], e: usize) -> u16
    ensures { result ≡ form_fourth_at cells.now e }
{
    cell_at(cells, FORM_FOURTHS, e)
}

pub fn form_node(cells: &[u16], e: usize) -> NodeNo
    ensures { result.0 ≡ form_first_at cells.now e }
{
    NodeNo(cell_at(cells, FORM_FIRSTS, e))
}

pub fn form_link(cells: &[u16], e: usize) -> LinkNo
    ensures { result.0 ≡ form_second_at cells.now e }
{
    LinkNo(cell_at(cells, FORM_SECONDS, e))
}

// Item i of the lists: a language (`lang`) or a link (`closed`).
pub fn item(cells: &[u16], i: usize) -> u16
    ensures { result ≡ item_at cells.now i }
{
    cell_at(cells, ITEMS, i)
}

pub fn item_link(cells: &[u16], i: usize) -> LinkNo
    ensures { result.0 ≡ item_at cells.now i }
{
    LinkNo(cell_at(cells, ITEMS, i))
}

// The form entry that shape s begins with.
pub fn root(cells: &[u16], s: usize) -> usize
    ensures { result ≡ root_at cells.now s }
{
    wide(cell_at(cells, ROOTS, s))
}

// Rule k: its shape, its target's code, and the target's operand as a node (`node`, `class`) or a link (`subjects`, `objects`).
pub fn rule_shape(cells: &[u16], k: usize) -> usize
    ensures { result ≡ rule_shape_at cells.now k }
{
    wide(cell_at(cells, RULE_SHAPES, k))
}

pub fn rule_target(cells: &[u16], k: usize) -> u16
    ensures { result ≡ rule_target_at cells.now k }
{
    cell_at(cells, RULE_TARGETS, k)
}

pub fn rule_node(cells: &[u16], k: usize) -> NodeNo
    ensures { result.0 ≡ rule_operand_at cells.now k }
{
    NodeNo(cell_at(cells, RULE_OPERANDS, k))
}

pub fn rule_link(cells: &[u16], k: usize) -> LinkNo
    ensures { result.0 ≡ rule_operand_at cells.now k }
{
    LinkNo(cell_at(cells, RULE_OPERANDS, k))
}

// The number of node v, and V of form entry e.
pub fn number(values: &[i64], v: NodeNo) -> i64
    ensures { result ≡ number_at values.now v.0 }
{
    at(values, 0, v.0 as usize, 0)
}

pub fn limit(values: &[i64], e: usize) -> i64
    ensures { result ≡ limit_at values.now e }
{
    at(values, FORM_VALUES, e, 0)
}
