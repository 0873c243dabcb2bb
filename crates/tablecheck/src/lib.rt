// Refusal 9: whether tables that somebody lends are well formed. Operations: well_formed; it takes any content of any length,
// and reads some fifty thousand cells at the most. For plancheck: node_there, link_there, end_ok.
#![tactic(auto)]

ghost use Rattle.std.specs.Prelude.{◌≡◌, [], ◌&&◌, ◌+◌, ltb, take, drop};
ghost use Rattle.base.specs.Bounded.{every};
ghost use Rattle.tables.specs.Layout.{root_at, node_count, link_count, shape_count, fact_count, path_count, form_count, rule_count};
ghost use Rattle.tables.specs.Decode.{path_entry_at, entry_at};
ghost use Rattle.tables.specs.Entries.{Entry};
ghost use Rattle.tables.specs.WellFormed.{counts_ok, node_ok, fact_ok, path_entry_ok, item_ok, items_ok, end_number_ok, entry_ok, rule_ok, well_formed};
ghost use Rattle.tablecheck.specs.Parts.{place_below};

use model::{LinkNo, NodeNo};
use tables::layout::{LINK_COUNT, NO_NUMBER, NODE_COUNT, OBJECTS, PREDICATES, SUBJECTS};
use tables::{codes, reads};

fn below(x: u16, n: usize) -> bool
    ensures { result ≡ ltb x n }
{
    reads::wide(x) < n
}

// The tables have a node v; a link l.
pub fn node_there(cells: &[u16], v: NodeNo) -> bool
    ensures { result ≡ ltb v.0 (node_count cells.now) }
{
    below(v.0, reads::node_count(cells))
}

pub fn link_there(cells: &[u16], l: LinkNo) -> bool
    ensures { result ≡ ltb l.0 (link_count cells.now) }
{
    below(l.0, reads::link_count(cells))
}

#[tactic(auto, unfolding(tables::specs::WellFormed::counts_ok))]
fn counts_ok(cells: &[u16]) -> bool
    ensures { result ≡ counts_ok cells.now }
{
    reads::node_count(cells) <= model::MAX_NODES
        && reads::link_count(cells) <= model::MAX_LINKS
        && reads::type_count(cells) <= model::MAX_TYPES
        && reads::lang_count(cells) <= model::MAX_LANGS
        && reads::shape_count(cells) <= model::MAX_SHAPES
        && reads::fact_count(cells) <= model::MAX_FACTS
        && reads::path_count(cells) <= model::MAX_PATHS
        && reads::form_count(cells) <= model::MAX_FORMS
        && reads::item_count(cells) <= model::MAX_ITEMS
        && reads::rule_count(cells) <= model::MAX_RULES
}

fn node_ok(cells: &[u16], v: NodeNo) -> bool
    ensures { result ≡ node_ok cells.now v.0 }
{
    match reads::node_kind(cells, v) {
        codes::NODE_THING | codes::NODE_BLANK => true,
        codes::NODE_NUMBER | codes::NODE_TEXT => below(
            reads::node_type(cells, v),
            reads::type_count(cells),
        ),
        codes::NODE_WORDS => below(reads::node_lang(cells, v), reads::lang_count(cells)),
        codes::NODE_UNKNOWN..=codes::LAST => false,
    }
}

// No early exit: with one (`all`) the whole check takes twice as long.
fn nodes_ok(cells: &[u16]) -> bool
    ensures { result ≡ every (node_ok cells.now) (node_count cells.now) }
{
    (0..reads::cell_at(cells, 0, NODE_COUNT)).fold(true, |ok, v| ok & node_ok(cells, NodeNo(v)))
}

// The cells of len places from base on, as far as there are cells.
fn column(cells: &[u16], base: usize, len: usize) -> &[u16]
    ensures { result.now ≡ take len (drop base cells.now) }
{
    let rest = &cells[base.min(cells.len())..];
    &rest[..len.min(rest.len())]
}

// Each of len places of the column that begins at base is below the bound. A place past the end reads as zero.
// No early exit: many cells are compared at once.
fn column_below(cells: &[u16], base: usize, len: usize, bound: u16) -> bool
    ensures { result ≡ every (place_below cells.now base bound) len }
{
    let there = column(cells, base, len);
    let rest = (there.len() == len) | (0 < bound);
    there.iter().fold(rest, |ok, x| ok & (*x < bound))
}

// Column by column: subjects, predicates, objects.
fn facts_ok(cells: &[u16]) -> bool
    ensures { result ≡ every (fact_ok cells.now) (fact_count cells.now) }
{
    let n = reads::fact_count(cells);
    let nodes = reads::cell_at(cells, 0, NODE_COUNT);
    let links = reads::cell_at(cells, 0, LINK_COUNT);
    column_below(cells, SUBJECTS, n, nodes)
        & (column_below(cells, PREDICATES, n, links) & column_below(cells, OBJECTS, n, nodes))
}

fn path_ok(cells: &[u16], e: usize) -> bool
    ensures { result ≡ path_entry_ok cells.now e (path_entry_at cells.now e) }
{
    let a = reads::path_first(cells, e);
    let b = reads::path_second(cells, e);
    match reads::path_code(cells, e) {
        codes::PATH_LINK => link_there(cells, reads::path_link(cells, e)),
        codes::PATH_INV | codes::PATH_STAR | codes::PATH_PLUS => a < e,
        codes::PATH_SEQ | codes::PATH_ALT => (a < e) & (b < e),
        codes::PATH_UNKNOWN..=codes::LAST => false,
    }
}

// Item i is there, and is below the bound.
fn item_ok(cells: &[u16], bound: usize, i: usize) -> bool
    ensures { result ≡ item_ok cells.now bound i }
{
    (i < reads::item_count(cells)) & below(reads::item(cells, i), bound)
}

// n items from number i on.
fn items_ok(cells: &[u16], bound: usize, i: u16, n: u16) -> bool
    ensures { result ≡ items_ok cells.now bound i n }
{
    let from = reads::wide(i);
    (from..from + reads::wide(n)).all(|k| item_ok(cells, bound, k))
}

// Shape s begins with an entry before e.
fn shape_before(cells: &[u16], s: u16, e: usize) -> bool
    ensures { result ≡ (ltb s (shape_count cells.now) && ltb (root_at cells.now s) e) }
{
    below(s, reads::shape_count(cells)) & (reads::root(cells, reads::wide(s)) < e)
}

// The operand END of a form or of a step: a path entry that is there, or `id`.
pub fn end_ok(cells: &[u16], p: usize) -> bool
    ensures { result ≡ end_number_ok cells.now p }
{
    (p < reads::path_count(cells)) | (p == reads::wide(NO_NUMBER))
}

// The operands of `count`: a path entry, a form entry, LO and HI.
fn count_ok(cells: &[u16], e: usize, p: u16, a: u16, lo: u16, hi: u16) -> bool
    ensures { result ≡ entry_ok cells.now e (Entry.count p a lo hi) }
{
    (below(p, reads::path_count(cells)) & below(a, e))
        & ((reads::wide(lo) <= model::MAX_COUNT)
            & ((reads::wide(hi) <= model::MAX_COUNT) | (hi == NO_NUMBER)))
}

fn entry_ok(cells: &[u16], e: usize) -> bool
    ensures { result ≡ entry_ok cells.now e (entry_at cells.now [] e) }
{
    let a = reads::form_first(cells, e);
    let b = reads::form_second(cells, e);
    match reads::form_code(cells, e) {
        codes::FORM_TRUE => true,
        codes::FORM_IS => node_there(cells, reads::form_node(cells, e)),
        codes::FORM_SHAPE => shape_before(cells, a, e),
        codes::FORM_AND | codes::FORM_OR => below(a, e) & below(b, e),
        codes::FORM_NOT => below(a, e),
        codes::FORM_KIND => a < codes::KIND_UNKNOWN,
        codes::FORM_DATATYPE => below(a, reads::type_count(cells)),
        codes::FORM_LANG => items_ok(cells, reads::lang_count(cells), a, b),
        codes::FORM_FROM..=codes::FORM_BELOW => true,
        codes::FORM_COUNT => count_ok(
            cells,
            e,
            a,
            b,
            reads::form_third(cells, e),
            reads::form_fourth(cells, e),
        ),
        codes::FORM_ALL => below(a, reads::path_count(cells)) & below(b, e),
        codes::FORM_EQUAL | codes::FORM_APART => end_ok(cells, reads::wide(a))
            & link_there(cells, reads::form_link(cells, e)),
        codes::FORM_CLOSED => items_ok(cells, reads::link_count(cells), a, b),
        codes::FORM_LESS | codes::FORM_LESSEQ => below(a, reads::path_count(cells))
            & link_there(cells, reads::form_link(cells, e)),
        codes::FORM_ONELANG => below(a, reads::path_count(cells)),
        codes::FORM_UNKNOWN..=codes::LAST => false,
    }
}

fn rule_ok(cells: &[u16], k: usize) -> bool
    ensures { result ≡ rule_ok cells.now k }
{
    if reads::shape_count(cells) <= reads::rule_shape(cells, k) {
        return false;
    }
    match reads::rule_target(cells, k) {
        codes::TARGET_NODE | codes::TARGET_CLASS => node_there(cells, reads::rule_node(cells, k)),
        codes::TARGET_SUBJECTS | codes::TARGET_OBJECTS => link_there(
            cells,
            reads::rule_link(cells, k),
        ),
        codes::TARGET_UNKNOWN..=codes::LAST => false,
    }
}

fn paths_ok(cells: &[u16]) -> bool
    ensures { result ≡ every (λ e. path_entry_ok cells.now e (path_entry_at cells.now e)) (path_count cells.now) }
{
    (0..reads::path_count(cells)).all(|e| path_ok(cells, e))
}

fn forms_ok(cells: &[u16]) -> bool
    ensures { result ≡ every (λ e. entry_ok cells.now e (entry_at cells.now [] e)) (form_count cells.now) }
{
    (0..reads::form_count(cells)).all(|e| entry_ok(cells, e))
}

fn shapes_ok(cells: &[u16]) -> bool
    ensures { result ≡ every (λ s. ltb (root_at cells.now s) (form_count cells.now)) (shape_count cells.now) }
{
    (0..reads::shape_count(cells)).all(|s| reads::root(cells, s) < reads::form_count(cells))
}

fn rules_ok(cells: &[u16]) -> bool
    ensures { result ≡ every (rule_ok cells.now) (rule_count cells.now) }
{
    (0..reads::rule_count(cells)).all(|k| rule_ok(cells, k))
}

// Refusal 9 is for tables of which this is false; of a longer slice the caller lends the part up to CELLS. The counts are
// looked at first: no loop is longer than its limit.
#[tactic(auto, unfolding(tables::specs::WellFormed::well_formed))]
pub fn well_formed(cells: &[u16]) -> bool
    ensures { result ≡ well_formed cells.now }
{
    counts_ok(cells)
        && nodes_ok(cells)
        && facts_ok(cells)
        && paths_ok(cells)
        && forms_ok(cells)
        && shapes_ok(cells)
        && rules_ok(cells)
}
