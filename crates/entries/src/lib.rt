// Form entries that look along paths or at facts: whether a node conforms to one.
//
// For the crates above, which lend the tables with the index of their facts:
//   ends_from      all ends from the members of a set
//   end_at         the end that an operand END is
//   between        LO and HI of a count
//   Question       a form entry, asked of a node
//     count_holds    `count`, with the nodes that conform to the part
//     all_holds      `all`, likewise
//     links_hold     `closed`
//     sets_hold      `equal`, `apart`, `less`, `lesseq`
//     lang_holds     `onelang`
#![tactic(auto)]

ghost use Rattle.std.specs.Prelude.{◌≡◌, true, ◌&&◌, ℕ, ◌<◌, ◌≤◌};
ghost use Rattle.base.specs.Bounded.{◌⇒◌, every, size};
ghost use Rattle.base.specs.Lists.{member};
ghost use Rattle.nodeset.specs.Words.{has, words_of};
ghost use Rattle.model.specs.Paths.{ends, ends_of};
ghost use Rattle.model.specs.Shapes.{within, conforms, only_listed};
ghost use Rattle.model.specs.Limits.{max_nodes};
ghost use Rattle.tables.specs.Codes as codes;
ghost use Rattle.tables.specs.Layout.{node_count, form_code_at, form_first_at, form_second_at, form_third_at, form_fourth_at};
ghost use Rattle.tables.specs.Decode.{triples_at, graph_at, items_at, path_at, upper_of, shape_at};
ghost use Rattle.paths.specs.Images.{image};
ghost use Rattle.paths.specs.Ends.{end_in, end_known};
ghost use Rattle.entries.specs.Tables.{Asked, end_for};

use conditions::{
    Order, first_clash, first_in_one, first_outside, first_shared, first_unlisted, first_unordered,
    languages, listed_links,
};
use model::NodeNo;
use nodeset::{NodeSet, count_both, insert};
use paths::{End, Indexed, add_table_ends};
use tables::codes;
use tables::layout::NO_NUMBER;
use tables::reads::{form_code, form_first, form_fourth, form_link, form_third, node_count, wide};

// All ends from the members of a set.
pub fn ends_from(tables: Indexed, end: End, from: &[u64]) -> NodeSet
    requires { end_known tables.cells.now end ≡ true }
    ensures { let cs = tables.entry.cells.now in result.words ≡ words_of (image (node_count cs) (ends_of (node_count cs) (triples_at cs) (end_in cs end)) (has from.now)) 16 }
{
    let mut words = [0u64; 16];
    add_table_ends(&mut words, end, false, from, tables);
    NodeSet { words }
}

// The operand END: `id` or a path entry.
pub fn end_at(p: usize) -> End
    ensures { result ≡ end_for p }
{
    if p == wide(NO_NUMBER) {
        return End::Itself;
    }
    End::Path(p)
}

// k lies between LO and HI, which may be `*`.
pub fn between(lo: usize, hi: usize, k: usize) -> bool
    ensures { result ≡ within lo (upper_of hi) k }
{
    (lo <= k) & ((hi == wide(NO_NUMBER)) | (k <= hi))
}

// A form entry, asked of a node.
#[derive(Clone, Copy)]
pub struct Question<'a> {
    pub tables: Indexed<'a>,
    pub form: usize,
    pub node: NodeNo,
    ghost asked: { Asked tables.cells.now tables.index.now form node.0 },
}

impl Question<'_> {
    // The ends from the node.
    fn ends(self, end: End) -> NodeSet
        requires { end_known self.tables.cells.now end ≡ true }
        ensures { let cs = self.entry.tables.cells.now in result.words ≡ words_of (ends_of (node_count cs) (triples_at cs) (end_in cs end) self.entry.node.0) 16 }
    {
        let mut from = [0u64; 16];
        insert(&mut from, self.node.0 as usize);
        ends_from(self.tables, end, &from)
    }

    // `count`: the ones in the end set ANDed with those that conform to the part, which are nodes.
    pub fn count_holds(self, part: &[u64]) -> bool
        requires { (form_code_at self.tables.cells.now self.form ≡ codes.form_count) × ((b : ℕ) → b < max_nodes → has part.now b ≡ true → b < node_count self.tables.cells.now) }
        ensures { let cs = self.entry.tables.cells.now in let e = self.entry.form in result ≡ within (form_third_at cs e) (upper_of (form_fourth_at cs e)) (size (λ b. ends (node_count cs) (triples_at cs) (path_at cs (form_first_at cs e)) self.entry.node.0 b && has part.now b) (node_count cs)) }
    {
        let cells = self.tables.cells;
        let e = self.form;
        let set = self.ends(End::Path(wide(form_first(cells, e))));
        let k = count_both(&set.words, part);
        between(wide(form_third(cells, e)), wide(form_fourth(cells, e)), k)
    }

    // `all`: every end conforms to the part.
    pub fn all_holds(self, part: &[u64]) -> bool
        requires { form_code_at self.tables.cells.now self.form ≡ codes.form_all }
        ensures { let cs = self.entry.tables.cells.now in result ≡ every (λ b. ends (node_count cs) (triples_at cs) (path_at cs (form_first_at cs self.entry.form)) self.entry.node.0 b ⇒ has part.now b) (node_count cs) }
    {
        let cells = self.tables.cells;
        let set = self.ends(End::Path(wide(form_first(cells, self.form))));
        first_outside(&set.words, part, node_count(cells)).is_none()
    }

    // `closed`: every fact out of the node has a listed link.
    pub fn links_hold(self) -> bool
        requires { form_code_at self.tables.cells.now self.form ≡ codes.form_closed }
        ensures { let cs = self.entry.tables.cells.now in let e = self.entry.form in result ≡ only_listed (triples_at cs) (λ l. member l (items_at cs (form_first_at cs e) (form_second_at cs e))) self.entry.node.0 }
    {
        let links = listed_links(self.tables.cells, self.form);
        first_unlisted(self.tables, &links.words, self.node).is_none()
    }

    // `equal`, `apart`, `less`, `lesseq`: the ends and the objects of a link.
    pub fn sets_hold(self) -> bool
        requires { (codes.form_equal ≤ form_code_at self.tables.cells.now self.form) × (form_code_at self.tables.cells.now self.form ≤ codes.form_lesseq) × (form_code_at self.tables.cells.now self.form ≡ codes.form_closed → ⊥) }
        ensures { let t = self.entry.tables in result ≡ conforms (graph_at t.cells.now t.values.now) (shape_at t.cells.now t.values.now self.entry.form) self.entry.node.0 }
    {
        let cells = self.tables.cells;
        let values = self.tables.values;
        let e = self.form;
        let first = self.ends(end_at(wide(form_first(cells, e))));
        let second = self.ends(End::Link(form_link(cells, e)));
        let a = &first.words;
        let b = &second.words;
        match form_code(cells, e) {
            codes::FORM_EQUAL => first_in_one(a, b, node_count(cells)).is_none(),
            codes::FORM_APART => first_shared(a, b, node_count(cells)).is_none(),
            codes::FORM_LESS => first_unordered(Order::Less, cells, values, a, b).is_none(),
            // lesseq
            _ => first_unordered(Order::LessEq, cells, values, a, b).is_none(),
        }
    }

    // `onelang`.
    pub fn lang_holds(self) -> bool
        requires { form_code_at self.tables.cells.now self.form ≡ codes.form_onelang }
        ensures { let t = self.entry.tables in result ≡ conforms (graph_at t.cells.now t.values.now) (shape_at t.cells.now t.values.now self.entry.form) self.entry.node.0 }
    {
        let cells = self.tables.cells;
        let set = self.ends(End::Path(wide(form_first(cells, self.form))));
        let langs = languages(cells);
        first_clash(cells, &set.words, &langs.words).is_none()
    }
}
