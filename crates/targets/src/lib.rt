// The nodes that a rule's target selects, over lent tables: the subjects and the objects of a link, the instances of a class. Each is
// found by the facts of one link: where they lead from a set of nodes or, read backwards, from where they lead to it.
//
// The instances of a class are those of the classes under it too (document 02, Job 5; SHACL: rdfs:subClassOf): these are found by a search
// from the class, along the rows of the link named `under`, read backwards.
//
// For the crate above, which shows that the tables are well formed:
//   sub_class_link   the link named `under`, by the names that the tables hold
//   target_set       the nodes that a target selects
#![tactic(auto)]

ghost use Rattle.std.specs.Prelude.{◌≡◌, [], true, not, ◌+◌, ◌<◌, ◌≤◌, eqb, length};
ghost use Rattle.std.proofs.Math.Option.{Option};
ghost use Rattle.base.specs.Bytes.{eql};
ghost use Rattle.base.specs.Lists.{allb};
ghost use Rattle.nodeset.specs.Words.{has, words_of, nodes_of};
ghost use Rattle.model.specs.Limits.{max_name, name_bytes};
ghost use Rattle.model.specs.Rules.{selects};
ghost use Rattle.tables.specs.Layout.{name_count, node_count};
ghost use Rattle.tables.specs.Decode.{graph_at};
ghost use Rattle.tables.specs.Names.{name_from, sub_class_at};
ghost use Rattle.tables.specs.WellFormed.{well_formed};
ghost use Rattle.targets.specs.Classes.{sub_of, sub_classes};
ghost use Rattle.targets.specs.Targets.{target_in, TargetOk, link_ends};

use closure::Relation;
use model::{LINK_A, LinkNo, MAX_NAME, NAME_BYTES, NodeNo};
use nodeset::NodeSet;
use paths::{End, Indexed, ROWS_WORDS, add_table_ends};
use reach::search;
use rows::all_table_ends;
use tables::layout::LINK_NAMES;
use tables::reads::{link_count, node_count};

// The target of a rule: subjects, objects of a link; instances of a class.
#[derive(Clone, Copy)]
pub enum Target {
    From(LinkNo),
    Into(LinkNo),
    Typed(NodeNo),
}

// The name in the bytes from a place on is the word, which has no zero in it.
fn is_named(names: &[u8], at: usize, word: &[u8]) -> bool
    requires { (at + name_bytes ≤ length names.now) × (length word.now ≤ max_name) × (allb (λ x. not (eqb x 0)) word.now ≡ true) }
    ensures { result ≡ eql word.now (name_from names.now at) }
{
    let end = at + word.len();
    (names[at..end] == word[..]) & ((word.len() == MAX_NAME) | (names[end] == 0))
}

// The link named `under`, which leads from a class to one that it lies under, or none; of several the lowest.
pub fn sub_class_link(names: &[u8], cells: &[u16]) -> Option<LinkNo>
    requires { (name_count ≤ length names.now) × (well_formed cells.now ≡ true) }
    ensures { sub_of result ≡ sub_class_at names.now cells.now }
{
    let count = link_count(cells);
    for k in 0..count {
        if is_named(names, LINK_NAMES + NAME_BYTES * k, b"under") {
            return Some(LinkNo(k as u16));
        }
    }
    None
}

// Class c and the classes under it by the link: the nodes from which any number of its facts lead to c.
fn under_class(link: LinkNo, c: NodeNo, tables: Indexed) -> NodeSet
    requires { c.0 < node_count tables.cells.now }
    ensures { result.words ≡ words_of (sub_classes tables.entry.cells.now (Option.some link.0) c.0) 16 }
{
    let mut rows = [0u64; ROWS_WORDS];
    all_table_ends(&mut rows, End::Link(link), true, tables);
    let relation = Relation {
        rows: &rows,
        n: node_count(tables.cells),
    };
    let found = search(relation, c.0 as usize);
    found.nodes
}

// The same by the link that there is, or none: an instance of one of these is an instance of c.
fn class_set(sub: Option<LinkNo>, c: NodeNo, tables: Indexed) -> NodeSet
    requires { c.0 < node_count tables.cells.now }
    ensures { result.words ≡ words_of (sub_classes tables.entry.cells.now (sub_of sub) c.0) 16 }
{
    let none = NodeSet::EMPTY;
    match sub {
        Some(link) => under_class(link, c, tables),
        None => none.with(c.0 as usize),
    }
}

// The nodes that the facts of a link lead to from a set; read backwards where back.
fn link_ends(link: LinkNo, back: bool, set: NodeSet, tables: Indexed) -> NodeSet
    ensures { result.words ≡ nodes_of (link_ends tables.entry.cells.now link.0 back (has set.words)) (node_count tables.entry.cells.now) }
{
    let from = set.words;
    let mut words = [0u64; 16];
    add_table_ends(&mut words, End::Link(link), back, &from, tables);
    NodeSet { words }
}

// The nodes that the target selects. No target looks at a value.
pub fn target_set(target: Target, sub: Option<LinkNo>, tables: Indexed) -> NodeSet
    requires { TargetOk tables.cells.now target }
    ensures { result.words ≡ nodes_of (selects (sub_of sub) (graph_at tables.entry.cells.now []) (target_in target)) (node_count tables.entry.cells.now) }
{
    let all = NodeSet::whole(node_count(tables.cells));
    match target {
        Target::From(link) => link_ends(link, true, all, tables),
        Target::Into(link) => link_ends(link, false, all, tables),
        Target::Typed(c) => {
            let set = class_set(sub, c, tables);
            link_ends(LinkNo(LINK_A), true, set, tables)
        }
    }
}
