// The nodes of which a condition holds, as sixteen words: the sets that the steps of a plan mean. The verdict asks for them where
// many nodes are open.
//
// For the crate above, which shows that the tables and the step are well formed:
//   EndRows       the ends of all nodes, as rows, which are kept for the next step
//   plain_set     the nodes of which a condition holds that looks at the node alone
//   links_set     .. that looks at the links of a list
//   path_set      .. on the ends of a path and the set of a step
//   lang_set      .. on the ends of a path that have a language
//   ends_set      .. on two end sets
//   both_set, either_set   the nodes in both of two sets, in one of them
#![tactic(auto)]

mod end_rows;

ghost use Rattle.std.specs.Prelude.{ℕ, Bool, ◌≤◌, Some, ◌≡◌, true, false, ◌&&◌, ◌||◌, ◌*◌, ◌<◌, drop};
ghost use Rattle.nodeset.specs.Words.{has, nodes_of};
ghost use Rattle.model.specs.Shapes.{from, objects, starts};
ghost use Rattle.model.specs.declared.NodeNo.{NodeNo};
ghost use Rattle.model.specs.Limits.{max_nodes};
ghost use Rattle.base.specs.Lists.{member};
ghost use Rattle.tables.specs.Codes as codes;
ghost use Rattle.tables.specs.Layout.{node_count, path_count, form_count, form_code_at, form_first_at, form_second_at};
ghost use Rattle.tables.specs.Decode.{graph_at, items_at, path_at};
ghost use Rattle.paths.specs.declared.End.{End};
ghost use Rattle.paths.specs.Ends.{end_in, end_known};
ghost use Rattle.stepsets.specs.Conditions.{holds_of, tagged, condition_ok};

use crate::end_rows::fill;
pub use crate::end_rows::{EndRows, Held};
use conditions::{
    Order, first_clash, first_in_one, first_outside, first_shared, first_unlisted, first_unordered,
    insert_if, languages, listed_links, test_holds,
};
use entries::between;
use model::{LinkNo, NodeNo};
use nodeset::{NodeSet, count_both, load};
use paths::{End, Indexed};
use tables::reads::node_count;

// What is asked of each node, a case for each keeping and each breaking step: whether it is a node; whether it meets the test of a
// form entry; how many of its ends are in a set, and that all are; whether two end sets are equal, are apart, whether each pair is
// less, or at most; whether no two ends in a set have the same language; whether each fact out of it has a listed link.
// An enum and no closure for each: the runner decides over the step codes in one match (document 01), which with a call and its
// closure in each of 26 arms passes forty lines.
#[derive(Clone, Copy)]
pub enum Condition {
    Is(NodeNo),
    IsNot(NodeNo),
    Test(usize),
    Untest(usize),
    Count(usize, usize),
    Every,
    Equal,
    Unequal,
    Apart,
    Meet,
    Less,
    NotLess,
    LessEq,
    NotLessEq,
    OneLang,
    ManyLang,
    Closed,
    Open,
}

// The condition holds of node v, with its two sets. Part of each loop over the nodes: as a call it takes twice the time.
#[inline(always)]
fn condition_holds(condition: Condition, tables: Indexed, a: &[u64], b: &[u64], v: NodeNo) -> bool
    requires { let cs = tables.cells.now in (v.0 < node_count cs) × (condition_ok cs condition ≡ true) }
    ensures { result ≡ holds_of tables.entry.cells.now tables.entry.values.now condition (has a.now) (has b.now) v.0 }
{
    let cells = tables.cells;
    let values = tables.values;
    let n = node_count(cells);
    match condition {
        Condition::Is(c) => v.0 == c.0,
        Condition::IsNot(c) => v.0 != c.0,
        Condition::Test(e) => test_holds(cells, values, e, v),
        Condition::Untest(e) => !test_holds(cells, values, e, v),
        Condition::Count(lo, hi) => between(lo, hi, count_both(a, b)),
        Condition::Every => first_outside(a, b, n).is_none(),
        Condition::Equal => first_in_one(a, b, n).is_none(),
        Condition::Unequal => first_in_one(a, b, n).is_some(),
        Condition::Apart => first_shared(a, b, n).is_none(),
        Condition::Meet => first_shared(a, b, n).is_some(),
        Condition::Less => first_unordered(Order::Less, cells, values, a, b).is_none(),
        Condition::NotLess => first_unordered(Order::Less, cells, values, a, b).is_some(),
        Condition::LessEq => first_unordered(Order::LessEq, cells, values, a, b).is_none(),
        Condition::NotLessEq => first_unordered(Order::LessEq, cells, values, a, b).is_some(),
        Condition::OneLang => first_clash(cells, a, b).is_none(),
        Condition::ManyLang => first_clash(cells, a, b).is_some(),
        Condition::Closed => first_unlisted(tables, b, v).is_none(),
        Condition::Open => first_unlisted(tables, b, v).is_some(),
    }
}

// The words from a place on; none past the end.
fn part(words: &[u64], at: usize) -> &[u64]
    ensures { result.now ≡ drop at words.now }
{
    if at < words.len() {
        return &words[at..];
    }
    let end = words.len();
    &words[end..]
}

// The nodes below n that pass a test.
fn nodes_where<F: Fn(NodeNo) -> bool>(n: usize, test: F) -> NodeSet
    requires { (n ≤ max_nodes) × ((v : NodeNo) → v.0 < n → F.pre test v) }
    ensures { (p : ℕ → Bool) → ((v : NodeNo) (yes : Bool) → v.0 < n → F.post test v yes → yes ≡ p v.0) → result.words ≡ nodes_of p n }
{
    let mut words = [0u64; 16];
    for x in 0..n {
        let v = NodeNo(x as u16);
        insert_if(&mut words, v, test(v));
    }
    NodeSet { words }
}

// A condition on the node alone.
pub fn plain_set(condition: Condition, tables: Indexed) -> NodeSet
    requires { condition_ok tables.cells.now condition ≡ true }
    ensures { let cs = tables.entry.cells.now in result.words ≡ nodes_of (λ v. holds_of cs tables.entry.values.now condition (λ w. false) (λ w. false) v) (node_count cs) }
{
    let none = [0u64; 16];
    nodes_where(
        node_count(tables.cells),
        |v| condition_holds(condition, tables, &none, &none, v),
    )
}

// A condition on the links that form entry e lists.
pub fn links_set(condition: Condition, tables: Indexed, e: usize) -> NodeSet
    requires { let cs = tables.cells.now in (e < form_count cs) × (form_code_at cs e ≡ codes.form_closed) × (condition_ok cs condition ≡ true) }
    ensures { let cs = tables.entry.cells.now in result.words ≡ nodes_of (λ v. holds_of cs tables.entry.values.now condition (λ w. false) (λ l. member l (items_at cs (form_first_at cs e) (form_second_at cs e))) v) (node_count cs) }
{
    let none = [0u64; 16];
    let links = listed_links(tables.cells, e);
    let words = links.words;
    nodes_where(
        node_count(tables.cells),
        |v| condition_holds(condition, tables, &none, &words, v),
    )
}

// A condition on the ends of a path entry, and the set of a step in the work space.
pub fn path_set<const WORDS: usize>(
    rows: &mut EndRows<WORDS>,
    condition: Condition,
    path: usize,
    work: &[u64],
    step: usize,
) -> NodeSet
    requires { let cs = rows.old.tables.cells.now in (path < path_count cs) × (step < 65536) × (condition_ok cs condition ≡ true) }
    ensures words_value { let cs = rows.old.tables.cells.now in let vs = rows.old.tables.values.now in result.words ≡ nodes_of (λ v. holds_of cs vs condition (from (graph_at cs vs) (path_at cs path) v) (has (drop (16 * step) work.now)) v) (node_count cs) }
    ensures tables { rows.new.tables ≡ rows.old.tables }
    ensures first_of { rows.new.first.of ≡ Some (End.Path path) }
    ensures second { rows.new.second ≡ rows.old.second }
{
    let tables = rows.tables;
    fill(
        &mut rows.first.rows,
        &mut rows.first.of,
        End::Path(path),
        tables,
    );
    let first = &rows.first.rows[..];
    let set = part(work, 16 * step);
    nodes_where(
        node_count(tables.cells),
        |v| condition_holds(condition, tables, &first[16 * v.0 as usize..], set, v),
    )
}

// A condition on the ends of a path entry and the nodes that have a language.
pub fn lang_set<const WORDS: usize>(
    rows: &mut EndRows<WORDS>,
    condition: Condition,
    path: usize,
) -> NodeSet
    requires { let cs = rows.old.tables.cells.now in (path < path_count cs) × (condition_ok cs condition ≡ true) }
    ensures words_value { let cs = rows.old.tables.cells.now in let vs = rows.old.tables.values.now in result.words ≡ nodes_of (λ v. holds_of cs vs condition (from (graph_at cs vs) (path_at cs path) v) (tagged cs) v) (node_count cs) }
    ensures tables { rows.new.tables ≡ rows.old.tables }
    ensures first_of { rows.new.first.of ≡ Some (End.Path path) }
    ensures second { rows.new.second ≡ rows.old.second }
{
    let tables = rows.tables;
    fill(
        &mut rows.first.rows,
        &mut rows.first.of,
        End::Path(path),
        tables,
    );
    let set = languages(tables.cells);
    let first = &rows.first.rows[..];
    let words = set.words;
    nodes_where(
        node_count(tables.cells),
        |v| condition_holds(condition, tables, &first[16 * v.0 as usize..], &words, v),
    )
}

// A condition on the ends of END and those of a link.
pub fn ends_set<const WORDS: usize>(
    rows: &mut EndRows<WORDS>,
    condition: Condition,
    end: End,
    link: LinkNo,
) -> NodeSet
    requires { let cs = rows.old.tables.cells.now in (end_known cs end ≡ true) × (condition_ok cs condition ≡ true) }
    ensures words_value { let cs = rows.old.tables.cells.now in let vs = rows.old.tables.values.now in result.words ≡ nodes_of (λ v. holds_of cs vs condition (starts (graph_at cs vs) (end_in cs end) v) (objects (graph_at cs vs) link.0 v) v) (node_count cs) }
    ensures tables { rows.new.tables ≡ rows.old.tables }
    ensures first_of { rows.new.first.of ≡ Some end }
    ensures second_of { rows.new.second.of ≡ Some (End.Link link) }
{
    let tables = rows.tables;
    fill(&mut rows.first.rows, &mut rows.first.of, end, tables);
    fill(
        &mut rows.second.rows,
        &mut rows.second.of,
        End::Link(link),
        tables,
    );
    let first = &rows.first.rows[..];
    let second = &rows.second.rows[..];
    nodes_where(
        node_count(tables.cells),
        |v| condition_holds(
            condition,
            tables,
            &first[16 * v.0 as usize..],
            &second[16 * v.0 as usize..],
            v,
        ),
    )
}

// The nodes in the sets of both steps, left and right; in one of them.
pub fn both_set(work: &[u64], left: usize, right: usize, nodes: usize) -> NodeSet
    requires { (left < 65536) × (right < 65536) }
    ensures { result.words ≡ nodes_of (λ v. has (drop (16 * left) work.now) v && has (drop (16 * right) work.now) v) nodes }
{
    let a = load(part(work, 16 * left));
    let b = load(part(work, 16 * right));
    NodeSet::whole(nodes).intersection(a.intersection(b))
}

pub fn either_set(work: &[u64], left: usize, right: usize, nodes: usize) -> NodeSet
    requires { (left < 65536) × (right < 65536) }
    ensures { result.words ≡ nodes_of (λ v. has (drop (16 * left) work.now) v || has (drop (16 * right) work.now) v) nodes }
{
    let a = load(part(work, 16 * left));
    let b = load(part(work, 16 * right));
    NodeSet::whole(nodes).intersection(a.union(b))
}
