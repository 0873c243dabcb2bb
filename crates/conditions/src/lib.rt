// Conditions on a node and on two sets of nodes, over the tables. The verdict and the runner share them.
//
// Searches, each ended by the first that decides. Nothing found is the condition kept, something found the condition broken, so that
// a caller reads it off by is_none or is_some:
//   first_unordered    a member of one set and one of another that are not in order (`less`, `lesseq`)
//   first_clash        two members of a set that have the same language (`onelang`)
//   first_in_one       a node in exactly one of two sets (`equal`)
//   first_shared       a node in both (`apart`)
//   first_outside      a node in the first alone (`all`)
//   first_unlisted     a fact out of a node with an unlisted link (`closed`)
//
// For the crates above, which show what a function asks for:
//   test_holds         the test that a form entry is, of a node
//   listed_links       the links that a form entry lists, for first_unlisted
//   languages          the nodes that have a language
//   insert_if          a node joins a set, or not
#![tactic(auto)]

ghost use Rattle.std.specs.Prelude.{◌≡◌, cond, not, ◌&&◌, ◌||◌, List, ◌+◌, ◌<◌, ◌≤◌, eqb, ltb, length, ℤ};
ghost use Rattle.std.proofs.Math.Option.{Option};
ghost use Rattle.base.specs.Lists.{member};
ghost use Rattle.nodeset.specs.Words.{has, words_of};
ghost use Rattle.model.specs.Shapes.{node_kind, datatype, satisfies, conforms};
ghost use Rattle.model.specs.Limits.{max_nodes};
ghost use Rattle.tables.specs.Codes as codes;
ghost use Rattle.tables.specs.Layout.{node_count, fact_count, kind_at, lang_at, number_at, form_code_at, form_first_at, form_second_at};
ghost use Rattle.tables.specs.Decode.{term_at, graph_at, kind_of, items_at, shape_at};
ghost use Rattle.plan.specs.Conditions.{clash};
ghost use Rattle.conditions.specs.Pairs.{link_words, unlisted, unordered, comes_back};
ghost use Rattle.conditions.specs.Searches.{first, first_pair, among, first_in_one, node_found, pair_found, side_found, fact_found, MembersListed};

use base::pick;
use model::{MAX_LINKS, MAX_NODES, NodeNo, TYPE_LANGSTRING};
use nodeset::{NodeSet, insert, next_member, next_outside, next_shared, test};
use paths::{Indexed, last_out, next_out};
use tables::codes;
use tables::reads::{
    form_code, form_first, form_second, item, item_link, limit, node_count, node_kind, node_lang,
    node_type, number, predicate, wide,
};

// A set of links, a bit for each: link l is at bit l mod 64 of word l div 64.
#[derive(Clone, Copy)]
pub struct LinkSet {
    pub words: [u64; LINK_WORDS],
}

const LINK_WORDS: usize = MAX_LINKS / 64;

// A node in exactly one of two sets, by the set that lacks it.
#[derive(Clone, Copy)]
pub enum Side {
    SecondLacks(NodeNo),
    FirstLacks(NodeNo),
}

// Language x is one of n languages from item i on.
fn listed(cells: &[u16], i: u16, n: u16, x: u16) -> bool
    ensures { result ≡ member x (items_at cells.now i n) }
{
    let from = wide(i);
    (from..from + wide(n)).any(|k| x == item(cells, k))
}

// The links that form entry e lists.
pub fn listed_links(cells: &[u16], e: usize) -> LinkSet
    ensures { result.words ≡ words_of (λ l. member l (items_at cells.now (form_first_at cells.now e) (form_second_at cells.now e))) link_words }
{
    let from = wide(form_first(cells, e));
    let count = wide(form_second(cells, e));
    let mut words = [0u64; LINK_WORDS];
    for i in from..from + count {
        insert(&mut words, item_link(cells, i).0 as usize);
    }
    LinkSet { words }
}

// The first fact out of v that has a link that is not listed. The chain of v goes downward, so the last on it that has
// is the first. What was found is its number and one, 0 where nothing was: an Option would be copied in each round.
pub fn first_unlisted(tables: Indexed, links: &[u64], v: NodeNo) -> Option<usize>
    ensures { fact_found result ≡ first (unlisted tables.entry.cells.now (has links.now) v.0) (fact_count tables.entry.cells.now) }
{
    let cells = tables.cells;
    let mut lowest = 0;
    let mut next = last_out(tables.index, v);
    while 0 < next {
        let i = next - 1;
        let listed = test(links, predicate(cells, i).0 as usize);
        lowest = pick(listed, lowest, next);
        next = next_out(tables.index, i);
    }
    lowest.checked_sub(1)
}

// Node v is of kind k. The codes of kinds in the tables: 0 thing, 1 blank, 2 number, 3 text, 4 words; another counts as 0.
fn kind_holds(cells: &[u16], k: u16, v: NodeNo) -> bool
    requires { v.0 < node_count cells.now }
    ensures { (vs : List ℤ) → result ≡ satisfies (node_kind (kind_of k)) (term_at cells.now vs v.0) }
{
    let kind = node_kind(cells, v);
    match k {
        codes::KIND_THING => (kind == codes::NODE_THING) | (codes::NODE_WORDS < kind),
        codes::KIND_BLANK => kind == codes::NODE_BLANK,
        codes::KIND_LITERAL..=codes::LAST => {
            (codes::NODE_BLANK < kind) & (kind < codes::NODE_UNKNOWN)
        }
    }
}

// Node v is a literal of datatype t; type 0 is that of words with a language.
fn datatype_holds(cells: &[u16], t: u16, v: NodeNo) -> bool
    requires { v.0 < node_count cells.now }
    ensures { (vs : List ℤ) → result ≡ satisfies (datatype t) (term_at cells.now vs v.0) }
{
    let kind = node_kind(cells, v);
    (((kind == codes::NODE_NUMBER) | (kind == codes::NODE_TEXT)) & (t == node_type(cells, v)))
        | ((kind == codes::NODE_WORDS) & (t == TYPE_LANGSTRING))
}

// Node v has a language; a number.
fn has_language(cells: &[u16], v: NodeNo) -> bool
    ensures { result ≡ eqb (kind_at cells.now v.0) codes.node_words }
{
    node_kind(cells, v) == codes::NODE_WORDS
}

fn has_number(cells: &[u16], v: NodeNo) -> bool
    ensures { result ≡ eqb (kind_at cells.now v.0) codes.node_number }
{
    node_kind(cells, v) == codes::NODE_NUMBER
}

// Node v meets the test that form entry e is.
pub fn test_holds(cells: &[u16], values: &[i64], e: usize, v: NodeNo) -> bool
    requires { (v.0 < node_count cells.now) × (codes.form_kind ≤ form_code_at cells.now e) × (form_code_at cells.now e ≤ codes.form_below) }
    ensures { result ≡ conforms (graph_at cells.now values.now) (shape_at cells.now values.now e) v.0 }
{
    let a = form_first(cells, e);
    match form_code(cells, e) {
        codes::FORM_KIND => kind_holds(cells, a, v),
        codes::FORM_DATATYPE => datatype_holds(cells, a, v),
        codes::FORM_LANG => has_language(cells, v)
            & listed(cells, a, form_second(cells, e), node_lang(cells, v)),
        codes::FORM_FROM => has_number(cells, v) & (limit(values, e) <= number(values, v)),
        codes::FORM_ABOVE => has_number(cells, v) & (limit(values, e) < number(values, v)),
        codes::FORM_TO => has_number(cells, v) & (number(values, v) <= limit(values, e)),
        // below
        _ => has_number(cells, v) & (number(values, v) < limit(values, e)),
    }
}

// How the members of a pair are to be ordered.
#[derive(Clone, Copy)]
pub enum Order {
    Less,
    LessEq,
}

// A pair is not so ordered: the first has no number, where not known, or the second has none, or its number does not come after
// the first's, which is value.
fn breaks_order(
    order: Order,
    known: bool,
    value: i64,
    cells: &[u16],
    values: &[i64],
    y: NodeNo,
) -> bool
    ensures { result ≡ (not known || (not (eqb (kind_at cells.now y.0) codes.node_number) || comes_back order value (number_at values.now y.0))) }
{
    !known
        || !has_number(cells, y)
        || match order {
            Order::Less => number(values, y) <= value,
            Order::LessEq => number(values, y) < value,
        }
}

// The numbers below n in both sets, lowest first, written to the beginning of a list.
fn gather<'a>(into: &'a mut [u16], a: &[u64], b: &[u64], n: usize) -> &'a [u16]
    requires { (n ≤ max_nodes) × (max_nodes ≤ length into.old) }
    ensures { MembersListed (λ m. has a.now m && has b.now m) n result.now (length result.now) }
{
    let mut count = 0;
    let mut x = next_shared(a, b, 0, n);
    while x < n {
        into[count] = x as u16;
        count += 1;
        x = next_shared(a, b, x + 1, n);
    }
    &into[..count]
}

// The first pair of a member of a and one of b that are not so ordered: not both have a number, the first less than the second, or
// at most. The members of b are gathered once, so that going from one to the next costs nothing; what is asked of the first of a
// pair is asked once for all its seconds.
pub fn first_unordered(
    order: Order,
    cells: &[u16],
    values: &[i64],
    a: &[u64],
    b: &[u64],
) -> Option<(NodeNo, NodeNo)>
    requires { node_count cells.now ≤ max_nodes }
    ensures { pair_found result ≡ first_pair (among (has a.now) (has b.now) (λ x y. unordered order (term_at cells.now values.now x) (term_at cells.now values.now y))) (node_count cells.now) }
{
    let n = node_count(cells);
    let mut answer = None;
    let mut x = next_member(a, 0, n);
    if n <= x {
        return answer;
    }
    let mut room = [0u16; MAX_NODES];
    let seconds = gather(&mut room, b, b, n);
    'search: while x < n {
        let first = NodeNo(x as u16);
        let known = has_number(cells, first);
        let value = number(values, first);
        for y in seconds {
            let second = NodeNo(*y);
            if breaks_order(order, known, value, cells, values, second) {
                answer = Some((first, second));
                break 'search;
            }
        }
        x = next_member(a, x + 1, n);
    }
    answer
}

// x joins the set, where yes.
pub fn insert_if(words: &mut [u64], x: NodeNo, yes: bool)
    ensures { words.new ≡ words_of (λ m. has words.old m || (yes && eqb m x.0)) (length words.old) }
{
    if yes {
        insert(words, x.0 as usize);
    }
}

// The nodes that have a language.
pub fn languages(cells: &[u16]) -> NodeSet
    ensures { result.words ≡ words_of (λ m. ltb m (node_count cells.now) && eqb (kind_at cells.now m) codes.node_words) 16 }
{
    let mut words = [0u64; 16];
    for x in 0..node_count(cells) {
        let v = NodeNo(x as u16);
        insert_if(&mut words, v, has_language(cells, v));
    }
    NodeSet { words }
}

// Node y has a language, and it is the first's, which is lang where the first is tagged.
fn same_language(tagged: bool, lang: u16, cells: &[u16], y: NodeNo) -> bool
    ensures { result ≡ (tagged && (eqb (kind_at cells.now y.0) codes.node_words && eqb lang (lang_at cells.now y.0))) }
{
    tagged && lang == node_lang(cells, y) && has_language(cells, y)
}

// The first two numbers in both sets that have the same language. The second set is that of the nodes that have one, since
// others never clash; or any other. The inner loop starts after the outer; it goes over places, since of a slice the edit
// `second_too_late` would pass the end as well.
pub fn first_clash(cells: &[u16], a: &[u64], b: &[u64]) -> Option<(NodeNo, NodeNo)>
    requires { node_count cells.now ≤ max_nodes }
    ensures { (vs : List ℤ) → pair_found result ≡ first_pair (among (λ w. has a.now w && has b.now w) (λ w. has a.now w && has b.now w) (clash (term_at cells.now vs))) (node_count cells.now) }
{
    let n = node_count(cells);
    let mut answer = None;
    let mut room = [0u16; MAX_NODES];
    let ends = gather(&mut room, a, b, n);
    'search: for (i, x) in ends.iter().enumerate() {
        let first = NodeNo(*x);
        let known = has_language(cells, first);
        let lang = node_lang(cells, first);
        for k in i + 1..ends.len() {
            let second = NodeNo(ends[k]);
            if same_language(known, lang, cells, second) {
                answer = Some((first, second));
                break 'search;
            }
        }
    }
    answer
}

// x where it is below n, as what a search found.
fn found_below(x: usize, n: usize) -> Option<NodeNo>
    requires { n ≤ max_nodes }
    ensures { node_found result ≡ cond (ltb x n) (Option.some x) Option.none }
{
    if x < n { Some(NodeNo(x as u16)) } else { None }
}

// The first number of a below n that is not in b.
pub fn first_outside(a: &[u64], b: &[u64], n: usize) -> Option<NodeNo>
    requires { n ≤ max_nodes }
    ensures { node_found result ≡ first (λ x. has a.now x && not (has b.now x)) n }
{
    found_below(next_outside(a, b, 0, n), n)
}

// The first number below n that is in both sets.
pub fn first_shared(a: &[u64], b: &[u64], n: usize) -> Option<NodeNo>
    requires { n ≤ max_nodes }
    ensures { node_found result ≡ first (λ x. has a.now x && has b.now x) n }
{
    found_below(next_shared(a, b, 0, n), n)
}

// The first number below n that is in exactly one of two sets.
pub fn first_in_one(a: &[u64], b: &[u64], n: usize) -> Option<Side>
    requires { n ≤ max_nodes }
    ensures { side_found result ≡ first_in_one n (has a.now) (has b.now) }
{
    let x = next_outside(a, b, 0, n);
    let y = next_outside(b, a, 0, n);
    if x < y {
        return Some(Side::SecondLacks(NodeNo(x as u16)));
    }
    if y < x {
        return Some(Side::FirstLacks(NodeNo(y as u16)));
    }
    None
}
