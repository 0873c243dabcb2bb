// Tables and a plan to the work space: each step's set, sixteen words, at 16 times the step's number.
// Operations: run.
//
// It sees neither reader nor compiler nor verdict: any tables and any plan may be handed in, and are checked before the first
// word is written.
#![tactic(auto)]

ghost use Rattle.std.specs.Prelude.{◌≡◌, true, ◌*◌, ◌<◌, ◌≤◌, length};
ghost use Rattle.model.specs.Limits.{max_steps, max_nodes};
ghost use Rattle.tables.specs.Layout.{name_count, cell_count, node_count};
ghost use Rattle.tables.specs.Names.{sub_class_at};
ghost use Rattle.tables.specs.WellFormed.{well_formed};
ghost use Rattle.plan.specs.Layout.{step_at};
ghost use Rattle.plan.specs.WellFormed.{step_ok, plan_well_formed};
ghost use Rattle.targets.specs.Classes.{sub_of};
ghost use Rattle.runner.specs.Kinds.{kind_of};
ghost use Rattle.model.specs.Answers.{answer_of};
ghost use Rattle.runner.specs.Run.{work_count, filled, run_long, run_answer, work_after};
ghost use Rattle.runner.specs.Steps.{step_from, put};

use entries::end_at;
use model::{LinkNo, MAX_STEPS, Refusal};
use nodeset::{NodeSet, store};
use paths::{End, INDEX_CELLS, Indexed, ROWS_WORDS, index_table};
use plan::{PLAN_CELLS, steps};
use plancheck::both_well_formed;
use plancheck::reads::{
    step_code, step_count, step_first, step_fourth, step_link, step_node, step_second,
    step_second_link, step_third,
};
use stepsets::{
    Condition, EndRows, both_set, either_set, ends_set, lang_set, links_set, path_set, plain_set,
};
use tables::layout::{CELLS, NAMES, VALUES};
use tables::lent::enough;
use tables::reads::node_count;
use targets::{Target, sub_class_link, target_set};

// How long the work space must be: sixteen words for each step.
pub const WORK_WORDS: usize = 16 * MAX_STEPS;

// How many nodes are few, and how many words their rows of ends take.
const FEW_NODES: usize = 64;

const FEW_ROWS: usize = 16 * FEW_NODES;

// What a step asks for, with its operands. An enum between the one match over the codes (document 01) and the calls: with calls and
// what they are lent in each of its 26 arms the match passes forty lines.
#[derive(Clone, Copy)]
enum Kind {
    Whole,
    Empty,
    Node(Condition),
    Both(usize, usize),
    Either(usize, usize),
    Path(Condition, usize, usize),
    Ends(Condition, End, LinkNo),
    Lang(Condition, usize),
    Selected(Target),
    Links(Condition, usize),
}

// What step k asks for, by its code.
fn step_kind(plan: &[u16], k: usize) -> Kind
    ensures { result ≡ kind_of (step_at plan.now k) }
{
    let a = step_first(plan, k);
    let b = step_second(plan, k);
    let lo = step_third(plan, k);
    let hi = step_fourth(plan, k);
    let c = step_node(plan, k);
    let p = step_link(plan, k);
    let l = step_second_link(plan, k);
    let end = end_at(a);
    match step_code(plan, k) {
        steps::ALL => Kind::Whole,
        steps::NONE => Kind::Empty,
        steps::IS => Kind::Node(Condition::Is(c)),
        steps::ISNOT => Kind::Node(Condition::IsNot(c)),
        steps::TEST => Kind::Node(Condition::Test(a)),
        steps::UNTEST => Kind::Node(Condition::Untest(a)),
        steps::BOTH => Kind::Both(a, b),
        steps::EITHER => Kind::Either(a, b),
        steps::COUNT => Kind::Path(Condition::Count(lo, hi), a, b),
        steps::EVERY => Kind::Path(Condition::Every, a, b),
        steps::EQUAL => Kind::Ends(Condition::Equal, end, l),
        steps::UNEQUAL => Kind::Ends(Condition::Unequal, end, l),
        steps::APART => Kind::Ends(Condition::Apart, end, l),
        steps::MEET => Kind::Ends(Condition::Meet, end, l),
        steps::CLOSED => Kind::Links(Condition::Closed, a),
        steps::OPEN => Kind::Links(Condition::Open, a),
        steps::LESS => Kind::Ends(Condition::Less, End::Path(a), l),
        steps::NOTLESS => Kind::Ends(Condition::NotLess, End::Path(a), l),
        steps::LESSEQ => Kind::Ends(Condition::LessEq, End::Path(a), l),
        steps::NOTLESSEQ => Kind::Ends(Condition::NotLessEq, End::Path(a), l),
        steps::ONELANG => Kind::Lang(Condition::OneLang, a),
        steps::MANYLANG => Kind::Lang(Condition::ManyLang, a),
        steps::FROM => Kind::Selected(Target::From(p)),
        steps::INTO => Kind::Selected(Target::Into(p)),
        steps::TYPED => Kind::Selected(Target::Typed(c)),
        steps::UNKNOWN..=steps::LAST => Kind::Empty,
    }
}

// The set of step k, from the sets of the steps before it. The rows of ends that it looks at are kept for the next step.
fn step_set<const WORDS: usize>(
    rows: &mut EndRows<WORDS>,
    sub: Option<LinkNo>,
    plan: &[u16],
    work: &[u64],
    k: usize,
) -> NodeSet
    requires { (k < max_steps) × (step_ok rows.old.tables.cells.now k (step_at plan.now k) ≡ true) }
    ensures words_value { result.words ≡ step_from (sub_of sub) rows.old.tables.cells.now rows.old.tables.values.now plan.now work.now k }
    ensures tables { rows.new.tables ≡ rows.old.tables }
{
    let tables = rows.tables;
    let n = node_count(tables.cells);
    match step_kind(plan, k) {
        Kind::Whole => NodeSet::whole(n),
        Kind::Empty => NodeSet::EMPTY,
        Kind::Node(x) => plain_set(x, tables),
        Kind::Both(i, j) => both_set(work, i, j, n),
        Kind::Either(i, j) => either_set(work, i, j, n),
        Kind::Path(x, p, j) => path_set(rows, x, p, work, j),
        Kind::Ends(x, end, l) => ends_set(rows, x, end, l),
        Kind::Lang(x, p) => lang_set(rows, x, p),
        Kind::Selected(target) => target_set(target, sub, tables),
        Kind::Links(x, e) => links_set(x, tables, e),
    }
}

// Step k writes its own sixteen words.
fn run_step<const WORDS: usize>(
    work: &mut [u64],
    rows: &mut EndRows<WORDS>,
    sub: Option<LinkNo>,
    plan: &[u16],
    k: usize,
)
    requires { (k < max_steps) × (step_ok rows.old.tables.cells.now k (step_at plan.now k) ≡ true) × (work_count ≤ length work.old) }
    ensures new_work { work.new ≡ put work.old k (step_from (sub_of sub) rows.old.tables.cells.now rows.old.tables.values.now plan.now work.old k) }
    ensures tables { rows.new.tables ≡ rows.old.tables }
{
    let set = step_set(rows, sub, plan, &work[..], k);
    let at = 16 * k;
    store(&mut work[at..], set);
}

// All steps, in their order, with rows for all nodes.
fn run_all<const WORDS: usize>(
    work: &mut [u64],
    rows: &mut EndRows<WORDS>,
    sub: Option<LinkNo>,
    plan: &[u16],
)
    requires { (plan_well_formed rows.old.tables.cells.now plan.now ≡ true) × (work_count ≤ length work.old) }
    ensures { work.new ≡ filled (sub_of sub) rows.old.tables.cells.now rows.old.tables.values.now plan.now work.old }
{
    let count = step_count(plan);
    for k in 0..count {
        run_step(work, rows, sub, plan, k);
    }
}

// The same, with rows of so many words, which begin empty. Few nodes need not clear the rows of many.
fn run_within<const WORDS: usize>(
    work: &mut [u64],
    sub: Option<LinkNo>,
    tables: Indexed,
    plan: &[u16],
)
    requires { let cs = tables.cells.now in (plan_well_formed cs plan.now ≡ true) × (work_count ≤ length work.old) × (16 * node_count cs ≤ WORDS) × (WORDS ≤ 16 * max_nodes) }
    ensures { work.new ≡ filled (sub_of sub) tables.entry.cells.now tables.entry.values.now plan.now work.old }
{
    let mut rows = EndRows::<WORDS>::new(tables);
    run_all(work, &mut rows, sub, plan);
}

// All steps, over well-formed tables and a plan that is.
fn run_steps(work: &mut [u64], names: &[u8], cells: &[u16], values: &[i64], plan: &[u16])
    requires { (name_count ≤ length names.now) × (cell_count ≤ length cells.now) × (well_formed cells.now ≡ true) × (plan_well_formed cells.now plan.now ≡ true) × (work_count ≤ length work.old) }
    ensures { work.new ≡ filled (sub_class_at names.now cells.now) cells.now values.now plan.now work.old }
{
    let mut index = [0u16; INDEX_CELLS];
    index_table(&mut index, cells);
    let sub = sub_class_link(names, cells);
    let tables = Indexed {
        cells,
        values,
        index: &index,
    };
    if node_count(cells) <= FEW_NODES {
        run_within::<FEW_ROWS>(work, sub, tables, plan);
    } else {
        run_within::<ROWS_WORDS>(work, sub, tables, plan);
    }
}

// No ground for 8: every lent slice is as long as the limits need.
fn lent_long(names: &[u8], cells: &[u16], values: &[i64], plan: &[u16], work: &[u64]) -> bool
    ensures { result ≡ run_long names.now cells.now values.now plan.now work.now }
{
    enough(names, cells, values) & ((PLAN_CELLS <= plan.len()) & (WORK_WORDS <= work.len()))
}

// Runs the plan over the tables. Refusal 8: a lent slice is too short; 9: the tables or the plan are not well formed; then
// nothing has changed. A longer slice counts up to its limit.
pub fn run(
    names: &[u8],
    cells: &[u16],
    values: &[i64],
    plan: &[u16],
    work: &mut [u64],
) -> Result<(), Refusal>
    ensures result_value { answer_of result ≡ run_answer names.now cells.now values.now plan.now work.old }
    ensures new_work { work.new ≡ work_after names.now cells.now values.now plan.now work.old }
{
    if !lent_long(names, cells, values, plan, &work[..]) {
        return Err(Refusal::Short);
    }
    let cs = &cells[..CELLS];
    let ps = &plan[..PLAN_CELLS];
    if !both_well_formed(cs, ps) {
        return Err(Refusal::Malformed);
    }
    run_steps(work, &names[..NAMES], cs, &values[..VALUES], ps);
    Ok(())
}
