// The lists of the rules, read off the work space.
// Operations: list, one rule's list. For the crates above: list_rows, all lists, on tables and a plan that these have checked.
#![tactic(auto)]

ghost use Rattle.std.specs.Prelude.{◌≡◌, true, ◌+◌, ◌*◌, ◌<◌, ◌≤◌, length};
ghost use Rattle.base.specs.Bounded.{members};
ghost use Rattle.nodeset.specs.Words.{has};
ghost use Rattle.model.specs.Answers.{answer_of};
ghost use Rattle.model.specs.Limits.{max_nodes};
ghost use Rattle.tables.specs.Layout.{node_count, rule_count};
ghost use Rattle.tables.specs.WellFormed.{well_formed};
ghost use Rattle.plan.specs.Layout.{rule_step_at};
ghost use Rattle.plan.specs.WellFormed.{plan_well_formed};
ghost use Rattle.runner.specs.Run.{work_count};
ghost use Rattle.lists.specs.Rows.{list_count, length_count, over, list_in, with_rows, with_lengths};
ghost use Rattle.lists.specs.Answers.{list_long, list_answer, row_after};

use model::{MAX_NODES, MAX_RULES, Refusal};
use nodeset::Iter;
use plan::PLAN_CELLS;
use plancheck::both_well_formed;
use plancheck::reads::rule_step;
use runner::WORK_WORDS;
use tables::layout::CELLS;
use tables::lent::enough;
use tables::reads::{node_count, rule_count};

// How long the lists and their lengths must be: for each rule a row with a place for each node, and a length.
pub const LIST_PLACES: usize = MAX_NODES * MAX_RULES;

pub const LENGTH_PLACES: usize = MAX_RULES;

// The members of a set below n, lowest first, at the front of a row.
fn list_set(row: &mut [u16], words: &[u64], n: usize) -> usize
    requires { (n ≤ max_nodes) × (n ≤ length row.old) }
    ensures value { result ≡ length (members (has words.now) n) }
    ensures new_row { row.new ≡ over (members (has words.now) n) row.old }
{
    let mut count = 0;
    for v in Iter::below(words, n) {
        row[count] = v as u16;
        count += 1;
    }
    count
}

// The list of rule r, at the front of a row.
fn list_rule(row: &mut [u16], cells: &[u16], plan: &[u16], work: &[u64], r: usize) -> usize
    requires { (node_count cells.now ≤ max_nodes) × (max_nodes ≤ length row.old) × (16 * rule_step_at plan.now r ≤ length work.now) }
    ensures value { result ≡ length (list_in cells.now plan.now work.now r) }
    ensures new_row { row.new ≡ over (list_in cells.now plan.now work.now r) row.old }
    ensures upper_bound { result ≤ max_nodes }
{
    let at = 16 * rule_step(plan, r);
    list_set(row, &work[at..], node_count(cells))
}

// The lists of all rules, each at the front of its row, and their lengths.
pub fn list_rows(lists: &mut [u16], lengths: &mut [u16], cells: &[u16], plan: &[u16], work: &[u64])
    requires { (well_formed cells.now ≡ true) × (plan_well_formed cells.now plan.now ≡ true) × (work_count ≤ length work.now) × (list_count ≤ length lists.old) × (length_count ≤ length lengths.old) }
    ensures new_lists { lists.new ≡ with_rows (list_in cells.now plan.now work.now) (rule_count cells.now) lists.old }
    ensures new_lengths { lengths.new ≡ with_lengths (list_in cells.now plan.now work.now) (rule_count cells.now) lengths.old }
{
    for r in 0..rule_count(cells) {
        let n = list_rule(&mut lists[MAX_NODES * r..], cells, plan, work, r);
        lengths[r] = n as u16;
    }
}

// Refusal 8 is for slices of which this is false.
#[tactic(auto, unfolding(crate::specs::Answers::list_long))]
fn long_enough(
    names: &[u8],
    cells: &[u16],
    values: &[i64],
    plan: &[u16],
    work: &[u64],
    row: &[u16],
) -> bool
    ensures { result ≡ list_long names.now cells.now values.now plan.now work.now row.now }
{
    enough(names, cells, values)
        && PLAN_CELLS <= plan.len()
        && WORK_WORDS <= work.len()
        && MAX_NODES <= row.len()
}

// The operation: the list of one rule, at the front of a lent row, and how many nodes it has; what lies past the list stays.
// Refused: a slice too short, then tables or a plan that are not well formed, then a rule that the tables do not have; nothing
// changes then.
pub fn list(
    names: &[u8],
    cells: &[u16],
    values: &[i64],
    plan: &[u16],
    work: &[u64],
    rule: usize,
    row: &mut [u16],
) -> Result<usize, Refusal>
    ensures result_value { answer_of result ≡ list_answer names.now cells.now values.now plan.now work.now rule row.old }
    ensures new_row { row.new ≡ row_after names.now cells.now values.now plan.now work.now rule row.old }
{
    if !long_enough(names, cells, values, plan, work, &row[..]) {
        return Err(Refusal::Short);
    }
    let cs = &cells[..CELLS];
    let ps = &plan[..PLAN_CELLS];
    if !both_well_formed(cs, ps) {
        return Err(Refusal::Malformed);
    }
    if rule_count(cs) <= rule {
        return Err(Refusal::Absent);
    }
    Ok(list_rule(row, cs, ps, work, rule))
}
