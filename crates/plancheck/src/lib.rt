// Refusal 9 on plans: whether a lent plan is well formed, for the tables that it is to be run on. Typed reads of a plan (reads).
// Operations: plan_well_formed; it takes any content of any length, and looks at 512 steps and 65,535 rules at the most.
// For the crates above: both_well_formed, the plan and the tables that it is for.
#![tactic(auto)]

pub mod reads;

ghost use Rattle.std.specs.Prelude.{◌≡◌, ltb};
ghost use Rattle.base.specs.Bounded.{every};
ghost use Rattle.plan.specs.Steps.{Step};
ghost use Rattle.tables.specs.Layout.{rule_count};
ghost use Rattle.plan.specs.Layout.{step_count, rule_step_at, step_at};
ghost use Rattle.plan.specs.WellFormed.{test_ok, closed_ok, step_ok, plan_well_formed};
ghost use Rattle.plancheck.specs.Both.{both_well_formed};

use crate::reads::{
    rule_step, step_code, step_count, step_first, step_fourth, step_link, step_node, step_second,
    step_second_link, step_third,
};
use plan::steps;
use tablecheck::{end_ok, link_there, node_there, well_formed};
use tables::codes;
use tables::layout::NO_NUMBER;
use tables::reads::{form_code, form_count, path_count, rule_count, wide};

// Form entry e is there, and is a test.
fn test_ok(cells: &[u16], e: usize) -> bool
    ensures { result ≡ test_ok cells.now e }
{
    let code = form_code(cells, e);
    (e < form_count(cells)) & ((codes::FORM_KIND <= code) & (code <= codes::FORM_BELOW))
}

// Form entry e is there, and is `closed`.
fn closed_ok(cells: &[u16], e: usize) -> bool
    ensures { result ≡ closed_ok cells.now e }
{
    let code = form_code(cells, e);
    (e < form_count(cells)) & (code == codes::FORM_CLOSED)
}

// A Count step: a path entry, a step before step k, LO and HI. LO may be one past the limit.
fn count_ok(cells: &[u16], k: usize, p: usize, j: usize, lo: usize, hi: usize) -> bool
    ensures { result ≡ step_ok cells.now k (Step.count p j lo hi) }
{
    ((p < path_count(cells)) & (j < k))
        & ((lo <= model::MAX_COUNT + 1) & ((hi <= model::MAX_COUNT) | (hi == wide(NO_NUMBER))))
}

fn step_ok(cells: &[u16], plan: &[u16], k: usize) -> bool
    ensures { result ≡ step_ok cells.now k (step_at plan.now k) }
{
    let a = step_first(plan, k);
    let b = step_second(plan, k);
    match step_code(plan, k) {
        steps::ALL | steps::NONE => true,
        steps::IS | steps::ISNOT => node_there(cells, step_node(plan, k)),
        steps::TEST | steps::UNTEST => test_ok(cells, a),
        steps::BOTH | steps::EITHER => (a < k) & (b < k),
        steps::COUNT => count_ok(cells, k, a, b, step_third(plan, k), step_fourth(plan, k)),
        steps::EVERY => (a < path_count(cells)) & (b < k),
        steps::EQUAL..=steps::MEET => end_ok(cells, a)
            & link_there(cells, step_second_link(plan, k)),
        steps::CLOSED | steps::OPEN => closed_ok(cells, a),
        steps::LESS..=steps::NOTLESSEQ => (a < path_count(cells))
            & link_there(cells, step_second_link(plan, k)),
        steps::ONELANG | steps::MANYLANG => a < path_count(cells),
        steps::FROM | steps::INTO => link_there(cells, step_link(plan, k)),
        steps::TYPED => node_there(cells, step_node(plan, k)),
        steps::UNKNOWN..=steps::LAST => false,
    }
}

fn steps_ok(cells: &[u16], plan: &[u16]) -> bool
    ensures { result ≡ every (λ k. step_ok cells.now k (step_at plan.now k)) (step_count plan.now) }
{
    (0..step_count(plan)).all(|k| step_ok(cells, plan, k))
}

// Rule i's step is one of the steps.
fn rule_step_ok(plan: &[u16], i: usize) -> bool
    ensures { result ≡ ltb (rule_step_at plan.now i) (step_count plan.now) }
{
    rule_step(plan, i) < step_count(plan)
}

fn rules_ok(cells: &[u16], plan: &[u16]) -> bool
    ensures { result ≡ every (λ r. ltb (rule_step_at plan.now r) (step_count plan.now)) (rule_count cells.now) }
{
    (0..rule_count(cells)).all(|r| rule_step_ok(plan, r))
}

// Refusal 9 is for a plan of which this is false. The number of steps is looked at first.
#[tactic(auto, unfolding(plan::specs::WellFormed::plan_well_formed))]
pub fn plan_well_formed(cells: &[u16], plan: &[u16]) -> bool
    ensures { result ≡ plan_well_formed cells.now plan.now }
{
    step_count(plan) <= model::MAX_STEPS && steps_ok(cells, plan) && rules_ok(cells, plan)
}

// Refusal 9 is for tables and a plan of which this is false.
#[tactic(auto, unfolding(crate::specs::Both::both_well_formed))]
pub fn both_well_formed(cells: &[u16], plan: &[u16]) -> bool
    ensures { result ≡ both_well_formed cells.now plan.now }
{
    well_formed(cells) && plan_well_formed(cells, plan)
}
