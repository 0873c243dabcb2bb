// What stands at a place of a plan. A place past the end of a lent slice reads as zero. Node and link numbers are wrapped here.
// Each read has a name of its own, as in tables: one read by a column would leave the column and the wrapping to every caller.
ghost use Rattle.std.specs.Prelude.{◌≡◌};
ghost use Rattle.plan.specs.Layout.{step_count, rule_step_at, step_code_at, step_first_at, step_second_at, step_third_at, step_fourth_at};

use model::{LinkNo, NodeNo};
use plan::{RULE_STEPS, STEP_CODES, STEP_FIRSTS, STEP_FOURTHS, STEP_SECONDS, STEP_THIRDS};
use tables::reads::{cell_at, wide};

pub fn step_count(plan: &[u16]) -> usize
    ensures { result ≡ step_count plan.now }
{
    wide(cell_at(plan, 0, 0))
}

// The step whose set is the list of rule r.
pub fn rule_step(plan: &[u16], r: usize) -> usize
    ensures { result ≡ rule_step_at plan.now r }
{
    wide(cell_at(plan, RULE_STEPS, r))
}

// Step k: its code and its operands.
pub fn step_code(plan: &[u16], k: usize) -> u16
    ensures { result ≡ step_code_at plan.now k }
{
    cell_at(plan, STEP_CODES, k)
}

pub fn step_first(plan: &[u16], k: usize) -> usize
    ensures { result ≡ step_first_at plan.now k }
{
    wide(cell_at(plan, STEP_FIRSTS, k))
}

pub fn step_second(plan: &[u16], k: usize) -> usize
    ensures { result ≡ step_second_at plan.now k }
{
    wide(cell_at(plan, STEP_SECONDS, k))
}

pub fn step_third(plan: &[u16], k: usize) -> usize
    ensures { result ≡ step_third_at plan.now k }
{
    wide(cell_at(plan, STEP_THIRDS, k))
}

pub fn step_fourth(plan: &[u16], k: usize) -> usize
    ensures { result ≡ step_fourth_at plan.now k }
{
    wide(cell_at(plan, STEP_FOURTHS, k))
}

// The first operand as a node (Is, Isnot, Typed) and as a link (From, Into); the second as a link (Equal, Less and the like).
pub fn step_node(plan: &[u16], k: usize) -> NodeNo
    ensures { result.0 ≡ step_first_at plan.now k }
{
    NodeNo(cell_at(plan, STEP_FIRSTS, k))
}

pub fn step_link(plan: &[u16], k: usize) -> LinkNo
    ensures { result.0 ≡ step_first_at plan.now k }
{
    LinkNo(cell_at(plan, STEP_FIRSTS, k))
}

pub fn step_second_link(plan: &[u16], k: usize) -> LinkNo
    ensures { result.0 ≡ step_second_at plan.now k }
{
    LinkNo(cell_at(plan, STEP_SECONDS, k))
}
