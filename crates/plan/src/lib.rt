// The lent plan: its layout, what each step's set is and when a plan is well formed (specs/), with laws (proofs/).
// Operations: none; the crates above call these functions. The codes of the steps are in steps.
#![tactic(auto)]

pub mod steps;

ghost use Rattle.std.specs.Prelude.{◌≡◌, [], ◌∷◌, ◌<◌, ◌≤◌, length};
ghost use Rattle.tables.specs.Sizes.{cleared};
ghost use Rattle.model.specs.Limits.{max_steps};
ghost use Rattle.plan.specs.Numbers.{listed};
ghost use Rattle.plan.specs.Layout.{plan_count, with_numbers};

use model::{MAX_RULES, MAX_STEPS};

// Where each column begins and how long a plan is; specs/Layout.antt has the same sums.
pub const RULE_STEPS: usize = 1;

pub const STEP_CODES: usize = RULE_STEPS + MAX_RULES;

pub const STEP_FIRSTS: usize = STEP_CODES + MAX_STEPS;

pub const STEP_SECONDS: usize = STEP_FIRSTS + MAX_STEPS;

pub const STEP_THIRDS: usize = STEP_SECONDS + MAX_STEPS;

pub const STEP_FOURTHS: usize = STEP_THIRDS + MAX_STEPS;

pub const PLAN_CELLS: usize = STEP_FOURTHS + MAX_STEPS;

// The numbers of a step: its code and four operands.
#[derive(Clone, Copy, PartialEq, Eq)]
pub struct Numbers {
    pub code: u16,
    pub first: u16,
    pub second: u16,
    pub third: u16,
    pub fourth: u16,
}

// Numbers stored as step k. Part of its callers, where the numbers need not be put together: as a call it takes longer to compile
// nested forms.
#[inline(always)]
pub fn put_step(plan: &mut [u16], k: usize, step: Numbers)
    requires { (plan_count ≤ length plan.old) × (k < max_steps) }
    ensures { plan.new ≡ with_numbers plan.old k (listed step) }
{
    plan[STEP_CODES + k] = step.code;
    plan[STEP_FIRSTS + k] = step.first;
    plan[STEP_SECONDS + k] = step.second;
    plan[STEP_THIRDS + k] = step.third;
    plan[STEP_FOURTHS + k] = step.fourth;
}

// Zeros in all cells of a plan; what lies past them stays.
pub fn clear_plan(plan: &mut [u16])
    requires { plan_count ≤ length plan.old }
    ensures { plan.new ≡ cleared plan_count 0 plan.old }
{
    plan[..PLAN_CELLS].fill(0);
}
