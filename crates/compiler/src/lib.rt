// Tables to a plan: the code for the definition of translation. Operations: compile.
#![tactic(auto)]

mod pairs;

ghost use Rattle.std.specs.Prelude.{◌≡◌, List, [], ◌∷◌, ◌++◌, ℕ, ◌+◌, ◌<◌, ◌≤◌, length, replicate, set, drop};
ghost use Rattle.base.specs.Lists.{values};
ghost use Rattle.model.specs.Limits.{max_rules, max_forms, max_steps};
ghost use Rattle.tables.specs.Layout.{form_count, rule_count, form_first_at, form_second_at, form_third_at, form_fourth_at, root_at, rule_shape_at, no_number};
ghost use Rattle.tables.specs.Decode.{entry_at, rule_at};
ghost use Rattle.plan.specs.Steps.{Step, numbers_of};
ghost use Rattle.plan.specs.Numbers.{listed};
ghost use Rattle.plan.specs.Layout.{plan_count, with_numbers, laid};
ghost use Rattle.translation.specs.Compile.{count_part, entry_part, made, target_step, steps_to, steps_of, rule_step, plan_of};
ghost use Rattle.compiler.specs.Stores.{keep_of, break_of, TwoAdded, Added, FormsAdded, rule_stored, RoomForPlan};
ghost use Rattle.model.specs.Answers.{answer_of};
ghost use Rattle.compiler.specs.Answers.{compile_answer, plan_after};

use crate::pairs::Pairs;
use base::{cell, put};
use model::{MAX_FORMS, Refusal};
use plan::{Numbers, PLAN_CELLS, RULE_STEPS, clear_plan, put_step, steps};
use tablecheck::well_formed;
use tables::codes;
use tables::layout::{CELLS, NO_NUMBER};
use tables::lent::enough;
use tables::reads::{
    form_code, form_count, form_first, form_fourth, form_link, form_node, form_second, form_third,
    root, rule_count, rule_link, rule_node, rule_shape, rule_target, wide,
};

// The numbers of an entry's two steps: the one of the nodes that keep it, and the one of those that break it.
#[derive(Clone, Copy, PartialEq, Eq)]
pub struct Pair {
    pub keep: u16,
    pub breaking: u16,
}

// The steps of an entry with an unknown code.
const NO_PAIR: Pair = Pair {
    keep: 0,
    breaking: 0,
};

impl Pairs {
    // No entry has steps yet.
    fn new() -> Self
        ensures { (result.keeps ≡ replicate max_forms 0) × (result.breaks ≡ replicate max_forms 0) }
    {
        Pairs {
            keeps: [0; MAX_FORMS],
            breaks: [0; MAX_FORMS],
        }
    }

    // The steps of entry e.
    fn of(&self, e: usize) -> Pair
        ensures { (result.keep ≡ keep_of self.now e) × (result.breaking ≡ break_of self.now e) }
    {
        Pair {
            keep: cell(&self.keeps, e, 0),
            breaking: cell(&self.breaks, e, 0),
        }
    }

    // Entry e has these steps from now on.
    fn store(&mut self, e: usize, pair: Pair)
        ensures keeps { self.new.keeps ≡ set self.old.keeps e pair.keep }
        ensures breaks { self.new.breaks ≡ set self.old.breaks e pair.breaking }
    {
        put(&mut self.keeps, e, pair.keep);
        put(&mut self.breaks, e, pair.breaking);
    }
}

// A plan that is filled: its cells, which have room for every step, and the number of the next step.
#[derive(Drop)]
struct Plan<'a> {
    cells: &'a mut [u16],
    next: usize,
    ghost long: { plan_count ≤ length cells.now },
}

// A step of two operands at the most.
fn step(code: u16, first: u16, second: u16) -> Numbers
    ensures { listed result ≡ code ∷ first ∷ second ∷ 0 ∷ 0 ∷ [] }
{
    Numbers {
        code,
        first,
        second,
        third: 0,
        fourth: 0,
    }
}

// A step that counts.
fn counting(path: u16, of: u16, low: u16, high: u16) -> Numbers
    ensures { listed result ≡ numbers_of (Step.count path of low high) }
{
    Numbers {
        code: steps::COUNT,
        first: path,
        second: of,
        third: low,
        fourth: high,
    }
}

// The steps of the entry with a number.
fn pair_of(pairs: &Pairs, e: u16) -> Pair
    ensures { (result.keep ≡ keep_of pairs.now e) × (result.breaking ≡ break_of pairs.now e) }
{
    pairs.of(wide(e))
}

// `not`: its child's two, exchanged.
fn swapped(cells: &[u16], pairs: &Pairs, e: usize) -> Pair
    ensures { (result.keep ≡ break_of pairs.now (form_first_at cells.now e)) × (result.breaking ≡ keep_of pairs.now (form_first_at cells.now e)) }
{
    let a = pair_of(pairs, form_first(cells, e));
    Pair {
        keep: a.breaking,
        breaking: a.keep,
    }
}

// `shape`: the two of what that shape begins with.
fn same_steps(cells: &[u16], pairs: &Pairs, e: usize) -> Pair
    ensures { (result.keep ≡ keep_of pairs.now (root_at cells.now (form_first_at cells.now e))) × (result.breaking ≡ break_of pairs.now (root_at cells.now (form_first_at cells.now e))) }
{
    pairs.of(root(cells, wide(form_first(cells, e))))
}

// The step of rule r's target.
fn target_step(cells: &[u16], r: usize) -> Numbers
    ensures { listed result ≡ numbers_of (target_step (rule_at cells.now r).target) }
{
    let c = rule_node(cells, r);
    let l = rule_link(cells, r);
    let code = rule_target(cells, r);
    match code {
        codes::TARGET_NODE => step(steps::IS, c.0, 0),
        codes::TARGET_SUBJECTS => step(steps::FROM, l.0, 0),
        codes::TARGET_OBJECTS => step(steps::INTO, l.0, 0),
        codes::TARGET_CLASS..=codes::LAST => step(steps::TYPED, c.0, 0),
    }
}

// Each method asks for room for the steps that it adds: that is no invariant, since a plan may be full.
impl Plan<'_> {
    // One more step; its number. Part of its callers, as is `two`, so that a step is stored where it is made.
    #[inline(always)]
    fn push(&mut self, numbers: Numbers) -> u16
        requires { self.old.next < max_steps }
        ensures same_reference { self.new.cells.ghost_name ≡ self.old.cells.ghost_name }
        ensures stored { self.new.cells.now ≡ with_numbers self.old.cells.now self.old.next (listed numbers) }
        ensures next { self.new.next ≡ self.old.next + 1 }
        ensures number { result ≡ self.old.next }
    {
        let n = self.next;
        put_step(&mut self.cells[..], n, numbers);
        self.next = n + 1;
        n as u16
    }

    // A keeping step and a breaking one.
    #[inline(always)]
    fn two(&mut self, keeping: Numbers, breaking: Numbers) -> Pair
        requires { self.old.next + 2 ≤ max_steps }
        ensures same_reference { self.new.cells.ghost_name ≡ self.old.cells.ghost_name }
        ensures added { TwoAdded self.old.cells.now self.new.cells.now self.old.next (listed keeping) (listed breaking) self.new.next result.keep result.breaking }
    {
        let k = self.push(keeping);
        let b = self.push(breaking);
        Pair {
            keep: k,
            breaking: b,
        }
    }

    // `is`.
    fn is_steps(&mut self, cells: &[u16], e: usize) -> Pair
        requires { self.old.next + 2 ≤ max_steps }
        ensures same_reference { self.new.cells.ghost_name ≡ self.old.cells.ghost_name }
        ensures added { TwoAdded self.old.cells.now self.new.cells.now self.old.next (numbers_of (Step.is (form_first_at cells.now e))) (numbers_of (Step.isnot (form_first_at cells.now e))) self.new.next result.keep result.breaking }
    {
        let c = form_node(cells, e);
        self.two(step(steps::IS, c.0, 0), step(steps::ISNOT, c.0, 0))
    }

    // The tests and `closed`: the steps name the entry.
    fn own_steps(&mut self, e: usize, keeping: u16, breaking: u16) -> Pair
        requires { (self.old.next + 2 ≤ max_steps) × (e < max_forms) }
        ensures same_reference { self.new.cells.ghost_name ≡ self.old.cells.ghost_name }
        ensures added { TwoAdded self.old.cells.now self.new.cells.now self.old.next (keeping ∷ e ∷ 0 ∷ 0 ∷ 0 ∷ []) (breaking ∷ e ∷ 0 ∷ 0 ∷ 0 ∷ []) self.new.next result.keep result.breaking }
    {
        let me = e as u16;
        self.two(step(keeping, me, 0), step(breaking, me, 0))
    }

    // `onelang`.
    fn path_steps(&mut self, cells: &[u16], e: usize) -> Pair
        requires { self.old.next + 2 ≤ max_steps }
        ensures same_reference { self.new.cells.ghost_name ≡ self.old.cells.ghost_name }
        ensures added { TwoAdded self.old.cells.now self.new.cells.now self.old.next (numbers_of (Step.onelang (form_first_at cells.now e))) (numbers_of (Step.manylang (form_first_at cells.now e))) self.new.next result.keep result.breaking }
    {
        let p = form_first(cells, e);
        self.two(step(steps::ONELANG, p, 0), step(steps::MANYLANG, p, 0))
    }

    // A path or `id`, and a link: `equal`, `apart`, `less`, `lesseq`.
    fn link_steps(&mut self, cells: &[u16], e: usize, keeping: u16, breaking: u16) -> Pair
        requires { self.old.next + 2 ≤ max_steps }
        ensures same_reference { self.new.cells.ghost_name ≡ self.old.cells.ghost_name }
        ensures added { TwoAdded self.old.cells.now self.new.cells.now self.old.next (keeping ∷ form_first_at cells.now e ∷ form_second_at cells.now e ∷ 0 ∷ 0 ∷ []) (breaking ∷ form_first_at cells.now e ∷ form_second_at cells.now e ∷ 0 ∷ 0 ∷ []) self.new.next result.keep result.breaking }
    {
        let p = form_first(cells, e);
        let l = form_link(cells, e);
        self.two(step(keeping, p, l.0), step(breaking, p, l.0))
    }

    // `and`, `or`: one step of the keeps, one of the breaks.
    fn parts_steps(
        &mut self,
        cells: &[u16],
        pairs: &Pairs,
        e: usize,
        keeping: u16,
        breaking: u16,
    ) -> Pair
        requires { self.old.next + 2 ≤ max_steps }
        ensures same_reference { self.new.cells.ghost_name ≡ self.old.cells.ghost_name }
        ensures added { TwoAdded self.old.cells.now self.new.cells.now self.old.next (keeping ∷ keep_of pairs.now (form_first_at cells.now e) ∷ keep_of pairs.now (form_second_at cells.now e) ∷ 0 ∷ 0 ∷ []) (breaking ∷ break_of pairs.now (form_first_at cells.now e) ∷ break_of pairs.now (form_second_at cells.now e) ∷ 0 ∷ 0 ∷ []) self.new.next result.keep result.breaking }
    {
        let a = pair_of(pairs, form_first(cells, e));
        let b = pair_of(pairs, form_second(cells, e));
        self.two(
            step(keeping, a.keep, b.keep),
            step(breaking, a.breaking, b.breaking),
        )
    }

    // `all`: Every of the keep, Count 1 * of the break.
    fn all_entry(&mut self, cells: &[u16], pairs: &Pairs, e: usize) -> Pair
        requires { self.old.next + 2 ≤ max_steps }
        ensures same_reference { self.new.cells.ghost_name ≡ self.old.cells.ghost_name }
        ensures added { TwoAdded self.old.cells.now self.new.cells.now self.old.next (numbers_of (Step.every (form_first_at cells.now e) (keep_of pairs.now (form_second_at cells.now e)))) (numbers_of (Step.count (form_first_at cells.now e) (break_of pairs.now (form_second_at cells.now e)) 1 no_number)) self.new.next result.keep result.breaking }
    {
        let p = form_first(cells, e);
        let a = pair_of(pairs, form_second(cells, e));
        self.two(
            step(steps::EVERY, p, a.keep),
            counting(p, a.breaking, 1, NO_NUMBER),
        )
    }

    // `count`: Count of the keep, and the steps that break it.
    fn count_steps(&mut self, p: u16, j: u16, lo: u16, hi: u16) -> Pair
        requires { self.old.next + 4 ≤ max_steps }
        ensures same_reference { self.new.cells.ghost_name ≡ self.old.cells.ghost_name }
        ensures added { Added self.old.cells.now self.new.cells.now self.old.next (count_part self.old.next p j lo hi) self.new.next result.keep result.breaking }
    {
        if lo == 0 {
            if hi == NO_NUMBER {
                return self.two(counting(p, j, lo, hi), step(steps::NONE, 0, 0));
            }
            return self.two(counting(p, j, lo, hi), counting(p, j, hi + 1, NO_NUMBER));
        }
        let own = self.two(counting(p, j, lo, hi), counting(p, j, 0, lo - 1));
        if hi == NO_NUMBER {
            return own;
        }
        let above = self.push(counting(p, j, hi + 1, NO_NUMBER));
        let either = self.push(step(steps::EITHER, own.breaking, above));
        Pair {
            keep: own.keep,
            breaking: either,
        }
    }

    fn count_entry(&mut self, cells: &[u16], pairs: &Pairs, e: usize) -> Pair
        requires { self.old.next + 4 ≤ max_steps }
        ensures same_reference { self.new.cells.ghost_name ≡ self.old.cells.ghost_name }
        ensures added { Added self.old.cells.now self.new.cells.now self.old.next (count_part self.old.next (form_first_at cells.now e) (keep_of pairs.now (form_second_at cells.now e)) (form_third_at cells.now e) (form_fourth_at cells.now e)) self.new.next result.keep result.breaking }
    {
        let p = form_first(cells, e);
        let a = pair_of(pairs, form_second(cells, e));
        let lo = form_third(cells, e);
        let hi = form_fourth(cells, e);
        self.count_steps(p, a.keep, lo, hi)
    }

    // The steps of entry e.
    fn compile_entry(&mut self, cells: &[u16], pairs: &Pairs, e: usize) -> Pair
        requires { (e < max_forms) × (self.old.next + 4 ≤ max_steps) }
        ensures same_reference { self.new.cells.ghost_name ≡ self.old.cells.ghost_name }
        ensures added { Added self.old.cells.now self.new.cells.now self.old.next (entry_part cells.now (keep_of pairs.now) (break_of pairs.now) self.old.next e (entry_at cells.now [] e)) self.new.next result.keep result.breaking }
    {
        let code = form_code(cells, e);
        match code {
            codes::FORM_TRUE => self.two(step(steps::ALL, 0, 0), step(steps::NONE, 0, 0)),
            codes::FORM_IS => self.is_steps(cells, e),
            codes::FORM_SHAPE => same_steps(cells, pairs, e),
            codes::FORM_AND => self.parts_steps(cells, pairs, e, steps::BOTH, steps::EITHER),
            codes::FORM_OR => self.parts_steps(cells, pairs, e, steps::EITHER, steps::BOTH),
            codes::FORM_NOT => swapped(cells, pairs, e),
            codes::FORM_KIND..=codes::FORM_BELOW => self.own_steps(e, steps::TEST, steps::UNTEST),
            codes::FORM_COUNT => self.count_entry(cells, pairs, e),
            codes::FORM_ALL => self.all_entry(cells, pairs, e),
            codes::FORM_EQUAL => self.link_steps(cells, e, steps::EQUAL, steps::UNEQUAL),
            codes::FORM_APART => self.link_steps(cells, e, steps::APART, steps::MEET),
            codes::FORM_CLOSED => self.own_steps(e, steps::CLOSED, steps::OPEN),
            codes::FORM_LESS => self.link_steps(cells, e, steps::LESS, steps::NOTLESS),
            codes::FORM_LESSEQ => self.link_steps(cells, e, steps::LESSEQ, steps::NOTLESSEQ),
            codes::FORM_ONELANG => self.path_steps(cells, e),
            codes::FORM_UNKNOWN..=codes::LAST => NO_PAIR,
        }
    }

    // The steps of all entries, in a plan with none; pairs gets each entry's two.
    fn fill_forms(&mut self, pairs: &mut Pairs, cells: &[u16])
        requires { (form_count cells.now ≤ max_forms) × (self.old.next ≡ 0) × (pairs.old.keeps ≡ replicate max_forms 0) × (pairs.old.breaks ≡ replicate max_forms 0) }
        ensures same_reference { self.new.cells.ghost_name ≡ self.old.cells.ghost_name }
        ensures added { FormsAdded cells.now self.old.cells.now self.new.cells.now (form_count cells.now) self.new.next pairs.new }
    {
        let forms = form_count(cells);
        for e in 0..forms {
            let own = self.compile_entry(cells, pairs, e);
            pairs.store(e, own);
        }
    }

    // The two steps of rule r, and its step's number.
    fn rule_steps(&mut self, cells: &[u16], pairs: &Pairs, r: u16)
        requires { (r < max_rules) × (self.old.next + 2 ≤ max_steps) }
        ensures same_reference { self.new.cells.ghost_name ≡ self.old.cells.ghost_name }
        ensures stored { self.new.cells.now ≡ rule_stored cells.now self.old.cells.now r self.old.next (break_of pairs.now (root_at cells.now (rule_shape_at cells.now r))) }
        ensures next { self.new.next ≡ self.old.next + 2 }
    {
        let k = wide(r);
        let b = pairs.of(root(cells, rule_shape(cells, k)));
        let target = self.push(target_step(cells, k));
        let own = self.push(step(steps::BOTH, target, b.breaking));
        self.cells[RULE_STEPS + k] = own;
    }

    // The steps of all rules, in a plan with those of the entries.
    fn fill_rules(&mut self, cells: &[u16], pairs: &Pairs)
        requires { RoomForPlan cells.now self.old.cells.now × (self.old.next ≡ length (made cells.now (form_count cells.now)).steps) × ((j : ℕ) → break_of pairs.now j ≡ (made cells.now (form_count cells.now)).breaking j) }
        ensures same_reference { self.new.cells.ghost_name ≡ self.old.cells.ghost_name }
        ensures next { self.new.next ≡ length (steps_to cells.now (rule_count cells.now)) }
        ensures filled { (t : List ℕ) → self.old.cells.now ≡ laid t [] [] (steps_to cells.now 0) → self.new.cells.now ≡ laid t [] (values (rule_step cells.now) (rule_count cells.now)) (steps_to cells.now (rule_count cells.now)) }
    {
        let rules = rule_count(cells);
        for r in 0..rules {
            self.rule_steps(cells, pairs, r as u16);
        }
    }

    // How many steps there are, which the plan says in its first cell.
    fn close(&mut self) -> usize
        requires { self.old.next ≤ max_steps }
        ensures same_reference { self.new.cells.ghost_name ≡ self.old.cells.ghost_name }
        ensures counted { self.new.cells.now ≡ set self.old.cells.now 0 self.old.next }
        ensures number { result ≡ self.old.next }
    {
        let n = self.next;
        self.cells[0] = n as u16;
        n
    }
}

// The plan of well-formed tables, and how many steps it has.
fn make_plan(plan: &mut [u16], cells: &[u16]) -> usize
    requires { RoomForPlan cells.now plan.old }
    ensures value { result ≡ length (steps_of cells.now) }
    ensures new_plan { plan.new ≡ plan_of cells.now ++ drop plan_count plan.old }
{
    clear_plan(plan);
    let mut pairs = Pairs::new();
    let mut filled = Plan {
        cells: plan,
        next: 0,
    };
    filled.fill_forms(&mut pairs, cells);
    filled.fill_rules(cells, &pairs);
    filled.close()
}

// The operation: the plan of the tables, in the cells of a lent plan; how many steps it has. Refused: tables or plan too short,
// then tables not well formed; nothing changes then. What lies past the cells of a plan stays.
pub fn compile(
    names: &[u8],
    cells: &[u16],
    values: &[i64],
    plan: &mut [u16],
) -> Result<usize, Refusal>
    ensures result_value { answer_of result ≡ compile_answer names.now cells.now values.now plan.old }
    ensures new_plan { plan.new ≡ plan_after names.now cells.now values.now plan.old }
{
    if !enough(names, cells, values) {
        return Err(Refusal::Short);
    }
    if plan.len() < PLAN_CELLS {
        return Err(Refusal::Short);
    }
    let part = &cells[..CELLS];
    if !well_formed(part) {
        return Err(Refusal::Malformed);
    }
    Ok(make_plan(plan, part))
}
