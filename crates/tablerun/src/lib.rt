// From well-formed tables to the lists of all rules: compiled, run and read off.
// Functions for the crate above, which has checked the lengths of what is lent. Operations: none.
#![tactic(auto)]

ghost use Rattle.std.specs.Prelude.{◌≡◌, true, ◌++◌, ◌≤◌, length, take, drop};
ghost use Rattle.tables.specs.Layout.{name_count, cell_count, value_count, rule_count};
ghost use Rattle.tables.specs.Names.{sub_class_at};
ghost use Rattle.tables.specs.Sizes.{long_enough};
ghost use Rattle.tables.specs.WellFormed.{well_formed};
ghost use Rattle.plan.specs.Layout.{plan_count};
ghost use Rattle.translation.specs.Compile.{steps_of, plan_of};
ghost use Rattle.runner.specs.Run.{work_count, filled};
ghost use Rattle.lists.specs.Rows.{list_count, length_count, with_rows, with_lengths};
ghost use Rattle.tablerun.specs.Lists.{list_at};

use compiler::compile;
use lists::list_rows;
use plan::PLAN_CELLS;
use runner::run;
use tables::layout::CELLS;

// The plan of the tables, and each step's set in the work space. The number of steps.
fn plan_and_run(
    plan: &mut [u16],
    work: &mut [u64],
    names: &[u8],
    cells: &[u16],
    values: &[i64],
) -> usize
    requires { (long_enough names.now cells.now values.now ≡ true) × (well_formed (take cell_count cells.now) ≡ true) × (plan_count ≤ length plan.old) × (work_count ≤ length work.old) }
    ensures value { result ≡ length (steps_of (take cell_count cells.now)) }
    ensures new_plan { plan.new ≡ plan_of (take cell_count cells.now) ++ drop plan_count plan.old }
    ensures new_work { work.new ≡ filled (sub_class_at (take name_count names.now) (take cell_count cells.now)) (take cell_count cells.now) (take value_count values.now) (plan_of (take cell_count cells.now)) work.old }
{
    let n = compile(names, cells, values, plan).unwrap();
    run(names, cells, values, &plan[..], work).unwrap();
    n
}

// The lists of all rules and their lengths as well.
pub fn run_tables(
    plan: &mut [u16],
    work: &mut [u64],
    lists: &mut [u16],
    lengths: &mut [u16],
    names: &[u8],
    cells: &[u16],
    values: &[i64],
) -> usize
    requires { (long_enough names.now cells.now values.now ≡ true) × (well_formed (take cell_count cells.now) ≡ true) × (plan_count ≤ length plan.old) × (work_count ≤ length work.old) × (list_count ≤ length lists.old) × (length_count ≤ length lengths.old) }
    ensures value { result ≡ length (steps_of (take cell_count cells.now)) }
    ensures new_plan { plan.new ≡ plan_of (take cell_count cells.now) ++ drop plan_count plan.old }
    ensures new_work { work.new ≡ filled (sub_class_at (take name_count names.now) (take cell_count cells.now)) (take cell_count cells.now) (take value_count values.now) (plan_of (take cell_count cells.now)) work.old }
    ensures new_lists { lists.new ≡ with_rows (list_at (sub_class_at (take name_count names.now) (take cell_count cells.now)) (take cell_count cells.now) (take value_count values.now)) (rule_count (take cell_count cells.now)) lists.old }
    ensures new_lengths { lengths.new ≡ with_lengths (list_at (sub_class_at (take name_count names.now) (take cell_count cells.now)) (take cell_count cells.now) (take value_count values.now)) (rule_count (take cell_count cells.now)) lengths.old }
{
    let n = plan_and_run(plan, work, names, cells, values);
    list_rows(
        lists,
        lengths,
        &cells[..CELLS],
        &plan[..PLAN_CELLS],
        &work[..],
    );
    n
}
