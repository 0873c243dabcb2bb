// The whole run: from the bytes of a book to the lists of all its rules.
// Operation: validate. Demand 3 is its first promise.
#![tactic(auto)]

ghost use Rattle.std.specs.Prelude.{◌≡◌};
ghost use Rattle.model.specs.Answers.{answer_of};
ghost use Rattle.validation.specs.Claim.{Demand3};
ghost use Rattle.validation.specs.Lent.{lent, validate_long};
ghost use Rattle.validation.specs.Whole.{validate_answer, after};

use lists::{LENGTH_PLACES, LIST_PLACES};
use model::Refusal;
use plan::PLAN_CELLS;
use reader::read;
use runner::WORK_WORDS;
use tablerun::run_tables;
use tables::lent::enough;

// Refusal 8 is for slices of which this is false.
#[tactic(auto, unfolding(crate::specs::Lent::validate_long))]
fn long_enough(
    names: &[u8],
    cells: &[u16],
    values: &[i64],
    plan: &[u16],
    work: &[u64],
    lists: &[u16],
    lengths: &[u16],
) -> bool
    ensures { result ≡ validate_long (lent names.now cells.now values.now plan.now work.now lists.now lengths.now) }
{
    enough(names, cells, values)
        && PLAN_CELLS <= plan.len()
        && WORK_WORDS <= work.len()
        && LIST_PLACES <= lists.len()
        && LENGTH_PLACES <= lengths.len()
}

// The operation. Demand 3: for every valid book with these bytes, whatever the slices held, the answer is 8 exactly where a slice
// is too short, and nothing has changed then; else the plan is that of the book's tables, the work space has each step's set, and
// each rule's row of the lists, up to its length, is read off its step: exactly the nodes that the rule selects and that do not
// conform to its shape, each once, in book order; and the plan has at most four steps for each form entry and two for each rule.
// Then the answer for any bytes (8, then what the grammar says), and what is left in the seven slices.
pub fn validate(
    book: &[u8],
    names: &mut [u8],
    cells: &mut [u16],
    values: &mut [i64],
    plan: &mut [u16],
    work: &mut [u64],
    lists: &mut [u16],
    lengths: &mut [u16],
) -> Result<usize, Refusal>
    ensures demand3 { Demand3 book.now (lent names.old cells.old values.old plan.old work.old lists.old lengths.old) (answer_of result) (lent names.new cells.new values.new plan.new work.new lists.new lengths.new) }
    ensures result_value { answer_of result ≡ validate_answer book.now (lent names.old cells.old values.old plan.old work.old lists.old lengths.old) }
    ensures new_lent { lent names.new cells.new values.new plan.new work.new lists.new lengths.new ≡ after book.now (lent names.old cells.old values.old plan.old work.old lists.old lengths.old) }
{
    if !long_enough(
        &names[..],
        &cells[..],
        &values[..],
        &plan[..],
        &work[..],
        &lists[..],
        &lengths[..],
    ) {
        return Err(Refusal::Short);
    }
    match read(book, names, cells, values) {
        Err(r) => Err(r),
        Ok(_) => {
            Ok(run_tables(
                plan,
                work,
                lists,
                lengths,
                &names[..],
                &cells[..],
                &values[..],
            ))
        }
    }
}
