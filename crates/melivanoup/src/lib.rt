// The operations for programs in C and Rust, as a static library. Each function calls one operation and has its promise: it
// returns the number of the refusal, or 0 where there is none, and writes all else that the operation answers through lent
// numbers, which are 0 where a refusal leaves nothing to say.
// Operations: melivanoup_read, melivanoup_verdict, melivanoup_rounds, melivanoup_nearest, melivanoup_compile, melivanoup_run,
// melivanoup_list, melivanoup_validate, melivanoup_report.
#![tactic(auto)]

ghost use Rattle.std.specs.Prelude.{◌≡◌, false};
ghost use Rattle.model.specs.Refusals.{code_of, line_of};
ghost use Rattle.model.specs.Answers.{refusal_number, refusal_line, value_or};
ghost use Rattle.reader.specs.Answers.{no_counts, read_answer, names_of, cells_of, values_of};
ghost use Rattle.verdict.specs.Answers.{question, reply};
ghost use Rattle.rounds.specs.Answers.{rounds_answer};
ghost use Rattle.model.specs.Nearest.{no_spare};
ghost use Rattle.nearest.specs.Answers.{nearest_answer};
ghost use Rattle.compiler.specs.Answers.{compile_answer, plan_after};
ghost use Rattle.runner.specs.Run.{run_answer, work_after};
ghost use Rattle.lists.specs.Answers.{list_answer, row_after};
ghost use Rattle.validation.specs.Claim.{Demand3};
ghost use Rattle.validation.specs.Lent.{lent};
ghost use Rattle.validation.specs.Whole.{validate_answer, after};
ghost use Rattle.report.specs.Answers.{part_answer, part_after};
ghost use Rattle.melivanoup.specs.Numbers.{one_if, found_in, hops_in, node_in, answer_by};

use compiler::compile;
use consoles::{CONSOLES, load, store};
use lists::list;
use model::{Refusal, code};
use reader::read;
use report::report_part;
use runner::run;
use validation::validate;
use verdict::verdict;

// The number of a refusal.
fn number(r: Refusal) -> u32
    ensures { result ≡ code_of r }
{
    code(r) as u32
}

// The number of a refusal; its line through line.
fn with_line(line: &mut usize, r: Refusal) -> u32
    ensures value { result ≡ code_of r }
    ensures new_line { line.new ≡ line_of r }
{
    let k = code(r);
    let at = model::line(r);
    *line = at;
    k as u32
}

// A book to its tables: the line of a refusal, and the counts of an accepted book.
#[unsafe(no_mangle)]
pub extern "C" fn melivanoup_read(
    book: &[u8],
    names: &mut [u8],
    cells: &mut [u16],
    values: &mut [i64],
    line: &mut usize,
    nodes: &mut usize,
    facts: &mut usize,
    rules: &mut usize,
) -> u32
    ensures value { result ≡ refusal_number (read_answer book.now names.old cells.old values.old) }
    ensures new_line { line.new ≡ refusal_line (read_answer book.now names.old cells.old values.old) }
    ensures new_nodes { nodes.new ≡ (value_or no_counts (read_answer book.now names.old cells.old values.old)).nodes }
    ensures new_facts { facts.new ≡ (value_or no_counts (read_answer book.now names.old cells.old values.old)).facts }
    ensures new_rules { rules.new ≡ (value_or no_counts (read_answer book.now names.old cells.old values.old)).rules }
    ensures new_names { names.new ≡ names_of book.now names.old cells.old values.old }
    ensures new_cells { cells.new ≡ cells_of book.now names.old cells.old values.old }
    ensures new_values { values.new ≡ values_of book.now names.old cells.old values.old }
{
    match read(book, names, cells, values) {
        Ok(n) => {
            *line = 0;
            *nodes = n.nodes;
            *facts = n.facts;
            *rules = n.rules;
            0
        }
        Err(r) => {
            *nodes = 0;
            *facts = 0;
            *rules = 0;
            with_line(line, r)
        }
    }
}

// The direct verdict: 1 where the node conforms to the shape, else 0; and the tallies, which come in and go out.
#[unsafe(no_mangle)]
pub extern "C" fn melivanoup_verdict(
    names: &[u8],
    cells: &[u16],
    values: &[i64],
    console: usize,
    node: usize,
    shape: usize,
    tallies: &mut [u32],
    conforms: &mut u32,
) -> u32
    ensures value { result ≡ refusal_number (reply names.now cells.now values.now tallies.old (question console node shape)).answer }
    ensures new_conforms { conforms.new ≡ one_if (value_or false (reply names.now cells.now values.now tallies.old (question console node shape)).answer) }
    ensures new_tallies { tallies.new ≡ (reply names.now cells.now values.now tallies.old (question console node shape)).tallies }
{
    *conforms = 0;
    if tallies.len() < CONSOLES {
        return number(Refusal::Short);
    }
    let held = load(tallies);
    let outcome = verdict(names, cells, values, console, node, shape, held);
    store(tallies, outcome.tallies);
    let answer = outcome.answer;
    match answer {
        Ok(true) => {
            *conforms = 1;
            0
        }
        Ok(false) => 0,
        Err(r) => number(r),
    }
}

// The rounds of the star of a path entry from a node: how many repetitions of the path lead to all that any number of them does.
#[unsafe(no_mangle)]
pub extern "C" fn melivanoup_rounds(
    names: &[u8],
    cells: &[u16],
    values: &[i64],
    node: usize,
    path: usize,
    rounds: &mut usize,
) -> u32
    ensures value { result ≡ refusal_number (rounds_answer names.now cells.now values.now node path) }
    ensures new_rounds { rounds.new ≡ value_or 0 (rounds_answer names.now cells.now values.now node path) }
{
    match rounds::rounds(names, cells, values, node, path) {
        Ok(k) => {
            *rounds = k;
            0
        }
        Err(r) => {
            *rounds = 0;
            number(r)
        }
    }
}

// Of the nodes that conform to a shape, the nearest to a node along a path entry: 1 where there is one, else 0; how many repetitions
// away it is, and its number.
#[unsafe(no_mangle)]
pub extern "C" fn melivanoup_nearest(
    names: &[u8],
    cells: &[u16],
    values: &[i64],
    node: usize,
    path: usize,
    shape: usize,
    found: &mut u32,
    hops: &mut usize,
    spare: &mut usize,
) -> u32
    ensures value { result ≡ refusal_number (nearest_answer names.now cells.now values.now node path shape) }
    ensures new_found { found.new ≡ one_if (found_in (value_or no_spare (nearest_answer names.now cells.now values.now node path shape))) }
    ensures new_hops { hops.new ≡ hops_in (value_or no_spare (nearest_answer names.now cells.now values.now node path shape)) }
    ensures new_spare { spare.new ≡ node_in (value_or no_spare (nearest_answer names.now cells.now values.now node path shape)) }
{
    *found = 0;
    *hops = 0;
    *spare = 0;
    match nearest::nearest(names, cells, values, node, path, shape) {
        Ok(Some((k, w))) => {
            *found = 1;
            *hops = k;
            *spare = w.0 as usize;
            0
        }
        Ok(None) => 0,
        Err(r) => number(r),
    }
}

// Tables to their plan: the number of steps.
#[unsafe(no_mangle)]
pub extern "C" fn melivanoup_compile(
    names: &[u8],
    cells: &[u16],
    values: &[i64],
    plan: &mut [u16],
    steps: &mut usize,
) -> u32
    ensures value { result ≡ refusal_number (compile_answer names.now cells.now values.now plan.old) }
    ensures new_steps { steps.new ≡ value_or 0 (compile_answer names.now cells.now values.now plan.old) }
    ensures new_plan { plan.new ≡ plan_after names.now cells.now values.now plan.old }
{
    match compile(names, cells, values, plan) {
        Ok(count) => {
            *steps = count;
            0
        }
        Err(r) => {
            *steps = 0;
            number(r)
        }
    }
}

// A plan to the sets of its steps.
#[unsafe(no_mangle)]
pub extern "C" fn melivanoup_run(
    names: &[u8],
    cells: &[u16],
    values: &[i64],
    plan: &[u16],
    work: &mut [u64],
) -> u32
    ensures value { result ≡ refusal_number (run_answer names.now cells.now values.now plan.now work.old) }
    ensures new_work { work.new ≡ work_after names.now cells.now values.now plan.now work.old }
{
    match run(names, cells, values, plan, work) {
        Ok(()) => 0,
        Err(r) => number(r),
    }
}

// The list of a rule: how many nodes it has.
#[unsafe(no_mangle)]
pub extern "C" fn melivanoup_list(
    names: &[u8],
    cells: &[u16],
    values: &[i64],
    plan: &[u16],
    work: &[u64],
    rule: usize,
    row: &mut [u16],
    nodes: &mut usize,
) -> u32
    ensures value { result ≡ refusal_number (list_answer names.now cells.now values.now plan.now work.now rule row.old) }
    ensures new_nodes { nodes.new ≡ value_or 0 (list_answer names.now cells.now values.now plan.now work.now rule row.old) }
    ensures new_row { row.new ≡ row_after names.now cells.now values.now plan.now work.now rule row.old }
{
    match list(names, cells, values, plan, work, rule, row) {
        Ok(n) => {
            *nodes = n;
            0
        }
        Err(r) => {
            *nodes = 0;
            number(r)
        }
    }
}

// The whole run: the line of a refusal, and the number of steps of an accepted book's plan. Demand 3 is the first promise.
#[unsafe(no_mangle)]
pub extern "C" fn melivanoup_validate(
    book: &[u8],
    names: &mut [u8],
    cells: &mut [u16],
    values: &mut [i64],
    plan: &mut [u16],
    work: &mut [u64],
    lists: &mut [u16],
    lengths: &mut [u16],
    line: &mut usize,
    steps: &mut usize,
) -> u32
    ensures demand3 { Demand3 book.now (lent names.old cells.old values.old plan.old work.old lists.old lengths.old) (answer_by result line.new steps.new) (lent names.new cells.new values.new plan.new work.new lists.new lengths.new) }
    ensures value { result ≡ refusal_number (validate_answer book.now (lent names.old cells.old values.old plan.old work.old lists.old lengths.old)) }
    ensures new_line { line.new ≡ refusal_line (validate_answer book.now (lent names.old cells.old values.old plan.old work.old lists.old lengths.old)) }
    ensures new_steps { steps.new ≡ value_or 0 (validate_answer book.now (lent names.old cells.old values.old plan.old work.old lists.old lengths.old)) }
    ensures new_lent { lent names.new cells.new values.new plan.new work.new lists.new lengths.new ≡ after book.now (lent names.old cells.old values.old plan.old work.old lists.old lengths.old) }
{
    match validate(book, names, cells, values, plan, work, lists, lengths) {
        Ok(n) => {
            *line = 0;
            *steps = n;
            0
        }
        Err(r) => {
            *steps = 0;
            with_line(line, r)
        }
    }
}

// A part of the report of a book: how many bytes of the page it takes.
#[unsafe(no_mangle)]
pub extern "C" fn melivanoup_report(
    names: &[u8],
    cells: &[u16],
    values: &[i64],
    lists: &[u16],
    lengths: &[u16],
    part: usize,
    page: &mut [u8],
    bytes: &mut usize,
) -> u32
    ensures value { result ≡ refusal_number (part_answer names.now cells.now values.now lists.now lengths.now part page.old) }
    ensures new_bytes { bytes.new ≡ value_or 0 (part_answer names.now cells.now values.now lists.now lengths.now part page.old) }
    ensures new_page { page.new ≡ part_after names.now cells.now values.now lists.now lengths.now part page.old }
{
    match report_part(names, cells, values, lists, lengths, part, page) {
        Ok(n) => {
            *bytes = n;
            0
        }
        Err(r) => {
            *bytes = 0;
            number(r)
        }
    }
}
