// The printing program: a book on standard input, its report on standard output.
#![tactic(auto)]

ghost use Rattle.std.specs.Prelude.{◌≤◌, IfOk, length};
ghost use Rattle.model.specs.Answers.{answer_of, value_or};

use lists::{LENGTH_PLACES, LIST_PLACES};
use model::{MAX_BYTES, Refusal};
use plan::PLAN_CELLS;
use report::{PAGE_BYTES, report_part, report_refusal};
use runner::WORK_WORDS;
use std::io;
use std::io::{ErrorKind, Read};
use tables::layout::{CELLS, NAMES, VALUES};
use tables::reads::rule_count;
use validation::validate;

// What was written to the page; nothing where that was refused.
fn print(rt: &impl Print, page: &[u8], written: Result<usize, Refusal>) -> io::Result<()>
    requires { value_or 0 (answer_of written) ≤ length page.now }
{
    match written {
        Ok(n) => rt.write_all(&page[..n]),
        Err(_) => Ok(()),
    }
}

// The parts of the report, one after the other: the head, each rule's breaks, the count.
fn print_report(
    rt: &impl Print,
    names: &[u8],
    cells: &[u16],
    values: &[i64],
    lists: &[u16],
    lengths: &[u16],
    page: &mut [u8],
) -> io::Result<()> {
    let parts = rule_count(cells) + 2;
    for k in 0..parts {
        let written = report_part(names, cells, values, lists, lengths, k, page);
        print(rt, &page[..], written)?;
    }
    Ok(())
}

fn print_refusal(rt: &impl Print, refusal: Refusal, page: &mut [u8]) -> io::Result<()> {
    let written = report_refusal(refusal, page);
    print(rt, &page[..], written)
}

// Fills the book from standard input, until it is full or the input ends: how many bytes came.
fn read_book(rt: &impl Input, book: &mut [u8]) -> io::Result<usize>
    ensures { IfOk result (λ n. n ≤ length book.new) }
{
    let mut input = rt.reader();
    let mut n = 0;
    for _ in 0..u64::MAX {
        match input.read(&mut book[n..]) {
            Ok(0) => break,
            Ok(more) => n += more,
            Err(e) => {
                if e.kind() != ErrorKind::Interrupted {
                    return Err(e);
                }
            }
        }
    }
    Ok(n)
}

// One byte more than a book may have, so that a longer one is seen to be too long.
const BOOK_BYTES: usize = MAX_BYTES + 1;

// The buffers are arrays of fixed length: nothing of the program is on a heap.
fn main(rt: HostRuntime) -> io::Result<()> {
    let mut book = [0u8; BOOK_BYTES];
    let mut names = [0u8; NAMES];
    let mut cells = [0u16; CELLS];
    let mut values = [0i64; VALUES];
    let mut plan = [0u16; PLAN_CELLS];
    let mut work = [0u64; WORK_WORDS];
    let mut lists = [0u16; LIST_PLACES];
    let mut lengths = [0u16; LENGTH_PLACES];
    let mut page = [0u8; PAGE_BYTES];
    let n = read_book(&rt, &mut book)?;
    let answer = validate(
        &book[..n],
        &mut names,
        &mut cells,
        &mut values,
        &mut plan,
        &mut work,
        &mut lists,
        &mut lengths,
    );
    match answer {
        Err(r) => print_refusal(&rt, r, &mut page),
        Ok(_) => { print_report(&rt, &names, &cells, &values, &lists, &lengths, &mut page) }
    }
}
