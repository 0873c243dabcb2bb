// The report of a whole run, written to a lent page part by part.
// Operations: report_part, a part of the report of a book; report_refusal, the report of a refusal.
#![tactic(auto)]

ghost use Rattle.std.specs.List.{position, list_all};
ghost use Rattle.std.specs.Prelude.{◌≡◌, ◌==◌, true, [], ◌∷◌, map, sum, ◌+◌, ◌<◌, ◌≤◌, length, get_or, ltb};
ghost use Rattle.base.specs.Lists.{allb};
ghost use Rattle.text.specs.Decimals.{decimal};
ghost use Rattle.model.specs.Answers.{answer_of, value_or};
ghost use Rattle.model.specs.Refusals.{code_of, line_of};
ghost use Rattle.model.specs.Limits.{max_nodes, max_rules, max_name};
ghost use Rattle.tables.specs.Layout.{name_count};
ghost use Rattle.tables.specs.WellFormed.{well_formed};
ghost use Rattle.lists.specs.Rows.{list_count, length_count, row_in};
ghost use Rattle.report.specs.Report.{line, break_line, break_lines};
ghost use Rattle.report.specs.Pages.{page_count, found_in, part_in, row_ok, report_part_ok, Room, Wrote};
ghost use Rattle.tables.specs.Names.{node_name_at};
ghost use Rattle.report.specs.Answers.{part_long, part_formed, part_answer, part_after, refusal_answer, refusal_after};

use base::copy;
use lists::{LENGTH_PLACES, LIST_PLACES};
use model::{MAX_NAME, MAX_NODES, NAME_BYTES, NodeNo, Refusal, code, line};
use tablecheck::well_formed;
use tables::layout::CELLS;
use tables::lent::enough;
use tables::reads::{fact_count, node_count, rule_count, wide};

// The longest line of a node: its word, two digits of a rule, a name, two spaces, two brackets and LF; a page for as many as
// there may be nodes.
pub const BREAK_BYTES: usize = MAX_NAME + 13;

pub const PAGE_BYTES: usize = MAX_NODES * BREAK_BYTES;

// The report of a refusal: one digit of its number and twenty of its line, since 10 has no line.
pub const REFUSAL_BYTES: usize = 33;

// The lists of the rules and their lengths, each as long as its limit.
#[derive(Clone, Copy)]
struct Lists<'a> {
    rows: &'a [u16],
    lengths: &'a [u16],
    ghost rows_long: { list_count ≤ length rows.now },
    ghost lengths_long: { length_count ≤ length lengths.now },
}

impl<'a> Lists<'a> {
    // The list of rule r.
    fn row(self, r: usize) -> &'a [u16]
        requires { (r < max_rules) × (get_or self.lengths.now r 0 ≤ max_nodes) }
        ensures { result.now ≡ row_in self.entry.rows.now self.entry.lengths.now r }
    {
        let first = MAX_NODES * r;
        let end = first + wide(self.lengths[r]);
        &self.rows[first..end]
    }

    // How many nodes the first n rules list.
    fn total(self, n: usize) -> usize
        requires { n ≤ max_rules }
        ensures { result ≡ found_in self.entry.lengths.now n }
    {
        sum_of(&self.lengths[..n])
    }

    // The list of rule r has no ground for refusal 9.
    fn row_ok(self, cells: &[u16], r: usize) -> bool
        requires { r < max_rules }
        ensures { result ≡ row_ok cells.now self.entry.rows.now self.entry.lengths.now r }
    {
        if MAX_NODES < wide(self.lengths[r]) {
            return false;
        }
        all_below(self.row(r), node_count(cells))
    }

    // Refusal 9 is for tables and lists of which this is false.
    fn part_ok(self, cells: &[u16], part: usize) -> bool
        ensures { result ≡ part_formed cells.now self.entry.rows.now self.entry.lengths.now part }
    {
        if !well_formed(cells) {
            return false;
        }
        if part == 0 {
            return true;
        }
        let rules = rule_count(cells);
        if part <= rules {
            return self.row_ok(cells, part - 1);
        }
        if rules + 1 < part {
            return true;
        }
        all_below(&self.lengths[..rules], MAX_NODES + 1)
    }
}

// A page that is written from its front on: its bytes, and how many of them are written. Numbers are put by hand: `write!` says
// what it writes only where it succeeds, and no contract of the library says that it does where there is room.
#[derive(Drop)]
struct Page<'a> {
    bytes: &'a mut [u8],
    at: usize,
}

impl Page<'_> {
    // A text, after what is written.
    fn put(&mut self, text: &[u8])
        requires { Room self.old (length text.now) }
        ensures same_reference { self.new.bytes.ghost_name ≡ self.old.bytes.ghost_name }
        ensures put { Wrote self.old self.new text.now }
    {
        let end = self.at + text.len();
        copy(&mut self.bytes[self.at..end], text);
        self.at = end;
    }

    fn digit(&mut self, d: usize)
        requires { (d < 10) × Room self.old 1 }
        ensures same_reference { self.new.bytes.ghost_name ≡ self.old.bytes.ghost_name }
        ensures put { Wrote self.old self.new ((48 + d) ∷ []) }
    {
        self.put(&[b'0' + d as u8]);
    }

    // The digits before the last, then the last.
    fn decimal(&mut self, n: usize)
        requires { Room self.old (length (decimal n)) }
        ensures same_reference { self.new.bytes.ghost_name ≡ self.old.bytes.ghost_name }
        ensures put { Wrote self.old self.new (decimal n) }
    {
        if n < 10 {
            return self.digit(n);
        }
        self.decimal(n / 10);
        self.digit(n % 10);
    }

    // A space and a number.
    fn number(&mut self, n: usize)
        requires { Room self.old (1 + length (decimal n)) }
        ensures same_reference { self.new.bytes.ghost_name ≡ self.old.bytes.ghost_name }
        ensures put { Wrote self.old self.new (32 ∷ decimal n) }
    {
        self.put(b" ");
        self.decimal(n);
    }

    // The line of a word and numbers.
    fn line(&mut self, word: &[u8], ns: &[usize])
        requires { Room self.old (length (line word.now (map decimal ns.now))) }
        ensures same_reference { self.new.bytes.ghost_name ≡ self.old.bytes.ghost_name }
        ensures put { Wrote self.old self.new (line word.now (map decimal ns.now)) }
    {
        self.put(b"(");
        self.put(word);
        for n in ns {
            self.number(*n);
        }
        self.put(b")\n");
    }

    // The line of a node under rule r, by its name.
    fn break_line(&mut self, r: usize, name: &[u8])
        requires { Room self.old (length (break_line r name.now)) }
        ensures same_reference { self.new.bytes.ghost_name ≡ self.old.bytes.ghost_name }
        ensures put { Wrote self.old self.new (break_line r name.now) }
    {
        self.put(b"(breaks");
        self.number(r);
        self.put(b" ");
        self.put(name);
        self.put(b")\n");
    }

    // The lines of rule r, whose list is lent.
    fn break_lines(&mut self, names: &[u8], list: &[u16], r: usize)
        requires { Room self.old page_count × (name_count ≤ length names.now) × (length list.now ≤ max_nodes) × (allb (λ v. ltb v max_nodes) list.now ≡ true) × (r < max_rules) }
        ensures same_reference { self.new.bytes.ghost_name ≡ self.old.bytes.ghost_name }
        ensures put { Wrote self.old self.new (break_lines r (map (node_name_at names.now) list.now)) }
    {
        for v in list {
            self.break_line(r, stored_name(names, NodeNo(*v)));
        }
    }

    // A part of the report, by its number.
    fn part(&mut self, names: &[u8], cells: &[u16], lists: Lists, part: usize)
        requires { Room self.old page_count × (name_count ≤ length names.now) × (well_formed cells.now ≡ true) × (report_part_ok cells.now lists.rows.now lists.lengths.now part ≡ true) }
        ensures same_reference { self.new.bytes.ghost_name ≡ self.old.bytes.ghost_name }
        ensures put { Wrote self.old self.new (part_in names.now cells.now lists.entry.rows.now lists.entry.lengths.now part) }
    {
        let rules = rule_count(cells);
        if part == 0 {
            return self.line(b"book", &[node_count(cells), fact_count(cells), rules]);
        }
        if rules < part {
            return self.line(b"found", &[lists.total(rules)]);
        }
        let r = part - 1;
        self.break_lines(names, lists.row(r), r);
    }
}

fn first_zero(text: &[u8]) -> Option<usize>
    ensures { result ≡ position (λ b. b == 0) text.now }
{
    text.iter().position(|b| *b == 0)
}

// The stored name of node v.
fn stored_name(names: &[u8], v: NodeNo) -> &[u8]
    requires { (v.0 < max_nodes) × (name_count ≤ length names.now) }
    ensures name { result.now ≡ node_name_at names.now v.0 }
    ensures upper_bound { length result.now ≤ max_name }
{
    let first = NAME_BYTES * (v.0 as usize);
    let place = &names[first..first + MAX_NAME];
    let n = first_zero(place).unwrap_or(MAX_NAME);
    &place[..n]
}

fn sum_of(list: &[u16]) -> usize
    requires { length list.now ≤ max_rules }
    ensures { result ≡ sum list.now }
{
    list.iter().map(|k| wide(*k)).sum()
}

// Every number of a list is below n.
fn all_below(list: &[u16], n: usize) -> bool
    ensures { result ≡ list_all (λ v. ltb v n) list.now }
{
    list.iter().all(|v| wide(*v) < n)
}

// Refusal 8 is for slices of which this is false.
#[tactic(auto, unfolding(crate::specs::Answers::part_long))]
fn long_enough(
    names: &[u8],
    cells: &[u16],
    values: &[i64],
    lists: &[u16],
    lengths: &[u16],
    page: &[u8],
) -> bool
    ensures { result ≡ part_long names.now cells.now values.now lists.now lengths.now page.now }
{
    enough(names, cells, values)
        && LIST_PLACES <= lists.len()
        && LENGTH_PLACES <= lengths.len()
        && PAGE_BYTES <= page.len()
}

// The operation: a part of the report at the front of a lent page; what lies past it stays. Part 0 is the first line, parts 1
// and on the lines of the rules by number, the part after these the last line. Refused: a slice too short, then tables that are
// not well formed, a list that is too long or not one of their nodes, then a part that the report does not have; nothing
// changes then.
pub fn report_part(
    names: &[u8],
    cells: &[u16],
    values: &[i64],
    lists: &[u16],
    lengths: &[u16],
    part: usize,
    page: &mut [u8],
) -> Result<usize, Refusal>
    ensures result_value { answer_of result ≡ part_answer names.now cells.now values.now lists.now lengths.now part page.old }
    ensures new_page { page.new ≡ part_after names.now cells.now values.now lists.now lengths.now part page.old }
    ensures result_in_bounds { value_or 0 (answer_of result) ≤ length page.old }
{
    if !long_enough(names, cells, values, lists, lengths, &page[..]) {
        return Err(Refusal::Short);
    }
    let cs = &cells[..CELLS];
    let held = Lists {
        rows: lists,
        lengths,
    };
    if !held.part_ok(cs, part) {
        return Err(Refusal::Malformed);
    }
    if rule_count(cs) + 1 < part {
        return Err(Refusal::Absent);
    }
    let mut written = Page { bytes: page, at: 0 };
    written.part(names, cs, held, part);
    Ok(written.at)
}

// The operation: the report of a refusal at the front of lent space; what lies past it stays. Refused: space too short, and
// nothing changes then.
pub fn report_refusal(refusal: Refusal, space: &mut [u8]) -> Result<usize, Refusal>
    ensures result_value { answer_of result ≡ refusal_answer (code_of refusal) (line_of refusal) space.old }
    ensures new_space { space.new ≡ refusal_after (code_of refusal) (line_of refusal) space.old }
    ensures result_in_bounds { value_or 0 (answer_of result) ≤ length space.old }
{
    if space.len() < REFUSAL_BYTES {
        return Err(Refusal::Short);
    }
    let mut written = Page {
        bytes: space,
        at: 0,
    };
    written.line(b"refused", &[code(refusal), line(refusal)]);
    Ok(written.at)
}
