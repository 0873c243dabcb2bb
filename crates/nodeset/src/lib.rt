// Sets of nodes as words of 64 bits: node n is at bit n % 64 of word n / 64.
//
// Operations on any number of lent words; past the end every word counts as 0, and nothing is written:
//   test, insert          n is in the set; n joins the set
//   union_into, intersect_into, subtract_into
//                         the first set becomes the union, the intersection, the difference of the two
//   count_both            how many numbers below 1,024 are in both sets
//   next_member, next_shared, next_outside
//                         the least number from a number on and below n that is in the set, in both sets, in the first alone;
//                         n where there is none, and no Option: a loop over the members then goes on from the number that it
//                         holds, and needs none beside it
//   load, store           the first sixteen words as a node set, and a node set over the first sixteen words
//
// Operations on a node set, sixteen words by value:
//   NodeSet::EMPTY        the empty set
//   NodeSet::whole        the numbers below n
//   test, with            n is in the set; the set with n
//   union, intersection, difference, count
//   none_below            no number below n is in the set
#![tactic(auto)]

ghost use Rattle.std.specs.Prelude.{◌≡◌, Bool, not, ◌&&◌, ◌+◌, ◌-◌, ◌*◌, ◌≤◌, ◌<◌, length, ltb};
ghost use Rattle.std.specs.Int.Count.{ones};
ghost use Rattle.base.specs.Bounded.{every, size};
ghost use Rattle.base.specs.Least.{next_from};
ghost use Rattle.nodeset.specs.Words.{has, both, word_of, words_of, with, union, intersection, difference, stored, ones_both};
ghost use Rattle.std.specs.Iterator.{at_most};
ghost use Rattle.nodeset.specs.Steps.{Gives};
ghost use Rattle.nodeset.specs.Operations.{DigitByDigit};

use base::{cell, copy, put};

// n is in the set.
pub fn test(words: &[u64], n: usize) -> bool
    ensures { result ≡ has words.now n }
{
    (cell(words, n / 64, 0) >> (n % 64)) % 2 == 1
}

// n joins the set, where there is a word for it.
pub fn insert(words: &mut [u64], n: usize)
    ensures { words.new ≡ with words.old n }
{
    let old = cell(words, n / 64, 0);
    put(words, n / 64, old | (1 << (n % 64)));
}

// The operation on two sets, word by word.
fn combine_into<F: Fn(u64, u64) -> u64>(into: &mut [u64], from: &[u64], op: F)
    requires { F.IsAlwaysCallable op }
    ensures { (keeps : Bool → Bool → Bool) → DigitByDigit keeps (F.post op) → into.new ≡ words_of (λ m. keeps (has into.old m) (has from.now m)) (length into.old) }
{
    for (i, word) in into.iter_mut().enumerate() {
        *word = op(*word, cell(from, i, 0));
    }
}

// The members of from join into.
pub fn union_into(into: &mut [u64], from: &[u64])
    ensures { into.new ≡ union into.old from.now }
{
    combine_into(into, from, |x, y| x | y);
}

// Only the members of from stay in into.
pub fn intersect_into(into: &mut [u64], from: &[u64])
    ensures { into.new ≡ intersection into.old from.now }
{
    combine_into(into, from, |x, y| x & y);
}

// The members of from leave into.
pub fn subtract_into(into: &mut [u64], from: &[u64])
    ensures { into.new ≡ difference into.old from.now }
{
    combine_into(into, from, |x, y| x ^ (x & y));
}

// The ones of a word.
fn ones_of(x: u64) -> usize
    ensures { (result ≡ ones x) × (result ≤ 64) }
{
    x.count_ones() as usize
}

// The ones of four ANDed words, from word i on. Most have none, and where all four have none they are not counted: that is
// dear on machines without an instruction for it.
fn ones_of_four(a: &[u64], b: &[u64], i: usize) -> usize
    requires { i < 16 }
    ensures { ones_both a.now b.now i + result ≡ ones_both a.now b.now (i + 4) }
{
    let x = cell(a, i, 0) & cell(b, i, 0);
    let y = cell(a, i + 1, 0) & cell(b, i + 1, 0);
    let z = cell(a, i + 2, 0) & cell(b, i + 2, 0);
    let w = cell(a, i + 3, 0) & cell(b, i + 3, 0);
    if (x == 0) & ((y == 0) & ((z == 0) & (w == 0))) {
        return 0;
    }
    ones_of(x) + ones_of(y) + ones_of(z) + ones_of(w)
}

// How many numbers below 1,024 are in both sets: the ones of sixteen ANDed words.
fn count_words(a: &[u64], b: &[u64]) -> usize
    ensures { result ≡ size (both a.now b.now) 1024 }
{
    let mut total: usize = 0;
    for i in 0..4 {
        total += ones_of_four(a, b, 4 * i);
    }
    total
}

// The same. Of sixteen words that are known to be there none is looked for past the end.
pub fn count_both(a: &[u64], b: &[u64]) -> usize
    ensures { result ≡ size (both a.now b.now) 1024 }
{
    if (16 <= a.len()) & (16 <= b.len()) {
        return count_words(&a[..16], &b[..16]);
    }
    count_words(a, b)
}

// The least number from a number on and below n that the operation keeps, n where there is none. Words of which it keeps no more
// cost one step each.
fn next_kept<F: Fn(u64, u64) -> u64>(a: &[u64], b: &[u64], op: F, from: usize, n: usize) -> usize
    requires { F.IsAlwaysCallable op }
    ensures { (keeps : Bool → Bool → Bool) → DigitByDigit keeps (F.post op) → result ≡ next_from (λ m. keeps (has a.now m) (has b.now m)) from n }
{
    if n <= from {
        return n;
    }
    // that at is below n is tested once for each word: as a loop's condition it would be tested again
    let mut at = from;
    loop {
        let word = op(cell(a, at / 64, 0), cell(b, at / 64, 0));
        let rest = word >> (at % 64);
        let left = n - at;
        if 0 < rest {
            let skip = rest.trailing_zeros() as usize;
            if skip < left {
                return at + skip;
            }
            return n;
        }
        let step = 64 - at % 64;
        if left <= step {
            return n;
        }
        at += step;
    }
}

// The least member from a number on and below n, n where there is none.
pub fn next_member(words: &[u64], from: usize, n: usize) -> usize
    ensures { result ≡ next_from (has words.now) from n }
{
    next_kept(words, words, |x, y| x | y, from, n)
}

// The members of a set below n, lowest first: `next` is that which comes next, n after the last.
#[derive(Clone, Copy)]
pub struct Iter<'a> {
    pub words: &'a [u64],
    pub next: usize,
    pub n: usize,
}

impl<'a> Iter<'a> {
    // All of them.
    pub fn below(words: &'a [u64], n: usize) -> Iter<'a>
        ensures set { result.words.now ≡ words.now }
        ensures first { result.next ≡ next_from (has words.now) 0 n }
        ensures bound { result.n ≡ n }
    {
        Iter {
            words,
            next: next_member(words, 0, n),
            n,
        }
    }
}

impl<'a> Iterator for Iter<'a> {
    type Item = usize;

    ghost next_gives = { Gives };

    ghost remaining = { λ s. at_most (s.n - s.next) };

    fn next(&mut self) -> Option<usize> {
        let member = self.next;
        if self.n <= member {
            return None;
        }
        self.next = next_member(self.words, member + 1, self.n);
        Some(member)
    }
}

// The same of the numbers that are in both sets; in the first alone.
pub fn next_shared(a: &[u64], b: &[u64], from: usize, n: usize) -> usize
    ensures { result ≡ next_from (λ m. has a.now m && has b.now m) from n }
{
    next_kept(a, b, |x, y| x & y, from, n)
}

pub fn next_outside(a: &[u64], b: &[u64], from: usize, n: usize) -> usize
    ensures { result ≡ next_from (λ m. has a.now m && not (has b.now m)) from n }
{
    next_kept(a, b, |x, y| x ^ (x & y), from, n)
}

// A set of nodes: sixteen words.
#[derive(Clone, Copy)]
pub struct NodeSet {
    pub words: [u64; 16],
}

// The first sixteen words.
pub fn load(words: &[u64]) -> NodeSet
    ensures { result.words ≡ words_of (has words.now) 16 }
{
    let mut loaded = [0u64; 16];
    copy(&mut loaded, words);
    NodeSet { words: loaded }
}

// The first sixteen words, or as many as there are, become the set's.
pub fn store(into: &mut [u64], set: NodeSet)
    ensures { into.new ≡ stored into.old set.words }
{
    copy(into, &set.words);
}

// Word i of the numbers below n.
fn word_below(n: usize, i: usize) -> u64
    ensures { result ≡ word_of (λ k. ltb (i * 64 + k) n) 64 }
{
    if i < n / 64 {
        return u64::MAX;
    }
    if n / 64 < i {
        return 0;
    }
    (1 << (n % 64)) - 1
}

impl NodeSet {
    // The empty set.
    pub const EMPTY: NodeSet = NodeSet { words: [0; 16] };

    // The numbers below n, up to 1,024.
    pub fn whole(n: usize) -> NodeSet
        ensures { result.words ≡ words_of (λ m. ltb m n) 16 }
    {
        let mut words = [0u64; 16];
        for (j, word) in words.iter_mut().enumerate() {
            *word = word_below(n, j);
        }
        NodeSet { words }
    }

    // n is in the set.
    pub fn test(self, n: usize) -> bool
        ensures { result ≡ has self.words n }
    {
        test(&self.words, n)
    }

    // The set with n, where n is below 1,024.
    pub fn with(mut self, n: usize) -> NodeSet
        ensures { result.words ≡ with self.words n }
    {
        insert(&mut self.words, n);
        self
    }

    // The numbers in one of the sets.
    pub fn union(mut self, other: NodeSet) -> NodeSet
        ensures { result.words ≡ union self.words other.words }
    {
        union_into(&mut self.words, &other.words);
        self
    }

    // The numbers in both sets.
    pub fn intersection(mut self, other: NodeSet) -> NodeSet
        ensures { result.words ≡ intersection self.words other.words }
    {
        intersect_into(&mut self.words, &other.words);
        self
    }

    // The numbers in this set that are not in the other.
    pub fn difference(mut self, other: NodeSet) -> NodeSet
        ensures { result.words ≡ difference self.words other.words }
    {
        subtract_into(&mut self.words, &other.words);
        self
    }

    // How many numbers are in the set.
    pub fn count(self) -> usize
        ensures { result ≡ size (has self.words) 1024 }
    {
        count_both(&self.words, &self.words)
    }

    // No number below n is in the set.
    pub fn none_below(self, n: usize) -> bool
        ensures { result ≡ every (λ m. not (has self.words m)) n }
    {
        next_member(&self.words, 0, n) == n
    }
}
