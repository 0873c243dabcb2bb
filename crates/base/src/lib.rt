// What every crate above speaks in: tests of the numbers below a bound, values by number, texts as bytes. Definitions (specs/)
// and their laws (proofs/). Operations: none; for the crates above:
//   cell, put   what stands at a place, and a value put there
//   copy        the first values of a list become those of another
//   pick        the first of two values, or the second
#![tactic(auto)]

ghost use Rattle.std.specs.Prelude.{◌≡◌, ◌++◌, cond, drop, get_or, length, set, take};

// What stands at a place, the default past the end.
pub fn cell<T: Copy>(list: &[T], i: usize, default: T) -> T
    ensures { result ≡ get_or list.now i default }
{
    if i < list.len() { list[i] } else { default }
}

// What stands at a place becomes x; nothing changes past the end.
pub fn put<T: Copy>(list: &mut [T], i: usize, x: T)
    ensures { list.new ≡ set list.old i x }
{
    if i < list.len() {
        list[i] = x;
    }
}

// The first values become those of from, as many as there is room for. Value by value: `copy_from_slice` takes three times as
// long for a set's sixteen words.
pub fn copy<T: Copy>(into: &mut [T], from: &[T])
    ensures { into.new ≡ take (length into.old) from.now ++ drop (length from.now) into.old }
{
    let n = into.len().min(from.len());
    for (i, x) in from[..n].iter().enumerate() {
        put(into, i, *x);
    }
}

// The first of two values, or the second.
pub fn pick<T: Copy>(first: bool, a: T, b: T) -> T
    ensures { result ≡ cond first a b }
{
    if first { a } else { b }
}
