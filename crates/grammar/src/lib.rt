// The grammar of a book: as writing and as reading (specs/); that the two are one, and that no refusal is given without its ground (proofs/).
// Operations: none; a crate has at least one function.
#![tactic(auto)]

ghost use Rattle.std.specs.Prelude.{◌≡◌};

pub fn line_after(line: usize) -> usize
    ensures { result ≡ line }
{
    line
}
