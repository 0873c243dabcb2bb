// The consoles that put direct questions, and their tallies: for each console, how many of its questions were answered.
//
// For the crates above; load asks for eight:
//   is_console            a console's number
//   Tallies::after        the tallies after a question of a console
//   load, store           tallies that a caller lends: the first eight of them by value, and tallies over the first eight
#![tactic(auto)]

ghost use Rattle.std.specs.Prelude.{◌≡◌, cond, ◌≤◌, ltb, length, take};
ghost use Rattle.nodeset.specs.Words.{stored};
ghost use Rattle.consoles.specs.Tallies.{console_count, one_more, counted};

use base::copy;

// The consoles are 0 to 7.
pub const CONSOLES: usize = 8;

// A tally for each console.
#[derive(Clone, Copy)]
pub struct Tallies {
    pub counts: [u32; 8],
}

// A console has this number.
pub fn is_console(console: usize) -> bool
    ensures { result ≡ ltb console console_count }
{
    console < CONSOLES
}

// One more, up to the greatest number of 32 bits.
fn one_more(tally: u32) -> u32
    ensures { result ≡ one_more tally }
{
    tally.saturating_add(1)
}

impl Tallies {
    // After a question of the console: one more for it where an answer was given, and no other moves.
    pub fn after(self, console: usize, given: bool) -> Tallies
        ensures { result.counts ≡ cond given (counted console self.counts) self.counts }
    {
        let mut counts = self.counts;
        if given {
            if console < CONSOLES {
                counts[console] = one_more(counts[console]);
            }
        }
        Tallies { counts }
    }
}

// The first eight of lent tallies.
pub fn load(tallies: &[u32]) -> Tallies
    requires { console_count ≤ length tallies.now }
    ensures { result.counts ≡ take console_count tallies.now }
{
    let mut counts = [0u32; 8];
    counts.copy_from_slice(&tallies[..CONSOLES]);
    Tallies { counts }
}

// The first eight of lent tallies become these, or as many as there are.
pub fn store(into: &mut [u32], tallies: Tallies)
    ensures { into.new ≡ stored into.old tallies.counts }
{
    let counts = tallies.counts;
    copy(into, &counts);
}
