// A search along the rows of a relation between nodes, breadth first: what is reached from a node, and in how many rounds.
//
// Each round looks at the rows of those nodes alone that the round before was the first to reach. So no row is looked at twice.
//
// For the crates above, which show that nothing stands past the rows of n nodes:
//   Level    a search after some rounds, and one round more
//   search   the whole search
#![tactic(auto)]

ghost use Rattle.std.specs.Prelude.{◌≡◌, ◌*◌, ◌<◌, ◌≤◌, eqb, length};
ghost use Rattle.nodeset.specs.Words.{words_of, union, difference};
ghost use Rattle.closure.specs.Rows.{leads, Within};
ghost use Rattle.model.specs.Limits.{max_nodes};
ghost use Rattle.model.specs.Repeats.{star};
ghost use Rattle.model.specs.Rounds.{rounds};
ghost use Rattle.reach.specs.Levels.{image_words};

use closure::{Relation, take_row};
use nodeset::{Iter, NodeSet};

// The nodes that the rows lead to from the members of a set below n.
fn image(set: NodeSet, rows: &[u64], n: usize) -> NodeSet
    requires { (n ≤ max_nodes) × (16 * n ≤ length rows.now) }
    ensures { result.words ≡ image_words rows.now n set.words }
{
    let members = set.words;
    let mut words = [0u64; 16];
    for u in Iter::below(&members, n) {
        let at = 16 * u;
        take_row(&mut words, 0, &rows[at..]);
    }
    NodeSet { words }
}

// A search after some rounds: the nodes reached, and its frontier, those of them that the last round was the first to reach.
#[derive(Clone, Copy)]
pub struct Level {
    pub reached: NodeSet,
    pub frontier: NodeSet,
}

impl Level {
    // No round yet: node v alone, where it is below 1,024.
    pub fn start(v: usize) -> Level
        ensures { (result.reached.words ≡ words_of (λ w. eqb v w) 16) × (result.frontier.words ≡ words_of (λ w. eqb v w) 16) }
    {
        let none = NodeSet::EMPTY;
        let node = none.with(v);
        Level {
            reached: node,
            frontier: node,
        }
    }

    // One round more, by any rows of n nodes, with whatever past them: less than a Relation asks.
    pub fn next(self, rows: &[u64], n: usize) -> Level
        requires { (n ≤ max_nodes) × (16 * n ≤ length rows.now) }
        ensures words_value { result.reached.words ≡ union self.reached.words (image_words rows.now n self.frontier.words) }
        ensures words_value_2 { result.frontier.words ≡ difference (image_words rows.now n self.frontier.words) self.reached.words }
    {
        let before = self.reached;
        let found = image(self.frontier, rows, n);
        Level {
            reached: before.union(found),
            frontier: found.difference(before),
        }
    }
}

// What a search comes to: the nodes that it reaches, and how many rounds reach one that none before them did.
#[derive(Clone, Copy)]
pub struct Reached {
    pub nodes: NodeSet,
    pub rounds: usize,
}

// The search from node v, until a round reaches nothing more.
pub fn search(relation: Relation, v: usize) -> Reached
    requires { v < relation.n }
    ensures rounds_value { result.rounds ≡ rounds (leads relation.entry.rows.now) relation.entry.n v }
    ensures words_value { result.nodes.words ≡ words_of (star (leads relation.entry.rows.now) relation.entry.n v) 16 }
{
    let mut level = Level::start(v);
    let mut count: usize = 0;
    loop {
        level = level.next(relation.rows, relation.n);
        if level.frontier.none_below(relation.n) {
            let nodes = level.reached;
            return Reached {
                nodes,
                rounds: count,
            };
        }
        count += 1;
    }
}
