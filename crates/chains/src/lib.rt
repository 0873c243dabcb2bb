// Items in chains by key, in a lent slice: those of one key one after the other, the last first. An item stands there as its
// number and one, and 0 ends a chain. What has no key of interest is never looked at.
//
// For the crates above, on slices that these have shown to be long enough:
//   link   an item joins the chain of its key
#![tactic(auto)]

ghost use Rattle.std.specs.Prelude.{◌≡◌, ◌+◌, ◌<◌, length};
ghost use Rattle.chains.specs.Chains.{linked};

// Item i, of key h, joins its chain.
pub fn link(index: &mut [u16], heads: usize, nexts: usize, h: usize, i: usize)
    requires { (heads + h < length index.old) × (nexts + i < length index.old) × (i < 65535) }
    ensures { index.new ≡ linked index.old heads nexts h i }
{
    let first = index[heads + h];
    index[nexts + i] = first;
    index[heads + h] = (i + 1) as u16;
}
