// The trial set: it is grown from its seeds, node by node, until no pair is missing.
#![tactic(auto)]

ghost use Rattle.std.specs.Prelude.{◌≡◌, true, ℕ, ◌<◌, length};
ghost use Rattle.session.specs.Limits.{max_nodes};
ghost use Rattle.pair_tables.specs.Tables.{marked};
ghost use Rattle.worklist.specs.Waiting.{waits, waiting_words};
ghost use Rattle.edge_indexes.specs.Indexes.{Indexed};
ghost use Rattle.growth.specs.Growth.{TriedAt, Spread, Grown};

use edge_indexes::IncomingIndex;
use links::calling;
use refinement::nets::Net;
use worklist::{lowest_in, put_in, take_out};

// Tries more states at a node. It waits where it gains one, for its predecessors may gain by it.
pub fn try_at(trials: &mut [u32], waiting: &mut [u32], node: usize, more: u32)
    requires { (length trials.old ≡ max_nodes) × (length waiting.old ≡ waiting_words) × (node < max_nodes) }
    ensures { TriedAt trials.old waiting.old node more trials.new waiting.new }
{
    let word = trials[node];
    let wider = bits::united(word, more);
    if wider != word {
        trials[node] = wider;
        put_in(waiting, node);
    }
}

// Looks at the node v, which no longer waits: the fresh pairs at its predecessors with a link to a pair at v are tried too. The edges that end at v are gone
// along as in `call_in_by_index`: an iterator of its own, with what it yields and that it ends, would be longer than the two loops.
pub fn spread(
    net: &Net,
    index: IncomingIndex,
    fresh: &[u32],
    trials: &mut [u32],
    waiting: &mut [u32],
    v: usize,
)
    requires fresh_len { (length fresh.now ≡ max_nodes) × (length trials.old ≡ max_nodes) × (length waiting.old ≡ waiting_words) × (v < max_nodes) }
    requires indexed { Indexed net.now.edges.now index.heads.now index.nexts.now }
    ensures { Spread net.now.links.now net.now.edges.now fresh.now trials.old waiting.old v trials.new waiting.new }
{
    take_out(waiting, v);
    let able = calling(net.links, net.callers, trials[v]);
    let mut next = index.heads[v] as usize;
    while next != 0 {
        let k = next - 1;
        let start = (net.edges[k] / session::EDGE_BASE) as usize;
        try_at(trials, waiting, start, able & fresh[start]);
        next = index.nexts[k] as usize;
    }
}

// Grows the seeds to the trial set, from the nodes that wait, the lowest first.
pub fn grow(net: &Net, index: IncomingIndex, fresh: &[u32], trials: &mut [u32], waiting: &mut [u32])
    requires fresh_len { (length fresh.now ≡ max_nodes) × (length trials.old ≡ max_nodes) × (length waiting.old ≡ waiting_words) }
    requires indexed { Indexed net.now.edges.now index.heads.now index.nexts.now }
    requires by_index { (u v : ℕ) → marked fresh.now u v ≡ true → (u < length net.now.links.now) × (v < net.now.nodes) }
    requires by_index_2 { (u v : ℕ) → marked trials.old u v ≡ true → (marked fresh.now u v ≡ true) × (waits waiting.old v ≡ true) }
    ensures { Grown net.now.nodes net.now.links.now net.now.edges.now fresh.now trials.old trials.new }
{
    while let Some(v) = lowest_in(waiting)
        && v < net.nodes
    {
        spread(net, index, fresh, trials, waiting, v);
    }
}
