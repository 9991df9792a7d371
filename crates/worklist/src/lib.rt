// The nodes that must be looked at again, as a set, and the ways in which nodes are put in.
#![tactic(auto)]

ghost use Rattle.std.specs.Prelude.{◌≡◌, true, ◌&&◌, ◌||◌, not, ℕ, ◌/◌, ◌%◌, ◌<◌, ◌≤◌, eqb, length, get_or, IfSome};
ghost use Rattle.simulation.specs.Sets.{also, without};
ghost use Rattle.bits.specs.Word.{overlaps, members, set_bits};
ghost use Rattle.session.specs.Limits.{max_edges, max_nodes, edge_numbers};
ghost use Rattle.session.specs.Layout.{below};
ghost use Rattle.edge_indexes.specs.Indexes.{Indexed, predecessors};
ghost use Rattle.worklist.specs.Waiting.{waits, waiting_words, IsLowest};

use bits::SET_BITS;
use edge_indexes::IncomingIndex;

// A bit for each node.
pub const WAITING_WORDS: usize = session::MAX_NODES / SET_BITS;

// Puts a node in. This and the next are one line each; one function over both would be longer.
pub fn put_in(waiting: &mut [u32], node: usize)
    requires { (length waiting.old ≡ waiting_words) × (node < max_nodes) }
    ensures { (length waiting.new ≡ waiting_words) × (waits waiting.new ≡ also (waits waiting.old) node) }
{
    waiting[node / SET_BITS] = bits::added(waiting[node / SET_BITS], (node % SET_BITS) as u32);
}

// Takes a node out.
pub fn take_out(waiting: &mut [u32], node: usize)
    requires { (length waiting.old ≡ waiting_words) × (node < max_nodes) }
    ensures { (length waiting.new ≡ waiting_words) × (waits waiting.new ≡ without (waits waiting.old) node) }
{
    waiting[node / SET_BITS] = bits::removed(waiting[node / SET_BITS], (node % SET_BITS) as u32);
}

// The lowest node that waits, if one does.
pub fn lowest_in(waiting: &[u32]) -> Option<usize>
    requires { length waiting.now ≡ waiting_words }
    ensures { IsLowest waiting.now result }
{
    for (i, word) in waiting.iter().enumerate() {
        if *word != 0 {
            return Some(i * SET_BITS + bits::lowest(*word) as usize);
        }
    }
    None
}

// Puts every node in that has an edge to this one, and in a table a state of the word: by the index.
pub fn call_in_by_index(
    waiting: &mut [u32],
    edges: &[u32],
    index: IncomingIndex,
    node: usize,
    table: &[u32],
    word: u32,
)
    requires waiting_len { (length waiting.old ≡ waiting_words) × (node < max_nodes) × (length edges.now ≤ max_edges) × (length table.now ≡ max_nodes) }
    requires edges_value { (below edge_numbers edges.now ≡ true) × Indexed edges.now index.heads.now index.nexts.now }
    ensures { (length waiting.new ≡ waiting_words) × (waits waiting.new ≡ (λ w. waits waiting.old w || (predecessors edges.now node w && overlaps (get_or table.now w 0) word))) }
{
    let mut next = index.heads[node] as usize;
    while next != 0 {
        let k = next - 1;
        let start = (edges[k] / session::EDGE_BASE) as usize;
        if bits::meet(table[start], word) {
            put_in(waiting, start);
        }
        next = index.nexts[k] as usize;
    }
}

// Puts the start of an edge in, where the edge ends at the node and the table has a state of the word at its start.
pub fn call_one(waiting: &mut [u32], edge: u32, node: usize, table: &[u32], word: u32)
    requires { (length waiting.old ≡ waiting_words) × (edge < edge_numbers) × (length table.now ≡ max_nodes) }
    ensures { (length waiting.new ≡ waiting_words) × (waits waiting.new ≡ (λ w. waits waiting.old w || ((eqb (edge % max_nodes) node && eqb (edge / max_nodes) w) && overlaps (get_or table.now w 0) word))) }
{
    if (edge % session::EDGE_BASE) as usize == node {
        let start = (edge / session::EDGE_BASE) as usize;
        if bits::meet(table[start], word) {
            put_in(waiting, start);
        }
    }
}

// Puts every such node in by all edges, without an index.
pub fn call_in_by_edges(waiting: &mut [u32], edges: &[u32], node: usize, table: &[u32], word: u32)
    requires waiting_len { (length waiting.old ≡ waiting_words) × (node < max_nodes) × (length edges.now ≤ max_edges) × (length table.now ≡ max_nodes) }
    requires edges_value { below edge_numbers edges.now ≡ true }
    ensures { (length waiting.new ≡ waiting_words) × (waits waiting.new ≡ (λ w. waits waiting.old w || (predecessors edges.now node w && overlaps (get_or table.now w 0) word))) }
{
    for edge in edges {
        call_one(waiting, *edge, node, table, word);
    }
}

// Puts every such node in: by the index, or by all edges where there is none.
pub fn call_in(
    waiting: &mut [u32],
    edges: &[u32],
    index: Option<IncomingIndex>,
    node: usize,
    table: &[u32],
    word: u32,
)
    requires waiting_len { (length waiting.old ≡ waiting_words) × (node < max_nodes) × (length edges.now ≤ max_edges) × (length table.now ≡ max_nodes) }
    requires edges_value { (below edge_numbers edges.now ≡ true) × IfSome index (λ i. Indexed edges.now i.heads.now i.nexts.now) }
    ensures { (length waiting.new ≡ waiting_words) × (waits waiting.new ≡ (λ w. waits waiting.old w || (predecessors edges.now node w && overlaps (get_or table.now w 0) word))) }
{
    match index {
        Some(index) => call_in_by_index(waiting, edges, index, node, table, word),
        None => call_in_by_edges(waiting, edges, node, table, word),
    }
}

// The nodes of a part that have a pair, as a word: node k of the part is bit k. Each word is picked without a branch.
pub fn held_among(part: &[u32]) -> u32
    requires { length part.now ≡ set_bits }
    ensures { (k : ℕ) → members result k ≡ not (eqb (get_or part.now k 0) 0) }
{
    let mut all = 0;
    for (k, pairs) in part.iter().enumerate() {
        all = all | bits::picked(bits::only(k as u32), *pairs != 0);
    }
    all
}

// The nodes at which the table has a pair are put in, a word of nodes at a time.
pub fn call_all(table: &[u32], waiting: &mut [u32])
    requires { (length table.now ≡ max_nodes) × (length waiting.old ≡ waiting_words) }
    ensures { (length waiting.new ≡ waiting_words) × ((v : ℕ) → waits waiting.new v ≡ (waits waiting.old v || not (eqb (get_or table.now v 0) 0))) }
{
    for i in 0..WAITING_WORDS {
        let at = i * SET_BITS;
        let end = at + SET_BITS;
        waiting[i] = bits::united(waiting[i], held_among(&table[at..end]));
    }
}
