// Refinement: tentative pairs that the settled and the tentative pairs do not support are cleared, node by node, until none is left.
#![tactic(auto)]

ghost use Rattle.std.specs.Prelude.{◌≡◌, true, not, ◌&&◌, ℕ, ◌<◌, ◌≤◌, length, get_or, MatchOption, IfSome, None};
ghost use Rattle.bits.specs.Word.{members, set_bits};
ghost use Rattle.simulation.specs.Ordered.{ascends};
ghost use Rattle.session.specs.Limits.{max_edges, max_nodes};
ghost use Rattle.pair_tables.specs.Tables.{marked};
ghost use Rattle.refinement.specs.Refining.{carried, kept_of, unmet_of, Turned, Refining, Settled};
ghost use Rattle.edge_indexes.specs.Indexes.{edges_from, Started};
ghost use Rattle.worklist.specs.Waiting.{waiting_words, lowest_waiting};

pub mod nets;

use edge_indexes::{IncomingIndex, STARTS, edges_at, index, index_starts};
use links::{CALLERS, calling, index_callers, linked, linking, unlinked};
use nets::Net;
use worklist::{call_in, lowest_in, take_out};

// The links of the set without a carrier among the edges of a node. The search for one ends at the first found, and an edge is looked at once: it
// strikes off every link that it carries. The search for the next link goes on behind the edge found, so the place is kept by hand.
pub fn missing(set: u32, edges: &[u32], settled: &[u32], tentative: &[u32]) -> u32
    requires { (length settled.now ≡ max_nodes) × (length tentative.now ≡ max_nodes) }
    ensures { (o : ℕ) → members result o ≡ (members set o && not (carried edges.now settled.now tentative.now o)) }
{
    let mut rest = set;
    let mut k = 0;
    'links: while rest != 0 {
        let link = bits::lowest(rest);
        let carrier = loop {
            if edges.len() <= k {
                break 'links;
            }
            let end = (edges[k] % session::EDGE_BASE) as usize;
            rest = bits::difference(rest, settled[end] | tentative[end]);
            if !bits::has(rest, link) {
                break k;
            }
            k += 1;
        };
        k = carrier + 1;
    }
    rest
}

// The states to which the word has links, and to which no edge of a node leads.
pub fn unmet(word: u32, links: &[u32], edges: &[u32], settled: &[u32], tentative: &[u32]) -> u32
    requires { (length links.now ≤ set_bits) × (length settled.now ≡ max_nodes) × (length tentative.now ≡ max_nodes) }
    ensures { members result ≡ unmet_of word links.now edges.now settled.now tentative.now }
{
    let needed = linked(links, word) & bits::below(links.len() as u32);
    missing(needed, edges, settled, tentative)
}

// The states of the word that keep their support at a node with these edges: those without a link that is not met.
pub fn kept(word: u32, links: &[u32], edges: &[u32], settled: &[u32], tentative: &[u32]) -> u32
    requires { (length links.now ≤ set_bits) × (length settled.now ≡ max_nodes) × (length tentative.now ≡ max_nodes) }
    ensures { members result ≡ kept_of word links.now edges.now settled.now tentative.now }
{
    let lacking = unmet(word, links, edges, settled, tentative);
    if lacking == 0 {
        return word;
    }
    if bits::several(word) {
        return bits::difference(word, linking(links, lacking));
    }
    unlinked(links, word, lacking)
}

// The states that keep their support at the node v.
pub fn left_at(
    links: &[u32],
    edges: &[u32],
    firsts: Option<&[u32]>,
    settled: &[u32],
    tentative: &[u32],
    v: usize,
) -> u32
    requires settled_len { (length settled.now ≡ max_nodes) × (length tentative.now ≡ max_nodes) × (v < max_nodes) × (length links.now ≤ set_bits) }
    requires edges_value { (ascends edges.now ≡ true) × (length edges.now ≤ max_edges) × IfSome firsts (λ index. Started edges.now index.now) }
    ensures { members result ≡ kept_of (get_or tentative.now v 0) links.now (edges_from edges.now v) settled.now tentative.now }
{
    let out = edges_at(edges, firsts, v);
    kept(tentative[v], links, out, settled, tentative)
}

// Looks at the node v, which no longer waits; where pairs are cleared there, the predecessors that may have stood on them are called in.
pub fn turn(net: &Net, settled: &[u32], tentative: &mut [u32], waiting: &mut [u32], v: usize)
    requires { (length settled.now ≡ max_nodes) × (length tentative.old ≡ max_nodes) × (length waiting.old ≡ waiting_words) × (v < max_nodes) }
    ensures { Turned net.now.links.now net.now.edges.now settled.now tentative.old waiting.old v tentative.new waiting.new }
{
    take_out(waiting, v);
    let word = tentative[v];
    let left = left_at(net.links, net.edges, net.firsts, settled, tentative, v);
    if left != word {
        tentative[v] = left;
        let shaken = calling(net.links, net.callers, bits::difference(word, left));
        call_in(waiting, net.edges, net.incoming, v, tentative, shaken);
    }
}

// So many nodes are looked at before an index of all edges pays.
pub const FEW: u32 = 2;

// Refines the tentative table beside the settled one, from the nodes that wait, the lowest first. Without an index of incoming edges it stops
// after a few looks. The lowest node that still waits, if one does.
pub fn refine(
    net: &Net,
    settled: &[u32],
    tentative: &mut [u32],
    waiting: &mut [u32],
) -> Option<usize>
    requires { (length settled.now ≡ max_nodes) × (length tentative.old ≡ max_nodes) × (length waiting.old ≡ waiting_words) }
    ensures refining { Refining net.now.nodes net.now.links.now net.now.edges.now settled.now tentative.old waiting.old tentative.new waiting.new (lowest_waiting waiting.new) }
    ensures lowest { MatchOption result (net.now.nodes ≤ lowest_waiting waiting.new) (λ v. (v < net.now.nodes) × (v ≡ lowest_waiting waiting.new)) }
    ensures ended { IfSome net.now.incoming (λ index. result ≡ None) }
{
    let mut left = FEW;
    while let Some(v) = lowest_in(waiting)
        && v < net.nodes
    {
        if net.incoming.is_none() {
            if left == 0 {
                return Some(v);
            }
            left -= 1;
        }
        turn(net, settled, tentative, waiting, v);
    }
    None
}

// The same to the end, with all indexes, which are built here.
pub fn refine_indexed(net: &Net, settled: &[u32], tentative: &mut [u32], waiting: &mut [u32])
    requires settled_len { (length settled.now ≡ max_nodes) × (length tentative.old ≡ max_nodes) × (length waiting.old ≡ waiting_words) }
    requires inside { (u v : ℕ) → marked tentative.old u v ≡ true → v < net.now.nodes }
    ensures { Settled net.now.nodes net.now.links.now net.now.edges.now settled.now tentative.old waiting.old tentative.new }
{
    let mut firsts = [0u32; STARTS];
    index_starts(net.edges, &mut firsts);
    let mut heads = [0u32; session::MAX_NODES];
    let mut nexts = [0u32; session::MAX_EDGES];
    index(net.edges, &mut heads, &mut nexts);
    let mut callers = [0u32; CALLERS];
    index_callers(net.links, &mut callers);
    let indexed = Net {
        links: net.links,
        edges: net.edges,
        nodes: net.nodes,
        callers: Some(&callers),
        firsts: Some(&firsts),
        incoming: Some(IncomingIndex {
            heads: &heads,
            nexts: &nexts,
        }),
    };
    refine(&indexed, settled, tentative, waiting);
}

// The same where few nodes wait: the first looks make do without an index, and often there are no more.
pub fn refine_few(net: &Net, settled: &[u32], tentative: &mut [u32], waiting: &mut [u32])
    requires settled_len { (length settled.now ≡ max_nodes) × (length tentative.old ≡ max_nodes) × (length waiting.old ≡ waiting_words) }
    requires inside { (u v : ℕ) → marked tentative.old u v ≡ true → v < net.now.nodes }
    ensures { Settled net.now.nodes net.now.links.now net.now.edges.now settled.now tentative.old waiting.old tentative.new }
{
    let left = refine(net, settled, tentative, waiting);
    if left.is_some() {
        refine_indexed(net, settled, tentative, waiting);
    }
}
