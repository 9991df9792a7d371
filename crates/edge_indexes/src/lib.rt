// The two indexes of the edges, by which a look at a node searches for nothing: where its own edges begin, and which end at it.
#![tactic(auto)]

ghost use Rattle.std.specs.Prelude.{◌≡◌, true, ℕ, ◌<◌, ◌≤◌, length, get_or, IfSome};
ghost use Rattle.session.specs.Limits.{max_edges, max_nodes, edge_numbers};
ghost use Rattle.session.specs.Layout.{below};
ghost use Rattle.edge_indexes.specs.Indexes.{Indexed, Noted, filled, Started, edges_from, starts_size};
ghost use Rattle.simulation.specs.Ordered.{ascends};

// The index of the edges that end at each node: the last of them by the node, and by each edge the one before it. The tables are fixed, for there is no heap:
// 0 ends a list, and k + 1 names edge k. An edge is taken apart by / and %, one operation each.
#[derive(Clone, Copy)]
pub struct IncomingIndex<'a> {
    pub heads: &'a [u32],
    pub nexts: &'a [u32],
}

// Builds the index of the edges that end at each node, in tables that are zero.
#[tactic(auto, using(crate::proofs::Incoming::indexing_none, crate::proofs::Incoming::indexing_done))]
pub fn index(edges: &[u32], heads: &mut [u32], nexts: &mut [u32])
    requires edges_len_bound { (length edges.now ≤ max_edges) × (length heads.old ≡ max_nodes) × (length nexts.old ≡ max_edges) }
    requires by_index { (v : ℕ) → get_or heads.old v 0 ≡ 0 }
    ensures { Indexed edges.now heads.new nexts.new }
{
    for (k, edge) in edges.iter().enumerate() {
        let end = (edge % session::EDGE_BASE) as usize;
        nexts[k] = heads[end];
        heads[end] = (k + 1) as u32;
    }
}

// A place for each node, and one for the end of the last.
pub const STARTS: usize = session::MAX_NODES + 1;

// Notes for each node that has edges, in the place of the next node, where they end. The last of them is written last.
#[tactic(auto, using(crate::proofs::Firsts::noting_none, crate::proofs::Firsts::noting_done))]
pub fn note_ends(edges: &[u32], firsts: &mut [u32])
    requires edges_len_bound { (length edges.now ≤ max_edges) × (below edge_numbers edges.now ≡ true) × (length firsts.old ≡ starts_size) }
    requires by_index { (v : ℕ) → get_or firsts.old v 0 ≡ 0 }
    ensures { Noted edges.now firsts.new }
{
    for (k, edge) in edges.iter().enumerate() {
        let start = (edge / session::EDGE_BASE) as usize;
        firsts[start + 1] = (k + 1) as u32;
    }
}

// Where nothing was noted, the place before goes on; it is carried along, so that no read waits for a store.
#[tactic(auto, using(crate::proofs::Firsts::filling_none))]
pub fn fill_in(firsts: &mut [u32])
    requires { length firsts.old ≡ starts_size }
    ensures { (length firsts.new ≡ starts_size) × ((v : ℕ) → v < starts_size → get_or firsts.new v 0 ≡ filled firsts.old v) }
{
    let mut place = 0;
    for first in firsts.iter_mut() {
        if *first != 0 {
            place = *first;
        }
        *first = place;
    }
}

// Builds the index of where the edges of each node begin, in a table that is zero.
#[tactic(auto, using(crate::proofs::Firsts::started))]
pub fn index_starts(edges: &[u32], firsts: &mut [u32])
    requires edges_len_bound { (length edges.now ≤ max_edges) × (ascends edges.now ≡ true) × (below edge_numbers edges.now ≡ true) × (length firsts.old ≡ starts_size) }
    requires by_index { (v : ℕ) → get_or firsts.old v 0 ≡ 0 }
    ensures { Started edges.now firsts.new }
{
    note_ends(edges, firsts);
    fill_in(firsts);
}

// The edges of the node v: their range is found by halving.
#[tactic(auto, using(simulation::proofs::Edges::from_le, simulation::proofs::Edges::from_mono, crate::proofs::Ranges::range_from))]
pub fn edges_from(edges: &[u32], v: usize) -> &[u32]
    requires { (ascends edges.now ≡ true) × (length edges.now ≤ max_edges) × (v < max_nodes) }
    ensures { result.now ≡ edges_from edges.now v }
{
    let low = edges::first_edge(edges, v as u32);
    let high = edges::first_edge(edges, v as u32 + 1);
    &edges[low..high]
}

// The edges of the node v: by the index of first edges, or by halving where there is none.
#[tactic(auto, using(simulation::proofs::Edges::from_le, simulation::proofs::Edges::from_mono, crate::proofs::Ranges::range_from))]
pub fn edges_at<'a>(edges: &'a [u32], firsts: Option<&[u32]>, v: usize) -> &'a [u32]
    requires edges_value { (ascends edges.now ≡ true) × (length edges.now ≤ max_edges) × (v < max_nodes) }
    requires started { IfSome firsts (λ index. Started edges.now index.now) }
    ensures { result.now ≡ edges_from edges.now v }
{
    let Some(firsts) = firsts else {
        return edges_from(edges, v);
    };
    let low = firsts[v] as usize;
    let high = firsts[v + 1] as usize;
    &edges[low..high]
}
