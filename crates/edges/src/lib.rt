// The ascending list of a graph's edges: one looked for, one put in, one taken out.
#![tactic(auto)]

ghost use Rattle.std.specs.Prelude.{◌≡◌, true, [], ◌∷◌, ◌++◌, ◌+◌, ◌-◌, ◌<◌, ◌≤◌, leb, length, get_or, take, drop};
ghost use Rattle.simulation.specs.Search.{first};
ghost use Rattle.simulation.specs.Ordered.{ascends, from, elem, insert, remove};
ghost use Rattle.session.specs.Limits.{max_nodes};
ghost use Rattle.session.specs.Layout.{part};

pub mod held;

// The index of the first edge that is not below the code, by halving.
pub fn place_of(edges: &[u32], code: u32) -> usize
    requires { ascends edges.now ≡ true }
    ensures { result ≡ first (λ k. leb code (get_or edges.now k 0)) 0 (length edges.now) }
{
    edges.partition_point(|edge| *edge < code)
}

// The index of the first edge that starts at v or after it.
#[tactic(auto, unfolding(simulation::specs::Ordered::from))]
pub fn first_edge(edges: &[u32], v: u32) -> usize
    requires { (ascends edges.now ≡ true) × (v ≤ max_nodes) }
    ensures { result ≡ from max_nodes edges.now v }
{
    place_of(edges, v * session::EDGE_BASE)
}

// Whether the ascending list has the edge.
pub fn has_edge(edges: &[u32], code: u32) -> bool
    requires { ascends edges.now ≡ true }
    ensures { result ≡ elem code edges.now }
{
    let at = place_of(edges, code);
    at < edges.len() && edges[at] == code
}

// Each word but the last moves up by one; the first keeps its word. Only a copy over a part from its own beginning is compiled to one block move.
pub fn move_up(part: &mut [u32])
    requires { 0 < length part.old }
    ensures { part.new ≡ take 1 part.old ++ take (length part.old - 1) part.old }
{
    let last = part.len() - 1;
    part.copy_within(..last, 1);
}

// Each word but the first moves down by one, and the last place becomes zero.
pub fn move_down(part: &mut [u32])
    requires { 0 < length part.old }
    ensures { part.new ≡ drop 1 part.old ++ (0 ∷ []) }
{
    let last = part.len() - 1;
    part.copy_within(1.., 0);
    part[last] = 0;
}

// Puts an edge into the list that stands before the last place: those above it move up by one.
pub fn put_edge(edges: &mut [u32], code: u32)
    requires { (0 < length edges.old) × (ascends (take (length edges.old - 1) edges.old) ≡ true) }
    ensures { edges.new ≡ insert code (take (length edges.old - 1) edges.old) }
{
    let last = edges.len() - 1;
    let at = place_of(&edges[..last], code);
    move_up(&mut edges[at..]);
    edges[at] = code;
}

// Takes an edge out: those above it move down by one, and the place freed becomes zero.
pub fn drop_edge(edges: &mut [u32], code: u32)
    requires { (ascends edges.old ≡ true) × (elem code edges.old ≡ true) }
    ensures { edges.new ≡ remove code edges.old ++ (0 ∷ []) }
{
    let at = place_of(edges, code);
    move_down(&mut edges[at..]);
}
