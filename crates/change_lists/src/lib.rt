// Change numbers, built and taken apart, and the change list.
#![tactic(auto)]

ghost use Rattle.std.specs.Prelude.{◌≡◌, ◌+◌, ◌*◌, ◌<◌, ◌≤◌, eqb, pos, nat_abs, length, get_or};
ghost use Rattle.std.specs.Int.Signed.{lt_z};
ghost use Rattle.simulation.specs.Sets.{all_below};
ghost use Rattle.session.specs.Limits.{max_changes, max_nodes, max_states};
ghost use Rattle.listing.specs.Changes.{node_span, size_of, signed};
ghost use Rattle.listing.specs.Placed.{node_changes, table_changes, Placed};
ghost use Rattle.bits.specs.Word.{set_bits};

// The sizes of two nodes' changes are so far apart: room for the numbers of the states.
pub const NODE_SPAN: u32 = 64;

// The change of a state at a node: positive where it begins to stand, negative where it ceases.
pub fn change(state: u32, node: u32, begins: bool) -> i32
    requires { (state < set_bits) × (node < max_nodes) }
    ensures { result ≡ signed begins (size_of state node) }
{
    let size = (node * NODE_SPAN + (state + 1)) as i32;
    if begins { size } else { -size }
}

// The size of a change.
pub fn size_of(change: i32) -> u32
    ensures { result ≡ nat_abs change }
{
    change.unsigned_abs()
}

// Whether the pair begins to stand: the change is positive.
pub fn begins(change: i32) -> bool
    ensures { result ≡ lt_z (pos 0) change }
{
    0 < change
}

// The node of a change, and the number of its state.
#[derive(Clone, Copy, Debug, PartialEq, Eq)]
pub struct Pair {
    pub node: u32,
    pub state: u32,
}

// The pair of a change. No `From`: `Pair::from(5)` would not say that the number is a change.
pub fn pair_of(change: i32) -> Pair
    ensures { (result.node * node_span + result.state ≡ nat_abs change) × (result.state < node_span) }
{
    let size = size_of(change);
    Pair {
        node: size / NODE_SPAN,
        state: size % NODE_SPAN,
    }
}

// Writes the changes of one node from a place of the room on; the place after them. Only the states that differ are visited.
pub fn node_changes(
    changes: &mut [i32],
    at: usize,
    node: u32,
    states: u32,
    before: u32,
    after: u32,
) -> usize
    requires { (states ≤ set_bits) × (node < max_nodes) × (at + states ≤ length changes.old) }
    ensures { Placed changes.old at (node_changes node states before after) changes.new result }
{
    let mut next = at;
    let mut rest = bits::differing(before, after) & bits::below(states);
    while rest != 0 {
        let u = bits::lowest(rest);
        let is = bits::has(after, u);
        changes[next] = change(u, node, is);
        next += 1;
        rest = bits::without_lowest(rest);
    }
    next
}

// Whether two tables agree in their first words. The differences are folded, so there is no branch.
pub fn same_words(before: &[u32], after: &[u32], nodes: usize) -> bool
    requires { (nodes ≤ length before.now) × (nodes ≤ length after.now) }
    ensures { result ≡ all_below nodes (λ v. eqb (get_or before.now v 0) (get_or after.now v 0)) }
{
    let mut all: u32 = 0;
    for v in 0..nodes {
        all |= before[v] ^ after[v];
    }
    all == 0
}

// Writes the changes between two tables to the front of the room; how many they are.
pub fn write_changes(
    changes: &mut [i32],
    states: u32,
    nodes: usize,
    before: &[u32],
    after: &[u32],
) -> usize
    requires states_le_max_states { (states ≤ max_states) × (nodes ≤ max_nodes) × (max_changes ≤ length changes.old) }
    requires nodes_in_bounds { (nodes ≤ length before.now) × (nodes ≤ length after.now) }
    ensures { Placed changes.old 0 (table_changes states nodes before.now after.now) changes.new result }
{
    if same_words(before, after, nodes) {
        return 0;
    }
    let mut next = 0;
    for v in 0..nodes {
        let was = before[v];
        let is = after[v];
        if was != is {
            next = node_changes(changes, next, v as u32, states, was, is);
        }
    }
    next
}
