// The trial set of an insertion: its seeds, whether they are the whole of it, its growth from them, and which of its pairs begin to stand.
#![tactic(auto)]

ghost use Rattle.std.specs.Prelude.{◌≡◌, true, ℕ, ◌<◌, ◌≤◌, length, get_or};
ghost use Rattle.bits.specs.Word.{members};
ghost use Rattle.session.specs.Limits.{max_nodes, max_edges, edge_numbers};
ghost use Rattle.session.specs.Trigger.{nodes, pattern};
ghost use Rattle.session.specs.Layout.{trigger_of, graph_of, marks_of, below};
ghost use Rattle.edge_indexes.specs.Indexes.{Indexed, Started, starts_size};
ghost use Rattle.promises.specs.Standing.{trial_set, pairs_of};
ghost use Rattle.editing.specs.Steps.{Holds, fresh_pairs, seeds_of, fresh_among, alone_at, marked_pairs};
ghost use Rattle.simulation.specs.System.{refined};
ghost use Rattle.simulation.specs.Pattern.{system};
ghost use Rattle.simulation.specs.Ordered.{ascends};
ghost use Rattle.pair_tables.specs.Tables.{marked};
ghost use Rattle.session_parts.specs.Inside.{Inside};
ghost use Rattle.session_parts.specs.Admission.{turned_in};

use edge_indexes::{IncomingIndex, STARTS, index_starts};
use editing::refine_at;
use growth::grow;
use links::{CALLERS, index_callers, linking};
use pair_tables::take_away;
use refinement::nets::Net;
use refinement::refine;
use session_parts::Held;
use worklist::{WAITING_WORDS, call_all, put_in};

// The states that begin the trial set at the edge's start.
pub fn seeds_at(session: &Held, start: u32, end: u32) -> u32
    requires { (start < nodes (graph_of session.now)) × (end < nodes (graph_of session.now)) }
    ensures { members result ≡ seeds_of session.now start end }
{
    let marks = session.marks();
    let turned = session.turned();
    let at_end = session.admitting(turned, end);
    let able = linking(session.links(), at_end);
    let at_start = session.admitting(turned, start);
    able & bits::difference(at_start, marks[start as usize])
}

// Puts the pairs that are admitted and not marked into a table that is zero.
pub fn fresh_pairs(session: &Held, table: &mut [u32])
    requires { (length table.old ≡ max_nodes) × ((v : ℕ) → get_or table.old v 0 ≡ 0) }
    ensures { Holds session.now (fresh_pairs session.now) table.new }
{
    session.admitted_pairs(session.turned(), table);
    take_away(table, session.marks());
}

// Puts the trial set that the seeds begin into a table that is zero.
pub fn try_pairs<'a>(
    session: &'a Held,
    start: u32,
    seeds: u32,
    index: IncomingIndex<'a>,
    table: &mut [u32],
)
    requires session_value { (start < nodes (graph_of session.now)) × (length table.old ≡ max_nodes) × ((v : ℕ) → get_or table.old v 0 ≡ 0) }
    requires indexed { Indexed (graph_of session.now).edges index.heads.now index.nexts.now × ((b : ℕ) × (members seeds ≡ seeds_of session.now start b)) }
    ensures { (b : ℕ) → members seeds ≡ seeds_of session.now start b → Holds session.now (trial_set (trigger_of session.now) (graph_of session.now) (marks_of session.now) start b) table.new }
{
    let nodes = session.nodes();
    let mut fresh = [0u32; session::MAX_NODES];
    fresh_pairs(session, &mut fresh);
    let mut waiting = [0u32; WAITING_WORDS];
    put_in(&mut waiting, start as usize);
    table[start as usize] = seeds;
    let links = session.links();
    let mut callers = [0u32; CALLERS];
    index_callers(links, &mut callers);
    let net = Net {
        links,
        edges: session.edges(),
        nodes,
        callers: Some(&callers),
        firsts: None,
        incoming: None,
    };
    grow(&net, index, &fresh, table, &mut waiting);
}

// Whether a state of the word is fresh at the node.
pub fn fresh_among(session: &Held, turned: u32, word: u32, node: u32) -> bool
    requires { (members turned ≡ turned_in session.now) × (node < nodes (graph_of session.now)) }
    ensures { result ≡ fresh_among session.now word node }
{
    let marks = session.marks();
    let able = session.admitting(turned, node);
    bits::meet(word, bits::difference(able, marks[node as usize]))
}

// Whether no node with an edge to the start has such a state.
pub fn alone(session: &Held, start: u32, word: u32) -> bool
    ensures { result ≡ alone_at session.now start word }
{
    let edges = session.edges();
    let turned = session.turned();
    for edge in edges {
        if edge % session::EDGE_BASE == start {
            if fresh_among(session, turned, word, edge / session::EDGE_BASE) {
                return false;
            }
        }
    }
    true
}

// Up to this many trials the looks are few, and halving costs less than an index of all nodes.
pub const FEW: u32 = 32;

// Builds the index of first edges, in a table that is zero, where there are more than a few trials: whether it is built.
pub fn starts_for(trials: u32, edges: &[u32], firsts: &mut [u32]) -> bool
    requires edges_len_bound { (length edges.now ≤ max_edges) × (ascends edges.now ≡ true) × (below edge_numbers edges.now ≡ true) × (length firsts.old ≡ starts_size) }
    requires by_index { (v : ℕ) → get_or firsts.old v 0 ≡ 0 }
    ensures { result ≡ true → Started edges.now firsts.new }
{
    if trials <= FEW {
        return false;
    }
    index_starts(edges, firsts);
    true
}

// Refines a table of trials beside the marks: what is left begins to stand. Their number only decides whether an index is built.
pub fn begin<'a>(session: &'a Held, trials: u32, index: IncomingIndex<'a>, table: &mut [u32])
    requires session_value { (length table.old ≡ max_nodes) × Inside session.now table.old }
    requires indexed { Indexed (graph_of session.now).edges index.heads.now index.nexts.now }
    ensures { Holds session.now (refined (system (pattern (trigger_of session.now) (graph_of session.now))) (marked_pairs session.now) (pairs_of (trigger_of session.now) (graph_of session.now) (marked table.old))) table.new }
{
    let nodes = session.nodes();
    let mut waiting = [0u32; WAITING_WORDS];
    call_all(table, &mut waiting);
    let edges = session.edges();
    let mut starts = [0u32; STARTS];
    let built = starts_for(trials, edges, &mut starts);
    let firsts = built.then_some(&starts[..]);
    let links = session.links();
    let mut callers = [0u32; CALLERS];
    index_callers(links, &mut callers);
    let incoming = Some(index);
    let net = Net {
        links,
        edges,
        nodes,
        callers: Some(&callers),
        firsts,
        incoming,
    };
    refine(&net, session.marks(), table, &mut waiting);
}

// Refines trials that are all at one node beside the marks: what is left begins to stand.
pub fn begin_at(session: &Held, node: u32, table: &mut [u32])
    requires session_value { (node < nodes (graph_of session.now)) × (length table.old ≡ max_nodes) × Inside session.now table.old }
    requires by_index { (v : ℕ) → (v ≡ node → ⊥) → get_or table.old v 0 ≡ 0 }
    ensures { Holds session.now (refined (system (pattern (trigger_of session.now) (graph_of session.now))) (marked_pairs session.now) (pairs_of (trigger_of session.now) (graph_of session.now) (marked table.old))) table.new }
{
    refine_at(session, node, session.marks(), table);
}
