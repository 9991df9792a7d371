// A deletion: the marks that an edge less leaves.
#![tactic(auto)]

ghost use Rattle.std.specs.Prelude.{◌≡◌, true, ◌<◌, length};
ghost use Rattle.session.specs.Limits.{max_nodes};
ghost use Rattle.session.specs.Trigger.{nodes};
ghost use Rattle.session.specs.Layout.{trigger_of, graph_of, marks_of, in_layout};
ghost use Rattle.pair_tables.specs.Tables.{marked};
ghost use Rattle.promises.specs.Rules.{deletion, graph_rules, verdict};
ghost use Rattle.promises.specs.Promises.{Done, ceased};
ghost use Rattle.editing.specs.Steps.{steady_at, Ceased, Saved, calm, tried};

use edge_indexes::edges_from;
use edges::held::remove_edge;
use editing::refine_at;
use pair_tables::{pairs_in, take_away};
use refinement::unmet;
use session_parts::{Held, store_marks};

// Whether each mark at a node keeps its support: one look by the marks alone, before any index is built.
pub fn steady(session: &Held, node: u32) -> bool
    requires { node < nodes (graph_of session.now) }
    ensures { result ≡ steady_at session.now node }
{
    let marks = session.marks();
    let word = marks[node as usize];
    if word == 0 {
        return true;
    }
    let edges = edges_from(session.edges(), node as usize);
    unmet(word, session.links(), edges, marks, marks) == 0
}

// Puts the marks that keep their support without the edge into a table: the marks, refined from the node where it went.
pub fn cease(session: &Held, start: u32, table: &mut [u32])
    requires { (start < nodes (graph_of session.now)) × (length table.old ≡ max_nodes) }
    ensures { Ceased session.now start table.new }
{
    table.copy_from_slice(session.marks());
    let settled = [0u32; session::MAX_NODES];
    refine_at(session, start, &settled, table);
}

// How many pairs are marked and not in the table.
pub fn ceased_pairs(session: &Held, table: &[u32]) -> u32
    requires { length table.now ≡ max_nodes }
    ensures { result ≡ ceased (trigger_of session.now) (graph_of session.now) (marks_of session.now) (marked table.now) }
{
    let mut gone = [0u32; session::MAX_NODES];
    gone.copy_from_slice(session.marks());
    take_away(&mut gone, table);
    pairs_in(&gone, session.states(), session.nodes())
}

// Deletes an edge that breaks no rule, and corrects the marks. Before they change, they are saved.
pub fn delete_edit(session: &mut [u32], start: u32, end: u32, before: &mut [u32]) -> Option<u32>
    requires { (in_layout session.old ≡ true) × (verdict (graph_rules deletion (graph_of session.old) start end) ≡ 0) × (length before.old ≡ max_nodes) }
    ensures { Done deletion (trigger_of session.old) (graph_of session.old) (marks_of session.old) (marks_of session.new) start end (tried result) session.old session.new × Saved session.old session.new before.new (calm result) }
{
    remove_edge(session, start, end);
    let held = Held::of(session);
    let unmoved = steady(&held, start);
    if unmoved {
        return None;
    }
    before.copy_from_slice(held.marks());
    let mut table = [0u32; session::MAX_NODES];
    cease(&held, start, &mut table);
    let trials = ceased_pairs(&held, &table);
    store_marks(session, &table);
    Some(trials)
}
