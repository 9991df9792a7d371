// The edges that a session holds: one put in, one taken out.
ghost use Rattle.std.specs.Prelude.{◌≡◌, true, ◌++◌, ◌<◌, length, drop};
ghost use Rattle.session.specs.Limits.{fixed_size, max_edges};
ghost use Rattle.session.specs.Trigger.{nodes, edge, with_edge, without_edge};
ghost use Rattle.session.specs.Layout.{image, trigger_of, graph_of, marks_of, in_layout};

use super::{drop_edge, put_edge};

// Puts an edge into the session. Where it is new, all but what the marks say stays in layout. What this and the removal share is two lines: one function
// over both would take a closure and the change of the number, and be longer.
#[tactic(auto, using(crate::proofs::Stored::held))]
pub fn insert_edge(session: &mut [u32], start: u32, end: u32)
    requires session_value { in_layout session.old ≡ true }
    requires start_bound { (start < nodes (graph_of session.old)) × (end < nodes (graph_of session.old)) }
    requires session_len_bound { length (graph_of session.old).edges < max_edges }
    ensures { session.new ≡ image (trigger_of session.old) (with_edge (graph_of session.old) start end) (marks_of session.old) ++ drop fixed_size session.old }
{
    let edges = session[2];
    let edges_end = session::EDGES_AT + 1 + edges as usize;
    put_edge(
        &mut session[session::EDGES_AT..edges_end],
        start * session::EDGE_BASE + end,
    );
    session[2] = edges + 1;
}

// Takes an edge out of the session. All but what the marks say stays in layout.
#[tactic(auto, using(crate::proofs::Stored::held, crate::proofs::Stored::joined))]
pub fn remove_edge(session: &mut [u32], start: u32, end: u32)
    requires session_value { in_layout session.old ≡ true }
    requires end_value { edge (graph_of session.old) start end ≡ true }
    ensures { session.new ≡ image (trigger_of session.old) (without_edge (graph_of session.old) start end) (marks_of session.old) ++ drop fixed_size session.old }
{
    let edges = session[2];
    let edges_end = session::EDGES_AT + edges as usize;
    drop_edge(
        &mut session[session::EDGES_AT..edges_end],
        start * session::EDGE_BASE + end,
    );
    session[2] = edges - 1;
}
