// The test whether a memory is in layout: trigger, graph and marks.
#![tactic(auto)]

ghost use Rattle.std.specs.Prelude.{◌≡◌, true, not, ◌&&◌, ◌^◌, ◌≤◌, eqb, leb, length};
ghost use Rattle.session.specs.Limits.{fixed_size, masks_at, samples_at, max_edges, max_nodes, max_states, word_bits};
ghost use Rattle.session.specs.Layout.{part, below, in_layout};
ghost use Rattle.session.specs.Tests.{trigger_test, graph_test, marks_test};

use pair_tables::Patterns;
use section_tests::{
    Marked, all_admitted, all_ascend, all_named, all_zero, section_fits, unions_fit,
};

// Whether the marks fit. The union of the marks serves both tests.
pub fn marks_fit(session: &[u32], states: usize, nodes: usize) -> bool
    requires fixed_size_in_bounds { (fixed_size ≤ length session.now) × (states ≤ max_states) × (nodes ≤ max_nodes) }
    requires states_value { below (2 ^ word_bits) (part session.now masks_at states) ≡ true }
    requires nodes_value { below (2 ^ word_bits) (part session.now samples_at nodes) ≡ true }
    ensures { result ≡ marks_test session.now states nodes }
{
    let masks_end = session::MASKS_AT + states;
    let values_end = session::VALUES_AT + states;
    let samples_end = session::SAMPLES_AT + nodes;
    let marks_end = session::MARKS_AT + nodes;
    let marks = &session[session::MARKS_AT..marks_end];
    let used = bits::gathered(marks);
    let unused = bits::gathered(&session[marks_end..session::FIXED_SIZE]);
    let patterns = Patterns {
        masks: &session[session::MASKS_AT..masks_end],
        values: &session[session::VALUES_AT..values_end],
    };
    let samples = &session[session::SAMPLES_AT..samples_end];
    let marked = Marked {
        samples,
        marks,
        used,
    };
    unions_fit(used, unused, states as u32)
        && all_admitted(&patterns, session[session::INVERTED_AT], &marked)
}

// Whether the counts keep their limits.
fn counts_fit(states: usize, nodes: usize, edges: usize) -> bool
    ensures { result ≡ (not (eqb states 0) && leb states max_states && leb nodes max_nodes && leb edges max_edges) }
{
    states != 0
        && states <= session::MAX_STATES
        && nodes <= session::MAX_NODES
        && edges <= session::MAX_EDGES
}

// Whether the sections of the trigger fit, and its inverted states.
#[tactic(auto, unfolding(session::specs::Tests::trigger_test))]
pub fn trigger_fits(session: &[u32], states: usize) -> bool
    requires { (fixed_size ≤ length session.now) × (states ≤ max_states) }
    ensures { result ≡ trigger_test session.now states }
{
    let masks = &session[session::MASKS_AT..session::VALUES_AT];
    let values = &session[session::VALUES_AT..session::LINKS_AT];
    let links = &session[session::LINKS_AT..session::SAMPLES_AT];
    section_fits(masks, states, session::WORD_BITS)
        && section_fits(values, states, session::WORD_BITS)
        && section_fits(links, states, states as u32)
        && bits::inside(session[session::INVERTED_AT], states as u32)
}

// Whether the sections of the graph fit.
#[tactic(auto, using(crate::proofs::Tested::graph_parts))]
pub fn graph_fits(session: &[u32], nodes: usize, edges: usize) -> bool
    requires { (fixed_size ≤ length session.now) × (nodes ≤ max_nodes) × (edges ≤ max_edges) }
    ensures { result ≡ graph_test session.now nodes edges }
{
    let end = session::EDGES_AT + edges;
    let samples = &session[session::SAMPLES_AT..session::EDGES_AT];
    let used = &session[session::EDGES_AT..end];
    let unused = &session[end..session::MARKS_AT];
    section_fits(samples, nodes, session::WORD_BITS)
        && all_zero(unused)
        && all_ascend(used)
        && all_named(used, nodes as u32)
}

// Whether a memory is in layout.
#[tactic(auto, using(crate::proofs::Tested::layout_short, crate::proofs::Tested::layout_tests, crate::proofs::Tested::test_masks, crate::proofs::Tested::test_samples))]
pub fn in_layout(session: &[u32]) -> bool
    ensures { result ≡ in_layout session.now }
{
    if session.len() < session::FIXED_SIZE {
        return false;
    }
    let states = session[0] as usize;
    let nodes = session[1] as usize;
    let edges = session[2] as usize;
    counts_fit(states, nodes, edges)
        && trigger_fits(session, states)
        && graph_fits(session, nodes, edges)
        && marks_fit(session, states, nodes)
}
