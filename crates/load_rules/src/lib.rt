// The rules of a load, in their sequence.
#![tactic(auto)]

ghost use Rattle.std.specs.Prelude.{◌≡◌, not, ◌&&◌, ◌||◌, suc, ◌-◌, ◌^◌, ◌≤◌, ltb, eqb, length, get_or};
ghost use Rattle.simulation.specs.Sets.{all_below};
ghost use Rattle.session.specs.Limits.{max_edges, max_states};
ghost use Rattle.session.specs.Layout.{below};
ghost use Rattle.promises.specs.Answers.{first_broken};
ghost use Rattle.promises.specs.Rules.{given_by, precedes, load_rules, verdict};

use promises::{Lists, Refusal};
use reports::too_short;

// Rule 4: no state, too many, or one given in part, such as an inverted state that has no mask.
pub fn states_wrong(masks: usize, values: usize, links: usize, inverted: u32) -> bool
    ensures { result ≡ ((eqb masks 0 || ltb max_states masks) || ((not (eqb values masks) || not (eqb links masks)) || not (ltb inverted (2 ^ masks)))) }
{
    (masks == 0 || session::MAX_STATES < masks)
        || ((values != masks || links != masks) || !bits::inside(inverted, masks as u32))
}

// Rule 5: a link goes to a state above the number of states.
pub fn links_wrong(links: &[u32], states: usize) -> bool
    requires { states ≤ max_states }
    ensures { result ≡ not (below (2 ^ states) links.now) }
{
    !bits::subset(bits::gathered(links), bits::below(states as u32))
}

// Rule 7: too many edges, or one given in part.
pub fn edges_wrong(starts: usize, ends: usize) -> bool
    ensures { result ≡ (ltb max_edges starts || not (eqb ends starts)) }
{
    session::MAX_EDGES < starts || ends != starts
}

// Rule 8: an edge names a node that is not below the number of nodes.
pub fn nodes_wrong(starts: &[u32], ends: &[u32], nodes: u32) -> bool
    ensures { result ≡ not (below nodes starts.now && below nodes ends.now) }
{
    let named = section_tests::all_below(starts, nodes) && section_tests::all_below(ends, nodes);
    !named
}

// Whether an edge comes before another.
pub fn comes_before(a: u32, b: u32, c: u32, d: u32) -> bool
    ensures { result ≡ precedes a b c d }
{
    (a, b) < (c, d)
}

// Rule 9: the edges do not ascend strictly.
pub fn order_wrong(starts: &[u32], ends: &[u32]) -> bool
    requires { length ends.now ≡ length starts.now }
    ensures { result ≡ not (all_below (length starts.now - 1) (λ k. precedes (get_or starts.now k 0) (get_or ends.now k 0) (get_or starts.now (suc k) 0) (get_or ends.now (suc k) 0))) }
{
    let mut ascend = true;
    for k in 1..starts.len() {
        ascend &= comes_before(starts[k - 1], ends[k - 1], starts[k], ends[k]);
    }
    !ascend
}

// The first rule that a load breaks, if it breaks one.
#[tactic(auto, unfolding(promises::specs::Rules::verdict))]
pub fn load_rule(memory: usize, room: usize, lists: &Lists) -> Result<(), Refusal>
    ensures { first_broken result ≡ verdict (load_rules memory room (given_by lists.now)) }
{
    let states = lists.masks.len();
    let nodes = lists.samples.len();
    if too_short(memory, room) {
        return Err(Refusal::MemoryShort);
    }
    if states_wrong(
        states,
        lists.values.len(),
        lists.links.len(),
        lists.inverted,
    ) {
        return Err(Refusal::StatesWrong);
    }
    if links_wrong(lists.links, states) {
        return Err(Refusal::LinkWrong);
    }
    if session::MAX_NODES < nodes {
        return Err(Refusal::NodesWrong);
    }
    if edges_wrong(lists.starts.len(), lists.ends.len()) {
        return Err(Refusal::EdgesWrong);
    }
    if nodes_wrong(lists.starts, lists.ends, nodes as u32) {
        return Err(Refusal::EdgeNodeWrong);
    }
    if order_wrong(lists.starts, lists.ends) {
        return Err(Refusal::EdgesUnordered);
    }
    Ok(())
}
