// The call that loads a trigger and a graph.
#![tactic(auto)]

ghost use Rattle.std.specs.Prelude.{◌≡◌, false, ℕ, length, get_or, drop, ◌++◌};
ghost use Rattle.session.specs.Limits.{max_nodes, fixed_size, max_changes};
ghost use Rattle.session.specs.Layout.{image};
ghost use Rattle.loading.specs.Solved.{Solved};
ghost use Rattle.promises.specs.Rules.{given_by, given_trigger, given_graph, load_rules, verdict};
ghost use Rattle.promises.specs.Promises.{Loaded};

use load_rules::load_rule;
use promises::{Answer, Lists};
use refinement::nets::Net;
use refinement::refine_indexed;
use reports::report;
use session_parts::{Held, store_marks};
use worklist::WAITING_WORDS;

// Puts the greatest simulation of what the session holds into a table that is zero; how many pairs are admitted.
pub fn solve(session: &Held, table: &mut [u32]) -> u32
    requires { (length table.old ≡ max_nodes) × ((v : ℕ) → get_or table.old v 0 ≡ 0) }
    ensures { Solved session.now result table.new }
{
    let trials = session.admitted_pairs(session.turned(), table);
    let mut waiting = [bits::ALL; WAITING_WORDS];
    let settled = [0u32; session::MAX_NODES];
    let net = Net {
        links: session.links(),
        edges: session.edges(),
        nodes: session.nodes(),
        callers: None,
        firsts: None,
        incoming: None,
    };
    refine_indexed(&net, &settled, table, &mut waiting);
    trials
}

// Writes the sections of a load that breaks no rule, with no mark set.
pub fn write_sections(session: &mut [u32], lists: &Lists)
    requires { verdict (load_rules (length session.old) max_changes (given_by lists.now)) ≡ 0 }
    ensures { session.new ≡ image (given_trigger (given_by lists.now)) (given_graph (given_by lists.now)) (λ u v. false) ++ drop fixed_size session.old }
{
    session[0] = lists.masks.len() as u32;
    session[1] = lists.samples.len() as u32;
    session[2] = lists.starts.len() as u32;
    session[session::INVERTED_AT] = lists.inverted;
    sections::fill_halves(
        &mut session[session::MASKS_AT..session::VALUES_AT],
        lists.masks,
    );
    sections::fill_halves(
        &mut session[session::VALUES_AT..session::LINKS_AT],
        lists.values,
    );
    sections::fill_words(
        &mut session[session::LINKS_AT..session::SAMPLES_AT],
        lists.links,
    );
    sections::fill_halves(
        &mut session[session::SAMPLES_AT..session::EDGES_AT],
        lists.samples,
    );
    sections::fill_edges(
        &mut session[session::EDGES_AT..session::MARKS_AT],
        lists.starts,
        lists.ends,
    );
    session[session::MARKS_AT..session::FIXED_SIZE].fill(0);
}

// Loads a trigger and a graph.
pub fn load(session: &mut [u32], lists: &Lists, changes: &mut [i32]) -> Answer
    ensures { Loaded (given_by lists.now) session.old changes.old result session.new changes.new }
{
    load_rule(session.len(), changes.len(), lists)?;
    write_sections(session, lists);
    let before = [0u32; session::MAX_NODES];
    let mut table = [0u32; session::MAX_NODES];
    let trials = solve(&Held::of(session), &mut table);
    store_marks(session, &table);
    report(&Held::of(session), &before, trials, changes)
}
