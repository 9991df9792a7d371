// What the steps of an edit leave is defined in specs/, with the laws that insertion and deletion share, and the refinement from one node.
#![tactic(auto)]

ghost use Rattle.std.specs.Prelude.{◌≡◌, ◌<◌, length};
ghost use Rattle.session.specs.Limits.{max_nodes};
ghost use Rattle.session.specs.Trigger.{nodes};
ghost use Rattle.session.specs.Layout.{graph_of};
ghost use Rattle.pair_tables.specs.Tables.{marked};
ghost use Rattle.session_parts.specs.Inside.{Inside};
ghost use Rattle.editing.specs.Steps.{RefinedAt};

use refinement::nets::Net;
use refinement::refine_few;
use session_parts::Held;
use worklist::{WAITING_WORDS, put_in};

// Refines a table beside a settled one, from one node.
pub fn refine_at(session: &Held, node: u32, settled: &[u32], table: &mut [u32])
    requires { (node < nodes (graph_of session.now)) × (length settled.now ≡ max_nodes) × (length table.old ≡ max_nodes) × Inside session.now table.old }
    ensures { RefinedAt session.now node (marked settled.now) (marked table.old) table.new }
{
    let net = Net {
        links: session.links(),
        edges: session.edges(),
        nodes: session.nodes(),
        callers: None,
        firsts: None,
        incoming: None,
    };
    let mut waiting = [0u32; WAITING_WORDS];
    put_in(&mut waiting, node as usize);
    refine_few(&net, settled, table, &mut waiting);
}
