// The calls that insert and delete an edge: the rules, the edit proper, and its report.
#![tactic(auto)]

ghost use Rattle.std.specs.Prelude.{◌≡◌, true, length};
ghost use Rattle.session.specs.Limits.{max_nodes};
ghost use Rattle.session.specs.Layout.{trigger_of, graph_of, marks_of, in_layout};
ghost use Rattle.promises.specs.Rules.{graph_rules, verdict};
ghost use Rattle.promises.specs.Promises.{Done, Edited, Inserted, Deleted};
ghost use Rattle.editing.specs.Steps.{kind_of, Saved, calm, tried};

use deletion::delete_edit;
use edit_rules::edit_rule;
use insertion::insert_edit;
use promises::Answer;
use reports::{answered, report};
use session_parts::Held;

// Inserts or deletes an edge that breaks no rule, and corrects the marks. Before they change, they are saved.
pub fn edit_proper(
    session: &mut [u32],
    inserts: bool,
    start: u32,
    end: u32,
    before: &mut [u32],
) -> Option<u32>
    requires { (in_layout session.old ≡ true) × (verdict (graph_rules (kind_of inserts) (graph_of session.old) start end) ≡ 0) × (length before.old ≡ max_nodes) }
    ensures { Done (kind_of inserts) (trigger_of session.old) (graph_of session.old) (marks_of session.old) (marks_of session.new) start end (tried result) session.old session.new × Saved session.old session.new before.new (calm result) }
{
    if inserts {
        insert_edit(session, start, end, before)
    } else {
        delete_edit(session, start, end, before)
    }
}

// Inserts or deletes the edge from start to end. Where no mark changed, there is nothing to list.
// The two edits are one sequence: a flag tells which edge rules and which edit proper, and a closure for each would be no plainer.
// Start and end are two numbers here and in the steps, as a caller in C hands them over and the rules test them.
pub fn edit(session: &mut [u32], inserts: bool, start: u32, end: u32, changes: &mut [i32]) -> Answer
    ensures { Edited (kind_of inserts) session.old start end changes.old result session.new changes.new }
{
    edit_rule(session, changes.len(), inserts, start, end)?;
    let mut before = [0u32; session::MAX_NODES];
    match edit_proper(session, inserts, start, end, &mut before) {
        Some(trials) => report(&Held::of(session), &before, trials, changes),
        None => answered(&Held::of(session), 0, 0),
    }
}

// Inserts the edge from start to end.
pub fn insert(session: &mut [u32], start: u32, end: u32, changes: &mut [i32]) -> Answer
    ensures { Inserted session.old start end changes.old result session.new changes.new }
{
    edit(session, true, start, end, changes)
}

// Deletes the edge from start to end.
pub fn delete(session: &mut [u32], start: u32, end: u32, changes: &mut [i32]) -> Answer
    ensures { Deleted session.old start end changes.old result session.new changes.new }
{
    edit(session, false, start, end, changes)
}
