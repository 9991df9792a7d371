// What the calls share: rule 3 of a load and an edit, whether the trigger fires, the list handed back, and the report of a call.
#![tactic(auto)]

ghost use Rattle.std.specs.Prelude.{◌≡◌, not, ◌||◌, true, ltb, ◌<◌, ◌≤◌, length, get_or};
ghost use Rattle.session.specs.Limits.{fixed_size, max_changes, max_nodes};
ghost use Rattle.simulation.specs.Sets.{all_below, any_below};
ghost use Rattle.bits.specs.Word.{members, set_bits};
ghost use Rattle.session.specs.Reached.{reached, linked_by};
ghost use Rattle.session.specs.Layout.{trigger_of, graph_of, marks_of};
ghost use Rattle.pair_tables.specs.Tables.{marked};
ghost use Rattle.promises.specs.Standing.{fires};
ghost use Rattle.promises.specs.Answers.{told, changes_told, handed_back};
ghost use Rattle.listing.specs.Changes.{changes};
ghost use Rattle.promises.specs.Promises.{Reported};
ghost use Rattle.reports.specs.Marks.{Tells};

use change_lists::write_changes;
use promises::{Answer, Firing, Report};
use session_parts::Held;

// Rule 3: the memory or the room is too short.
pub fn too_short(memory: usize, room: usize) -> bool
    ensures { result ≡ (ltb memory fixed_size || ltb room max_changes) }
{
    memory < session::FIXED_SIZE || room < session::MAX_CHANGES
}

// Whether each state that these links reach from State One is marked in some word. No link is followed where every state is marked, or State One is not.
pub fn reached_marked(words: &[u32], links: &[u32]) -> bool
    requires { (0 < length links.now) × (length links.now ≤ set_bits) }
    ensures { result ≡ all_below (length links.now) (λ u. not (reached (linked_by links.now) u) || any_below (length words.now) (λ v. members (get_or words.now v 0) u)) }
{
    let marked = bits::gathered(words);
    if bits::subset(bits::below(links.len() as u32), marked) {
        return true;
    }
    if !bits::has(marked, 0) {
        return false;
    }
    bits::subset(links::reached(links), marked)
}

// Whether the trigger fires, by the marks that the session holds.
pub fn fires_now(session: &Held) -> bool
    ensures { result ≡ fires (trigger_of session.now) (graph_of session.now) (marks_of session.now) }
{
    let marks = &session.marks()[..session.nodes()];
    reached_marked(marks, session.links())
}

// How many changes an answer tells of.
pub fn changes_in(answer: Answer) -> u32
    ensures { result ≡ changes_told (told answer) }
{
    answer.map_or(0, |report| report.changes)
}

// The filled front of the room: nothing for a refused answer, or where the room is shorter than the answer's number of changes.
pub fn changed_part(changes: &[i32], answer: Answer) -> &[i32]
    ensures { result.now ≡ handed_back changes.now answer }
{
    let n = changes_in(answer) as usize;
    changes.get(..n).unwrap_or(&[])
}

// The answer with these counts: firing is read from the marks that the session holds.
pub fn answered(session: &Held, trials: u32, changes: u32) -> Answer
    ensures { Tells session.now trials changes result }
{
    Ok(Report {
        firing: Firing::from(fires_now(session)),
        trials,
        changes,
    })
}

// Writes the changes from the marks of the table to those that the session holds, and makes the answer.
pub fn report(session: &Held, before: &[u32], trials: u32, room: &mut [i32]) -> Answer
    requires { (length before.now ≡ max_nodes) × (max_changes ≤ length room.old) }
    ensures { Reported (trigger_of session.now) (graph_of session.now) (marks_of session.now) trials (changes (trigger_of session.now) (graph_of session.now) (marked before.now) (marks_of session.now)) room.old result room.new }
{
    let marks = session.marks();
    let count = write_changes(room, session.states(), session.nodes(), before, marks) as u32;
    answered(session, trials, count)
}
