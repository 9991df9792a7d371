// Frames after an accepted run: an edit, and the depth-first order.
#![tactic(auto)]

ghost use Rattle.std.specs.Prelude.{List, ℕ, ◌≤◌, ℤ, length};
ghost use Rattle.editing.specs.Steps.{kind_of};
ghost use Rattle.frames.specs.Frames as f;
ghost use Rattle.frames.specs.Machine as m;

use answer_lines::{put_answer, put_broken, put_order};
use edit_calls::edit;
use frames::Frame;
use promises::Refusal;
use questions::order;

// Inserts or deletes an edge.
pub fn edit_line(
    session: &mut [u32],
    changes: &mut [i32],
    inserts: bool,
    start: u32,
    end: u32,
    out: &mut [u8],
) -> usize
    requires { m.output_size ≤ length out.old }
    ensures { (counts : List ℕ) → (words : List ℕ) → m.Changed (kind_of inserts) start end (m.memory counts words session.old changes.old out.old) result (m.memory counts words session.new changes.new out.new) }
{
    let answer = edit(session, inserts, start, end, changes);
    put_answer(out, answer, changes)
}

// Writes the depth-first order.
#[tactic(auto, using(frames::proofs::Few::order_few))]
pub fn walk_line(session: &[u32], out: &mut [u8]) -> usize
    requires { m.output_size ≤ length out.old }
    ensures { (counts : List ℕ) → (words : List ℕ) → (c : List ℤ) → m.Walked (m.memory counts words session.now c out.old) result (m.memory counts words session.now c out.new) }
{
    match order(session) {
        Ok(order) => put_order(out, 0, &order.states[..order.count as usize]),
        Err(rule) => put_broken(out, 0, rule),
    }
}

// A frame after an accepted run.
pub fn after_run(
    session: &mut [u32],
    changes: &mut [i32],
    frame: Option<Frame>,
    out: &mut [u8],
) -> usize
    requires { m.output_size ≤ length out.old }
    ensures { (counts : List ℕ) → (words : List ℕ) → m.After (f.said frame) (m.memory counts words session.old changes.old out.old) result (m.memory counts words session.new changes.new out.new) }
{
    match frame {
        Some(Frame::Insert(edge)) => edit_line(session, changes, true, edge.start, edge.end, out),
        Some(Frame::Delete(edge)) => edit_line(session, changes, false, edge.start, edge.end, out),
        Some(Frame::Walk) => walk_line(session, out),
        Some(_) => put_broken(out, 0, Refusal::NotNow),
        None => put_broken(out, 0, Refusal::NoFrame),
    }
}
