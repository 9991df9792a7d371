// The engine for callers in C. A slice is a pointer and a length there, and an answer is one number: include/trigger_engine.h says
// how. No call asks anything of its numbers.
#![tactic(auto)]

ghost use Rattle.std.specs.Prelude.{◌≡◌};
ghost use Rattle.session.specs.Limits.{fixed_size, max_changes};
ghost use Rattle.promises.specs.Rules.{given};
ghost use Rattle.promises.specs.Promises.{Loaded, Inserted, Deleted, Matches, Fires};
ghost use Rattle.answer_numbers.specs.Packed.{Packs, answer_number, standing_number, firing_number, OrderWritten};

use answer_numbers::{answer_number, fill_front, firing_number, order_number, standing_number};
use promises::{Lists, Refusal};

// How many words a session has.
#[unsafe(no_mangle)]
pub extern "C" fn trigger_session_words() -> usize
    ensures { result ≡ fixed_size }
{
    session::FIXED_SIZE
}

// How many places the changes of one call may need.
#[unsafe(no_mangle)]
pub extern "C" fn trigger_change_places() -> usize
    ensures { result ≡ max_changes }
{
    session::MAX_CHANGES
}

// Loads a trigger and a graph: a list for each field, and the set of inverted states.
#[unsafe(no_mangle)]
pub extern "C" fn trigger_load(
    session: &mut [u32],
    masks: &[u16],
    values: &[u16],
    links: &[u32],
    inverted: u32,
    samples: &[u16],
    starts: &[u32],
    ends: &[u32],
    changes: &mut [i32],
) -> u64
    ensures { Packs answer_number (λ a. Loaded (given masks.now values.now links.now inverted samples.now starts.now ends.now) session.old changes.old a session.new changes.new) result }
{
    let lists = Lists::of(masks, values, links, inverted, samples, starts, ends);
    answer_number(matching::load(session, &lists, changes))
}

// Inserts the edge from start to end.
#[unsafe(no_mangle)]
pub extern "C" fn trigger_insert(
    session: &mut [u32],
    start: u32,
    end: u32,
    changes: &mut [i32],
) -> u64
    ensures { Packs answer_number (λ a. Inserted session.old start end changes.old a session.new changes.new) result }
{
    answer_number(matching::insert(session, start, end, changes))
}

// Deletes the edge from start to end.
#[unsafe(no_mangle)]
pub extern "C" fn trigger_delete(
    session: &mut [u32],
    start: u32,
    end: u32,
    changes: &mut [i32],
) -> u64
    ensures { Packs answer_number (λ a. Deleted session.old start end changes.old a session.new changes.new) result }
{
    answer_number(matching::delete(session, start, end, changes))
}

// Whether a state stands at a node, by the mark that is held.
#[unsafe(no_mangle)]
pub extern "C" fn trigger_matches(session: &[u32], state: u32, node: u32) -> u64
    ensures { Packs standing_number (Matches session.now state node) result }
{
    standing_number(matching::matches(session, state, node))
}

// Whether the trigger fires, by the marks that are held.
#[unsafe(no_mangle)]
pub extern "C" fn trigger_fires(session: &[u32]) -> u64
    ensures { Packs firing_number (Fires session.now) result }
{
    firing_number(matching::fires(session))
}

// Writes the states in depth-first order, and zeros after them, into as many places as there may be states.
#[unsafe(no_mangle)]
pub extern "C" fn trigger_order(session: &[u32], states: &mut [u8]) -> u64
    ensures { OrderWritten session.now states.old result states.new }
{
    let short = states.len() < session::MAX_STATES;
    if short {
        return order_number(Err(Refusal::MemoryShort));
    }
    let answer = matching::order(session);
    if let Ok(order) = &answer {
        fill_front(states, &order.states);
    }
    order_number(answer)
}
