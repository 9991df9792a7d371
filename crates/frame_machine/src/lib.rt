// The machine: it takes one line of input at a time, in memory that the caller lends. The slices come one by one, for of a slice the check
// knows by itself that its length stays, and of the slices in a struct it does not.
#![tactic(auto)]

ghost use Rattle.std.specs.Prelude.{◌≡◌, ◌||◌, ltb};
ghost use Rattle.session.specs.Limits.{max_states, max_nodes, fixed_size, max_changes};
ghost use Rattle.promises.specs.Answers.{first_broken};
ghost use Rattle.promises.specs.Rules.{verdict};
ghost use Rattle.frames.specs.Machine as m;

use frame_reading::read_frame;
use frames_after_run::after_run;
use frames_before_run::{LINKS_IN, SAMPLES_IN, before_run};
use promises::Refusal;

// How long the lent memory is at least.
pub const COUNTS_SIZE: usize = LINKS_IN + session::MAX_STATES;

pub const WORDS_SIZE: usize = SAMPLES_IN + session::MAX_NODES;

// The longest answer: a report, and a line for each change.
pub const OUTPUT_SIZE: usize = 13 + 11 * session::MAX_CHANGES;

// Whether the lent memory is too short.
pub fn too_small(counts: usize, words: usize, session: usize, room: usize, out: usize) -> bool
    ensures { result ≡ ((ltb counts m.counts_size || ltb words m.words_size) || (ltb session fixed_size || (ltb room max_changes || ltb out m.output_size))) }
{
    (counts < COUNTS_SIZE || words < WORDS_SIZE)
        || (session < session::FIXED_SIZE || (room < session::MAX_CHANGES || out < OUTPUT_SIZE))
}

// Whether the counts are out of range.
pub fn miscounted(moment: u32, states: u32, nodes: u32) -> bool
    ensures { result ≡ (ltb 1 moment || (ltb max_states states || ltb max_nodes nodes)) }
{
    1 < moment || ((session::MAX_STATES as u32) < states || (session::MAX_NODES as u32) < nodes)
}

// The first rule that the lent memory breaks.
#[tactic(auto, unfolding(promises::specs::Rules::verdict))]
pub fn memory_rule(
    counts: &[u32],
    words: &[u16],
    session: &[u32],
    changes: &[i32],
    out: &[u8],
) -> Result<(), Refusal>
    ensures { first_broken result ≡ verdict (m.memory_rules (m.memory counts.now words.now session.now changes.now out.now)) }
{
    if too_small(
        counts.len(),
        words.len(),
        session.len(),
        changes.len(),
        out.len(),
    ) {
        return Err(Refusal::MemoryShort);
    }
    if miscounted(counts[0], counts[1], counts[2]) {
        return Err(Refusal::NotInLayout);
    }
    Ok(())
}

// Answers a line in memory that breaks none of its own rules: the lines of its answer are put at the front of the output. The moment is a word of the lent memory,
// 0 before an accepted run and 1 after it.
pub fn answer_line(
    counts: &mut [u32],
    words: &mut [u16],
    session: &mut [u32],
    changes: &mut [i32],
    line: &[u8],
    out: &mut [u8],
) -> usize
    requires { verdict (m.memory_rules (m.memory counts.old words.old session.old changes.old out.old)) ≡ 0 }
    ensures { m.Answers (m.memory counts.old words.old session.old changes.old out.old) line.now result (m.memory counts.new words.new session.new changes.new out.new) }
{
    let frame = read_frame(line);
    if counts[0] == 0 {
        before_run(counts, words, session, changes, frame, out)
    } else {
        after_run(session, changes, frame, out)
    }
}

// Takes a line in any memory. The memory's own rules come first: where they are broken there is no place to answer in.
pub fn take_line(
    counts: &mut [u32],
    words: &mut [u16],
    session: &mut [u32],
    changes: &mut [i32],
    line: &[u8],
    out: &mut [u8],
) -> Result<usize, Refusal>
    ensures { m.Stepped (m.memory counts.old words.old session.old changes.old out.old) line.now result (m.memory counts.new words.new session.new changes.new out.new) }
{
    memory_rule(counts, words, session, changes, out)?;
    Ok(answer_line(counts, words, session, changes, line, out))
}
