// Frames before an accepted run: a state or a node is kept, and the run loads what was read.
#![tactic(auto)]

ghost use Rattle.std.specs.Prelude.{◌≡◌, cond, List, ℕ, ◌+◌, ◌^◌, ◌%◌, ◌<◌, ◌≤◌, ℤ, length, get_or};
ghost use Rattle.session.specs.Limits.{max_states, max_nodes};
ghost use Rattle.promises.specs.Answers.{told};
ghost use Rattle.frames.specs.Frames as f;
ghost use Rattle.frames.specs.Machine as m;

use answer_lines::{put_answer, put_broken};
use frames::{Frame, State};
use loading::load;
use promises::{Answer, Lists, Refusal};

// The places of the counts and of the words.
pub const INVERTED_IN: usize = 3;

pub const LINKS_IN: usize = INVERTED_IN + 1;

pub const VALUES_IN: usize = session::MAX_STATES;

pub const SAMPLES_IN: usize = VALUES_IN + session::MAX_STATES;

// What an accepted state or node prints.
pub const NOTHING: usize = 0;

// The inverted states among the first n, and whether the next state is one.
pub fn also_inverted(set: u32, n: u32, inverted: bool) -> u32
    requires { n < max_states }
    ensures { result ≡ set % 2 ^ n + cond inverted (2 ^ n) 0 }
{
    bits::kept_below(set, n) + bits::picked(bits::only(n), inverted)
}

// Keeps a state.
pub fn state_line(counts: &mut [u32], words: &mut [u16], state: State, out: &mut [u8]) -> usize
    requires { (m.counts_size ≤ length counts.old) × (m.words_size ≤ length words.old) × (5 ≤ length out.old) }
    ensures { (s : List ℕ) → (c : List ℤ) → m.Before (f.state state.inverted state.mask state.value state.links) (m.memory counts.old words.old s c out.old) result (m.memory counts.new words.new s c out.new) }
{
    let n = counts[1] as usize;
    if session::MAX_STATES <= n {
        return put_broken(out, 0, Refusal::StatesWrong);
    }
    counts[LINKS_IN + n] = state.links;
    counts[INVERTED_IN] = also_inverted(counts[INVERTED_IN], n as u32, state.inverted);
    counts[1] = (n + 1) as u32;
    words[n] = state.mask;
    words[VALUES_IN + n] = state.value;
    NOTHING
}

// Keeps a node.
pub fn node_line(counts: &mut [u32], words: &mut [u16], sample: u16, out: &mut [u8]) -> usize
    requires { (m.counts_size ≤ length counts.old) × (m.words_size ≤ length words.old) × (5 ≤ length out.old) }
    ensures { (s : List ℕ) → (c : List ℤ) → m.Before (f.node sample) (m.memory counts.old words.old s c out.old) result (m.memory counts.new words.new s c out.new) }
{
    let n = counts[2] as usize;
    if session::MAX_NODES <= n {
        return put_broken(out, 0, Refusal::NodesWrong);
    }
    counts[2] = (n + 1) as u32;
    words[SAMPLES_IN + n] = sample;
    NOTHING
}

// The moment after a run.
pub fn move_on(counts: &mut [u32], answer: Answer)
    requires { 0 < length counts.old }
    ensures { counts.new ≡ m.moved (told answer) counts.old }
{
    if answer.is_ok() {
        counts[0] = 1;
    }
}

// Loads what was read so far.
pub fn run_line(
    counts: &mut [u32],
    words: &[u16],
    session: &mut [u32],
    changes: &mut [i32],
    out: &mut [u8],
) -> usize
    requires { (m.counts_size ≤ length counts.old) × (m.words_size ≤ length words.now) × (m.output_size ≤ length out.old) × (get_or counts.old 1 0 ≤ max_states) × (get_or counts.old 2 0 ≤ max_nodes) }
    ensures { m.Ran (m.memory counts.old words.now session.old changes.old out.old) result (m.memory counts.new words.now session.new changes.new out.new) }
{
    let states = counts[1] as usize;
    let nodes = counts[2] as usize;
    let inverted = bits::kept_below(counts[INVERTED_IN], states as u32);
    let lists = Lists::of(
        &words[..states],
        &words[VALUES_IN..VALUES_IN + states],
        &counts[LINKS_IN..LINKS_IN + states],
        inverted,
        &words[SAMPLES_IN..SAMPLES_IN + nodes],
        &[],
        &[],
    );
    let answer = load(session, &lists, changes);
    move_on(counts, answer);
    put_answer(out, answer, changes)
}

// A frame before an accepted run.
pub fn before_run(
    counts: &mut [u32],
    words: &mut [u16],
    session: &mut [u32],
    changes: &mut [i32],
    frame: Option<Frame>,
    out: &mut [u8],
) -> usize
    requires { (m.counts_size ≤ length counts.old) × (m.words_size ≤ length words.old) × (m.output_size ≤ length out.old) × (get_or counts.old 1 0 ≤ max_states) × (get_or counts.old 2 0 ≤ max_nodes) }
    ensures { m.Before (f.said frame) (m.memory counts.old words.old session.old changes.old out.old) result (m.memory counts.new words.new session.new changes.new out.new) }
{
    match frame {
        Some(Frame::State(state)) => state_line(counts, words, state, out),
        Some(Frame::Node(sample)) => node_line(counts, words, sample, out),
        Some(Frame::Run) => run_line(counts, words, session, changes, out),
        Some(_) => put_broken(out, 0, Refusal::NotNow),
        None => put_broken(out, 0, Refusal::NoFrame),
    }
}
