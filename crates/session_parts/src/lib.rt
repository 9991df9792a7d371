// The parts of a session that is in layout, what it admits, and its marks stored.
#![tactic(auto, using(session::proofs::Decoded::layout_limits), unfolding(session::specs::Layout::trigger_of, session::specs::Layout::graph_of))]

ghost use Rattle.std.specs.Prelude.{List, ℕ, ◌+◌, ◌<◌, ◌≤◌, ◌≡◌, true, take, drop, length, get_or, ◌++◌};
ghost use Rattle.session.specs.Limits.{marks_at, max_nodes, fixed_size};
ghost use Rattle.session.specs.Layout.{part, trigger_of, graph_of, in_layout, image};
ghost use Rattle.pair_tables.specs.Tables.{marked};
ghost use Rattle.session.specs.Trigger.{edge, nodes};
ghost use Rattle.bits.specs.Word.{members};
ghost use Rattle.session_parts.specs.Inside.{Inside};
ghost use Rattle.session_parts.specs.Admission.{turned_in, admitted_at, AdmittedPairs};

use edges::has_edge;
use pair_tables::{Patterns, turned_states};
use std::marker::Model;

// The part of a memory that begins at a place and has so many words.
pub fn part_of(session: &[u32], at: usize, used: usize) -> &[u32]
    requires { at + used ≤ length session.now }
    ensures { result.now ≡ part session.now at used }
{
    let end = at + used;
    &session[at..end]
}

// A session that is in layout, to be read. Contracts see its words.
#[derive(Drop)]
pub struct Held<'a> {
    words: &'a [u32],
}

impl<'a> Model for Held<'a> {
    ghost Value = { List ℕ };

    ghost view = { λ h. h.words.now };

    ghost invariant = { λ h. in_layout h.words.now ≡ true };
}

impl<'a> Held<'a> {
    pub fn of(session: &'a [u32]) -> Held<'a>
        requires { in_layout session.now ≡ true }
        ensures { result ≡ session.now }
    {
        Held { words: session }
    }

    pub fn states(&self) -> u32
        ensures is { result ≡ get_or self.now 0 0 }
        ensures held { in_layout self.now ≡ true }
    {
        self.words[0]
    }

    pub fn nodes(&self) -> usize
        ensures is { result ≡ get_or self.now 1 0 }
        ensures held { in_layout self.now ≡ true }
    {
        self.words[1] as usize
    }

    pub fn masks(&self) -> &'a [u32]
        ensures is { result.now ≡ (trigger_of self.now).masks }
        ensures held { in_layout self.now ≡ true }
    {
        part_of(self.words, session::MASKS_AT, self.states() as usize)
    }

    pub fn values(&self) -> &'a [u32]
        ensures is { result.now ≡ (trigger_of self.now).values }
        ensures held { in_layout self.now ≡ true }
    {
        part_of(self.words, session::VALUES_AT, self.states() as usize)
    }

    // The masks and values of its states.
    fn patterns(&self) -> Patterns<'a>
        ensures masks { result.masks.now ≡ (trigger_of self.now).masks }
        ensures values { result.values.now ≡ (trigger_of self.now).values }
        ensures held { in_layout self.now ≡ true }
    {
        Patterns {
            masks: self.masks(),
            values: self.values(),
        }
    }

    pub fn links(&self) -> &'a [u32]
        ensures is { result.now ≡ (trigger_of self.now).links }
        ensures held { in_layout self.now ≡ true }
    {
        part_of(self.words, session::LINKS_AT, self.states() as usize)
    }

    // The set of inverted states.
    pub fn inverted(&self) -> u32
        ensures is { result ≡ (trigger_of self.now).inverted }
        ensures held { in_layout self.now ≡ true }
    {
        self.words[session::INVERTED_AT]
    }

    pub fn samples(&self) -> &'a [u32]
        ensures is { result.now ≡ (graph_of self.now).samples }
        ensures held { in_layout self.now ≡ true }
    {
        part_of(self.words, session::SAMPLES_AT, self.nodes())
    }

    pub fn edges(&self) -> &'a [u32]
        ensures is { result.now ≡ (graph_of self.now).edges }
        ensures held { in_layout self.now ≡ true }
    {
        part_of(self.words, session::EDGES_AT, self.words[2] as usize)
    }

    // Whether there is an edge from start to end.
    pub fn edge(&self, start: u32, end: u32) -> bool
        requires { (start < nodes (graph_of self.now)) × (end < nodes (graph_of self.now)) }
        ensures { result ≡ edge (graph_of self.now) start end }
    {
        has_edge(self.edges(), start * session::EDGE_BASE + end)
    }

    // The mark words, a word for each node.
    pub fn marks(&self) -> &'a [u32]
        ensures is { result.now ≡ take max_nodes (drop marks_at self.now) }
        ensures held { in_layout self.now ≡ true }
    {
        &self.words[session::MARKS_AT..session::FIXED_SIZE]
    }

    // The states whose answer is turned round. They are asked for once, and handed to those who ask what is admitted, of one node or of all.
    pub fn turned(&self) -> u32
        ensures { members result ≡ turned_in self.now }
    {
        turned_states(self.masks(), self.inverted())
    }

    // Fills a table that is zero with the admitted pairs; how many they are.
    pub fn admitted_pairs(&self, turned: u32, table: &mut [u32]) -> u32
        requires { (members turned ≡ turned_in self.now) × (length table.old ≡ max_nodes) × ((v : ℕ) → get_or table.old v 0 ≡ 0) }
        ensures { AdmittedPairs self.now result table.new }
    {
        self.patterns().admitted(turned, self.samples(), table)
    }

    // The states that admit a node.
    pub fn admitting(&self, turned: u32, node: u32) -> u32
        requires { (members turned ≡ turned_in self.now) × (node < nodes (graph_of self.now)) }
        ensures { members result ≡ admitted_at self.now node }
    {
        let samples = self.samples();
        self.patterns().admitted_at(turned, samples[node as usize])
    }
}

// Writes a table to the session as its marks. What writes a session takes the words: a type over a `&mut` would have to be taken apart again at the end of each
// call, to say what the memory then is.
pub fn store_marks(session: &mut [u32], table: &[u32])
    requires { (in_layout session.old ≡ true) × (length table.now ≡ max_nodes) × Inside session.old table.now }
    ensures { session.new ≡ image (trigger_of session.old) (graph_of session.old) (marked table.now) ++ drop fixed_size session.old }
{
    session[session::MARKS_AT..session::FIXED_SIZE].copy_from_slice(table);
}
