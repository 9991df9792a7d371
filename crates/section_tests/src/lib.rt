// Tests of sections: the size of words, zeros where a section is unused, edges that ascend and name nodes, marks at admitted pairs alone.
#![tactic(auto)]

ghost use Rattle.std.specs.Prelude.{◌≡◌, true, ◌&&◌, not, ℕ, ◌+◌, ◌-◌, ◌^◌, ◌≤◌, ◌<◌, eqb, length, get_or};
ghost use Rattle.simulation.specs.Ordered.{ascends};
ghost use Rattle.bits.specs.Word.{within, members, half_bits, set_bits};
ghost use Rattle.session.specs.Layout.{below};
ghost use Rattle.session.specs.Tests.{fits, all_named, sparse};
ghost use Rattle.std.specs.Int.Bits.{bit_and};
ghost use Rattle.simulation.specs.Sets.{all_below, any_below};
ghost use Rattle.session.specs.Limits.{max_nodes, word_bits};
ghost use Rattle.session.specs.Trigger.{matches, accepts};

use bits::HALF_BITS;
use pair_tables::{Patterns, turned_states};
use sections::narrow;

// The samples and the marks of nodes, a word of each for a node, and the union of the marks: which states have one.
#[derive(Drop)]
pub struct Marked<'a, S> {
    pub samples: &'a [S],
    pub marks: &'a [u32],
    pub used: u32,
    ghost paired: { length samples.now ≡ length marks.now },
    ghost few: { length marks.now ≤ max_nodes },
    ghost gathered: { members used ≡ (λ u. any_below (length marks.now) (λ v. members (get_or marks.now v 0) u)) },
}

// Whether each word is below the limit.
pub fn all_below(words: &[u32], limit: u32) -> bool
    ensures { result ≡ below limit words.now }
{
    let mut all = true;
    for word in words {
        all &= *word < limit;
    }
    all
}

// Whether each word is zero: their union tells.
pub fn all_zero(words: &[u32]) -> bool
    ensures { result ≡ below 1 words.now }
{
    bits::gathered(words) == 0
}

// Whether the used words' union has k bits, and that of the others none.
pub fn unions_fit(inside: u32, unused: u32, k: u32) -> bool
    requires { k ≤ set_bits }
    ensures { result ≡ (within set_bits inside (2 ^ k - 1) && eqb unused 0) }
{
    bits::subset(inside, bits::below(k)) && unused == 0
}

// Whether a section has words below 2 to the k in its used places, and zeros in the others.
pub fn section_fits(place: &[u32], used: usize, k: u32) -> bool
    requires { (used ≤ length place.now) × (k ≤ set_bits) }
    ensures { result ≡ fits k used place.now }
{
    let inside = bits::gathered(&place[..used]);
    let unused = bits::gathered(&place[used..]);
    unions_fit(inside, unused, k)
}

// Whether each edge is below the next.
pub fn all_ascend(edges: &[u32]) -> bool
    ensures { result ≡ ascends edges.now }
{
    let mut all = true;
    for k in 1..edges.len() {
        all &= edges[k - 1] < edges[k];
    }
    all
}

// Whether each edge of an ascending list joins two of the nodes: the last start is the greatest, and the ends are folded.
pub fn all_named(edges: &[u32], nodes: u32) -> bool
    requires { ascends edges.now ≡ true }
    ensures { result ≡ all_named nodes edges.now }
{
    let Some(last) = edges.last() else {
        return true;
    };
    if nodes <= *last / session::EDGE_BASE {
        return false;
    }
    let mut all = true;
    for edge in edges {
        all &= *edge % session::EDGE_BASE < nodes;
    }
    all
}

// The marks at nodes whose sample does not agree with the mask and the value, or, turned round, does. The value lies inside the mask. Whether it is turned is
// no value but a part of the loop, so that neither loop spends an operation on it. What it has in common with `pair_tables::put_turned` is `bits::picked`:
// the comparison, the width of a word and what is kept differ.
pub fn strays_turned<const TURNED: bool>(
    samples: &[u16],
    marks: &[u16],
    mask: u16,
    value: u16,
) -> u16
    requires samples_len { (length samples.now ≡ length marks.now) × (mask < 2 ^ word_bits) }
    requires mask_value { bit_and value mask ≡ value }
    ensures { members result ≡ (λ u. any_below (length marks.now) (λ v. members (get_or marks.now v 0) u && not (matches word_bits TURNED mask value (get_or samples.now v 0)))) }
{
    let mut all = 0;
    for (v, mark) in marks.iter().enumerate() {
        let agrees = samples[v] & mask == value;
        all |= bits::picked(*mark, agrees == TURNED);
    }
    all
}

// The marks at nodes that a state, turned round or not, does not admit. No closure takes a const parameter, so `pair_tables::admit` chooses in its own words.
pub fn strays(samples: &[u16], marks: &[u16], turned: bool, mask: u16, value: u16) -> u16
    requires samples_len { (length samples.now ≡ length marks.now) × (mask < 2 ^ word_bits) }
    requires mask_value { bit_and value mask ≡ value }
    ensures { members result ≡ (λ u. any_below (length marks.now) (λ v. members (get_or marks.now v 0) u && not (matches word_bits turned mask value (get_or samples.now v 0)))) }
{
    if turned {
        strays_turned::<true>(samples, marks, mask, value)
    } else {
        strays_turned::<false>(samples, marks, mask, value)
    }
}

// Whether each mark is at a node that its state admits, these states being turned round. A state that has no mark is passed over. The marks are
// halves of words, and `used` speaks of them in its lower half alone, so that these are no `Marked`.
pub fn all_sparse(
    patterns: &Patterns,
    turned: u32,
    samples: &[u16],
    marks: &[u16],
    used: u32,
) -> bool
    requires samples_len { (length samples.now ≡ length marks.now) × (length patterns.now.masks.now ≤ half_bits) }
    requires by_index { (u : ℕ) → u < half_bits → members used u ≡ any_below (length marks.now) (λ v. members (get_or marks.now v 0) u) }
    ensures { result ≡ all_below (length patterns.now.masks.now) (λ u. sparse samples.now marks.now (matches word_bits (members turned u) (get_or patterns.now.masks.now u 0) (get_or patterns.now.values.now u 0)) u) }
{
    let mut all = true;
    for (u, mask) in patterns.masks.iter().enumerate() {
        if bits::has(used, u as u32) {
            let wanted = patterns.values[u] & *mask;
            let over = bits::has(turned, u as u32);
            let stray = strays(samples, marks, over, *mask as u16, wanted as u16);
            all &= !bits::has(u32::from(stray), u as u32);
        }
    }
    all
}

// The same of the states from `first` on, half as many as a word has bits at most, whose patterns these are: their marks are half of each word. Halves are
// compared, since a vector holds twice as many.
pub fn half_admitted(patterns: &Patterns, turned: u32, marked: &Marked<u16>, first: u32) -> bool
    requires { (length patterns.now.masks.now ≤ half_bits) × (first < set_bits) }
    ensures { result ≡ all_below (length patterns.now.masks.now) (λ u. sparse marked.now.samples.now marked.now.marks.now (matches word_bits (members turned (first + u)) (get_or patterns.now.masks.now u 0) (get_or patterns.now.values.now u 0)) (first + u)) }
{
    let some = marked.used >> first;
    if some == 0 {
        return true;
    }
    let nodes = marked.marks.len();
    let mut signs = [0u16; session::MAX_NODES];
    narrow(&mut signs[..nodes], marked.marks, first);
    all_sparse(
        patterns,
        turned >> first,
        marked.samples,
        &signs[..nodes],
        some,
    )
}

// The same of all states. Those that a half word has no bit for are tested by a second pass.
pub fn both_admitted(patterns: &Patterns, turned: u32, marked: &Marked<u16>) -> bool
    ensures { result ≡ all_below (length patterns.now.masks.now) (λ u. sparse marked.now.samples.now marked.now.marks.now (matches word_bits (members turned u) (get_or patterns.now.masks.now u 0) (get_or patterns.now.values.now u 0)) u) }
{
    if patterns.masks.len() <= HALF_BITS {
        return half_admitted(patterns, turned, marked, 0);
    }
    let (low, high) = patterns.split_at(HALF_BITS);
    half_admitted(&low, turned, marked, 0) && half_admitted(&high, turned, marked, HALF_BITS as u32)
}

// The same, given which states are inverted.
pub fn all_admitted(patterns: &Patterns, inverted: u32, marked: &Marked<u32>) -> bool
    requires { below (2 ^ word_bits) marked.now.samples.now ≡ true }
    ensures { result ≡ all_below (length patterns.now.masks.now) (λ u. sparse marked.now.samples.now marked.now.marks.now (accepts word_bits (members inverted u) (get_or patterns.now.masks.now u 0) (get_or patterns.now.values.now u 0)) u) }
{
    if marked.used == 0 {
        return true;
    }
    let nodes = marked.marks.len();
    let mut words = [0u16; session::MAX_NODES];
    narrow(&mut words[..nodes], marked.samples, 0);
    let halves = Marked {
        samples: &words[..nodes],
        marks: marked.marks,
        used: marked.used,
    };
    both_admitted(patterns, turned_states(patterns.masks, inverted), &halves)
}
