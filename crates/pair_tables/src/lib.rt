// Tables of pairs, a word of states for each node: those that are admitted, tables put together and taken away, pairs counted.
#![tactic(auto)]

ghost use Rattle.std.specs.Prelude.{◌≡◌, true, not, ◌&&◌, ◌||◌, ℕ, ◌^◌, ◌<◌, ◌≤◌, ◌*◌, ◌/◌, ◌%◌, length, get_or, take, drop, ltb};
ghost use Rattle.session.specs.Limits.{max_nodes, max_states, word_bits};
ghost use Rattle.session.specs.Layout.{below};
ghost use Rattle.pair_tables.specs.Tables.{Admits, Admitted};
ghost use Rattle.simulation.specs.Sets.{count};
ghost use Rattle.bits.specs.Word.{members, set_bits};
ghost use Rattle.session.specs.Trigger.{matches};
ghost use Rattle.pair_tables.specs.Tables.{marked, turned_states};

// The masks and values of states, one of each for a state. They stand in lists of their own, as the layout, which C reads, has them.
#[derive(Clone, Copy)]
pub struct Patterns<'a> {
    pub masks: &'a [u32],
    pub values: &'a [u32],
    ghost paired: { length values.now ≡ length masks.now },
    ghost few: { length masks.now ≤ max_states },
    ghost masks_fit: { below (2 ^ word_bits) masks.now ≡ true },
}

// Puts a state into the words of the nodes where a mask and a value agree with the sample, or, turned round, where they do not; how many they are. Each word is
// stored, so there is no branch. Whether it is turned is no value but a part of the loop: a plain state's spends nothing on it, and a turned one's no more
// than the count.
pub fn put_turned<const TURNED: bool>(
    samples: &[u32],
    mask: u32,
    value: u32,
    u: u32,
    table: &mut [u32],
) -> u32
    requires { (mask < 2 ^ word_bits) × (u < set_bits) × (length samples.now ≤ length table.old) × (length samples.now ≤ max_nodes) }
    ensures { Admits samples.now TURNED mask value u table.old result table.new }
{
    let bit = bits::only(u);
    let mut count = 0;
    for (v, sample) in samples.iter().enumerate() {
        let agrees = (value ^ *sample) & mask == 0;
        let hit = agrees != TURNED;
        table[v] |= bits::picked(bit, hit);
        count += bits::picked(1, hit);
    }
    count
}

// Puts a state, turned round or not, into the words of the nodes that it admits; how many they are.
pub fn admit(samples: &[u32], turned: bool, mask: u32, value: u32, u: u32, table: &mut [u32]) -> u32
    requires { (mask < 2 ^ word_bits) × (u < set_bits) × (length samples.now ≤ length table.old) × (length samples.now ≤ max_nodes) }
    ensures { Admits samples.now turned mask value u table.old result table.new }
{
    if turned {
        put_turned::<true>(samples, mask, value, u, table)
    } else {
        put_turned::<false>(samples, mask, value, u, table)
    }
}

// The states whose answer is turned round: the inverted ones, but for a mask of zero, which admits every node. It is told once for a state; no loop over nodes
// asks again.
pub fn turned_states(masks: &[u32], inverted: u32) -> u32
    requires { length masks.now ≤ set_bits }
    ensures { members result ≡ turned_states masks.now inverted }
{
    if inverted == 0 {
        return 0;
    }
    let mut wanting = 0;
    for (u, mask) in masks.iter().enumerate() {
        let heeded = *mask != 0;
        if heeded {
            wanting = bits::added(wanting, u as u32);
        }
    }
    inverted & wanting
}

impl<'a> Patterns<'a> {
    // The states before the k-th, and the others.
    pub fn split_at(&self, k: usize) -> (Patterns<'a>, Patterns<'a>)
        requires { k ≤ length self.now.masks.now }
        ensures front { (result.0.masks.now ≡ take k self.now.masks.now) × (result.0.values.now ≡ take k self.now.values.now) }
        ensures back { (result.1.masks.now ≡ drop k self.now.masks.now) × (result.1.values.now ≡ drop k self.now.values.now) }
    {
        let (masks, later_masks) = self.masks.split_at(k);
        let (values, later_values) = self.values.split_at(k);
        let front = Patterns { masks, values };
        let back = Patterns {
            masks: later_masks,
            values: later_values,
        };
        (front, back)
    }

    // Fills a table that is zero with the admitted pairs, these states being turned round; how many they are.
    pub fn admitted(&self, turned: u32, samples: &[u32], table: &mut [u32]) -> u32
        requires { (length samples.now ≤ max_nodes) × (length table.old ≡ max_nodes) × ((v : ℕ) → get_or table.old v 0 ≡ 0) }
        ensures { Admitted self.now.masks.now self.now.values.now turned samples.now result table.new }
    {
        let mut count = 0;
        for (u, mask) in self.masks.iter().enumerate() {
            count += admit(
                samples,
                bits::has(turned, u as u32),
                *mask,
                self.values[u],
                u as u32,
                table,
            );
        }
        count
    }

    // The states that admit a sample: those that agree with it, turned round where they are to be.
    pub fn admitted_at(&self, turned: u32, sample: u32) -> u32
        requires { (u : ℕ) → members turned u ≡ true → u < length self.now.masks.now }
        ensures { members result ≡ (λ u. ltb u (length self.now.masks.now) && matches word_bits (members turned u) (get_or self.now.masks.now u 0) (get_or self.now.values.now u 0) sample) }
    {
        let mut all = 0;
        for (u, mask) in self.masks.iter().enumerate() {
            let agrees = (self.values[u] ^ sample) & *mask == 0;
            if agrees {
                all = bits::added(all, u as u32);
            }
        }
        bits::differing(all, turned)
    }
}

// Changes each word of a table by the other's word of the same node.
fn change_words<F: Fn(u32, u32) -> u32>(table: &mut [u32], other: &[u32], change: F)
    requires other_len { length other.now ≡ length table.old }
    requires callable { F.IsAlwaysCallable change }
    ensures { (v : ℕ) → v < length table.old → F.post change (get_or table.old v 0) (get_or other.now v 0) (get_or table.new v 0) }
{
    for (v, word) in table.iter_mut().enumerate() {
        *word = change(*word, other[v]);
    }
}

// Takes the pairs of another table out.
pub fn take_away(table: &mut [u32], other: &[u32])
    requires { length other.now ≡ length table.old }
    ensures { (length table.new ≡ length table.old) × ((u v : ℕ) → marked table.new u v ≡ (marked table.old u v && not (marked other.now u v))) }
{
    change_words(table, other, bits::difference);
}

// Puts the pairs of another table in.
pub fn put_together(table: &mut [u32], other: &[u32])
    requires { length other.now ≡ length table.old }
    ensures { (length table.new ≡ length table.old) × ((u v : ℕ) → marked table.new u v ≡ (marked table.old u v || marked other.now u v)) }
{
    change_words(table, other, bits::united);
}

// How many pairs a table has, of this many states and nodes.
pub fn pairs_in(table: &[u32], states: u32, nodes: usize) -> u32
    requires { (states ≤ max_states) × (nodes ≤ max_nodes) × (nodes ≤ length table.now) × ((u v : ℕ) → marked table.now u v ≡ true → u < states) }
    ensures { result ≡ count (nodes * states) (λ p. marked table.now (p % states) (p / states)) }
{
    let mut count = 0;
    for word in &table[..nodes] {
        count += bits::size(*word);
    }
    count
}
