// Sections of a session filled: words, half words or edges, and zeros after them.
#![tactic(auto)]

ghost use Rattle.std.specs.Prelude.{◌≡◌, true, ℕ, ◌≤◌, ◌<◌, length, get_or};
ghost use Rattle.session.specs.Limits.{max_nodes};
ghost use Rattle.session.specs.Layout.{numbered, section, below};
ghost use Rattle.session.specs.Tests.{halves};
ghost use Rattle.bits.specs.Word.{set_bits};

// A section is filled with words that fit in it, and zeros after them.
pub fn fill_words(place: &mut [u32], source: &[u32])
    requires { length source.now ≤ length place.old }
    ensures { place.new ≡ section (length place.old) source.now }
{
    let used = source.len();
    place[..used].copy_from_slice(source);
    place[used..].fill(0);
}

// The same of so many numbers, each told by its place: two loops without a test.
fn fill_by<F: Fn(usize) -> u32>(place: &mut [u32], used: usize, number: F)
    requires used_in_bounds { used ≤ length place.old }
    requires callable { (i : ℕ) → i < used → F.pre number i }
    ensures front { (i : ℕ) → i < used → F.post number i (get_or place.new i 0) }
    ensures rest { (i : ℕ) → used ≤ i → get_or place.new i 0 ≡ 0 }
{
    for i in 0..used {
        place[i] = number(i);
    }
    place[used..].fill(0);
}

// The same of words of half the width.
pub fn fill_halves(place: &mut [u32], source: &[u16])
    requires { length source.now ≤ length place.old }
    ensures { place.new ≡ section (length place.old) source.now }
{
    fill_by(place, source.len(), |i| u32::from(source[i]));
}

// The same of the numbers of edges.
pub fn fill_edges(place: &mut [u32], starts: &[u32], ends: &[u32])
    requires starts_value { (below max_nodes starts.now ≡ true) × (below max_nodes ends.now ≡ true) }
    requires ends_len { length ends.now ≡ length starts.now }
    requires starts_in_bounds { length starts.now ≤ length place.old }
    ensures { place.new ≡ section (length place.old) (numbered starts.now ends.now) }
{
    fill_by(
        place,
        starts.len(),
        |i| starts[i] * session::EDGE_BASE + ends[i],
    );
}

// Half of each word, from a bit on, goes to places of that width that are as many.
pub fn narrow(place: &mut [u16], source: &[u32], from: u32)
    requires { (length source.now ≡ length place.old) × (from < set_bits) }
    ensures { place.new ≡ halves from source.now }
{
    for (i, word) in source.iter().enumerate() {
        place[i] = ((*word >> from) & bits::LOWER) as u16;
    }
}
