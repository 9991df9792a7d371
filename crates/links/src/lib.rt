// Sets of states by their links: those that a set is linked to, those with a link to a set, and those that are reached.
#![tactic(auto)]

ghost use Rattle.std.specs.Prelude.{◌≡◌, ℕ, ◌≤◌, ◌<◌, length, get_or, ◌&&◌, ◌||◌, eqb, IfSome};
ghost use Rattle.simulation.specs.Sets.{minus};
ghost use Rattle.bits.specs.Word.{members, set_bits};
ghost use Rattle.session.specs.Reached.{reached, linked_by};
ghost use Rattle.links.specs.Links.{linked_from, links_to, Callers};

// The states to which a state of the word has a link. The loops over a set take its lowest member out each time; they count no index.
#[tactic(auto, using(simulation::proofs::Loops::without_falls))]
pub fn linked(links: &[u32], word: u32) -> u32
    requires { length links.now ≤ set_bits }
    ensures { members result ≡ linked_from links.now word }
{
    let mut all = 0;
    let mut rest = word & bits::below(links.len() as u32);
    while rest != 0 {
        let u = bits::lowest(rest);
        all = all | links[u as usize];
        rest = bits::without_lowest(rest);
    }
    all
}

// The states with a link to a state of the word.
pub fn linking(links: &[u32], word: u32) -> u32
    requires { length links.now ≤ set_bits }
    ensures { members result ≡ links_to links.now word }
{
    let mut all = 0;
    for (u, targets) in links.iter().enumerate() {
        if bits::meet(*targets, word) {
            all = bits::added(all, u as u32);
        }
    }
    all
}

// The states of the word without a link to one of the others. Only its members are gone through.
#[tactic(auto, using(simulation::proofs::Loops::without_falls, crate::proofs::LinkSets::thinned_start, crate::proofs::LinkSets::thinned_out, crate::proofs::LinkSets::thinned_pass, crate::proofs::LinkSets::thinned_done))]
pub fn unlinked(links: &[u32], word: u32, others: u32) -> u32
    requires { length links.now ≤ set_bits }
    ensures { members result ≡ minus (members word) (links_to links.now others) }
{
    let mut left = word;
    let mut rest = word & bits::below(links.len() as u32);
    while rest != 0 {
        let u = bits::lowest(rest);
        if bits::meet(links[u as usize], others) {
            left = bits::removed(left, u);
        }
        rest = bits::without_lowest(rest);
    }
    left
}

// The states that a chain of links reaches from State One. Each is gone through once; `left` has those that no chain has met, `rest` those whose links
// are still to be followed.
#[tactic(auto, using(crate::proofs::Reaching::reaching_less))]
pub fn reached(links: &[u32]) -> u32
    requires { (0 < length links.now) × (length links.now ≤ set_bits) }
    ensures { members result ≡ reached (linked_by links.now) }
{
    let all = bits::below(links.len() as u32);
    let mut left = bits::difference(all, 1);
    let mut rest = 1;
    while rest != 0 {
        let u = bits::lowest(rest);
        let met = links[u as usize] & left;
        left = bits::difference(left, met);
        rest = bits::without_lowest(rest) | met;
    }
    bits::difference(all, left)
}

// A word for each number that a link may name.
pub const CALLERS: usize = bits::SET_BITS;

// Puts a state into the words of its targets.
#[tactic(auto, using(simulation::proofs::Loops::without_falls, crate::proofs::CallerTables::calling_start, crate::proofs::CallerTables::calling_end))]
pub fn call_for(callers: &mut [u32], targets: u32, u: u32)
    requires { (length callers.old ≡ set_bits) × (u < set_bits) }
    ensures { (x o : ℕ) → members (get_or callers.new o 0) x ≡ (members (get_or callers.old o 0) x || (eqb x u && members targets o)) }
{
    let mut rest = targets;
    while rest != 0 {
        let o = bits::lowest(rest);
        callers[o as usize] = bits::added(callers[o as usize], u);
        rest = bits::without_lowest(rest);
    }
}

// Fills a table that is zero with the callers of each state.
#[tactic(auto, using(crate::proofs::CallerTables::called_more))]
pub fn index_callers(links: &[u32], callers: &mut [u32])
    requires { (length links.now ≤ set_bits) × (length callers.old ≡ set_bits) × ((o : ℕ) → get_or callers.old o 0 ≡ 0) }
    ensures { Callers links.now callers.new }
{
    for (u, targets) in links.iter().enumerate() {
        call_for(callers, *targets, u as u32);
    }
}

// The states with a link to a state of the word: of one state by the table; of several, or where there is no table, by one pass over all links.
pub fn calling(links: &[u32], callers: Option<&[u32]>, word: u32) -> u32
    requires { (length links.now ≤ set_bits) × IfSome callers (λ table. Callers links.now table.now) }
    ensures { members result ≡ links_to links.now word }
{
    match callers {
        Some(table) if !bits::several(word) => linked(table, word),
        _ => linking(links, word),
    }
}
