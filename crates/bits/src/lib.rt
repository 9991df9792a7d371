// Sets of small numbers, each held in a word: bit i is 1 where i is a member.
#![tactic(auto)]

ghost use Rattle.std.specs.Prelude.{◌≡◌, true, false, not, cond, ℕ, ◌-◌, ◌^◌, ◌%◌, ◌<◌, ◌≤◌, ltb, eqb, length, get_or};
ghost use Rattle.std.specs.Bool.{beq};
ghost use Rattle.std.specs.Int.Bits.{bit_and};
ghost use Rattle.simulation.specs.Sets.{also, without, union, minus, any_below, count};
ghost use Rattle.bits.specs.Word.{members, within, overlaps, set_bits};

// The width of a word that holds a set, and of its halves.
pub const HALF_BITS: usize = 16;

pub const SET_BITS: usize = HALF_BITS + HALF_BITS;

// Whether i is a member.
pub fn has(word: u32, i: u32) -> bool
    requires { i < set_bits }
    ensures { result ≡ members word i }
{
    (word >> i) % 2 == 1
}

// The word whose one member is i.
pub fn only(i: u32) -> u32
    requires { i < set_bits }
    ensures { result ≡ 2 ^ i }
{
    1 << i
}

// The set with i as a member.
pub fn added(word: u32, i: u32) -> u32
    requires { i < set_bits }
    ensures { members result ≡ also (members word) i }
{
    word | only(i)
}

// The set without i.
pub fn removed(word: u32, i: u32) -> u32
    requires { i < set_bits }
    ensures { members result ≡ without (members word) i }
{
    word & !only(i)
}

// The members of a and those of b.
pub fn united(a: u32, b: u32) -> u32
    ensures { members result ≡ union (members a) (members b) }
{
    a | b
}

// The members of a that are not in b.
pub fn difference(a: u32, b: u32) -> u32
    ensures { members result ≡ minus (members a) (members b) }
{
    a & !b
}

// The members of one of the two and not of the other.
pub fn differing(a: u32, b: u32) -> u32
    ensures { members result ≡ (λ i. not (beq (members a i) (members b i))) }
{
    a ^ b
}

// Whether each member of a is one of b.
#[tactic(auto, using(crate::proofs::Tests::subset_within))]
pub fn subset(a: u32, b: u32) -> bool
    ensures { result ≡ within set_bits a b }
{
    a & b == a
}

// Whether a and b have a member in common.
pub fn meet(a: u32, b: u32) -> bool
    ensures { result ≡ overlaps a b }
{
    a & b != 0
}

// Whether there is no member.
#[tactic(auto, using(crate::proofs::Tests::empty_any))]
pub fn empty(word: u32) -> bool
    ensures { result ≡ not (any_below set_bits (members word)) }
{
    word == 0
}

// The lowest member of a set that has one.
#[tactic(auto, using(crate::proofs::Counts::trailing_lowest))]
pub fn lowest(word: u32) -> u32
    requires { word ≡ 0 → ⊥ }
    ensures { (result < set_bits) × (members word result ≡ true) × ((i : ℕ) → i < result → members word i ≡ false) }
{
    u32::trailing_zeros(word)
}

// The set without its lowest member: its next word is known before the member is.
pub fn without_lowest(word: u32) -> u32
    requires { word ≡ 0 → ⊥ }
    ensures { (u : ℕ) → members word u ≡ true → ((i : ℕ) → i < u → members word i ≡ false) → members result ≡ without (members word) u }
{
    word & (word - 1)
}

// Whether there is more than one member: the word without its lowest has one. It only decides which of two ways is quicker.
pub fn several(word: u32) -> bool
    ensures { result ≡ not (eqb (bit_and (word - 1) word) 0) }
{
    word != 0 && (word - 1) & word != 0
}

// How many members there are.
#[tactic(auto, using(crate::proofs::Counts::ones_count))]
pub fn size(word: u32) -> u32
    ensures { result ≡ count set_bits (members word) }
{
    u32::count_ones(word)
}

// The numbers below n.
pub fn below(n: u32) -> u32
    requires { n ≤ set_bits }
    ensures { (result ≡ 2 ^ n - 1) × (members result ≡ (λ i. ltb i n)) }
{
    ((1u64 << n) - 1) as u32
}

// Whether each member is below n.
pub fn inside(word: u32, n: u32) -> bool
    requires { n ≤ set_bits }
    ensures { result ≡ ltb word (2 ^ n) }
{
    subset(word, below(n))
}

// The members below n.
pub fn kept_below(word: u32, n: u32) -> u32
    requires { n ≤ set_bits }
    ensures { result ≡ word % 2 ^ n }
{
    word & below(n)
}

// The members of all the words.
pub fn gathered(words: &[u32]) -> u32
    ensures { members result ≡ (λ i. any_below (length words.now) (λ k. members (get_or words.now k 0) i)) }
{
    let mut all = 0;
    for word in words {
        all |= *word;
    }
    all
}

// A set's word or half of one: what a loop over either picks.
pub trait Word: Copy {
    ghost NONE: { Self };

    // No bit.
    const NONE: Self;
}

impl Word for u32 {
    ghost NONE = { 0 };

    const NONE: u32 = 0;
}

impl Word for u16 {
    ghost NONE = { 0 };

    const NONE: u16 = 0;
}

// The word where the test holds, and no bit where it does not: a fold over it has no branch.
pub fn picked<W: Word>(word: W, test: bool) -> W
    ensures { result ≡ cond test word W.NONE }
{
    if test { word } else { W::NONE }
}

// Every bit.
pub const ALL: u32 = 4294967295;

// Every bit of half a word.
pub const ALL_HALF: u16 = 65535;

// The lower half.
pub const LOWER: u32 = ALL_HALF as u32;
