// Loads at the limits of a trigger, a graph, the memory and the room: what each is answered.
#![tactic(auto)]

ghost use Rattle.std.specs.Prelude.{◌≤◌};
ghost use Rattle.session.specs.Limits.{fixed_size, max_changes};

use matching::{Answer, Lists};
use std::{array, io};

fn show(rt: &impl Print, label: &str, answer: Answer) -> io::Result<()> {
    match answer {
        Ok(report) => {
            let firing = report.firing;
            let trials = report.trials;
            let changes = report.changes;
            println!(rt; "{label}: {firing}, {trials} tried, {changes} changed")
        }
        Err(refusal) => println!(rt; "{label}: refused, {refusal}"),
    }
}

// What a load is given, to be written as what differs from `LEAST`: a literal of `Lists`, which has an invariant, takes no rest.
#[derive(Clone, Copy)]
struct Given<'a> {
    masks: &'a [u16],
    values: &'a [u16],
    links: &'a [u32],
    inverted: u32,
    samples: &'a [u16],
    starts: &'a [u32],
    ends: &'a [u32],
}

// One state, which admits every node, one node and no edges.
const LEAST: Given<'static> = Given {
    masks: &[0],
    values: &[0],
    links: &[0],
    inverted: 0,
    samples: &[0],
    starts: &[],
    ends: &[],
};

// Loads what is given, and shows the answer. So many words of a memory and places of a room are lent: both stand here alone, and in no caller's frame.
fn attempt(
    rt: &impl Print,
    label: &str,
    given: Given,
    words: usize,
    places: usize,
) -> io::Result<()>
    requires { (words ≤ fixed_size) × (places ≤ max_changes) }
{
    let lists = Lists::of(
        given.masks,
        given.values,
        given.links,
        given.inverted,
        given.samples,
        given.starts,
        given.ends,
    );
    let mut session = [7; session::FIXED_SIZE];
    let mut changes = [7; session::MAX_CHANGES];
    show(
        rt,
        label,
        matching::load(&mut session[..words], &lists, &mut changes[..places]),
    )
}

// The same with as much memory and room as there must be.
fn tried(rt: &impl Print, label: &str, given: Given) -> io::Result<()> {
    attempt(rt, label, given, session::FIXED_SIZE, session::MAX_CHANGES)
}

// States without links, over nodes that all of them admit.
fn plain<'a>(
    rt: &impl Print,
    label: &str,
    states: &'a [u16],
    links: &'a [u32],
    samples: &'a [u16],
) -> io::Result<()> {
    tried(
        rt,
        label,
        Given {
            masks: states,
            values: states,
            links,
            samples,
            ..LEAST
        },
    )
}

// States with these links, and this set of them inverted.
fn linked<'a>(
    rt: &impl Print,
    label: &str,
    states: &'a [u16],
    links: &'a [u32],
    inverted: u32,
) -> io::Result<()> {
    tried(
        rt,
        label,
        Given {
            masks: states,
            values: states,
            links,
            inverted,
            ..LEAST
        },
    )
}

// The links of so many states, of which only the first has any.
fn first<const STATES: usize>(links: u32) -> [u32; STATES] {
    array::from_fn(|state| if state == 0 { links } else { 0 })
}

// The starts and the ends of the edges (0, 0), (0, 1), (0, 2), (0, 3), (1, 0) and so on, four from each node. The remainder shows that a start
// fits its type for any number of edges.
fn starts<const EDGES: usize>() -> [u32; EDGES] {
    array::from_fn(|k| (k / 4 % 1024) as u32)
}

fn ends<const EDGES: usize>() -> [u32; EDGES] {
    array::from_fn(|k| (k % 4) as u32)
}

// One state linked to itself, over as many nodes as there may be with these edges.
fn ringed<'a>(rt: &impl Print, label: &str, starts: &'a [u32], ends: &'a [u32]) -> io::Result<()> {
    tried(
        rt,
        label,
        Given {
            links: &[1],
            samples: &[0; session::MAX_NODES],
            starts,
            ends,
            ..LEAST
        },
    )
}

// How many states and nodes.
fn numbers(rt: &impl Print) -> io::Result<()> {
    plain(rt, "no states", &[], &[], &[0])?;
    plain(rt, "1 state, no nodes", &[0], &[0], &[])?;
    plain(rt, "1 state, 1 node", &[0], &[0], &[0])?;
    plain(rt, "16 states", &[0; 16], &[0; 16], &[0])?;
    plain(rt, "17 states", &[0; 17], &[0; 17], &[0])?;
    plain(rt, "32 states", &[0; 32], &[0; 32], &[0])?;
    plain(rt, "33 states", &[0; 33], &[0; 33], &[0])?;
    plain(rt, "512 nodes", &[0], &[0], &[0; 512])?;
    plain(rt, "513 nodes", &[0], &[0], &[0; 513])?;
    plain(rt, "16 states, 512 nodes", &[0; 16], &[0; 16], &[0; 512])?;
    plain(rt, "32 states, 512 nodes", &[0; 32], &[0; 32], &[0; 512])?;
    plain(rt, "33 states, 513 nodes", &[0; 33], &[0; 33], &[0; 513])
}

// Links and inversions of states that are there, and of others.
fn sets(rt: &impl Print) -> io::Result<()> {
    linked(
        rt,
        "3 states, a link to state 3",
        &[0; 3],
        &first::<3>(4),
        0,
    )?;
    linked(
        rt,
        "3 states, a link to state 4",
        &[0; 3],
        &first::<3>(8),
        0,
    )?;
    linked(
        rt,
        "3 states, a link to state 32",
        &[0; 3],
        &first::<3>(1 << 31),
        0,
    )?;
    linked(rt, "3 states, state 3 inverted", &[0; 3], &[0; 3], 4)?;
    linked(rt, "3 states, state 4 inverted", &[0; 3], &[0; 3], 8)?;
    linked(rt, "3 states, state 32 inverted", &[0; 3], &[0; 3], 1 << 31)?;
    linked(
        rt,
        "3 states, state 4 inverted and linked to",
        &[0; 3],
        &first::<3>(8),
        8,
    )
}

// The same of as many states as a half or a word has bits, and one less or more.
fn wide_sets(rt: &impl Print) -> io::Result<()> {
    linked(
        rt,
        "16 states, a link to state 16",
        &[0; 16],
        &first::<16>(1 << 15),
        0,
    )?;
    linked(
        rt,
        "16 states, a link to state 17",
        &[0; 16],
        &first::<16>(1 << 16),
        0,
    )?;
    linked(
        rt,
        "17 states, a link to state 17",
        &[0; 17],
        &first::<17>(1 << 16),
        0,
    )?;
    linked(
        rt,
        "17 states, a link to state 18",
        &[0; 17],
        &first::<17>(1 << 17),
        0,
    )?;
    linked(
        rt,
        "31 states, a link to state 32",
        &[0; 31],
        &first::<31>(1 << 31),
        0,
    )?;
    linked(
        rt,
        "32 states, a link to state 32",
        &[0; 32],
        &first::<32>(1 << 31),
        0,
    )?;
    linked(
        rt,
        "32 states, links to all",
        &[0; 32],
        &first::<32>(u32::MAX),
        0,
    )?;
    linked(
        rt,
        "16 states, state 17 inverted",
        &[0; 16],
        &[0; 16],
        1 << 16,
    )?;
    linked(rt, "32 states, all inverted", &[0; 32], &[0; 32], u32::MAX)?;
    linked(
        rt,
        "33 states, a link to state 32",
        &[0; 33],
        &first::<33>(1 << 31),
        0,
    )
}

// Edges.
fn graphs(rt: &impl Print) -> io::Result<()> {
    ringed(rt, "edges (0, 511) and (511, 0)", &[0, 511], &[511, 0])?;
    ringed(rt, "edges (0, 512) and (511, 0)", &[0, 511], &[512, 0])?;
    ringed(rt, "edges (0, 0) and (512, 0)", &[0, 512], &[0, 0])?;
    ringed(rt, "edges (0, 1) and (0, 1)", &[0, 0], &[1, 1])?;
    ringed(rt, "edges (0, 1) and (0, 0)", &[0, 0], &[1, 0])?;
    ringed(rt, "edges (1, 0) and (0, 511)", &[1, 0], &[0, 511])?;
    ringed(
        rt,
        "edges (0, 4294967295) and (0, 0)",
        &[0, 0],
        &[u32::MAX, 0],
    )?;
    ringed(rt, "2048 edges", &starts::<2048>(), &ends::<2048>())?;
    ringed(rt, "2049 edges", &starts::<2049>(), &ends::<2049>())
}

// What is lent.
fn lengths(rt: &impl Print) -> io::Result<()> {
    tried(rt, "memory and room as long as they must be", LEAST)?;
    attempt(
        rt,
        "memory one word short",
        LEAST,
        session::FIXED_SIZE - 1,
        session::MAX_CHANGES,
    )?;
    attempt(
        rt,
        "room one place short",
        LEAST,
        session::FIXED_SIZE,
        session::MAX_CHANGES - 1,
    )?;
    attempt(rt, "room of 8192 places", LEAST, session::FIXED_SIZE, 8192)
}

// What is given in part.
fn parts(rt: &impl Print) -> io::Result<()> {
    tried(
        rt,
        "a mask without value and links",
        Given {
            masks: &[0, 0],
            ..LEAST
        },
    )?;
    tried(
        rt,
        "a value without mask and links",
        Given {
            values: &[0, 0],
            ..LEAST
        },
    )?;
    tried(
        rt,
        "links without mask and value",
        Given {
            links: &[0, 0],
            ..LEAST
        },
    )?;
    tried(
        rt,
        "a start without an end",
        Given {
            starts: &[0],
            ..LEAST
        },
    )?;
    tried(
        rt,
        "an end without a start",
        Given {
            ends: &[0],
            ..LEAST
        },
    )
}

fn main(rt: HostRuntime) -> io::Result<()> {
    numbers(&rt)?;
    sets(&rt)?;
    wide_sets(&rt)?;
    graphs(&rt)?;
    lengths(&rt)?;
    parts(&rt)
}
