// The session in lent memory: its limits, and the places of its sections. What it holds is defined in specs/.
#![tactic(auto)]

// The limits, and the places of the sections. An edge is the number start * EDGE_BASE + end.
pub const MAX_STATES: usize = 32;

pub const MAX_NODES: usize = 512;

pub const MAX_EDGES: usize = 2048;

pub const EDGE_BASE: u32 = MAX_NODES as u32;

pub const WORD_BITS: u32 = 16;

pub const MAX_CHANGES: usize = MAX_NODES * MAX_STATES;

pub const INVERTED_AT: usize = 3;

pub const MASKS_AT: usize = INVERTED_AT + 1;

pub const VALUES_AT: usize = MASKS_AT + MAX_STATES;

pub const LINKS_AT: usize = VALUES_AT + MAX_STATES;

pub const SAMPLES_AT: usize = LINKS_AT + MAX_STATES;

pub const EDGES_AT: usize = SAMPLES_AT + MAX_NODES;

pub const MARKS_AT: usize = EDGES_AT + MAX_EDGES;

pub const FIXED_SIZE: usize = MARKS_AT + MAX_NODES;
