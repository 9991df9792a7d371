// Frames: what a line says and what it is answered is defined in specs/. The types in which a line is read and answered.
#![tactic(auto)]

// How far a call came in the input: how many bytes of output it wrote; how many bytes of the block it took; and how long the front of the line
// begun then is. A call that the lent memory refuses takes and writes nothing, and the front stays as it was lent.
#[derive(Clone, Copy, Debug, PartialEq, Eq)]
pub struct Progress {
    pub written: usize,
    pub at: usize,
    pub begun: usize,
}

#[derive(Clone, Copy, Debug, PartialEq, Eq)]
pub struct State {
    pub mask: u16,
    pub value: u16,
    pub links: u32,
    pub inverted: bool,
}

#[derive(Clone, Copy, Debug, PartialEq, Eq)]
pub struct Edge {
    pub start: u32,
    pub end: u32,
}

// A frame of one of the kinds. A line that is none is read as None.
#[derive(Clone, Copy, Debug, PartialEq, Eq)]
pub enum Frame {
    State(State),
    Node(u16),
    Run,
    Insert(Edge),
    Delete(Edge),
    Walk,
}
