// A line of bytes is read as a frame.
#![tactic(auto)]

ghost use Rattle.std.specs.Prelude.{◌≡◌, Some, option_map, true, cond, ◌+◌, ◌≤◌, length};
ghost use Rattle.frames.specs.declared.Frame.TheVariants as F;
ghost use Rattle.frames.specs.Frames as f;

use digits::Hex;
use frames::{Edge, Frame, State};

// The state whose mask, value and links, of so many digits, stand in the fields from a place on.
fn state_at(fields: &Hex, at: usize, digits: usize, inverted: bool) -> State
    requires { (digits ≤ 8) × (at + (8 + digits) ≤ length fields.now.bytes.now) }
    ensures { f.said (Some (F.State result)) ≡ f.state inverted (f.field 4 fields.now.bytes.now at) (f.field 4 fields.now.bytes.now (at + 4)) (f.field digits fields.now.bytes.now (at + 8)) }
{
    State {
        mask: fields.part(at, 4).half(),
        value: fields.part(at + 4, 4).half(),
        links: fields.part(at + 8, digits).number(),
        inverted,
    }
}

// The fields of a state, plain or inverted: mask, value, links.
#[tactic(auto, unfolding(frames::specs::Frames::spoken))]
pub fn state_of(fields: &Hex, inverted: bool) -> Option<State>
    ensures { f.said (option_map F.State result) ≡ f.spoken (cond inverted 7 1) fields.now.bytes.now }
{
    if fields.bytes.len() != 12 {
        return None;
    }
    Some(state_at(fields, 0, 4, inverted))
}

// The fields of a state with 32 bits of links: inversion, mask, value, links.
#[tactic(auto, unfolding(frames::specs::Frames::spoken, frames::specs::Frames::wide))]
pub fn wide_of(fields: &Hex) -> Option<State>
    ensures { f.said (option_map F.State result) ≡ f.spoken 10 fields.now.bytes.now }
{
    if fields.bytes.len() != 18 {
        return None;
    }
    let inversion = fields.part(0, 2).number();
    if 1 < inversion {
        return None;
    }
    Some(state_at(fields, 2, 8, inversion == 1))
}

// The field of a node: its sample.
#[tactic(auto, unfolding(frames::specs::Frames::spoken))]
pub fn sample_of(fields: &Hex) -> Option<u16>
    ensures { f.said (option_map F.Node result) ≡ f.spoken 2 fields.now.bytes.now }
{
    if fields.bytes.len() != 4 {
        return None;
    }
    Some(fields.half())
}

// The fields of an edge: start and end.
#[tactic(auto, unfolding(frames::specs::Frames::spoken))]
pub fn edge_of(fields: &Hex) -> Option<Edge>
    ensures inserts { f.said (option_map F.Insert result) ≡ f.spoken 4 fields.now.bytes.now }
    ensures deletes { f.said (option_map F.Delete result) ≡ f.spoken 5 fields.now.bytes.now }
{
    if fields.bytes.len() != 8 {
        return None;
    }
    let start = fields.part(0, 4).number();
    let end = fields.part(4, 4).number();
    Some(Edge { start, end })
}

// A frame that has no fields.
#[tactic(auto, unfolding(frames::specs::Frames::spoken))]
pub fn bare_frame(fields: &[u8], runs: bool) -> Option<Frame>
    ensures { f.said result ≡ f.spoken (cond runs 3 6) fields.now }
{
    if !fields.is_empty() {
        return None;
    }
    Some(if runs { Frame::Run } else { Frame::Walk })
}

// The frame of a kind, with these fields. The kinds are numbers of the input, and named here alone.
#[tactic(auto, unfolding(frames::specs::Frames::spoken))]
pub fn spoken(kind: u32, fields: &Hex) -> Option<Frame>
    ensures { f.said result ≡ f.spoken kind fields.now.bytes.now }
{
    match kind {
        1 => state_of(fields, false).map(Frame::State),
        2 => sample_of(fields).map(Frame::Node),
        3 => bare_frame(fields.bytes, true),
        4 => edge_of(fields).map(Frame::Insert),
        5 => edge_of(fields).map(Frame::Delete),
        6 => bare_frame(fields.bytes, false),
        7 => state_of(fields, true).map(Frame::State),
        10 => wide_of(fields).map(Frame::State),
        _ => None,
    }
}

// The frame that a line is.
#[tactic(auto, unfolding(frames::specs::Frames::frame_of))]
pub fn read_frame(line: &[u8]) -> Option<Frame>
    ensures { f.said result ≡ f.frame_of line.now }
{
    let line = Hex::of(line)?;
    if line.bytes.len() < 2 {
        return None;
    }
    spoken(line.part(0, 2).number(), &line.after(2))
}
