// Answers as lines of an output. Each call writes from a place on and hands on the next: of a slice the check knows by itself that its length stays, and of one
// in a struct with its place it does not.
#![tactic(auto)]

ghost use Rattle.std.specs.Prelude.{◌≡◌, [], ◌∷◌, ◌++◌, ◌+◌, ◌*◌, ◌<◌, ◌≤◌, length};
ghost use Rattle.listing.specs.Placed.{Placed};
ghost use Rattle.promises.specs.Answers.{number, told, handed_back};
ghost use Rattle.frames.specs.Digits as d;
ghost use Rattle.frames.specs.Outputs as o;

use digits::put_digits;
use promises::{Answer, Refusal};
use reports::changed_part;

// The kinds of output lines, by their numbers.
#[derive(Clone, Copy, Debug, PartialEq, Eq)]
pub enum Kind {
    Report = 0x80,
    Change = 0x81,
    Order = 0x82,
    Refusal = 0x8F,
}

// Writes one byte.
pub fn put_byte(out: &mut [u8], at: usize, byte: u8) -> usize
    requires { at < length out.old }
    ensures { Placed out.old at (byte ∷ []) out.new result }
{
    out[at] = byte;
    at + 1
}

// Writes a kind, and a number of two digits. The kind comes as its number, of which the contract speaks.
pub fn put_head(out: &mut [u8], at: usize, kind: u32, number: u32) -> usize
    requires { at + 4 ≤ length out.old }
    ensures { Placed out.old at (d.digits 2 kind ++ d.digits 2 number) out.new result }
{
    let next = put_digits(out, at, 2, kind);
    put_digits(out, next, 2, number)
}

// Writes the line of a refusal, whose rule is given by its number.
pub fn put_refusal(out: &mut [u8], at: usize, rule: u8) -> usize
    requires { at + 5 ≤ length out.old }
    ensures { Placed out.old at (o.refusal rule) out.new result }
{
    let next = put_head(out, at, Kind::Refusal as u32, rule as u32);
    put_byte(out, next, b'\n')
}

// The same of the rule that a call broke.
pub fn put_broken(out: &mut [u8], at: usize, rule: Refusal) -> usize
    requires { at + 5 ≤ length out.old }
    ensures { Placed out.old at (o.refusal (number rule)) out.new result }
{
    put_refusal(out, at, u8::from(rule))
}

// Writes two numbers of four digits, and the line feed.
pub fn put_pair(out: &mut [u8], at: usize, first: u32, second: u32) -> usize
    requires { at + 9 ≤ length out.old }
    ensures { Placed out.old at ((d.digits 4 first ++ d.digits 4 second) ++ (10 ∷ [])) out.new result }
{
    let middle = put_digits(out, at, 4, first);
    let next = put_digits(out, middle, 4, second);
    put_byte(out, next, b'\n')
}

// Writes the line of a report.
pub fn put_report(out: &mut [u8], at: usize, fires: bool, trials: u32, changes: u32) -> usize
    requires { at + o.report_size ≤ length out.old }
    ensures { Placed out.old at (o.report_line fires trials changes) out.new result }
{
    let next = put_head(out, at, Kind::Report as u32, fires as u32);
    put_pair(out, next, trials, changes)
}

// A change in two's complement.
pub fn complement(change: i32) -> u32
    ensures { result ≡ o.complement change }
{
    change.cast_unsigned()
}

// Writes the line of a change.
pub fn put_change(out: &mut [u8], at: usize, change: i32) -> usize
    requires { at + o.change_size ≤ length out.old }
    ensures { Placed out.old at (o.changed change) out.new result }
{
    let bits = complement(change);
    let kind = put_digits(out, at, 2, Kind::Change as u32);
    let next = put_digits(out, kind, 8, bits);
    put_byte(out, next, b'\n')
}

// Writes a line for each change.
pub fn put_changes(out: &mut [u8], at: usize, list: &[i32]) -> usize
    requires { at + o.change_size * length list.now ≤ length out.old }
    ensures { Placed out.old at (o.each o.changed list.now) out.new result }
{
    let mut next = at;
    for &change in list {
        next = put_change(out, next, change);
    }
    next
}

// Writes two digits for each state.
pub fn put_states(out: &mut [u8], at: usize, states: &[u8]) -> usize
    requires { at + 2 * length states.now ≤ length out.old }
    ensures { Placed out.old at (o.each (d.digits 2) states.now) out.new result }
{
    let mut next = at;
    for &state in states {
        next = put_digits(out, next, 2, state as u32);
    }
    next
}

// Writes the line of an order of states.
pub fn put_order(out: &mut [u8], at: usize, states: &[u8]) -> usize
    requires { at + (2 * length states.now + 3) ≤ length out.old }
    ensures { Placed out.old at (o.walked states.now) out.new result }
{
    let kind = put_digits(out, at, 2, Kind::Order as u32);
    let next = put_states(out, kind, states);
    put_byte(out, next, b'\n')
}

// Writes the lines of an answer with the changes of a room.
pub fn put_answer(out: &mut [u8], answer: Answer, room: &[i32]) -> usize
    requires { o.report_size + o.change_size * length (handed_back room.now answer) ≤ length out.old }
    ensures { Placed out.old 0 (o.answered (told answer) (handed_back room.now answer)) out.new result }
{
    match answer {
        Ok(report) => {
            let fires = bool::from(report.firing);
            let next = put_report(out, 0, fires, report.trials, report.changes);
            put_changes(out, next, changed_part(room, answer))
        }
        Err(rule) => put_broken(out, 0, rule),
    }
}
