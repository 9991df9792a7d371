// Frames from standard input, their answers to standard output: read, answer, write. Where a line ends, what it says and what it is answered
// is the library's to tell.
#![tactic(auto)]

ghost use Rattle.std.specs.Prelude.{◌≡◌, ℕ, ◌≤◌, List, [], length, take, IfOk, OnOk};
ghost use Rattle.std.specs.Io.KnownBytes.{Appends, Consumes};
ghost use Rattle.session.specs.Limits.{max_changes};
ghost use Rattle.promises.specs.Rules.{verdict};
ghost use Rattle.frames.specs.Lines.{front_size};
ghost use Rattle.frames.specs.Machine.{memory, output_size};
ghost use Rattle.frames.specs.Moments.{program};
ghost use Rattle.frames.specs.Program.{Fresh};
ghost use Rattle.frames.specs.Blocks.{input_rules, InputCalls, Leads};

use frame_input::{answer_block, answer_end};
use frame_machine::{COUNTS_SIZE, WORDS_SIZE};
use line_gathering::KEPT;
use std::io;
use std::io::{Read, Write};

// Reads the front of a block: how many bytes, none at the input's end, and none where the read fails.
fn read_front<R: Read>(reader: &mut R, block: &mut [u8]) -> usize
    ensures bound { result ≤ length block.new }
    ensures bytes { Consumes (R.remaining reader.old) (R.remaining reader.new) (take result block.new) }
{
    reader.read(block).unwrap_or(0)
}

// Writes all of the bytes, and sends them on at once.
fn write_out<W: Write>(writer: &mut W, bytes: &[u8]) -> io::Result<()>
    ensures { OnOk result (Appends (W.contents writer.old) (W.contents writer.new) bytes.now) }
{
    writer.write_all(bytes)?;
    writer.flush()
}

// Answers a block, part by part as the output holds the answers: how long the front of the line begun then is. They are written before more is
// read, so that each reaches the other end of a pipe at once.
fn answer_whole<W: Write>(
    counts: &mut [u32],
    words: &mut [u16],
    session: &mut [u32],
    changes: &mut [i32],
    front: &mut [u8],
    begun: usize,
    block: &[u8],
    out: &mut [u8],
    writer: &mut W,
) -> io::Result<usize>
    requires { verdict (input_rules (memory counts.old words.old session.old changes.old out.old) front.old) ≡ 0 }
    ensures unbroken { verdict (input_rules (memory counts.new words.new session.new changes.new out.new) front.new) ≡ 0 }
    ensures calls { IfOk result (λ used. (output : List ℕ) × Leads (memory counts.old words.old session.old changes.old out.old) (take begun front.old) block.now output (memory counts.new words.new session.new changes.new out.new) (take used front.new)
        × Appends (W.contents writer.old) (W.contents writer.new) output) }
{
    let mut at = 0;
    let mut line = begun;
    while at < block.len() {
        let progress = answer_block(
            counts,
            words,
            session,
            changes,
            front,
            line,
            &block[at..],
            out,
        )
        .unwrap();
        write_out(writer, &out[..progress.written])?;
        line = progress.begun;
        at += progress.at;
    }
    Ok(line)
}

// Answers the blocks of the input, to its end: how long the front of the line begun then is. Nothing says that an input ends, so the turns are
// as many as no run uses up.
fn answer_blocks<R: Read, W: Write>(
    counts: &mut [u32],
    words: &mut [u16],
    session: &mut [u32],
    changes: &mut [i32],
    front: &mut [u8],
    block: &mut [u8],
    out: &mut [u8],
    reader: &mut R,
    writer: &mut W,
) -> io::Result<usize>
    requires { verdict (input_rules (memory counts.old words.old session.old changes.old out.old) front.old) ≡ 0 }
    ensures unbroken { verdict (input_rules (memory counts.new words.new session.new changes.new out.new) front.new) ≡ 0 }
    ensures calls { IfOk result (λ used. (bytes : List ℕ) × (output : List ℕ) × Leads (memory counts.old words.old session.old changes.old out.old) [] bytes output (memory counts.new words.new session.new changes.new out.new) (take used front.new)
        × Consumes (R.remaining reader.old) (R.remaining reader.new) bytes × Appends (W.contents writer.old) (W.contents writer.new) output) }
{
    let mut begun = 0;
    for _ in 0..u64::MAX {
        let n = read_front(reader, block);
        if n == 0 {
            break;
        }
        begun = answer_whole(
            counts,
            words,
            session,
            changes,
            front,
            begun,
            &block[..n],
            out,
            writer,
        )?;
    }
    Ok(begun)
}

// Answers the input and its end, in memory at its start.
fn answer_input<R: Read, W: Write>(
    counts: &mut [u32],
    words: &mut [u16],
    session: &mut [u32],
    changes: &mut [i32],
    front: &mut [u8],
    block: &mut [u8],
    out: &mut [u8],
    reader: &mut R,
    writer: &mut W,
) -> io::Result<()>
    requires { Fresh (memory counts.old words.old session.old changes.old out.old) × (max_changes ≤ length changes.old) × (output_size ≤ length out.old) × (front_size ≤ length front.old) }
    ensures { OnOk result ((bytes : List ℕ) × (output : List ℕ) × InputCalls (memory counts.old words.old session.old changes.old out.old) [] bytes output × (output ≡ program bytes)
        × Consumes (R.remaining reader.old) (R.remaining reader.new) bytes × Appends (W.contents writer.old) (W.contents writer.new) output) }
{
    let begun = answer_blocks(
        counts, words, session, changes, front, block, out, reader, writer,
    )?;
    let last = answer_end(counts, words, session, changes, front, begun, out).unwrap();
    write_out(writer, &out[..last.written])
}

// The block: as much as is read at once.
const BLOCK_LENT: usize = 65536;

// The output: more than the longest answer, so that it holds many of them, and writes are few.
const OUTPUT_LENT: usize = 524288;

// The memory is zero at the start, which is the machine's start too. What cannot be written ends the program, and nothing is said of it.
fn main(rt: HostRuntime) {
    let mut counts = [0u32; COUNTS_SIZE];
    let mut words = [0u16; WORDS_SIZE];
    let mut session = [0u32; session::FIXED_SIZE];
    let mut changes = [0i32; session::MAX_CHANGES];
    let mut front = [0u8; KEPT];
    let mut block = [0u8; BLOCK_LENT];
    let mut out = [0u8; OUTPUT_LENT];
    let mut reader = rt.stdin();
    let mut writer = rt.stdout();
    let _ = answer_input(
        &mut counts,
        &mut words,
        &mut session,
        &mut changes,
        &mut front,
        &mut block,
        &mut out,
        &mut reader,
        &mut writer,
    );
}
