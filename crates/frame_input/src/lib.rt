// The input in blocks: the lines that end in a block are answered, and at the input's end the line that was begun.
#![tactic(auto)]

ghost use Rattle.std.specs.Prelude.{◌≡◌};
ghost use Rattle.promises.specs.Answers.{first_broken};
ghost use Rattle.promises.specs.Rules.{verdict};
ghost use Rattle.frames.specs.Machine.{memory};
ghost use Rattle.frames.specs.Blocks as b;

use frame_machine::{OUTPUT_SIZE, answer_line, memory_rule};
use frames::Progress;
use line_gathering::{KEPT, gather, within};
use promises::Refusal;

// The first rule that the lent memory breaks.
#[tactic(auto, unfolding(promises::specs::Rules::verdict))]
fn input_rule(
    counts: &[u32],
    words: &[u16],
    session: &[u32],
    changes: &[i32],
    front: &[u8],
    out: &[u8],
) -> Result<(), Refusal>
    ensures { first_broken result ≡ verdict (b.input_rules (memory counts.now words.now session.now changes.now out.now) front.now) }
{
    if front.len() < KEPT {
        return Err(Refusal::MemoryShort);
    }
    memory_rule(counts, words, session, changes, out)
}

// Passes over the block, in memory that breaks none of its own rules. The walk ends with the block, or where the output has no room for one
// answer more.
fn pass_over(
    counts: &mut [u32],
    words: &mut [u16],
    session: &mut [u32],
    changes: &mut [i32],
    front: &mut [u8],
    begun: usize,
    block: &[u8],
    out: &mut [u8],
) -> Progress
    requires { verdict (b.input_rules (memory counts.old words.old session.old changes.old out.old) front.old) ≡ 0 }
    ensures { b.Passes block.now (b.point front.old begun 0 0 (memory counts.old words.old session.old changes.old out.old)) (b.point front.new result.begun result.at result.written (memory counts.new words.new session.new changes.new out.new)) }
{
    let mut at = 0;
    let mut line = begun;
    let mut written = 0;
    while at < block.len() && OUTPUT_SIZE <= out.len() - written {
        let gathered = gather(front, line, block, at);
        at = gathered.at;
        line = gathered.used;
        if gathered.ended {
            let n = answer_line(
                counts,
                words,
                session,
                changes,
                &front[..line],
                &mut out[written..],
            );
            written += n;
            line = 0;
        }
    }
    Progress {
        written,
        at,
        begun: line,
    }
}

// Answers the lines that end in the block while the output has room for one answer more. The front of a line begun is in `front`, `begun`
// bytes of it; what is left of the block is lent again.
pub fn answer_block(
    counts: &mut [u32],
    words: &mut [u16],
    session: &mut [u32],
    changes: &mut [i32],
    front: &mut [u8],
    begun: usize,
    block: &[u8],
    out: &mut [u8],
) -> Result<Progress, Refusal>
    ensures { b.BlockTaken (memory counts.old words.old session.old changes.old out.old) front.old begun block.now result (memory counts.new words.new session.new changes.new out.new) front.new }
{
    input_rule(counts, words, session, changes, front, out)?;
    Ok(pass_over(counts, words, session, changes, front, begun, block, out))
}

// Answers the line that the input's end ends, if one was begun.
pub fn answer_end(
    counts: &mut [u32],
    words: &mut [u16],
    session: &mut [u32],
    changes: &mut [i32],
    front: &[u8],
    begun: usize,
    out: &mut [u8],
) -> Result<Progress, Refusal>
    ensures { b.InputEnded (memory counts.old words.old session.old changes.old out.old) front.now begun result (memory counts.new words.new session.new changes.new out.new) }
{
    input_rule(counts, words, session, changes, front, out)?;
    if begun == 0 {
        return Ok(Progress {
            written: 0,
            at: 0,
            begun: 0,
        });
    }
    let used = within(front, begun);
    let written = answer_line(counts, words, session, changes, &front[..used], out);
    Ok(Progress {
        written,
        at: 0,
        begun: 0,
    })
}
