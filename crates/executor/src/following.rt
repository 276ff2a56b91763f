// Where a reply leads: on to the next word, to a jump's word, or nowhere.
ghost use Rattle.std.specs.Prelude.{◌≡◌};
ghost use Rattle.executor.specs.Reply.{jumped, followed};

use crate::stepping::drop;
use crate::{ExecCbResult, Execution, Phase, Refusal};
use image::Tables;
use places::SectionAddress;

// Continue runs on at the next word, visited or not; a Jump at its word, or drops the run where that was visited;
// EndBlock and End drop it. A Jump's place is judged: OtherSection (6), NotCode (2), Misaligned (3).
pub fn follow(
    im: &Tables<'_>,
    map: &[u32],
    run: Execution,
    how: ExecCbResult,
) -> Result<Execution, Refusal>
    ensures { result ≡ followed im.now.words.now map.now run how }
{
    match how {
        ExecCbResult::Continue => Ok(Execution {
            phase: Phase::Running,
            at: places::offset(run.at, 4),
            ..run
        }),
        ExecCbResult::Jump(q) => jump(im, map, run, q),
        ExecCbResult::EndBlock | ExecCbResult::End => Ok(drop(run)),
    }
}

fn jump(
    im: &Tables<'_>,
    map: &[u32],
    run: Execution,
    q: SectionAddress,
) -> Result<Execution, Refusal>
    ensures { result ≡ jumped im.now.words.now map.now run q }
{
    if q.section != run.at.section {
        return Err(Refusal::OtherSection);
    }
    lookups::code_place(im, q)?;
    if visited::contains(map, lookups::word_number(im, q)) {
        return Ok(drop(run));
    }
    Ok(Execution {
        phase: Phase::Running,
        at: q,
        block_start: q,
        vm: run.vm,
    })
}
