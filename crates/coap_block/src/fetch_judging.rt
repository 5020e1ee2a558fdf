//! What a part means to a fetch: the next block, a new start, the end or a refusal (RFC 7959, section 2.4).
ghost use Rattle.std.specs.Prelude.{◌≡◌, ◌+◌, ◌<◌, ◌≤◌, List, ℕ, min};
ghost use Rattle.coap_types.specs.Piece.{offset_of, size_of};
ghost use Rattle.coap_block.specs.FetchStep.{changed, differs_from, fits, is_sized, lacks_tag, number_behind, same_tag};
ghost use Rattle.coap_block.specs.FetchStep.{verdict};
ghost use Rattle.coap_block.specs.FetchState.{state_of, IsNumberedAsk};
ghost use Rattle.coap_block.specs.declared.fetch_verdict.Verdict.TheVariants.{Again, Ask};

use crate::fetch_progress::{Asked, Progress};
use crate::fetch_step::FetchRefusal;
use crate::fetch_verdict::Verdict;
use coap_types::{Block, BodyLimit, MAX_BODY_LIMIT, Szx, Tag};

/// How often a body that changes is fetched anew (profile).
pub const MAX_RESTARTS: u8 = 3;

const _: () = prove!(MAX_RESTARTS == 3);

// The first part is block 0, a later one the one asked for.
fn fits(asked: Option<Asked>, block: Block) -> bool
    ensures { result ≡ fits asked block.num block.szx }
{
    match asked {
        None => block.num == 0,
        Some(asked) => block.num == asked.num && block.szx == asked.szx,
    }
}

// A part with more behind it fills its block; the last one isn't longer, nor empty behind others.
fn is_sized(block: Block, len: usize) -> bool
    ensures { result ≡ is_sized block.more block.num block.szx len }
{
    let size = block.szx.size();
    if block.more {
        len == size
    } else {
        len <= size && (len > 0 || block.num == 0)
    }
}

// Both are there, and are equal.
fn same_tag(a: &Option<Tag>, b: &Option<Tag>) -> bool
    ensures { result ≡ same_tag a.now b.now }
{
    match (a, b) {
        (Some(a), Some(b)) => a.as_slice() == b.as_slice(),
        _ => false,
    }
}

/// The smaller of two block sizes.
pub(crate) fn smaller(a: Szx, b: Szx) -> Szx
    ensures { result ≡ min a b }
{
    if a.get() <= b.get() { a } else { b }
}

// Where a block ends that has so many bytes.
fn end_of(block: Block, len: usize) -> usize
    requires { len ≤ size_of block.szx }
    ensures { result ≡ offset_of block.num block.szx + len }
{
    block.num as usize * block.szx.size() + len
}

// Behind other parts, its ETag isn't theirs.
fn differs(progress: &Progress, tag: &Option<Tag>) -> bool
    ensures { result ≡ differs_from progress.now.asked progress.now.tag tag.now }
{
    progress.asked.is_some() && !same_tag(tag, &progress.tag)
}

// The block behind that one is asked for, in the smaller of both sizes.
#[inline(always)]
fn ask_behind(szx: Szx, block: Block) -> Verdict
    requires { offset_of block.num block.szx + size_of block.szx ≤ MAX_BODY_LIMIT }
    ensures next { result ≡ Ask (number_behind szx block) (min block.szx szx) }
    ensures numbered { IsNumberedAsk result }
{
    let size = block.szx.size();
    let end = block.num as usize * size + size;
    let next = smaller(block.szx, szx);
    Verdict::Ask((end / next.size()) as u32, next)
}

// One of several parts, without an ETag.
fn lacks_tag(block: Block, tag: &Option<Tag>) -> bool
    ensures { result ≡ lacks_tag block tag.now }
{
    (block.more || block.num > 0) && tag.is_none()
}

// A body that changed is fetched anew, but not for ever.
fn start_again(restarts: u8) -> Verdict
    ensures verdict { result ≡ changed restarts }
    ensures again { result ≡ Again → restarts < MAX_RESTARTS }
    ensures numbered { IsNumberedAsk result }
{
    if restarts >= MAX_RESTARTS {
        Verdict::Refuse(FetchRefusal::Changed)
    } else {
        Verdict::Again
    }
}

/// What a part means, by the tests in their order.
pub(crate) fn judge(
    szx: Szx,
    limit: BodyLimit,
    progress: &Progress,
    block: Option<Block>,
    tag: &Option<Tag>,
    len: usize,
) -> Verdict
    ensures verdict { (gathered : List ℕ)
        → result ≡ verdict (state_of (record { szx = szx; limit = limit }) gathered progress.now) block tag.now len }
    ensures again { result ≡ Again → progress.now.restarts < MAX_RESTARTS }
    ensures numbered { IsNumberedAsk result }
{
    match block {
        None if progress.asked.is_some() => Verdict::Refuse(FetchRefusal::BadBlock),
        None if len > limit.get() => Verdict::Refuse(FetchRefusal::TooLarge),
        None => Verdict::Done,
        Some(block) if !fits(progress.asked, block) => Verdict::Refuse(FetchRefusal::BadBlock),
        Some(block) if !is_sized(block, len) => Verdict::Refuse(FetchRefusal::BadBlock),
        Some(block) if end_of(block, len) > limit.get() => {
            Verdict::Refuse(FetchRefusal::TooLarge)
        }
        Some(block) if lacks_tag(block, tag) => Verdict::Refuse(FetchRefusal::NoTag),
        Some(_) if differs(progress, tag) => start_again(progress.restarts),
        Some(block) if block.more => ask_behind(szx, block),
        Some(_) => Verdict::Done,
    }
}
