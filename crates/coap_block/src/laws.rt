//! Laws of block-wise transfer (RFC 7959).
ghost use Rattle.coap_block.specs.Whole.{OneBody, OneBodyAtServer};
ghost use Rattle.coap_block.specs.Gathered.{GatheredAtStart, GatheredByPart, WholeByParts};
ghost use Rattle.coap_block.specs.FetchTrace.{BodyIsShort, GatheredIsShort, WholeByHistory};
ghost use Rattle.coap_block.specs.AssemblyTrace.{FewPartials, NoneLeft, OneForAKey, OthersStay, PartialsByHistory};
ghost use Rattle.coap_block.specs.AssemblyTrace.{ForgettingLeaves, ForgottenHasNone, WholeByBlocks};
ghost use Rattle.coap_block.specs.PartialTimes.{JoinsWhereMore, ThereAtMoment, ThereByHistory};
ghost use Rattle.coap_block.specs.UploadStep.{ContinuesIsTested};
ghost use Rattle.coap_block.specs.Sent.{SentAtStart, SentByPart, WholeBySent};

/// Parts that are whole for two bodies are whole for one (RFC 7959, sections 2.4 and 2.5).
pub fn body_law()
    // What is whole for two bodies of a fetch is whole for one.
    ensures client { OneBody }
    // What is whole for two bodies of an assembly is whole for one.
    ensures server { OneBodyAtServer }
{}

/// The body that a fetch gives is whole by the parts since its start (RFC 7959, section 2.4).
pub fn fetch_law()
    // At the start of a fetch no part is gathered.
    ensures start { GatheredAtStart }
    // With each part that is taken the fetch has gathered one more.
    ensures next { GatheredByPart }
    // The body that a fetch answers is whole by the parts since its start.
    ensures whole { WholeByParts }
    // Whatever came before, a body that a fetch answers is whole by the parts taken since it began anew.
    ensures history { WholeByHistory }
    // What a fetch has gathered is never longer than its limit (RFC 7959, section 7).
    ensures gathered { GatheredIsShort }
    // A body that a fetch answers is no longer than its limit, with Block2 or without (RFC 7959, section 7).
    ensures short { BodyIsShort }
{}

/// The parts that an upload sends are its body in order (RFC 7959, section 2.5).
pub fn upload_law()
    // At the start of an upload no part is sent.
    ensures start { SentAtStart }
    // With each 2.31 that fits, the upload has sent one part more.
    ensures next { SentByPart }
    // With the last part, what an upload sent is its body, in order.
    ensures whole { WholeBySent }
    // The test of a 2.31 decides whether it fits (RFC 7959, section 2.9).
    ensures continues { ContinuesIsTested }
{}

/// The body that an assembly gives is the blocks that were taken for its key since its last block 0
/// (RFC 7959, section 2.5).
pub fn assembly_law()
    // A partial body is the blocks that were taken for its key since its last block 0.
    ensures partials { PartialsByHistory }
    // There are at most 16 partial bodies (profile).
    ensures few { FewPartials }
    // A key has at most one partial body.
    ensures distinct { OneForAKey }
    // A body that an assembly answers is the blocks since the last block 0, in order, and within its limit.
    ensures whole { WholeByBlocks }
    // A body that an assembly answers leaves no partial body of its key.
    ensures none { NoneLeft }
    // A block of one key leaves the partial body of another.
    ensures others { OthersStay }
    // A key has a partial body exactly where its last block was joined, at most 247 s ago, and nothing ended it.
    ensures there { ThereByHistory }
    // For the block that comes next it has one by the same rule, at the moment of that block.
    ensures later { ThereAtMoment }
    // A block behind which more follow is joined, and makes no body whole.
    ensures joins { JoinsWhereMore }
    // An endpoint that is forgotten has no partial body.
    ensures forgets { ForgottenHasNone }
    // To forget an endpoint leaves the partial bodies of others.
    ensures leaves { ForgettingLeaves }
{}
