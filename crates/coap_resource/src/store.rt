//! The trait of stores.
ghost use Rattle.std.specs.Prelude.{◌≡◌, ◌≤◌, ◌↔◌, ◌+◌, ◌++◌, None, Some, IfOk, IfErr, IfSome, IsSome, length};
ghost use Rattle.std.specs.Prelude.{List, ℕ, option_copied, slice_get};
ghost use Rattle.coap_resource.specs.Content.{Changes, Content, Held, Lists, append_refusal, nothing, put_refusal};
ghost use Rattle.coap_resource.specs.Content.{later};
ghost use Rattle.coap_resource.specs.Limits.{sized_limits, usual_limits};
ghost use Rattle.coap_resource.specs.Rate.{changes_left, rate_refusal};
ghost use Rattle.coap_resource.specs.declared.refusal.StoreRefusal.{StoreRefusal};
ghost use Rattle.coap_resource.specs.declared.refusal.StoreRefusal.TheVariants.{Memory};
ghost use Rattle.coap_resource.specs.Shown.{shown};

use crate::refusal::StoreRefusal;
use crate::representation::Representation;
use crate::tally::MAX_CHANGES_PER_WINDOW;
use crate::version_base::VersionBase;
use coap_types::{BodyLimit, MAX_BODY_LIMIT, Moment, Path};
use std::alloc::Allocator;

/// The most paths that hold something (profile).
pub const MAX_PATHS: usize = 256;

const _: () = prove!(MAX_PATHS == 256);

/// The resources of a server: what each path holds (RFC 7252, section 5.8).
///
/// Each change has a version, one more than the change before it. The first is one more than the base
/// that was chosen: 1, where none was. A moment before the last that was handed in counts as that. A
/// refusal changes nothing: only its moment has counted, and after `Memory` not even that.
pub trait Store<A: Allocator + Copy>: Drop {
    /// What it holds.
    ghost content: { Self → Content };

    /// The paths that hold something, in an order of its own, which a change can move.
    ghost listing: { Self → List (List (List ℕ)) };

    /// A store that holds nothing, where a window of 256 s is to take 1 to `MAX_CHANGES_PER_WINDOW`
    /// changes, and a body has at most `DEFAULT_BODY_LIMIT` bytes.
    fn new(alloc: A, changes_per_window: u32) -> Option<Self>
    where
        Self: Sized,
        // A `new` store holds nothing, and has the usual limit of a body.
        ensures empty { IfSome result (λ store. content store ≡ nothing (usual_limits changes_per_window)) }
        // A `new` store is made exactly where its changes a window are at least one and at most the greatest number.
        ensures when { IsSome result ↔ ((1 ≤ changes_per_window) × (changes_per_window ≤ MAX_CHANGES_PER_WINDOW)) }
    {
        Self::new_sized(alloc, changes_per_window, BodyLimit::default())
    }

    /// The same where a body is to have at most that limit.
    fn new_sized(alloc: A, changes_per_window: u32, limit: BodyLimit) -> Option<Self>
    where
        Self: Sized,
        // A store of `new_sized` holds nothing, and has that limit of a body.
        ensures empty { IfSome result
            (λ store. content store ≡ nothing (sized_limits changes_per_window limit)) }
        // A store of `new_sized` is made exactly for changes a window from one to the greatest number.
        ensures when { IsSome result ↔ ((1 ≤ changes_per_window) × (changes_per_window ≤ MAX_CHANGES_PER_WINDOW)) }
    {
        Self::new_after(alloc, changes_per_window, limit, VersionBase::default())
    }

    /// A store that holds nothing, where a body is to have at most that limit, and the versions are to begin
    /// after a base. A server that forgets what it held needs another base for each of its lives, so that no
    /// entity-tag names two bodies (RFC 7252, section 5.10.6).
    fn new_after(
        alloc: A,
        changes_per_window: u32,
        limit: BodyLimit,
        base: VersionBase,
    ) -> Option<Self>
    where
        Self: Sized,
        // A store of `new_after` holds nothing, has that limit of a body, and its first version is one more than the
        // base.
        ensures empty { IfSome result (λ store. content store
            ≡ nothing (record { changes = changes_per_window; body = limit; base = base })) }
        // A store of `new_after` is made exactly for changes a window from one to the greatest number.
        ensures when { IsSome result ↔ ((1 ≤ changes_per_window) × (changes_per_window ≤ MAX_CHANGES_PER_WINDOW)) };

    /// The longest body that it holds. No call changes it.
    fn limit(&self) -> BodyLimit
        // The limit is the longest body that the store holds.
        ensures { result ≡ (content self.now).tally.limits.body };

    /// What the path holds; its body is no longer than the store's limit.
    fn get(&self, path: &Path<A>) -> Option<&Representation<A>>
        // What is lent is what the path holds.
        ensures held { shown (option_copied result) ≡ (content self.now).holds path.now }
        // A body that is held is no longer than the store's limit.
        ensures short { IfSome ((content self.now).holds path.now)
            (λ held. length held.body ≤ (content self.now).tally.limits.body) }
        // A body that is held has at most 1,048,576 bytes.
        ensures within { IfSome ((content self.now).holds path.now) (λ held. length held.body ≤ MAX_BODY_LIMIT) };

    /// The version of the last change; before the first the base after which the versions begin.
    fn version(&self) -> u64
        // The version is that of the last change, and before the first the base.
        ensures { result ≡ (content self.now).tally.version };

    /// How many paths hold something.
    fn paths(&self) -> usize
        // The number is that of the paths that hold something.
        ensures { result ≡ (content self.now).paths };

    /// The path at this place of those that hold something, in an order of the store's own, which a change can move;
    /// None where so many hold nothing.
    fn path_at(&self, place: usize) -> Option<&Path<A>>
        // The path is the one at that place of the store's list.
        ensures at { option_copied result ≡ slice_get (listing self.now) place }
        // That list has each path that holds something, once, and no other.
        ensures all { Lists (content self.now) (listing self.now) };

    /// How many changes can be made one after the other at this moment: those that its window has left, and no more
    /// than there are versions left. A moment before the last that was handed in counts as that. It does not count.
    fn changes_left(&self, now: Moment) -> u32
        // The changes that are left are those that the window has left, and no more than there are versions.
        ensures { result ≡ changes_left (content self.now).tally now.0 };

    /// Puts a body in place of what the path holds, and answers its version.
    fn put(
        &mut self,
        now: Moment,
        path: &Path<A>,
        format: Option<u16>,
        body: &[u8],
    ) -> Result<u64, StoreRefusal>
        // Where the store has a reason not to put it there, that is the answer, and only the moment counts.
        ensures refused { (why : StoreRefusal) → put_refusal (content self.old) now.0 path.now (length body.now)
            ≡ Some why
            → (result ≡ Err why) × (content self.new ≡ later (content self.old) now.0) }
        // Where it has no reason, the body is put there, or refused for want of memory.
        ensures taken { put_refusal (content self.old) now.0 path.now (length body.now) ≡ None
            → IfErr result (λ why. why ≡ Memory) }
        // A body is put only where the window has a change left.
        ensures room { IfOk result (λ version. rate_refusal (content self.old).tally now.0 ≡ None) }
        // The version of a body that is put is the next.
        ensures version { IfOk result (λ version. version ≡ (content self.old).tally.version + 1) }
        // The path then holds the body and the format, under the new version, and no other path changes.
        ensures change { IfOk result (λ version.
            Changes (content self.old) now.0 path.now
            (Some (record { version = version; format = format; body = body.now })) (content self.new)) }
        // A body that is refused memory leaves the store as it was.
        ensures memory { result ≡ Err Memory → self.new ≡ self.old };

    /// Joins a body to the end of what the path holds, and answers the version; None where the path
    /// holds nothing.
    fn append(
        &mut self,
        now: Moment,
        path: &Path<A>,
        body: &[u8],
    ) -> Result<Option<u64>, StoreRefusal>
        // Where the path holds nothing, nothing is joined, and only the moment counts.
        ensures absent { (content self.old).holds path.now ≡ None
            → (result ≡ Ok None) × (content self.new ≡ later (content self.old) now.0) }
        // Where the store has a reason not to join it, that is the answer, and only the moment counts.
        ensures refused { (held : Held) (why : StoreRefusal) → (content self.old).holds path.now ≡ Some held
            → append_refusal (content self.old) now.0 held (length body.now) ≡ Some why
            → (result ≡ Err why) × (content self.new ≡ later (content self.old) now.0) }
        // Where it has no reason, it is joined, or refused for want of memory.
        ensures taken { (held : Held) → (content self.old).holds path.now ≡ Some held
            → append_refusal (content self.old) now.0 held (length body.now) ≡ None
            → IfErr result (λ why. why ≡ Memory) × IfOk result IsSome }
        // Something is joined only where the window has a change left.
        ensures room { IfOk result (λ done.
            IfSome done (λ version. rate_refusal (content self.old).tally now.0 ≡ None)) }
        // The version of a body to which something is joined is the next.
        ensures version { IfOk result (λ done.
            IfSome done (λ version. version ≡ (content self.old).tally.version + 1)) }
        // The path then holds both bodies, one behind the other, in the format that it had.
        ensures change { IfOk result (λ done. IfSome done (λ version.
            (held : Held) → (content self.old).holds path.now ≡ Some held
            → Changes (content self.old) now.0 path.now
            (Some (record { version = version; format = held.format; body = held.body ++ body.now }))
            (content self.new))) }
        // What is to be joined and is refused memory leaves the store as it was.
        ensures memory { result ≡ Err Memory → self.new ≡ self.old };

    /// Takes away what the path holds, and answers the version; None where the path holds nothing.
    /// It takes no memory.
    fn delete(&mut self, now: Moment, path: &Path<A>) -> Result<Option<u64>, StoreRefusal>
        // Where the path holds nothing, nothing is deleted, and only the moment counts.
        ensures absent { (content self.old).holds path.now ≡ None
            → (result ≡ Ok None) × (content self.new ≡ later (content self.old) now.0) }
        // Where the window has no change left, that is the answer, and only the moment counts.
        ensures refused { (held : Held) (why : StoreRefusal) → (content self.old).holds path.now ≡ Some held
            → rate_refusal (content self.old).tally now.0 ≡ Some why
            → (result ≡ Err why) × (content self.new ≡ later (content self.old) now.0) }
        // Else what the path holds is deleted, as the next change.
        ensures taken { (held : Held) → (content self.old).holds path.now ≡ Some held
            → rate_refusal (content self.old).tally now.0 ≡ None
            → result ≡ Ok (Some ((content self.old).tally.version + 1)) }
        // Something is deleted only where the window has a change left.
        ensures room { IfOk result (λ done.
            IfSome done (λ version. rate_refusal (content self.old).tally now.0 ≡ None)) }
        // The path then holds nothing, and no other path changes.
        ensures change { IfOk result (λ done. IfSome done (λ version.
            Changes (content self.old) now.0 path.now None (content self.new))) };
}
