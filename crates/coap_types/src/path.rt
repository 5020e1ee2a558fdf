//! The path of a resource (RFC 7252, section 5.10.1).
ghost use Rattle.std.specs.Prelude.{◌≡◌, ◌<◌, ◌≤◌, ◌∷◌, ◌++◌, ◌⊎◌, [], length, IsTrue, IfOk, IfErr, OnOk, OnErr, All};
ghost use Rattle.std.specs.Prelude.{◌↔◌, Some, None, refl};
ghost use Rattle.coap_types.specs.Bytes.{AreBytes};
ghost use Rattle.coap_types.specs.CoapOption.{options_of};
ghost use Rattle.coap_types.specs.Path.{HoldsAtMost, segments_of, same_path, path_order};
ghost use Rattle.coap_types.specs.RequestPath.{MakesPathWithin, PathsOfRecognised, path_of, path_refusal};
ghost use Rattle.coap_types.specs.PathOrder.{path_hash_respects_eq, path_order_ties, path_order_total};
ghost use Rattle.coap_types.specs.PathOrder.{path_partial_order, same_path_equiv};
ghost use Rattle.std.specs.Cmp.{partial_equiv_from_equiv};
ghost use Rattle.std.specs.Hash as fed;
ghost use Rattle.coap_types.specs.RefusalNumbers.{path_refusal_number};

use crate::option_number::URI_PATH;
use crate::options::Opt;
use std::alloc::{AllocError, Allocator, Global};
use std::cmp::Ordering;
use std::hash::{Hash, Hasher};
use std::marker::Model;
use thiserror::Error;

/// The most segments of a path (profile: RFC 7252 sets no bound).
pub const MAX_SEGMENTS: usize = 16;
/// The most bytes of a segment, which is the value of one Uri-Path option (RFC 7252, section
/// 5.10).
pub const MAX_SEGMENT_LEN: usize = 255;

const _: () = prove!(MAX_SEGMENTS == 16 && MAX_SEGMENT_LEN == 255);

/// Why a path takes no further segment. Where several hold, the first is answered.
#[derive(Clone, Copy, Debug, PartialEq, Eq, Error)]
pub enum PathRefusal {
    /// The segment has over `MAX_SEGMENT_LEN` bytes.
    #[error("a segment of over 255 bytes")]
    SegmentTooLong,
    /// The path has `MAX_SEGMENTS` segments.
    #[error("over 16 segments")]
    TooManySegments,
    /// An allocation was refused.
    #[error("no memory")]
    Memory,
}

impl PathRefusal {
    /// The number of the refusal, 1 to 3, in the order of the variants.
    pub fn number(self) -> u8
        // The number of a path's refusal is its place among the three.
        ensures { result ≡ path_refusal_number self }
    {
        match self {
            PathRefusal::SegmentTooLong => 1,
            PathRefusal::TooManySegments => 2,
            PathRefusal::Memory => 3,
        }
    }
}

/// The path of a resource: its segments in order, each any bytes, one Uri-Path option each
/// (RFC 7252, section 5.10.1). A contract sees it as the list of its segments.
#[derive(Drop)]
#[derive_where(Debug)]
pub struct Path<A: Allocator = Global> {
    segments: Vec<Vec<u8, A>, A>,
}

impl<A: Allocator> Model for Path<A> {
    ghost use Rattle.std.specs.Prelude.{ℕ, List};
    ghost use Rattle.coap_types.specs.Path.{IsPath, segments_of};

    ghost Value = { List (List ℕ) };

    ghost view = { λ p. segments_of p.segments.items };

    ghost invariant = { λ p. IsPath (segments_of p.segments.items) };
}

impl<A: Allocator + Copy> Path<A> {
    /// The path of no segment, that of the root.
    pub fn new(alloc: A) -> Path<A>
        // A `new` path has no segment.
        ensures { result ≡ [] }
    {
        Path {
            segments: Vec::new(alloc),
        }
    }

    /// The path that the options of a request say: the values of Uri-Path, in order. Where several
    /// hold, the first refusal of `push` is answered.
    pub fn of_options(alloc: A, options: &[Opt<'_>]) -> Result<Path<A>, PathRefusal>
        // The path of a request is the values of its Uri-Path options, in order (RFC 7252, section 5.10.1).
        ensures path { IfOk result (λ path. path ≡ path_of (options_of options.now)) }
        // A path is answered only where none of its segments would be refused.
        ensures fits { OnOk result (path_refusal (path_of (options_of options.now)) ≡ None) }
        // Where no path is answered, the reason is the first refusal of a segment, or want of memory.
        ensures refused { IfErr result (λ why. (why ≡ PathRefusal.Memory)
            ⊎ (path_refusal (path_of (options_of options.now)) ≡ Some why)) }
    {
        let mut path = Path::new(alloc);
        for option in options {
            if option.number == URI_PATH {
                path.push(option.value)?;
            }
        }
        Ok(path)
    }

    /// Adds a segment at the end. After an `Err` the path is as before.
    pub fn push(&mut self, segment: &[u8]) -> Result<(), PathRefusal>
        // A segment that is taken stands at the end of the path.
        ensures added { OnOk result (self.new ≡ self.old ++ segment.now ∷ []) }
        // A segment is refused as too long exactly where it has over 255 bytes.
        ensures too_long { (result ≡ Err PathRefusal.SegmentTooLong) ↔ (MAX_SEGMENT_LEN < length segment.now) }
        // A segment of at most 255 bytes is refused as too many exactly where the path has 16.
        ensures too_many { (result ≡ Err PathRefusal.TooManySegments)
            ↔ ((length segment.now ≤ MAX_SEGMENT_LEN) × (MAX_SEGMENTS ≤ length self.old)) }
        // Want of memory is answered only where the segment is short enough and has a place.
        ensures memory { result ≡ Err PathRefusal.Memory
            → (length segment.now ≤ MAX_SEGMENT_LEN) × (length self.old < MAX_SEGMENTS) }
        // A path that refuses a segment is as it was.
        ensures err { OnErr result (self.new ≡ self.old) }
    {
        if segment.len() > MAX_SEGMENT_LEN {
            return Err(PathRefusal::SegmentTooLong);
        }
        if self.segments.len() >= MAX_SEGMENTS {
            return Err(PathRefusal::TooManySegments);
        }
        let alloc = *self.segments.allocator();
        let copy = Vec::from_slice(alloc, segment).map_err(|_| PathRefusal::Memory)?;
        self.segments.push(copy).map_err(|_| PathRefusal::Memory)
    }

    /// The segments in order.
    pub fn segments(&self) -> &[Vec<u8, A>]
        // The segments that are lent are those of the path, in order.
        ensures segments { segments_of result.now ≡ self.now }
        // A path has at most 16 segments, of at most 255 bytes each.
        ensures bounds { HoldsAtMost MAX_SEGMENTS MAX_SEGMENT_LEN self.now }
        // Each segment of a path is bytes.
        ensures bytes { All AreBytes self.now }
    {
        self.segments.as_slice()
    }

    /// How many segments there are.
    pub fn len(&self) -> usize
        // The length of a path is the number of its segments.
        ensures segments { result ≡ length self.now }
        // The length of a path is at most 16.
        ensures few { result ≤ MAX_SEGMENTS }
    {
        self.segments().len()
    }

    /// Whether there is no segment.
    pub fn is_empty(&self) -> bool
        // A path is called empty exactly where it has no segment.
        ensures { IsTrue result ↔ (self.now ≡ []) }
    {
        self.segments.is_empty()
    }
}

impl<A: Allocator> PartialEq for Path<A> {
    ghost eq = { same_path };

    ghost laws = { partial_equiv_from_equiv same_path_equiv };

    /// Whether both have the same segments, by bytes.
    fn eq(&self, other: &Self) -> bool
        ensures value { result ≡ same_path self.now other.now }
        ensures equal { IsTrue result ↔ (self.now ≡ other.now) }
    {
        self.segments == other.segments
    }
}

impl<A: Allocator> Eq for Path<A> {
    ghost laws = { same_path_equiv };
}

impl<A: Allocator> PartialOrd for Path<A> {
    ghost partial_cmp = { λ p q. Some (path_order p q) };

    ghost laws = { path_partial_order };

    fn partial_cmp(&self, other: &Self) -> Option<Ordering> {
        Some(self.cmp(other))
    }
}

impl<A: Allocator> Ord for Path<A> {
    ghost cmp = { path_order };

    ghost total = { path_order_total };

    ghost matches_partial_cmp = { λ p q. refl };

    ghost matches_eq = { path_order_ties };

    fn cmp(&self, other: &Self) -> Ordering {
        self.segments.cmp(&other.segments)
    }
}

impl<A: Allocator + Copy> Clone for Path<A> {
    ghost is_clone = { λ p copy. copy ≡ p };

    fn clone(&self) -> Result<Path<A>, AllocError> {
        let segments = self.segments.clone()?;
        Ok(Path { segments })
    }
}

impl<A: Allocator> Hash for Path<A> {
    ghost hash_input = { fed.slice (fed.slice fed.u8) };

    ghost respects_eq = { path_hash_respects_eq };

    fn hash<H: Hasher>(&self, state: &mut H) {
        self.segments.hash(state);
    }
}

/// Which segments make a path; and of the options of a request that are recognised, over
/// `MAX_SEGMENTS` segments alone refuse it: none of them is too long (RFC 7252, section 5.10).
pub fn path_law()
    // Segments make a path exactly where they are at most 16, of at most 255 bytes each.
    ensures within { MakesPathWithin }
    // Of the recognised options of a request, too many Uri-Path options alone make no path.
    ensures recognised { PathsOfRecognised }
{}
