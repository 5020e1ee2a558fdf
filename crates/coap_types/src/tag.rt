//! Entity-tags (RFC 7252, section 5.10.6).
ghost use Rattle.std.specs.Prelude.{◌≡◌, ◌<◌, ◌≤◌, ◌∷◌, ◌++◌, [], length, nat_eq, All, IsTrue, IfErr, OnErr, OnOk, ◌↔◌};
ghost use Rattle.std.specs.Prelude.{⊤};
ghost use Rattle.coap_types.specs.EntityTag.{IsTag};
ghost use Rattle.std.specs.Option.{SomeIff};
ghost use Rattle.std.specs.Cmp.{partial_equiv_from_equiv};
ghost use Rattle.std.specs.Cmp.Lexicographic.{pointwise, nat_list_eq_equiv};

use arrayvec::ArrayVec;
use std::alloc::AllocError;
use std::marker::Model;

/// The most bytes that an entity-tag has (RFC 7252, section 5.10, table 4).
pub const MAX_TAG_LEN: usize = 8;

const _: () = prove!(MAX_TAG_LEN == 8);

/// An entity-tag: 1 to 8 bytes, which tell one representation of a resource from another
/// (RFC 7252, section 5.10.6). Tags are equal by their bytes.
#[derive(Debug, Drop)]
pub struct Tag {
    bytes: ArrayVec<u8, MAX_TAG_LEN>,
}

impl Model for Tag {
    ghost use Rattle.std.specs.Prelude.{ℕ, List};
    ghost use Rattle.coap_types.specs.EntityTag.{IsTag};

    ghost Value = { List ℕ };

    ghost view = { λ t. t.bytes.items };

    ghost invariant = { λ t. IsTag t.bytes.items };
}

impl Tag {
    /// The tag of these bytes, where they are 1 to 8.
    pub fn new(bytes: &[u8]) -> Option<Tag>
        // An entity-tag is made exactly of 1 to 8 bytes (RFC 7252, section 5.10.6).
        ensures { SomeIff result ((1 ≤ length bytes.now) × (length bytes.now ≤ MAX_TAG_LEN)) bytes.now }
    {
        if bytes.is_empty() {
            return None;
        }
        let mut tag = ArrayVec::new();
        tag.try_extend_from_slice(bytes).ok()?;
        Some(Tag { bytes: tag })
    }

    // What stands in a place that holds no tag.
    fn unused() -> Tag
        ensures { result ≡ 0 ∷ [] }
    {
        let mut bytes = ArrayVec::new();
        bytes.push(0);
        Tag { bytes }
    }

    /// The bytes.
    pub fn as_slice(&self) -> &[u8]
        // The bytes that are lent are those of the entity-tag.
        ensures bytes { result.now ≡ self.now }
        // An entity-tag has at least one byte (RFC 7252, section 5.10.6).
        ensures some { 1 ≤ length self.now }
        // An entity-tag has at most 8 bytes (RFC 7252, section 5.10.6).
        ensures few { length self.now ≤ MAX_TAG_LEN }
        // What is lent may stand in an ETag option.
        ensures tag { IsTag self.now }
    {
        self.bytes.as_slice()
    }

    /// The same tag again, as `clone`, but with no `Result`: it takes no memory.
    pub fn copy(&self) -> Tag
        // The copy of an entity-tag is that tag.
        ensures { result ≡ self.now }
    {
        let mut bytes = ArrayVec::new();
        let _fits = bytes.try_extend_from_slice(self.as_slice());
        Tag { bytes }
    }
}

impl Clone for Tag {
    ghost is_clone = { λ tag copy. copy ≡ tag };

    ghost is_infallible = { λ _. ⊤ };

    fn clone(&self) -> Result<Tag, AllocError> {
        Ok(self.copy())
    }
}

impl PartialEq for Tag {
    ghost eq = { pointwise nat_eq };

    ghost laws = { partial_equiv_from_equiv nat_list_eq_equiv };

    fn eq(&self, other: &Tag) -> bool
        ensures value { result ≡ pointwise nat_eq self.now other.now }
        ensures equal { IsTrue result ↔ (self.now ≡ other.now) }
    {
        self.bytes == other.bytes
    }
}

impl Eq for Tag {
    ghost laws = { nat_list_eq_equiv };
}

/// The most tags of a request (profile: RFC 7252 sets no bound).
pub const MAX_TAGS: usize = 4;

const _: () = prove!(MAX_TAGS == 4);

/// At most 4 entity-tags, in order. A contract sees them as the list of their bytes.
#[derive(Debug, Drop)]
pub struct Tags {
    tags: [Tag; MAX_TAGS],
    len: usize,
}

impl Model for Tags {
    ghost use Rattle.std.specs.Prelude.{ℕ, List, All, ◌≡◌, ◌≤◌, length, take};
    ghost use Rattle.coap_types.specs.declared.tag.TheConstants.{MAX_TAGS};
    ghost use Rattle.coap_types.specs.EntityTag.{IsTag};

    ghost Value = { List (List ℕ) };

    ghost view = { λ t. take t.len t.tags };

    ghost invariant = { λ t. (length t.tags ≡ MAX_TAGS) × (t.len ≤ MAX_TAGS) × All IsTag t.tags };
}

impl Tags {
    /// No tag.
    pub fn new() -> Tags
        // At first there is no entity-tag.
        ensures { result ≡ [] }
    {
        Tags {
            tags: [Tag::unused(), Tag::unused(), Tag::unused(), Tag::unused()],
            len: 0,
        }
    }

    /// Adds a tag at the end, or gives it back where `MAX_TAGS` are there.
    pub fn push(&mut self, tag: Tag) -> Result<(), Tag>
        // An entity-tag is taken only where fewer than four are there.
        ensures room { OnOk result (length self.old < MAX_TAGS) }
        // An entity-tag is refused only where four are there.
        ensures full { OnErr result (length self.old ≡ MAX_TAGS) }
        // An entity-tag that is taken stands behind the others.
        ensures added { OnOk result (self.new ≡ self.old ++ tag ∷ []) }
        // An entity-tag that is refused is given back.
        ensures given_back { IfErr result (λ back. back ≡ tag) }
        // The tags that refuse one more are as they were.
        ensures err { OnErr result (self.new ≡ self.old) }
    {
        if self.len >= MAX_TAGS {
            return Err(tag);
        }
        let _it_has_1_to_8_bytes = tag.as_slice();
        self.tags[self.len] = tag;
        self.len += 1;
        Ok(())
    }

    /// The tags in order.
    pub fn as_slice(&self) -> &[Tag]
        // The tags that are lent are those that were taken, in order.
        ensures tags { result.now ≡ self.now }
        // There are at most four entity-tags.
        ensures few { length self.now ≤ MAX_TAGS }
        // Each of the tags is an entity-tag of 1 to 8 bytes.
        ensures each { All IsTag self.now }
    {
        &self.tags[..self.len]
    }
}
