//! The entity-tag that a part is taken with.
ghost use Rattle.std.specs.Prelude.{◌≡◌, ◌∷◌, [], false};
ghost use Rattle.coap_parts.specs.Handed.{handed, joins, made_up, other_than, tagged_so};

use coap_types::Tag;

/// Which entity-tag the parts have that were gathered so far.
#[derive(Drop)]
pub enum Gathered {
    /// No part was gathered.
    Nothing,
    /// Each has this one.
    Tagged(Tag),
    /// None has one.
    Untagged,
}

// The entity-tag of one byte.
fn short_tag(byte: u8) -> Tag
    ensures { result ≡ byte ∷ [] }
{
    match Tag::new(&[byte]) {
        Some(tag) => tag,
        None => unreachable!("one byte is a tag"),
    }
}

/// The entity-tag that is made up where none came.
pub(crate) fn made_up() -> Tag
    ensures { result ≡ made_up }
{
    short_tag(0)
}

// Another one than this.
fn other_than(tag: &Tag) -> Tag
    ensures { result ≡ other_than tag.now }
{
    if *tag == made_up() {
        short_tag(1)
    } else {
        made_up()
    }
}

/// The entity-tag that a part is taken with: its own, or a made-up one where it has none and that is allowed; and one
/// that differs where some parts have one and others have none.
pub(crate) fn handed(untagged: bool, gathered: &Gathered, came: &Option<Tag>) -> Option<Tag>
    ensures { result ≡ handed untagged gathered.now came.now }
{
    match (came, gathered) {
        (Some(_), Gathered::Untagged) => Some(other_than(&made_up())),
        (Some(tag), _) => Some(tag.copy()),
        (None, _) if !untagged => None,
        (None, Gathered::Tagged(tag)) => Some(other_than(tag)),
        (None, _) => Some(made_up()),
    }
}

/// Which entity-tag the parts have once this one is among them.
pub(crate) fn tagged_so(came: Option<Tag>) -> Gathered
    ensures { result ≡ tagged_so came }
{
    match came {
        Some(tag) => Gathered::Tagged(tag),
        None => Gathered::Untagged,
    }
}

/// Whether the parts have no entity-tag.
pub(crate) fn joins(gathered: &Gathered) -> bool
    ensures { result ≡ joins gathered.now }
{
    match gathered {
        Gathered::Untagged => true,
        Gathered::Nothing | Gathered::Tagged(_) => false,
    }
}
