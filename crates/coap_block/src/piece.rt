//! The bytes of a body that one block carries (RFC 7959, section 2.2).
ghost use Rattle.std.specs.Prelude.{◌≡◌, ◌↔◌, IsSome, IfSome};
ghost use Rattle.coap_types.specs.Piece.{Begins, part_of};

use coap_types::Block;

/// The bytes of a body that a block carries, whatever its M says (RFC 7959, section 2.2): as many
/// as its size, or up to the end. None where the block begins at or past the end; block 0 of an
/// empty body has no byte.
pub fn slice<'a>(body: &'a [u8], block: Block) -> Option<&'a [u8]>
    // The bytes that are cut out are those of the block: as many as its size, or up to the end.
    ensures part { IfSome result (λ part. part.now ≡ part_of body.now block.num block.szx) }
    // A block is cut out exactly where it begins in the body.
    ensures when { IsSome result ↔ Begins body.now block.num block.szx }
{
    let size = block.szx.size();
    let offset = block.num as usize * size;
    if offset >= body.len() && !(block.num == 0 && body.is_empty()) {
        return None;
    }
    let rest = &body[offset..];
    if rest.len() < size {
        Some(rest)
    } else {
        Some(&rest[..size])
    }
}
