//! Whether two requests are one.
ghost use Rattle.std.specs.Prelude.{◌≡◌, ◌↔◌, true, Some};

use coap_exchange::Asked;

/// Whether they came from one endpoint, with one type, Message ID and token.
pub(crate) fn same(a: &Asked, b: &Asked) -> bool
    ensures { (result ≡ true) ↔ (a.now ≡ b.now) }
{
    a.from == b.from && a.kind == b.kind && a.id.0 == b.id.0 && a.token == b.token
}

/// Whether the one that is kept, if any, is this one.
pub(crate) fn is_that(kept: &Option<Asked>, asked: &Asked) -> bool
    ensures { (result ≡ true) ↔ (kept.now ≡ Some asked.now) }
{
    match kept {
        Some(one) => same(one, asked),
        None => false,
    }
}
