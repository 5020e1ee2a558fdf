//! Parts of a text, between marks of one byte.
ghost use Rattle.std.specs.Prelude.{◌≡◌, ◌<◌};
ghost use Rattle.coap_arguments.specs.Marks.{before, behind, has};

/// What stands before the first such character of a text, and what behind it; all and nothing, where there is none.
pub(crate) fn parted(text: &str, mark: char) -> (&str, &str)
    requires { mark < 128 }
    ensures before { result.0.now ≡ before mark text.now }
    ensures behind { result.1.now ≡ behind mark text.now }
{
    match text.split_once(mark) {
        Some(parts) => parts,
        None => (text, ""),
    }
}

/// Whether such a byte stands in a text.
pub(crate) fn has(text: &str, mark: u8) -> bool
    ensures { result ≡ has mark text.now }
{
    text.as_bytes().iter().any(|byte| *byte == mark)
}
