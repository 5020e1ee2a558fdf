//! What holds of all paths and their texts.
ghost use Rattle.std.specs.Prelude.{◌≡◌, ◌≢◌, ℕ, All, List, [], ◌∷◌};
ghost use Rattle.coap_types.specs.Bytes.{AreBytes};
ghost use Rattle.coap_types.specs.Path.{HoldsAtMost};
ghost use Rattle.coap_paths.specs.PathTexts.{SpellsPath, spelled, text_of};
ghost use Rattle.coap_paths.specs.Uris.{IsNamed, behind_slash, uri_path};

/// A path and its text.
pub fn paths_law()
    // The text of a path spells that path, but for the path of one empty segment.
    ensures there_and_back { (path : List (List ℕ)) → path ≢ ([] ∷ []) → spelled (text_of path) ≡ path }
    // The text of a path of at most 16 segments of at most 255 bytes spells a path, with the same exception.
    ensures spells { (path : List (List ℕ)) → path ≢ ([] ∷ []) → HoldsAtMost 16 255 path → SpellsPath (text_of path) }
    // Two paths never have one text.
    ensures one_path { (p q : List (List ℕ)) → text_of p ≡ text_of q → p ≡ q }
{}

/// A path and the path of its URI (RFC 7252, sections 6.4 and 6.5).
pub fn uris_law()
    // The path of the URI of a path is read back as that path, but for the path of one empty segment.
    ensures { (path : List (List ℕ)) → All AreBytes path → HoldsAtMost 16 255 path → path ≢ ([] ∷ [])
        → IsNamed (behind_slash (uri_path path)) path }
{}
