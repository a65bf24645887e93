//! What escaping makes sure of.

ghost use Rattle.std.specs.Prelude.{◌≡◌, ℕ, List, true};
ghost use Rattle.std.specs.List.{list_all};
ghost use Rattle.page_parts.specs.Escaped.{IsText, escaped, is_harmless};

/// Escaped text is pieces one after another, each an entity or a byte that stands for itself: none of `<`, `>`, `&`, `"` and
/// `'` is in it otherwise, and four of them are not in it at all.
pub fn escaped_text_marks_nothing_up()
    ensures pieces { (bytes : List ℕ) → IsText (escaped bytes) }
    ensures harmless { (bytes : List ℕ) → list_all is_harmless (escaped bytes) ≡ true }
{}
