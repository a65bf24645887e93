//! Whether a name or a key stood in a row before.

ghost use Rattle.std.specs.Prelude.{◌≡◌, false, nat_lt};
ghost use Rattle.std.specs.Option.{option_map_or};

/// Whether the first row with a name or a key stands before this place.
pub(crate) fn is_before(first: Option<usize>, place: usize) -> bool
    ensures { result ≡ option_map_or (λ k. nat_lt k place) first false }
{
    first.is_some_and(|first| first < place)
}
