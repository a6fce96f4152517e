//! Saturating counts.

ghost use Rattle.std.specs.Prelude.{◌≡◌};
ghost use Rattle.fond_edge.specs.Calls.{one_more};

/// One more, saturating at 2^64 - 1.
pub(crate) fn one_more(count: u64) -> u64
    ensures { result ≡ one_more count }
{
    count.saturating_add(1)
}
