//! When a bundle is fetched again (SPIFFE Trust Domain and Bundle, section 4.1.2).
ghost use Rattle.std.specs.Prelude.{◌≡◌};
ghost use Rattle.refresh.specs.Due.{due_after};

/// The refresh hint of a bundle that has none, in seconds.
const DEFAULT_HINT: u64 = 300;

/// When a bundle is to be fetched again, in seconds, if it was fetched at `now` and gave this refresh hint: after the
/// hint, at least one second, and after 300 seconds if there is no hint. Never past 18446744073709551615.
pub fn next_due(now: u64, hint: Option<u64>) -> u64
    ensures { result ≡ due_after now hint }
{
    now.saturating_add(hint.unwrap_or(DEFAULT_HINT).max(1))
}
