//! Why config.csv is refused.

ghost use Rattle.std.specs.Prelude.{◌≡◌};
ghost use Rattle.build_refusals.specs.Config.{window_refusal};

use file_rows::{Cause, Window};

/// The line of a window that does not end after its start.
pub(crate) fn window_refusal(window: &Window) -> Option<(u32, Cause)>
    ensures { result ≡ window_refusal window.now }
{
    if window.from.0 < window.to.0 {
        None
    } else {
        Some((window.line, Cause::BadWindow))
    }
}
