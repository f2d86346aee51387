// A delay from now, and which of two is the lesser. An absent one is later than all.
ghost use Rattle.std.specs.Prelude.{◌≡◌};
ghost use Rattle.rules.specs.Basics.{◌≤ᵈ◌};
ghost use Rattle.rules.specs.Basics.{earlier as earlier_of};
ghost use Rattle.queue_peek.specs.Decoded.{delay_of};

use moment::Length;

// Whether a is not later than b.
pub fn not_later(a: Option<Length>, b: Option<Length>) -> bool
    ensures { result ≡ (delay_of a ≤ᵈ delay_of b) }
{
    match (a, b) {
        (_, None) => true,
        (None, Some(_)) => false,
        (Some(x), Some(y)) => x <= y,
    }
}

// The lesser of two delays.
pub fn earlier(a: Option<Length>, b: Option<Length>) -> Option<Length>
    ensures { delay_of result ≡ earlier_of (delay_of a) (delay_of b) }
{
    if not_later(a, b) { a } else { b }
}
