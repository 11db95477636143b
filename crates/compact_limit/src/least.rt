//! The lesser of two numbers.

ghost use Rattle.std.specs.Prelude.{◌≡◌, ◌≤◌, ◌<◌, ◌⊎◌};

/// The lesser of two numbers, of which the second doesn't count where it is 0.
pub(crate) fn lesser(number: u32, other: u32) -> u32
    ensures up_to { result ≤ number }
    ensures behind { (other ≡ 0) ⊎ (result ≤ other) }
    ensures reached { (result ≡ number) ⊎ ((0 < other) × (result ≡ other)) }
{
    if other != 0 && other < number {
        other
    } else {
        number
    }
}
