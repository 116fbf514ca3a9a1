//! Two numbers made one.

ghost use Rattle.behaviour_tree.specs.Mixing.{mixed};
ghost use Rattle.std.specs.Prelude.{◌≡◌};

/// A number made of two, below 2^53.
pub fn mix(number: u64, more: u64) -> u64
    ensures { result ≡ mixed number more }
{
    (number % 4_294_967_296) * 1_000_003 + (more % 4_294_967_296) * 999_983
}
