//! The numbers of a demonstration.
ghost use Rattle.std.specs.Prelude.{◌≡◌};
ghost use Rattle.snap_demo.specs.Numbers.{next_of};

/// The number of the next request, by that of the one before.
pub const fn next(number: u64) -> u64
    ensures { result ≡ next_of number }
{
    number
        .wrapping_mul(6_364_136_223_846_793_005)
        .wrapping_add(1_442_695_040_888_963_407)
}
