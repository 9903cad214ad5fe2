//! Laws of values.
ghost use Rattle.std.specs.Prelude.{◌≡◌, ◌↔◌, List, ℕ};
ghost use Rattle.std.specs.Cmp.{IsTotalOrder};
ghost use Rattle.std.specs.declared.cmp.Ordering.TheVariants.{Equal};
ghost use Rattle.snap_yaml.specs.Orders.{value_cmp};
ghost use Rattle.snap_yaml.specs.Value.{Value};
ghost use Rattle.snap_print.specs.Typed.{typed};
ghost use Rattle.snap_yaml.specs.Typing.{typed_yaml};
ghost use Rattle.snap_yaml.specs.Through.{plain_typed};

/// The order of values is total.
pub const fn order_is_total()
    ensures { IsTotalOrder value_cmp }
{}

/// The order answers `Equal` exactly where two values are one.
pub const fn equal_in_order_is_equal()
    ensures { (a b : Value) → (value_cmp a b ≡ Equal) ↔ (a ≡ b) }
{}

/// A reader of trees types each scalar as the loader does, and takes a number that is kept as its text for the whole number
/// that it is, where 128 bits hold it.
pub const fn readers_of_trees_type_alike()
    ensures { (w : List ℕ) → typed w ≡ plain_typed (typed_yaml w) }
{}
