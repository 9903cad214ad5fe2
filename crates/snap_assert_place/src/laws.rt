//! Laws of what a place and a path are, and worked examples.
ghost use Rattle.std.specs.Prelude.{◌≡◌, ◌++◌, ◌∷◌, ℕ, List, [], Some, true, false, codes};
ghost use Rattle.snap_assert_place.specs.Place.{PlaceView, holds_slash, last_part};
ghost use Rattle.snap_assert_place.specs.SnapshotPath.{path_of, records_path};
ghost use Rattle.snap_assert_place.specs.Names.{holds_colons, last_name, is_test, without_test, base_of};
ghost use Rattle.snap_assert_settings.specs.Settings.{new_settings};

/// The last part of a path is what stands after its last slash, and the whole path where it has none.
pub const fn last_part_is_behind_the_slash()
    ensures alone { (part : List ℕ) → holds_slash part ≡ false → last_part part ≡ part }
    ensures behind { (front part : List ℕ) → holds_slash part ≡ false
        → last_part (front ++ 47 ∷ part) ≡ part }
{}

/// A function's own name is what stands after the last `::` of the text, and the whole text where it has none.
pub const fn last_name_is_behind_the_colons()
    ensures alone { (part : List ℕ) → holds_colons part ≡ false → last_name part ≡ part }
    ensures behind { (front part : List ℕ) → holds_colons (58 ∷ part) ≡ false
        → last_name (front ++ 58 ∷ 58 ∷ part) ≡ part }
{}

/// A path and names at concrete values.
pub const fn worked_examples()
    ensures overlapping { last_name (codes "a:::b") ≡ codes "b" }
    ensures tested { is_test (last_name (codes "m::test_a")) ≡ true }
    ensures once { without_test (codes "test_test_a") ≡ codes "test_a" }
    ensures empty { without_test (codes "test_") ≡ [] }
    ensures base { (place : PlaceView) → base_of (record new_settings { suffix = Some (codes "x") })
        (record place { function = codes "m::test_a" })
        ≡ codes "a@x" }
    ensures path { (place : PlaceView) → path_of new_settings
        (record place
        { workspace = codes "w"; function = []; module_name = codes "m"; file = codes "src/a.rs" })
        (codes "one")
        ≡ codes "w/src/snapshots/m__one.snap" }
    ensures records { (place : PlaceView) → records_path
        (record place { workspace = codes "w"; file = codes "src/a.rs" })
        ≡ codes "w/src/.a.rs.pending-snap" }
    ensures alone { (place : PlaceView) → records_path
        (record place { workspace = codes "/"; file = codes "a.rs" })
        ≡ codes "/.a.rs.pending-snap" }
{}
