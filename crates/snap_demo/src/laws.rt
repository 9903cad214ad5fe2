//! Laws of a demonstration, and worked examples.
ghost use Rattle.std.specs.Prelude.{◌≡◌, ◌+◌, ◌<◌, ◌^◌, ◌++◌, ℕ, List};
ghost use Rattle.snap_assert_place.specs.SnapshotPath.{path_of};
ghost use Rattle.snap_assert_settings.specs.Settings.{new_settings};
ghost use Rattle.snap_run_requests.specs.Cut.{documents};
ghost use Rattle.snap_demo.specs.Examples.{AreWords, AreNumbers, AreValues, ArePlaces, IsDocument, AreLines};
ghost use Rattle.snap_demo.specs.Paths.{demo_path, demo_place};
ghost use Rattle.snap_demo.specs.Requests.{demo_file, demo_name};
ghost use Rattle.snap_demo.specs.Stream.{demo_input, demo_documents, demo_requests, SpellEach};

/// The stream of a demonstration is cut into the documents that it was made of, and each of these spells its request.
pub const fn the_stream_is_its_requests()
    ensures cut { (seed count : ℕ) → seed < 2 ^ 64 → count < 2 ^ 32
        → documents (demo_input seed count) ≡ demo_documents seed count }
    ensures spelled { (seed count : ℕ) → seed < 2 ^ 64 → count < 2 ^ 32
        → SpellEach (demo_documents seed count) (demo_requests seed count) }
{}

/// The snapshot of a request stands at the path that is built for the assertion that the request asks for.
pub const fn the_path_is_that_of_the_assertion()
    ensures { (i line : ℕ) → i < 2 ^ 64
        → path_of new_settings (demo_place (demo_file i) line) (demo_name i) ≡ demo_path i }
{}

/// Where the path of one request, with something behind it, is the path of another with something behind it, both are one.
pub const fn paths_are_apart()
    ensures { (i j : ℕ) (behind after : List ℕ) → i < 2 ^ 64 → j < 2 ^ 64
        → demo_path i ++ behind ≡ demo_path j ++ after → (i ≡ j) × (behind ≡ after) }
{}

/// Words, numbers, values, documents, paths and lines at concrete values.
pub const fn worked_examples()
    ensures words { AreWords }
    ensures numbers { AreNumbers }
    ensures values { AreValues }
    ensures places { ArePlaces }
    ensures document { IsDocument }
    ensures lines { AreLines }
{}
