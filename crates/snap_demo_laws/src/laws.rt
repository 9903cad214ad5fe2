//! The laws of a fresh demonstration.
ghost use Rattle.std.specs.Prelude.{◌≡◌, ◌<◌, ◌≤◌, ◌^◌, ℕ, List, Option, Some};
ghost use Rattle.snap_demo.specs.declared.words.DemoWords.{DemoWords};
ghost use Rattle.snap_io.specs.Files.{Files};
ghost use Rattle.snap_io.specs.Outside.{Outside};
ghost use Rattle.snap_run.specs.Demonstrations.{Demonstrates, IsDemonstrated};
ghost use Rattle.snap_run.specs.Meaning.{a_demonstration, meaning};
ghost use Rattle.snap_run.specs.declared.status.Status.TheVariants.{AllPassed};
ghost use Rattle.snap_demo_laws.specs.Examples.{AreSnapshots, AreBytes};
ghost use Rattle.snap_demo_laws.specs.Fresh.{AreAbsent, PassesAll, ShowsAll};

/// A demonstration over files of which none stands at its paths: each request's snapshot stands at the end, all pass the second time, and
/// the bytes that are told are those of these snapshots.
pub const fn a_fresh_demonstration_passes()
    ensures { (words : DemoWords) (lines : List ℕ) (files : Files) (after : Option Files)
        → words.seed < 2 ^ 64 → words.count ≤ 10000 → AreAbsent 0 words.count files
        → IsDemonstrated words lines (Some files) after → PassesAll words lines after }
{}

/// The same of a run whose words ask for a demonstration, over a store that tells such files, by what `run` promises where all passed:
/// these words keep both numbers within their limits.
pub const fn a_fresh_run_passes()
    ensures { (words : List (List ℕ)) (said : DemoWords) (files : Files) (before after : Outside)
        → meaning words ≡ a_demonstration said → before.files ≡ Some files → AreAbsent 0 said.count files
        → Demonstrates AllPassed said before after → ShowsAll said before after }
{}

/// Snapshots, and how many bytes they have, worked out by hand.
pub const fn worked_examples()
    ensures snapshots { AreSnapshots }
    ensures bytes { AreBytes }
{}
