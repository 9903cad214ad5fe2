//! Laws of a run, and worked examples.
ghost use Rattle.std.specs.Prelude.{◌≡◌, ◌∷◌, ℕ, List, [], None, Some, false, true, codes, if◌then◌else◌};
ghost use Rattle.snap_run.specs.Answers.{Answer, RunWords, are_flags, flags_mean, flags_told, some_fails, text_asked, words_mean};
ghost use Rattle.snap_assert_settings.specs.declared.config.Update.TheVariants.{InPlace, NoUpdate};

/// Where the mode writes in place no answer fails, so a run does not end with failures.
pub const fn nothing_fails_in_place()
    ensures { (words : RunWords) (answers : List Answer) → words.update ≡ InPlace
        → some_fails words answers ≡ false }
{}

/// Words are flags where each is one and none stands twice; then those are set that stand among them.
pub const fn flags_are_what_stands()
    ensures { (words : List (List ℕ)) → flags_mean words
        ≡ (if are_flags words then Some (flags_told words) else None) }
{}

/// Words at concrete values.
pub const fn worked_examples()
    ensures version { text_asked (codes "--version" ∷ []) ≡ Some (codes "snap 0.1.0\n") }
    ensures literal { words_mean (codes "run" ∷ codes "inplace" ∷ codes "w" ∷ codes "--literal"
        ∷ codes "--force" ∷ []) ≡ Some (record {
          workspace = codes "w";
          update = InPlace;
          force_update = true;
          force_pass = false;
          full = false;
          literal = true;
        }) }
    ensures twice { words_mean (codes "run" ∷ codes "inplace" ∷ codes "w" ∷ codes "--literal"
        ∷ codes "--literal" ∷ []) ≡ None }
    ensures full { words_mean (codes "run" ∷ codes "no" ∷ codes "w" ∷ codes "--full" ∷ [])
        ≡ Some (record {
          workspace = codes "w";
          update = NoUpdate;
          force_update = false;
          force_pass = false;
          full = true;
          literal = false;
        }) }
    ensures full_twice { words_mean (codes "run" ∷ codes "no" ∷ codes "w" ∷ codes "--full"
        ∷ codes "--force" ∷ codes "--full" ∷ []) ≡ None }
{}
