//! Laws of what an assertion rests on, and worked examples.
ghost use Rattle.std.specs.Prelude.{◌≡◌, ◌∷◌, ℕ, Bool, List, [], Option, Some, None, Ok, Err, true, false, codes, is_some};
ghost use Rattle.std.specs.BTreeMap.{insert_entry, is_at};
ghost use Rattle.std.specs.FinMap.{get};
ghost use Rattle.std.specs.Map.{lookup};
ghost use Rattle.snap_io.specs.Changes.{all_changed};
ghost use Rattle.snap_io.specs.Files.{Files};
ghost use Rattle.snap_store.specs.Agreement.{Agree};
ghost use Rattle.snap_store.specs.declared.contents.SnapshotContents.{SnapshotContents};
ghost use Rattle.snap_assert.specs.Blocks.{parts_of, keep_step};
ghost use Rattle.snap_assert.specs.Kept.{is_written, may_change};
ghost use Rattle.snap_assert.specs.LiteralHalts.{records_added};
ghost use Rattle.snap_assert.specs.LiteralNames.{literal_name_step};
ghost use Rattle.snap_assert.specs.Literals.{LiteralAssertion, has_record, line_if, literal_record, literal_step};
ghost use Rattle.snap_assert.specs.Names.{name_step};
ghost use Rattle.snap_assert.specs.Session.{SessionView, Block, block_cmp, empty_session, opened};
ghost use Rattle.snap_assert_place.specs.Place.{PlaceView};
ghost use Rattle.snap_assert_place.specs.SnapshotPath.{records_path};
ghost use Rattle.snap_assert_settings.specs.declared.config.Config.{Config};
ghost use Rattle.snap_assert_settings.specs.Settings.{new_settings};
ghost use Rattle.snap_assert.specs.Settling.{settling};
ghost use Rattle.snap_assert.specs.Steps.{Asked, pending_path, step};
ghost use Rattle.snap_assert.specs.Strays.{AreStrays};
ghost use Rattle.snap_assert.specs.declared.error.AssertError.TheVariants.{DuplicateDiffers, DoctestNeedsName, InlineDuplicate};
ghost use Rattle.snap_assert.specs.declared.error.DuplicateKey.{DuplicateKey};
ghost use Rattle.snap_assert_settings.specs.declared.config.Update.{Update};
ghost use Rattle.snap_assert_settings.specs.declared.config.Update.TheVariants.{InPlace, NewFile, NoUpdate};

/// In place alone the approved file is written, and in the mode `new` alone the pending file beside it; in no other mode
/// may the approved file change.
pub const fn only_in_place_is_the_approved_file_written()
    ensures approved { (path : List ℕ) → (may_change NewFile path path ≡ false)
        × (may_change NoUpdate path path ≡ false) }
    ensures waiting { (path : List ℕ) → (is_written InPlace path (pending_path path) ≡ false)
        × (is_written NoUpdate path (pending_path path) ≡ false) }
{}

/// The changes of an assertion, one after the other, come to the files of its step, where its strays are those of the files.
pub const fn the_changes_are_those_of_the_step()
    ensures { (mode : Update) (force : Bool) (asked : Asked) (passed : Bool)
        (strays : List (List ℕ)) (m : Files) → AreStrays asked.path m strays
        → all_changed (settling mode force asked passed strays) m
        ≡ step mode force asked passed m }
{}

/// The same of a literal, where it is seen whether the file of records is there.
pub const fn the_records_are_those_of_the_step()
    ensures { (config : Config) (a : LiteralAssertion) (name : Option (List ℕ))
        (passed there : Bool) (m : Files)
        → (passed ≡ true → there ≡ is_some (get m (records_path a.place)))
        → all_changed (records_added config.run_id a.place passed there
        (line_if (has_record config a.place passed) (literal_record config.run_id a name))) m
        ≡ literal_step config a name passed m }
{}

/// Where no block of duplicates is open, contents are not asked for. The innermost block keeps the contents that are asserted first
/// under a key; later ones go on where they agree with these, and are refused where they don't.
pub const fn a_block_keeps_the_first()
    ensures none_open { (key : DuplicateKey) (new : SnapshotContents) (s : SessionView)
        → s.blocks ≡ [] → keep_step key new s ≡ Ok s }
    ensures first { (key : DuplicateKey) (new : SnapshotContents) (s : SessionView) (block : Block)
        (outer : List Block) → s.blocks ≡ block ∷ outer
        → lookup (is_at (block_cmp (parts_of key))) block ≡ None
        → keep_step key new s
        ≡ Ok (record s { blocks = insert_entry block_cmp block (parts_of key) new ∷ outer }) }
    ensures agrees { (key : DuplicateKey) (new : SnapshotContents) (s : SessionView)
        (block : Block) (outer : List Block) (old : SnapshotContents) → s.blocks ≡ block ∷ outer
        → lookup (is_at (block_cmp (parts_of key))) block ≡ Some old → Agree old new
        → keep_step key new s ≡ Ok s }
    ensures differs { (key : DuplicateKey) (new : SnapshotContents) (s : SessionView)
        (block : Block) (outer : List Block) (old : SnapshotContents) → s.blocks ≡ block ∷ outer
        → lookup (is_at (block_cmp (parts_of key))) block ≡ Some old → (Agree old new → ⊥)
        → keep_step key new s ≡ Err (DuplicateDiffers key old new) }
{}

/// Names at concrete values: a given one, with a suffix or without, and the session stays; and those of a function, twice.
pub const fn worked_examples()
    ensures given { (place : PlaceView) (session : SessionView)
        → name_step new_settings place (Some (codes "one")) session
        ≡ Ok (record { name = codes "one"; session = session }) }
    ensures suffixed { (place : PlaceView) (session : SessionView)
        → name_step (record new_settings { suffix = Some (codes "x") }) place (Some (codes "one"))
        session
        ≡ Ok (record { name = codes "one@x"; session = session }) }
    ensures automatic { (place : PlaceView) → name_step new_settings
        (record place { function = codes "m::test_a"; module_name = codes "m" }) None empty_session
        ≡ Ok (record {
          name = codes "a";
          session = record {
            uses = ((codes "m", codes "a"), record { prefixed = Some true; count = 1 }) ∷ [];
            blocks = [];
            literals = [];
          };
        }) }
    ensures again { (place : PlaceView) → name_step new_settings
        (record place { function = codes "m::test_a"; module_name = codes "m" }) None
        (record empty_session
        { uses = ((codes "m", codes "a"), record { prefixed = Some true; count = 1 }) ∷ [] })
        ≡ Ok (record {
          name = codes "a-2";
          session = record {
            uses = ((codes "m", codes "a"), record { prefixed = Some true; count = 2 }) ∷ [];
            blocks = [];
            literals = [];
          };
        }) }
    ensures doctest { (place : PlaceView) → name_step new_settings
        (record place { function = codes "rust_out::main::_doctest_main" }) None empty_session
        ≡ Err DoctestNeedsName }
{}

/// Names of literals at concrete values: that of the function, and the literal is remembered; again it is refused; and in a doctest there
/// is none.
pub const fn literals_at_concrete_values()
    ensures named { (place : PlaceView) → literal_name_step new_settings
        (record place
        { function = codes "foo"; file = codes "a.rs"; line = 7; module_name = codes "m" })
        empty_session
        ≡ Ok (record {
          name = Some (codes "foo");
          session = record {
            uses = ((codes "m", codes "foo"), record { prefixed = Some false; count = 1 }) ∷ [];
            blocks = [];
            literals = (codes "foo", codes "a.rs", 7) ∷ [];
          };
        }) }
    ensures again { (place : PlaceView) → literal_name_step new_settings
        (record place { function = codes "foo"; file = codes "a.rs"; line = 7 })
        (record empty_session { literals = (codes "foo", codes "a.rs", 7) ∷ [] })
        ≡ Err InlineDuplicate }
    ensures doctest { (place : PlaceView) → literal_name_step new_settings
        (record place
        { function = codes "rust_out::main::_doctest_main"; file = codes "a.rs"; line = 7 })
        (opened empty_session)
        ≡ Ok (record { name = None; session = opened empty_session }) }
{}
