//! Laws of snapshots.
ghost use Rattle.std.specs.Prelude.{◌≡◌, ◌<◌, ◌^◌, ◌⊎◌, ℕ, List, Option, Some, Ok, IfSome, true};
ghost use Rattle.std.specs.FinMap.{get};
ghost use Rattle.snap_content.specs.Plain.{Plain, plain};
ghost use Rattle.snap_print.specs.Readable.{IsWithin};
ghost use Rattle.snap_print.specs.Blocks.{Blocks};
ghost use Rattle.snap_print.specs.Lines.{text_of};
ghost use Rattle.snap_print.specs.Printed.{is_trimmed};
ghost use Rattle.snap_text.specs.Normal.{normal};
ghost use Rattle.snap_store.specs.Agreement.{Agree};
ghost use Rattle.snap_io.specs.Files.{Files};
ghost use Rattle.snap_store.specs.Image.{file_of, saved_text, text_under, image};
ghost use Rattle.snap_store.specs.Meta.{Meta, header_tree, without_line};
ghost use Rattle.snap_store.specs.MetaTree.{TellsFields, meta_tree, without_nil_info};
ghost use Rattle.snap_store.specs.ReadBack.{IsOfText, IsReadBack, IsOfBinary, IsBinaryBack};
ghost use Rattle.snap_store.specs.Reading.{IsTextFile, IsReadAs, IsReadFrom, IsRefused};
ghost use Rattle.snap_store.specs.Saving.{sidecar_path};
ghost use Rattle.snap_store.specs.declared.contents.SnapshotContents.{SnapshotContents};
ghost use Rattle.snap_store.specs.declared.snapshot.Snapshot.{Snapshot};
ghost use Rattle.snap_content.specs.declared.error.Error.{Error};

/// Contents agree with themselves, and where they agree with others, these agree with them.
pub const fn agreement_goes_both_ways()
    ensures reflexive { (a : SnapshotContents) → Agree a a }
    ensures symmetric { (a b : SnapshotContents) → Agree a b → Agree b a }
{}

/// A text whose normal form is that of a printed tree is saved as the file of that tree, without the line of its assertion,
/// where the tree was printed for a place at which white space at the end is lost.
pub const fn an_agreeing_text_is_saved_as_the_tree()
    ensures { (meta : Meta) (raw : List ℕ) (w : Blocks) (p : Plain) → is_trimmed w ≡ true
        → IsWithin p → normal raw ≡ normal (text_of w p)
        → saved_text meta raw ≡ file_of (header_tree (without_line meta)) w p }
{}

/// What is saved of a text snapshot is read back: as its metadata, with the info as the tree that a reader makes of its plain form
/// and without a nil one, under a header that keeps no number as a text, and as the normal form of its text, which is a file's.
/// `save` writes the metadata without their line, `save_new` with it. Such a file is refused only where the store fails or
/// memory is out.
pub const fn saved_snapshots_are_read_back()
    ensures saved { (file : Option (List ℕ)) (meta : Meta) (raw : List ℕ) (snapshot : Snapshot)
        → IsOfText meta → IsTextFile file (saved_text meta raw) → IsReadAs file snapshot
        → IsReadBack (without_line meta) raw snapshot }
    ensures saved_refused { (path : List ℕ) (file : Option (List ℕ)) (meta : Meta) (raw : List ℕ)
        (e : Error) → IsOfText meta → IsTextFile file (saved_text meta raw)
        → IsRefused path file e → (e ≡ Error.FileIo path) ⊎ (e ≡ Error.OutOfMemory) }
    ensures pending { (file : Option (List ℕ)) (meta : Meta) (raw : List ℕ) (snapshot : Snapshot)
        → IsOfText meta → IsTextFile file (text_under meta raw) → IsReadAs file snapshot
        → IsReadBack meta raw snapshot }
    ensures pending_refused { (path : List ℕ) (file : Option (List ℕ)) (meta : Meta) (raw : List ℕ)
        (e : Error) → IsOfText meta → IsTextFile file (text_under meta raw)
        → IsRefused path file e → (e ≡ Error.FileIo path) ⊎ (e ≡ Error.OutOfMemory) }
{}

/// What is saved of a binary snapshot is read back where the file and the payload beside it stand: as its metadata, by the same rule
/// as those of a text, and as that payload.
pub const fn saved_binaries_are_read_back()
    ensures saved { (path extension payload : List ℕ) (m : Files) (meta : Meta)
        (snapshot : Snapshot) → IsOfBinary meta extension
        → IsTextFile (get m path) (image (without_line meta) (SnapshotContents.Binary (Some payload)))
        → get m (sidecar_path path extension) ≡ Some payload
        → IsReadFrom path (Some m) (Ok snapshot)
        → IsBinaryBack (without_line meta) payload snapshot }
    ensures pending { (path extension payload : List ℕ) (m : Files) (meta : Meta)
        (snapshot : Snapshot) → IsOfBinary meta extension
        → IsTextFile (get m path) (image meta (SnapshotContents.Binary (Some payload)))
        → get m (sidecar_path path extension) ≡ Some payload
        → IsReadFrom path (Some m) (Ok snapshot) → IsBinaryBack meta payload snapshot }
{}

/// The tree that metadata are made as tells them again, but for a nil info.
pub const fn metadata_are_read_back()
    ensures { (meta : Meta) → IfSome meta.assertion_line (λ line. line < 2 ^ 32)
        → TellsFields (meta_tree meta) (without_nil_info meta) }
{}

/// A header is printed of the plain form of that tree.
pub const fn a_header_is_the_plain_form()
    ensures { (meta : Meta) → plain (meta_tree meta) ≡ header_tree meta }
{}
