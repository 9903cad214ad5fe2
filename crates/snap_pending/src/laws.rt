//! What definitions promise by themselves.
ghost use Rattle.std.specs.Prelude.{◌≡◌, All, List, ℕ, Some, map, encode_utf8_all};
ghost use Rattle.std.specs.List.{flat_map};
ghost use Rattle.snap_content.specs.declared.error.Error.{Error as ErrorSeen};
ghost use Rattle.snap_content.specs.declared.error.Error.TheVariants.{OutOfMemory};
ghost use Rattle.snap_json.specs.JsonPlain.{json_plain};
ghost use Rattle.snap_pending.specs.Back.{IsBack, AreBack, HasShortLines, HasTexts, IsReadable};
ghost use Rattle.snap_pending.specs.Batches.{batch_of};
ghost use Rattle.snap_pending.specs.Loaded.{IsBatch, HasRefusedLine};
ghost use Rattle.snap_pending.specs.Pending.{Pending};
ghost use Rattle.snap_pending.specs.Record.{record_of, record_line};
ghost use Rattle.snap_pending.specs.Told.{TellsRecord, RecordRefused};

/// What JSON keeps of a record tells the record again, with its info as JSON keeps it, and its texts as those of literals.
pub const fn a_saved_record_tells_itself()
    ensures { (pending back : Pending) → HasShortLines pending
        → TellsRecord (json_plain (record_of pending)) back → IsBack pending back }
{}

/// What JSON keeps of a record of texts is refused for no other reason than that memory is out.
pub const fn a_saved_record_is_not_refused()
    ensures { (pending : Pending) (error : ErrorSeen) → HasShortLines pending → HasTexts pending
        → RecordRefused (json_plain (record_of pending)) error → error ≡ OutOfMemory }
{}

/// The batch of a file that is the lines of records is that of those records, each as it is read back; and where they are records
/// of texts no line refuses the file.
pub const fn saved_records_are_loaded_back()
    ensures loaded { (saved batch : List Pending) → All IsReadable saved
        → IsBatch (Some (flat_map encode_utf8_all (map record_line saved))) batch
        → (back : List Pending) × AreBack saved back × (batch ≡ batch_of back) }
    ensures accepted { (saved : List Pending) (path : List ℕ) (error : ErrorSeen)
        → All IsReadable saved → All HasTexts saved
        → HasRefusedLine path (Some (flat_map encode_utf8_all (map record_line saved))) error
        → error ≡ OutOfMemory }
{}
