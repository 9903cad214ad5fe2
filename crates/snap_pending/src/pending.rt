//! A literal that changed.
ghost use Rattle.std.specs.Prelude.{◌≡◌, option_map};
ghost use Rattle.std.specs.Str.{chars, bytes_eq};

use snap_content::Text;
use snap_store::Snapshot;

/// What is kept of a literal that changed.
#[derive(Debug, Drop)]
pub struct PendingInlineSnapshot {
    run_id: Text,
    line: u32,
    new_snapshot: Option<Snapshot>,
    old_snapshot: Option<Snapshot>,
}

impl PendingInlineSnapshot {
    ghost use Rattle.snap_store.specs.Views.{snapshot_of};
    ghost use Rattle.snap_pending.specs.Pending.{pending_of};

    /// The run that found it, the snapshot that was made, the one that stood there, and the line of the assertion.
    pub fn new(
        run_id: Text,
        new: Option<Snapshot>,
        old: Option<Snapshot>,
        line: u32,
    ) -> PendingInlineSnapshot
        ensures run { (pending_of result).run_id ≡ run_id }
        ensures line { (pending_of result).line ≡ line }
        ensures made { (pending_of result).new_snapshot ≡ option_map snapshot_of new }
        ensures stood { (pending_of result).old_snapshot ≡ option_map snapshot_of old }
    {
        PendingInlineSnapshot {
            run_id,
            line,
            new_snapshot: new,
            old_snapshot: old,
        }
    }

    pub fn run_id(&self) -> &str
        ensures { chars result.now ≡ (pending_of self.now).run_id }
    {
        self.run_id.as_str()
    }

    /// The line of the assertion in its source file.
    pub fn line(&self) -> u32
        ensures { result ≡ (pending_of self.now).line }
    {
        self.line
    }

    /// The snapshot that was made.
    pub fn new_snapshot(&self) -> Option<&Snapshot>
        ensures { option_map (λ held. snapshot_of held.now) result
            ≡ (pending_of self.now).new_snapshot }
    {
        self.new_snapshot.as_ref()
    }

    /// The snapshot that stood in the source.
    pub fn old_snapshot(&self) -> Option<&Snapshot>
        ensures { option_map (λ held. snapshot_of held.now) result
            ≡ (pending_of self.now).old_snapshot }
    {
        self.old_snapshot.as_ref()
    }

    /// Whether that run found it.
    pub(crate) fn is_of_run(&self, run_id: &Text) -> bool
        ensures { result ≡ bytes_eq (pending_of self.now).run_id run_id.now }
    {
        self.run_id == *run_id
    }
}
