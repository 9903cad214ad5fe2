//! What the documents of a run share.
ghost use Rattle.std.specs.Prelude.{◌≡◌, IfOk};

use snap_assert_settings::config::{Config, Flags, Update};
use snap_content::{OutOfMemory, Text};
use std::alloc::Global;

/// The workspace and the mode of a run.
#[derive(Debug, Drop)]
pub struct Runner {
    pub workspace: Text,
    pub config: Config,
}

impl Runner {
    ghost use Rattle.snap_run.specs.Answers.{words_at};
    ghost use Rattle.snap_run.specs.Runner.{words_of};

    /// A run below this workspace, with this mode and these flags.
    pub fn new(
        alloc: Global,
        workspace: &Text,
        update: Update,
        flags: Flags,
    ) -> Result<Runner, OutOfMemory>
        ensures words { IfOk result (λ runner. words_of runner
            ≡ words_at workspace.now update flags) }
    {
        let config = Config {
            update,
            force_update: flags.force_update,
            require_full_match: flags.full,
            force_pass: flags.force_pass,
            literal: flags.literal,
            run_id: Text::empty(),
        };
        let workspace = workspace.try_clone(alloc)?;
        Ok(Runner { workspace, config })
    }
}
