//! Commands, one after the other.
ghost use Rattle.std.specs.Prelude.{◌≡◌, [], List, ℕ, IfOk, map};
ghost use Rattle.snap_content.specs.List.{items_of};
ghost use Rattle.snap_front.specs.Commands.{ReplyView, command_of, reply_of};
ghost use Rattle.snap_front.specs.Documents.{Docs};
ghost use Rattle.snap_front.specs.Kept.{AreAgain, IsLastPut, body_of};
ghost use Rattle.snap_front.specs.Runs.{AllRead, Runs, body_in};
ghost use Rattle.snap_front.specs.Stored.{docs_of};

use crate::command::Command;
use crate::reply::Replies;
use crate::store::FrontStore;
use snap_content::OutOfMemory;
use std::alloc::Global;

/// The documents after the commands, and the reply to each of them. At first there are no documents.
pub fn run_commands(
    alloc: Global,
    commands: &[Command],
) -> Result<(FrontStore, Replies), OutOfMemory>
    ensures runs { IfOk result (λ run. Runs [] (map command_of commands.now) (docs_of run.0)
        (map reply_of (items_of run.1))) }
    // Where each header that is put reads as a tree, there is no other run of these commands.
    ensures one { IfOk result (λ run. (docs : Docs) (replies : List ReplyView)
        → AllRead (map command_of commands.now)
        → Runs [] (map command_of commands.now) docs replies
        → (docs ≡ docs_of run.0) × (replies ≡ map reply_of (items_of run.1))) }
    // A body is that of the last document that was put under its name, whatever came between.
    ensures bodies { IfOk result (λ run. (name text : List ℕ)
        → IsLastPut name text (map command_of commands.now) (map reply_of (items_of run.1))
        → body_in name (docs_of run.0) ≡ body_of text) }
    // What is printed is put again, under any name, as the header and the body that it was printed of.
    ensures again { IfOk result (λ run. AreAgain (map reply_of (items_of run.1))) }
{
    let mut store = FrontStore::new(alloc);
    let mut replies = Replies::new(alloc);
    for command in commands {
        replies.push(store.apply(command)?)?;
    }
    Ok((store, replies))
}
