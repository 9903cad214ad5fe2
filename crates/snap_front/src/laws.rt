//! What the definitions promise by themselves.
ghost use Rattle.std.specs.Prelude.{◌≡◌, List, ℕ, Some};
ghost use Rattle.snap_content.specs.Plain.{Entries, content_of, dict};
ghost use Rattle.snap_content.specs.Tree.{Tree};
ghost use Rattle.snap_print.specs.Readable.{IsWithin};
ghost use Rattle.snap_front.specs.Commands.{CommandView, ReplyView, done, puts};
ghost use Rattle.snap_front.specs.Documents.{Docs, with_document};
ghost use Rattle.snap_front.specs.Heads.{printed_of};
ghost use Rattle.snap_front.specs.Runs.{AllRead, Comes, NonePut, Runs, body_in};
ghost use Rattle.snap_front.specs.TreePaths.{get_tree, set_tree};
ghost use Rattle.snap_front.specs.declared.step.Step.{Step};

use snap_print::laws::printed_lines_are_rows;

/// What is set at a path is found there.
pub const fn what_is_set_is_found()
    ensures { (path : List Step) (v c out : Tree) → set_tree path v c ≡ Some out
        → get_tree path out ≡ Some v }
{}

/// A body stays until another document is put under its name, whatever other commands come between.
pub const fn bodies_stay()
    ensures { (before after : Docs) (commands : List CommandView) (replies : List ReplyView)
        (name : List ℕ) → Runs before commands after replies → NonePut name commands replies
        → body_in name after ≡ body_in name before }
{}

/// Where each header that is put reads as a tree, commands have one run: the same replies, and the same documents after them.
pub const fn commands_have_one_run()
    ensures { (before after other : Docs) (commands : List CommandView) (xs ys : List ReplyView)
        → AllRead commands → Runs before commands after xs → Runs before commands other ys
        → (after ≡ other) × (xs ≡ ys) }
{}

/// A printed document, of a header that is a map whose numbers have 128 bits, is put again, under any name, as that header and body.
pub const fn printed_documents_are_put_again()
    ensures { (docs : Docs) (name body : List ℕ) (es : Entries) (after : Docs × ReplyView)
        → IsWithin (dict es)
        → Comes docs (puts name (printed_of (content_of (dict es)) body)) after
        → after ≡ (with_document name (record { head = content_of (dict es); body = body }) docs, done) }
{
    printed_lines_are_rows();
}
