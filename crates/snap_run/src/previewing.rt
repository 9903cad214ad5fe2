//! What the assertion of a document would answer. No file is touched.
ghost use Rattle.std.specs.Prelude.{◌≡◌, true, false, IfOk, IfErr};
ghost use Rattle.snap_assert.specs.Outcomes.{AssertCause};
ghost use Rattle.snap_assert.specs.Previews.{IsPreviewed, IsStoppedBefore};
ghost use Rattle.snap_assert.specs.Session.{session_of};
ghost use Rattle.snap_assert_place.specs.Place.{names_file};
ghost use Rattle.snap_run.specs.Answers.{assertion_by};
ghost use Rattle.snap_run.specs.Runner.{words_of};
ghost use Rattle.snap_run_requests.specs.RequestOf.{assertion_of};

use crate::documents::{given_name, place_of_request};
use crate::runner::Runner;
use snap_assert::error::AssertError;
use snap_assert::preview::{Preview, preview_content};
use snap_assert::session::Session;
use snap_assert_settings::settings::Settings;
use snap_io::Store;
use snap_run_requests::request::Assertion;
use std::alloc::Global;

/// Tells what the assertion that a document asks for would answer in a run with these words, and remembers what that would. No file is
/// touched.
pub fn preview_assertion<F: Store>(
    alloc: Global,
    runner: &Runner,
    session: &mut Session,
    assertion: Assertion,
    store: &mut F,
) -> Result<Preview, AssertError>
    requires { names_file assertion.file ≡ true }
    ensures previewed { IfOk result (λ preview. IsPreviewed runner.now.config.require_full_match
        (assertion_by (words_of runner.now) (assertion_of assertion)) preview
        (F.files store.old) (session_of session.old) (session_of session.new)) }
    ensures stopped { IfErr result (λ e. IsStoppedBefore
        (assertion_by (words_of runner.now) (assertion_of assertion)) e
        (session_of session.old) (session_of session.new)) }
    // Whatever is returned, the files are as they were.
    ensures same { F.files store.new ≡ F.files store.old }
    ensures cause { AssertCause (F.faults store.old) (F.faults store.new) result }
{
    let Assertion {
        module_name,
        file,
        line,
        name,
        function,
        suffix,
        expr,
        value,
        redactions,
        sort,
    } = assertion;
    let Ok(mut settings) = Settings::from_replacements(alloc, sort, redactions) else {
        drop(value);
        return Err(AssertError::OutOfMemory);
    };
    settings.set_snapshot_suffix(suffix);
    let Ok(place) = place_of_request(alloc, runner, function, module_name, file, line, expr) else {
        drop(settings);
        drop(value);
        return Err(AssertError::OutOfMemory);
    };
    let preview = preview_content(
        alloc,
        session,
        store,
        &runner.config,
        &settings,
        &place,
        given_name(&name),
        value,
    );
    drop(settings);
    drop(place);
    drop(name);
    preview
}
