//! A demonstration: requests of the program's own, run twice.
ghost use Rattle.std.specs.Prelude.{◌≡◌, ◌<◌, ◌≤◌, ◌^◌, [], length, IfOk, IfErr};
ghost use Rattle.snap_demo.specs.Stream.{demo_documents, demo_input};
ghost use Rattle.snap_io.specs.Causes.{Counted, CountedIf};
ghost use Rattle.snap_io.specs.Outside.{outside};
ghost use Rattle.snap_run.specs.Answers.{demo_run};
ghost use Rattle.snap_run.specs.Demonstrations.{RanOnce, RanTwice, IsHeldIn, TellsHeld, StopsIn, StopsRun, ReadingStops, IsDemonstrated, DemoStops, Demonstrates, IsDemoStatus};
ghost use Rattle.snap_run.specs.Runner.{words_of};
ghost use Rattle.snap_run.specs.Status.{says_file_fault, says_write_fault};

use crate::documents::run_documents;
use crate::quiet::Quiet;
use crate::runner::Runner;
use crate::status::Status;
use crate::usage::tell;
use snap_assert::session::Session;
use snap_assert_settings::config::{Flags, Update};
use snap_content::{OutOfMemory, Text};
use snap_demo::{DemoWords, HeldError, bytes_held, demo_input, demo_lines};
use snap_io::{Sink, Store};
use std::alloc::Global;

/// The workspace and the mode of a demonstration.
fn demo_runner(alloc: Global) -> Result<Runner, OutOfMemory>
    ensures { IfOk result (λ runner. words_of runner ≡ demo_run) }
{
    let workspace = Text::from_ascii(alloc, "demo")?;
    let flags = Flags {
        force_update: false,
        force_pass: false,
        full: false,
        literal: false,
    };
    Runner::new(alloc, &workspace, Update::InPlace, flags)
}

/// Runs the requests of a demonstration in a new session, without a line. How many passed.
fn run_once<F: Store>(
    alloc: Global,
    runner: &Runner,
    words: DemoWords,
    input: &[u8],
    store: &mut F,
) -> Result<u64, Status>
    requires runner { words_of runner.now ≡ demo_run }
    requires input { input.now ≡ demo_input words.seed words.count }
    requires seed { words.seed < 2 ^ 64 }
    requires few { words.count ≤ 10000 }
    requires short { length input.now < 2 ^ 63 }
    ensures ran { IfOk result (λ passed. RanOnce passed (demo_documents words.seed words.count)
        (F.files store.old) (F.files store.new)) }
    ensures stopped { IfErr result (λ status. StopsRun status
        (demo_documents words.seed words.count) (F.files store.old) (F.files store.new)) }
    ensures status { IfErr result (λ status. IsDemoStatus words.count status) }
    ensures untouched { words.count ≡ 0 → store.new ≡ store.old }
    ensures cause { Counted says_file_fault (F.faults store.old) (F.faults store.new) result }
{
    let mut session = Session::new(alloc);
    match run_documents(alloc, runner, &mut session, input, &mut Quiet, store) {
        Ok(tally) => Ok(tally.passed),
        Err(status) => Err(status),
    }
}

/// Runs the requests, and once more over what that left. How many passed the second time.
fn run_twice<F: Store>(
    alloc: Global,
    runner: &Runner,
    words: DemoWords,
    input: &[u8],
    store: &mut F,
) -> Result<u64, Status>
    requires runner { words_of runner.now ≡ demo_run }
    requires input { input.now ≡ demo_input words.seed words.count }
    requires seed { words.seed < 2 ^ 64 }
    requires few { words.count ≤ 10000 }
    requires short { length input.now < 2 ^ 63 }
    ensures ran { IfOk result (λ passed. RanTwice passed (demo_documents words.seed words.count)
        (F.files store.old) (F.files store.new)) }
    ensures stopped { IfErr result (λ status. StopsIn status words (F.files store.old)
        (F.files store.new)) }
    ensures status { IfErr result (λ status. IsDemoStatus words.count status) }
    ensures untouched { words.count ≡ 0 → store.new ≡ store.old }
    ensures cause { Counted says_file_fault (F.faults store.old) (F.faults store.new) result }
{
    match run_once(alloc, runner, words, input, store) {
        Ok(_) => run_once(alloc, runner, words, input, store),
        Err(status) => Err(status),
    }
}

/// How many bytes the files of the requests have.
fn size_of_files<F: Store>(alloc: Global, count: u32, store: &mut F) -> Result<u128, Status>
    ensures held { IfOk result (λ total. IsHeldIn total count (F.files store.old)) }
    ensures stopped { IfErr result (λ status. ReadingStops count status) }
    ensures same { F.files store.new ≡ F.files store.old }
    ensures untouched { count ≡ 0 → store.new ≡ store.old }
    ensures cause { Counted says_file_fault (F.faults store.old) (F.faults store.new) result }
{
    match bytes_held(alloc, count, store) {
        Ok(total) => Ok(total),
        Err(HeldError::FileIo { request, path }) => Err(Status::FileIo {
            document: request,
            path,
        }),
        Err(HeldError::OutOfMemory) => Err(Status::OutOfMemory),
    }
}

/// What a demonstration says of requests that were run twice.
fn lines_of_files<F: Store>(
    alloc: Global,
    count: u32,
    passed: u64,
    store: &mut F,
) -> Result<Text, Status>
    ensures lines { IfOk result (λ lines. TellsHeld lines count passed (F.files store.old)) }
    ensures stopped { IfErr result (λ status. ReadingStops count status) }
    ensures same { F.files store.new ≡ F.files store.old }
    ensures untouched { count ≡ 0 → store.new ≡ store.old }
    ensures cause { Counted says_file_fault (F.faults store.old) (F.faults store.new) result }
{
    match size_of_files(alloc, count, store) {
        Ok(total) => match demo_lines(alloc, count, passed, total) {
            Ok(lines) => Ok(lines),
            Err(_) => Err(Status::OutOfMemory),
        },
        Err(status) => Err(status),
    }
}

/// The work of a demonstration over the bytes of its requests, and the lines that tell of it.
fn work_on<F: Store>(
    alloc: Global,
    runner: &Runner,
    words: DemoWords,
    input: &[u8],
    store: &mut F,
) -> Result<Text, Status>
    requires runner { words_of runner.now ≡ demo_run }
    requires input { input.now ≡ demo_input words.seed words.count }
    requires seed { words.seed < 2 ^ 64 }
    requires few { words.count ≤ 10000 }
    requires short { length input.now < 2 ^ 63 }
    ensures done { IfOk result (λ lines. IsDemonstrated words lines (F.files store.old)
        (F.files store.new)) }
    ensures stopped { IfErr result (λ status. DemoStops status words (F.files store.old)
        (F.files store.new)) }
    ensures untouched { words.count ≡ 0 → store.new ≡ store.old }
    ensures cause { Counted says_file_fault (F.faults store.old) (F.faults store.new) result }
{
    match run_twice(alloc, runner, words, input, store) {
        Ok(passed) => lines_of_files(alloc, words.count, passed, store),
        Err(status) => Err(status),
    }
}

/// The work of a demonstration, and the lines that tell of it.
fn demonstrated<F: Store>(alloc: Global, words: DemoWords, store: &mut F) -> Result<Text, Status>
    requires seed { words.seed < 2 ^ 64 }
    requires few { words.count ≤ 10000 }
    ensures done { IfOk result (λ lines. IsDemonstrated words lines (F.files store.old)
        (F.files store.new)) }
    ensures stopped { IfErr result (λ status. DemoStops status words (F.files store.old)
        (F.files store.new)) }
    ensures untouched { words.count ≡ 0 → store.new ≡ store.old }
    ensures cause { Counted says_file_fault (F.faults store.old) (F.faults store.new) result }
{
    let Ok(runner) = demo_runner(alloc) else {
        return Err(Status::OutOfMemory);
    };
    let Ok(input) = demo_input(alloc, words.seed, words.count) else {
        return Err(Status::OutOfMemory);
    };
    work_on(alloc, &runner, words, input.as_str().as_bytes(), store)
}

/// Makes the requests of a demonstration, runs them twice in place in the workspace `demo`, each time in a new session and without
/// their lines, and then writes three lines: how many requests there were, how many passed the second time, and how many bytes their
/// files have.
pub(crate) fn demo<K: Sink, F: Store>(
    alloc: Global,
    words: DemoWords,
    sink: &mut K,
    store: &mut F,
) -> Status
    requires seed { words.seed < 2 ^ 64 }
    requires few { words.count ≤ 10000 }
    ensures demonstrated { Demonstrates result words
        (outside (F.files store.old) (K.written sink.old))
        (outside (F.files store.new) (K.written sink.new)) }
    ensures untouched { words.count ≡ 0 → store.new ≡ store.old }
    ensures write { CountedIf (says_write_fault result) (K.faults sink.old) (K.faults sink.new) }
    ensures file { CountedIf (says_file_fault result) (F.faults store.old) (F.faults store.new) }
{
    match demonstrated(alloc, words, store) {
        Ok(lines) => tell(lines.as_str(), sink),
        Err(status) => status,
    }
}
