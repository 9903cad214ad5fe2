//! The program: the system's words, standard output and files, handed to `program`.
#![tactic(auto)]

use snap_io::{FolderStore, StreamSink};
use snap_review::program;
use std::env;
use std::process::ExitCode;

fn main(rt: HostRuntime) -> ExitCode {
    ExitCode::from(program(
        rt.alloc(),
        env::args(&rt),
        &mut StreamSink::new(rt.stdout()),
        &mut FolderStore::new(&rt),
    ))
}
