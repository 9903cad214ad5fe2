//! The program: the system's words, streams and files, handed to `program`.
#![tactic(auto)]

use snap_explain::program;
use snap_io::{FolderStore, StreamSink, StreamSource};
use std::env;
use std::process::ExitCode;

fn main(rt: HostRuntime) -> ExitCode {
    ExitCode::from(program(
        rt.alloc(),
        env::args(&rt),
        &mut StreamSource::new(rt.stdin()),
        &mut StreamSink::new(rt.stdout()),
        &mut FolderStore::new(&rt),
    ))
}
