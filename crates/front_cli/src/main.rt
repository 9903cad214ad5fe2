//! The program: the system's words and streams, handed to `program`.
#![tactic(auto)]

use snap_front::program;
use snap_io::{StreamSink, StreamSource};
use std::env;
use std::process::ExitCode;

fn main(rt: HostRuntime) -> ExitCode {
    ExitCode::from(program(
        rt.alloc(),
        env::args(&rt),
        &mut StreamSource::new(rt.stdin()),
        &mut StreamSink::new(rt.stdout()),
    ))
}
