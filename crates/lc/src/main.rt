//! The program `lc`: it runs the command of its arguments over the system's files, output and sockets. It builds on `lc_cli`.
#![tactic(auto)]

mod words;

use lc_cli::{Status, code, refuse, run};
use lc_edge::{DirFolder, StdSink, TcpDoor, TcpLink};
use std::process::ExitCode;
use words::words_of;

fn main(rt: HostRuntime) -> ExitCode {
    let mut out = StdSink::new(&rt);
    ExitCode::from(code(&carried_out(&rt, &mut out)))
}

/// Carries out the command that the arguments of the command line say, and gives the status with which it ended.
fn carried_out(rt: &HostRuntime, out: &mut StdSink<HostRuntime>) -> Status {
    let alloc = rt.alloc();
    let words = match words_of(rt) {
        Ok(words) => words,
        Err(refusal) => return refuse(alloc, refusal, out),
    };
    let mut folder = DirFolder::new(rt);
    let mut door = TcpDoor::new(rt);
    let (status, _) = run(alloc, &words, &mut folder, TcpLink::new(rt), &mut door, out);
    status
}
