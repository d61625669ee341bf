//! The second process, from its start to its end.
use crate::{failing, links};
use rows_common::{Draft, Unmade};
use std::env;
use std::io::{BufRead, BufReader, Read};
use std::process::{Child, Command, Stdio};

/// What a server and its clients do while it runs, and the port that it had.
pub fn put_server(rt: &HostRuntime, draft: &mut Draft) -> Result<u16, Unmade> {
    let mut child = started(rt)?;
    let port = put_child(rt, draft, &mut child);
    end(&mut child);
    port
}

/// A server that has ended already is waited for alone.
fn end(child: &mut Child) {
    if child.kill().is_ok() {
        let _ = child.wait();
    }
}

fn started(rt: &HostRuntime) -> Result<Child, Unmade> {
    let mut command = command(rt)?;
    start(rt, &mut command)
}

/// This program once more.
fn command(rt: &HostRuntime) -> Result<Command, Unmade> {
    let program = env::current_exe(rt)?;
    Ok(Command::new(rt.alloc(), program)?)
}

fn start(rt: &HostRuntime, command: &mut Command) -> Result<Child, Unmade> {
    command.arg("serve")?;
    command
        .stdin(Stdio::null())
        .stdout(Stdio::piped())
        .stderr(Stdio::null());
    Ok(command.spawn(rt)?)
}

fn put_child(rt: &HostRuntime, draft: &mut Draft, child: &mut Child) -> Result<u16, Unmade> {
    let Some(output) = child.stdout.take() else {
        return Err(Unmade);
    };
    let mut lines = BufReader::new(rt.alloc(), output)?;
    put_lines(rt, draft, &mut lines)
}

/// The server says its port, and after the exchanges how each connection was served. It waits for as many connections as there are exchanges,
/// thus where one has failed nothing more is read.
fn put_lines<B: BufRead>(
    rt: &HostRuntime,
    draft: &mut Draft,
    lines: &mut B,
) -> Result<u16, Unmade> {
    let port = read_port(rt, lines)?;
    failing::put_taken(rt, draft, port);
    links::put_exchanges(rt, draft, port);
    draft.made()?;
    put_rest(rt, draft, lines)?;
    Ok(port)
}

fn read_port<B: BufRead>(rt: &HostRuntime, lines: &mut B) -> Result<u16, Unmade> {
    let mut line = String::new(rt.alloc());
    lines.read_line(&mut line)?;
    Ok(line.trim_end().parse::<u16>()?)
}

fn put_rest<B: BufRead>(rt: &HostRuntime, draft: &mut Draft, lines: &mut B) -> Result<(), Unmade> {
    let mut rest = String::new(rt.alloc());
    lines.read_to_string(&mut rest)?;
    draft.put(rest.as_str());
    Ok(())
}
