//! What the second process does.
ghost use Rattle.std.specs.Prelude.{◌≡◌, ◌≤◌, IfSome, IsTrue};

use lc_edge::TcpDoor;
use lc_io::{Door, EchoTalk, Next, Served, serve_one};
use rows_common::Unmade;
use std::process;

/// The ports that are tried begin at one of so many from the first one on, by the number of the process. Programs that run side by
/// side seldom meet.
const FIRST_PORT: u16 = 20_000;

const PORTS: u32 = 10_000;

/// How many ports are tried.
const TRIES: u16 = 100;

/// How many bytes each client gets back, at most.
const LIMITS: [u32; 4] = [5, 5, 0, 20_000];

/// Serves these clients at the first free port. It prints the port, a line for each client, and how often the door has failed.
pub fn serve(rt: &HostRuntime) -> Result<(), Unmade> {
    let mut door = TcpDoor::new(rt);
    serve_at(rt, &mut door)
}

fn serve_at<D: Door>(rt: &HostRuntime, door: &mut D) -> Result<(), Unmade> {
    let Some(port) = opened(door, process::id(rt.process())) else {
        return Err(Unmade);
    };
    println!(rt; "{port}")?;
    serve_all(rt, door)?;
    print_counts(rt, door.broken(), door.faults())
}

fn print_counts(rt: &HostRuntime, broken: u64, faults: u64) -> Result<(), Unmade> {
    println!(rt; "server broken: {broken}\nserver faults: {faults}")?;
    Ok(())
}

/// Opens the door at the first port that is free.
fn opened<D: Door>(door: &mut D, process: u32) -> Option<u16>
    ensures { IfSome result (λ _. IsTrue (D.seen door.new).listens) }
{
    let first = FIRST_PORT + (process % PORTS) as u16;
    for port in first..first + TRIES {
        if door.listen(port).is_ok() {
            return Some(port);
        }
    }
    None
}

fn serve_all<D: Door>(rt: &HostRuntime, door: &mut D) -> Result<(), Unmade>
    requires { IsTrue (D.seen door.old).listens }
{
    'clients: for limit in &LIMITS {
        serve_next(rt, door, *limit)?;
    }
    Ok(())
}

fn serve_next<D: Door>(rt: &HostRuntime, door: &mut D, limit: u32) -> Result<(), Unmade>
    requires { IsTrue (D.seen door.old).listens }
    ensures { (D.seen door.new).listens ≡ (D.seen door.old).listens }
{
    match door.next() {
        Ok(Next::Connection) => serve_client(rt, door, limit),
        _ => Err(Unmade),
    }
}

fn serve_client<D: Door>(rt: &HostRuntime, door: &mut D, limit: u32) -> Result<(), Unmade>
    requires { IsTrue (D.seen door.old).connected }
    ensures { (D.seen door.new).listens ≡ (D.seen door.old).listens }
{
    let mut talk = EchoTalk::new(rt.alloc(), limit.min(20_000));
    let served = serve_one(rt.alloc(), &mut talk, door);
    door.hang_up();
    print_served(rt, served?)
}

fn print_served(rt: &HostRuntime, served: Served) -> Result<(), Unmade> {
    let Served { requests, fault } = served;
    println!(rt; "served: {requests}, fault: {fault}")?;
    Ok(())
}
