ghost use Rattle.std.specs.Prelude.{◌≤◌};

use fragmenter::Cutting;
use publisher::Publisher;

/// What is served: a publisher at a port, to so many connections, after the line of its message, if it has one.
#[derive(Drop)]
pub struct Server {
    pub publisher: Publisher<Cutting>,
    pub line: Vec<u8>,
    pub port: u16,
    pub connections: u32,
    pub ghost some_connections: { 1 ≤ connections },
    pub ghost most_connections: { connections ≤ 1_000_000 },
}
