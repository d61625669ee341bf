ghost use Rattle.std.specs.Prelude.{◌≡◌, ◌≤◌, ◌<◌, ◌*◌, ◌+◌};
ghost use Rattle.cli_drill.specs.Network.{arrives_at, side_of, start_of, stop_at};

/// How many stops a row of the square has, by the seed.
pub(crate) fn side_of(seed: u32) -> u32
    ensures side { result ≡ side_of seed }
    ensures at_least { 5 ≤ result }
    ensures at_most { result ≤ 30 }
{
    5 + seed % 26
}

/// The stop of a line at a place.
pub(crate) fn stop_at(side: u32, line: u32, place: u32) -> u32
    requires at_least { 5 ≤ side }
    requires at_most { side ≤ 30 }
    requires on_it { place < side }
    ensures { result ≡ stop_at side line place }
{
    let along = line % side;
    match line / side {
        0 => along * side + place,
        1 => along * side + (side - 1 - place),
        2 => place * side + along,
        _ => (side - 1 - place) * side + along,
    }
}

/// The seconds of the day at which a trip arrives at a place.
pub(crate) fn arrives_at(trip: u32, place: u32) -> u32
    requires trip { trip < 12_960 }
    requires place { place < 30 }
    ensures value { result ≡ arrives_at trip place }
    ensures below { result + 30 < 360_000 }
{
    18_000 + 600 * (trip % 108) + 60 * ((7 * (trip / 108)) % 10) + 180 * place
}
