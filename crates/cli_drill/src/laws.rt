ghost use Rattle.std.specs.Prelude.{◌≡◌, ◌<◌, ◌*◌, ◌-◌, ℕ};
ghost use Rattle.trip_updates.specs.Message.{IsMessage};
ghost use Rattle.cli_drill.specs.Messages.{late_at, message_of, update_of};
ghost use Rattle.cli_drill.specs.Network.{side_of, start_of, stop_at, stop_count, trip_count};

/// The law that the bytes of each message are a message, and exactly of the update that the generator says.
pub fn drilled_messages()
    ensures { (seed message : ℕ) → message < 10 → IsMessage (message_of seed message) (update_of seed message) }
{}

/// Worked values of the drill of 1: how large it is, its first trips, and the first trips that are late.
pub fn worked_drill()
    ensures stops { stop_count (side_of 1) ≡ 36 }
    ensures trips { trip_count (side_of 1) ≡ 2592 }
    ensures connections { trip_count (side_of 1) * (side_of 1 - 1) ≡ 12_960 }
    ensures first_trip { start_of 0 ≡ 18_000 }
    ensures next_line { start_of 108 ≡ 18_420 }
    ensures down { stop_at 6 12 1 ≡ 6 }
    ensures back { stop_at 6 6 1 ≡ 4 }
    ensures late { late_at 1 0 0 ≡ record { trip = 1814; delay = 453 } }
    ensures second_late { late_at 1 0 1 ≡ record { trip = 1740; delay = 570 } }
{}
