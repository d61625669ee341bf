use lc_io::{DoorFail, SinkFail};

/// What serving ended by, before its end.
#[derive(Clone, Copy, PartialEq, Eq)]
pub enum Stop {
    Door,
    Sink,
    NoMemory,
}

impl From<DoorFail> for Stop {
    ghost use Rattle.std.specs.Prelude.{◌≡◌};
    ghost use Rattle.cli_serve.specs.Stop.{stop_of_door};

    ghost from_gives = { λ fail stop. stop ≡ stop_of_door fail };

    fn from(fail: DoorFail) -> Stop {
        match fail {
            DoorFail::Failed => Stop::Door,
            DoorFail::NoMemory => Stop::NoMemory,
        }
    }
}

impl From<SinkFail> for Stop {
    ghost use Rattle.std.specs.Prelude.{◌≡◌};
    ghost use Rattle.cli_serve.specs.Stop.{stop_of_sink};

    ghost from_gives = { λ fail stop. stop ≡ stop_of_sink fail };

    fn from(fail: SinkFail) -> Stop {
        match fail {
            SinkFail::Failed => Stop::Sink,
            SinkFail::NoMemory => Stop::NoMemory,
        }
    }
}
