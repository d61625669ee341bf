ghost use Rattle.std.specs.Prelude.{◌≡◌, Some};
ghost use Rattle.trip_updates.specs.declared.fault.RtFault.TheVariants.{NoMemory as OutOfMemory};
ghost use Rattle.trip_updates.specs.Texts.{part_text, fault_text};
ghost use Rattle.trip_updates.specs.Wire.{wire};

use lc_model::NoMemory;
use rt_protobuf::WireFault;
use std::alloc::{AllocError, AllocFailed};
use std::error::Error;
use std::fmt;

/// A part of a message that may be missing or be there twice.
#[derive(Clone, Copy, Debug, PartialEq, Eq)]
pub enum Part {
    Header,
    Version,
    Id,
    Trip,
    TripUpdate,
    Arrival,
    Departure,
}

impl fmt::Display for Part {
    ghost output = { λ part. Some (part_text part) };

    fn fmt<W: fmt::Write>(&self, f: &mut fmt::Formatter<W>) -> fmt::Result {
        match self {
            Part::Header => f.write_str("header"),
            Part::Version => f.write_str("version"),
            Part::Id => f.write_str("id"),
            Part::Trip => f.write_str("trip"),
            Part::TripUpdate => f.write_str("trip_update"),
            Part::Arrival => f.write_str("arrival"),
            Part::Departure => f.write_str("departure"),
        }
    }
}

/// The first fault of bytes that are no message. A place is the offset, in the whole message, of the tag of the field in
/// which the fault is.
#[derive(Clone, Copy, Debug, PartialEq, Eq)]
pub enum RtFault {
    /// The bytes of the message in hand end within a field.
    Cut { place: usize },
    /// The tenth byte of a varint has its top bit set.
    LongVarint { place: usize },
    /// A group begins or ends.
    Group { place: usize },
    /// A field has a wire type or a number that there is not.
    BadField { place: usize },
    /// The header, its version, the id of an entity or the trip of a trip update is absent.
    Missing { field: Part },
    /// The timestamp of the header is absent, or no moment.
    NoMoment,
    /// A part is there a second time in one message.
    Repeated { field: Part },
    /// There was not enough memory.
    NoMemory,
}

impl fmt::Display for RtFault {
    ghost output = { λ fault. Some (fault_text fault) };

    fn fmt<W: fmt::Write>(&self, f: &mut fmt::Formatter<W>) -> fmt::Result {
        match self {
            RtFault::Cut { place } => write!(f, "cut {place}"),
            RtFault::LongVarint { place } => write!(f, "varint {place}"),
            RtFault::Group { place } => write!(f, "group {place}"),
            RtFault::BadField { place } => write!(f, "field {place}"),
            RtFault::Missing { field } => write!(f, "missing {field}"),
            RtFault::NoMoment => f.write_str("no moment"),
            RtFault::Repeated { field } => write!(f, "repeated {field}"),
            RtFault::NoMemory => f.write_str("no memory"),
        }
    }
}

impl Error for RtFault {}

impl From<WireFault> for RtFault {
    ghost from_gives = { λ fault result. result ≡ wire fault };

    fn from(fault: WireFault) -> RtFault {
        match fault {
            WireFault::Cut { place } => RtFault::Cut { place },
            WireFault::LongVarint { place } => RtFault::LongVarint { place },
            WireFault::Group { place } => RtFault::Group { place },
            WireFault::BadField { place } => RtFault::BadField { place },
        }
    }
}

impl From<AllocError> for RtFault {
    ghost from_gives = { λ _ result. result ≡ OutOfMemory };

    fn from(_: AllocError) -> RtFault {
        RtFault::NoMemory
    }
}

impl<T: Drop> From<AllocFailed<T>> for RtFault {
    ghost from_gives = { λ _ result. result ≡ OutOfMemory };

    fn from(_: AllocFailed<T>) -> RtFault {
        RtFault::NoMemory
    }
}

impl From<NoMemory> for RtFault {
    ghost from_gives = { λ _ result. result ≡ OutOfMemory };

    fn from(_: NoMemory) -> RtFault {
        RtFault::NoMemory
    }
}
