ghost use Rattle.std.specs.Prelude.{◌≡◌, Some};
ghost use Rattle.page_json.specs.declared.object_members.fault.PageFault.TheVariants.{NoMemory as OutOfMemory};
ghost use Rattle.page_json.specs.ObjectMembers.Texts.{fault_text};

use lc_model::{NoMemory, PlainData, Text};
use std::alloc::{AllocError, AllocFailed, Global};
use std::error::Error;
use std::fmt;

/// The first fault of bytes that are no page, or no stops document.
#[derive(Drop)]
pub enum PageFault {
    /// The bytes are no JSON text (RFC 8259), or one that nests too deep.
    NotJson,
    /// A member that is needed is missing.
    NoMember { name: Text },
    /// A member has another form than is asked.
    BadMember { name: Text },
    /// The item at this place of a list, counted from 0, does not come after the one before it.
    NotOrdered { place: usize },
    /// There was not enough memory.
    NoMemory,
}

impl PlainData for PageFault {
    fn copy(&self, alloc: Global) -> Result<PageFault, NoMemory> {
        Ok(match self {
            PageFault::NotJson => PageFault::NotJson,
            PageFault::NoMember { name } => PageFault::NoMember {
                name: name.copy(alloc)?,
            },
            PageFault::BadMember { name } => PageFault::BadMember {
                name: name.copy(alloc)?,
            },
            PageFault::NotOrdered { place } => PageFault::NotOrdered { place: *place },
            PageFault::NoMemory => PageFault::NoMemory,
        })
    }
}

impl fmt::Display for PageFault {
    ghost output = { λ fault. Some (fault_text fault) };

    fn fmt<W: fmt::Write>(&self, f: &mut fmt::Formatter<W>) -> fmt::Result {
        match self {
            PageFault::NotJson => write!(f, "not JSON"),
            PageFault::NoMember { name } => write!(f, "no member {}", name.as_str()),
            PageFault::BadMember { name } => write!(f, "bad member {}", name.as_str()),
            PageFault::NotOrdered { place } => write!(f, "item {place} is not in order"),
            PageFault::NoMemory => write!(f, "no memory"),
        }
    }
}

/// As it is printed.
impl fmt::Debug for PageFault {
    fn fmt<W: fmt::Write>(&self, f: &mut fmt::Formatter<W>) -> fmt::Result {
        fmt::Display::fmt(self, f)
    }
}

impl Error for PageFault {}

impl From<NoMemory> for PageFault {
    ghost from_gives = { λ _ fault. fault ≡ OutOfMemory };

    fn from(_: NoMemory) -> PageFault {
        PageFault::NoMemory
    }
}

impl From<AllocError> for PageFault {
    ghost from_gives = { λ _ fault. fault ≡ OutOfMemory };

    fn from(_: AllocError) -> PageFault {
        PageFault::NoMemory
    }
}

impl<T: Drop> From<AllocFailed<T>> for PageFault {
    ghost from_gives = { λ _ fault. fault ≡ OutOfMemory };

    fn from(_: AllocFailed<T>) -> PageFault {
        PageFault::NoMemory
    }
}
