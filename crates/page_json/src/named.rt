//! The runs and the stops that the text of a page names, each read once. Nothing is promised of what it gives, since a guess alone asks.

use crate::urls::read_stop_url;
use connection_uri::{Base, behind_base, read_decimal, read_name};
use lc_model::{Id, NoMemory, PlainData, RunKey};
use memchr::memrchr;
use std::alloc::Global;
use std::collections::BTreeMap;

/// What was read so far, by what is written for it. What is given shares its texts, so a page has the id of each stop and of each trip once.
#[derive(Drop)]
pub(crate) struct Named<'a> {
    runs: BTreeMap<&'a [u8], RunKey>,
    stops: BTreeMap<&'a [u8], Id>,
}

impl<'a> Named<'a> {
    /// Nothing was read yet.
    pub(crate) fn new(alloc: Global) -> Named<'a> {
        Named {
            runs: BTreeMap::new(alloc),
            stops: BTreeMap::new(alloc),
        }
    }

    /// The run and the sequence whose name the text is. Takes the logarithm of the runs that were read.
    pub(crate) fn connection(
        &mut self,
        alloc: Global,
        base: &Base,
        name: &'a [u8],
    ) -> Result<Option<(RunKey, u32)>, NoMemory> {
        let Some((run, sequence)) = name_parts(base, name) else {
            return Ok(None);
        };
        match self.runs.get(&run) {
            Some(key) => with_sequence(alloc, key, sequence),
            None => new_run(alloc, base, &mut self.runs, run, name),
        }
    }

    /// The stop whose URL the text is. Takes the logarithm of the stops that were read.
    pub(crate) fn stop(
        &mut self,
        alloc: Global,
        base: &Base,
        url: &'a [u8],
    ) -> Result<Option<Id>, NoMemory> {
        let Some(written) = behind_base(url, base, b"stops/") else {
            return Ok(None);
        };
        match self.stops.get(&written) {
            Some(stop) => Ok(Some(stop.copy(alloc)?)),
            None => new_stop(alloc, base, &mut self.stops, written, url),
        }
    }
}

/// What names the run in the name of a connection, and what is written for the sequence.
fn name_parts<'a>(base: &Base, name: &'a [u8]) -> Option<(&'a [u8], &'a [u8])> {
    let parts = behind_base(name, base, b"connections/")?;
    let (run, sequence) = parts.split_at(memrchr(b'/', parts)?);
    Some((run, sequence.get(1..)?))
}

/// A run that was read before, with the sequence that is written so.
fn with_sequence(
    alloc: Global,
    key: &RunKey,
    written: &[u8],
) -> Result<Option<(RunKey, u32)>, NoMemory> {
    match read_decimal(written) {
        Some(sequence) => Ok(Some((key.copy(alloc)?, sequence))),
        None => Ok(None),
    }
}

/// A run that was not read before, with the sequence in its name.
fn new_run<'a>(
    alloc: Global,
    base: &Base,
    runs: &mut BTreeMap<&'a [u8], RunKey>,
    run: &'a [u8],
    name: &'a [u8],
) -> Result<Option<(RunKey, u32)>, NoMemory> {
    let Some((key, sequence)) = read_name(alloc, base, name)? else {
        return Ok(None);
    };
    runs.insert(run, key.copy(alloc)?)?;
    Ok(Some((key, sequence)))
}

/// A stop that was not read before.
fn new_stop<'a>(
    alloc: Global,
    base: &Base,
    stops: &mut BTreeMap<&'a [u8], Id>,
    written: &'a [u8],
    url: &'a [u8],
) -> Result<Option<Id>, NoMemory> {
    let Some(stop) = read_stop_url(alloc, base, url)? else {
        return Ok(None);
    };
    stops.insert(written, stop.copy(alloc)?)?;
    Ok(Some(stop))
}
