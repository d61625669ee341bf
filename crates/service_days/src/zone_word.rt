ghost use Rattle.std.specs.Prelude.{◌≡◌, ◌≢◌, ◌↔◌, Some, None, Err, IfOk, IsErr, codes};
ghost use Rattle.std.specs.Option.{option_copied};
ghost use Rattle.jiff_tz.specs.PosixReader.{read_whole};
ghost use Rattle.jiff_tz.specs.PosixText.{tz_view};
ghost use Rattle.service_days.specs.ZoneWord.{IsBadFile, IsTableOf, IsWrong, SaysZone, fault_text, file_named, rule_named};

use jiff_core::Error as JiffError;
use jiff_tz::{Tzif, posix};
use lc_time::Zone;
use std::alloc::Global;
use std::error::Error;
use std::fmt;

/// Why a word gave no zone.
#[derive(Clone, Copy, Debug, PartialEq, Eq)]
pub enum ZoneFault {
    /// The word has another form, its rule or its file is refused, or the file's bytes are missing.
    Wrong,
    NoMemory,
}

impl fmt::Display for ZoneFault {
    ghost output = { λ fault. Some (fault_text fault) };

    fn fmt<W: fmt::Write>(&self, f: &mut fmt::Formatter<W>) -> fmt::Result {
        match self {
            ZoneFault::Wrong => f.write_str("no such zone"),
            ZoneFault::NoMemory => f.write_str("no memory"),
        }
    }
}

impl Error for ZoneFault {}

/// The zone that a word says: `utc`, `posix:` and a rule (POSIX, variable TZ, with the hours of RFC 9636), or `file:` and
/// a name. For a name `file` has the bytes of the file (RFC 9636). Only such a file takes memory.
pub fn read_zone(alloc: Global, word: &[u8], file: Option<&[u8]>) -> Result<Zone, ZoneFault>
    ensures said { IfOk result (SaysZone word.now (option_copied file.entry)) }
    ensures wrong { result ≡ Err ZoneFault.Wrong → IsWrong word.now (option_copied file.entry) }
    ensures only { IsWrong word.now (option_copied file.entry) → IsErr result }
{
    if let Some(rule) = rule_named(word) {
        return Ok(Zone::Posix(read_rule(rule)?));
    }
    if zone_file(word).is_none() {
        return read_plain(word);
    }
    match file {
        Some(bytes) => Ok(Zone::File(read_table(alloc, bytes)?)),
        None => Err(ZoneFault::Wrong),
    }
}

/// The name of the file whose bytes the word asks for, if it asks for a file.
pub fn zone_file(word: &[u8]) -> Option<&[u8]>
    ensures { option_copied result ≡ file_named word.now }
{
    word.strip_prefix(b"file:".as_slice())
}

fn rule_named(word: &[u8]) -> Option<&[u8]>
    ensures { option_copied result ≡ rule_named word.now }
{
    word.strip_prefix(b"posix:".as_slice())
}

fn read_plain(word: &[u8]) -> Result<Zone, ZoneFault>
    ensures said { IfOk result (λ zone. (zone ≡ Zone.Utc) × (word.now ≡ codes "utc")) }
    ensures wrong { result ≡ Err ZoneFault.Wrong → word.now ≢ codes "utc" }
    ensures only { word.now ≢ codes "utc" → IsErr result }
{
    if word == b"utc".as_slice() {
        Ok(Zone::Utc)
    } else {
        Err(ZoneFault::Wrong)
    }
}

fn read_rule(text: &[u8]) -> Result<posix::TimeZone, ZoneFault>
    ensures said { IfOk result (λ rule. read_whole text.now ≡ Some (tz_view rule)) }
    ensures wrong { IsErr result ↔ (read_whole text.now ≡ None) }
{
    match posix::TimeZone::parse(text) {
        Ok(rule) => Ok(rule),
        Err(_) => Err(ZoneFault::Wrong),
    }
}

fn read_table(alloc: Global, bytes: &[u8]) -> Result<Tzif, ZoneFault>
    ensures said { IfOk result (λ table. IsTableOf table bytes.now) }
    ensures wrong { result ≡ Err ZoneFault.Wrong → IsBadFile bytes.now }
    ensures only { IsBadFile bytes.now → IsErr result }
{
    match Tzif::parse(alloc, None, bytes) {
        Ok(table) => Ok(table),
        Err(JiffError::OutOfMemory) => Err(ZoneFault::NoMemory),
        Err(_) => Err(ZoneFault::Wrong),
    }
}
