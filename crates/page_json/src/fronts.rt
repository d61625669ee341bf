ghost use Rattle.std.specs.Prelude.{◌≡◌, ◌++◌, All, IfOk, OnOk, true};
ghost use Rattle.std.specs.String.{string_bytes};
ghost use Rattle.connection_uri.specs.Base.{is_visible};
ghost use Rattle.json.specs.Print.{escape, escape_byte};
ghost use Rattle.page_json.specs.Fronts.{delay_under, ends_under, fronts_under, names_under, uses_under};

use connection_uri::Base;
use lc_model::{NoMemory, Text};
use std::alloc::Global;

/// The texts of a page that have its base, each up to what differs. The base is in them as JSON has it.
#[derive(Drop)]
pub struct Fronts {
    pub base: Text,
    pub names: NameFronts,
    pub ends: EndsFronts,
    pub uses: UseFronts,
}

/// What comes before the run in the name of the first connection, and of each further one.
#[derive(Drop)]
pub struct NameFronts {
    pub first: Text,
    pub next: Text,
}

/// What comes before the stop of an arrival, and of a departure, with the delay in it.
#[derive(Drop)]
pub struct EndsFronts {
    pub arrival: DelayFronts,
    pub departure: DelayFronts,
}

/// What comes before a delay, and between it and a stop. Most are 0, so all of it with that delay is one text too.
#[derive(Drop)]
pub struct DelayFronts {
    pub before: Text,
    pub after: Text,
    pub on_time: Text,
}

/// Whether one may alight and board, and what comes before the trip: where one may do both, one of them, or neither.
#[derive(Drop)]
pub struct UseFronts {
    pub both: Text,
    pub alighting: Text,
    pub boarding: Text,
    pub neither: Text,
}

/// The texts of pages under this base.
pub fn fronts_of(alloc: Global, base: &Base) -> Result<Fronts, NoMemory>
    ensures { IfOk result (λ fronts. fronts ≡ fronts_under (escape base.now.text)) }
{
    let base = json_base(alloc, base)?;
    fronts_under(alloc, base)
}

/// The base as JSON has it. The authority of a base may have a quotation mark, which JSON escapes.
fn json_base(alloc: Global, base: &Base) -> Result<Text, NoMemory>
    ensures { IfOk result (λ text. text ≡ escape base.now.text) }
{
    let mut text = String::new(alloc);
    append_visible(&mut text, base.text().as_bytes())?;
    Ok(Text::from_string(text))
}

/// Appends visible ASCII as JSON has it.
fn append_visible(out: &mut String, bytes: &[u8]) -> Result<(), NoMemory>
    requires { All (λ byte. is_visible byte ≡ true) bytes.now }
    ensures { OnOk result (string_bytes out.new ≡ string_bytes out.old ++ escape bytes.now) }
{
    for &byte in bytes {
        append_byte(out, byte)?;
    }
    Ok(())
}

/// Appends a byte of visible ASCII as JSON has it.
fn append_byte(out: &mut String, byte: u8) -> Result<(), NoMemory>
    requires { is_visible byte ≡ true }
    ensures { OnOk result (string_bytes out.new ≡ string_bytes out.old ++ escape_byte byte) }
{
    match byte {
        b'"' => {
            out.push_str("\\\"")?;
            Ok(())
        }
        b'\\' => {
            out.push_str("\\\\")?;
            Ok(())
        }
        _ => {
            out.push(char::from(byte))?;
            Ok(())
        }
    }
}

/// The texts of pages under the base that JSON has so.
fn fronts_under(alloc: Global, base: Text) -> Result<Fronts, NoMemory>
    ensures { IfOk result (λ fronts. fronts ≡ fronts_under base) }
{
    let names = names_under(alloc, base.as_str())?;
    let ends = ends_under(alloc, base.as_str())?;
    let uses = uses_under(alloc, base.as_str())?;
    Ok(Fronts {
        base,
        names,
        ends,
        uses,
    })
}

fn names_under(alloc: Global, base: &str) -> Result<NameFronts, NoMemory>
    ensures { IfOk result (λ names. names ≡ names_under base.now) }
{
    let first = joined(alloc, "[{\"@id\":\"", base, "connections/")?;
    let next = joined(alloc, "\"},{\"@id\":\"", base, "connections/")?;
    Ok(NameFronts { first, next })
}

fn ends_under(alloc: Global, base: &str) -> Result<EndsFronts, NoMemory>
    ensures { IfOk result (λ ends. ends ≡ ends_under base.now) }
{
    let arrival = delay_under(
        alloc,
        base,
        "\",\"@type\":\"Connection\",\"arrivalDelay\":",
        ",\"arrivalStop\":\"",
    )?;
    // The text of the arrival's moment has the quotation mark and the comma before this.
    let departure = delay_under(alloc, base, "\"departureDelay\":", ",\"departureStop\":\"")?;
    Ok(EndsFronts { arrival, departure })
}

fn delay_under(alloc: Global, base: &str, delay: &str, stop: &str) -> Result<DelayFronts, NoMemory>
    ensures { IfOk result (λ fronts. fronts ≡ delay_under base.now delay.now stop.now) }
{
    let after = joined(alloc, stop, base, "stops/")?;
    let on_time = joined(alloc, delay, "0", after.as_str())?;
    let before = Text::from_string(String::from_str(alloc, delay)?);
    Ok(DelayFronts {
        before,
        after,
        on_time,
    })
}

fn uses_under(alloc: Global, base: &str) -> Result<UseFronts, NoMemory>
    ensures { IfOk result (λ uses. uses ≡ uses_under base.now) }
{
    let both = joined(
        alloc,
        "\",\"gtfs:dropOffType\":\"gtfs:Regular\",\"gtfs:pickupType\":\"gtfs:Regular\",\"gtfs:trip\":\"",
        base,
        "trips/",
    )?;
    let alighting = joined(
        alloc,
        "\",\"gtfs:dropOffType\":\"gtfs:Regular\",\"gtfs:pickupType\":\"gtfs:NotAvailable\",\"gtfs:trip\":\"",
        base,
        "trips/",
    )?;
    let boarding = joined(
        alloc,
        "\",\"gtfs:dropOffType\":\"gtfs:NotAvailable\",\"gtfs:pickupType\":\"gtfs:Regular\",\"gtfs:trip\":\"",
        base,
        "trips/",
    )?;
    let neither = joined(
        alloc,
        "\",\"gtfs:dropOffType\":\"gtfs:NotAvailable\",\"gtfs:pickupType\":\"gtfs:NotAvailable\",\"gtfs:trip\":\"",
        base,
        "trips/",
    )?;
    Ok(UseFronts {
        both,
        alighting,
        boarding,
        neither,
    })
}

/// The three texts, one after the other.
fn joined(alloc: Global, before: &str, base: &str, after: &str) -> Result<Text, NoMemory>
    ensures { IfOk result (λ text. text ≡ before.now ++ (base.now ++ after.now)) }
{
    let mut text = String::new(alloc);
    append_all(&mut text, before, base, after)?;
    Ok(Text::from_string(text))
}

fn append_all(out: &mut String, before: &str, base: &str, after: &str) -> Result<(), NoMemory>
    ensures { OnOk result (string_bytes out.new ≡ string_bytes out.old ++ (before.now ++ (base.now ++ after.now))) }
{
    out.push_str(before)?;
    out.push_str(base)?;
    out.push_str(after)?;
    Ok(())
}
