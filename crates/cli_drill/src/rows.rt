ghost use Rattle.std.specs.Prelude.{◌≡◌, ◌≤◌, ◌<◌, ◌+◌, ◌++◌, IfOk, OnOk};
ghost use Rattle.lc_time.specs.Clock.{clock_text_of};
ghost use Rattle.cli_drill.specs.Rows.{date_row, dates_text, stop_row, stops_text, time_row, time_rows, times_text, trip_row, trips_text};

use crate::names::{push_number, push_stop_name, push_trip_name};
use crate::network::{arrives_at, stop_at};
use lc_model::NoMemory;
use lc_time::clock_text;
use std::alloc::Global;

/// The table of the stops. Linear in it, with room made at once.
pub(crate) fn stops_text(alloc: Global, side: u32) -> Result<Vec<u8>, NoMemory>
    requires at_most { side ≤ 30 }
    ensures { IfOk result (λ text. text.items ≡ stops_text side) }
{
    let stops = side * side;
    let mut text = Vec::with_capacity(alloc, 18 + 12 * stops as usize)?;
    text.extend_from_slice(b"stop_id,stop_name\n")?;
    'stops: for stop in 0..stops {
        push_stop(&mut text, stop)?;
    }
    Ok(text)
}

fn push_stop(text: &mut Vec<u8>, stop: u32) -> Result<(), NoMemory>
    ensures { OnOk result (text.new.items ≡ text.old.items ++ stop_row stop) }
{
    push_stop_name(text, stop)?;
    text.extend_from_slice(b",")?;
    push_stop_name(text, stop)?;
    text.extend_from_slice(b"\n")?;
    Ok(())
}

/// The table of the trips. Linear in it, with room made at once.
pub(crate) fn trips_text(alloc: Global, side: u32) -> Result<Vec<u8>, NoMemory>
    requires at_most { side ≤ 30 }
    ensures { IfOk result (λ text. text.items ≡ trips_text side) }
{
    let trips = 432 * side;
    let mut text = Vec::with_capacity(alloc, 28 + 13 * trips as usize)?;
    text.extend_from_slice(b"route_id,service_id,trip_id\n")?;
    'trips: for trip in 0..trips {
        push_trip(&mut text, trip)?;
    }
    Ok(text)
}

fn push_trip(text: &mut Vec<u8>, trip: u32) -> Result<(), NoMemory>
    ensures { OnOk result (text.new.items ≡ text.old.items ++ trip_row trip) }
{
    text.extend_from_slice(b"r,d,")?;
    push_trip_name(text, trip)?;
    text.extend_from_slice(b"\n")?;
    Ok(())
}

/// The table of the times at stops. Linear in it, with room made at once.
pub(crate) fn times_text(alloc: Global, side: u32) -> Result<Vec<u8>, NoMemory>
    requires at_least { 5 ≤ side }
    requires at_most { side ≤ 30 }
    ensures { IfOk result (λ text. text.items ≡ times_text side) }
{
    let trips = 432 * side;
    let mut text = Vec::with_capacity(alloc, 54 + 36 * (trips * side) as usize)?;
    text.extend_from_slice(b"trip_id,arrival_time,departure_time,stop_id,stop_sequence\n")?;
    'trips: for trip in 0..trips {
        push_times(&mut text, side, trip)?;
    }
    Ok(text)
}

/// Adds the rows of a trip.
fn push_times(text: &mut Vec<u8>, side: u32, trip: u32) -> Result<(), NoMemory>
    requires at_least { 5 ≤ side }
    requires at_most { side ≤ 30 }
    requires trip { trip < 12_960 }
    ensures { OnOk result (text.new.items ≡ text.old.items ++ time_rows side trip) }
{
    'places: for place in 0..side {
        push_time(text, side, trip, place)?;
    }
    Ok(())
}

fn push_time(text: &mut Vec<u8>, side: u32, trip: u32, place: u32) -> Result<(), NoMemory>
    requires at_least { 5 ≤ side }
    requires at_most { side ≤ 30 }
    requires trip { trip < 12_960 }
    requires place { place < side }
    ensures { OnOk result (text.new.items ≡ text.old.items ++ time_row side trip place) }
{
    let arrives = arrives_at(trip, place);
    push_trip_name(text, trip)?;
    text.extend_from_slice(b",")?;
    text.extend_from_slice(clock_text(arrives).as_slice())?;
    text.extend_from_slice(b",")?;
    text.extend_from_slice(clock_text(arrives + 30).as_slice())?;
    text.extend_from_slice(b",")?;
    push_stop_name(text, stop_at(side, trip / 108, place))?;
    text.extend_from_slice(b",")?;
    push_number(text, place + 1)?;
    text.extend_from_slice(b"\n")?;
    Ok(())
}

/// The table of the dates of the service. Linear in it.
pub(crate) fn dates_text(alloc: Global, days: u32) -> Result<Vec<u8>, NoMemory>
    requires at_most { days ≤ 7 }
    ensures { IfOk result (λ text. text.items ≡ dates_text days) }
{
    let mut text = Vec::with_capacity(alloc, 31 + 13 * days as usize)?;
    text.extend_from_slice(b"service_id,date,exception_type\n")?;
    'days: for day in 0..days {
        push_date(&mut text, day)?;
    }
    Ok(text)
}

fn push_date(text: &mut Vec<u8>, day: u32) -> Result<(), NoMemory>
    requires { day < 7 }
    ensures { OnOk result (text.new.items ≡ text.old.items ++ date_row day) }
{
    text.extend_from_slice(b"d,2024050")?;
    text.push(b'1' + day as u8)?;
    text.extend_from_slice(b",1\n")?;
    Ok(())
}
