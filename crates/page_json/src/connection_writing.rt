ghost use Rattle.std.specs.Prelude.{◌≡◌, ◌++◌, All, OnOk};
ghost use Rattle.std.specs.Fmt.{signed_decimal};
ghost use Rattle.std.specs.String.{string_bytes};
ghost use Rattle.page_json.specs.ConnectionWriting.{call_part, delay_part, end_part, late_part, list_part, members_part, name_part, rest_part, use_front, use_part};
ghost use Rattle.page_json.specs.Sound.{IsSoundConnection};

use crate::fronts::{DelayFronts, Fronts, UseFronts};
use crate::id_writing::{append_id, append_run, append_sequence};
use crate::moment_text::{End, MomentText};
use crate::sound::sound_connection;
use itoa::Buffer;
use lc_model::{Connection, Id, Moment, NoMemory};
use std::alloc::Global;

/// The texts of the moments of the last connection that was written.
#[derive(Drop)]
struct Times {
    arrival: MomentText,
    departure: MomentText,
}

/// Appends the list of connections, in order.
pub fn append_connections(
    alloc: Global,
    out: &mut String,
    fronts: &Fronts,
    connections: &[Connection],
) -> Result<(), NoMemory>
    ensures text { OnOk result
        (string_bytes out.new ≡ string_bytes out.old ++ list_part fronts.now connections.now) }
    ensures sound { OnOk result (All IsSoundConnection connections.now) }
{
    let mut run = String::new(alloc);
    append_list(out, &mut run, fronts, connections)
}

/// Appends the list of connections. `run` is room for what names their runs, one after the other.
fn append_list(
    out: &mut String,
    run: &mut String,
    fronts: &Fronts,
    connections: &[Connection],
) -> Result<(), NoMemory>
    ensures text { OnOk result
        (string_bytes out.new ≡ string_bytes out.old ++ list_part fronts.now connections.now) }
    ensures sound { OnOk result (All IsSoundConnection connections.now) }
{
    match connections {
        [] => {
            out.push_str("[]")?;
            Ok(())
        }
        [first, rest @ ..] => {
            let mut times = times_of(first);
            out.push_str(fronts.names.first.as_str())?;
            append_members(out, run, &mut times, fronts, first)?;
            append_rest(out, run, &mut times, fronts, rest)?;
            Ok(())
        }
    }
}

fn times_of(connection: &Connection) -> Times {
    Times {
        arrival: MomentText::new(End::Arrival, connection.arr),
        departure: MomentText::new(End::Departure, connection.dep),
    }
}

/// Appends further connections, and ends the last one and the list.
fn append_rest(
    out: &mut String,
    run: &mut String,
    times: &mut Times,
    fronts: &Fronts,
    connections: &[Connection],
) -> Result<(), NoMemory>
    ensures text { OnOk result
        (string_bytes out.new ≡ string_bytes out.old ++ rest_part fronts.now connections.now) }
    ensures sound { OnOk result (All IsSoundConnection connections.now) }
{
    for connection in connections {
        append_next(out, run, times, fronts, connection)?;
    }
    out.push_str("\"}]")?;
    Ok(())
}

/// Ends a connection, and appends the next one without its end.
fn append_next(
    out: &mut String,
    run: &mut String,
    times: &mut Times,
    fronts: &Fronts,
    connection: &Connection,
) -> Result<(), NoMemory>
    ensures text { OnOk result (string_bytes out.new
        ≡ string_bytes out.old ++ (fronts.now.names.next ++ members_part fronts.now connection.now)) }
    ensures sound { OnOk result (IsSoundConnection connection.now) }
{
    out.push_str(fronts.names.next.as_str())?;
    append_members(out, run, times, fronts, connection)?;
    Ok(())
}

/// Appends a connection from the run in its name on, without its end.
fn append_members(
    out: &mut String,
    run: &mut String,
    times: &mut Times,
    fronts: &Fronts,
    connection: &Connection,
) -> Result<(), NoMemory>
    ensures text { OnOk result
        (string_bytes out.new ≡ string_bytes out.old ++ members_part fronts.now connection.now) }
    ensures sound { OnOk result (IsSoundConnection connection.now) }
{
    sound_connection(connection);
    run.clear();
    append_run(run, &connection.key)?;
    append_name(out, run.as_str(), connection.seq)?;
    append_arrival(out, &mut times.arrival, &fronts.ends.arrival, connection)?;
    append_departure(
        out,
        &mut times.departure,
        &fronts.ends.departure,
        connection,
    )?;
    append_use(out, &fronts.uses, run.as_str(), connection)?;
    Ok(())
}

fn append_name(out: &mut String, run: &str, sequence: u32) -> Result<(), NoMemory>
    ensures { OnOk result (string_bytes out.new ≡ string_bytes out.old ++ name_part run.now sequence) }
{
    out.push_str(run)?;
    append_sequence(out, sequence)
}

fn append_arrival(
    out: &mut String,
    last: &mut MomentText,
    fronts: &DelayFronts,
    connection: &Connection,
) -> Result<(), NoMemory>
    ensures { OnOk result (string_bytes out.new
        ≡ string_bytes out.old ++ end_part fronts.now End.Arrival connection.now.arr_delay connection.now.arr_stop connection.now.arr) }
{
    append_delay(out, fronts, connection.arr_delay)?;
    append_call(
        out,
        last,
        End::Arrival,
        &connection.arr_stop,
        connection.arr,
    )?;
    Ok(())
}

fn append_departure(
    out: &mut String,
    last: &mut MomentText,
    fronts: &DelayFronts,
    connection: &Connection,
) -> Result<(), NoMemory>
    ensures { OnOk result (string_bytes out.new
        ≡ string_bytes out.old ++ end_part fronts.now End.Departure connection.now.dep_delay connection.now.dep_stop connection.now.dep) }
{
    append_delay(out, fronts, connection.dep_delay)?;
    append_call(
        out,
        last,
        End::Departure,
        &connection.dep_stop,
        connection.dep,
    )?;
    Ok(())
}

/// Appends a delay, with what comes before it and between it and the stop.
fn append_delay(out: &mut String, fronts: &DelayFronts, delay: i64) -> Result<(), NoMemory>
    ensures { OnOk result (string_bytes out.new ≡ string_bytes out.old ++ delay_part fronts.now delay) }
{
    match delay {
        0 => {
            out.push_str(fronts.on_time.as_str())?;
            Ok(())
        }
        _ => append_late(out, fronts, delay),
    }
}

/// Appends any delay so.
fn append_late(out: &mut String, fronts: &DelayFronts, delay: i64) -> Result<(), NoMemory>
    ensures { OnOk result (string_bytes out.new ≡ string_bytes out.old ++ late_part fronts.now delay) }
{
    out.push_str(fronts.before.as_str())?;
    out.push_str(Buffer::new().format(delay))?;
    out.push_str(fronts.after.as_str())?;
    Ok(())
}

/// Appends the stop and the moment of an end.
fn append_call(
    out: &mut String,
    last: &mut MomentText,
    end: End,
    stop: &Id,
    moment: Moment,
) -> Result<(), NoMemory>
    ensures { OnOk result
        (string_bytes out.new ≡ string_bytes out.old ++ call_part end stop.now moment) }
{
    append_id(out, stop)?;
    last.turn_to(end, moment);
    out.push_str(last.as_str())?;
    Ok(())
}

/// Appends whether one may alight and board, and the trip.
fn append_use(
    out: &mut String,
    fronts: &UseFronts,
    run: &str,
    connection: &Connection,
) -> Result<(), NoMemory>
    ensures { OnOk result
        (string_bytes out.new ≡ string_bytes out.old ++ use_part fronts.now run.now connection.now) }
{
    out.push_str(use_front(fronts, connection.alight, connection.board))?;
    out.push_str(run)?;
    Ok(())
}

/// Whether one may alight and board, as the GTFS vocabulary says it, and what comes before the trip.
fn use_front(fronts: &UseFronts, alight: bool, board: bool) -> &str
    ensures { result.now ≡ use_front fronts.now alight board }
{
    match (alight, board) {
        (true, true) => fronts.both.as_str(),
        (true, false) => fronts.alighting.as_str(),
        (false, true) => fronts.boarding.as_str(),
        (false, false) => fronts.neither.as_str(),
    }
}
