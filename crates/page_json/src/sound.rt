//! What the types of values say of them. A call reads the parts of what it borrows, and does nothing else.

ghost use Rattle.std.specs.Prelude.{IfSome};
ghost use Rattle.page_json.specs.Sound.{IsDelay, IsSoundChange, IsSoundConnection, IsSoundName, IsSoundStop};

use lc_model::{Change, Connection, PageName, Stop};

pub fn sound_connection(connection: &Connection)
    ensures { IsSoundConnection connection.now }
{
    let _trip = connection.key.trip.bytes();
    let _seq = connection.seq;
    let _departure_stop = connection.dep_stop.bytes();
    let _departure = connection.dep.seconds();
    let _arrival_stop = connection.arr_stop.bytes();
    let _arrival = connection.arr.seconds();
    sound_delay(connection.dep_delay);
    sound_delay(connection.arr_delay);
}

fn sound_delay(delay: i64)
    ensures { IsDelay delay }
{}

pub fn sound_name(name: PageName)
    ensures { IsSoundName name }
{}

pub fn sound_link(link: Option<PageName>)
    ensures { IfSome link IsSoundName }
{}

pub fn sound_stop(stop: &Stop)
    ensures { IsSoundStop stop.now }
{
    let _id = stop.id.bytes();
    let _name = stop.name.as_str();
    if let Some(parent) = &stop.parent {
        let _parent = parent.bytes();
    }
}

pub fn sound_change(change: &Change)
    ensures { IsSoundChange change.now }
{
    let _from = change.from.bytes();
    let _seconds = change.seconds;
    let _to = change.to.bytes();
}
