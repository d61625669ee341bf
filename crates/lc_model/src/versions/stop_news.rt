ghost use Rattle.std.specs.Prelude.{◌≡◌, IfOk};
ghost use Rattle.std.specs.Option.{option_copied};
ghost use Rattle.lc_model.specs.Versions.News.{StopSaid};

use crate::versions::{Event, Relation};
use crate::{Bytes, Items, NoMemory, PlainData};
use std::alloc::Global;
use std::marker::Model;

/// The news of one stop of a trip, named by its sequence or its stop. A contract sees what is said. A message may say
/// nothing of very many stops in two bytes each, thus what is said beyond the sequence is apart. Without it the news take
/// 24 bytes.
#[derive(Drop)]
pub struct StopNews {
    seq: Option<u32>,
    more: Option<Box<StopMore>>,
}

/// What is said of a stop besides its sequence.
#[derive(Drop)]
pub(crate) struct StopMore {
    pub(crate) stop: Option<Bytes>,
    pub(crate) relation: Relation,
    pub(crate) arr: Option<Event>,
    pub(crate) dep: Option<Event>,
}

impl Model for StopNews {
    ghost use Rattle.std.specs.Option.{option_map};
    ghost use Rattle.lc_model.specs.Versions.News.{StopSaid};
    ghost use Rattle.lc_model.specs.Versions.Packed.{stop_said};

    ghost Value = { StopSaid };

    ghost view = { λ n. stop_said n.seq (option_map (λ more. more.value) n.more) };
}

impl StopNews {
    /// The news of a stop.
    pub fn new(
        alloc: Global,
        seq: Option<u32>,
        stop: Option<Bytes>,
        relation: Relation,
        arr: Option<Event>,
        dep: Option<Event>,
    ) -> Result<StopNews, NoMemory>
        ensures { IfOk result (λ news. news ≡ record { seq = seq; stop = stop; relation = relation; arr = arr; dep = dep }) }
    {
        let more = match (stop, relation, arr, dep) {
            (None, Relation::Scheduled, None, None) => None,
            (stop, relation, arr, dep) => Some(Box::new(
                alloc,
                StopMore {
                    stop,
                    relation,
                    arr,
                    dep,
                },
            )?),
        };
        Ok(StopNews { seq, more })
    }

    /// The sequence that the stop has in the trip.
    pub fn seq(&self) -> Option<u32>
        ensures { result ≡ self.now.seq }
    {
        self.seq
    }

    /// The bytes of the stop's id.
    pub fn stop(&self) -> Option<&[u8]>
        ensures { option_copied result ≡ self.now.stop }
    {
        match &self.more {
            None => None,
            Some(more) => more.stop.as_ref().map(|stop| stop.as_slice()),
        }
    }

    pub fn relation(&self) -> Relation
        ensures { result ≡ self.now.relation }
    {
        match &self.more {
            None => Relation::Scheduled,
            Some(more) => more.relation,
        }
    }

    pub fn arr(&self) -> Option<Event>
        ensures { result ≡ self.now.arr }
    {
        match &self.more {
            None => None,
            Some(more) => more.arr,
        }
    }

    pub fn dep(&self) -> Option<Event>
        ensures { result ≡ self.now.dep }
    {
        match &self.more {
            None => None,
            Some(more) => more.dep,
        }
    }
}

impl PlainData for StopMore {
    fn copy(&self, alloc: Global) -> Result<StopMore, NoMemory> {
        Ok(StopMore {
            stop: self.stop.copy(alloc)?,
            relation: self.relation,
            arr: self.arr,
            dep: self.dep,
        })
    }
}

impl PlainData for StopNews {
    fn copy(&self, alloc: Global) -> Result<StopNews, NoMemory> {
        let more = match &self.more {
            None => None,
            Some(more) => Some(Box::new(alloc, more.copy(alloc)?)?),
        };
        Ok(StopNews {
            seq: self.seq,
            more,
        })
    }
}

/// The news of stops in the order of the message.
pub type StopNewsList = Items<StopNews>;
