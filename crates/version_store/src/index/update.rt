ghost use Rattle.std.specs.Prelude.{◌≡◌, ◌<◌, OnErr, OnOk};
ghost use Rattle.lc_model.specs.Run.{InKeyOrder, RunsForward};
ghost use Rattle.version_store.specs.Index.Updates.{IsSame, IsUpdated};

use crate::index::Index;
use crate::index::prepare::prepare_all;
use crate::index::turn::{begin_all, end_all};
use lc_model::{NoMemory, Run, RunKey};
use std::alloc::Global;

impl Index {
    /// Adds a version. Of the runs of the newest one, those of the keys `ended` are gone. Those of `begun` are there, each in place of
    /// the one of its key, if there was one. All memory is taken first: after a refusal each version is as it was. It takes the time of the
    /// connections of the runs that begin and of the ended keys, by the logarithm of the index.
    pub fn update(
        &mut self,
        alloc: Global,
        ended: Vec<RunKey>,
        begun: Vec<Run>,
    ) -> Result<(), NoMemory>
        requires room { self.old.newest < u32.MAX }
        requires in_order { InKeyOrder begun.items }
        requires forward { RunsForward begun.items }
        ensures ok { OnOk result (IsUpdated ended.items begun.items self.old self.new) }
        ensures err { OnErr result (IsSame self.old self.new) }
    {
        let ready = prepare_all(alloc, &mut self.spans, begun)?;
        let next = self.newest + 1;
        end_all(&mut self.spans, ended, next);
        begin_all(&mut self.spans, ready, next);
        self.newest = next;
        Ok(())
    }
}
