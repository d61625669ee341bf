ghost use Rattle.std.specs.Prelude.{IfOk};
ghost use Rattle.page_client.specs.Stops.{IsStopsReply};

use crate::PeerFault;
use crate::replied::{body_of, replied};
use lc_model::{NoMemory, StopsDoc};
use page_json::{PageFault, read_stops};
use std::alloc::Global;

/// The stops document that a reply says, or the first test that the reply fails. It takes the time of `read_stops`.
pub fn stops_said(alloc: Global, bytes: &[u8]) -> Result<Result<StopsDoc, PeerFault>, NoMemory>
    ensures { IfOk result (IsStopsReply bytes.now) }
{
    match replied(alloc, bytes, 200) {
        Ok(Ok(reply)) => match read_stops(alloc, body_of(bytes, &reply)) {
            Ok(doc) => Ok(Ok(doc)),
            Err(PageFault::NoMemory) => Err(NoMemory),
            Err(fault) => Ok(Err(PeerFault::Body(fault))),
        },
        Ok(Err(fault)) => Ok(Err(fault)),
        Err(NoMemory) => Err(NoMemory),
    }
}
