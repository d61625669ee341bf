ghost use Rattle.std.specs.Prelude.{◌+◌, ◌^◌, ◌<◌, ◌≤◌};
ghost use Rattle.page_client.specs.Client.{shown};
ghost use Rattle.page_client.specs.Shown.{exchanges_left};

use page_client::Client;

/// A client of a convoy, and how many exchanges it has made.
#[derive(Drop)]
pub struct Member {
    pub client: Client,
    pub exchanges: u64,
    ghost bounded: { exchanges + exchanges_left (shown client) ≤ (shown client).query.horizon + 3 },
    ghost small: { exchanges + exchanges_left (shown client) < 2 ^ 33 },
}
