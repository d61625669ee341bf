//! What the arguments of the commands over the network say.
use super::commands::{put_window, put_word};
use super::words::put_publishing;
use cli_words::{Plan, Relay, Serve};
use rows_common::Draft;

/// Arguments of `serve`.
pub(super) const SERVES: [&str; 49] = [
    "serve tiny 20240501 --port 8080 --connections 3",
    "serve --port=80 --connections=1 tiny 20240501",
    "serve tiny --port 08080 20240501 --connections 0001000000",
    "serve tiny 20240501 --port 1 --connections 1 --accept-updates",
    "serve --accept-updates --port 65535 --connections=2 -- tiny 20240501",
    "serve tiny --accept-updates 20240501 --port 8080 --connections 3",
    "serve tiny 20240501 --days 14 --zone file:x --change 60 --base http://x/lc/ --base-moment 2024-05-01T06:00:00Z --cuts count:4 --update d60.pb --port 8080 --connections 3",
    "serve tiny 20240501 --days=062 --zone=posix:UTC0 --change=0 --base=http://x:8080/ --base-moment=1970-01-01T00:00:00Z --cuts=whole --update=a=b --port=80 --connections=3 --accept-updates",
    "serve tiny 20240501 --port 443 --connections 3 --base http://localhost:80/",
    "serve --port 8080 --connections 3 -- -tiny 20240501",
    "serve --port 8080 --connections 3  20240501",
    "serve -- tiny 20240501 --port 8080 --connections 3",
    "serve tiny 20240501",
    "serve tiny 20240501 --port 8080",
    "serve tiny 20240501 --connections 3",
    "serve tiny 20240501 --port 0 --connections 3",
    "serve tiny 20240501 --port 65536 --connections 3",
    "serve tiny 20240501 --port= --connections 3",
    "serve tiny 20240501 --port=-80 --connections 3",
    "serve tiny 20240501 --port 80x --connections 3",
    "serve tiny 20240501 --port 8080 --connections 0",
    "serve tiny 20240501 --port 8080 --connections 1000001",
    "serve tiny 20240501 --port 8080 --connections 00000000001",
    "serve tiny 20240501 --port 8080 --port 8080 --connections 3",
    "serve tiny 20240501 --port 8080 --connections 3 --connections=3",
    "serve tiny 20240501 --port 8080 --connections 3 --accept-updates --accept-updates",
    "serve tiny 20240501 --port 8080 --connections 3 --accept-updates=true",
    "serve tiny 20240501 --port 8080 --connections 3 --accept-updates=",
    "serve tiny 20240501 --port 8080 --connections 3 --accept-updates yes",
    "serve tiny 20240501 --port 8080 --connections 3 --accept",
    "serve tiny --port 8080 --connections 3",
    "serve tiny 20240501 x --port 8080 --connections 3",
    "serve tiny 20240230 --port 8080 --connections 3",
    "serve tiny 99991210 --port 8080 --connections 3",
    "serve - 20240501 --port 8080 --connections 3",
    "serve --port 8080 --connections 3 -- - 20240501",
    "serve tiny 20240501 --port 8080 --connections 3 --days 63",
    "serve tiny 20240501 --port 8080 --connections 3 --change 86401",
    "serve tiny 20240501 --port 8080 --connections 3 --zone=-x",
    "serve tiny 20240501 --port 8080 --connections 3 --base x",
    "serve tiny 20240501 --port 8080 --connections 3 --cuts span:0",
    "serve tiny 20240501 --port 8080 --connections 3 --base-moment yesterday",
    "serve tiny 20240501 --port 8080 --connections 3 --update=",
    "serve tiny 20240501 --port 8080 --connections 3 --update=-x",
    "serve tiny 20240501 --port 8080 --connections 3 --cache 5",
    "serve tiny 20240501 --port 8080 --connections 3 --horizon=60",
    "serve tiny 20240501 --port 8080 --connections 3 --help",
    "server tiny 20240501 --port 8080 --connections 3",
    "replay tiny 20240501 s.csv --accept-updates",
];

/// Arguments of `plan`.
pub(super) const PLANS: [&str; 30] = [
    "plan http://localhost:8080/ asks.csv",
    "plan http://localhost:80/ asks.csv --cache 1",
    "plan HTTP://LocalHost:8080 asks.csv",
    "plan --cache=0010000 http://x a",
    "plan -- http://x/lc/ -a",
    "plan http://x/ ",
    "plan http://x/",
    "plan",
    "plan http://x/ a b",
    "plan a http://x/",
    "plan https://x/ a",
    "plan http://x/lc a",
    "plan http://x/?q a",
    "plan http://u@x/ a",
    "plan http://x:65536/ a",
    "plan  a",
    "plan http://x/ a --cache 0",
    "plan http://x/ a --cache 10001",
    "plan http://x/ a --cache=",
    "plan http://x/ a --cache",
    "plan http://x/ a --cache 5 --cache=5",
    "plan http://x/ -",
    "plan - a",
    "plan -- http://x/ -",
    "plan http://x/ -a",
    "plan http://x/ a --base http://x/",
    "plan http://x/ a --days 3",
    "plan http://x/ a --accept-updates",
    "plan --help",
    "plans http://x/ a",
];

/// Arguments of `relay`, and its option at other commands.
pub(super) const RELAYS: [&str; 32] = [
    "relay http://lc.example/ a.csv",
    "relay http://localhost:8080/ a.csv --cache 1",
    "relay --entries=1 http://x a.csv",
    "relay http://x/ a --entries 001000 --cache=10000",
    "relay --cache 2 -- http://x/lc/ -a",
    "relay http://x/ ",
    "relay http://x/",
    "relay",
    "relay http://x/ a b",
    "relay a http://x/",
    "relay https://x/ a",
    "relay  a",
    "relay http://x/ a --entries 0",
    "relay http://x/ a --entries 1001",
    "relay http://x/ a --entries 00000000001",
    "relay http://x/ a --entries=",
    "relay http://x/ a --entries",
    "relay http://x/ a --entries=-1",
    "relay http://x/ a --entries -1",
    "relay http://x/ a --entries 5 --entries=5",
    "relay http://x/ a --cache 0",
    "relay http://x/ a --cache 10001",
    "relay http://x/ a --cache 5 --cache 5",
    "relay http://x/ -",
    "relay http://x/ -a",
    "relay -- http://x/ a --entries",
    "relay http://x/ a --base http://x/",
    "relay http://x/ a --days 3",
    "plan http://x/ a --entries 5",
    "ask tiny A D 2024-05-01T08:00:00Z --entries 5",
    "relay --help",
    "relays http://x/ a",
];

/// A server: its feed and window, how it publishes, its port and connections, the message, and whether it takes messages.
pub(super) fn put_serve(draft: &mut Draft, serve: &Serve) {
    draft.put("serve ");
    draft.put(serve.published.window.feed.as_str());
    put_window(draft, &serve.published.window);
    draft.put(" ");
    put_publishing(draft, &serve.published.publishing);
    put_door(draft, serve);
}

fn put_door(draft: &mut Draft, serve: &Serve) {
    put_word(draft, &serve.port);
    put_word(draft, &serve.connections);
    draft.put(" ");
    draft.put(match &serve.published.update {
        Some(name) => name.as_str(),
        None => "-",
    });
    draft.put(if serve.accept_updates { " yes" } else { " no" });
}

/// A plan: its base, the name of its questions, and how many pages it caches.
pub(super) fn put_plan(draft: &mut Draft, plan: &Plan) {
    draft.put("plan ");
    draft.put(plan.base.text());
    put_word(draft, &plan.asks.as_str());
    put_word(draft, &plan.cache);
}

/// A plan through a relay: its base, the name of its questions, how many pages it caches, and how many documents the relay keeps.
pub(super) fn put_relay(draft: &mut Draft, relay: &Relay) {
    draft.put("relay ");
    draft.put(relay.base.text());
    put_word(draft, &relay.asks.as_str());
    put_word(draft, &relay.cache);
    put_word(draft, &relay.entries);
}
