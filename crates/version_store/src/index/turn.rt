ghost use Rattle.std.specs.Prelude.{◌≡◌, ◌<◌, ◌⊎◌, ◌↔◌, ℕ, IsSome, List, None, Some, length};
ghost use Rattle.std.specs.BTreeMap.{get};
ghost use Rattle.std.specs.List.{AllZip, slice_get, slice_set};
ghost use Rattle.lc_model.specs.Run.{InKeyOrder};
ghost use Rattle.lc_model.specs.RunKey.{key_cmp};
ghost use Rattle.lc_model.specs.declared.run.Run.{Run as StatedRun};
ghost use Rattle.version_store.specs.Index.Inside.{AreKept};
ghost use Rattle.version_store.specs.Index.Prepared.{BeginsAll, BeginsRun, EndsAll, EndsRun, EndsState, HaveAlike, IsReady, KeepKeys, put_at};
ghost use Rattle.version_store.specs.Index.Turns.{begun, ended};
ghost use Rattle.version_store.specs.declared.index.state.State.{State as Stated};

use crate::index::prepare::Ready;
use crate::index::spans::Spans;
use crate::index::state::State;
use lc_model::RunKey;
use std::collections::BTreeMap;

/// The number that a map has at a key, if it has one.
fn number_at(running: &BTreeMap<RunKey, Option<u32>>, key: &RunKey) -> Option<u32>
    ensures { (n : ℕ) → (result ≡ Some n) ↔ (get key_cmp running.now key.now ≡ Some (Some n)) }
{
    match running.get(key) {
        Some(number) => *number,
        None => None,
    }
}

/// Lets a state end at a version.
fn end_at(states: &mut [State], place: usize, next: u32)
    requires { place < length states.old }
    ensures { (s : Stated) → slice_get states.old place ≡ Some s → states.new ≡ slice_set states.old place (ended next s) }
{
    states[place].end = Some(next);
}

/// Lets a state begin at a version.
fn begin_at(states: &mut [State], place: usize, next: u32)
    requires { place < length states.old }
    ensures { (s : Stated) → slice_get states.old place ≡ Some s → states.new ≡ slice_set states.old place (begun next s) }
{
    let state = &mut states[place];
    state.begin = next;
    state.end = None;
}

/// Lets the state of this number end at a version.
fn end_numbered(states: &mut Vec<State>, number: u32, next: u32)
    ensures { (s : Stated) → slice_get states.old.items number ≡ Some s → states.new.items ≡ slice_set states.old.items number (ended next s) }
{
    let place = number as usize;
    if place < states.len() {
        end_at(states.as_mut_slice(), place, next);
    }
}

/// Lets the state of a run end at a version, if it has one.
fn end_state(
    states: &mut Vec<State>,
    running: &BTreeMap<RunKey, Option<u32>>,
    key: &RunKey,
    next: u32,
)
    ensures { EndsState next key.now (get key_cmp running.now) states.old.items states.new.items }
{
    if let Some(number) = number_at(running, key) {
        end_numbered(states, number, next);
    }
}

/// Lets the state of this number begin at a version.
fn begin_state(states: &mut Vec<State>, number: u32, next: u32)
    ensures { (s : Stated) → slice_get states.old.items number ≡ Some s → states.new.items ≡ slice_set states.old.items number (begun next s) }
{
    let place = number as usize;
    if place < states.len() {
        begin_at(states.as_mut_slice(), place, next);
    }
}

/// Puts a number at a key, or that there is none. It takes no memory where the key is there, and a key that is not there needs no such word.
fn put_number(running: &mut BTreeMap<RunKey, Option<u32>>, key: RunKey, number: Option<u32>)
    ensures alike { ((number ≡ None) ⊎ IsSome (get key_cmp running.old key)) → HaveAlike (put_at key number (get key_cmp running.old)) (get key_cmp running.new) }
    ensures stays { KeepKeys (get key_cmp running.old) (get key_cmp running.new) }
{
    let _ = running.insert(key, number);
}

/// Ends the run of a key in the version that is being made, if there is one.
fn end_run(spans: &mut Spans, key: RunKey, next: u32)
    requires { AreKept next spans.old.states.items spans.old.places (get key_cmp spans.old.running) }
    ensures { EndsRun next key spans.old.states.items spans.old.places (get key_cmp spans.old.running)
        spans.new.states.items spans.new.places (get key_cmp spans.new.running) }
{
    end_state(&mut spans.states, &spans.running, &key, next);
    put_number(&mut spans.running, key, None);
}

/// Begins a run in the version that is being made, in the place of the one of its key.
fn begin_run(spans: &mut Spans, ready: Ready, next: u32)
    ensures { (run : StatedRun) → AreKept next spans.old.states.items spans.old.places (get key_cmp spans.old.running)
        → IsReady spans.old.states.items spans.old.places (get key_cmp spans.old.running) ready run
        → BeginsRun next run spans.old.states.items spans.old.places (get key_cmp spans.old.running)
        spans.new.states.items spans.new.places (get key_cmp spans.new.running) }
{
    let Ready { key, number } = ready;
    end_state(&mut spans.states, &spans.running, &key, next);
    begin_state(&mut spans.states, number, next);
    put_number(&mut spans.running, key, Some(number));
}

/// Ends the runs of these keys.
pub(crate) fn end_all(spans: &mut Spans, keys: Vec<RunKey>, next: u32)
    requires { AreKept next spans.old.states.items spans.old.places (get key_cmp spans.old.running) }
    ensures { EndsAll next keys.items spans.old.states.items spans.old.places (get key_cmp spans.old.running)
        spans.new.states.items spans.new.places (get key_cmp spans.new.running) }
{
    for key in keys {
        end_run(spans, key, next);
    }
}

/// Begins these runs.
pub(crate) fn begin_all(spans: &mut Spans, list: Vec<Ready>, next: u32)
    ensures { (runs : List StatedRun) → InKeyOrder runs
        → AreKept next spans.old.states.items spans.old.places (get key_cmp spans.old.running)
        → AllZip (IsReady spans.old.states.items spans.old.places (get key_cmp spans.old.running)) list.items runs
        → BeginsAll next runs spans.old.states.items spans.new.states.items spans.new.places (get key_cmp spans.new.running) }
{
    for ready in list {
        begin_run(spans, ready, next);
    }
}
