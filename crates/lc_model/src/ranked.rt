ghost use Rattle.std.specs.Prelude.{◌≡◌, ◌↔◌, None};
ghost use Rattle.std.specs.Cmp.{IsTotalOrder};
ghost use Rattle.std.specs.Ordering.{on};
ghost use Rattle.std.specs.declared.cmp.Ordering.{Ordering};
ghost use Rattle.lc_model.specs.Change.{change_cmp};
ghost use Rattle.lc_model.specs.Connection.{departure_cmp};
ghost use Rattle.lc_model.specs.Disorder.{disorder_after, first_disorder};
ghost use Rattle.lc_model.specs.Order.{IsStrict};
ghost use Rattle.lc_model.specs.RunKey.{key_cmp};
ghost use Rattle.lc_model.specs.Text.{id_cmp};
ghost use Rattle.lc_model.specs.declared.run.Run.{Run};
ghost use Rattle.lc_model.specs.declared.stop.Stop.{Stop};
ghost use Rattle.lc_model.specs.Totals.{change_cmp_total, departure_cmp_total, run_cmp_total, stop_cmp_total};

use crate::{Change, Connection, Run, Stop};
use std::cmp::Ordering;

/// What is in a list in an order of its own.
pub trait Ranked {
    ghost order: { Self → Self → Ordering };

    fn compare(&self, other: &Self) -> Ordering
        ensures { result ≡ order self.now other.now };

    ghost total: { IsTotalOrder order };
}

/// By departure, then trip, service date, start and sequence.
impl Ranked for Connection {
    ghost order = { departure_cmp };

    ghost total = { departure_cmp_total };

    fn compare(&self, other: &Connection) -> Ordering {
        let by_time = self.dep.cmp(&other.dep);
        by_time.then_with(|| self.key.cmp(&other.key).then(self.seq.cmp(&other.seq)))
    }
}

impl Ranked for Stop {
    ghost order = { on (λ (stop : Stop). stop.id) id_cmp };

    ghost total = { stop_cmp_total };

    fn compare(&self, other: &Stop) -> Ordering {
        self.id.cmp(&other.id)
    }
}

/// By the stop that one leaves, then by the stop that one reaches.
impl Ranked for Change {
    ghost order = { change_cmp };

    ghost total = { change_cmp_total };

    fn compare(&self, other: &Change) -> Ordering {
        self.from.cmp(&other.from).then(self.to.cmp(&other.to))
    }
}

impl Ranked for Run {
    ghost order = { on (λ (run : Run). run.key) key_cmp };

    ghost total = { run_cmp_total };

    fn compare(&self, other: &Run) -> Ordering {
        self.key.cmp(&other.key)
    }
}

/// The first place, counted from 0, whose item does not come after the one before it. Linear in the list.
pub fn first_disorder<T: Ranked>(list: &[T]) -> Option<usize>
    ensures place { result ≡ first_disorder T.order list.now }
    ensures in_order { (result ≡ None) ↔ IsStrict T.order list.now }
{
    match list.split_first() {
        Some((first, rest)) => disorder_after(first, rest),
        None => None,
    }
}

fn disorder_after<T: Ranked>(first: &T, rest: &[T]) -> Option<usize>
    ensures { result ≡ disorder_after T.order first.now 1 rest.now }
{
    let mut before = first;
    for (at, next) in rest.iter().enumerate() {
        if !before.compare(next).is_lt() {
            return Some(at + 1);
        }
        before = next;
    }
    None
}
