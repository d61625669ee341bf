ghost use Rattle.std.specs.Prelude.{◌≡◌, max};
ghost use Rattle.lc_model.specs.Versions.Live.{in_range};

use crate::stated::Times;
use lc_model::{MOMENTS_END, Moment};

const LAST: u64 = MOMENTS_END - 1;

/// The moment of a second, or the nearest one.
pub(crate) fn nearest(second: i128) -> Moment
    ensures { result ≡ in_range second }
{
    let seconds = if second < 0 {
        0
    } else if second > LAST as i128 {
        LAST
    } else {
        second as u64
    };
    Moment::new(seconds).unwrap()
}

fn later(a: Moment, b: Moment) -> Moment
    ensures { result ≡ max a b }
{
    if a < b { b } else { a }
}

/// An arrival and a departure in range.
#[derive(Clone, Copy)]
pub(crate) struct Raised {
    pub(crate) arr: Moment,
    pub(crate) dep: Moment,
}

/// The times in range, each raised to the moment before it.
pub(crate) fn raise(before: Moment, times: Times) -> Raised
    ensures arr { result.arr ≡ max before (in_range times.arr) }
    ensures dep { result.dep ≡ max result.arr (in_range times.dep) }
{
    let arr = later(before, nearest(times.arr));
    let dep = later(arr, nearest(times.dep));
    Raised { arr, dep }
}
