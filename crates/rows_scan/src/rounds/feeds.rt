//! The stops document with walks, and the connections of the cases.
use crate::feeds::Row;

/// The six stops, with a change from B to E and one from D to F.
pub(super) const WITH_WALKS: &str = "{\"changes\":[\
    {\"from\":\"A\",\"seconds\":120,\"to\":\"A\"},\
    {\"from\":\"B\",\"seconds\":120,\"to\":\"B\"},\
    {\"from\":\"B\",\"seconds\":300,\"to\":\"E\"},\
    {\"from\":\"C\",\"seconds\":120,\"to\":\"C\"},\
    {\"from\":\"D\",\"seconds\":120,\"to\":\"D\"},\
    {\"from\":\"D\",\"seconds\":60,\"to\":\"F\"},\
    {\"from\":\"E\",\"seconds\":120,\"to\":\"E\"},\
    {\"from\":\"F\",\"seconds\":120,\"to\":\"F\"}],\
    \"stops\":[{\"id\":\"A\"},{\"id\":\"B\"},{\"id\":\"C\"},{\"id\":\"D\"},{\"id\":\"E\"},{\"id\":\"F\"}]}";

pub(super) const MORNING: &[Row] = &[
    ("T1", 1, "A", 28_800, "B", 29_400),
    ("T1", 2, "B", 29_460, "C", 30_600),
    ("T3", 1, "B", 29_520, "D", 30_660),
    ("T2", 1, "B", 30_000, "D", 31_200),
    ("T4", 1, "E", 32_400, "F", 33_000),
    ("T5", 1, "E", 36_000, "F", 36_600),
];

/// T8 goes from A to D at once, and is there with T3.
pub(super) const WITH_T8: &[Row] = &[
    ("T1", 1, "A", 28_800, "B", 29_400),
    ("T8", 1, "A", 28_800, "D", 30_660),
    ("T1", 2, "B", 29_460, "C", 30_600),
    ("T3", 1, "B", 29_520, "D", 30_660),
    ("T2", 1, "B", 30_000, "D", 31_200),
];

/// T8 is there a second after T3.
pub(super) const WITH_T8_LATER: &[Row] = &[
    ("T1", 1, "A", 28_800, "B", 29_400),
    ("T8", 1, "A", 28_800, "D", 30_661),
    ("T1", 2, "B", 29_460, "C", 30_600),
    ("T3", 1, "B", 29_520, "D", 30_660),
    ("T2", 1, "B", 30_000, "D", 31_200),
];

/// By T6 and T7 one is at D after three rides. T9 goes from B to D by way of E, and its last connection departs after that of T7.
pub(super) const TWO_OR_THREE: &[Row] = &[
    ("T1", 1, "A", 28_800, "B", 29_400),
    ("T6", 1, "B", 29_520, "C", 30_000),
    ("T9", 1, "B", 29_520, "E", 30_240),
    ("T7", 1, "C", 30_120, "D", 30_660),
    ("T9", 2, "E", 30_300, "D", 30_660),
];

/// T9 departs a second too early for the change at B.
pub(super) const ONLY_THREE: &[Row] = &[
    ("T1", 1, "A", 28_800, "B", 29_400),
    ("T9", 1, "B", 29_519, "E", 30_240),
    ("T6", 1, "B", 29_520, "C", 30_000),
    ("T7", 1, "C", 30_120, "D", 30_660),
    ("T9", 2, "E", 30_300, "D", 30_660),
];

/// T6 and T7 arrive a second earlier than T9.
pub(super) const THREE_ARE_EARLIER: &[Row] = &[
    ("T1", 1, "A", 28_800, "B", 29_400),
    ("T6", 1, "B", 29_520, "C", 30_000),
    ("T9", 1, "B", 29_520, "E", 30_240),
    ("T7", 1, "C", 30_120, "D", 30_659),
    ("T9", 2, "E", 30_300, "D", 30_660),
];

/// One is at C sooner by T1 and T6 than by T8, but by T8 in time for T7 too, with one ride less.
pub(super) const SOONER_BY_MORE: &[Row] = &[
    ("T1", 1, "A", 28_800, "B", 29_400),
    ("T8", 1, "A", 28_860, "C", 30_060),
    ("T6", 1, "B", 29_520, "C", 30_000),
    ("T7", 1, "C", 30_180, "D", 30_660),
];
