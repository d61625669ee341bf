//! The stops documents and the connections of the cases.
use crate::feeds::Row;

/// The six stops with a change from B to E.
pub(super) const WITH_B_TO_E: &str = "{\"changes\":[\
    {\"from\":\"A\",\"seconds\":120,\"to\":\"A\"},\
    {\"from\":\"B\",\"seconds\":120,\"to\":\"B\"},\
    {\"from\":\"B\",\"seconds\":300,\"to\":\"E\"},\
    {\"from\":\"C\",\"seconds\":120,\"to\":\"C\"},\
    {\"from\":\"D\",\"seconds\":120,\"to\":\"D\"},\
    {\"from\":\"E\",\"seconds\":120,\"to\":\"E\"},\
    {\"from\":\"F\",\"seconds\":120,\"to\":\"F\"}],\
    \"stops\":[{\"id\":\"A\"},{\"id\":\"B\"},{\"id\":\"C\"},{\"id\":\"D\"},{\"id\":\"E\"},{\"id\":\"F\"}]}";

/// The six stops with a change from D to F.
pub(super) const WITH_D_TO_F: &str = "{\"changes\":[\
    {\"from\":\"A\",\"seconds\":120,\"to\":\"A\"},\
    {\"from\":\"B\",\"seconds\":120,\"to\":\"B\"},\
    {\"from\":\"C\",\"seconds\":120,\"to\":\"C\"},\
    {\"from\":\"D\",\"seconds\":120,\"to\":\"D\"},\
    {\"from\":\"D\",\"seconds\":60,\"to\":\"F\"},\
    {\"from\":\"E\",\"seconds\":120,\"to\":\"E\"},\
    {\"from\":\"F\",\"seconds\":120,\"to\":\"F\"}],\
    \"stops\":[{\"id\":\"A\"},{\"id\":\"B\"},{\"id\":\"C\"},{\"id\":\"D\"},{\"id\":\"E\"},{\"id\":\"F\"}]}";

/// B is a child of P, one changes from B to E, and there is no change at some of the stops.
pub(super) const WITH_A_CHILD: &str = "{\"changes\":[\
    {\"from\":\"A\",\"seconds\":120,\"to\":\"A\"},\
    {\"from\":\"B\",\"seconds\":120,\"to\":\"B\"},\
    {\"from\":\"B\",\"seconds\":300,\"to\":\"E\"},\
    {\"from\":\"E\",\"seconds\":120,\"to\":\"E\"},\
    {\"from\":\"Y\",\"seconds\":120,\"to\":\"Y\"}],\
    \"stops\":[{\"id\":\"A\"},{\"id\":\"B\",\"parent\":\"P\"},{\"id\":\"E\"},{\"id\":\"F\"},{\"id\":\"P\"},\
    {\"id\":\"X\"},{\"id\":\"Y\"},{\"id\":\"Z\"}]}";

/// B, C and D are children of P, and of C and D, which are nearest to E, C comes first.
pub(super) const WITH_THREE_CHILDREN: &str = "{\"changes\":[\
    {\"from\":\"B\",\"seconds\":400,\"to\":\"E\"},\
    {\"from\":\"C\",\"seconds\":300,\"to\":\"E\"},\
    {\"from\":\"D\",\"seconds\":300,\"to\":\"E\"}],\
    \"stops\":[{\"id\":\"A\"},{\"id\":\"B\",\"parent\":\"P\"},{\"id\":\"C\",\"parent\":\"P\"},{\"id\":\"D\",\"parent\":\"P\"},\
    {\"id\":\"E\"},{\"id\":\"F\"},{\"id\":\"P\"}]}";

pub(super) const MORNING: &[Row] = &[
    ("T1", 1, "A", 28_800, "B", 29_400),
    ("T1", 2, "B", 29_460, "C", 30_600),
    ("T3", 1, "B", 29_520, "D", 30_660),
    ("T2", 1, "B", 30_000, "D", 31_200),
];

pub(super) const LATER: &[Row] = &[
    ("T4", 1, "E", 32_400, "F", 33_000),
    ("T5", 1, "E", 36_000, "F", 36_600),
];

/// To B and from E; and T6, which stays at Y for no time.
pub(super) const CHANGING: &[Row] = &[
    ("T1", 1, "A", 28_800, "B", 29_400),
    ("T4", 1, "E", 32_400, "F", 33_000),
    ("T6", 1, "X", 32_400, "Y", 32_400),
    ("T6", 2, "Y", 32_400, "Z", 32_700),
];

/// T7 leaves B before T4 leaves E, and later than a walk there.
pub(super) const BESIDE: &[Row] = &[
    ("T7", 1, "B", 32_200, "F", 32_900),
    ("T4", 1, "E", 32_400, "F", 33_000),
];

/// T1 comes to B a second too late for T3.
pub(super) const MISSED: &[Row] = &[
    ("T1", 1, "A", 28_801, "B", 29_401),
    ("T3", 1, "B", 29_520, "D", 30_660),
    ("T2", 1, "B", 30_000, "D", 31_200),
];
