//! What the feeds of all cases share.

/// A connection as trip, sequence, stop and second of departure, stop and second of arrival.
pub(crate) type Row = (&'static str, u32, &'static str, u32, &'static str, u32);

/// Six stops, and a change at each of them.
pub(crate) const SIX_STOPS: &str = "{\"changes\":[\
    {\"from\":\"A\",\"seconds\":120,\"to\":\"A\"},\
    {\"from\":\"B\",\"seconds\":120,\"to\":\"B\"},\
    {\"from\":\"C\",\"seconds\":120,\"to\":\"C\"},\
    {\"from\":\"D\",\"seconds\":120,\"to\":\"D\"},\
    {\"from\":\"E\",\"seconds\":120,\"to\":\"E\"},\
    {\"from\":\"F\",\"seconds\":120,\"to\":\"F\"}],\
    \"stops\":[{\"id\":\"A\"},{\"id\":\"B\"},{\"id\":\"C\"},{\"id\":\"D\"},{\"id\":\"E\"},{\"id\":\"F\"}]}";
