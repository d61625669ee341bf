//! Versions of a timetable: what realtime messages say of trips and stops, and the definitions of what was known when. It
//! builds on the words of the timetable above it.
mod entity;
mod event;
mod stop_news;
mod trip_news;
mod update;
mod worked;

pub use entity::{EntityList, EntityNews};
pub use event::{Event, Relation, TripKind};
pub use stop_news::{StopNews, StopNewsList};
pub use trip_news::{NewsList, TripNews};
pub use update::Update;
pub use worked::worked_versions;
