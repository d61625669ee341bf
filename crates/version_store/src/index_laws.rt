//! The laws on which an index of versions rests: which runs the next news change and which stay. Runs in any order are the live runs, and
//! a walk over their connections gives theirs. What is in force after one message more. It builds on `lc_model` and `live_calls`.
mod held;
mod kept;
mod rows;
mod touched;
mod walk;
mod worked;

pub use held::held_are_live;
pub use kept::{force_goes_on, put_at_once};
pub use rows::sorted_are_rows;
pub use touched::{others_stay, same_news_same_run, touch_few_keys, update_holds};
pub use walk::walked_are_connections;
pub use worked::worked_index;
