//! Clients that plan over one link, whose side may grow between their exchanges. What it means that each of them ended rightly, and the laws
//! that they do. It builds on `replay_laws`.
mod laws;
mod near;

pub use laws::{
    one_client_asks, one_growing_plan, one_plan, plan_faults_are_own, plan_records_replies,
    plans_are_right,
};
pub use near::{near_plans, worked_plans};
