ghost use Rattle.std.specs.Prelude.{◌≡◌};
ghost use Rattle.service_days.specs.Days.{InDayOrder};

use lc_model::{Id, Keyed, NoMemory, PlainData, ServiceDate, copy_each};
use std::alloc::Global;
use std::marker::Model;

/// A date on which a service runs.
#[derive(PartialEq, Eq, PartialOrd, Ord, Drop)]
pub struct ServiceDay {
    pub service: Id,
    pub date: ServiceDate,
}

impl PlainData for ServiceDay {
    fn copy(&self, alloc: Global) -> Result<ServiceDay, NoMemory> {
        Ok(ServiceDay {
            service: self.service.copy(alloc)?,
            date: self.date,
        })
    }
}

/// By the service.
impl Keyed for ServiceDay {
    ghost key = { λ day. day.service };

    fn key(&self) -> &Id {
        &self.service
    }
}

/// The dates of services, strictly ordered by service and date.
#[derive(Drop)]
pub struct Days {
    items: Vec<ServiceDay>,
}

impl Model for Days {
    ghost use Rattle.std.specs.Prelude.{List};
    ghost use Rattle.service_days.specs.Days.{InDayOrder};
    ghost use Rattle.service_days.specs.declared.service_day.ServiceDay.{ServiceDay};

    ghost Value = { List ServiceDay };

    ghost view = { λ d. d.items.items };

    ghost invariant = { λ d. InDayOrder d.items.items };
}

impl Days {
    pub fn from_list(list: Vec<ServiceDay>) -> Days
        requires { InDayOrder list.items }
        ensures { result ≡ list.items }
    {
        Days { items: list }
    }

    pub fn as_slice(&self) -> &[ServiceDay]
        ensures value { result.now ≡ self.now }
        ensures in_order { InDayOrder result.now }
    {
        self.items.as_slice()
    }
}

impl PlainData for Days {
    fn copy(&self, alloc: Global) -> Result<Days, NoMemory> {
        let items = copy_each(alloc, self.as_slice())?;
        Ok(Days::from_list(items))
    }
}
