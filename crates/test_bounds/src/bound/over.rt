//! Tables over some customers, with their instance and total demand, so that every question can be asked.
ghost use Rattle.std.specs.Prelude.{◌≡◌, ◌≤◌};
ghost use Rattle.vrp_model.specs.Route.{load_of};

use crate::bound::fixture::{are_customers, demand_of_all};
use std::alloc::Global;
use std::process::Abort;
use vrp_bound::Tables;
use vrp_model::Instance;

/// Tables over some customers of an instance, and their total demand.
#[derive(Drop)]
pub(crate) struct Over<'a> {
    pub(crate) tables: Tables<'a>,
    pub(crate) instance: &'a Instance,
    pub(crate) demand: u64,
    ghost of_instance: { tables.problem ≡ instance.now },
    ghost within: { demand ≤ load_of instance.now tables.among },
}

impl<'a> Over<'a> {
    /// Tables over these customers, by rising place.
    pub(crate) fn these(
        rt: &impl Abort,
        alloc: Global,
        instance: &'a Instance,
        customers: &[u16],
    ) -> Over<'a> {
        assert!(rt; are_customers(instance, customers));
        let tables = Tables::build(alloc, instance, customers).expect(rt, "memory");
        let demand = demand_of_all(instance, customers);
        Over {
            tables,
            instance,
            demand,
        }
    }

    /// Tables over all customers.
    pub(crate) fn all(rt: &impl Abort, alloc: Global, instance: &'a Instance) -> Over<'a> {
        let tables = Tables::over_all(alloc, instance).expect(rt, "memory");
        let demand = instance.whole_demand();
        Over {
            tables,
            instance,
            demand,
        }
    }

    /// Whether there is a completion table, if the tables are made.
    pub(crate) fn has_completion_table(&self) -> Option<bool> {
        match self.tables.shape() {
            Some(shape) => Some(shape.has_completion_table),
            None => None,
        }
    }
}
