//! Whether the trucks that are left can carry the rest.
ghost use Rattle.std.specs.Prelude.{◌↔◌, ◌≤◌, IsTrue};
ghost use Rattle.vrp_bound.specs.Capacity.{CanCarry};

use vrp_model::Instance;

/// Whether the current truck, at a place with this load, and this many more trucks can carry the rest. Without a limit on
/// trucks the answer is yes.
pub fn can_carry(instance: &Instance, at: u16, load: u64, rest: u64, left: Option<u16>) -> bool
    requires load { load ≤ instance.now.capacity }
    ensures { IsTrue result ↔ CanCarry instance.now at load rest left }
{
    let Some(trucks) = left else {
        return true;
    };
    let capacity = instance.capacity();
    let room = if at == 0 { 0 } else { capacity - load };
    rest <= room + u64::from(trucks) * capacity
}
