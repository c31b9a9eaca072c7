//! How charges are carried through the views of a program, by the place of each: that of its parent is made first.

ghost use Rattle.std.specs.Prelude.{◌≡◌, ◌<◌, ◌≤◌, Some, length, slice_get, IfOk};
ghost use Rattle.std.specs.List.{AllByRecursion};
ghost use Rattle.dh_ways.specs.Kept.{KeptLed};
ghost use Rattle.dh_ports.specs.Carriers.{AreEach, Follow};
ghost use Rattle.dh_ports.specs.CarriersMade.{AreMadeCarriers, IsMadeCarrier};

use crate::carrying::{Carrier, carrier_behind, carrier_first};
use dh_base::NoMemory;
use dh_ways::WayTable;
use std::alloc::Global;

/// How charges are carried through the view at a place, by how they are through those before it.
fn carrier_at(
    alloc: Global,
    ways: &WayTable,
    each: &[Carrier],
    place: usize,
) -> Result<Carrier, NoMemory>
    requires there { place < length ways.now }
    requires follow { AllByRecursion (λ l. Follow l.way) ways.now }
    requires many { place ≤ length each.now }
    requires made { AreMadeCarriers ways.now each.now }
    ensures { IfOk result (λ made. (l : KeptLed) → slice_get ways.now place ≡ Some l
        → IsMadeCarrier l.way made) }
{
    let way = ways.at(place);
    let named = way.view();
    match ways.parent_at(place) {
        Some(parent) => carrier_behind(alloc, named, &each[parent]),
        None => carrier_first(alloc, named),
    }
}

/// How charges are carried through each of these views.
pub fn carriers_of(alloc: Global, ways: &WayTable) -> Result<Vec<Carrier>, NoMemory>
    requires { AllByRecursion (λ l. Follow l.way) ways.now }
    ensures { IfOk result (λ each. AreEach ways.now each.items) }
{
    let mut each = Vec::new(alloc);
    for place in 0..ways.len() {
        let carrier = carrier_at(alloc, ways, each.as_slice(), place)?;
        each.push(carrier)?;
    }
    Ok(each)
}
