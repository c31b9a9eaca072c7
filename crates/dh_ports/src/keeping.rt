//! What is kept while accesses are counted: the pairs that were seen, and the counts of the last access. All accesses of a
//! nest of loops mostly reach alike, and then the counts of the first are those of the rest.

ghost use Rattle.std.specs.Prelude.{◌≡◌, IfOk, IsTrue, OnOk};
ghost use Rattle.dh_ports.specs.Carriers.{AreGroupSums};
ghost use Rattle.dh_ports.specs.Copies.{AreKeyCounts, IsPast};
ghost use Rattle.dh_ports.specs.Tallies.{AreCountsKept, AreCountsOf, AreSums, AreSumsOf, CarryAlike, IsReadyTally, ReachAlike};

use crate::carrying::Carrier;
use crate::copies::{AccessPaths, BankDimension, CopyLevel, PathReach};
use crate::counting::Seen;
use dh_base::NoMemory;
use std::alloc::Global;

/// With how many keys the copies of an access reach the banks of what it names.
#[derive(Drop)]
pub struct BankKeyCounts {
    /// What the access reaches.
    reach: PathReach,
    /// Its paths.
    many: u64,
    /// The banks.
    banks: u64,
    /// For each of them the number of keys.
    pub counts: Vec<usize>,
}

/// What groups of copies of an access carry to the banks of its memory.
#[derive(Drop)]
pub struct Sums {
    /// What the access reaches.
    reach: PathReach,
    /// How its charges are carried.
    carrier: Carrier,
    /// The paths of a group.
    stride: u64,
    /// The groups.
    groups: u64,
    /// For each bank of the memory the sum of what they carry there.
    pub sums: Vec<usize>,
}

/// What is kept while accesses are counted.
#[derive(Drop)]
pub struct KeyTally {
    /// The pairs that were seen.
    pub seen: Seen,
    /// The counts of the last access of a memory itself.
    pub direct: BankKeyCounts,
    /// The sums of the last access through views.
    pub last: Sums,
}

/// Whether levels are the same.
fn are_levels(one: &[CopyLevel], other: &[CopyLevel]) -> bool
    ensures { IsTrue result → one.now ≡ other.now }
{
    one == other
}

/// Whether lanes are the same.
fn are_lanes(one: &[BankDimension], other: &[BankDimension]) -> bool
    ensures { IsTrue result → one.now ≡ other.now }
{
    one == other
}

/// Whether numbers are the same.
fn are_numbers(one: &[usize], other: &[usize]) -> bool
    ensures { IsTrue result → one.now ≡ other.now }
{
    one == other
}

/// Whether two accesses reach the same by the numbers of their paths.
fn reach_alike(one: &PathReach, other: &PathReach) -> bool
    ensures { IsTrue result → ReachAlike one.now other.now }
{
    one.own == other.own
        && are_levels(one.paths.levels.as_slice(), other.paths.levels.as_slice())
        && are_lanes(one.lanes.as_slice(), other.lanes.as_slice())
}

/// Whether charges are carried the same way.
fn carry_alike(one: &Carrier, other: &Carrier) -> bool
    ensures { IsTrue result → CarryAlike one.now other.now }
{
    one.banks == other.banks
        && one.evenly == other.evenly
        && are_numbers(one.sources.as_slice(), other.sources.as_slice())
}

/// The same carrier once more.
fn same_carrier(alloc: Global, carrier: &Carrier) -> Result<Carrier, NoMemory>
    ensures { IfOk result (λ same. CarryAlike carrier.now same) }
{
    let mut sources = Vec::new(alloc);
    sources.extend_from_slice(carrier.sources.as_slice())?;
    Ok(Carrier {
        banks: carrier.banks,
        evenly: carrier.evenly,
        sources,
    })
}

/// What an access reaches that has no path.
fn no_reach(alloc: Global) -> PathReach {
    PathReach {
        paths: AccessPaths {
            levels: Vec::new(alloc),
            count: 0,
        },
        lanes: Vec::new(alloc),
        own: 0,
    }
}

impl BankKeyCounts {
    /// Those of no path on no bank.
    fn new(alloc: Global) -> BankKeyCounts
        ensures { AreCountsKept result }
    {
        let reach = no_reach(alloc);
        let counts = Vec::new(alloc);
        BankKeyCounts {
            reach,
            many: 0,
            banks: 0,
            counts,
        }
    }

    /// Whether they are those of so many paths that reach so, on so many banks.
    pub fn are_of(&self, reach: &PathReach, many: u64, banks: u64) -> bool
        ensures { IsTrue result → AreCountsOf self.now reach.now many banks }
    {
        self.many == many && self.banks == banks && reach_alike(&self.reach, reach)
    }
}

impl Sums {
    /// Those of no group, for a memory of no bank.
    fn new(alloc: Global) -> Sums
        ensures { AreSums result }
    {
        let reach = no_reach(alloc);
        let sources = Vec::new(alloc);
        let sums = Vec::new(alloc);
        Sums {
            reach,
            carrier: Carrier {
                banks: 0,
                evenly: false,
                sources,
            },
            stride: 0,
            groups: 0,
            sums,
        }
    }

    /// Whether they are those of so many groups of so many paths that reach so, carried so.
    pub fn are_of(&self, reach: &PathReach, carrier: &Carrier, stride: u64, groups: u64) -> bool
        ensures { IsTrue result → AreSumsOf self.now reach.now carrier.now stride groups }
    {
        self.stride == stride
            && self.groups == groups
            && reach_alike(&self.reach, reach)
            && carry_alike(&self.carrier, carrier)
    }
}

impl KeyTally {
    /// Nothing was counted.
    pub fn new(alloc: Global) -> KeyTally
        ensures { IsReadyTally result }
    {
        KeyTally {
            seen: Seen::new(alloc),
            direct: BankKeyCounts::new(alloc),
            last: Sums::new(alloc),
        }
    }

    /// Keeps counts in the place of the last ones.
    pub fn keep_direct(&mut self, reach: PathReach, many: u64, banks: u64, counts: Vec<usize>)
        requires are { AreKeyCounts reach 0 many banks counts.items }
        requires past { IsPast self.old.seen }
        requires kept { AreSums self.old.last }
        ensures counts { self.new.direct.counts.items ≡ counts.items }
        ensures past { IsReadyTally self.new }
    {
        self.direct = BankKeyCounts {
            reach,
            many,
            banks,
            counts,
        };
    }

    /// Keeps sums in the place of the last ones.
    pub fn keep(
        &mut self,
        alloc: Global,
        reach: PathReach,
        carrier: &Carrier,
        stride: u64,
        groups: u64,
        sums: Vec<usize>,
    ) -> Result<(), NoMemory>
        requires are { AreGroupSums reach carrier.now stride groups sums.items }
        requires past { IsPast self.old.seen }
        requires direct { AreCountsKept self.old.direct }
        ensures sums { OnOk result (self.new.last.sums.items ≡ sums.items) }
        ensures past { OnOk result (IsReadyTally self.new) }
    {
        let carrier = same_carrier(alloc, carrier)?;
        self.last = Sums {
            reach,
            carrier,
            stride,
            groups,
            sums,
        };
        Ok(())
    }
}
