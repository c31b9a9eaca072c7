//! Laws on nets of plans, stated on functions that do nothing.

ghost use Rattle.dh_build.specs.BuiltNets.{MadeNetsAreWired};
ghost use Rattle.dh_build.specs.BuiltThreads.{BuiltNetsAreNets};
ghost use Rattle.dh_build.specs.DriverLaws.{DriversServeUsers, ShownPlansSuit};
ghost use Rattle.dh_build.specs.GraphFlows.{OneGroupIsOneThread};

/// The drivers that are made of a plan are, at each moment that its control shows, those of the users of their ports.
pub fn drivers_serve_users()
    ensures { DriversServeUsers }
{}

/// The wires of an addressed plan's values suit what control and drivers ask of them.
pub fn shown_plans_suit()
    ensures { ShownPlansSuit }
{}

/// A net that is put together of the parts of a plan of one thread is wired as its plan asks.
pub fn made_nets_are_wired()
    ensures { MadeNetsAreWired }
{}

/// A graph of a plan that has one group alone is of one thread.
pub fn one_group_is_one_thread()
    ensures { OneGroupIsOneThread }
{}

/// A net that was built by a graph of one group is the net of its plan, where it is valid.
pub fn built_nets_are_nets()
    ensures { BuiltNetsAreNets }
{}
