// The theorems over the machine, for every type of value.
ghost use Rattle.machine.specs.Logs.{EveryLogStands};
ghost use Rattle.machine.specs.Machine.{RefusedChangeNothing};
ghost use Rattle.machine.specs.Solutions.{OneLeastSolution};

// Every log of calls stands.
pub fn every_log_stands<V>()
    ensures { EveryLogStands V }
{}

// For given cells and inputs there is exactly one least solution.
pub fn there_is_one_least_solution<V>()
    ensures { OneLeastSolution V }
{}

// A refused call changes no wire, cell, count or phase.
pub fn refused_calls_change_nothing<V>()
    ensures { RefusedChangeNothing V }
{}
