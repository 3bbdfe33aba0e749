//! The two laws of flows and cuts, each as a function that does nothing and ensures it.

ghost use Rattle.ofit_flow.specs.Laws.{EqualIsOptimal, WeakDuality};

/// Weak duality: no flow is worth more than the capacity of a cut (Ford and Fulkerson 1956).
pub fn weak_duality()
    ensures { WeakDuality }
{}

/// Where a flow's value is the capacity of a cut, no flow is worth more and no cut has less
/// capacity.
pub fn equal_is_optimal()
    ensures { EqualIsOptimal }
{}
