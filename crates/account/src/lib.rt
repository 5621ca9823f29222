// The account: what it holds, the calls that it takes, and what holds of it after any string of calls.
#![tactic(auto)]

ghost use Rattle.account.specs.Bounds.{BoundedAfterAnyCalls, InBoundsIsSmall};
ghost use Rattle.account.specs.Figures.{Figures};
ghost use Rattle.account.specs.RefusedCalls.{RefusedCalls};
ghost use Rattle.account.specs.Runs.{CallLaws, SafeAfterAnyCalls};

pub mod call;
pub mod orders;

// The margins of small accounts after their calls, as the definitions give them.
pub fn figures_hold()
    ensures { Figures }
{}

// What calls are told at both sides of their bounds, as the definitions give it.
pub fn refusals_hold()
    ensures { RefusedCalls }
{}

// A call is accepted exactly when none of its refusals applies, and the first that applies is told; a refused call, and margin, change nothing.
pub fn calls_are_judged()
    ensures { CallLaws }
{}

// After any string of calls the margin is the least amount that covers every world, the collateral suffices for it, and fills and cancels never raise it.
pub fn safe_after_any_calls()
    ensures { SafeAfterAnyCalls }
{}

// After any string of calls every number of the account lies within a bound that no call can pass.
pub fn bounded_after_any_calls()
    ensures { BoundedAfterAnyCalls }
{}

// Within these bounds the net, the cost and the open orders of each line are small enough for the sums of a margin.
pub fn in_bounds_is_small()
    ensures { InBoundsIsSmall }
{}
