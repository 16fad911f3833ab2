//! The laws of the filter.

ghost use Rattle.filter_model.specs.Brought.{EachPasses};
ghost use Rattle.filter_model.specs.Fairness.{EachIsFair};
ghost use Rattle.filter_model.specs.KeptPurposes.{EachKeepsPurposes};
ghost use Rattle.filter_model.specs.Places.{EachHoldsFew};
ghost use Rattle.filter_model.specs.Watching.{EachIsExact};

/// After all events that fit, each pair that was ever open was owed exactly what its client's requests on listed keys
/// bring.
pub fn exact()
    ensures exact { EachIsExact }
{}

/// After all events that fit, no signing request was ever put to the agent behind whose message isn't for one of the
/// purposes, where any are given.
pub fn purposes()
    ensures purposes { EachKeepsPurposes }
{}

/// After all events that fit, there are 64 connections to the agent behind at most, and none that isn't needed.
pub fn places()
    ensures places { EachHoldsFew }
{}

/// Whatever calls may come, the bytes that they move are those of exact pairs.
pub fn passes()
    ensures passes { EachPasses }
{}

/// Whatever calls may come, between two services of one thing each other thing is served that is ready all the while
/// and can be served before the second.
pub fn fair()
    ensures fair { EachIsFair }
{}
