//! At which reports of a record a client's view can be trusted.
ghost use Rattle.inp_tool.specs.Views.{FollowsTheKeys, IsSilentBehindALoss, IsSilentBeforeTheQuery, IsSilentBehindAGrab, IsSilentBehindAMask};

/// At which reports of `examples/views.rec` the promise on views speaks, and what the clients' views show there,
/// computed from its history. It does nothing: its contract is the point.
pub fn examples_of_views()
    ensures follows { FollowsTheKeys }
    ensures loss { IsSilentBehindALoss }
    ensures query { IsSilentBeforeTheQuery }
    ensures grab { IsSilentBehindAGrab }
    ensures mask { IsSilentBehindAMask }
{}
