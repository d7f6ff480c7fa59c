//! The law of a verdict on one replica's settings. The function does nothing.
ghost use Rattle.kr_opening.specs.ReplicaLaws.{JudgesReplicas};

/// The verdict on a replica's new settings beside those of the replicas that are in refuses exactly
/// where one would lack a provider, and passes exactly where all fit with the new ones.
pub fn judges_replicas()
    ensures { JudgesReplicas }
{}
