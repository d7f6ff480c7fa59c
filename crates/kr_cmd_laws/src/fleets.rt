//! The law of a fleet's relation, for a reader and for callers' proofs. The function does nothing.
ghost use Rattle.kr_cmd_laws.specs.FleetLaws.{FleetsAreRead};

use kr_kms::World;

/// What readers take from the relation of a fleet.
pub fn fleets_are_read<W: World>()
    ensures { FleetsAreRead W.Tap W.Link.link W.Link.step W.lent W.took W.Rand.left
        W.Rand.count }
{}
