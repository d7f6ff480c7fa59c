//! Laws of a verdict that passes: what it means, and of which moment. The functions do nothing.
ghost use Rattle.kr_plan_laws.specs.PassLaws.{PassMeansRead, DoneMeansRead, PassIsOfItsMoment};
ghost use Rattle.kr_plan_laws.specs.PassLaws.{JudgeMeansRead, PassThenLoss};

/// A verdict passes exactly where the new settings read each object stored at that moment and what
/// every other live configuration writes, and each of these reads what they write.
pub fn pass_means_read()
    ensures pass { PassMeansRead }
    ensures judge { JudgeMeansRead }
    ensures done { DoneMeansRead }
{}

/// It promises nothing of what is written later by the configuration that the replica still has.
pub fn pass_is_of_its_moment()
    ensures { PassIsOfItsMoment }
{}

/// So what is written between a pass and the restart may be lost: here it is.
pub fn pass_then_loss()
    ensures { PassThenLoss }
{}
