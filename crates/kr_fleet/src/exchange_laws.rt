//! Laws of what calls ask of plugins. The functions do nothing.
ghost use Rattle.kr_fleet.specs.ExchangeLaws.{JoinsAgree, ReadsAgree, RefreshesAgree, ReloadsAgree};

use kr_base::Dice;

/// What a caller sees stays honest with each configuration that it brings, by whatever agrees with
/// what plugins answered.
pub fn loads_agree<D: Dice>()
    ensures reloads { ReloadsAgree D.left D.count }
    ensures joins { JoinsAgree D.left D.count }
    ensures refreshes { RefreshesAgree D.left D.count }
{}

/// By the same what is read is the content, and the seeds that are kept are what their sources open
/// to.
pub fn reads_agree()
    ensures { ReadsAgree }
{}
