//! Laws of what a bench asks of plugins. The functions do nothing.
ghost use Rattle.kr_provider.specs.ExchangeLaws.{MadeSeedsAgree, ReadingsAgree};

use kr_base::Dice;

/// What a bench reads is the value's reading by whatever agrees with what plugins answered.
pub fn readings_agree()
    ensures { ReadingsAgree }
{}

/// By the same the seeds that it published are what their sources open to.
pub fn made_seeds_agree<D: Dice>()
    ensures { MadeSeedsAgree D.left D.count }
{}
