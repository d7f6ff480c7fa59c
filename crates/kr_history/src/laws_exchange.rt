//! A law of what exchanges with plugins keep. The function does nothing.
ghost use Rattle.kr_history.specs.ExchangeLaws.{KeptSeedsOpen};

/// Seeds that are kept stay what their sources open to, by whatever agrees with what plugins
/// answered.
pub fn kept_seeds_open()
    ensures { KeptSeedsOpen }
{}
