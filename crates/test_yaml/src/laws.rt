//! A law of the definitions, for a reader. The function does nothing.
ghost use Rattle.test_yaml.specs.TreeText.{OneTree};

/// A text is that of one tree alone.
pub fn one_tree()
    ensures { OneTree }
{}
