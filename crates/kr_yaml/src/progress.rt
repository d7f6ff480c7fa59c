//! How far a text was read.
use crate::standing::Standing;
use crate::yaml_no::YamlNo;

/// How far tokens were read.
#[derive(Drop)]
pub enum Progress {
    /// They form a tree so far.
    Going(Standing),
    /// There was a breach, the first.
    Broken(YamlNo),
}
