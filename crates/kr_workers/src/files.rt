//! The configurations that a fleet file names.
ghost use Rattle.std.specs.Prelude.{◌≡◌};
ghost use Rattle.std.specs.Option.{option_map};
ghost use Rattle.kr_config.specs.Kept.{rows_of};
ghost use Rattle.kr_workers.specs.Files.{rows_at};

use kr_base::{Shared, Text};
use kr_config::Settings;

/// The settings of a configuration file.
#[derive(Drop)]
pub struct SettingsFile {
    pub name: Text,
    pub settings: Shared<Settings>,
}

/// The settings of the file of this name.
pub fn file_settings<'a>(files: &'a [SettingsFile], name: &str) -> Option<&'a Shared<Settings>>
    ensures { option_map (λ settings. rows_of settings.now.entries.0) result
        ≡ rows_at files.now name.now }
{
    for file in files {
        if file.name.as_str() == name {
            return Some(&file.settings);
        }
    }
    None
}
