//! What plugins see of a command. The function does nothing.
ghost use Rattle.kr_cmd_laws.specs.PluginLaws.{PluginsSee};

/// A command asks a plugin nothing but its status, to wrap 32 bytes, and to unwrap the source of a
/// value that it reads.
pub fn plugins_see()
    ensures { PluginsSee }
{}
