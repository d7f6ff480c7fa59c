//! Settings by their names.
use kr_config::{Settings, Who};
use test_support::{NamedValues, Wrong};

/// Settings that lines named.
pub type NamedSettings = NamedValues<Settings>;

/// The provider by which the settings of the name write the resource.
pub fn writer<'a>(named: &'a NamedSettings, resource: &str, name: &str) -> Result<&'a Who, Wrong> {
    let settings = named.find_named(name)?;
    match settings.get().resource_list(resource).first() {
        Some(who) => Ok(who),
        None => Err(Wrong::Form),
    }
}
