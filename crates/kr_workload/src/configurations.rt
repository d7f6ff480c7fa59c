//! The three configurations of a load, over its two secrets.
ghost use Rattle.std.specs.Prelude.{◌≡◌, IfOk, IsTrue, OnOk, [], ◌∷◌, ◌++◌, codes, length, map};
ghost use Rattle.kr_config.specs.Kept.{keeps, rows_of};
ghost use Rattle.kr_config.specs.declared.who.Who.TheVariants.{Aesgcm, Identity};
ghost use Rattle.kr_workload.specs.Loads.{configurations_by, named_configuration, of_secrets};

use crate::lists::add;
use kr_base::{Bytes, List, NoMemory, Shared, Text};
use kr_config::{Entry, Pattern, Settings, Who};
use kr_workers::SettingsFile;
use std::alloc::Global;

/// The file that both replicas open with: g1 alone.
pub const FIRST: &str = "A";

/// The file of both keys in which g1 writes.
pub const BOTH: &str = "B";

/// The file of both keys in which g2 writes.
pub const TURNED: &str = "C";

/// The resource of each object.
pub const RESOURCE: &str = "secrets";

/// The configurations. A: g1 writes. B: it writes, and g2 is read too. C: g2 writes, and g1 is read
/// too.
pub fn configuration_files(
    alloc: Global,
    g1: &[u8],
    g2: &[u8],
) -> Result<List<SettingsFile>, NoMemory>
    requires g1 { length g1.now ≡ 32 }
    requires g2 { length g2.now ≡ 32 }
    ensures { IfOk result (λ files. map named_configuration files.0
        ≡ configurations_by (Aesgcm (codes "g1") g1.now) (Aesgcm (codes "g2") g2.now)) }
{
    let mut files = List::new(alloc);
    let one = first(alloc, g1)?;
    add_file(alloc, &mut files, FIRST, one)?;
    let both = two(alloc, "g1", g1, "g2", g2)?;
    add_file(alloc, &mut files, BOTH, both)?;
    let turned = two(alloc, "g2", g2, "g1", g1)?;
    add_file(alloc, &mut files, TURNED, turned)?;
    Ok(files)
}

/// One key, and identity for what was stored before.
fn first(alloc: Global, secret: &[u8]) -> Result<List<Who>, NoMemory>
    ensures { IfOk result (λ providers. providers.0
        ≡ Aesgcm (codes "g1") secret.now ∷ (Identity ∷ [])) }
{
    let mut providers = List::new(alloc);
    add(&mut providers, aesgcm(alloc, "g1", secret)?)?;
    add(&mut providers, Who::Identity)?;
    Ok(providers)
}

/// Two keys, of which the first writes, and identity.
fn two(
    alloc: Global,
    writer: &str,
    secret: &[u8],
    reader: &str,
    other: &[u8],
) -> Result<List<Who>, NoMemory>
    ensures { IfOk result (λ providers. providers.0 ≡ Aesgcm writer.now secret.now
        ∷ (Aesgcm reader.now other.now ∷ (Identity ∷ []))) }
{
    let mut providers = List::new(alloc);
    add(&mut providers, aesgcm(alloc, writer, secret)?)?;
    add(&mut providers, aesgcm(alloc, reader, other)?)?;
    add(&mut providers, Who::Identity)?;
    Ok(providers)
}

/// AES-GCM under the key of this name.
fn aesgcm(alloc: Global, name: &str, secret: &[u8]) -> Result<Who, NoMemory>
    ensures { IfOk result (λ who. who ≡ Aesgcm name.now secret.now) }
{
    Ok(Who::Aesgcm(Text::copy(alloc, name)?, Bytes::copy(alloc, secret)?))
}

/// Adds the configuration whose one entry has these providers for the objects' resource.
fn add_file(
    alloc: Global,
    files: &mut List<SettingsFile>,
    name: &str,
    providers: List<Who>,
) -> Result<(), NoMemory>
    requires { IsTrue (keeps (of_secrets providers.0)) }
    ensures { OnOk result (map named_configuration files.new.0
        ≡ map named_configuration files.old.0 ++ (name.now, of_secrets providers.0) ∷ []) }
{
    let settings = Settings::from_entries(alloc, secrets_entries(alloc, providers)?)?;
    let name = Text::copy(alloc, name)?;
    match Shared::new(alloc, settings) {
        Ok(settings) => add(files, SettingsFile { name, settings }),
        Err(_) => Err(NoMemory),
    }
}

fn secrets_entries(alloc: Global, providers: List<Who>) -> Result<List<Entry>, NoMemory>
    ensures { IfOk result (λ entries. rows_of entries.0 ≡ of_secrets providers.0) }
{
    let mut patterns = List::new(alloc);
    add(&mut patterns, Pattern::Exact(Text::copy(alloc, RESOURCE)?))?;
    let mut entries = List::new(alloc);
    add(
        &mut entries,
        Entry {
            patterns,
            providers,
        },
    )?;
    Ok(entries)
}
