//! The seeds of a configuration's plugins, made in the order of their names.
ghost use Rattle.std.specs.Prelude.{◌≡◌, ◌≤◌, [], false, Contains, IfOk, IsOk};
ghost use Rattle.kr_config.specs.Kept.{plugins_in, rows_of};
ghost use Rattle.kr_base.specs.Walks.{Talk};
ghost use Rattle.kr_provider.specs.AskedLinks.{Among, AskedOnly};
ghost use Rattle.kr_provider.specs.Exchanges.{plugin_refusal};
ghost use Rattle.kr_provider.specs.Names.{HasLinks, names_of};
ghost use Rattle.kr_provider.specs.Publication.{names_plugin};
ghost use Rattle.kr_provider.specs.inner.Making.{MakesAll, MakesAllBy, MakesAt, MakesOneBy};

use crate::links::Links;
use crate::refusal::PublishNo;
use kr_base::{Dice, List, Text, tell_text};
use kr_config::Settings;
use kr_kms::{Kms, SeedNo, SeedRow};
use std::alloc::Global;

/// A seed for each plugin that the settings name.
pub(crate) fn make_seeds<L: Kms, D: Dice>(
    alloc: Global,
    settings: &Settings,
    links: &mut Links<L>,
    dice: &mut D,
) -> Result<List<SeedRow>, PublishNo>
    requires links { HasLinks (names_of L.link links.old) (rows_of settings.now.entries.0) }
    ensures made { MakesAll L.link D.left D.count (rows_of settings.now.entries.0)
        links.old dice.old result links.new dice.new }
    ensures asked { AskedOnly L.link (plugins_in (rows_of settings.now.entries.0)) links.old
        links.new }
    ensures later { D.count dice.old ≤ D.count dice.new }
    ensures none { names_plugin (rows_of settings.now.entries.0) ≡ false
        → IfOk result (λ made. made.0 ≡ []) × IsOk result
        × (links.new ≡ links.old) × (dice.new ≡ dice.old) }
    ensures exchanged { Talk (Among L.step) links.old links.new
        (MakesAllBy D.left D.count (rows_of settings.now.entries.0) dice.old result dice.new) }
{
    let mut made = List::new(alloc);
    let mut after = "";
    while let Some(name) = settings.next_plugin(after) {
        let row = match make_one(alloc, name, links, dice) {
            Ok(row) => row,
            Err(why) => {
                drop(made);
                return Err(why);
            }
        };
        match made.push(row) {
            Ok(()) => {}
            Err(refused) => {
                drop(refused);
                drop(made);
                return Err(PublishNo::NoMemory);
            }
        }
        tell_text(name);
        after = name;
    }
    Ok(made)
}

/// A seed of the plugin of this name. The memory for its name, which a refusal tells, is taken before
/// it is asked.
fn make_one<L: Kms, D: Dice>(
    alloc: Global,
    name: &str,
    links: &mut Links<L>,
    dice: &mut D,
) -> Result<SeedRow, PublishNo>
    requires { Contains (names_of L.link links.old) name.now }
    ensures made { MakesAt L.link D.left D.count name.now links.old dice.old result
        links.new
        dice.new }
    ensures later { D.count dice.old ≤ D.count dice.new }
    ensures exchanged { Talk (Among L.step) links.old links.new
        (MakesOneBy D.left D.count name.now dice.old result dice.new) }
{
    let Ok(own) = Text::copy(alloc, name) else {
        return Err(PublishNo::NoMemory);
    };
    match links.make_seed(alloc, name, dice) {
        Ok(row) => {
            drop(own);
            Ok(row)
        }
        Err(why) => Err(plugin_refusal(own, why)),
    }
}

/// What the refusal of the plugin of this name is. It needs no memory.
pub(crate) fn plugin_refusal(name: Text, why: SeedNo) -> PublishNo
    ensures { result ≡ plugin_refusal name why }
{
    match why {
        SeedNo::Failed => PublishNo::PluginFailed { name },
        SeedNo::DiceFailed => {
            drop(name);
            PublishNo::DiceFailed
        }
        SeedNo::Unhealthy { field, text } => PublishNo::Unhealthy { name, field, text },
        SeedNo::NoMemory => {
            drop(name);
            PublishNo::NoMemory
        }
    }
}
