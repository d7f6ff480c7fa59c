//! Publishes settings, as a command does.
ghost use Rattle.std.specs.Prelude.{◌≡◌, ◌≤◌, All, IfOk};
ghost use Rattle.kr_config.specs.Kept.{plugins_in, rows_of};
ghost use Rattle.kr_kms.specs.Opens.{key_of};
ghost use Rattle.kr_base.specs.Walks.{Talk};
ghost use Rattle.kr_provider.specs.AskedLinks.{Among, AskedOnly};
ghost use Rattle.kr_provider.specs.Names.{HasLinks, names_of};
ghost use Rattle.kr_provider.specs.PluginOrder.{plugin_order};
ghost use Rattle.kr_cmd_steps.specs.Environment.{Environment, IsUnheard, with_exchanges};
ghost use Rattle.kr_cmd_steps.specs.Plugins.{make_seeds};
ghost use Rattle.kr_cmd_steps.specs.inner.Lent.{with_lent_dice, with_lent_links};
ghost use Rattle.kr_cmd_steps.specs.inner.Phases.{Does};
ghost use Rattle.kr_cmd_steps.specs.inner.Plugins.{NamesAFailure, IsPublishStop, seeds_in};

use kr_base::{Dice, Shared};
use kr_cmd_messages::{Object, Refusal, Stop, visible};
use kr_config::Settings;
use kr_kms::Kms;
use kr_provider::{Links, PublishNo, Published, publish};
use std::alloc::Global;

/// Publishes settings: a seed of each plugin is made.
pub fn publish_settings<L: Kms, D: Dice>(
    alloc: Global,
    settings: Shared<Settings>,
    links: &mut Links<L>,
    dice: &mut D,
) -> Result<Published, Stop>
    requires links { HasLinks (names_of L.link links.old) (rows_of settings.entries.0) }
    ensures heard { Talk (Among L.step) links.old links.new
        (λ es. (a : Environment) → Does
        (make_seeds (plugin_order (rows_of settings.entries.0)))
        (with_lent_links L.link 0 links.old
        (with_lent_dice 0 (D.left dice.old) (D.count dice.old) a))
        (with_lent_links L.link 0 links.new
        (with_lent_dice 0 (D.left dice.new) (D.count dice.new) (with_exchanges es a)))
        (seeds_in result)) }
    ensures does { (a : Environment) → IsUnheard a → Does
        (make_seeds (plugin_order (rows_of settings.entries.0)))
        (with_lent_links L.link 0 links.old
        (with_lent_dice 0 (D.left dice.old) (D.count dice.old) a))
        (with_lent_links L.link 0 links.new
        (with_lent_dice 0 (D.left dice.new) (D.count dice.new) a))
        (seeds_in result) }
    ensures rows { IfOk result (λ p. p.rows ≡ rows_of settings.entries.0) }
    ensures asked { AskedOnly L.link (plugins_in (rows_of settings.entries.0)) links.old links.new }
    ensures later { D.count dice.old ≤ D.count dice.new }
{
    links.known();
    match publish(alloc, settings, links, dice) {
        Ok(published) => Ok(published),
        Err(why) => Err(publish_stop(alloc, why, links, dice)),
    }
}

/// Why settings weren't published, as a command says it.
fn publish_stop<L: Kms, D: Dice>(alloc: Global, why: PublishNo, links: &Links<L>, dice: &D) -> Stop
    requires { NamesAFailure (names_of L.link links.now) why }
    ensures { IsPublishStop L.link links.now (D.count dice.now) why result }
{
    match why {
        PublishNo::PluginFailed { name } => {
            let count = links.faults(name.as_str());
            Stop::Fault(Object::Plugin(name), count)
        }
        PublishNo::DiceFailed => Stop::Fault(Object::Dice(0), dice.faults()),
        PublishNo::Unhealthy { name, field, text } => match visible(alloc, text.as_str()) {
            Ok(text) => Stop::Refused(Refusal::Unhealthy(name, field, text)),
            Err(_) => {
                drop(name);
                Stop::NoMemory
            }
        },
        PublishNo::NoMemory => Stop::NoMemory,
    }
}
