//! A configuration that names the plugin `p` alone.
ghost use Rattle.std.specs.Prelude.{◌≡◌, IfSome};
ghost use Rattle.kr_provider.specs.Names.{names_of};
ghost use Rattle.kr_rollout.specs.Openings.{NamesAmong};
ghost use Rattle.test_fleet_threads.specs.Ready.{one_name};

use crate::tests::linked::{one_link, plugin};
use crate::tests::single::shared;
use kr_base::{Bytes, Dice, List, MemDice, Shared};
use kr_config::read;
use kr_kms::Kms;
use kr_provider::{Links, Published, publish};
use std::alloc::Global;

const FILE: &str = r#"{"apiVersion":"apiserver.config.k8s.io/v1","kind":"EncryptionConfiguration",
"resources":[{"resources":["secrets"],"providers":[{"kms":{"apiVersion":"v2","name":"p",
"endpoint":"unix:///p"}}]}]}"#;

/// What a published seed is made of.
const RANDOM: &[u8] = b"0123456789abcdef0123456789abcdef";

/// The configuration of the file.
pub fn published(alloc: Global) -> Option<Shared<Published>>
    ensures { IfSome result (λ p. NamesAmong one_name p.rows) }
{
    let random = Bytes::copy(alloc, RANDOM).ok()?;
    let link = plugin(alloc)?;
    shared(
        alloc,
        publish_linked(alloc, link, MemDice::new(random, List::new(alloc)))?,
    )
}

fn publish_linked<L: Kms + Drop, D: Dice + Drop>(
    alloc: Global,
    link: L,
    dice: D,
) -> Option<Published>
    ensures { IfSome result (λ p. NamesAmong one_name p.rows) }
{
    let mut dice = dice;
    let mut links = one_link(alloc, link)?;
    publish_file(alloc, &mut links, &mut dice)
}

/// Publishes the file's settings, if they name the plugin of the link alone.
fn publish_file<L: Kms, D: Dice>(
    alloc: Global,
    links: &mut Links<L>,
    dice: &mut D,
) -> Option<Published>
    requires { names_of L.link links.old ≡ one_name }
    ensures { IfSome result (λ p. NamesAmong one_name p.rows) }
{
    let settings = shared(alloc, read(alloc, FILE.as_bytes()).ok()?)?;
    if !links.serve(settings.get()) {
        return None;
    }
    match publish(alloc, settings, links, dice) {
        Ok(published) => Some(published),
        Err(why) => {
            drop(why);
            None
        }
    }
}
