//! Published configurations that name no plugin.
use crate::named_values::{parse_settings, shared};
use crate::wrong::Wrong;
use kr_base::{Bytes, List, MemDice, Shared};
use kr_config::Settings;
use kr_kms::TablePlugin;
use kr_provider::{Links, Published, publish};
use std::alloc::Global;

/// Publishes a configuration, in JSON or YAML, that names no plugin: none is asked.
pub fn published(alloc: Global, text: &str) -> Result<Shared<Published>, Wrong> {
    match parse_settings(alloc, text) {
        Ok(settings) => publish_bare(alloc, settings),
        Err(why) => Err(why),
    }
}

fn publish_bare(alloc: Global, settings: Shared<Settings>) -> Result<Shared<Published>, Wrong> {
    let mut links = Links::<TablePlugin>::new(alloc);
    if !links.serve(settings.get()) {
        drop(links);
        drop(settings);
        return Err(Wrong::Form);
    }
    let mut dice = MemDice::new(Bytes::new(alloc), List::new(alloc));
    let made = publish(alloc, settings, &mut links, &mut dice);
    drop(links);
    drop(dice);
    match made {
        Ok(published) => shared(alloc, published),
        Err(why) => {
            drop(why);
            Err(Wrong::Memory)
        }
    }
}
