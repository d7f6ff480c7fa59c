//! Published configurations by their names. None names a plugin.
use kr_base::{List, Shared, whole};
use kr_config::Settings;
use kr_provider::Published;
use std::alloc::Global;
use test_support::{NamedValues, Wrong, add, published, two_words};

/// Configurations that lines named.
#[derive(Drop)]
pub struct Named {
    all: NamedValues<Published>,
}

impl Named {
    /// None yet.
    pub fn new(alloc: Global) -> Named {
        Named {
            all: NamedValues::new(alloc),
        }
    }

    /// `NAME JSON`.
    pub fn add(&mut self, alloc: Global, rest: &str) -> Result<(), Wrong> {
        let (name, text) = two_words(rest)?;
        self.all.add(alloc, name, published(alloc, text))
    }

    /// One more owner of the configuration of the name.
    pub fn share(&self, name: &str) -> Result<Shared<Published>, Wrong> {
        self.all.share(name)
    }

    /// The configuration of each name, parted by commas; none for `-`.
    pub fn replicas(
        &self,
        alloc: Global,
        names: &str,
    ) -> Result<List<Option<Shared<Published>>>, Wrong> {
        let mut replicas = List::new(alloc);
        let done = self.add_replicas(names, &mut replicas);
        whole(replicas, done)
    }

    fn add_replicas(
        &self,
        names: &str,
        all: &mut List<Option<Shared<Published>>>,
    ) -> Result<(), Wrong> {
        for name in names.split(',') {
            add(all, self.all.share_some(name))?;
        }
        Ok(())
    }

    /// The same, of each its settings.
    pub fn settings(
        &self,
        alloc: Global,
        names: &str,
    ) -> Result<List<Option<Shared<Settings>>>, Wrong> {
        let replicas = self.replicas(alloc, names)?;
        let mut settings = List::new(alloc);
        let done = add_settings(replicas.as_slice(), &mut settings);
        drop(replicas);
        whole(settings, done)
    }
}

fn add_settings(
    replicas: &[Option<Shared<Published>>],
    all: &mut List<Option<Shared<Settings>>>,
) -> Result<(), Wrong> {
    for replica in replicas {
        add(all, share_settings(replica))?;
    }
    Ok(())
}

fn share_settings(replica: &Option<Shared<Published>>) -> Result<Option<Shared<Settings>>, Wrong> {
    match replica {
        Some(published) => Ok(Some(published.get().settings.share()?)),
        None => Ok(None),
    }
}
