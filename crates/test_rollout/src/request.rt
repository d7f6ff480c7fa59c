//! What a seat asks, and as which event its hand lets it ask that.
ghost use Rattle.std.specs.Prelude.{◌≡◌, ◌⊎◌, IsTrue, [], Err, IfOk};
ghost use Rattle.kr_base.specs.Rules.{IsPath, IsResource};
ghost use Rattle.kr_rollout.specs.declared.event.Event.TheVariants.{Put};
ghost use Rattle.test_rollout.specs.Hands.{CanBring, Permits};
ghost use Rattle.test_support.specs.declared.wrong.Wrong.TheVariants.{Form};

use crate::hand::Hand;
use crate::sealing::{is_plain, resealed, sealed};
use kr_base::{Bytes, Shared, Text, path_ok, resource_ok};
use kr_provider::Published;
use kr_rollout::Event;
use std::alloc::Global;
use test_support::Wrong;

/// What a seat asks.
#[derive(Drop)]
pub enum Request {
    /// An event that has no sealed value.
    Plain(Event),
    /// To put the data, sealed by what it holds.
    Put {
        path: Text,
        resource: Text,
        plain: Bytes,
    },
    /// To put the row that it found last, sealed anew by what it holds.
    Replace,
}

impl Request {
    /// Lets it go, since nobody may ask for it.
    pub fn refused<T>(self) -> Result<T, Wrong>
        ensures { result ≡ Err Form }
    {
        drop(self);
        Err(Wrong::Form)
    }
}

impl Hand {
    /// The event as which the seat may ask for this now.
    pub fn permitted_event(&self, alloc: Global, request: Request) -> Result<Event, Wrong>
        ensures { IfOk result (λ event. Permits self.now event) }
    {
        match request {
            Request::Plain(event) => self.permitted(event),
            Request::Put {
                path,
                resource,
                plain,
            } => self.putting(alloc, path, resource, plain),
            Request::Replace => self.replacing(alloc),
        }
    }

    /// The event, if the seat may ask for it.
    fn permitted(&self, event: Event) -> Result<Event, Wrong>
        ensures { IfOk result (λ event. Permits self.now event) }
    {
        if !self.permits(&event) {
            drop(event);
            return Err(Wrong::Form);
        }
        Ok(event)
    }

    /// Whether the seat may ask for it. What is sealed is made by calls of its own.
    fn permits(&self, event: &Event) -> bool
        ensures { IsTrue result → Permits self.now event.now }
    {
        match event {
            Event::Adopt { replica } => *replica < self.replicas && self.held.is_none(),
            Event::Fetch { path } => path_ok(path.as_str()) && self.held.is_some(),
            Event::After { path } => is_path_or_none(path.as_str()) && self.held.is_some(),
            Event::Put { .. } => false,
            Event::Delete { path } => path_ok(path.as_str()),
            Event::Replace { .. } => false,
            Event::LetGo => self.held.is_some(),
            Event::Reload {
                replica,
                published,
                ..
            } => self.brings(*replica, published),
            Event::Join { replica, published } => self.brings(*replica, published),
            Event::Leave { replica } => *replica < self.replicas,
        }
    }

    /// Whether the seat may bring the replica this configuration.
    fn brings(&self, replica: u32, published: &Shared<Published>) -> bool
        ensures { IsTrue result → CanBring self.now replica published.now }
    {
        replica < self.replicas && self.left > 0 && is_plain(published.get())
    }

    fn putting(
        &self,
        alloc: Global,
        path: Text,
        resource: Text,
        plain: Bytes,
    ) -> Result<Event, Wrong>
        ensures { IfOk result (λ event. Permits self.now event) }
    {
        match self.seal_by_held(alloc, &path, &resource, &plain) {
            Ok(stored) => Ok(Event::Put {
                path,
                resource,
                plain,
                stored,
            }),
            Err(why) => {
                drop(path);
                drop(resource);
                drop(plain);
                Err(why)
            }
        }
    }

    /// The value of the data, sealed by what it holds.
    fn seal_by_held(
        &self,
        alloc: Global,
        path: &Text,
        resource: &Text,
        plain: &Bytes,
    ) -> Result<Bytes, Wrong>
        ensures { IfOk result (λ stored.
            Permits self.now (Put path.now resource.now plain.now stored)) }
    {
        let held = self.held()?;
        let text = path.as_str();
        if !is_place(text, resource) {
            return Err(Wrong::Form);
        }
        let stored = sealed(alloc, held, resource, text, plain)?;
        Ok(stored)
    }

    fn replacing(&self, alloc: Global) -> Result<Event, Wrong>
        ensures { IfOk result (λ event. Permits self.now event) }
    {
        let held = self.held()?;
        let row = self.found()?;
        let text = row.path.as_str();
        if !is_place(text, &row.resource) {
            return Err(Wrong::Form);
        }
        let stored = resealed(alloc, held, row)?;
        match copy_text(alloc, text) {
            Ok(path) => Ok(Event::Replace {
                path,
                revision: row.revision,
                stored,
            }),
            Err(why) => {
                drop(stored);
                Err(why)
            }
        }
    }
}

/// Whether the texts are a path and a resource.
fn is_place(path: &str, resource: &Text) -> bool
    ensures { IsTrue result → IsPath path.now × IsResource resource.now }
{
    path_ok(path) && resource_ok(resource.as_str())
}

fn copy_text(alloc: Global, text: &str) -> Result<Text, Wrong>
    ensures { IfOk result (λ copy. copy ≡ text.now) }
{
    Ok(Text::copy(alloc, text)?)
}

/// Whether the text is a path or empty.
fn is_path_or_none(path: &str) -> bool
    ensures { IsTrue result → (path.now ≡ []) ⊎ IsPath path.now }
{
    path.is_empty() || path_ok(path)
}
