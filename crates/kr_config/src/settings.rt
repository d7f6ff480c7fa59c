//! Settings: the entries of a configuration.
ghost use Rattle.std.specs.Prelude.{◌≡◌, IsTrue, [], ◌∷◌, map};
ghost use Rattle.std.specs.List.{list_any};
ghost use Rattle.kr_config.specs.declared.who.Who.TheVariants.{Identity};
ghost use Rattle.kr_config.specs.Kept.{rows_of, keeps};
ghost use Rattle.kr_config.specs.inner.ClassIndexes.{are_classes_of, class_at};
ghost use Rattle.kr_config.specs.inner.ClassIndexes.{lists_by_place, lists_by_class};

use crate::borrowed_class::BorrowedClass;
use crate::class::Class;
use crate::class_index::ClassPlace;
use crate::pattern::Pattern;
use crate::who::Who;
use crate::{class_index, next_plugin};
use kr_base::{List, NoMemory};
use std::alloc::Global;

/// An entry of a configuration: its patterns, and the providers of the resources that they match.
#[derive(Drop)]
pub struct Entry {
    /// Which resources it speaks of, in the order of the file.
    pub patterns: List<Pattern>,
    /// What writes and reads their values: the first writes.
    pub providers: List<Who>,
}

/// A configuration that keeps the rules: no list is empty; names, patterns and secrets are of their
/// form; the patterns of a list stand apart; no list has two providers of one prefix; and no limit
/// is passed.
#[derive(Drop)]
pub struct Settings {
    /// The entries in the order of the file.
    pub entries: List<Entry>,
    /// The list of a resource that no entry matches: identity alone.
    pub fallback: List<Who>,
    /// The classes that the entries tell apart in their order, each with the place of its list, so
    /// that both are found by halves.
    pub index: List<ClassPlace>,
    pub ghost kept: { IsTrue (keeps (rows_of entries.0)) },
    pub ghost alone: { fallback.0 ≡ Identity ∷ [] },
    pub ghost told_apart: { IsTrue (are_classes_of (rows_of entries.0) (map class_at index.0)) },
    pub ghost listed: { lists_by_place (rows_of entries.0) index.0
        ≡ lists_by_class (rows_of entries.0) index.0 },
}

impl Settings {
    ghost use Rattle.std.specs.Prelude.{IfOk};
    ghost use Rattle.std.specs.Option.{option_map};
    ghost use Rattle.kr_config.specs.declared.class.Class.TheVariants.{Rest};
    ghost use Rattle.kr_config.specs.Classes.{classes_in};
    ghost use Rattle.kr_config.specs.Kept.{plugins_in};
    ghost use Rattle.kr_config.specs.Lists.{list_of, class_list};
    ghost use Rattle.kr_config.specs.inner.ClassIndexes.{entry_list, IsIndexOf};
    ghost use Rattle.kr_config.specs.Nexts.{lent_class, IsNextClass, IsNextName};

    /// The settings of entries that keep the rules.
    pub fn from_entries(alloc: Global, entries: List<Entry>) -> Result<Settings, NoMemory>
        requires { IsTrue (keeps (rows_of entries.0)) }
        ensures { IfOk result (λ settings. settings.entries ≡ entries) }
    {
        let index = List::from_vec(class_index::make_class_index(alloc, entries.as_slice())?);
        let mut fallback = List::new(alloc);
        match fallback.push(Who::Identity) {
            Ok(()) => Ok(Settings {
                entries,
                fallback,
                index,
            }),
            Err(_) => Err(NoMemory),
        }
    }

    /// What is known of all settings. It does nothing.
    pub fn known(&self)
        ensures { IsTrue (keeps (rows_of self.now.entries.0)) }
    {
        // Read, so that the check sees the fields.
        let _entries = self.entries.as_slice();
    }

    /// The providers of the first entry with a pattern that matches the resource, or identity
    /// alone.
    pub fn resource_list(&self, resource: &str) -> &[Who]
        ensures { result.now ≡ list_of (rows_of self.now.entries.0) resource.now }
    {
        self.hinted_list(BorrowedClass::Exact(resource), 0)
    }

    /// The providers of a class of resources: for an exact one its resource's, for a group those of
    /// the first entry that speaks of all of it, and for the rest those of the first entry that
    /// speaks of every resource.
    pub fn list_for_class(&self, class: &Class) -> &[Who]
        ensures { result.now ≡ class_list (rows_of self.now.entries.0) class.now }
    {
        self.hinted_list(class.borrowed(), 0)
    }

    /// The providers of a class that is lent, as `list_for_class` has them.
    pub fn list_for_borrowed(&self, class: BorrowedClass<'_>) -> &[Who]
        ensures { result.now ≡ class_list (rows_of self.now.entries.0) (lent_class class.entry) }
    {
        self.hinted_list(class, 0)
    }

    /// The same, found at once where the class is the one of this number in their order, and else
    /// by halves. Nothing but the time goes by the number.
    pub fn hinted_list(&self, class: BorrowedClass<'_>, number: usize) -> &[Who]
        ensures { result.now ≡ class_list (rows_of self.now.entries.0) (lent_class class.entry) }
    {
        self.entry_list(class_index::entry_place(self.classes(), class, number))
    }

    /// The first class after this one, or the first of all, in the order of classes, of those that
    /// the settings tell apart: the class of each pattern, and the rest. It takes no memory.
    pub fn next_class(&self, after: Option<BorrowedClass<'_>>) -> Option<BorrowedClass<'_>>
        ensures { IsNextClass (Rest ∷ classes_in (rows_of self.now.entries.0))
            (option_map lent_class after.entry) (option_map lent_class result) }
    {
        self.hinted_next_class(after, 0)
    }

    /// The same, found at once where it is the class of this number in their order, and else by
    /// halves. Nothing but the time goes by the number.
    pub fn hinted_next_class(
        &self,
        after: Option<BorrowedClass<'_>>,
        number: usize,
    ) -> Option<BorrowedClass<'_>>
        ensures { IsNextClass (Rest ∷ classes_in (rows_of self.now.entries.0))
            (option_map lent_class after.entry) (option_map lent_class result) }
    {
        class_index::next_listed_class(self.classes(), after, number)
    }

    /// The least name of a plugin after this one by bytes. Names aren't empty, so the first comes
    /// after "". It takes no memory.
    pub fn next_plugin(&self, after: &str) -> Option<&str>
        ensures { IsNextName (plugins_in (rows_of self.now.entries.0)) after.now
            (option_map (λ name. name.now) result) }
    {
        match next_plugin::next_plugin_name(self.entries.as_slice(), after) {
            Some(name) => Some(name.as_str()),
            None => None,
        }
    }

    /// The providers of the entry at the place, or identity alone behind the last.
    fn entry_list(&self, place: usize) -> &[Who]
        ensures { result.now ≡ entry_list (rows_of self.now.entries.0) place }
    {
        let entries = self.entries.as_slice();
        if place >= entries.len() {
            return self.fallback.as_slice();
        }
        entries[place].providers.as_slice()
    }

    /// The index, and what is known of it.
    fn classes(&self) -> &[ClassPlace]
        ensures { IsIndexOf (rows_of self.now.entries.0) result.now }
    {
        self.index.as_slice()
    }
}

impl Entry {
    ghost use Rattle.kr_config.specs.Nexts.{lent_class};
    ghost use Rattle.kr_config.specs.inner.ClassIndexes.{covers_class};

    /// Whether one of its patterns speaks of all of the class.
    pub(crate) fn covers_class(&self, class: BorrowedClass<'_>) -> bool
        ensures { result ≡ list_any (covers_class (lent_class class.entry)) self.now.patterns.0 }
    {
        self.patterns
            .as_slice()
            .iter()
            .any(|pattern| pattern.covers_class(class))
    }
}
