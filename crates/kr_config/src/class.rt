//! Classes of resources.
ghost use Rattle.std.specs.Prelude.{◌≡◌};
ghost use Rattle.kr_config.specs.Classes.{is_exact, is_group, is_rest};

use crate::borrowed_class::{BorrowedClass, copy_class};
use crate::pattern::Pattern;
use kr_base::{NoMemory, Text};
use std::alloc::Global;

/// A class of resources that settings treat alike. Classes are ordered: exact ones by their bytes,
/// then groups by their bytes, then the rest.
#[derive(Debug, Drop, PartialEq, Eq, PartialOrd, Ord)]
pub enum Class {
    /// The one resource of this text.
    Exact(Text),
    /// The resources of this group that have no class of their own.
    Group(Text),
    /// All other resources.
    Rest,
}

impl Class {
    ghost use Rattle.std.specs.Prelude.{IfOk};
    ghost use Rattle.kr_config.specs.Nexts.{lent_class};
    ghost use Rattle.kr_config.specs.ClassEntries.{class_pattern};

    /// The class, lent.
    pub fn borrowed(&self) -> BorrowedClass<'_>
        ensures { lent_class result ≡ self.now }
    {
        match self {
            Class::Exact(text) => BorrowedClass::Exact(text.as_str()),
            Class::Group(group) => BorrowedClass::Group(group.as_str()),
            Class::Rest => BorrowedClass::Rest,
        }
    }

    /// A copy of the class.
    pub fn copy(&self, alloc: Global) -> Result<Class, NoMemory>
        ensures { IfOk result (λ copy. copy ≡ self.now) }
    {
        copy_class(alloc, self.borrowed())
    }

    /// The pattern that speaks of the class: in an entry of its own it gives the class its list.
    pub fn pattern(&self, alloc: Global) -> Result<Pattern, NoMemory>
        ensures { IfOk result (λ pattern. pattern ≡ class_pattern self.now) }
    {
        match self {
            Class::Exact(text) => Ok(Pattern::Exact(Text::copy(alloc, text.as_str())?)),
            Class::Group(group) => Ok(Pattern::Group(Text::copy(alloc, group.as_str())?)),
            Class::Rest => Ok(Pattern::All),
        }
    }

    /// Whether this is the class of the one resource.
    pub fn is_exact(&self, resource: &str) -> bool
        ensures { result ≡ is_exact resource.now self.now }
    {
        match self {
            Class::Exact(text) => text.as_str() == resource,
            _ => false,
        }
    }

    /// Whether this is the class of the group.
    pub fn is_group(&self, group: &str) -> bool
        ensures { result ≡ is_group group.now self.now }
    {
        match self {
            Class::Group(own) => own.as_str() == group,
            _ => false,
        }
    }

    /// Whether this is the class of the rest.
    pub fn is_rest(&self) -> bool
        ensures { result ≡ is_rest self.now }
    {
        matches!(self, Class::Rest)
    }
}
