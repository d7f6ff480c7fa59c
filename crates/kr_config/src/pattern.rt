//! Patterns of resources.
ghost use Rattle.std.specs.Prelude.{◌≡◌};
ghost use Rattle.kr_config.specs.Patterns.{matches, covers_group, covers_rest, resource_group, same};
ghost use Rattle.kr_config.specs.Patterns.{overlap};
ghost use Rattle.kr_config.specs.Nexts.{lent_class};
ghost use Rattle.kr_config.specs.inner.ClassIndexes.{covers_class};

use crate::borrowed_class::BorrowedClass;
use kr_base::Text;

/// Which resources an entry speaks of.
#[derive(Drop)]
pub enum Pattern {
    /// The resource of this text.
    Exact(Text),
    /// Every resource of this group. The core group's text is empty.
    Group(Text),
    /// Every resource.
    All,
}

impl Pattern {
    /// Whether the pattern matches the resource.
    pub fn matches(&self, resource: &str) -> bool
        ensures { result ≡ matches self.now resource.now }
    {
        match self {
            Pattern::Exact(text) => text.as_str() == resource,
            Pattern::Group(group) => group.as_str() == resource_group(resource),
            Pattern::All => true,
        }
    }

    /// Whether the pattern matches every resource of the group.
    pub fn covers_group(&self, group: &str) -> bool
        ensures { result ≡ covers_group self.now group.now }
    {
        match self {
            Pattern::Exact(_) => false,
            Pattern::Group(own) => own.as_str() == group,
            Pattern::All => true,
        }
    }

    /// Whether the pattern speaks of all of the class.
    pub(crate) fn covers_class(&self, class: BorrowedClass<'_>) -> bool
        ensures { result ≡ covers_class (lent_class class.entry) self.now }
    {
        match class {
            BorrowedClass::Exact(text) => self.matches(text),
            BorrowedClass::Group(group) => self.covers_group(group),
            BorrowedClass::Rest => self.covers_rest(),
        }
    }

    /// Whether the two are one pattern.
    pub fn is_same(&self, other: &Pattern) -> bool
        ensures { result ≡ same self.now other.now }
    {
        match (self, other) {
            (Pattern::Exact(a), Pattern::Exact(b)) => a.as_str() == b.as_str(),
            (Pattern::Group(a), Pattern::Group(b)) => a.as_str() == b.as_str(),
            (Pattern::All, Pattern::All) => true,
            _ => false,
        }
    }

    /// Whether one of the two matches all, or one is a group and the other an exact one of that
    /// group.
    pub fn overlaps(&self, other: &Pattern) -> bool
        ensures { result ≡ overlap self.now other.now }
    {
        match (self, other) {
            (Pattern::All, _) | (_, Pattern::All) => true,
            (Pattern::Exact(text), Pattern::Group(group)) => resource_group(text.as_str())
                == group.as_str(),
            (Pattern::Group(group), Pattern::Exact(text)) => group.as_str()
                == resource_group(text.as_str()),
            _ => false,
        }
    }

    /// Whether the pattern matches every resource.
    pub fn covers_rest(&self) -> bool
        ensures { result ≡ covers_rest self.now }
    {
        matches!(self, Pattern::All)
    }
}

/// The group of a resource: what stands behind its first dot. The core group's text is empty.
pub fn resource_group(resource: &str) -> &str
    ensures { result.now ≡ resource_group resource.now }
{
    match resource.split_once('.') {
        Some((_, group)) => group,
        None => "",
    }
}
