//! Classes of resources that settings lend, so that a table of them can be gone through without
//! memory.
ghost use Rattle.std.specs.Prelude.{◌≡◌, IfOk};
ghost use Rattle.std.specs.Option.{option_map};
ghost use Rattle.std.specs.Ordering.{is_lt};
ghost use Rattle.kr_config.specs.Classes.{class_cmp};
ghost use Rattle.kr_config.specs.Nexts.{lent_class, earlier};

use crate::class::Class;
use kr_base::{NoMemory, Text};
use std::alloc::Global;
use std::cmp::Ordering;

/// A class of resources, lent. Its order is that of `Class`.
#[derive(Clone, Copy)]
pub enum BorrowedClass<'a> {
    /// The one resource of this text.
    Exact(&'a str),
    /// The resources of this group that have no class of their own.
    Group(&'a str),
    /// All other resources.
    Rest,
}

/// How the class stands to the other in the order of classes.
pub fn compare(class: BorrowedClass<'_>, other: BorrowedClass<'_>) -> Ordering
    ensures { result ≡ class_cmp (lent_class class.entry) (lent_class other.entry) }
{
    match (class, other) {
        (BorrowedClass::Exact(a), BorrowedClass::Exact(b)) => a.cmp(b),
        (BorrowedClass::Exact(_), _) => Ordering::Less,
        (BorrowedClass::Group(_), BorrowedClass::Exact(_)) => Ordering::Greater,
        (BorrowedClass::Group(a), BorrowedClass::Group(b)) => a.cmp(b),
        (BorrowedClass::Group(_), BorrowedClass::Rest) => Ordering::Less,
        (BorrowedClass::Rest, BorrowedClass::Rest) => Ordering::Equal,
        (BorrowedClass::Rest, _) => Ordering::Greater,
    }
}

/// Whether this class comes before the other.
pub fn comes_earlier(class: BorrowedClass<'_>, other: BorrowedClass<'_>) -> bool
    ensures { result ≡ is_lt (class_cmp (lent_class class.entry) (lent_class other.entry)) }
{
    compare(class, other).is_lt()
}

/// A copy of the class that is lent.
pub fn copy_class(alloc: Global, class: BorrowedClass<'_>) -> Result<Class, NoMemory>
    ensures { IfOk result (λ copy. copy ≡ lent_class class.entry) }
{
    match class {
        BorrowedClass::Exact(text) => Ok(Class::Exact(Text::copy(alloc, text)?)),
        BorrowedClass::Group(group) => Ok(Class::Group(Text::copy(alloc, group)?)),
        BorrowedClass::Rest => Ok(Class::Rest),
    }
}

/// The first of two: what comes next in one list of classes and what comes next in another.
pub fn first_class<'a>(
    one: Option<BorrowedClass<'a>>,
    other: Option<BorrowedClass<'a>>,
) -> Option<BorrowedClass<'a>>
    ensures { option_map lent_class result
        ≡ earlier class_cmp (option_map lent_class one.entry) (option_map lent_class other.entry) }
{
    match (one, other) {
        (Some(class), Some(rival)) => if comes_earlier(rival, class) {
            Some(rival)
        } else {
            Some(class)
        },
        (Some(class), None) => Some(class),
        (None, other) => other,
    }
}
