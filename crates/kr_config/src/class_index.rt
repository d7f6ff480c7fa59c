//! The index of settings: the classes that their entries tell apart, with the places of their
//! lists.
ghost use Rattle.std.specs.Prelude.{◌≡◌, IfOk, List, map, IfSome, IfNone};
ghost use Rattle.std.specs.Option.{option_map};
ghost use Rattle.kr_config.specs.declared.class.Class.TheVariants.{Group, Rest};
ghost use Rattle.kr_config.specs.Kept.{ConfigEntry, rows_of};
ghost use Rattle.kr_config.specs.Lists.{class_list};
ghost use Rattle.kr_config.specs.Nexts.{lent_class, IsNextClass};
ghost use Rattle.kr_config.specs.inner.ClassIndexes.{class_at, entry_list, ArePlaces, IsIndexOf};
ghost use Rattle.kr_config.specs.inner.ClassIndexes.{IsSearchable, IsPlaceOf, StandsAt};
ghost use Rattle.kr_config.specs.inner.ClassIndexes.{IsPlaceAfter, IsEntryOf, IsAbsent};

use crate::borrowed_class::{BorrowedClass, compare};
use crate::class::Class;
use crate::class_table::{fresh_classes, put_in_order};
use crate::pattern::resource_group;
use crate::settings::Entry;
use kr_base::NoMemory;
use std::alloc::Global;
use std::cmp::Ordering;

/// A class that settings tell apart, and where its list stands.
#[derive(Drop)]
pub struct ClassPlace {
    /// The class.
    pub class: Class,
    /// The place of the first entry that speaks of all of it, or how many entries there are.
    pub entry: usize,
}

/// The index of entries.
pub fn make_class_index(alloc: Global, entries: &[Entry]) -> Result<Vec<ClassPlace>, NoMemory>
    ensures { IfOk result (λ index. IsIndexOf (rows_of entries.now) index.items) }
{
    let mut classes = fresh_classes(alloc, entries)?;
    put_in_order(&mut classes);
    let index = class_places(alloc, classes.as_slice(), entries)?;
    Ok(index)
}

/// The classes with the places of their lists.
#[tactic(auto, using(crate::proofs::ClassIndexes::places_begin, crate::proofs::ClassIndexes::places_more, crate::proofs::ClassIndexes::places_end))]
fn class_places(
    alloc: Global,
    classes: &[Class],
    entries: &[Entry],
) -> Result<Vec<ClassPlace>, NoMemory>
    ensures { IfOk result (λ index. ArePlaces (rows_of entries.now) classes.now index.items) }
{
    let mut index = Vec::with_capacity(alloc, classes.len())?;
    for class in classes {
        let entry = first_entry(entries, class.borrowed());
        let class = class.copy(alloc)?;
        index.push(ClassPlace { class, entry })?;
    }
    Ok(index)
}

/// The place of the first entry that speaks of all of the class, or how many there are.
#[tactic(auto, using(crate::proofs::ClassIndexes::first_begin, crate::proofs::FirstLists::first_more, crate::proofs::ClassIndexes::first_here, crate::proofs::ClassIndexes::first_nowhere))]
fn first_entry(entries: &[Entry], class: BorrowedClass<'_>) -> usize
    ensures { entry_list (rows_of entries.now) result
        ≡ class_list (rows_of entries.now) (lent_class class.entry) }
{
    for (i, entry) in entries.iter().enumerate() {
        if entry.covers_class(class) {
            return i;
        }
    }
    entries.len()
}

/// The first class after this one, or the first of all; found at once where its number is this.
pub fn next_listed_class<'a>(
    index: &'a [ClassPlace],
    after: Option<BorrowedClass<'_>>,
    number: usize,
) -> Option<BorrowedClass<'a>>
    requires { IsSearchable index.now }
    ensures { IsNextClass (map class_at index.now) (option_map lent_class after.entry)
        (option_map lent_class result) }
{
    let place = next_class_place(index, after, number);
    if place == index.len() {
        return None;
    }
    Some(index[place].class.borrowed())
}

/// How many classes don't come after this one.
fn next_class_place(index: &[ClassPlace], after: Option<BorrowedClass<'_>>, number: usize) -> usize
    requires { IsSearchable index.now }
    ensures { IsPlaceAfter index.now (option_map lent_class after.entry) result }
{
    let Some(after) = after else {
        return 0;
    };
    match find_class(index, after, number.saturating_sub(1)) {
        Ok(place) => place + 1,
        Err(place) => place,
    }
}

/// The place of the entry with the class's list: that of its own place, or else of its group's, or
/// else of the rest's.
pub fn entry_place(index: &[ClassPlace], class: BorrowedClass<'_>, number: usize) -> usize
    requires { IsSearchable index.now }
    ensures { (rows : List ConfigEntry) → IsIndexOf rows index.now
        → entry_list rows result ≡ class_list rows (lent_class class.entry) }
{
    match own_entry(index, class, number) {
        Some(entry) => entry,
        None => wider_entry(index, class),
    }
}

/// The same, of a class that isn't told apart.
fn wider_entry(index: &[ClassPlace], class: BorrowedClass<'_>) -> usize
    requires ordered { IsSearchable index.now }
    requires absent { IsAbsent index.now (lent_class class) }
    ensures { (rows : List ConfigEntry) → IsIndexOf rows index.now
        → entry_list rows result ≡ class_list rows (lent_class class.entry) }
{
    match class {
        BorrowedClass::Exact(text) => group_entry(index, resource_group(text)),
        BorrowedClass::Group(_) => rest_entry(index),
        BorrowedClass::Rest => rest_entry(index),
    }
}

/// The same, of a group.
fn group_entry(index: &[ClassPlace], group: &str) -> usize
    requires { IsSearchable index.now }
    ensures { (rows : List ConfigEntry) → IsIndexOf rows index.now
        → entry_list rows result ≡ class_list rows (Group group.now) }
{
    match own_entry(index, BorrowedClass::Group(group), 0) {
        Some(entry) => entry,
        None => rest_entry(index),
    }
}

/// The place of the entry with the list of the rest, which is the last class.
fn rest_entry(index: &[ClassPlace]) -> usize
    requires { IsSearchable index.now }
    ensures { IsEntryOf index.now Rest result }
{
    match own_entry(index, BorrowedClass::Rest, index.len().saturating_sub(1)) {
        Some(entry) => entry,
        None => unreachable!(),
    }
}

/// The place of the entry that stands with the class, if the class is told apart.
fn own_entry(index: &[ClassPlace], class: BorrowedClass<'_>, number: usize) -> Option<usize>
    requires { IsSearchable index.now }
    ensures some { IfSome result (IsEntryOf index.now (lent_class class.entry)) }
    ensures none { IfNone result (IsAbsent index.now (lent_class class.entry)) }
{
    match find_class(index, class, number) {
        Ok(place) => Some(index[place].entry),
        Err(_) => None,
    }
}

/// Where the class stands, or else before which it belongs; found at once where its number is this.
fn find_class(index: &[ClassPlace], class: BorrowedClass<'_>, number: usize) -> Result<usize, usize>
    requires { IsSearchable index.now }
    ensures { IsPlaceOf index.now (lent_class class.entry) result }
{
    if place_holds_class(index, class, number) {
        return Ok(number);
    }
    place_by_halves(index, class)
}

/// Whether the class stands at the place.
fn place_holds_class(index: &[ClassPlace], class: BorrowedClass<'_>, place: usize) -> bool
    ensures { StandsAt index.now (lent_class class.entry) place result }
{
    if place >= index.len() {
        return false;
    }
    compare(index[place].class.borrowed(), class).is_eq()
}

/// Where the class stands, or else before which it belongs.
#[tactic(auto, using(crate::proofs::ClassSearches::begun, crate::proofs::ClassSearches::before_middle, crate::proofs::ClassSearches::behind_middle, crate::proofs::ClassSearches::found, crate::proofs::ClassSearches::not_found))]
fn place_by_halves(index: &[ClassPlace], class: BorrowedClass<'_>) -> Result<usize, usize>
    requires { IsSearchable index.now }
    ensures { IsPlaceOf index.now (lent_class class.entry) result }
{
    let mut low = 0;
    let mut high = index.len();
    while low < high {
        let middle = low + (high - low) / 2;
        match compare(index[middle].class.borrowed(), class) {
            Ordering::Less => low = middle + 1,
            Ordering::Equal => return Ok(middle),
            Ordering::Greater => high = middle,
        }
    }
    Err(low)
}
