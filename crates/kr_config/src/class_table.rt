//! The table of classes that some settings tell apart.
ghost use Rattle.std.specs.Prelude.{◌≡◌, ◌<◌, ◌↔◌, length, ◌++◌, [], ◌∷◌, List, IsTrue, IfOk, OnOk};
ghost use Rattle.std.specs.Prelude.{OnErr, Contains};
ghost use Rattle.std.specs.List.{slice_index_or, list_any, flat_map};
ghost use Rattle.std.specs.List.Sorted.{IsStrictlySortedBy};
ghost use Rattle.kr_config.specs.declared.class.Class.{Class};
ghost use Rattle.kr_config.specs.declared.class.Class.TheVariants.{Exact, Group, Rest};
ghost use Rattle.kr_config.specs.Kept.{ConfigEntry, rows_of};
ghost use Rattle.kr_config.specs.Lists.{list_of, class_list};
ghost use Rattle.kr_config.specs.Classes.{class_cmp, class_made, classes_made, classes_in};
ghost use Rattle.kr_config.specs.Classes.{IsTableOf, class_in, is_exact, is_group, is_rest};
ghost use Rattle.kr_config.specs.inner.Finds.{Finds};

use crate::class::Class;
use crate::pattern::{Pattern, resource_group};
use crate::settings::{Entry, Settings};
use kr_base::{NoMemory, Text};
use std::alloc::Global;
use std::marker::Model;

/// The classes of resources that some settings tell apart. Contracts see it as the list of its
/// classes.
#[derive(Drop)]
pub struct ClassTable {
    /// None before the first settings, so that a new table takes no memory.
    classes: Vec<Class>,
    /// The classes of no settings.
    rest: [Class; 1],
    alloc: Global,
}

impl Model for ClassTable {
    ghost use Rattle.std.specs.Prelude.{◌≡◌, List, [], ◌∷◌, IsTrue};
    ghost use Rattle.std.specs.List.{list_any};
    ghost use Rattle.kr_config.specs.declared.class.Class.{Class};
    ghost use Rattle.kr_config.specs.declared.class.Class.TheVariants.{Rest};
    ghost use Rattle.kr_config.specs.Classes.{is_rest};
    ghost use Rattle.kr_config.specs.inner.ClassTables.{or_rest};

    ghost Value = { List Class };

    ghost view = { λ table. or_rest table.classes.items };

    ghost invariant = { λ table. IsTrue (list_any is_rest (or_rest table.classes.items))
        × (table.rest ≡ Rest ∷ []) };
}

impl ClassTable {
    /// The table of no settings: the rest alone. It holds no memory yet.
    pub fn new(alloc: Global) -> ClassTable
        ensures { IsTableOf [] result }
    {
        let classes = Vec::new(alloc);
        let rest = [Class::Rest];
        ClassTable {
            classes,
            rest,
            alloc,
        }
    }

    /// Adds the classes of the settings.
    pub fn add(&mut self, settings: &Settings) -> Result<(), NoMemory>
        ensures ok { OnOk result ((added : List (List ConfigEntry)) → IsTableOf added self.old
            → IsTableOf (added ++ rows_of settings.now.entries.0 ∷ []) self.new) }
        ensures err { OnErr result (self.new ≡ self.old) }
    {
        let mut fresh = fresh_classes(self.alloc, settings.entries.as_slice())?;
        self.classes.append(&mut fresh)?;
        put_in_order(&mut self.classes);
        Ok(())
    }

    /// Lends the classes in their order: exact ones by their bytes, groups by their bytes, the
    /// rest.
    pub fn classes(&self) -> &[Class]
        ensures classes { result.now ≡ self.now }
        ensures rest { IsTrue (list_any is_rest self.now) }
    {
        if self.classes.is_empty() {
            &self.rest
        } else {
            self.classes.as_slice()
        }
    }

    /// The place of the resource's class: its own if it is there, else its group's if it is there,
    /// else the rest's. In each of the settings that were added the list of the resource is the
    /// list of this class.
    #[tactic(auto, unfolding(crate::specs::Classes::class_in), using(crate::proofs::ClassTables::law_of_classes))]
    pub fn class_place(&self, resource: &str) -> usize
        ensures within { result < length self.now }
        ensures class { (other : Class)
            → slice_index_or self.now result other ≡ class_in self.now resource.now }
        ensures law { (added : List (List ConfigEntry)) → IsTableOf added self.now
            → (rows : List ConfigEntry)
            → Contains added rows
            → list_of rows resource.now ≡ class_list rows (class_in self.now resource.now) }
    {
        let classes = self.classes();
        if let Some(at) = exact_place(classes, resource) {
            return at;
        }
        if let Some(at) = group_place(classes, resource_group(resource)) {
            return at;
        }
        match rest_place(classes) {
            Some(at) => at,
            None => unreachable!(),
        }
    }
}

/// Where the class of the one resource stands.
#[tactic(auto, using(crate::proofs::Places::finds_exact, crate::proofs::Places::finds_none))]
fn exact_place(classes: &[Class], resource: &str) -> Option<usize>
    ensures { Finds (is_exact resource.now) (Exact resource.now) classes.now result }
{
    for (i, class) in classes.iter().enumerate() {
        if class.is_exact(resource) {
            return Some(i);
        }
    }
    None
}

/// Where the class of the group stands.
#[tactic(auto, using(crate::proofs::Places::finds_group, crate::proofs::Places::finds_none))]
fn group_place(classes: &[Class], group: &str) -> Option<usize>
    ensures { Finds (is_group group.now) (Group group.now) classes.now result }
{
    for (i, class) in classes.iter().enumerate() {
        if class.is_group(group) {
            return Some(i);
        }
    }
    None
}

/// Where the rest stands.
#[tactic(auto, using(crate::proofs::Places::finds_rest, crate::proofs::Places::finds_none))]
fn rest_place(classes: &[Class]) -> Option<usize>
    ensures { Finds is_rest Rest classes.now result }
{
    for (i, class) in classes.iter().enumerate() {
        if class.is_rest() {
            return Some(i);
        }
    }
    None
}

/// Sorts the classes and leaves each once.
pub(crate) fn put_in_order(classes: &mut Vec<Class>)
    ensures ascends { IsStrictlySortedBy class_cmp classes.new.items }
    ensures members { (class : Class)
        → Contains classes.new.items class ↔ Contains classes.old.items class }
{
    classes.sort_unstable();
    classes.dedup();
}

/// The rest, and the classes that the patterns of the entries make, in their order there.
pub(crate) fn fresh_classes(alloc: Global, entries: &[Entry]) -> Result<Vec<Class>, NoMemory>
    ensures { IfOk result (λ classes. classes.items ≡ Rest ∷ classes_in (rows_of entries.now)) }
{
    let mut classes = Vec::new(alloc);
    classes.push(Class::Rest)?;
    for entry in entries {
        push_classes(alloc, &mut classes, entry.patterns.as_slice())?;
    }
    Ok(classes)
}

/// Adds the classes that the patterns make.
fn push_classes(
    alloc: Global,
    classes: &mut Vec<Class>,
    patterns: &[Pattern],
) -> Result<(), NoMemory>
    ensures { OnOk result (classes.new.items ≡ classes.old.items ++ classes_made patterns.now) }
{
    for pattern in patterns {
        push_class(alloc, classes, pattern)?;
    }
    Ok(())
}

/// Adds the class that the pattern makes, if it makes one.
fn push_class(alloc: Global, classes: &mut Vec<Class>, pattern: &Pattern) -> Result<(), NoMemory>
    ensures { OnOk result (classes.new.items ≡ classes.old.items ++ class_made pattern.now) }
{
    let class = match pattern {
        Pattern::Exact(text) => Class::Exact(Text::copy(alloc, text.as_str())?),
        Pattern::Group(group) => Class::Group(Text::copy(alloc, group.as_str())?),
        Pattern::All => return Ok(()),
    };
    classes.push(class)?;
    Ok(())
}
