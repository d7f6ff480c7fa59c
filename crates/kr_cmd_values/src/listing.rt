//! The texts of a configuration: its entries, patterns and providers.
ghost use Rattle.std.specs.Prelude.{◌≡◌, ◌++◌, codes, decimal, List, [], IfOk, map, drop};
ghost use Rattle.kr_config.specs.Kept.{rows_of, entry_lists};
ghost use Rattle.kr_cmd_steps.specs.Check.{spelled_pattern_text, provider_text, with_commas, entry_line, lines_from, provider_lines};

use kr_base::{Bytes, NoMemory};
use kr_cmd_messages::{add, add_number, add_pair};
use kr_config::{Entry, Pattern, Who};
use std::alloc::Global;

/// A line for each entry: `entry I: PATTERNS: PROVIDERS`, each list parted by commas. The first has
/// the number 0.
#[tactic(auto, using(crate::proofs::Listings::entries_more, crate::proofs::Listings::entries_all))]
pub fn entry_lines(alloc: Global, entries: &[Entry]) -> Result<Bytes, NoMemory>
    ensures { IfOk result (λ text. text ≡ lines_from 0 (rows_of entries.now)) }
{
    let mut text = Vec::new(alloc);
    let mut number: usize = 0;
    for entry in entries {
        add_entry(&mut text, number, entry)?;
        number += 1;
    }
    Ok(Bytes::from_vec(text))
}

/// A line for each provider.
#[tactic(auto, using(crate::proofs::Listings::lines_more, crate::proofs::Listings::lines_all))]
pub fn provider_lines(alloc: Global, providers: &[Who]) -> Result<Bytes, NoMemory>
    ensures { IfOk result (λ text. text ≡ provider_lines providers.now) }
{
    let mut text = Vec::new(alloc);
    for who in providers {
        add_provider(&mut text, who)?;
        add(&mut text, "\n")?;
    }
    Ok(Bytes::from_vec(text))
}

fn add_entry(text: &mut Vec<u8>, number: usize, entry: &Entry) -> Result<(), NoMemory>
    ensures { IfOk result (λ done. text.new.items
        ≡ text.old.items ++ entry_line number (entry_lists entry.now)) }
{
    add_entry_number(text, number)?;
    add_patterns(text, entry.patterns.as_slice())?;
    add(text, ": ")?;
    add_providers(text, entry.providers.as_slice())?;
    add(text, "\n")
}

fn add_entry_number(text: &mut Vec<u8>, number: usize) -> Result<(), NoMemory>
    ensures { IfOk result (λ done. text.new.items
        ≡ text.old.items ++ (codes "entry " ++ (decimal number ++ codes ": "))) }
{
    add(text, "entry ")?;
    add_number(text, number)?;
    add(text, ": ")
}

fn add_patterns(text: &mut Vec<u8>, patterns: &[Pattern]) -> Result<(), NoMemory>
    ensures { IfOk result
        (λ done. text.new.items ≡ text.old.items
        ++ with_commas (map spelled_pattern_text patterns.now)) }
{
    let Some((first, rest)) = patterns.split_first() else {
        return Ok(());
    };
    add_pattern(text, first)?;
    for pattern in rest {
        add(text, ",")?;
        add_pattern(text, pattern)?;
    }
    Ok(())
}

fn add_providers(text: &mut Vec<u8>, providers: &[Who]) -> Result<(), NoMemory>
    ensures { IfOk result
        (λ done. text.new.items ≡ text.old.items ++ with_commas (map provider_text providers.now)) }
{
    let Some((first, rest)) = providers.split_first() else {
        return Ok(());
    };
    add_provider(text, first)?;
    for who in rest {
        add(text, ",")?;
        add_provider(text, who)?;
    }
    Ok(())
}

fn add_pattern(text: &mut Vec<u8>, pattern: &Pattern) -> Result<(), NoMemory>
    ensures { IfOk result (λ done. text.new.items ≡ text.old.items
        ++ spelled_pattern_text pattern.now) }
{
    match pattern {
        Pattern::Exact(resource) => add(text, resource.as_str()),
        Pattern::Group(group) => add_pair(text, "*.", group.as_str()),
        Pattern::All => add(text, "*.*"),
    }
}

fn add_provider(text: &mut Vec<u8>, who: &Who) -> Result<(), NoMemory>
    ensures { IfOk result (λ done. text.new.items ≡ text.old.items ++ provider_text who.now) }
{
    match who {
        Who::Identity => add(text, "identity"),
        Who::Aescbc(name, _) => add_pair(text, "aescbc:", name.as_str()),
        Who::Aesgcm(name, _) => add_pair(text, "aesgcm:", name.as_str()),
        Who::Kms(name) => add_pair(text, "kms:", name.as_str()),
    }
}
