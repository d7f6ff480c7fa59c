//! Reading an entry.
ghost use Rattle.std.specs.Prelude.{◌≡◌, map, []};
ghost use Rattle.serde_json.specs.View.{view};
ghost use Rattle.kr_config.specs.Walk.{walk, pattern_step, element_step, config_entry};
ghost use Rattle.kr_config.specs.inner.Reads.{ReadsList, ReadsEntry};

use crate::pattern::Pattern;
use crate::place::{ConfigPlace, Counts};
use crate::read_element::read_element;
use crate::read_pattern::read_pattern;
use crate::refusal::{ConfigErr, Rule};
use crate::settings::Entry;
use crate::tree::{is_mapping, named_list};
use crate::who::Who;
use kr_base::List;
use serde_json::Value;
use std::alloc::Global;

/// Reads an entry, where those before it have so many patterns, keys and plugins.
#[tactic(auto, unfolding(crate::specs::Walk::config_entry))]
pub fn read_entry(
    alloc: Global,
    counts: Counts,
    entry: u32,
    value: &Value,
) -> Result<Entry, ConfigErr>
    ensures { ReadsEntry (config_entry counts entry (view value.now)) result }
{
    let place = ConfigPlace { entry, item: 0 };
    if !is_mapping(value) {
        return Err(ConfigErr::No(Rule::Form.to_breach(place)));
    }
    let texts = named_list(value, "resources", place)?;
    let patterns = read_patterns(alloc, counts.patterns, entry, texts)?;
    let elements = named_list(value, "providers", place)?;
    let providers = read_elements(alloc, counts, entry, elements)?;
    Ok(Entry {
        patterns,
        providers,
    })
}

/// Reads the patterns of an entry in their order.
#[tactic(auto, using(crate::proofs::Trees::walk_more, crate::proofs::Trees::walk_stops, crate::proofs::Trees::walk_ends))]
fn read_patterns(
    alloc: Global,
    counted: usize,
    entry: u32,
    texts: &[Value],
) -> Result<List<Pattern>, ConfigErr>
    ensures { ReadsList (walk (pattern_step counted entry) 0 [] (map view texts.now)) result }
{
    let mut patterns = List::new(alloc);
    let mut item: u32 = 0;
    for text in texts {
        read_pattern(
            alloc,
            counted,
            ConfigPlace { entry, item },
            &mut patterns,
            text,
        )?;
        item = item.saturating_add(1);
    }
    Ok(patterns)
}

/// Reads the provider elements of an entry in their order.
#[tactic(auto, using(crate::proofs::Trees::walk_more, crate::proofs::Trees::walk_stops, crate::proofs::Trees::walk_ends))]
fn read_elements(
    alloc: Global,
    counts: Counts,
    entry: u32,
    elements: &[Value],
) -> Result<List<Who>, ConfigErr>
    ensures { ReadsList (walk (element_step counts entry) 0 [] (map view elements.now)) result }
{
    let mut providers = List::new(alloc);
    let mut item: u32 = 0;
    for element in elements {
        read_element(
            alloc,
            counts,
            ConfigPlace { entry, item },
            &mut providers,
            element,
        )?;
        item = item.saturating_add(1);
    }
    Ok(providers)
}
