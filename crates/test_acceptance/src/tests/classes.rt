//! The table of the classes that settings tell apart.
use kr_base::NoMemory;
use kr_config::{Class, ClassTable, Settings, read};
use std::alloc::Global;
use std::test::Fail;

/// Secrets, the others of the core group, and all others.
const THREE: &str =
    r#"{"apiVersion":"apiserver.config.k8s.io/v1","kind":"EncryptionConfiguration","resources":[{"resources":["secrets"],"providers":[{"identity":{}}]},{"resources":["*."],"providers":[{"aesgcm":{"keys":[{"name":"k","secret":"c2VjcmV0IGlzIHNlY3VyZQ=="}]}}]},{"resources":["*.*"],"providers":[{"aescbc":{"keys":[{"name":"k","secret":"dGhpcyBpcyBwYXNzd29yZA=="}]}}]}]}"#;

/// The settings of the three entries.
fn three_entry_settings(alloc: Global) -> Option<Settings> {
    let read = read(alloc, THREE.as_bytes()).ok()?;
    let Settings {
        entries,
        fallback: _fallback,
        index: _index,
    } = read;
    Settings::from_entries(alloc, entries).ok()
}

fn settings_table(alloc: Global) -> Option<ClassTable> {
    let settings = three_entry_settings(alloc)?;
    let mut table = ClassTable::new(alloc);
    let added = table.add(&settings);
    drop(settings);
    match added {
        Ok(()) => Some(table),
        Err(NoMemory) => {
            drop(table);
            None
        }
    }
}

fn is_table(table: &ClassTable) -> bool {
    match table.classes() {
        [Class::Exact(name), Class::Group(group), Class::Rest] => {
            name.as_str() == "secrets" && group.as_str() == ""
        }
        _ => false,
    }
}

fn are_copied(alloc: Global, classes: &[Class]) -> bool {
    for class in classes {
        let Ok(copy) = class.copy(alloc) else {
            return false;
        };
        let is = copy == *class;
        drop(copy);
        if !is {
            return false;
        }
    }
    true
}

#[test]
fn a_table_has_each_class_once(rt: HostRuntime) -> Result<(), Fail> {
    let table = settings_table(rt.alloc()).ok_or("no table")?;
    let is = is_table(&table) && are_copied(rt.alloc(), table.classes());
    let places = [
        table.class_place("secrets"),
        table.class_place("configmaps"),
        table.class_place("deployments.apps"),
    ];
    drop(table);
    assert!(rt; is);
    assert_eq!(rt; places, [0, 1, 2]);
    Ok(())
}
