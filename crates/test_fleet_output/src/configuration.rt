//! A published configuration, of which the output shows nothing.
use kr_base::Shared;
use kr_provider::Published;
use std::alloc::Global;
use test_support::Wrong;

const FILE: &str = r#"{"apiVersion":"apiserver.config.k8s.io/v1","kind":"EncryptionConfiguration",
"resources":[{"resources":["secrets"],"providers":[{"identity":{}}]}]}"#;

/// Publishes one configuration, whose provider is identity: no plugin is asked, nothing is drawn.
pub fn published(alloc: Global) -> Result<Shared<Published>, Wrong> {
    test_support::published(alloc, FILE)
}
