//! Generations.

use kr_base::Shared;
use kr_provider::Published;

/// A configuration that a replica took up. Its number is its place among all.
#[derive(Drop)]
pub struct Generation {
    pub replica: u32,
    pub published: Shared<Published>,
}
