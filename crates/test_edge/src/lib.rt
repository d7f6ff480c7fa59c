//! Tests of the system's streams over doubles that stop, break off and take little, of files,
//! random bytes and stores, and of child programs. They stand in a crate of their own, so that
//! kr_edge isn't proved a second time.
#![tactic(auto)]

#[cfg(test)]
mod children;
#[cfg(test)]
mod files;
#[cfg(test)]
mod placed;
#[cfg(test)]
mod stores;
#[cfg(test)]
mod tests;
