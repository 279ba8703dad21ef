//! The tests of the broker's half: trees, and decisions over long histories.
#![tactic(auto)]

#[cfg(test)]
mod commit;
#[cfg(test)]
mod compared;
#[cfg(test)]
mod entries;
#[cfg(test)]
mod made;
#[cfg(test)]
mod near;
#[cfg(test)]
mod ops;
#[cfg(test)]
mod schemas;
#[cfg(test)]
mod tree;
