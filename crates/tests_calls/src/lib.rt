//! Tests of the broker's calls: each is made, and its answer compared.
#![tactic(auto)]

#[cfg(test)]
mod calls;
#[cfg(test)]
mod listening;
#[cfg(test)]
mod opened;
#[cfg(test)]
mod services;
#[cfg(test)]
mod transactions;
