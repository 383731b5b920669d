//! Examples of what the library answers, worked out by hand from the rules.

#![tactic(auto)]

#[cfg(test)]
mod decks;
#[cfg(test)]
mod faults;
#[cfg(test)]
mod piles;
