//! What no clause says of the lower crates' public calls: that the definitions which clauses cite mean what
//! they should, by values from outside, and that each call succeeds where memory is ample. What a run shows
//! stands in ofit_rows.
#![tactic(auto)]

#[cfg(test)]
mod chains;
#[cfg(test)]
mod cuts;
#[cfg(test)]
mod decimals;
#[cfg(test)]
mod fits;
#[cfg(test)]
mod flows;
#[cfg(test)]
mod losses;
#[cfg(test)]
mod names;
#[cfg(test)]
mod numbers;
#[cfg(test)]
mod orders;
#[cfg(test)]
mod outside;
#[cfg(test)]
mod records;
