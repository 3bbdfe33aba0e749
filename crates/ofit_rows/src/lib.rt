//! Worked rows of the top call: files in memory, the words of a run, and the status, counts and text that
//! it has to end with. A row is data, read by one small reader; each room holds the rows of one theme.
#![tactic(auto)]

#[cfg(test)]
mod desk;
#[cfg(test)]
mod endings;
#[cfg(test)]
mod fits;
#[cfg(test)]
mod large;
#[cfg(test)]
mod orders;
#[cfg(test)]
mod peaks;
#[cfg(test)]
mod refusals;
#[cfg(test)]
mod reports;
#[cfg(test)]
mod sessions;
#[cfg(test)]
mod sheets;
#[cfg(test)]
mod tables;
