//! Whole runs over disks, keepers, sources and sinks in memory: of the program, each row being words, an image and a
//! script, and what has to come of them; of restorations and of boots. All that the crate has are tests.
#![tactic(auto)]

#[cfg(test)]
mod boots;
#[cfg(test)]
mod callers;
#[cfg(test)]
mod chains;
#[cfg(test)]
mod device;
#[cfg(test)]
mod drills;
#[cfg(test)]
mod faults;
#[cfg(test)]
mod images;
#[cfg(test)]
mod pairs;
#[cfg(test)]
mod pasts;
#[cfg(test)]
mod phases;
#[cfg(test)]
mod phones;
#[cfg(test)]
mod promises;
#[cfg(test)]
mod restorations;
#[cfg(test)]
mod sessions;
#[cfg(test)]
mod threads;
#[cfg(test)]
mod words;
