//! Tests of the texts: digits and sums, info texts and configurations, options, paths, names of write-ahead log, targets
//! of recovery, histories of timelines. By values from outside.
#![tactic(auto)]

#[cfg(test)]
mod histories;
#[cfg(test)]
mod info_texts;
#[cfg(test)]
mod options;
#[cfg(test)]
mod paths;
#[cfg(test)]
mod recovery_options;
#[cfg(test)]
mod same;
#[cfg(test)]
mod target_options;
#[cfg(test)]
mod targets;
#[cfg(test)]
mod texts;
#[cfg(test)]
mod wal_names;
