//! Tests of retention: which backups and which files the rules expire, by tables. And expiries over a disk in memory, of
//! one cluster and of two, with a crash at each of their moments, and with each call failing in turn. And the command's
//! own part, with what it reports. By values from outside.
#![tactic(auto)]

#[cfg(test)]
mod clusters;
#[cfg(test)]
mod expiries;
#[cfg(test)]
mod files;
#[cfg(test)]
mod fixture;
#[cfg(test)]
mod listed;
#[cfg(test)]
mod options;
#[cfg(test)]
mod pruning;
#[cfg(test)]
mod rules;
#[cfg(test)]
mod same;
