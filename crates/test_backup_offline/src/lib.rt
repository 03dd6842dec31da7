//! Tests of backups and restores over devices in memory. A backup is made of a stopped server, with each call of the
//! disk failing in turn, and with a crash at each of its moments. One is made of a running server, with each call of
//! the disk failing in turn. It is restored, with each call of the data folder failing in turn. So is a backup whose
//! small files are stored together. And which second names a backup. By values from outside.
#![tactic(auto)]

#[cfg(test)]
mod backups;
#[cfg(test)]
mod bundles;
#[cfg(test)]
mod fixture;
#[cfg(test)]
mod online;
#[cfg(test)]
mod restores;
#[cfg(test)]
mod same;
#[cfg(test)]
mod seconds;
