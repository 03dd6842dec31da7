//! Tests of the devices in memory, and of durable writes and the archive over a disk in memory, by values from outside.
#![tactic(auto)]

#[cfg(test)]
mod archive;
#[cfg(test)]
mod disk;
#[cfg(test)]
mod ends;
#[cfg(test)]
mod files;
#[cfg(test)]
mod images;
#[cfg(test)]
mod lasting;
#[cfg(test)]
mod locks;
#[cfg(test)]
mod pushes;
#[cfg(test)]
mod same;
#[cfg(test)]
mod sink;
#[cfg(test)]
mod source;
#[cfg(test)]
mod storing;
#[cfg(test)]
mod tree;
#[cfg(test)]
mod vanishing;
