//! Tests of the system's devices, on folders and sockets of the system.
#![tactic(auto)]

#[cfg(test)]
mod clock;
#[cfg(test)]
mod connection;
#[cfg(test)]
mod control;
#[cfg(test)]
mod disk;
#[cfg(test)]
mod link;
#[cfg(test)]
mod locks;
#[cfg(test)]
mod same;
#[cfg(test)]
mod source;
#[cfg(test)]
mod tree;
