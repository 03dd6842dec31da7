//! Tests of a running server's backup over devices in memory: it succeeds, it is refused, and each call of each device
//! fails in turn. By values from outside.
#![tactic(auto)]

#[cfg(test)]
mod devices;
#[cfg(test)]
mod others;
#[cfg(test)]
mod same;
#[cfg(test)]
mod serving;
#[cfg(test)]
mod takings;
