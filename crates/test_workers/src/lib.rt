//! Tests of workers: frames, what serves them, links to them, and runs of jobs over them, by values from outside.
#![tactic(auto)]

#[cfg(test)]
mod connection;
#[cfg(test)]
mod dispatch;
#[cfg(test)]
mod frames;
#[cfg(test)]
mod links;
#[cfg(test)]
mod over_workers;
#[cfg(test)]
mod same;
#[cfg(test)]
mod serving;
