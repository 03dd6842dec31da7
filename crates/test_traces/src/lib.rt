//! Tests of calls and crashes, one after another, over devices in memory.
#![tactic(auto)]

#[cfg(test)]
mod acts;
#[cfg(test)]
mod histories;
#[cfg(test)]
mod leaving;
#[cfg(test)]
mod running;
#[cfg(test)]
mod same;
#[cfg(test)]
mod stories;
#[cfg(test)]
mod upgrades;
