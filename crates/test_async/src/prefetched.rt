//! Tests of segments that are fetched ahead, over devices in memory.

#[cfg(test)]
mod devices;
#[cfg(test)]
mod failing;
#[cfg(test)]
mod fetches;
#[cfg(test)]
mod following;
#[cfg(test)]
mod orders;
#[cfg(test)]
mod same;
#[cfg(test)]
mod takes;
