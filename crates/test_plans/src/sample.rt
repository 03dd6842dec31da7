//! Tests of the data folder of a sample cluster, over a data folder in memory, by values from outside.

#[cfg(test)]
mod same;
#[cfg(test)]
mod sizes;
