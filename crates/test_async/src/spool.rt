//! Tests of the spool over devices in memory: a drain, what the spool then says, and a file that is queued for
//! archive-push:async.

#[cfg(test)]
mod devices;
#[cfg(test)]
mod drains;
#[cfg(test)]
mod failing;
#[cfg(test)]
mod leaves;
#[cfg(test)]
mod others;
#[cfg(test)]
mod pushes;
#[cfg(test)]
mod same;
