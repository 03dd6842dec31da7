//! Tests of what is reported about a stanza: info texts with their values, reports, and the talk with a server. By
//! values from outside.
#![tactic(auto)]

#[cfg(test)]
mod info;
#[cfg(test)]
mod misfits;
#[cfg(test)]
mod reports;
#[cfg(test)]
mod same;
#[cfg(test)]
mod talks;
#[cfg(test)]
mod texts;
