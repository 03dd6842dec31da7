//! Tests of an online backup's talk and of its wait, by answers of a server and files of an archive from outside.
#![tactic(auto)]

#[cfg(test)]
mod pushing;
#[cfg(test)]
mod same;
#[cfg(test)]
mod serving;
#[cfg(test)]
mod talks;
#[cfg(test)]
mod waits;
