//! Tests of what a backup takes of a data folder, and of the jobs that copy it, by values from outside.

#[cfg(test)]
mod filtering;
#[cfg(test)]
mod planning;
#[cfg(test)]
mod same;
