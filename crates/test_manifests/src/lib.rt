//! Tests of manifests: their texts, the faults of other texts, the two members, and the places of files. By values from
//! outside.
#![tactic(auto)]

#[cfg(test)]
mod keeping;
#[cfg(test)]
mod manifests;
#[cfg(test)]
mod misfits;
#[cfg(test)]
mod same;
#[cfg(test)]
mod texts;
