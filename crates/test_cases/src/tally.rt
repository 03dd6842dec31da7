// What was noted in the turns of a loop.
use crate::word::Word;
use std::alloc::{AllocError, Global};

/// A number for each turn.
#[derive(Drop)]
pub(crate) struct Tally {
    pub noted: Vec<u64>,
}

impl Tally {
    /// Whether the turns are as the line says: `calls N` is how many there were, `noted A B ..` are the numbers in
    /// their order, each once where it is several times in a row, and `sum N` is their sum.
    pub(crate) fn fits(
        &self,
        alloc: Global,
        verb: &str,
        words: &[Word],
    ) -> Result<bool, AllocError> {
        let first = match words.first() {
            Some(word) => word.number(),
            None => 0,
        };
        match verb {
            "calls" => Ok(self.noted.len() as u64 == first),
            "sum" => Ok(self.sum() == first),
            _ => Ok(self.runs(alloc)? == numbers(alloc, words)?),
        }
    }

    fn sum(&self) -> u64 {
        let mut sum = 0u64;
        for number in &self.noted {
            sum = sum.saturating_add(*number);
        }
        sum
    }

    fn runs(&self, alloc: Global) -> Result<Vec<u64>, AllocError> {
        let mut runs = Vec::new(alloc);
        for number in &self.noted {
            if runs.last() != Some(number) {
                runs.push(*number)?;
            }
        }
        Ok(runs)
    }
}

fn numbers(alloc: Global, words: &[Word]) -> Result<Vec<u64>, AllocError> {
    let mut numbers = Vec::new(alloc);
    for word in words {
        numbers.push(word.number())?;
    }
    Ok(numbers)
}
