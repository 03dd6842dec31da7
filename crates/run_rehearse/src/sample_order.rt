// What is rehearsed.
ghost use Rattle.std.specs.Prelude.{◌≤◌};

/// A rehearsal: by how many workers each of its steps, and of which size.
#[derive(Clone, Copy)]
pub struct SampleOrder {
    pub workers: u32,
    pub number: u32,
    ghost few: { number ≤ 64 },
}
