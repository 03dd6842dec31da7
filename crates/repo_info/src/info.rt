// The trait of a value that is kept in an info file.
ghost use Rattle.std.specs.Prelude.{◌≡◌, ℕ, List, IfOk};
ghost use Rattle.repo_ini.specs.Parts.{sections_of};
ghost use Rattle.base_model.specs.InfoText.{Section, IsInfo};

use base_text::NoMemory;
use repo_ini::Part;
use std::alloc::Global;

/// A value that has an info text.
pub trait Info {
    /// The sections of its text.
    ghost sections: { Self → List Section };

    /// The rules of its kind.
    ghost is_valid: { Self → Type 0 };

    /// The most bytes that its text may have.
    ghost limit: { ℕ };

    /// The sections, as a program holds them. A value within the rules has a text.
    fn parts(&self, alloc: Global) -> Result<Vec<Part>, NoMemory>
        requires { is_valid self.now }
        ensures sections { IfOk result (λ parts. sections_of parts.items ≡ sections self.now) }
        ensures rules { IsInfo (sections self.now) };
}
