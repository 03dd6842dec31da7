// The trait of a value that is read from an info file.
ghost use Rattle.std.specs.Prelude.{◌≡◌, ◌+◌, ◌<◌, ◌≤◌, ◌^◌, ℕ, List, IfOk, length};
ghost use Rattle.base_model.specs.InfoText.{Section, info_text};
ghost use Rattle.repo_info.specs.Reading.{TextGives};

use crate::fault::MemberFault;
use crate::info::Info;
use base_text::NoMemory;
use std::alloc::Global;

/// A value that is read from an info text.
pub trait ReadInfo: Info + Drop + Sized {
    /// The values, as the repository's theorems see them.
    ghost Value: { Type 0 };

    /// The value that this one represents.
    ghost value: { Self → Value };

    /// The bytes are the text of this value.
    ghost IsText: { Value → List ℕ → Type 0 };

    /// The one text of a value.
    ghost text: { Value → List ℕ };

    /// The sections are those of no value, and break the rules at this section and key.
    ghost IsForm: { List Section → List ℕ → List ℕ → Type 0 };

    /// The most bytes that a text may have.
    fn limit() -> u64
        ensures { result ≡ Self.limit };

    /// The value of a text, or why it has none.
    fn read(alloc: Global, bytes: &[u8]) -> Result<Result<Self, MemberFault>, NoMemory>
        requires { length bytes.now ≤ Self.limit }
        ensures gives { IfOk result (λ r. TextGives IsText IsForm value bytes.now r) }
        ensures valid { IfOk result (λ r. IfOk r Self.is_valid) };

    /// A text is the one text of its value.
    ghost one_text: { (v : Value) (b : List ℕ) → IsText v b → b ≡ text v };

    /// It is within the limit.
    ghost within: { (v : Value) (b : List ℕ) → IsText v b → length b ≤ Self.limit };

    /// It is that of the sections.
    ghost own_text: { (v : Self) → text (value v) ≡ info_text (Self.sections v) };

    /// Lines and bytes of such a text have numbers of 32 bits.
    ghost small: { Self.limit + 1 < 2 ^ 32 };
}
