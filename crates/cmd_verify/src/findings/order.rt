// Puts findings in order, each once.
ghost use Rattle.std.specs.Prelude.{◌≡◌};
ghost use Rattle.std.specs.List.Sorted.{IsStrictlySortedBy};
ghost use Rattle.base_model.specs.Text.{In};
ghost use Rattle.cmd_verify.specs.declared.findings.finding.Finding.{Finding};
ghost use Rattle.cmd_verify.specs.Exact.{finding_cmp, AreAlike};

use crate::findings::finding::Finding;

/// Puts findings in order, and keeps one of those that are alike.
pub(crate) fn put_in_order(found: &mut Vec<Finding>)
    ensures order { IsStrictlySortedBy finding_cmp found.new.items }
    ensures each { (x : Finding) → In x found.new.items → In x found.old.items }
    ensures all { (x : Finding) → In x found.old.items → (y : Finding) × In y found.new.items × AreAlike x y }
{
    found.sort_unstable();
    found.dedup();
}
