// Whether labels are in lists.
ghost use Rattle.std.specs.Prelude.{◌≡◌};
ghost use Rattle.expire_rules.specs.Labels.{is_label, has_label};

use base_model::Label;

// Whether the two are one label.
fn is_label(a: &Label, b: &Label) -> bool
    ensures { result ≡ is_label a.now b.now }
{
    *a == *b
}

/// Whether the label is in the list.
pub fn has_label(labels: &[Label], label: &Label) -> bool
    ensures { result ≡ has_label labels.now label.now }
{
    for each in labels {
        if is_label(each, label) {
            return true;
        }
    }
    false
}
