//! Parts of a text.

ghost use Rattle.std.specs.Prelude.{◌≡◌, option_map};
ghost use Rattle.options_read.specs.Words.{after_prefix};
ghost use Rattle.options_table.specs.Values.{split_equals};

pub(crate) fn after_prefix<'a>(prefix: &str, text: &'a str) -> Option<&'a str>
    ensures { option_map (λ t. t.now) result ≡ after_prefix prefix.now text.now }
{
    text.strip_prefix(prefix)
}

pub(crate) fn split_equals(text: &str) -> Option<(&str, &str)>
    ensures { option_map (λ p. (p.0.now, p.1.now)) result ≡ split_equals text.now }
{
    text.split_once('=')
}
