//! Cuts of a text.

ghost use Rattle.std.specs.Prelude.{◌≡◌, ◌<◌, option_map};
ghost use Rattle.ttx_logbook.specs.Cuts as rule;

/// What follows a key.
pub(crate) fn after<'a>(text: &'a str, key: &str) -> Option<&'a str>
    ensures { option_map (λ t. t.now) result ≡ rule.after key.now text.now }
{
    text.strip_prefix(key)
}

/// What stands before the first such character, and after it.
pub(crate) fn cut<'a>(text: &'a str, mark: char) -> Option<(&'a str, &'a str)>
    requires { mark < 128 }
    ensures { option_map (λ p. (p.0.now, p.1.now)) result ≡ rule.cut mark text.now }
{
    text.split_once(mark)
}
