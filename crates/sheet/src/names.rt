//! Names of rules. Letter case is ignored.

ghost use Rattle.std.specs.Prelude.{◌≡◌};
ghost use Rattle.std.specs.Char.{eq_ignore_ascii_case};
ghost use Rattle.model.specs.Lists.{any};
ghost use Rattle.model.specs.Sheet.{same_name};
ghost use Rattle.sheet.specs.Added.{has_that_name};

use ruletext::ReadRule;

/// Whether the letters are the same.
fn same_letter(a: u8, b: u8) -> bool
    ensures { result ≡ eq_ignore_ascii_case a b }
{
    a.eq_ignore_ascii_case(&b)
}

/// Whether the names are the same.
// Letter by letter, and not by the slices' own method: what the same letter is stands in one place.
pub fn same_name(a: &[u8], b: &[u8]) -> bool
    ensures { result ≡ same_name a.now b.now }
{
    a.len() == b.len() && a.iter().zip(b).all(|(x, y)| same_letter(*x, *y))
}

/// Whether one of the rules has the name.
pub fn has_name(rules: &[ReadRule], name: &[u8]) -> bool
    ensures { result ≡ any (has_that_name name.now) rules.now }
{
    rules.iter().any(|rule| same_name(name, rule.name()))
}
