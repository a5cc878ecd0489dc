//! The metavariables that a pattern names beside its code: the hot one, those that the run leaves as they are, and pairs that
//! have nothing to do with each other. `metas` are those of the code.
ghost use Rattle.std.specs.Prelude.{◌≡◌, ◌↔◌, IsTrue};
ghost use Rattle.ac_codes.specs.Listed.{texts_of, has_text};
ghost use Rattle.ac_pattern_keys.specs.Keys.{is_hot as is_hot_of, is_fixed as is_fixed_of, is_apart as is_apart_of, are_fixed as are_fixed_of, are_apart as are_apart_of, is_value as is_value_of};

use ac_codes::ApartPair;
use ac_pattern_tokens::has_sign;
use ac_tree::Name;

/// Whether a text is one of the metavariables.
pub(crate) fn contains(metas: &[&Name], text: &str) -> bool
    ensures { result ≡ has_text (texts_of metas.now) text.now }
{
    for meta in metas {
        if meta.text() == text {
            return true;
        }
    }
    false
}

/// Whether a text may be hot: a `$` of the code.
pub fn is_hot(metas: &[&Name], text: &str) -> bool
    ensures { result ≡ is_hot_of (texts_of metas.now) text.now }
{
    has_sign(text, b'$') && contains(metas, text)
}

/// Whether a text may be fixed: a `$`, `%` or `?` of the code.
fn is_fixed(metas: &[&Name], text: &str) -> bool
    ensures { result ≡ is_fixed_of (texts_of metas.now) text.now }
{
    (has_sign(text, b'$') || has_sign(text, b'%') || has_sign(text, b'?')) && contains(metas, text)
}

/// Whether a text may come first of a pair that is apart: any metavariable of the code.
fn is_value(metas: &[&Name], text: &str) -> bool
    ensures { result ≡ is_value_of (texts_of metas.now) text.now }
{
    (has_sign(text, b'@') || has_sign(text, b'$') || has_sign(text, b'%') || has_sign(text, b'?'))
        && contains(metas, text)
}

/// Whether each name may be fixed.
pub fn are_fixed(metas: &[&Name], names: &[Name]) -> bool
    ensures { result ≡ are_fixed_of (texts_of metas.now) names.now }
{
    for name in names {
        if !is_fixed(metas, name.text()) {
            return false;
        }
    }
    true
}

fn is_pair(metas: &[&Name], pair: &ApartPair) -> bool
    ensures { result ≡ is_apart_of (texts_of metas.now) pair.now }
{
    is_value(metas, pair.value.text()) && is_hot(metas, pair.name.text())
}

/// Whether each pair may be apart.
pub fn are_apart(metas: &[&Name], pairs: &[ApartPair]) -> bool
    ensures { result ≡ are_apart_of (texts_of metas.now) pairs.now }
{
    for pair in pairs {
        if !is_pair(metas, pair) {
            return false;
        }
    }
    true
}
