//! What some patterns match, by the definition that [`matches`](crate::patterns::matches) states.
ghost use Rattle.std.specs.Prelude.{◌≡◌, ◌∷◌, [], codes, false, true};
ghost use Rattle.named_files.specs.Patterns.{matches, may_be_pattern};

/// Patterns, and paths that they match.
pub fn worked_matches()
    ensures itself { matches (codes "a/b.graphql") (codes "a/b.graphql") ≡ true }
    ensures in_a_part { matches (codes "a/*.graphql") (codes "a/b.graphql") ≡ true }
    ensures empty { matches (codes "a*b") (codes "ab") ≡ true }
    ensures backtracks { matches (codes "*ab*b") (codes "aabab") ≡ true }
    ensures one { matches (codes "v?.graphql") (codes "v1.graphql") ≡ true }
    ensures whole_character { matches (codes "?") (195 ∷ 164 ∷ []) ≡ true }
    ensures no_parts { matches (codes "a/**/b") (codes "a/b") ≡ true }
    ensures some_parts { matches (codes "a/**/b") (codes "a/x/y/b") ≡ true }
    ensures anywhere { matches (codes "**/*.graphql") (codes "a/b/c.graphql") ≡ true }
    ensures all_below { matches (codes "a/**") (codes "a/b/c") ≡ true }
{}

/// Patterns, and paths that they don't match.
pub fn worked_mismatches()
    ensures other { matches (codes "a.graphql") (codes "b.graphql") ≡ false }
    ensures slash { matches (codes "a/*.graphql") (codes "a/b/c.graphql") ≡ false }
    ensures one_of_none { matches (codes "v?") (codes "v") ≡ false }
    ensures one_of_two { matches (codes "v?") (codes "v12") ≡ false }
    ensures one_slash { matches (codes "a?b") (codes "a/b") ≡ false }
    ensures ending { matches (codes "*.graphql") (codes "a.graphqls") ≡ false }
    ensures inside { matches (codes "a/**/b") (codes "a/x/c") ≡ false }
    ensures other_case { matches (codes "A") (codes "a") ≡ false }
{}

/// Words that may be patterns, and one that isn't.
pub fn worked_words()
    ensures star { may_be_pattern (codes "a/*") ≡ true }
    ensures mark { may_be_pattern (codes "a?") ≡ true }
    ensures none { may_be_pattern (codes "a[b]{c}") ≡ false }
{}
