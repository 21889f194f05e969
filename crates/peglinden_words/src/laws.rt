//! What some words ask for, by the definition that [`read_words`](crate::command_line::read_words) states.
ghost use Rattle.std.specs.Prelude.{◌≡◌, ◌∷◌, [], None, Some, codes, false, true};
ghost use Rattle.peglinden_words.specs.Refusals.{are_mistaken, call_for_help};
ghost use Rattle.peglinden_words.specs.Requests.{asked};
ghost use Rattle.peglinden_words.specs.Requests.{check, fields, format, forms, lookup, schema, typed, write};

/// Words that ask for something: options stand anywhere, in either form, and behind `--` all words are files.
pub fn worked_requests()
    ensures schema { asked (codes "schema" ∷ codes "--adopt" ∷ codes "a" ∷ codes "-" ∷ [])
        ≡ Some (schema true false (forms false false None) (codes "a" ∷ codes "-" ∷ [])) }
    ensures check { asked (codes "check" ∷ codes "--schema" ∷ codes "s" ∷ codes "d"
        ∷ codes "--schema=t" ∷ codes "--json" ∷ codes "--max-faults" ∷ codes "20" ∷ codes "--" ∷ codes "--e"
        ∷ []) ≡ Some
        (check (forms true false (Some 20)) (codes "s" ∷ codes "t" ∷ []) (codes "d" ∷ codes "--e" ∷ [])) }
    ensures typed { asked (codes "typed" ∷ codes "d" ∷ codes "--schema=-" ∷ [])
        ≡ Some (typed (forms false false None) (codes "-" ∷ []) (codes "d" ∷ [])) }
    ensures fields { asked (codes "fields" ∷ codes "--github" ∷ codes "d" ∷ codes "e" ∷ codes "--schema=s"
        ∷ []) ≡ Some (fields (forms false true None) (codes "s" ∷ []) (codes "d" ∷ codes "e" ∷ [])) }
    ensures lookup { asked (codes "lookup" ∷ codes "A.b" ∷ codes "s" ∷ [])
        ≡ Some (lookup (codes "A.b") (forms false false None) (codes "s" ∷ [])) }
    ensures format { asked (codes "format" ∷ codes "--check" ∷ codes "d" ∷ [])
        ≡ Some (format true (forms false false None) (codes "d" ∷ [])) }
    ensures write { asked (codes "format" ∷ codes "--write" ∷ codes "d" ∷ codes "--drop-comments" ∷ [])
        ≡ Some (write false true (forms false false None) (codes "d" ∷ [])) }
{}

/// Words that ask for nothing: calls for help or for the version, and mistakes.
pub fn worked_refusals()
    ensures help { call_for_help (codes "--help" ∷ []) ≡ true }
    ensures help_of_check { call_for_help (codes "check" ∷ codes "-h" ∷ []) ≡ true }
    ensures version { call_for_help (codes "--version" ∷ []) ≡ true }
    ensures nothing { are_mistaken [] ≡ true }
    ensures no_file { are_mistaken (codes "format" ∷ []) ≡ true }
    ensures no_schema { are_mistaken (codes "check" ∷ codes "d" ∷ []) ≡ true }
    ensures no_document { are_mistaken (codes "check" ∷ codes "--schema" ∷ codes "s" ∷ []) ≡ true }
    ensures no_command { are_mistaken (codes "chekc" ∷ codes "d" ∷ []) ≡ true }
    ensures no_option { are_mistaken (codes "format" ∷ codes "--chekc" ∷ codes "d" ∷ []) ≡ true }
    ensures twice { are_mistaken (codes "schema" ∷ codes "--json" ∷ codes "--json" ∷ codes "a" ∷ [])
        ≡ true }
    ensures no_number { are_mistaken (codes "format" ∷ codes "--max-faults" ∷ codes "x" ∷ codes "d" ∷ [])
        ≡ true }
    ensures two_forms { are_mistaken (codes "format" ∷ codes "--json" ∷ codes "--github" ∷ codes "d" ∷ [])
        ≡ true }
    ensures input_twice { are_mistaken (codes "schema" ∷ codes "-" ∷ codes "-" ∷ []) ≡ true }
    ensures write_and_check { are_mistaken (codes "format" ∷ codes "--write" ∷ codes "--check" ∷ codes "d"
        ∷ []) ≡ true }
    ensures write_input { are_mistaken (codes "format" ∷ codes "--write" ∷ codes "-" ∷ []) ≡ true }
    ensures none { asked (codes "schema" ∷ codes "-" ∷ codes "-" ∷ []) ≡ None }
{}
