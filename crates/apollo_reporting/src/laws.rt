//! Worked excerpts, computed.
ghost use Rattle.std.specs.Prelude.{◌≡◌, ◌∷◌, ◌++◌, [], codes};
ghost use Rattle.apollo_reporting.specs.WorkedExcerpts.{drawn, wide_text};

/// A tab stays a tab under the line, and a wide character has one mark. A span of several lines is marked up
/// to the end of its first. An empty span has one mark, also at the end of the text. Lines end with a line
/// feed, a carriage return, or both: GraphQL specification of October 2021, section 2.1.3.
pub fn worked_excerpts()
    ensures tab { drawn (codes "{\n\tab\n}") 3 5
        ≡ record { line = codes "\tab"; before = codes "\t"; marks = codes "^^" } }
    ensures both { drawn (codes "a\r\nbc\r\n") 4 5
        ≡ record { line = codes "bc"; before = codes " "; marks = codes "^" } }
    ensures carriage_return { drawn (codes "a\rb") 2 3
        ≡ record { line = codes "b"; before = []; marks = codes "^" } }
    ensures wide { drawn wide_text 2 7
        ≡ record { line = wide_text; before = codes " "; marks = codes "^^^" } }
    ensures several_lines { drawn (codes "{ab\ncd}") 1 6
        ≡ record { line = codes "{ab"; before = codes " "; marks = codes "^^" } }
    ensures end_of_text { drawn (codes "ab") 2 2
        ≡ record { line = codes "ab"; before = codes "  "; marks = codes "^" } }
    ensures behind_last_line { drawn (codes "a\n") 2 2
        ≡ record { line = []; before = []; marks = codes "^" } }
    ensures end_of_line { drawn (codes "a\nb") 1 1
        ≡ record { line = codes "a"; before = codes " "; marks = codes "^" } }
    ensures empty_text { drawn [] 0 0 ≡ record { line = []; before = []; marks = codes "^" } }
{}
