//! Roots of operations, and schemas that are rebuilt of their write-outs.

use crate::schemas::building::{ADOPTING, PLAIN};
use crate::schemas::rows::Row;

pub const ROWS: [Row; 7] = [
    // A schema without a definition is rebuilt equal, and so is one of which the definition has roots.
    (
        &PLAIN,
        "",
        "- schema \nrebuilt equal: true\ncopied equal: true, true, true\n0 is next\n",
    ),
    (
        &PLAIN,
        "schema\n@ d\nroot query Q\next-schema\nroot mutation M\ndef object Q\nfield a Int\n",
        "1:1 schema \ndefinition 1:2 @ d 1:2 \nquery definition Q 1:3 \nmutation extension 0 of 1:4 M 1:5 \nQ 1:6 1:6 object Q 1:6 \na 1:7 definition 1:7 a 1:7 Int 1:7 \ndefinition Q 1:3 \nquery is Q, an object type: true\nextension 0 of 1:4 M 1:5 \nmutation is M, an object type: false\nschema\n@ d\nroot query Q\next-schema\nroot mutation M\ndef object Q\nfield a Int\nrebuilt equal: true\ncopied equal: true, true, true\n1 is next\n",
    ),
    // One without a root is not. What is written out builds an implied definition in its place.
    (
        &PLAIN,
        "schema\n@ d\ndirective d\non SCHEMA\ndef object Query\nfield a Int",
        "1:1 schema \ndefinition 1:2 @ d 1:2 \nd 1:3 1:3 directive d 1:3 false [Schema]\nQuery 1:5 1:5 object Query 1:5 \na 1:6 definition 1:6 a 1:6 Int 1:6 \ndirective d\non SCHEMA\ndef object Query\nfield a Int\nrebuilt equal: false\ncopied equal: true, true, true\n0 is next\n",
    ),
    (
        &ADOPTING,
        "directive d\non SCHEMA\ndef object Query\nfield a Int",
        "- schema \nquery definition Query - \nd 1:1 1:1 directive d 1:1 false [Schema]\nQuery 1:3 1:3 object Query 1:3 \na 1:4 definition 1:4 a 1:4 Int 1:4 \ndefinition Query - \nquery is Query, an object type: true\ndirective d\non SCHEMA\ndef object Query\nfield a Int\nrebuilt equal: true\ncopied equal: true, true, true\n0 is next\n",
    ),
    // Adopted schema definitions are rebuilt equal.
    (
        &ADOPTING,
        "directive something\non SCHEMA\next-schema\n@ something\ndef object Query\nfield field Int",
        "- schema \nextension 0 of 1:3 1:4 @ something 1:4 \nquery definition Query - \nsomething 1:1 1:1 directive something 1:1 false [Schema]\nQuery 1:5 1:5 object Query 1:5 \nfield 1:6 definition 1:6 field 1:6 Int 1:6 \ndefinition Query - \nquery is Query, an object type: true\nschema\nroot query Query\next-schema\n@ something\ndirective something\non SCHEMA\ndef object Query\nfield field Int\nrebuilt equal: true\ncopied equal: true, true, true\n1 is next\n",
    ),
    (
        &ADOPTING,
        "ext-schema\nroot query Query\ndef object Query\nfield viruses [Virus]\ndef object Virus\nfield mutations [Mutation]\ndef object Mutation\nfield something String",
        "- schema \nquery extension 0 of 1:1 Query 1:2 \nQuery 1:3 1:3 object Query 1:3 \nviruses 1:4 definition 1:4 viruses 1:4 [ Virus 1:4 ] \nVirus 1:5 1:5 object Virus 1:5 \nmutations 1:6 definition 1:6 mutations 1:6 [ Mutation 1:6 ] \nMutation 1:7 1:7 object Mutation 1:7 \nsomething 1:8 definition 1:8 something 1:8 String 1:8 \nextension 0 of 1:1 Query 1:2 \nquery is Query, an object type: true\next-schema\nroot query Query\ndef object Query\nfield viruses [Virus]\ndef object Virus\nfield mutations [Mutation]\ndef object Mutation\nfield something String\nrebuilt equal: true\ncopied equal: true, true, true\n1 is next\n",
    ),
    // Adopted types of the default names are roots.
    (
        &ADOPTING,
        "ext object Query\nfield foo String\next object Mutation\nfield bar String",
        "Query waits\nMutation waits\n- schema \nquery definition Query - \nmutation definition Mutation - \nQuery 1:1 1:1 object Query 1:1 \nfoo 1:2 extension 0 of 1:1 1:2 foo 1:2 String 1:2 \nMutation 1:3 1:3 object Mutation 1:3 \nbar 1:4 extension 1 of 1:3 1:4 bar 1:4 String 1:4 \ndefinition Query - \nquery is Query, an object type: true\ndefinition Mutation - \nmutation is Mutation, an object type: true\ndef object Query\next object Query\nfield foo String\ndef object Mutation\next object Mutation\nfield bar String\nrebuilt equal: true\ncopied equal: true, true, true\n2 is next\n",
    ),
];
