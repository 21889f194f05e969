//! Extensions, before and behind definitions and without any.

use crate::schemas::building::{ADOPTING, PLAIN};
use crate::schemas::rows::Row;

/// What is built of extensions of two types, before and behind their definitions.
const AROUND_TOLD: &str =
    "- schema \nQ 1:6 1:6 object Q 1:6 \nextension 1 of 1:8 1:9 @ d 1:9 \nextension 1 of 1:8 N 1:10 \na 1:7 definition 1:7 a 1:7 Int 1:7 \nb 1:2 extension 0 of 1:1 1:2 b 1:2 Int 1:2 \ne 1:3 extension 0 of 1:1 1:3 e 1:3 Int 1:3 \nc 1:14 extension 3 of 1:13 1:14 c 1:14 Int 1:14 \nR 1:12 1:12 object R 1:12 \nz 1:5 extension 2 of 1:4 1:5 z 1:5 Int 1:5 \ndef object Q\nfield a Int\next object Q\n@ d\nimplements N\next object Q\nfield b Int\nfield e Int\next object Q\nfield c Int\ndef object R\next object R\nfield z Int\nrebuilt equal: true\ncopied equal: true, true, true\n4 is next\n";

pub const ROWS: [Row; 7] = [
    // Extensions are numbered as they are folded, of one document and of several.
    (
        &PLAIN,
        "ext object Q\nfield b Int\nfield e Int\next object R\nfield z Int\ndef object Q\nfield a Int\next object Q\n@ d\nimplements N\n\ndef object R\next object Q\nfield c Int",
        AROUND_TOLD,
    ),
    (
        &PLAIN,
        "ext object Q\nfield b Int\nfield e Int\next object R\nfield z Int\ndef object Q\nfield a Int\next object Q\n@ d\nimplements N\n---\ndef object R\next object Q\nfield c Int",
        AROUND_TOLD,
    ),
    // An extension of each kind, and then their definitions.
    (
        &PLAIN,
        "ext scalar S\n@ b\next object O\n@ b\nimplements B\nfield b Int\next interface I\n@ b\nimplements B\nfield b Int\next union U\n@ b\nmember B\next enum E\n@ b\nvalue B\next input N\n@ b\nfield b Int\ndef scalar S\n@ a\ndef object O\n@ a\nimplements A\nfield a Int\ndef interface I\n@ a\nimplements A\nfield a Int\ndef union U\n@ a\nmember A\ndef enum E\n@ a\nvalue A\ndef input N\n@ a\nfield a Int\n",
        "- schema \nS 1:20 1:20 scalar S 1:20 \ndefinition 1:21 @ a 1:21 \nextension 0 of 1:1 1:2 @ b 1:2 \nO 1:22 1:22 object O 1:22 \ndefinition 1:23 @ a 1:23 \nextension 1 of 1:3 1:4 @ b 1:4 \ndefinition A 1:24 \nextension 1 of 1:3 B 1:5 \na 1:25 definition 1:25 a 1:25 Int 1:25 \nb 1:6 extension 1 of 1:3 1:6 b 1:6 Int 1:6 \nI 1:26 1:26 interface I 1:26 \ndefinition 1:27 @ a 1:27 \nextension 2 of 1:7 1:8 @ b 1:8 \ndefinition A 1:28 \nextension 2 of 1:7 B 1:9 \na 1:29 definition 1:29 a 1:29 Int 1:29 \nb 1:10 extension 2 of 1:7 1:10 b 1:10 Int 1:10 \nU 1:30 1:30 union U 1:30 \ndefinition 1:31 @ a 1:31 \nextension 3 of 1:11 1:12 @ b 1:12 \ndefinition A 1:32 \nextension 3 of 1:11 B 1:13 \nE 1:33 1:33 enum E 1:33 \ndefinition 1:34 @ a 1:34 \nextension 4 of 1:14 1:15 @ b 1:15 \nA 1:35 definition 1:35 A 1:35 \nB 1:16 extension 4 of 1:14 1:16 B 1:16 \nN 1:36 1:36 input N 1:36 \ndefinition 1:37 @ a 1:37 \nextension 5 of 1:17 1:18 @ b 1:18 \na 1:38 definition 1:38 a 1:38 1:38 Int 1:38 \nb 1:19 extension 5 of 1:17 1:19 b 1:19 1:19 Int 1:19 \ndef scalar S\n@ a\next scalar S\n@ b\ndef object O\n@ a\nimplements A\nfield a Int\next object O\n@ b\nimplements B\nfield b Int\ndef interface I\n@ a\nimplements A\nfield a Int\next interface I\n@ b\nimplements B\nfield b Int\ndef union U\n@ a\nmember A\next union U\n@ b\nmember B\ndef enum E\n@ a\nvalue A\next enum E\n@ b\nvalue B\ndef input N\n@ a\nfield a Int\next input N\n@ b\nfield b Int\nrebuilt equal: true\ncopied equal: true, true, true\n6 is next\n",
    ),
    // Names wait in order until they are defined.
    (
        &PLAIN,
        "ext scalar B\next scalar A\next scalar B\next scalar C\ndef scalar C",
        "B waits\nA waits\n1:1 type extension for undefined type `B`; 1:1 \n1:3 type extension for undefined type `B`; 1:3 \n1:2 type extension for undefined type `A`; 1:2 \nfaults copied equal: true\npartial schema copied equal: true\n- schema \nC 1:5 1:5 scalar C 1:5 \ndef scalar C\nrebuilt equal: true\ncopied equal: true, true, true\n1 is next\n",
    ),
    (
        &PLAIN,
        "ext scalar B\next scalar A\next scalar B\next scalar C\ndef scalar C\ndef scalar B",
        "A waits\n1:2 type extension for undefined type `A`; 1:2 \nfaults copied equal: true\npartial schema copied equal: true\n- schema \nC 1:5 1:5 scalar C 1:5 \nB 1:6 1:6 scalar B 1:6 \ndef scalar C\ndef scalar B\nrebuilt equal: true\ncopied equal: true, true, true\n3 is next\n",
    ),
    // Adopted extensions of types are numbered first. The second query root is dropped, and its extension
    // has a number all the same.
    (
        &ADOPTING,
        "ext-schema\n@ d\nroot query A\next-schema\nroot query B\next interface B\nfield x Int\next object A\nfield y Int",
        "B waits\nA waits\n1:5 duplicate definitions for the `query` root operation type; 1:3 \nfaults copied equal: true\npartial schema copied equal: true\n- schema \nextension 2 of 1:1 1:2 @ d 1:2 \nquery extension 2 of 1:1 A 1:3 \nB 1:6 1:6 interface B 1:6 \nx 1:7 extension 0 of 1:6 1:7 x 1:7 Int 1:7 \nA 1:8 1:8 object A 1:8 \ny 1:9 extension 1 of 1:8 1:9 y 1:9 Int 1:9 \nextension 2 of 1:1 A 1:3 \nquery is A, an object type: true\next-schema\n@ d\nroot query A\ndef interface B\next interface B\nfield x Int\ndef object A\next object A\nfield y Int\nrebuilt equal: true\ncopied equal: true, true, true\n4 is next\n",
    ),
    (
        &ADOPTING,
        "ext-schema\n@ d\nroot query A\next-schema\nroot mutation B\next interface B\nfield x Int\next object A\nfield y Int",
        "B waits\nA waits\n- schema \nextension 2 of 1:1 1:2 @ d 1:2 \nquery extension 2 of 1:1 A 1:3 \nmutation extension 3 of 1:4 B 1:5 \nB 1:6 1:6 interface B 1:6 \nx 1:7 extension 0 of 1:6 1:7 x 1:7 Int 1:7 \nA 1:8 1:8 object A 1:8 \ny 1:9 extension 1 of 1:8 1:9 y 1:9 Int 1:9 \nextension 2 of 1:1 A 1:3 \nquery is A, an object type: true\nextension 3 of 1:4 B 1:5 \nmutation is B, an object type: false\next-schema\n@ d\nroot query A\next-schema\nroot mutation B\ndef interface B\next interface B\nfield x Int\ndef object A\next object A\nfield y Int\nrebuilt equal: true\ncopied equal: true, true, true\n4 is next\n",
    ),
];
