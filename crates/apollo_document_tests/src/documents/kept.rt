//! Documents over schemas and without one, their faults, and what their write-out builds again.

use crate::documents::building::{Whole, over, without};
use crate::documents::inputs::expect;
use std::test::Fail;

const OVER_A_SCHEMA: [(&str, &str); 11] = [
    // A faulty query keeps what is typable.
    (
        "def object Query\nfield id ID\nfield user User\ndef object User\nfield id ID\n===\noperation query -\nsel 0 field id\nsel 1 field x\nsel 0 field user\nsel 1 field nope\nsel 0 inline Gone\nsel 1 field a\nsel 0 spread F\n",
        "1:7 query -> Query - { 1:10 user 1:10 is 1:3 user 1:3 User 1:3 -> User 1:3 { } 1:14 ... F 1:14 } \n1:8 field selection of scalar type `ID` must not have subselections; 1:2 (query → id)\n1:11 type `User` does not have a field `nope`; 1:4 1:11 (query → user → nope)\n1:12 type condition `Gone` of inline fragment is not a type defined in the schema; 1:12 (query)\nagain: true\n",
    ),
    // A first anonymous operation is kept.
    (
        "def object Query\nfield a Int\n===\noperation query -\nsel 0 field a\noperation query Q\nsel 0 field a\n",
        "1:4 query -> Query - { 1:5 a 1:5 is 1:2 a 1:2 Int 1:2 -> Int 1:2 { } } \nQ 1:6 1:6 query Q 1:6 -> Query - { 1:7 a 1:7 is 1:2 a 1:2 Int 1:2 -> Int 1:2 { } } \n1:4 anonymous operation cannot be selected when the document contains other operations\nagain: true\n1:4 anonymous operation cannot be selected when the document contains other operations\n",
    ),
    // A later one is dropped.
    (
        "def object Query\nfield a Int\n===\noperation query Q\nsel 0 field a\noperation query -\nsel 0 field a\n",
        "Q 1:4 1:4 query Q 1:4 -> Query - { 1:5 a 1:5 is 1:2 a 1:2 Int 1:2 -> Int 1:2 { } } \n1:6 anonymous operation cannot be selected when the document contains other operations\nagain: true\n",
    ),
    // The name of an operation without a root stays free.
    (
        "def object Query\nfield a Int\n===\noperation mutation M\nsel 0 field a\noperation query M\nsel 0 field a\n",
        "M 1:6 1:6 query M 1:6 -> Query - { 1:7 a 1:7 is 1:2 a 1:2 Int 1:2 -> Int 1:2 { } } \n1:4 `mutation` root operation type is not defined\nagain: true\n",
    ),
    // A second fragment of a name is dropped.
    (
        "def object Query\nfield a Int\nfield more Query\n===\nfragment F Query\nsel 0 field more\nsel 1 field zz\nfragment F Gone\nfragment G Query\nsel 0 inline Gone\n",
        "F 1:5 1:5 fragment F 1:5 -> Query 1:5 { 1:6 more 1:6 is 1:3 more 1:3 Query 1:3 -> Query 1:3 { } } \nG 1:9 1:9 fragment G 1:9 -> Query 1:9 { } \n1:7 type `Query` does not have a field `zz`; 1:1 1:7 (fragment F → more → zz)\n1:8 the fragment `F` is defined multiple times in the document; 1:5 \n1:10 type condition `Gone` of inline fragment is not a type defined in the schema; 1:10 (fragment G)\nagain: true\n",
    ),
    // Faults stand in the order of definitions.
    (
        "def object Query\nfield a Int\n===\noperation query -\nsel 0 field a\noperation query -\nsel 0 field a\noperation query -\noperation query Q\nsel 0 field zz\noperation query Q\nfragment F Gone\nsel 0 field a\nfragment F Query\nsel 0 field a b\n",
        "1:4 query -> Query - { 1:5 a 1:5 is 1:2 a 1:2 Int 1:2 -> Int 1:2 { } } \nQ 1:9 1:9 query Q 1:9 -> Query - { } \nF 1:14 1:14 fragment F 1:14 -> Query 1:14 { 1:15 b 1:15 a 1:15 is 1:2 a 1:2 Int 1:2 -> Int 1:2 { } } \n1:4 anonymous operation cannot be selected when the document contains other operations\n1:6 anonymous operation cannot be selected when the document contains other operations\n1:8 anonymous operation cannot be selected when the document contains other operations\n1:4 anonymous operation cannot be selected when the document contains other operations\n1:10 type `Query` does not have a field `zz`; 1:1 1:10 (query Q → zz)\n1:4 anonymous operation cannot be selected when the document contains other operations\n1:11 the operation `Q` is defined multiple times in the document; 1:9 \n1:12 type condition `Gone` of fragment `F` is not a type defined in the schema; 1:12 1:12 \nagain: true\n1:4 anonymous operation cannot be selected when the document contains other operations\n",
    ),
    // Definitions of the type system are passed over.
    (
        "def object Query\nfield a Int\n===\ndef scalar S\nfragment F S\noperation query Q\nsel 0 field a\next-schema\ndirective d\non FIELD\n",
        "Q 1:6 1:6 query Q 1:6 -> Query - { 1:7 a 1:7 is 1:2 a 1:2 Int 1:2 -> Int 1:2 { } } \n1:4 an executable document must not contain a scalar type definition; S 1:4 \n1:5 type condition `S` of fragment `F` is not a type defined in the schema; 1:5 1:5 \n1:8 an executable document must not contain a schema extension\n1:9 an executable document must not contain a directive definition; d 1:9 \nagain: true\n",
    ),
    // Documents are added one after the other.
    (
        "def object Query\nfield id ID\nfield user User\ndef object User\nfield id ID\n===\noperation query GetUser\nsel 0 field user\nsel 1 field id\n---\noperation query GetMore\nsel 0 field user\nsel 1 field id\n",
        "GetUser 1:7 1:7 query GetUser 1:7 -> Query - { 1:8 user 1:8 is 1:3 user 1:3 User 1:3 -> User 1:3 { 1:9 id 1:9 is 1:5 id 1:5 ID 1:5 -> ID 1:5 { } } } \nGetMore 1:11 1:11 query GetMore 1:11 -> Query - { 1:12 user 1:12 is 1:3 user 1:3 User 1:3 -> User 1:3 { 1:13 id 1:13 is 1:5 id 1:5 ID 1:5 -> ID 1:5 { } } } \nagain: true\n",
    ),
    // A name is taken in all documents.
    (
        "def object Query\nfield id ID\nschema\nroot query Query\nroot subscription Query\n===\noperation subscription -\nsel 0 field id\nsel 1 field x\n---\noperation query Q\n---\noperation subscription Q\nsel 0 field id\n",
        "1:7 subscription -> Query 1:5 { } \nQ 1:11 1:11 query Q 1:11 -> Query 1:4 { } \n1:8 field selection of scalar type `ID` must not have subselections; 1:2 (subscription → id)\n1:7 anonymous operation cannot be selected when the document contains other operations\n1:7 anonymous operation cannot be selected when the document contains other operations\n1:13 the operation `Q` is defined multiple times in the document; 1:11 \nagain: true\n1:7 anonymous operation cannot be selected when the document contains other operations\n",
    ),
    // Sets have the types of their fields.
    (
        "def object Query\ndef object User\nfield id ID\nfield name String\nfield profilePic URL\narg size Int\ndef scalar URL\n===\nfragment vipCustomer User\nsel 0 field id\nsel 0 field name\nsel 0 field profilePic\n",
        "vipCustomer 1:9 1:9 fragment vipCustomer 1:9 -> User 1:9 { 1:10 id 1:10 is 1:3 id 1:3 ID 1:3 -> ID 1:3 { } 1:11 name 1:11 is 1:4 name 1:4 String 1:4 -> String 1:4 { } 1:12 profilePic 1:12 is 1:5 profilePic 1:5 ( 1:6 size 1:6 1:6 Int 1:6 ) URL 1:5 -> URL 1:5 { } } \nagain: true\n",
    ),
    // Fields have the directives of their definitions.
    (
        "def object Query\nfield topProducts Product\ndef object Product\nfield inStock Boolean\nfield@ join__field\n===\noperation query getProduct\nsel 0 field topProducts\nsel 1 field inStock\n",
        "getProduct 1:7 1:7 query getProduct 1:7 -> Query - { 1:8 topProducts 1:8 is 1:2 topProducts 1:2 Product 1:2 -> Product 1:2 { 1:9 inStock 1:9 is 1:4 inStock 1:4 Boolean 1:4 1:5 @ join__field 1:5 -> Boolean 1:4 { } } } \nagain: true\n",
    ),
];

/// Names are those of types.
const WITHOUT_A_SCHEMA: [(&str, &str); 1] = [(
    "\
def object Query
===
def scalar S
operation mutation M
sel 0 field a
sel 1 field b
operation query -
fragment F Gone
sel 0 inline More
sel 1 spread G
",
    "M 1:4 1:4 mutation M 1:4 -> Mutation - { 1:5 a 1:5 is - a 1:5 UNKNOWN - -> UNKNOWN - { 1:6 b 1:6 is - b 1:6 UNKNOWN - -> UNKNOWN - { } } } \nF 1:8 1:8 fragment F 1:8 -> Gone 1:8 { 1:9 ...on More 1:9 -> More 1:9 { 1:10 ... G 1:10 } } \n1:7 anonymous operation cannot be selected when the document contains other operations\nagain: true\n",
)];

#[test]
fn documents_build_what_is_kept_with_all_faults(rt: HostRuntime) -> Result<(), Fail> {
    expect(&rt, &over(Whole), &OVER_A_SCHEMA)?;
    expect(&rt, &without(Whole), &WITHOUT_A_SCHEMA)
}
