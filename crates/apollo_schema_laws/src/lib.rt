//! Laws of schemas, over lists of definitions alone. What is written out means itself again. Lists of equal
//! definitions mean equal schemas, and are built to them. Lists of the same definitions in another order mean
//! the same, with the same faults. GraphQL specification of October 2021, section 3.
//!
//! Proved: a write-out means an equal schema, which has the same write-out. Equal lists mean equal schemas,
//! and lists in another order mean the same, with the same faults.
//!
//! Not proved: that equal schemas have one write-out, as that keeps the order of types and which extension
//! gave what, and `==` compares neither. A rebuild without the premise of `canonical`: by tests it isn't
//! equal. Of lists in another order, the order of types, directive definitions, faults and the write-out, and
//! numbers and sources: they follow the list. Anything where two definitions of one group change places. Of
//! two adopted extensions the first decides the kind, and a test shows that the schemas differ.
#![tactic(auto)]

pub mod rearranged_builds;
pub mod rearrangement;
pub mod write_out;
