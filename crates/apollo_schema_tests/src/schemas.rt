//! Tests of schemas and their builder: that calls succeed with enough memory, and the texts of faults. Most
//! compare a text that shows all that is looked at.

mod building;
mod by_calls;
mod by_hand;
mod equality;
mod extensions;
mod faults;
mod hash_keys;
mod rearranging;
mod roots;
mod rows;
