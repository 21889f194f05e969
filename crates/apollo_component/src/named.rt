//! Sets of keys, of which the first of each stays.
ghost use Rattle.std.specs.Prelude.{◌≡◌, List, [], ◌∷◌, ◌++◌, not, IfOk, OnErr};
ghost use Rattle.std.specs.List.{list_any};
ghost use Rattle.apollo_component.specs.FirstOfEach.{first_of_each};

use graphql_nodes::collections::key_set::KeySet;
use std::alloc::AllocError;
use std::hash::Hash;

/// Puts a key last, unless an equal one is there, and answers whether it did. So a set that is the first of
/// each of some keys is then that of these keys and this one. The error is out of memory: the set is as it
/// was, and the key is dropped.
pub fn add_key<T: Eq + Hash + Drop>(set: &mut KeySet<T>, key: T) -> Result<bool, AllocError>
    ensures refused { OnErr result (set.new ≡ set.old) }
    ensures added { IfOk result (λ added. (ks : List T) → set.old ≡ first_of_each T.eq ks
        → (set.new ≡ first_of_each T.eq (ks ++ key ∷ [])) × (not added ≡ list_any (T.eq key) ks)) }
{
    let added = set.insert(key)?;
    Ok(added)
}
