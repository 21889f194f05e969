//! The keys of a call.
ghost use Rattle.std.specs.Prelude.{◌≡◌, ◌≢◌, IfErr, IfOk, length, true};
ghost use Rattle.std.specs.Hash.FoldHasher.{read_u64};
ghost use Rattle.peglinden_c.specs.Calls.{is_proper};
ghost use Rattle.peglinden_c.specs.declared.refusal.Refusal.{Refusal};

use crate::flags::{are_among, has_two_forms};
use crate::refusal::Refusal;
use graphql_nodes::collections::hash_keys::HashKeys;

/// The keys that sixteen bytes are.
fn hash_keys(keys: &[u8]) -> HashKeys
    requires { length keys.now ≡ 16 }
    ensures start { result.start ≡ read_u64 keys.now 0 }
    ensures factor { result.factor ≡ read_u64 keys.now 8 }
{
    let mut bytes = [0; 16];
    bytes.copy_from_slice(keys);
    HashKeys::from_bytes(bytes)
}

/// The keys of a call with these flags, which takes those. The error is `Improper`, where the keys aren't
/// sixteen bytes, a flag isn't taken, or two forms are asked for.
pub(crate) fn proper_keys(keys: &[u8], flags: u32, taken: u32) -> Result<HashKeys, Refusal>
    ensures keys { IfOk result (λ made.
        (made.start ≡ read_u64 keys.now 0) × (made.factor ≡ read_u64 keys.now 8)) }
    ensures proper { IfOk result (λ _. is_proper keys.now flags taken ≡ true) }
    ensures improper { IfErr result (λ why.
        (why ≡ Refusal.Improper) × (is_proper keys.now flags taken ≢ true)) }
{
    if keys.len() != 16 || !are_among(flags, taken) || has_two_forms(flags) {
        return Err(Refusal::Improper);
    }
    Ok(hash_keys(keys))
}
