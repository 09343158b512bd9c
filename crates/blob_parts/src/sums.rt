// The sum at the end of a blob.
ghost use Rattle.std.specs.Prelude.{◌≡◌, ◌++◌, List, ℕ, OnOk, IfSome, IfNone};
ghost use Rattle.sha1.specs.Sha1.{sha1};
ghost use Rattle.vault_types.specs.Blobs.{with_sum, set_mark};

use sha1::Sha1;
use std::alloc::AllocError;
use vault_types::Set;

/// The sum of a blob of a set: the SHA-1 (FIPS 180-4) of its body and, except in set 0, of the set in four bytes.
pub fn sum_of(body: &[u8], set: Set) -> [u8; 20]
    ensures { result ≡ sha1 (body.now ++ set_mark set) }
{
    let mut hasher = Sha1::new();
    hasher.update(body);
    if set != 0 {
        hasher.update(&u32::from(set).to_be_bytes());
    }
    hasher.finalize()
}

/// Ends a blob by its sum.
pub fn push_sum(blob: &mut Vec<u8>, set: Set) -> Result<(), AllocError>
    ensures { OnOk result (blob.new.items ≡ with_sum set blob.old.items) }
{
    let sum = sum_of(blob.as_slice(), set);
    blob.extend_from_slice(&sum)
}

/// The body of a blob that ends by its sum; else none.
pub fn body_of(blob: &[u8], set: Set) -> Option<&[u8]>
    ensures found { IfSome result (λ body. blob.now ≡ with_sum set body.now) }
    ensures none { IfNone result ((body : List ℕ) → blob.now ≡ with_sum set body → ⊥) }
{
    if blob.len() < 20 {
        return None;
    }
    let (body, sum) = blob.split_at(blob.len() - 20);
    if sum_of(body, set).as_slice() != sum {
        return None;
    }
    Some(body)
}
