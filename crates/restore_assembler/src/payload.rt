// The payloads that are present.
ghost use Rattle.std.specs.Prelude.{◌≡◌, IsTrue, vec_capacity};
ghost use Rattle.vault_types.specs.Lists.{has};
ghost use Rattle.restore_assembler.specs.Payloads.{ids_of, bytes_under, without_payload};

use vault_types::Id;

/// The payload of a container.
#[derive(Drop)]
pub struct Payload {
    pub id: Id,
    pub bytes: Vec<u8>,
}

// The bytes of the present payload of that container.
pub fn bytes_of(present: &[Payload], id: Id) -> &[u8]
    requires { IsTrue (has id (ids_of present.now)) }
    ensures { result.now ≡ bytes_under id present.now }
{
    for payload in present {
        if payload.id == id {
            return payload.bytes.as_slice();
        }
    }
    unreachable!()
}

// Lets the payload of that container go.
pub fn evict(present: &mut Vec<Payload>, id: Id)
    ensures items { present.new.items ≡ without_payload id present.old.items }
    ensures capacity { vec_capacity present.new ≡ vec_capacity present.old }
{
    present.retain(|payload| id != payload.id);
}
