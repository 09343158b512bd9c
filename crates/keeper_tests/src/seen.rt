// What is seen of a shelf with one look.
use keeper_driver::views::{bytes_of, listing};
use std::alloc::Global;
use std::test::Fail;
use vault_ports::MemShelf;
use vault_types::Version;

/// Whether the shelf has these names, as `listing` writes them, and a version of set 0 these bytes.
pub fn has(
    alloc: Global,
    shelf: &mut MemShelf,
    names: &str,
    version: Version,
    bytes: &[u8],
) -> Result<bool, Fail> {
    let same = listing(alloc, shelf)?.as_str() == names;
    Ok(same && bytes_of(alloc, shelf, 0, version)?.as_slice() == bytes)
}
