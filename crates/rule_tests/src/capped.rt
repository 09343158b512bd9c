//! Which containers a segment keeps.
use capping::choose;
use std::alloc::Global;
use std::test::Fail;
use vault_types::Id;

// A segment of which one container is kept.
struct Row {
    segment: &'static [Option<Id>],
    kept: &'static [Id],
}

const ROWS: &[Row] = &[
    Row {
        segment: &[Some(2), Some(1)],
        kept: &[1],
    },
    Row {
        segment: &[Some(2), None, Some(1), Some(2)],
        kept: &[2],
    },
    Row {
        segment: &[None],
        kept: &[],
    },
];

fn rows_are(alloc: Global, rows: &[Row]) -> Result<bool, Fail> {
    for row in rows {
        if choose(alloc, row.segment, 1)?.as_slice() != row.kept {
            return Ok(false);
        }
    }
    Ok(true)
}

#[test]
fn the_most_used_go_first_and_then_the_lower(rt: HostRuntime) -> Result<(), Fail> {
    assert!(rt; rows_are(rt.alloc(), ROWS)?);
    Ok(())
}
