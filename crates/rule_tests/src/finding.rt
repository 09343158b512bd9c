//! Many look-ups, and what is found after containers go.
use fp_index::Index;
use std::alloc::Global;
use std::test::Fail;
use vault_types::list::ListOf;
use vault_types::{Fp, Id, Memory, Table, TableRow};

fn numbered(number: u64) -> Fp {
    let [a, b, c, d, e, f, g, h] = number.to_be_bytes();
    Fp([a, b, c, d, e, f, g, h, 0, 0, 0, 0, 0, 0, 0, 0, 0, 0, 0, 0])
}

fn table(alloc: Global, id: Id, numbers: &[u64]) -> Result<Table, Memory> {
    let mut rows = Vec::new(alloc);
    for number in numbers {
        rows.push(TableRow {
            fp: numbered(*number),
            len: 1,
        })?;
    }
    Ok(Table {
        id,
        rows: ListOf::from_vec(rows),
        payload_sum: numbered(0),
    })
}

// The numbers of the thousand rows of a container.
fn thousand(alloc: Global, id: Id) -> Result<Vec<u64>, Memory> {
    let mut numbers = Vec::new(alloc);
    for i in 0..1000u64 {
        numbers.push(id.wrapping_mul(1000).wrapping_add(i))?;
    }
    Ok(numbers)
}

fn large_tables(alloc: Global) -> Result<Vec<Table>, Memory> {
    let mut tables = Vec::new(alloc);
    for id in 1..401u64 {
        tables.push(table(alloc, id, thousand(alloc, id)?.as_slice())?)?;
    }
    Ok(tables)
}

fn drop_even(index: &mut Index, tables: &[Table]) {
    for table in tables {
        if table.id % 2 == 0 {
            index.drop_container(table);
        }
    }
}

fn found_by_all(index: &Index, id: Id) -> u32 {
    let mut count = 0u32;
    for i in 0..1000u64 {
        if index.find(&numbered(id.wrapping_mul(1000).wrapping_add(i))) == Some(id) {
            count = count.saturating_add(1);
        }
    }
    count
}

// Whether so many rows of each table with an even id are found, and so many of each other one.
fn are_found(index: &Index, tables: &[Table], even: u32, odd: u32) -> bool {
    for table in tables {
        let expected = if table.id % 2 == 0 { even } else { odd };
        if found_by_all(index, table.id) != expected {
            return false;
        }
    }
    true
}

// Whether all are found at first, and without the even ones the others alone.
fn before_and_after(alloc: Global) -> Result<(bool, bool), Memory> {
    let tables = large_tables(alloc)?;
    let mut index = Index::from_tables(alloc, tables.as_slice())?;
    let before = are_found(&index, tables.as_slice(), 1000, 1000);
    drop_even(&mut index, tables.as_slice());
    Ok((before, are_found(&index, tables.as_slice(), 0, 1000)))
}

#[test]
fn each_of_many_tables_is_found_until_it_goes(rt: HostRuntime) -> Result<(), Fail> {
    assert!(rt; before_and_after(rt.alloc())? == (true, true));
    Ok(())
}

fn added(alloc: Global, tables: &[Table]) -> Result<Index, Memory> {
    let mut index = Index::from_tables(alloc, &[])?;
    for table in tables {
        index.add_container(alloc, table)?;
    }
    Ok(index)
}

// The containers of 7 and of 8.
fn found(index: &Index) -> Found {
    (index.find(&numbered(7)), index.find(&numbered(8)))
}

type Found = (Option<Id>, Option<Id>);

// What is found at first, and as each of these goes.
fn found_each(mut index: Index, first: &Table, second: &Table) -> [Found; 3] {
    let both = found(&index);
    index.drop_container(first);
    let one = found(&index);
    index.drop_container(second);
    [both, one, found(&index)]
}

fn two_tables(alloc: Global) -> Result<Vec<Table>, Memory> {
    let mut tables = Vec::new(alloc);
    tables.push(table(alloc, 3, &[7, 8])?)?;
    tables.push(table(alloc, 1, &[7])?)?;
    Ok(tables)
}

// What is found where containers 3 and 1 were added, where 3 went, and where both did.
fn found_again(alloc: Global) -> Result<Option<[Found; 3]>, Memory> {
    let tables = two_tables(alloc)?;
    let index = added(alloc, tables.as_slice())?;
    let [first, second] = tables.as_slice() else {
        return Ok(None);
    };
    Ok(Some(found_each(index, first, second)))
}

#[test]
fn an_older_container_is_found_again(rt: HostRuntime) -> Result<(), Fail> {
    let expected = [(Some(3), Some(3)), (Some(1), None), (None, None)];
    assert!(rt; found_again(rt.alloc())? == Some(expected));
    Ok(())
}
