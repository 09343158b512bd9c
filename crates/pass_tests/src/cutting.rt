// A stream that comes in two pieces is cut by either rule.
use std::alloc::Global;
use std::test::Fail;
use stream_cutter::Cutter;
use vault_types::Cutting;

fn lens(alloc: Global, cutter: Cutter, first: &[u8], second: &[u8]) -> Result<Vec<usize>, Fail> {
    let mut cutter = cutter;
    let mut out = Vec::new(alloc);
    cutter.feed(alloc, first, &mut out)?;
    cutter.feed(alloc, second, &mut out)?;
    cutter.finish(&mut out)?;
    let mut lens = Vec::new(alloc);
    for chunk in &out {
        lens.push(chunk.len())?;
    }
    Ok(lens)
}

#[test]
fn a_stream_in_pieces_is_cut_by_a_size(rt: HostRuntime) -> Result<(), Fail> {
    let cutter = Cutter::new(Cutting::Fixed { size: 4 });
    let lens = lens(rt.alloc(), cutter, b"abcdab", b"cdab")?;
    assert!(rt; lens.as_slice() == [4, 4, 2].as_slice());
    Ok(())
}

#[test]
fn a_stream_in_pieces_is_cut_by_extremum(rt: HostRuntime) -> Result<(), Fail> {
    let cutter = Cutter::new(Cutting::Ae {
        window: 4,
        max: 65_536,
    });
    let lens = lens(rt.alloc(), cutter, &[0; 7], &[0; 13])?;
    assert!(rt; lens.as_slice() == [5, 5, 5, 5].as_slice());
    Ok(())
}
