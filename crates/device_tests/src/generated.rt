//! The first bytes of versions, and the places of `fill`.
use std::alloc::Global;
use std::test::Fail;
use vault_traits::{Places, Refused, Sink, Source};
use workload::{FillPlaces, Generated};

fn front(seed: u64, version: u32) -> Option<[u8; 2]> {
    if version < 1 || version > 64 {
        return None;
    }
    let mut source = Generated::new(seed, version);
    let mut bytes = [0; 2];
    let mut done = 0;
    for _turn in 0..2 {
        if done < 2 {
            match source.read(&mut bytes[done..]) {
                Ok(n) => done += n,
                Err(_) => return None,
            }
        }
    }
    Some(bytes)
}

fn first_byte(seed: u64, version: u32) -> Option<u8> {
    let bytes = front(seed, version)?;
    Some(bytes[0])
}

#[test]
fn versions_begin_as_stated(rt: HostRuntime) {
    assert!(rt; first_byte(0, 1) == Some(20));
    assert!(rt; front(0, 2) == Some([0, 20]));
}

fn places(alloc: Global) -> Result<FillPlaces, Fail> {
    Ok(FillPlaces::with(alloc, 7)?)
}

fn opened(alloc: Global, places: &mut FillPlaces, name: &str) -> Result<(), Refused> {
    let _ = places.open_source(alloc, name)?;
    Ok(())
}

fn faults_of(places: &FillPlaces) -> u64 {
    places.faults()
}

type Answer = Result<(), Refused>;

// What two names of sources answer, what two others do, and the faults.
fn all_opened(alloc: Global) -> Result<([Answer; 2], [Answer; 2], u64), Fail> {
    let mut places = places(alloc)?;
    let first = opened(alloc, &mut places, "gen-1");
    let last = opened(alloc, &mut places, "gen-64");
    let behind = opened(alloc, &mut places, "gen-65");
    let other = opened(alloc, &mut places, "gen-01");
    Ok(([first, last], [behind, other], faults_of(&places)))
}

#[test]
fn sources_open_by_their_names(rt: HostRuntime) -> Result<(), Fail> {
    let (there, absent, faults) = all_opened(rt.alloc())?;
    assert!(rt; there == [Ok(()), Ok(())]);
    assert!(rt; absent == [Err(Refused::Memory), Err(Refused::Memory)]);
    assert!(rt; faults == 0);
    Ok(())
}

// How many bytes a writer of a name took at its first write, before it was closed.
fn written(
    alloc: Global,
    places: &mut FillPlaces,
    name: &str,
    piece: &[u8; 3],
) -> Result<usize, Fail> {
    let Ok(mut sink) = places.open_sink(alloc, name) else {
        return Err(Fail::from("no sink"));
    };
    let answer = sink.write(piece);
    places.close_sink(name, sink);
    Ok(answer?)
}

// Whether an output is there, and has three bytes that were written.
fn output_of(places: &FillPlaces, name: &str) -> [bool; 2] {
    let found = places.output(name);
    [found.is_some(), found == Some(b"abc".as_slice())]
}

// The output before it is written, how many bytes were, and it and another behind that.
fn outputs(alloc: Global) -> Result<([bool; 2], usize, [bool; 2], [bool; 2]), Fail> {
    let mut places = places(alloc)?;
    let before = output_of(&places, "out-1");
    let len = written(alloc, &mut places, "out-1", b"abc")?;
    let behind = output_of(&places, "out-1");
    Ok((before, len, behind, output_of(&places, "gen-1")))
}

#[test]
fn outputs_are_kept(rt: HostRuntime) -> Result<(), Fail> {
    let expected = ([false; 2], 3, [true; 2], [false; 2]);
    assert!(rt; outputs(rt.alloc())? == expected);
    Ok(())
}
