ghost use Rattle.std.specs.Prelude.{◌≤◌};

use std::alloc::Global;
use std::test::Fail;
use tl_base::{Bytes, Items, NoMemory};
use tl_io::{
    Failed, InputSource, MemorySink, MemorySource, OutputSink, ReadError, Sink, Source, SteadySink,
    SteadySource, read_all, write_all,
};

fn source(alloc: Global, most: u32, failing: &[u32]) -> Result<MemorySource, NoMemory>
    requires { 1 ≤ most }
{
    let bytes = Bytes::from_slice(alloc, b"abc")?;
    let failing = Items::from_slice(alloc, failing)?;
    Ok(MemorySource::new(bytes, most, failing))
}

fn sink(alloc: Global, most: u32, failing: &[u32]) -> Result<MemorySink, NoMemory>
    requires { 1 ≤ most }
{
    let failing = Items::from_slice(alloc, failing)?;
    MemorySink::new(alloc, 3, most, failing)
}

#[test]
fn reads_to_the_end_in_any_pieces(rt: HostRuntime) -> Result<(), Fail> {
    let alloc = rt.alloc();
    for most in 1..5 {
        let bytes = read_all(alloc, &mut source(alloc, most, &[])?, 3)?;
        assert_eq!(rt; bytes.as_slice(), b"abc".as_slice());
    }
    let answer = read_all(alloc, &mut source(alloc, 2, &[])?, 2).err();
    assert_eq!(rt; answer, Some(ReadError::TooLong));
    let answer = read_all(alloc, &mut source(alloc, 2, &[2])?, 3).err();
    assert_eq!(rt; answer, Some(ReadError::Fault));
    Ok(())
}

#[test]
fn writes_all_or_a_part_from_the_start(rt: HostRuntime) -> Result<(), Fail> {
    let mut whole = sink(rt.alloc(), 2, &[])?;
    assert_eq!(rt; write_all(&mut whole, b"abc"), Ok(()));
    assert_eq!(rt; whole.held(), b"abc".as_slice());
    let mut part = sink(rt.alloc(), 1, &[3])?;
    assert_eq!(rt; write_all(&mut part, b"abc"), Err(Failed));
    assert_eq!(rt; part.held(), b"ab".as_slice());
    Ok(())
}

#[test]
fn memory_fails_at_a_listed_call_and_where_it_is_full(rt: HostRuntime) -> Result<(), Fail> {
    let mut source = source(rt.alloc(), 1, &[2])?;
    let mut buffer = [0; 4];
    for answer in [Ok(1), Err(Failed), Ok(1), Ok(1), Ok(0)] {
        assert_eq!(rt; source.read(&mut buffer), answer);
    }
    assert_eq!(rt; buffer[0], b'c');
    let mut sink = sink(rt.alloc(), 2, &[1])?;
    for answer in [Err(Failed), Ok(2), Ok(1), Err(Failed)] {
        assert_eq!(rt; sink.write(b"abcd"), answer);
    }
    assert_eq!(rt; sink.write(b""), Ok(0));
    assert_eq!(rt; sink.held(), b"aba".as_slice());
    Ok(())
}

#[test]
fn standard_input_is_read(rt: HostRuntime) {
    let mut source = InputSource::new(b"ab".as_slice());
    let mut buffer = [0; 4];
    for answer in [Ok(2), Ok(0)] {
        assert_eq!(rt; source.read(&mut buffer), answer);
    }
    let mut input = InputSource::new(rt.reader());
    assert_eq!(rt; input.read(&mut []), Ok(0));
}

#[test]
fn standard_output_is_written(rt: HostRuntime) {
    let mut room = [0; 1];
    let mut sink = OutputSink::new(room.as_mut_slice());
    for answer in [Ok(1), Err(Failed)] {
        assert_eq!(rt; sink.write(b"ab"), answer);
    }
    let mut output = OutputSink::new(std::io::writer(&rt));
    assert_eq!(rt; output.write(b""), Ok(0));
}

#[test]
fn steady_ones_give_and_take_as_much_as_fits(rt: HostRuntime) -> Result<(), Fail> {
    let mut source = SteadySource::new(Bytes::from_slice(rt.alloc(), b"abc")?);
    let mut buffer = [0; 2];
    assert_eq!(rt; source.read(&mut buffer), Ok(2));
    assert_eq!(rt; buffer.as_slice(), b"ab".as_slice());
    assert_eq!(rt; source.read(&mut buffer), Ok(1));
    assert_eq!(rt; source.read(&mut buffer), Ok(0));
    assert_eq!(rt; SteadySink::new().write(b"abc"), Ok(3));
    Ok(())
}
