use std::alloc::Global;
use std::test::Fail;
use sym_io::{
    MemSink, MemSource, OutputBuffer, ReadAllFault, ReaderSource, WriterSink, read_all, write_all,
};

fn source(alloc: Global, fails: &[u32]) -> Result<MemSource, Fail> {
    let bytes = b"abc".to_vec(alloc)?;
    let fails = fails.to_vec(alloc)?;
    Ok(MemSource::new(bytes, 2, fails))
}

// Three bytes in pieces of two, within a limit, past one, and with a fault at the second call.
#[test]
fn reads_a_whole_source(rt: HostRuntime) -> Result<(), Fail> {
    let alloc = rt.alloc();
    let all = read_all(alloc, &mut source(alloc, &[])?, 3);
    assert!(rt; matches!(&all, Ok(bytes) if bytes.as_slice() == b"abc".as_slice()));
    let long = read_all(alloc, &mut source(alloc, &[])?, 2);
    assert!(rt; matches!(long, Err(ReadAllFault::TooLong)));
    let failed = read_all(alloc, &mut source(alloc, &[1])?, 3);
    assert!(rt; matches!(failed, Err(ReadAllFault::ReadFault)));
    let mut reader = ReaderSource::new(b"abc".as_slice());
    let read = read_all(alloc, &mut reader, 3);
    assert!(rt; matches!(&read, Ok(bytes) if bytes.as_slice() == b"abc".as_slice()));
    Ok(())
}

// A sink that fails at its first call, one that is full after ten bytes, and a writer of std.
#[test]
fn writes_a_whole_text(rt: HostRuntime) -> Result<(), Fail> {
    let alloc = rt.alloc();
    let mut failing = MemSink::new(alloc, 100, 4, [0].to_vec(alloc)?)?;
    assert!(rt; write_all(&mut failing, b"transcript 1").is_err());
    assert!(rt; failing.bytes().is_empty());
    let mut full = MemSink::new(alloc, 10, 4, Vec::new(alloc))?;
    assert!(rt; write_all(&mut full, b"transcript 1").is_err());
    assert!(rt; full.bytes() == b"transcript".as_slice());
    let mut writer = WriterSink::new(Vec::new(alloc));
    let mut buffer = OutputBuffer::new();
    buffer.put(&mut writer, b"transcript ")?;
    buffer.put(&mut writer, &[b'1'; 9000])?;
    buffer.flush(&mut writer)?;
    let all = writer.into_inner();
    assert!(rt; all.len() == 9011);
    assert!(rt; all.starts_with(b"transcript 1"));
    Ok(())
}
