//! That calls succeed.
use std::test::Fail;
use xt_io::{
    Gate, MemSink, MemSource, OpenGate, Refused, SafeSink, SafeSource, Sink, Source, StdSink,
    StdSource, read_to_limit, write_all,
};

// Twelve bytes, which are 5, 5 and 2 at five bytes a call.
const TEXT: &[u8] = b"twelve bytes";

#[test]
fn reads_and_writes_a_piece(rt: HostRuntime) -> Result<(), Fail> {
    let mut source = MemSource::make(rt.alloc(), TEXT, 5, &[])?;
    let mut piece = [0u8; 3];
    assert!(rt; matches!(source.read(&mut piece), Ok(3)));
    assert_eq!(rt; piece.as_slice(), b"twe".as_slice());
    let mut sink = MemSink::make(rt.alloc(), 5, &[])?;
    assert!(rt; matches!(sink.write(TEXT), Ok(5)));
    assert!(rt; matches!(sink.write(b""), Ok(0)));
    assert_eq!(rt; sink.bytes(), b"twelv".as_slice());
    OpenGate.before(1, 0);
    Ok(())
}

#[test]
fn the_safe_ones_pass_all_bytes_on(rt: HostRuntime) -> Result<(), Fail> {
    let mut source = SafeSource::make(rt.alloc(), TEXT)?;
    let whole = read_to_limit(rt.alloc(), &mut source, 12)
        .ok()
        .ok_or("all bytes")?;
    let mut sink = SafeSink::make(rt.alloc())?;
    assert!(rt; write_all(&mut sink, &whole).is_ok());
    assert_eq!(rt; sink.bytes(), TEXT);
    Ok(())
}

#[test]
fn a_reader_of_std_is_read_to_its_end(rt: HostRuntime) -> Result<(), Fail> {
    let mut source = StdSource::new(TEXT);
    let whole = read_to_limit(rt.alloc(), &mut source, 12)
        .ok()
        .ok_or("all bytes")?;
    assert_eq!(rt; whole.as_slice(), TEXT);
    Ok(())
}

#[test]
fn a_writer_of_std_is_written_to(rt: HostRuntime) -> Result<(), Fail> {
    let mut written: Vec<u8> = Vec::new(rt.alloc());
    assert!(rt; write_all(&mut StdSink::new(&mut written), TEXT).is_ok());
    assert_eq!(rt; written.as_slice(), TEXT);
    // One with no more room takes no byte, which is a fault.
    let mut room = [0u8; 5];
    let refused = write_all(&mut StdSink::new(room.as_mut_slice()), TEXT).err();
    assert!(rt; matches!(refused, Some(Refused::Failed)));
    assert_eq!(rt; room.as_slice(), b"twelv".as_slice());
    Ok(())
}
