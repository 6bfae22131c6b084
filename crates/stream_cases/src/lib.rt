//! Streams whose bytes are known, through the adapters over std: all bytes of a slice arrive, and a text arrives in a
//! vector.
#![tactic(auto)]

ghost use Rattle.std.specs.Prelude.{◌≡◌, ◌<◌, ◌≤◌, ◌++◌, length, IfOk, OnOk, IsErrOf};

use std::alloc::Global;
use sym_io::{Failed, ReadAllFault, ReaderSource, WriterSink, read_all, write_all};

/// The bytes of a slice, read whole.
pub fn bytes_of(alloc: Global, bytes: &[u8], limit: u32) -> Result<Vec<u8>, ReadAllFault>
    ensures bytes { IfOk result (λ read. read.items ≡ bytes.now) }
    ensures small { OnOk result (length bytes.now ≤ limit) }
    ensures too_long { IsErrOf result ReadAllFault.TooLong → limit < length bytes.now }
{
    let mut source = ReaderSource::new(bytes);
    read_all(alloc, &mut source, limit)
}

/// A vector, and then the text.
pub fn with_text(before: Vec<u8>, text: &[u8]) -> Result<Vec<u8>, Failed>
    ensures { IfOk result (λ all. all.items ≡ before.items ++ text.now) }
{
    let mut sink = WriterSink::new(before);
    write_all(&mut sink, text)?;
    Ok(sink.into_inner())
}

#[cfg(test)]
mod tests {
    use super::{bytes_of, with_text};
    use std::io;
    use std::io::{ErrorKind, Read, Write};
    use std::test::Fail;
    use sym_io::{ReadAllFault, ReaderSource, WriterSink, read_all, write_all};

    // A stream whose first call is cut short by a signal, with the number of its calls.
    #[derive(Drop)]
    struct Interrupted {
        calls: u32,
    }

    impl Interrupted {
        fn moved(&mut self) -> io::Result<usize>
            ensures { IfOk result (λ count. count ≡ 0) }
        {
            self.calls = self.calls.saturating_add(1);
            if self.calls == 1 {
                return Err(io::Error::from(ErrorKind::Interrupted));
            }
            Ok(0)
        }
    }

    impl Read for Interrupted {
        fn read(&mut self, _: &mut [u8]) -> io::Result<usize> {
            self.moved()
        }
    }

    impl Write for Interrupted {
        fn write(&mut self, _: &[u8]) -> io::Result<usize> {
            self.moved()
        }

        fn flush(&mut self) -> io::Result<()> {
            Ok(())
        }
    }

    // A slice within a limit and past one.
    #[test]
    fn reads_a_slice(rt: HostRuntime) -> Result<(), Fail> {
        let alloc = rt.alloc();
        let all = bytes_of(alloc, b"abc", 3);
        assert!(rt; matches!(&all, Ok(bytes) if bytes.as_slice() == b"abc".as_slice()));
        let long = bytes_of(alloc, b"abc", 2);
        assert!(rt; matches!(long, Err(ReadAllFault::TooLong)));
        Ok(())
    }

    // A text after what a vector has.
    #[test]
    fn writes_to_a_vector(rt: HostRuntime) -> Result<(), Fail> {
        let alloc = rt.alloc();
        let all = with_text(b"ab".to_vec(alloc)?, b"cd")?;
        assert!(rt; all.as_slice() == b"abcd".as_slice());
        Ok(())
    }

    // A call that was interrupted is a fault, and no further call is made.
    #[test]
    fn stops_where_a_call_is_interrupted(rt: HostRuntime) -> Result<(), Fail> {
        let mut source = ReaderSource::new(Interrupted { calls: 0 });
        let read = read_all(rt.alloc(), &mut source, 3);
        assert!(rt; matches!(read, Err(ReadAllFault::ReadFault)));
        assert!(rt; source.into_inner().calls == 1);
        let mut sink = WriterSink::new(Interrupted { calls: 0 });
        assert!(rt; write_all(&mut sink, b"abc").is_err());
        assert!(rt; sink.into_inner().calls == 1);
        Ok(())
    }
}
