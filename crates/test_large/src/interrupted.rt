//! The engine with a device that a signal interrupts a thousand times before each call.
use bumpalo::Bump;
use elsa::interner::{Counted, intern_engine};
use std::io;
use std::io::{ErrorKind, Read};
use std::test::Fail;

/// A reader of the rest of a text. Each read succeeds after a thousand interruptions.
#[derive(Drop)]
struct Giver<'t> {
    left: &'t [u8],
    interruptions: usize,
}

impl<'t> Read for Giver<'t> {
    fn read(&mut self, buf: &mut [u8]) -> io::Result<usize> {
        if self.interruptions < 1000 {
            self.interruptions += 1;
            return Err(io::Error::from(ErrorKind::Interrupted));
        }
        self.interruptions = 0;
        self.left.read(buf)
    }
}

#[test]
fn a_thousand_interruptions_end_no_read(rt: HostRuntime) -> Result<(), Fail> {
    let arena = Bump::new(rt.alloc());
    let mut reader = Counted::new(Giver {
        left: b"put fox\nat 0\n".as_slice(),
        interruptions: 0,
    });
    let mut bytes: Vec<u8> = Vec::new(rt.alloc());
    let mut writer = Counted::new(&mut bytes);
    assert!(rt; intern_engine(rt.alloc(), &arena, &mut reader, &mut writer).is_ok());
    drop(writer);
    assert_eq!(rt; bytes.as_slice(), b"0\nfox\n".as_slice());
    Ok(())
}
