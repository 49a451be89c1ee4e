// A writer and a reader that move a byte a call, and fail.
use crate::{read, write, write_all, write_decimal, write_failure};
use std::io;
use std::io::{Read, Write};
use std::test::Fail;

// Takes `left` bytes, which are the digits of `seen`, and then fails.
#[derive(Drop)]
struct Slow {
    left: u32,
    seen: u64,
}

impl Write for Slow {
    fn write(&mut self, buf: &[u8]) -> io::Result<usize> {
        if self.left == 0 {
            return Err(io::Error::other("no more"));
        }
        match buf.first() {
            None => Ok(0),
            Some(byte) => {
                self.left -= 1;
                self.seen = self.seen.wrapping_mul(256).wrapping_add(u64::from(*byte));
                Ok(1)
            }
        }
    }

    fn flush(&mut self) -> io::Result<()> {
        Ok(())
    }
}

// Gives the bytes `left` down to 1, and then fails.
#[derive(Drop)]
struct Down {
    left: u8,
}

impl Read for Down {
    fn read(&mut self, buf: &mut [u8]) -> io::Result<usize> {
        if self.left == 0 {
            return Err(io::Error::other("no more"));
        }
        match buf.first_mut() {
            None => Ok(0),
            Some(byte) => {
                *byte = self.left;
                self.left -= 1;
                Ok(1)
            }
        }
    }
}

#[test]
fn writes_in_parts(rt: HostRuntime) -> Result<(), Fail> {
    let mut to = Slow { left: 7, seen: 0 };
    assert!(rt; write_all(&mut to, b"abcd"));
    assert_eq!(rt; to.seen, 0x6162_6364);
    assert_eq!(rt; write(&mut to, b"efgh"), 3);
    assert_eq!(rt; to.seen, 0x61_6263_6465_6667);
    assert!(rt; !write_all(&mut to, b"h"));
    assert!(rt; write_all(&mut to, b""));
    Ok(())
}

#[test]
fn writes_numbers(rt: HostRuntime) -> Result<(), Fail> {
    let mut to = Slow { left: 8, seen: 0 };
    assert!(rt; write_decimal(&mut to, 0));
    assert!(rt; write_decimal(&mut to, 10907));
    assert_eq!(rt; to.seen, 0x3031_3039_3037);
    assert!(rt; !write_decimal(&mut to, 123));
    Ok(())
}

#[test]
fn tells_a_failure(rt: HostRuntime) -> Result<(), Fail> {
    let mut to = Vec::new(rt.alloc());
    write_failure(&mut to, "a.txt", io::Error::from_raw_os_error(2));
    assert_eq!(rt;
        to.as_slice(),
        b"a.txt: No such file or directory\n".as_slice()
    );
    Ok(())
}

#[test]
fn reads_in_parts(rt: HostRuntime) -> Result<(), Fail> {
    let mut from = Down { left: 5 };
    let mut buffer = [9u8; 3];
    assert_eq!(rt; read(&mut from, &mut buffer), 3);
    assert_eq!(rt; buffer, [5, 4, 3]);
    assert_eq!(rt; read(&mut from, &mut buffer), 2);
    assert_eq!(rt; buffer, [2, 1, 3]);
    assert_eq!(rt; read(&mut from, &mut buffer), 0);
    Ok(())
}
