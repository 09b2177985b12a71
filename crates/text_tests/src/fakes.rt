//! A stream and files that replace those of the system; what each call does is set.
use std::alloc::{Allocator, Global};
use std::fs::{Files, Metadata, OpenFile, OpenOptions};
use std::io::{self, Error, ErrorKind, Read, Seek, SeekFrom, Write};

/// What a call does.
#[derive(Clone, Copy)]
pub enum Turn {
    /// It moves at most this many bytes.
    Moves(usize),
    /// A signal interrupts this many calls, of which it is the first.
    Interrupted(u32),
    Fails,
}

/// A stream that gives the bytes of `source` and takes all bytes. `turns` says what the first call does, and then the second; the calls after these
/// move all bytes at once.
#[derive(Drop)]
pub struct Fake {
    pub turns: (Turn, Turn),
    pub source: &'static [u8],
    pub held: Vec<u8>,
    pub calls: u32,
}

impl Fake {
    fn turn(&mut self) -> Turn {
        let call = self.calls;
        self.calls = call.saturating_add(1);
        let times = match self.turns.1 {
            Turn::Interrupted(times) => times,
            _ => 1,
        };
        if call == 0 {
            self.turns.0
        } else if call <= times {
            self.turns.1
        } else {
            Turn::Moves(usize::MAX)
        }
    }
}

impl Read for Fake {
    fn read(&mut self, buf: &mut [u8]) -> io::Result<usize> {
        match self.turn() {
            Turn::Moves(most) => {
                let count = most.min(buf.len()).min(self.source.len());
                buf[..count].copy_from_slice(&self.source[..count]);
                self.source = &self.source[count..];
                Ok(count)
            }
            Turn::Interrupted(_) => Err(Error::from(ErrorKind::Interrupted)),
            Turn::Fails => Err(Error::from(ErrorKind::Other)),
        }
    }
}

impl Write for Fake {
    fn write(&mut self, buf: &[u8]) -> io::Result<usize> {
        match self.turn() {
            Turn::Moves(most) => {
                let count = most.min(buf.len());
                self.held.extend_from_slice(&buf[..count])?;
                Ok(count)
            }
            Turn::Interrupted(_) => Err(Error::from(ErrorKind::Interrupted)),
            Turn::Fails => Err(Error::from(ErrorKind::Other)),
        }
    }

    fn flush(&mut self) -> io::Result<()> {
        Ok(())
    }
}

impl Seek for Fake {
    fn seek(&mut self, _to: SeekFrom) -> io::Result<u64> {
        unsupported()
    }
}

impl OpenFile for Fake {
    fn metadata(&self) -> io::Result<Metadata> {
        unsupported()
    }

    fn set_len(&self, _size: u64) -> io::Result<()> {
        unsupported()
    }

    fn sync_all(&self) -> io::Result<()> {
        unsupported()
    }

    fn sync_data(&self) -> io::Result<()> {
        unsupported()
    }
}

fn unsupported<T>() -> io::Result<T> {
    Err(Error::from(ErrorKind::Unsupported))
}

/// Files that each open as one stream.
#[derive(Drop)]
pub struct FakeFiles {
    pub alloc: Global,
    pub turns: (Turn, Turn),
    pub source: &'static [u8],
}

impl Files for FakeFiles {
    type File = Fake;

    type Dir = Fake;

    fn open_file(&self, _how: &OpenOptions, _path: &str) -> io::Result<Fake> {
        Ok(Fake {
            turns: self.turns,
            source: self.source,
            held: Vec::new(self.alloc),
            calls: 0,
        })
    }

    fn open_dir(&self, _path: &str) -> io::Result<Fake> {
        unsupported()
    }

    fn metadata(&self, _path: &str) -> io::Result<Metadata> {
        unsupported()
    }

    fn symlink_metadata(&self, _path: &str) -> io::Result<Metadata> {
        unsupported()
    }

    fn copy(&self, _from: &str, _to: &str) -> io::Result<u64> {
        unsupported()
    }

    fn rename(&self, _from: &str, _to: &str) -> io::Result<()> {
        unsupported()
    }

    fn remove_file(&self, _path: &str) -> io::Result<()> {
        unsupported()
    }

    fn create_dir(&self, _path: &str) -> io::Result<()> {
        unsupported()
    }

    fn remove_dir(&self, _path: &str) -> io::Result<()> {
        unsupported()
    }

    fn remove_dir_all<B: Allocator>(&self, _alloc: B, _path: &str) -> io::Result<()> {
        unsupported()
    }
}
