// The files of a system, noted.
use crate::notes::{Call, Notes};
use std::alloc::Allocator;
use std::fs::{Metadata, OpenFile, OpenOptions};
use std::io::{self, Read, Seek, SeekFrom, Write};
use std::rc::Rc;
use std::rt::Files;

/// The files of a system, whose calls are noted: to open, to rename and to remove a file, and those of an open file.
#[derive(Clone, Drop)]
pub struct Noted<H: Files + Clone + Drop> {
    files: H,
    notes: Rc<Notes>,
}

/// An open file of them: its length, seeks, reads, writes and syncs are noted.
#[derive(Drop)]
pub struct NotedFile<F> {
    file: F,
    notes: Rc<Notes>,
}

impl<H: Files + Clone + Drop> Noted<H> {
    /// These files, whose calls stand in these notes.
    pub fn new(files: H, notes: Rc<Notes>) -> Noted<H> {
        Noted { files, notes }
    }
}

impl<F: Read> Read for NotedFile<F> {
    fn read(&mut self, buf: &mut [u8]) -> io::Result<usize> {
        self.notes.note(Call::Read)?;
        let most = self.notes.most(buf.len());
        self.file.read(&mut buf[..most])
    }
}

impl<F: Write> Write for NotedFile<F> {
    fn write(&mut self, buf: &[u8]) -> io::Result<usize> {
        self.notes.note(Call::Write)?;
        let most = self.notes.most(buf.len());
        self.file.write(&buf[..most])
    }

    fn flush(&mut self) -> io::Result<()> {
        self.file.flush()
    }
}

impl<F: Seek> Seek for NotedFile<F> {
    fn seek(&mut self, to: SeekFrom) -> io::Result<u64> {
        self.notes.note(Call::Seek)?;
        self.file.seek(to)
    }
}

impl<F: OpenFile> OpenFile for NotedFile<F> {
    fn metadata(&self) -> io::Result<Metadata> {
        self.notes.note(Call::Length)?;
        self.file.metadata()
    }

    fn set_len(&self, size: u64) -> io::Result<()> {
        self.file.set_len(size)
    }

    fn sync_all(&self) -> io::Result<()> {
        self.notes.note(Call::SyncAll)?;
        self.file.sync_all()
    }

    fn sync_data(&self) -> io::Result<()> {
        self.notes.note(Call::SyncData)?;
        self.file.sync_data()
    }
}

impl<H: Files + Clone + Drop> Files for Noted<H> {
    type File = NotedFile<H::File>;

    type Dir = H::Dir;

    fn open_file(&self, how: &OpenOptions, path: &str) -> io::Result<NotedFile<H::File>> {
        let call = if how.asks_write() {
            Call::OpenToWrite
        } else {
            Call::OpenToRead
        };
        self.notes.note(call)?;
        let file = self.files.open_file(how, path)?;
        Ok(NotedFile {
            file,
            notes: self.notes.clone()?,
        })
    }

    fn open_dir(&self, path: &str) -> io::Result<H::Dir> {
        self.files.open_dir(path)
    }

    fn metadata(&self, path: &str) -> io::Result<Metadata> {
        self.files.metadata(path)
    }

    fn symlink_metadata(&self, path: &str) -> io::Result<Metadata> {
        self.files.symlink_metadata(path)
    }

    fn copy(&self, from: &str, to: &str) -> io::Result<u64> {
        self.files.copy(from, to)
    }

    fn rename(&self, from: &str, to: &str) -> io::Result<()> {
        self.notes.note(Call::Rename)?;
        self.files.rename(from, to)
    }

    fn remove_file(&self, path: &str) -> io::Result<()> {
        self.notes.note(Call::Remove)?;
        self.files.remove_file(path)
    }

    fn create_dir(&self, path: &str) -> io::Result<()> {
        self.files.create_dir(path)
    }

    fn remove_dir(&self, path: &str) -> io::Result<()> {
        self.files.remove_dir(path)
    }

    fn remove_dir_all<B: Allocator>(&self, alloc: B, path: &str) -> io::Result<()> {
        self.files.remove_dir_all(alloc, path)
    }
}
