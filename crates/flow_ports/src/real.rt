// The streams and files of the system. What std tells of their bytes is passed on.
ghost use Rattle.std.specs.Prelude.{◌≡◌, ℕ, List, Bool, true, false, Option, None, is_some, IsTrue, length, if◌then◌else◌};

use crate::ports::{Failed, Shelf, Sink, Source};
use crate::whole::copy_front;
use std::alloc::Global;
use std::fs;
use std::io::{self, Read, Seek, SeekFrom, Write};
use std::rt::Files;

const CHUNK: usize = 8192;

/// A reader of std, which tells its bytes or doesn't.
#[derive(Drop)]
pub struct FromReader<R: Read> {
    inner: R,
    tells: bool,
    faults: u64,
    ghost told: { tells ≡ true → is_some (R.remaining inner) ≡ true },
}

impl<R: Read> FromReader<R> {
    /// Over a reader of which nothing is known.
    pub fn new(inner: R) -> Self
        ensures left { ⟦<FromReader<R> as Source>⟧.left result ≡ None }
        ensures faults { ⟦<FromReader<R> as Source>⟧.faults result ≡ 0 }
    {
        FromReader {
            inner,
            tells: false,
            faults: 0,
        }
    }

    /// Over a reader whose bytes are known.
    pub fn telling(inner: R) -> Self
        requires { is_some (R.remaining inner) ≡ true }
        ensures left { ⟦<FromReader<R> as Source>⟧.left result ≡ R.remaining inner }
        ensures faults { ⟦<FromReader<R> as Source>⟧.faults result ≡ 0 }
    {
        FromReader {
            inner,
            tells: true,
            faults: 0,
        }
    }
}

impl<R: Read> Source for FromReader<R> {
    ghost left = { λ s. if s.tells then R.remaining s.inner else None };

    ghost faults = { λ s. s.faults };

    fn read(&mut self, buf: &mut [u8]) -> Result<usize, Failed> {
        let mut chunk = [0u8; CHUNK];
        let room = buf.len().min(CHUNK);
        match self.inner.read(&mut chunk[..room]) {
            Ok(n) => {
                copy_front(buf, &chunk[..n]);
                Ok(n)
            }
            Err(_) => {
                self.faults = self.faults.saturating_add(1);
                Err(Failed)
            }
        }
    }
}

/// A writer of std, which tells its bytes or doesn't.
#[derive(Drop)]
pub struct ToWriter<W: Write> {
    inner: W,
    tells: bool,
    faults: u64,
    ghost told: { tells ≡ true → is_some (W.contents inner) ≡ true },
}

impl<W: Write> ToWriter<W> {
    /// Over a writer of which nothing is known.
    pub fn new(inner: W) -> Self
        ensures got { ⟦<ToWriter<W> as Sink>⟧.got result ≡ None }
        ensures faults { ⟦<ToWriter<W> as Sink>⟧.faults result ≡ 0 }
    {
        ToWriter {
            inner,
            tells: false,
            faults: 0,
        }
    }

    /// Over a writer whose bytes are known.
    pub fn telling(inner: W) -> Self
        requires { is_some (W.contents inner) ≡ true }
        ensures got { ⟦<ToWriter<W> as Sink>⟧.got result ≡ W.contents inner }
        ensures faults { ⟦<ToWriter<W> as Sink>⟧.faults result ≡ 0 }
    {
        ToWriter {
            inner,
            tells: true,
            faults: 0,
        }
    }
}

impl<W: Write> Sink for ToWriter<W> {
    ghost got = { λ s. if s.tells then W.contents s.inner else None };

    ghost faults = { λ s. s.faults };

    fn write(&mut self, bytes: &[u8]) -> Result<usize, Failed> {
        match self.inner.write(bytes) {
            Ok(n) => {
                if n > 0 || bytes.is_empty() {
                    return Ok(n);
                }
            }
            Err(_) => {}
        }
        self.faults = self.faults.saturating_add(1);
        Err(Failed)
    }
}

// A file that is open, and the place up to which it was read.
#[derive(Drop)]
struct OpenFile {
    name: String,
    file: fs::File,
    place: u64,
}

impl OpenFile {
    ghost use Rattle.std.specs.Io.{ReadsAtMost};

    // Reads on where that is the place that is asked for, so that a pipe can be read too, and seeks only elsewhere.
    fn read_at(&mut self, at: u64, buf: &mut [u8]) -> io::Result<usize>
        ensures { ReadsAtMost result buf.new }
    {
        if at != self.place {
            self.place = self.file.seek(SeekFrom::Start(at))?;
        }
        let n = self.file.read(buf)?;
        self.place = self.place.saturating_add(n as u64);
        Ok(n)
    }
}

/// The files of the system, of whose bytes nothing is known. The file that was read last stays open, so that a pipe
/// is read to its end too.
#[derive(Drop)]
pub struct FileShelf<R> {
    alloc: Global,
    files: R,
    open: Option<OpenFile>,
    faults: u64,
}

impl<R: Files<File = fs::File>> FileShelf<R> {
    ghost use Rattle.std.specs.Io.{ReadsAtMost};

    /// Over the files that the runtime opens.
    pub fn new(alloc: Global, files: R) -> Self
        ensures serves { (name : List ℕ) → IsTrue (⟦<FileShelf<R> as Shelf>⟧.serves result name) }
        ensures holds { (name : List ℕ) → ⟦<FileShelf<R> as Shelf>⟧.holds result name ≡ None }
        ensures faults { ⟦<FileShelf<R> as Shelf>⟧.faults result ≡ 0 }
    {
        FileShelf {
            alloc,
            files,
            open: None,
            faults: 0,
        }
    }

    // The file of that name: the one that is open, where it has that name and isn't read from its begin.
    fn take_file(&mut self, name: &str, at: u64) -> io::Result<OpenFile>
        ensures { self.new.faults ≡ self.old.faults }
    {
        if let Some(open) = self.open.take() {
            if at > 0 && open.name.as_str() == name {
                return Ok(open);
            }
        }
        Ok(OpenFile {
            name: String::from_str(self.alloc, name)?,
            file: fs::open(&self.files, name)?,
            place: 0,
        })
    }

    fn try_read(&mut self, name: &str, at: u64, buf: &mut [u8]) -> io::Result<usize>
        ensures bound { ReadsAtMost result buf.new }
        ensures faults { self.new.faults ≡ self.old.faults }
    {
        let mut open = self.take_file(name, at)?;
        let read = open.read_at(at, buf);
        self.open = Some(open);
        read
    }
}

impl<R: Files<File = fs::File>> Shelf for FileShelf<R> {
    ghost serves = { λ s name. true };

    ghost holds = { λ s name. None };

    ghost faults = { λ s. s.faults };

    fn read_at(&mut self, name: &str, at: u64, buf: &mut [u8]) -> Result<usize, Failed> {
        match self.try_read(name, at, buf) {
            Ok(n) => Ok(n),
            Err(_) => {
                self.faults = self.faults.saturating_add(1);
                Err(Failed)
            }
        }
    }
}
