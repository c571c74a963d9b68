use crate::LockFile;
use crate::record_front::may_begin_record;
use memchr::memchr;
use n32_values::{Bytes, NoMemory, Text};
use std::alloc::Global;
use std::fs::{OpenFile, OpenOptions};
use std::io::{self, ErrorKind, Read, Seek, SeekFrom, Write};
use std::rt::Files;

/// The most bytes that an item may have. No record's text is longer (docs/DECISIONS.md derives it).
pub const LONGEST_ITEM: usize = 1_114_112;

// How many bytes a read of the file asks for.
const CHUNK: usize = 65_536;

/// A file of items, one on each line.
///
/// It is opened and locked at its first use, and made where it isn't there. It stays open and locked from then on.
#[derive(Drop)]
pub struct LineFile<T: Files + Drop>
where
    T::File: LockFile,
{
    files: T,
    path: Text,
    room: Room,
    lines: Option<Lines<T::File>>,
}

impl<T: Files + Drop> LineFile<T>
where
    T::File: LockFile,
{
    /// The file at this path, which isn't opened yet. It takes all the memory that its calls work in.
    pub fn new(files: T, alloc: Global, path: &str) -> Result<LineFile<T>, NoMemory> {
        Ok(LineFile {
            files,
            path: Text::from_text(alloc, path)?,
            room: Room::new(alloc)?,
            lines: None,
        })
    }

    /// Adds an item as the last line, by one write. What stands behind the last whole line is cut off before.
    ///
    /// An item is refused that would be read as two, or is longer than one may be.
    pub fn append(&mut self, item: &[u8]) -> io::Result<()> {
        if item.len() > LONGEST_ITEM || memchr(b'\n', item).is_some() {
            return Err(io::Error::from(ErrorKind::InvalidInput));
        }
        let mut lines = self.open()?;
        let result = lines.append(&mut self.room, item);
        self.lines = Some(lines);
        result
    }

    /// The item of that number, or `None` at or past the end, where the file stays as it is. An item that is too long is given as
    /// an empty one. The file is read in its order, each part once, unless an item is asked for again.
    pub fn item(&mut self, alloc: Global, number: u64) -> io::Result<Option<Bytes>> {
        let mut lines = self.open()?;
        let result = lines.item(alloc, &mut self.room, number);
        self.lines = Some(lines);
        result
    }

    fn open(&mut self) -> io::Result<Lines<T::File>> {
        match self.lines.take() {
            Some(lines) => Ok(lines),
            None => open_lines(&self.files, self.path.as_str()),
        }
    }
}

fn open_lines<T: Files>(files: &T, path: &str) -> io::Result<Lines<T::File>>
where
    T::File: LockFile,
{
    let mut options = OpenOptions::new();
    options.read(true).write(true).create(true);
    let file = options.open(files, path)?;
    if !file.metadata()?.is_file() {
        return Err(io::Error::from(ErrorKind::InvalidInput));
    }
    file.try_lock()?;
    Ok(Lines {
        file,
        next: 0,
        place: 0,
        is_there: false,
        end: None,
        is_whole: false,
    })
}

// An open file of lines, and how far it was read.
#[derive(Drop)]
struct Lines<F: Read + Write + Seek + OpenFile + Drop> {
    file: F,

    // The number of the line that comes next, and its byte place.
    next: u64,
    place: u64,

    // Whether the room has what was read from that place on, and the file stands behind it.
    is_there: bool,

    // The byte place behind the last whole line, once it was found, and whether nothing follows it.
    end: Option<u64>,
    is_whole: bool,
}

// What stands at a place of a file.
#[derive(Clone, Copy, Drop)]
enum Found {
    // A line, which is in the room.
    Line,
    // A line that is longer than an item may be, or longer than it so far.
    TooLong,
    // No whole line.
    End,
}

impl<F: Read + Write + Seek + OpenFile + Drop> Lines<F> {
    fn item(&mut self, alloc: Global, room: &mut Room, number: u64) -> io::Result<Option<Bytes>> {
        if number < self.next {
            self.next = 0;
            self.place = 0;
            self.is_there = false;
        }
        for _ in self.next..number {
            match self.read_next(room)? {
                Found::Line => {}
                Found::TooLong => return Err(io::Error::from(ErrorKind::InvalidData)),
                Found::End => return Ok(None),
            }
        }
        match self.read_next(room)? {
            Found::Line => Ok(Some(Bytes::from_vec(Vec::from_slice(alloc, &room.line)?))),
            Found::TooLong => Ok(Some(Bytes::from_vec(Vec::new(alloc)))),
            Found::End => Ok(None),
        }
    }

    fn append(&mut self, room: &mut Room, item: &[u8]) -> io::Result<()> {
        let end = self.find_end(room)?;
        if !self.is_whole {
            self.file.set_len(end)?;
        }
        self.is_whole = false;
        self.is_there = false;
        self.file.seek(SeekFrom::Start(end))?;
        self.file.write_all(room.with_newline(item)?)?;
        self.file.flush()?;
        self.is_whole = true;
        self.end = Some(end.saturating_add(item.len() as u64).saturating_add(1));
        Ok(())
    }

    // The byte place behind the last whole line.
    fn find_end(&mut self, room: &mut Room) -> io::Result<u64> {
        for _ in 0..u64::MAX {
            if let Some(end) = self.end {
                return Ok(end);
            }
            if let Found::TooLong = self.read_next(room)? {
                break;
            }
        }
        Err(io::Error::from(ErrorKind::InvalidData))
    }

    // Reads the next line, and goes behind it where it isn't too long. Nothing behind the last whole line is one.
    fn read_next(&mut self, room: &mut Room) -> io::Result<Found> {
        if self.end == Some(self.place) {
            return Ok(Found::End);
        }
        if !self.is_there {
            self.file.seek(SeekFrom::Start(self.place))?;
            room.forget();
        }
        self.is_there = false;
        match room.read_line(&mut self.file)? {
            Stop::Newline => {
                let length = room.line.len() as u64;
                self.next = self.next.saturating_add(1);
                self.place = self.place.saturating_add(length).saturating_add(1);
                self.is_there = true;
                Ok(Found::Line)
            }
            Stop::TooLong => Ok(Found::TooLong),
            Stop::End => self.end_here(&room.line),
        }
    }

    // The file ends behind these bytes, which no newline follows. Without a whole line it is none of records, unless they may be the
    // front of one.
    fn end_here(&mut self, rest: &[u8]) -> io::Result<Found> {
        if self.place == 0 && !may_begin_record(rest) {
            return Err(io::Error::from(ErrorKind::InvalidData));
        }
        self.end = Some(self.place);
        self.is_whole = rest.is_empty();
        Ok(Found::End)
    }
}

// The memory that a file of lines works in.
#[derive(Drop)]
struct Room {
    // What was read last. What stands from `from` to `to` wasn't taken yet.
    chunk: Vec<u8>,
    from: usize,
    to: usize,

    // The bytes of a line.
    line: Vec<u8>,
}

// Where the reading of a line stopped.
#[derive(Clone, Copy, Drop)]
enum Stop {
    Newline,
    TooLong,
    End,
}

impl Room {
    fn new(alloc: Global) -> Result<Room, NoMemory> {
        let mut chunk = Vec::with_capacity(alloc, CHUNK)?;
        chunk.resize(CHUNK, 0)?;
        Ok(Room {
            chunk,
            from: 0,
            to: 0,
            line: Vec::with_capacity(alloc, LONGEST_ITEM + 1)?,
        })
    }

    fn forget(&mut self) {
        self.from = 0;
        self.to = 0;
    }

    // The item with a newline behind it.
    fn with_newline(&mut self, item: &[u8]) -> io::Result<&[u8]> {
        self.line.clear();
        self.line.extend_from_slice(item)?;
        self.line.push(b'\n')?;
        Ok(&self.line)
    }

    // Reads a line, without its newline, as far as it isn't longer than an item may be.
    fn read_line<F: Read>(&mut self, file: &mut F) -> io::Result<Stop> {
        self.line.clear();
        for _ in 0..u64::MAX {
            if self.from >= self.to {
                self.from = 0;
                self.to = file.read(&mut self.chunk)?;
                if self.to == 0 {
                    return Ok(Stop::End);
                }
            }
            let rest = self.chunk.get(self.from..self.to).unwrap_or(&[]);
            let newline = memchr(b'\n', rest);
            let count = newline.unwrap_or(rest.len());
            if self.line.len() + count > LONGEST_ITEM {
                break;
            }
            self.line.extend_from_slice(&rest[..count])?;
            self.from = self.from.saturating_add(count);
            if newline.is_some() {
                self.from = self.from.saturating_add(1);
                return Ok(Stop::Newline);
            }
        }
        Ok(Stop::TooLong)
    }
}
