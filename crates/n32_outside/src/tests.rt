ghost use Rattle.std.specs.Prelude.{Some, length, ◌==◌};
ghost use Rattle.n32_outside.specs.declared.algorithm.JwsAlg.TheVariants.{Hs256};

use crate::{
    CallList, FailAt, FailItem, FailList, Failed, FileKeeper, JwsAlg, Keeper, LockFile, MemKeeper,
    MemSink, MemSource, OutFault, Signer, Sink, Source, StdSink, StdSource, Verifier,
};
use n32_values::{Bytes, NoMemory, Text};
use std::alloc::{Allocator, Global};
use std::fs::{self, Metadata, OpenFile, OpenOptions};
use std::io::{self, ErrorKind, Read, Seek, SeekFrom, Write};
use std::rt::Files;

fn call_list(alloc: Global, numbers: &[u64]) -> Result<CallList, NoMemory> {
    Ok(CallList::from_vec(Vec::from_slice(alloc, numbers)?))
}

// Whether the bytes `abcde` are read in pieces of two, with faults at the calls 1 and 3.
fn is_read(mut source: MemSource) -> bool {
    let mut room = [0u8; 2];
    source.read(&mut room) == Ok(2)
        && source.read(&mut room) == Err(Failed)
        && room == *b"ab"
        && source.read(&mut room) == Ok(2)
        && source.read(&mut room) == Err(Failed)
        && room == *b"cd"
        && source.read(&mut room) == Ok(1)
        && source.read(&mut room) == Ok(0)
        && room == *b"ed"
}

fn is_source_failing(alloc: Global) -> bool {
    match (
        Bytes::from_slice(alloc, b"abcde"),
        call_list(alloc, &[1, 3]),
    ) {
        (Ok(text), Ok(fails)) => is_read(MemSource::new(text, fails)),
        _ => false,
    }
}

// Whether pieces are written but for faults at the calls 0 and 2.
fn is_written(mut sink: MemSink) -> bool {
    sink.write(b"ab") == Err(OutFault::Failed)
        && sink.write(b"cd") == Ok(2)
        && sink.write(b"ef") == Err(OutFault::Failed)
        && sink.write(b"gh") == Ok(2)
        && sink.written() == b"cdgh".as_slice()
}

fn is_sink_failing(alloc: Global) -> bool {
    match call_list(alloc, &[0, 2]) {
        Ok(fails) => is_written(MemSink::new(alloc, fails)),
        Err(_) => false,
    }
}

#[test]
fn objects_in_memory_fail_at_their_listed_calls(rt: HostRuntime) {
    assert!(rt; is_source_failing(rt.alloc()));
    assert!(rt; is_sink_failing(rt.alloc()));
}

fn is_found(
    found: Result<Option<Bytes>, OutFault>,
    wanted: Result<Option<&[u8]>, OutFault>,
) -> bool {
    match (found, wanted) {
        (Ok(Some(bytes)), Ok(Some(item))) => bytes.as_slice() == item,
        (Ok(None), Ok(None)) => true,
        (Err(fault), Err(other)) => fault == other,
        _ => false,
    }
}

fn fail_list(alloc: Global, items: &[FailItem]) -> Result<FailList, NoMemory> {
    Ok(FailList::from_vec(Vec::from_slice(alloc, items)?))
}

// Whether the keeper keeps the item of a failing call that is listed so, and fails at loads as well.
fn is_kept_where_listed(alloc: Global, mut keeper: MemKeeper) -> bool {
    keeper.put(b"zero").is_ok()
        && keeper.put(b"one") == Err(OutFault::Failed)
        && keeper.put(b"lost") == Err(OutFault::Failed)
        && keeper.put(b"").is_ok()
        && is_found(keeper.load(alloc, 1), Ok(Some(b"one")))
        && is_found(keeper.load(alloc, 0), Err(OutFault::Failed))
        && is_found(keeper.load(alloc, 0), Ok(Some(b"zero")))
        && is_found(keeper.load(alloc, 2), Ok(Some(b"")))
        && is_found(keeper.load(alloc, 3), Ok(None))
        && is_found(keeper.load(alloc, u64::MAX), Ok(None))
}

fn is_keeper_failing(alloc: Global) -> bool {
    let items = [
        FailItem {
            call: 1,
            keeps: true,
        },
        FailItem {
            call: 2,
            keeps: false,
        },
        FailItem {
            call: 2,
            keeps: true,
        },
        FailItem {
            call: 5,
            keeps: true,
        },
    ];
    match fail_list(alloc, &items) {
        Ok(fails) => is_kept_where_listed(alloc, MemKeeper::new(alloc, fails)),
        Err(_) => false,
    }
}

#[test]
fn a_keeper_in_memory_fails_at_its_listed_calls(rt: HostRuntime) {
    assert!(rt; is_keeper_failing(rt.alloc()));
}

// Whether the file holds these bytes.
fn is_held(rt: &HostRuntime, path: &str, wanted: &[u8]) -> bool {
    match fs::read(rt, path) {
        Ok(bytes) => bytes.as_slice() == wanted,
        Err(_) => false,
    }
}

fn is_kept(rt: &HostRuntime, path: &str) -> bool {
    let alloc = rt.alloc();
    let Ok(mut keeper) = FileKeeper::new(rt, alloc, path) else {
        return false;
    };
    is_found(keeper.load(alloc, 0), Ok(None))
        && keeper.put(b"zero").is_ok()
        && keeper.put(b"").is_ok()
        && keeper.put(b"a\nb") == Err(OutFault::Failed)
        && keeper.put(b"two").is_ok()
}

fn is_locked(rt: &HostRuntime, path: &str) -> bool {
    let alloc = rt.alloc();
    let Ok(mut keeper) = FileKeeper::new(rt, alloc, path) else {
        return false;
    };
    is_found(keeper.load(alloc, 0), Err(OutFault::Failed))
        && keeper.put(b"lost") == Err(OutFault::Failed)
}

fn is_read_again(rt: &HostRuntime, path: &str) -> bool {
    let alloc = rt.alloc();
    let Ok(mut keeper) = FileKeeper::new(rt, alloc, path) else {
        return false;
    };
    is_found(keeper.load(alloc, 0), Ok(Some(b"zero")))
        && is_found(keeper.load(alloc, 2), Ok(Some(b"two")))
        && is_found(keeper.load(alloc, u64::MAX), Ok(None))
        && is_found(keeper.load(alloc, 1), Ok(Some(b"")))
        && is_locked(rt, path)
        && is_held(rt, path, b"zero\n\ntwo\nunfin")
        && keeper.put(b"three").is_ok()
        && is_found(keeper.load(alloc, 3), Ok(Some(b"three")))
}

#[test]
fn a_file_keeps_an_item_a_line_and_its_unfinished_line_until_the_next_put(rt: HostRuntime) {
    let path = "kept_items.txt";
    assert!(rt; is_kept(&rt, path));
    assert!(rt; is_held(&rt, path, b"zero\n\ntwo\n"));
    assert!(rt; fs::write(&rt, path, "zero\n\ntwo\nunfin").is_ok());
    assert!(rt; is_read_again(&rt, path));
    assert!(rt; is_held(&rt, path, b"zero\n\ntwo\nthree\n"));
    assert!(rt; fs::remove_file(&rt, path).is_ok());
}

/// A file that takes two bytes at its second write, and fails at the third.
#[derive(Drop)]
struct TornFile<F: Drop> {
    file: F,
    writes: u8,
}

impl<F: Read + Drop> Read for TornFile<F> {
    fn read(&mut self, buf: &mut [u8]) -> io::Result<usize> {
        self.file.read(buf)
    }
}

impl<F: Write + Drop> Write for TornFile<F> {
    fn write(&mut self, buf: &[u8]) -> io::Result<usize> {
        self.writes = self.writes.saturating_add(1);
        match self.writes {
            2 => self.file.write(&buf[..buf.len().min(2)]),
            3 => Err(io::Error::from(ErrorKind::StorageFull)),
            _ => self.file.write(buf),
        }
    }

    fn flush(&mut self) -> io::Result<()> {
        self.file.flush()
    }
}

impl<F: Seek + Drop> Seek for TornFile<F> {
    fn seek(&mut self, to: SeekFrom) -> io::Result<u64> {
        self.file.seek(to)
    }
}

impl<F: OpenFile + Drop> OpenFile for TornFile<F> {
    fn metadata(&self) -> io::Result<Metadata> {
        self.file.metadata()
    }

    fn set_len(&self, size: u64) -> io::Result<()> {
        self.file.set_len(size)
    }

    fn sync_all(&self) -> io::Result<()> {
        self.file.sync_all()
    }

    fn sync_data(&self) -> io::Result<()> {
        self.file.sync_data()
    }
}

impl<F: LockFile + Drop> LockFile for TornFile<F> {
    fn try_lock(&self) -> io::Result<()> {
        self.file.try_lock()
    }
}

/// Files that tear.
#[derive(Clone, Drop)]
struct TornFiles<R: Files + Clone + Drop> {
    inner: R,
}

impl<R: Files + Clone + Drop> Files for TornFiles<R> {
    type File = TornFile<R::File>;

    type Dir = R::Dir;

    fn open_file(&self, how: &OpenOptions, path: &str) -> io::Result<TornFile<R::File>> {
        Ok(TornFile {
            file: self.inner.open_file(how, path)?,
            writes: 0,
        })
    }

    fn open_dir(&self, path: &str) -> io::Result<R::Dir> {
        self.inner.open_dir(path)
    }

    fn metadata(&self, path: &str) -> io::Result<Metadata> {
        self.inner.metadata(path)
    }

    fn symlink_metadata(&self, path: &str) -> io::Result<Metadata> {
        self.inner.symlink_metadata(path)
    }

    fn copy(&self, from: &str, to: &str) -> io::Result<u64> {
        self.inner.copy(from, to)
    }

    fn rename(&self, from: &str, to: &str) -> io::Result<()> {
        self.inner.rename(from, to)
    }

    fn remove_file(&self, path: &str) -> io::Result<()> {
        self.inner.remove_file(path)
    }

    fn create_dir(&self, path: &str) -> io::Result<()> {
        self.inner.create_dir(path)
    }

    fn remove_dir(&self, path: &str) -> io::Result<()> {
        self.inner.remove_dir(path)
    }

    fn remove_dir_all<B: Allocator>(&self, alloc: B, path: &str) -> io::Result<()> {
        self.inner.remove_dir_all(alloc, path)
    }
}

fn is_mended(rt: &HostRuntime, path: &str) -> bool {
    let alloc = rt.alloc();
    let Ok(mut keeper) = FileKeeper::new(TornFiles { inner: rt }, alloc, path) else {
        return false;
    };
    keeper.put(b"zero").is_ok()
        && keeper.put(b"lost") == Err(OutFault::Failed)
        && is_found(keeper.load(alloc, 1), Ok(None))
        && is_held(rt, path, b"zero\nlo")
        && keeper.put(b"one").is_ok()
        && is_found(keeper.load(alloc, 1), Ok(Some(b"one")))
}

#[test]
fn what_a_failed_put_left_of_its_line_is_cut_off_by_the_next(rt: HostRuntime) {
    let path = "torn_items.txt";
    assert!(rt; is_mended(&rt, path));
    assert!(rt; is_held(&rt, path, b"zero\none\n"));
    assert!(rt; fs::remove_file(&rt, path).is_ok());
}

#[test]
fn a_file_that_can_not_be_made_fails_each_call(rt: HostRuntime) {
    assert!(rt; is_locked(&rt, "no_such_folder/items.txt"));
}

/// Signs an input by the input itself, and takes a signature of its length for true.
#[derive(Drop)]
struct Echo;

impl Signer for Echo {
    ghost algorithm = { λ _. Hs256 };

    ghost meaning = { λ _. Some (λ alg identity input. input) };

    ghost faults = { λ _. 0 };

    fn alg(&self) -> JwsAlg {
        JwsAlg::Hs256
    }

    fn sign(&mut self, alloc: Global, _identity: &Text, input: &[u8]) -> Result<Bytes, OutFault> {
        Ok(Bytes::from_slice(alloc, input)?)
    }
}

impl Verifier for Echo {
    ghost meaning = { λ _. Some (λ alg identity input signature. length input == length signature) };

    ghost faults = { λ _. 0 };

    fn verify(
        &mut self,
        _alloc: Global,
        _alg: JwsAlg,
        _identity: &Text,
        input: &[u8],
        signature: &[u8],
    ) -> Result<bool, OutFault> {
        Ok(input.len() == signature.len())
    }
}

fn is_signed(signed: Result<Bytes, OutFault>, wanted: Result<&[u8], OutFault>) -> bool {
    match (signed, wanted) {
        (Ok(bytes), Ok(signature)) => bytes.as_slice() == signature,
        (Err(fault), Err(other)) => fault == other,
        _ => false,
    }
}

fn is_signing(alloc: Global, mut signer: FailAt<Echo>, identity: &Text) -> bool {
    is_signed(signer.sign(alloc, identity, b"in"), Ok(b"in"))
        && is_signed(signer.sign(alloc, identity, b"in"), Err(OutFault::Failed))
        && is_signed(signer.sign(alloc, identity, b"in"), Ok(b"in"))
        && signer.alg() == JwsAlg::Hs256
}

fn is_verifying(alloc: Global, mut verifier: FailAt<Echo>, identity: &Text) -> bool {
    let alg = JwsAlg::Hs256;
    verifier.verify(alloc, alg, identity, b"in", b"ab") == Err(OutFault::Failed)
        && verifier.verify(alloc, alg, identity, b"in", b"ab") == Ok(true)
        && verifier.verify(alloc, alg, identity, b"in", b"abc") == Ok(false)
}

fn is_signer_failing(alloc: Global) -> bool {
    match (Text::from_text(alloc, "ipx-a"), call_list(alloc, &[1])) {
        (Ok(identity), Ok(fails)) => is_signing(alloc, FailAt::new(Echo, fails), &identity),
        _ => false,
    }
}

fn is_verifier_failing(alloc: Global) -> bool {
    match (Text::from_text(alloc, "ipx-a"), call_list(alloc, &[0])) {
        (Ok(identity), Ok(fails)) => is_verifying(alloc, FailAt::new(Echo, fails), &identity),
        _ => false,
    }
}

#[test]
fn a_signer_and_a_verifier_fail_at_their_listed_calls(rt: HostRuntime) {
    assert!(rt; is_signer_failing(rt.alloc()));
    assert!(rt; is_verifier_failing(rt.alloc()));
}

/// Gives at most two bytes at a read, and fails once in mid-stream.
#[derive(Drop)]
struct BrokenReader {
    call: u8,
}

impl Read for BrokenReader {
    fn read(&mut self, buf: &mut [u8]) -> io::Result<usize> {
        self.call = self.call.saturating_add(1);
        let piece: &[u8] = match self.call {
            1 => b"ab",
            2 => return Err(io::Error::from(ErrorKind::ConnectionReset)),
            3 => b"c",
            _ => b"",
        };
        let count = piece.len().min(buf.len());
        buf[..count].copy_from_slice(&piece[..count]);
        Ok(count)
    }
}

fn is_read_around_a_fault(mut source: StdSource<BrokenReader>) -> bool {
    let mut room = [0u8; 4];
    source.read(&mut room) == Ok(2)
        && source.read(&mut room) == Err(Failed)
        && source.read(&mut room) == Ok(1)
        && source.read(&mut room) == Ok(0)
        && room == *b"cb\0\0"
}

#[test]
fn a_source_over_a_reader_fails_where_the_reader_does(rt: HostRuntime) {
    assert!(rt; is_read_around_a_fault(StdSource::new(BrokenReader { call: 0 })));
}

/// Takes at most two bytes at a write, then nothing, then fails.
#[derive(Drop)]
struct SlowWriter {
    call: u8,
}

impl Write for SlowWriter {
    fn write(&mut self, buf: &[u8]) -> io::Result<usize> {
        self.call = self.call.saturating_add(1);
        match self.call {
            1 => Ok(buf.len().min(2)),
            2 => Ok(0),
            3 => Err(io::Error::from(ErrorKind::BrokenPipe)),
            _ => Ok(buf.len()),
        }
    }

    fn flush(&mut self) -> io::Result<()> {
        Ok(())
    }
}

fn is_written_around_faults(mut sink: StdSink<SlowWriter>) -> bool {
    sink.write(b"abc") == Ok(2)
        && sink.write(b"c") == Err(OutFault::Failed)
        && sink.write(b"c") == Err(OutFault::Failed)
        && sink.write(b"") == Ok(0)
        && sink.write(b"c") == Ok(1)
}

#[test]
fn a_sink_over_a_writer_fails_where_nothing_is_taken(rt: HostRuntime) {
    assert!(rt; is_written_around_faults(StdSink::new(SlowWriter { call: 0 })));
}
