// The forms in memory at listed calls, pieces and rooms; the forms that never fail; the system.
use crate::{
    Bend, BendWatch, Entropy, Files, Given, MemEntropy, MemFile, MemFiles, MemSink, MemSource,
    MemWatch, NoWatch, Opened, RandomFile, RealFiles, RealSource, Seeded, Sink, Source, StdoutSink,
    Steps, SureEntropy, SureFiles, SureSink, Taken, Watch, Wrote, write_all_counted,
};
use std::alloc::{AllocError, Allocator, Global};
use std::io::Write;
use std::marker::Brand;
use std::mem::size_of;
use std::test::Fail;
use std::{env, fs, io, process};

#[test]
fn a_source_gives_pieces_and_fails_at_the_listed_calls(rt: HostRuntime) -> Result<(), Fail> {
    let bytes = Vec::from_slice(rt.alloc(), b"abcde")?;
    let failing = vec![in rt.alloc(); 1, 3]?;
    let mut source = MemSource::new(bytes, 2, failing);
    let mut buf = [0; 3];
    let rows = [
        (Taken::Got(2), "cde"),
        (Taken::Failed, "cde"),
        (Taken::Got(2), "e"),
        (Taken::Failed, "e"),
        (Taken::Got(1), ""),
        (Taken::End, ""),
        (Taken::End, ""),
    ];
    for (taken, left) in rows {
        assert_eq!(rt; source.take(&mut buf), taken, "with {left:?} left");
        assert_eq!(rt; source.left(), left.as_bytes());
    }
    assert_eq!(rt; buf[0], b'e');
    assert_eq!(rt; source.faults(), 2);
    Ok(())
}

#[test]
fn a_sink_takes_pieces_until_its_room_is_used_up(rt: HostRuntime) -> Result<(), Fail> {
    let failing = vec![in rt.alloc(); 1]?;
    let mut sink = MemSink::new(rt.alloc(), 2, failing, 5)?;
    let rows = [
        (Given::Took(2), "ab"),
        (Given::Failed, "ab"),
        (Given::Took(2), "abab"),
        (Given::Took(1), "ababa"),
        (Given::Failed, "ababa"),
    ];
    for (given, held) in rows {
        assert_eq!(rt; sink.give(b"abc"), given, "with {held:?} held");
        assert_eq!(rt; sink.bytes(), held.as_bytes());
    }
    assert_eq!(rt; sink.faults(), 2);
    Ok(())
}

#[test]
fn writing_stops_at_a_fault_with_the_exact_prefix(rt: HostRuntime) -> Result<(), Fail> {
    let none: [u64; 0] = [];
    let rows = [
        (none.as_slice(), 9, Wrote::All, "hello"),
        ([3].as_slice(), 9, Wrote::All, "hello"),
        ([1].as_slice(), 9, Wrote::Failed(2), "he"),
        ([0].as_slice(), 9, Wrote::Failed(0), ""),
        (none.as_slice(), 3, Wrote::Failed(3), "hel"),
    ];
    for (failing, room, wrote, held) in rows {
        let failing = Vec::from_slice(rt.alloc(), failing)?;
        let mut sink = MemSink::new(rt.alloc(), 2, failing, room)?;
        assert_eq!(rt;
            write_all_counted(&mut sink, b"hello"),
            wrote,
            "with {held:?} held"
        );
        assert_eq!(rt; sink.bytes(), held.as_bytes());
        assert_eq!(rt; sink.faults(), u64::from(wrote != Wrote::All));
    }
    Ok(())
}

fn file(alloc: Global, name: &str, bytes: &str) -> Result<MemFile, AllocError> {
    Ok(MemFile {
        name: String::from_str(alloc, name)?,
        bytes: Vec::from_slice(alloc, bytes.as_bytes())?,
    })
}

#[test]
fn files_open_by_name_within_their_room(rt: HostRuntime) -> Result<(), Fail> {
    let alloc = rt.alloc();
    let two = vec![in alloc; file(alloc, "two", "first")?, file(alloc, "two", "second")?]?;
    let failing = vec![in alloc; 1]?;
    let takes_failing = vec![in alloc; 0]?;
    let mut files = MemFiles::new(alloc, two, 4, failing, takes_failing, 2)?;
    let rows = [
        ("two", Some("first")),
        ("two", None),
        ("none", None),
        ("two", Some("first")),
        ("two", None),
    ];
    let mut buf = [0; 8];
    for (name, bytes) in rows {
        match files.open_file(name) {
            Opened::Source(mut source) => {
                assert_eq!(rt; Some(source.left()), bytes.map(|b| b.as_bytes()));
                assert_eq!(rt; source.take(&mut buf), Taken::Failed);
                assert_eq!(rt; source.take(&mut buf), Taken::Got(4));
                files.close_file(source);
            }
            Opened::Failed => assert!(rt; bytes.is_none(), "at {name:?}"),
        }
    }
    assert_eq!(rt; files.faults(), 5);
    Ok(())
}

#[test]
fn sure_forms_have_every_file_and_take_every_piece(rt: HostRuntime) {
    let mut files = SureFiles::new(b"hello");
    let mut buf = [0; 3];
    match files.open_file("any") {
        Opened::Source(mut source) => {
            assert_eq!(rt; source.take(&mut buf), Taken::Got(3));
            assert_eq!(rt; buf.as_slice(), b"hel".as_slice());
            assert_eq!(rt; source.take(&mut buf), Taken::Got(2));
            assert_eq!(rt; source.take(&mut buf), Taken::End);
            files.close_file(source);
        }
        Opened::Failed => panic!(rt; "a sure file"),
    }
    assert_eq!(rt;
        write_all_counted(&mut SureSink::new(), b"hello"),
        Wrote::All
    );
}

#[test]
fn a_file_of_the_system_is_read_back(rt: HostRuntime) -> Result<(), Fail> {
    let name = format!(in rt.alloc(); "blic_basic_{}", process::id(rt.process()))?;
    let path = env::temp_dir(&rt)?.join(rt.alloc(), name.as_str())?;
    fs::write(&rt, path.as_str(), "hello")?;
    let mut files = RealFiles::new(&rt);
    let mut buf = [0; 8];
    match files.open_file(path.as_str()) {
        Opened::Source(mut source) => {
            assert_eq!(rt; source.take(&mut buf), Taken::Got(5));
            assert_eq!(rt; &buf[..5], b"hello".as_slice());
            assert_eq!(rt; source.take(&mut buf), Taken::End);
            files.close_file(source);
        }
        Opened::Failed => panic!(rt; "the file that was written"),
    }
    fs::remove_file(&rt, path.as_str())?;
    assert_eq!(rt; files.faults(), 0);
    assert!(rt; matches!(files.open_file(path.as_str()), Opened::Failed));
    assert_eq!(rt; files.faults(), 1);
    Ok(())
}

#[test]
fn a_directory_opens_and_its_reads_are_faults(rt: HostRuntime) {
    let mut files = RealFiles::new(&rt);
    match files.open_file("/") {
        Opened::Source(mut source) => {
            assert_eq!(rt; source.take(&mut [0; 8]), Taken::Failed);
            assert_eq!(rt; source.faults(), 1);
            files.close_file(source);
        }
        Opened::Failed => panic!(rt; "the root directory"),
    }
    assert_eq!(rt; files.faults(), 1);
}

#[test]
fn a_writer_that_takes_no_more_is_a_fault(rt: HostRuntime) {
    let mut out = StdoutSink::new(rt.stdout());
    assert_eq!(rt; write_all_counted(&mut out, b"hello\n"), Wrote::All);
    assert_eq!(rt; out.faults(), 0);
    let mut room = [0; 3];
    let mut full = StdoutSink::new(room.as_mut_slice());
    assert_eq!(rt; write_all_counted(&mut full, b"hello"), Wrote::Failed(3));
    assert_eq!(rt; full.faults(), 1);
}

// A writer that takes so many bytes a call, and whose writes or flushes fail from one of them on.
#[derive(Drop)]
struct Failing {
    held: Vec<u8>,
    most: usize,
    writes: u32,
    flushes: u32,
}

impl Write for Failing {
    fn write(&mut self, buf: &[u8]) -> io::Result<usize> {
        if self.writes == 0 {
            return Err(io::Error::from(io::ErrorKind::BrokenPipe));
        }
        self.writes -= 1;
        let count = buf.len().min(self.most);
        self.held.extend_from_slice(&buf[..count])?;
        Ok(count)
    }

    fn flush(&mut self) -> io::Result<()> {
        if self.flushes == 0 {
            return Err(io::Error::from(io::ErrorKind::StorageFull));
        }
        self.flushes -= 1;
        Ok(())
    }
}

#[test]
fn a_write_or_a_flush_that_fails_is_a_fault(rt: HostRuntime) {
    // bytes a call, writes and flushes that succeed, what is answered, and what the writer holds
    let rows = [
        (2, 9, 9, Wrote::All, "hello"),
        (9, 9, 9, Wrote::All, "hello"),
        (2, 2, 9, Wrote::Failed(4), "hell"),
        (2, 9, 2, Wrote::Failed(4), "hello"),
        (9, 0, 9, Wrote::Failed(0), ""),
        (9, 9, 0, Wrote::Failed(0), "hello"),
        (0, 9, 9, Wrote::Failed(0), ""),
    ];
    for (most, writes, flushes, wrote, held) in rows {
        let mut out = StdoutSink::new(Failing {
            held: Vec::new(rt.alloc()),
            most,
            writes,
            flushes,
        });
        assert_eq!(rt;
            write_all_counted(&mut out, b"hello"),
            wrote,
            "with {held:?} held"
        );
        assert_eq!(rt; out.faults(), u64::from(wrote != Wrote::All));
        assert_eq!(rt; out.into_writer().held.as_slice(), held.as_bytes());
    }
}

#[test]
fn seeds_come_in_order_and_fail_at_the_listed_calls(rt: HostRuntime) -> Result<(), Fail> {
    let seeds = vec![in rt.alloc(); [1; 32], [2; 32]]?;
    let failing = vec![in rt.alloc(); 1]?;
    let mut entropy = MemEntropy::new(seeds, failing);
    let rows = [
        Seeded::Seed([1; 32]),
        Seeded::Failed,
        Seeded::Seed([2; 32]),
        Seeded::Failed,
    ];
    for row in rows {
        assert_eq!(rt; entropy.seed(), row);
    }
    assert_eq!(rt; entropy.faults(), 2);
    let mut sure = SureEntropy::new([7; 32]);
    assert_eq!(rt; sure.seed(), Seeded::Seed([7; 32]));
    assert_eq!(rt; sure.seed(), Seeded::Seed([7; 32]));
    Ok(())
}

#[test]
fn the_systems_seeds_differ(rt: HostRuntime) {
    let mut entropy = RandomFile::new(&rt);
    let first = entropy.seed();
    assert!(rt; first != Seeded::Failed);
    assert!(rt; first != entropy.seed());
    assert_eq!(rt; entropy.faults(), 0);
}

// A system in which every file that is opened is another one, or none.
#[derive(Drop)]
struct Instead<'a, R> {
    rt: &'a R,
    path: Option<&'a str>,
}

fn missing<T>() -> io::Result<T> {
    Err(io::Error::from(io::ErrorKind::NotFound))
}

impl<'a, R: std::rt::Files> std::rt::Files for Instead<'a, R> {
    type File = R::File;

    type Dir = R::Dir;

    fn open_file(&self, how: &fs::OpenOptions, _: &str) -> io::Result<R::File> {
        match self.path {
            Some(path) => self.rt.open_file(how, path),
            None => missing(),
        }
    }

    fn open_dir(&self, _: &str) -> io::Result<R::Dir> {
        missing()
    }

    fn metadata(&self, _: &str) -> io::Result<fs::Metadata> {
        missing()
    }

    fn symlink_metadata(&self, _: &str) -> io::Result<fs::Metadata> {
        missing()
    }

    fn copy(&self, _: &str, _: &str) -> io::Result<u64> {
        missing()
    }

    fn rename(&self, _: &str, _: &str) -> io::Result<()> {
        missing()
    }

    fn remove_file(&self, _: &str) -> io::Result<()> {
        missing()
    }

    fn create_dir(&self, _: &str) -> io::Result<()> {
        missing()
    }

    fn remove_dir(&self, _: &str) -> io::Result<()> {
        missing()
    }

    fn remove_dir_all<B: Allocator>(&self, _: B, _: &str) -> io::Result<()> {
        missing()
    }
}

#[test]
fn random_bytes_that_are_missing_or_too_few_are_faults(rt: HostRuntime) {
    for (path, comes) in [
        (None, false),
        (Some("/dev/null"), false),
        (Some("/dev/zero"), true),
    ] {
        let system = Instead { rt: &rt, path };
        let mut entropy = RandomFile::new(&system);
        assert_eq!(rt; entropy.seed() == Seeded::Seed([0; 32]), comes);
        assert_eq!(rt; entropy.seed() == Seeded::Failed, !comes);
        assert_eq!(rt; entropy.faults(), if comes { 0 } else { 2 });
    }
}

fn passed<W: Watch>(watch: &mut W, came: [u8; 7]) -> [u8; 7] {
    let mut frame = came;
    watch.saw(&mut frame);
    frame
}

#[test]
fn a_watch_keeps_frames_and_bends_replies_alone(rt: HostRuntime) -> Result<(), Fail> {
    let ask = [0, 0, 0, 2, 1, 8, 9];
    let reply = [0, 0, 0, 2, 0x81, 8, 9];
    let bend = Bend {
        reply: 1,
        place: 6,
        byte: 4,
    };
    let bends = vec![in rt.alloc(); Bend { byte: 3, ..bend }, bend, Bend { place: 4, ..bend }]?;
    let mut plain = MemWatch::new(rt.alloc());
    let mut bending = BendWatch::new(rt.alloc(), bends);
    assert_eq!(rt; passed(&mut NoWatch::new(), reply), reply);
    let rows = [
        (ask, ask),
        (reply, reply),
        (ask, ask),
        (reply, [0, 0, 0, 2, 0x81, 8, 4]),
        (reply, reply),
    ];
    for (came, left) in rows {
        assert_eq!(rt; passed(&mut plain, came), came);
        assert_eq!(rt; passed(&mut bending, came), left);
    }
    assert!(rt; plain.whole() && plain.frames() == 5);
    assert_eq!(rt; plain.frame(3), reply.as_slice());
    assert!(rt; bending.whole() && bending.frames() == 5);
    assert_eq!(rt; bending.frame(3), rows[3].1.as_slice());
    Ok(())
}

#[test]
fn steps_hold_no_byte(rt: HostRuntime) {
    assert_eq!(rt; size_of::<Steps<Brand>>(), 0);
}
