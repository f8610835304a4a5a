use embed_base::{
    FileError, Files, MemFiles, MemSink, PlainList, PlainString, RealFiles, RealSink, SharedString,
    Sink, SinkError, Status, SureFiles, SureSink,
};
use std::alloc::Global;
use std::test::Fail;
use std::{fs, io};

// Files of these names and texts.
fn named(alloc: Global, files: &[(&str, &str)]) -> Result<Vec<(String, Vec<u8>)>, Fail> {
    let mut all = Vec::new(alloc);
    for (name, text) in files {
        let bytes = Vec::from_slice(alloc, text.as_bytes())?;
        all.push((String::from_str(alloc, name)?, bytes))?;
    }
    Ok(all)
}

#[test]
fn files_in_memory(rt: HostRuntime) -> Result<(), Fail> {
    let alloc = rt.alloc();
    let pairs = [("a", "one"), ("a", "two"), ("b", "four")];
    let mut files = MemFiles::new(
        named(alloc, pairs.as_slice())?,
        Vec::from_slice(alloc, [1].as_slice())?,
    );
    let mut into = Vec::from_slice(alloc, b"before".as_slice())?;
    assert_eq!(rt; files.read_whole(alloc, "a", 3, &mut into), Ok(()));
    assert_eq!(rt; into.as_slice(), b"one".as_slice());
    assert_eq!(rt;
        files.read_whole(alloc, "a", 3, &mut into),
        Err(FileError::Failed)
    );
    assert_eq!(rt; into.len(), 0);
    assert_eq!(rt;
        files.read_whole(alloc, "b", 3, &mut into),
        Err(FileError::TooLong)
    );
    assert_eq!(rt; files.read_whole(alloc, "b", 4, &mut into), Ok(()));
    assert_eq!(rt;
        files.read_whole(alloc, "c", 4, &mut into),
        Err(FileError::Failed)
    );
    let mut sure = SureFiles::new(named(alloc, pairs.as_slice())?);
    assert_eq!(rt; sure.read_whole(alloc, "a", 3, &mut into), Ok(()));
    assert_eq!(rt; into.as_slice(), b"one".as_slice());
    assert_eq!(rt; sure.read_whole(alloc, "c", 0, &mut into), Ok(()));
    assert_eq!(rt; into.len(), 0);
    Ok(())
}

#[test]
fn outputs_in_memory(rt: HostRuntime) -> Result<(), Fail> {
    let alloc = rt.alloc();
    let mut out = MemSink::new(alloc, 2, Vec::from_slice(alloc, [1].as_slice())?);
    assert_eq!(rt; out.write(alloc, b"abc".as_slice()), Ok(2));
    assert_eq!(rt; out.write(alloc, b"c".as_slice()), Err(SinkError::Failed));
    assert_eq!(rt; out.write(alloc, b"c".as_slice()), Ok(1));
    assert_eq!(rt; out.write(alloc, b"".as_slice()), Ok(0));
    assert_eq!(rt; out.bytes(), b"abc".as_slice());
    let mut sure = SureSink::new(alloc);
    assert_eq!(rt; sure.write(alloc, b"abc".as_slice()), Ok(3));
    assert_eq!(rt; sure.bytes(), b"abc".as_slice());
    Ok(())
}

#[test]
fn texts_and_lists(rt: HostRuntime) -> Result<(), Fail> {
    let alloc = rt.alloc();
    let mut text = PlainString::new(alloc);
    text.push_str("ab")?;
    assert_eq!(rt; text.as_str(), "ab");
    assert_eq!(rt; PlainString::from_str(alloc, "ab")?.as_str(), "ab");
    let shared = SharedString::from_str(alloc, "ab")?;
    let clone = shared.clone()?;
    assert_eq!(rt;
        shared.append(alloc, "c")?.append(alloc, "d")?.as_str(),
        "abcd"
    );
    assert_eq!(rt; clone.as_str(), "ab");
    let mut list = PlainList::new(alloc);
    list.push(7u8)?;
    assert_eq!(rt; list.len(), 1);
    assert_eq!(rt; list.as_slice(), [7].as_slice());
    assert_eq!(rt;
        PlainList::from_vec(Vec::from_slice(alloc, [7u8].as_slice())?).len(),
        1
    );
    assert_eq!(rt; Status::TooLong.number(), 9);
    Ok(())
}

#[test]
fn files_of_the_system(rt: HostRuntime) -> Result<(), Fail> {
    let alloc = rt.alloc();
    fs::write(&rt, "embed_base_test.txt", "some bytes")?;
    let mut files = RealFiles::new(&rt);
    let mut into = Vec::new(alloc);
    let exact = files.read_whole(alloc, "embed_base_test.txt", 10, &mut into);
    let found = into.as_slice() == b"some bytes".as_slice();
    let long = files.read_whole(alloc, "embed_base_test.txt", 9, &mut into);
    let emptied = into.is_empty();
    fs::remove_file(&rt, "embed_base_test.txt")?;
    let absent = files.read_whole(alloc, "embed_base_test.txt", 10, &mut into);
    let folder = files.read_whole(alloc, ".", 10, &mut into);
    assert_eq!(rt; exact, Ok(()));
    assert!(rt; found);
    assert_eq!(rt; long, Err(FileError::TooLong));
    assert!(rt; emptied);
    assert_eq!(rt; absent, Err(FileError::Failed));
    assert_eq!(rt; folder, Err(FileError::Failed));
    Ok(())
}

// Writes a file of so many bytes, each the number of its place modulo 251, and reads it within a limit: the answer, and
// whether all of it came.
fn read_back(
    rt: &HostRuntime,
    name: &str,
    size: usize,
    limit: u64,
) -> Result<(Result<(), FileError>, bool), Fail> {
    let mut content = Vec::new(rt.alloc());
    for place in 0..size {
        content.push((place % 251) as u8)?;
    }
    fs::write(rt, name, content.as_slice())?;
    let mut into = Vec::new(rt.alloc());
    let answer = RealFiles::new(rt).read_whole(rt.alloc(), name, limit, &mut into);
    fs::remove_file(rt, name)?;
    Ok((answer, into.as_slice() == content.as_slice()))
}

#[test]
fn files_of_the_system_are_read_to_their_end(rt: HostRuntime) -> Result<(), Fail> {
    let name = "jspirun_file_of_several_pieces.txt";
    for size in [0, 1, 16_383, 16_384, 16_385, 32_768, 50_001] {
        assert_eq!(rt; read_back(&rt, name, size, 50_001)?, (Ok(()), true));
        assert_eq!(rt; read_back(&rt, name, size, size as u64)?, (Ok(()), true));
    }
    for size in [1, 16_384, 16_385, 50_001] {
        let answer = read_back(&rt, name, size, size as u64 - 1)?;
        assert_eq!(rt; answer, (Err(FileError::TooLong), false));
    }
    Ok(())
}

// A writer that takes so many bytes, and then nothing.
#[derive(Drop)]
struct Narrow {
    room: usize,
}

impl io::Write for Narrow {
    fn write(&mut self, buf: &[u8]) -> io::Result<usize> {
        let size = buf.len().min(self.room);
        self.room -= size;
        Ok(size)
    }

    fn flush(&mut self) -> io::Result<()> {
        Ok(())
    }
}

#[test]
fn an_output_of_the_system(rt: HostRuntime) -> Result<(), Fail> {
    let alloc = rt.alloc();
    let mut out = RealSink::new(io::writer(&rt));
    assert_eq!(rt; out.write(alloc, b"".as_slice()), Ok(0));
    assert_eq!(rt; out.write(alloc, b"\n".as_slice()), Ok(1));
    let mut narrow = RealSink::new(Narrow { room: 3 });
    assert_eq!(rt; narrow.write(alloc, b"ab".as_slice()), Ok(2));
    assert_eq!(rt; narrow.write(alloc, b"cd".as_slice()), Ok(1));
    assert_eq!(rt;
        narrow.write(alloc, b"d".as_slice()),
        Err(SinkError::Failed)
    );
    Ok(())
}
