use crate::{
    Failed, FileShelf, FromReader, MemShelf, MemSink, MemSource, Shelf, Source, ToWriter,
    WholeFault, read_whole, write_whole,
};
use std::fs;
use std::test::Fail;

const FILE: &str = "flow_ports_test";

#[test]
fn a_file_gives_what_it_took(rt: HostRuntime) -> Result<(), Fail> {
    write_whole(&mut ToWriter::new(fs::create(&rt, FILE)?), b"abcde")?;
    let mut source = FromReader::new(fs::open(&rt, FILE)?);
    let mut buf = [0; 8];
    assert_eq!(rt; source.read(&mut buf), Ok(5));
    assert_eq!(rt; source.read(&mut buf), Ok(0));
    assert_eq!(rt; buf, *b"abcde\0\0\0");
    let mut shelf = FileShelf::new(rt.alloc(), &rt);
    let bytes = read_whole(rt.alloc(), &mut shelf, FILE, 5)?;
    assert_eq!(rt; bytes.as_slice(), b"abcde".as_slice());
    fs::remove_file(&rt, FILE)?;
    let absent = read_whole(rt.alloc(), &mut shelf, FILE, 5).err();
    assert_eq!(rt; absent, Some(WholeFault::Failed));
    Ok(())
}

// A place that isn't the next one, of the file that is open and of another.
#[test]
fn files_are_read_from_any_place(rt: HostRuntime) -> Result<(), Fail> {
    let first = "flow_ports_first";
    let second = "flow_ports_second";
    write_whole(&mut ToWriter::new(fs::create(&rt, first)?), b"abcde")?;
    write_whole(&mut ToWriter::new(fs::create(&rt, second)?), b"vwxyz")?;
    let mut shelf = FileShelf::new(rt.alloc(), &rt);
    let mut buf = [0; 2];
    let rows = [
        (first, 0, b"ab", 2),
        (first, 2, b"cd", 2),
        (second, 3, b"yz", 2),
        (second, 1, b"wx", 2),
        (first, 3, b"de", 2),
        (first, 5, b"de", 0),
    ];
    for row in rows {
        assert_eq!(rt; shelf.read_at(row.0, row.1, &mut buf), Ok(row.3));
        assert_eq!(rt; buf, *row.2);
    }
    fs::remove_file(&rt, first)?;
    fs::remove_file(&rt, second)?;
    Ok(())
}

#[test]
fn a_source_gives_pieces_and_fails(rt: HostRuntime) -> Result<(), Fail> {
    let bytes = b"abcde".to_vec(rt.alloc())?;
    let pieces = [2, 9, 0].to_vec(rt.alloc())?;
    let fails = [2].to_vec(rt.alloc())?;
    let mut source = MemSource::new(bytes, pieces, fails);
    let mut buf = [0; 4];
    for want in [Ok(2), Err(Failed), Ok(1), Ok(2), Ok(0)] {
        assert_eq!(rt; source.read(&mut buf), want);
    }
    assert_eq!(rt; buf, *b"de\0\0");
    Ok(())
}

#[test]
fn a_file_is_read_up_to_a_limit(rt: HostRuntime) -> Result<(), Fail> {
    let mut files = Vec::new(rt.alloc());
    files.push((
        String::from_str(rt.alloc(), "a")?,
        b"abc".to_vec(rt.alloc())?,
    ))?;
    let mut shelf = MemShelf::new(files, Vec::new(rt.alloc()));
    let bytes = read_whole(rt.alloc(), &mut shelf, "a", 3)?;
    assert_eq!(rt; bytes.as_slice(), b"abc".as_slice());
    let long = read_whole(rt.alloc(), &mut shelf, "a", 2).err();
    assert_eq!(rt; long, Some(WholeFault::TooLong));
    Ok(())
}

#[test]
fn a_new_sink_is_empty(rt: HostRuntime) -> Result<(), Fail> {
    let sink = MemSink::new(rt.alloc(), 8, Vec::new(rt.alloc()))?;
    assert_eq!(rt; sink.bytes(), b"".as_slice());
    Ok(())
}
