//! Sources and sinks in memory: what they give and take, and where a listed call fails.
use csv_source::{
    Buffer, MemorySink, MemorySource, More, NoMemory, ReadStop, Source, read_more, write_all,
};
use std::alloc::Global;
use std::process::Abort;

/// A source of one file, which gives a piece at a time and fails at a call.
fn source_in(alloc: Global, piece: usize, failing: u64) -> Result<MemorySource, NoMemory> {
    let mut source = MemorySource::new(alloc);
    source.put("f.csv", b"other")?;
    source.put("f.csv", b"abcdefghij")?;
    source.piece(piece);
    source.fail_call(failing)?;
    Ok(source)
}

/// The same, where there is memory.
fn source_of(rt: &impl Abort, alloc: Global, piece: usize, failing: u64) -> MemorySource {
    source_in(alloc, piece, failing).expect(rt, "memory")
}

/// Whether no bytes come of a source.
fn gives_none(source: &mut MemorySource, alloc: Global) -> bool {
    let mut bytes = Vec::new(alloc);
    read_more(source, &mut bytes, 4) == Ok(More::Ended) && bytes.is_empty()
}

#[test]
fn an_absent_name_and_a_listed_call_open_nothing(rt: HostRuntime) {
    let mut source = source_of(&rt, rt.alloc(), 2, 2);
    let opened = source.open("g.csv").is_ok() || source.open("f.csv").is_ok();
    assert!(rt; !opened && gives_none(&mut source, rt.alloc()));
}

/// The largest piece, the call that fails, the most bytes, how reading ends, and what is given.
struct Reading(usize, u64, u64, Result<More, ReadStop>, &'static str);

// Call 1 opens, each of the next gives a piece, and one more finds the end.
const READINGS: [Reading; 7] = [
    Reading(4, 2, 20, Err(ReadStop::Failed), ""),
    Reading(4, 3, 20, Err(ReadStop::Failed), "abcd"),
    Reading(4, 4, 20, Err(ReadStop::Failed), "abcdefgh"),
    Reading(4, 5, 20, Err(ReadStop::Failed), "abcdefghij"),
    Reading(4, 6, 20, Ok(More::Ended), "abcdefghij"),
    Reading(2, 4, 4, Ok(More::Reached), "abcd"),
    Reading(0, 6, 4, Ok(More::Reached), "abcd"),
];

/// Whether a source gives what is wanted.
fn gives(source: &mut MemorySource, alloc: Global, row: &Reading) -> bool {
    let opens = source.open("f.csv").is_ok();
    let mut bytes = Vec::new(alloc);
    let answer = read_more(source, &mut bytes, row.2);
    opens && answer == row.3 && bytes.as_slice() == row.4.as_bytes()
}

#[test]
fn a_source_is_read_up_to_a_limit_or_a_listed_call(rt: HostRuntime) {
    for row in &READINGS {
        let mut source = source_of(&rt, rt.alloc(), row.0, row.1);
        assert!(rt; gives(&mut source, rt.alloc(), row));
    }
}

/// Whether a buffer reads on as is wanted.
fn reads_on(
    bytes: &mut Buffer,
    source: &mut MemorySource,
    most: u64,
    answer: Result<More, ReadStop>,
    want: &[u8],
) -> bool {
    bytes.read_more(source, most) == answer && bytes.as_slice() == want
}

/// Whether a buffer drops its front.
fn drops(bytes: &mut Buffer, count: usize, want: &[u8]) -> bool {
    if bytes.len() < count {
        return false;
    }
    bytes.drop_front(count);
    bytes.as_slice() == want
}

/// Whether a buffer reads on over a failing call, behind a front that is dropped, and takes a copy.
fn goes_on(bytes: &mut Buffer, source: &mut MemorySource) -> bool {
    source.open("f.csv").is_ok()
        && reads_on(bytes, source, 5, Ok(More::Reached), b"abcde")
        && drops(bytes, 4, b"e")
        && reads_on(bytes, source, 20, Err(ReadStop::Failed), b"efgh")
        && reads_on(bytes, source, 20, Ok(More::Ended), b"efghij")
        && bytes.replace(b"xy").is_ok()
        && reads_on(bytes, source, 20, Ok(More::Ended), b"xy")
}

#[test]
fn a_buffer_drops_reads_on_and_takes_a_copy(rt: HostRuntime) {
    let mut source = source_of(&rt, rt.alloc(), 3, 5);
    let mut bytes = Buffer::new(rt.alloc());
    assert!(rt; goes_on(&mut bytes, &mut source));
}

/// The room, the call that fails, whether all is written, and what is taken.
struct Writing(usize, u64, bool, &'static str);

// Each write takes three bytes. In a room of seven the third finds place for one.
const WRITINGS: [Writing; 6] = [
    Writing(7, 1, false, ""),
    Writing(7, 2, false, "opt"),
    Writing(7, 3, false, "option"),
    Writing(7, 4, false, "options"),
    Writing(7, 5, false, "options"),
    Writing(8, 4, true, "options|"),
];

/// Whether a sink takes what is wanted.
fn takes(sink: &mut MemorySink, row: &Writing) -> bool {
    write_all(sink, b"options|").is_ok() == row.2 && sink.taken() == row.3.as_bytes()
}

#[test]
fn a_sink_takes_what_has_room(rt: HostRuntime) -> Result<(), NoMemory> {
    for row in &WRITINGS {
        let mut sink = MemorySink::with_room(rt.alloc(), row.0)?;
        sink.piece(3);
        sink.fail_call(row.1)?;
        assert!(rt; takes(&mut sink, row));
    }
    Ok(())
}
