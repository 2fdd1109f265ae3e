//! How a program of your own calls the loader: a file in memory, the words of a command line, and a report in memory.
//! `FileSource` and `StdoutSink` stand in the places of the two where files are real.
use csv_loader::run;
use csv_source::{MemorySink, MemorySource, NoMemory, OpenGate};
use loader_runs::words_of;
use std::alloc::Global;
use std::sync::Wait;
use std::thread::Threads;

const ORDERS: &[u8] = b"id,paid\n1,2024-05-31\n2,soon\n";

const WORDS: &[&str] = &[
    "load",
    "orders.csv",
    "types=BIGINT,DATE",
    "store_rejects=true",
];

const REPORT: &[u8] = b"options|delim=,|quote=\"|escape=\"|newline=\\n|skip=0|header=true\n\
column|0|BIGINT|id\n\
column|1|DATE|paid\n\
row|1|2024-05-31\n\
rows|1\n\
scan|0|0|orders.csv|,|\"|\"|\\n|0|true|2\n\
error|0|0|3|22|24|2|paid|CAST|2,soon|Error when converting column \"paid\". Could not convert string \"soon\" to 'DATE'\n\
errors|1|1\n";

/// Loads the orders into a sink, and answers the status.
fn load_orders<R: Threads + Wait + Sync>(
    rt: &R,
    alloc: Global,
    sink: &mut MemorySink,
) -> Result<u8, NoMemory> {
    let words = words_of(alloc, WORDS)?;
    let mut source = MemorySource::new(alloc);
    source.put("orders.csv", ORDERS)?;
    // Taps are for `summary`.
    let taps = Vec::new(alloc);
    Ok(run(rt, alloc, &words, &mut source, sink, &OpenGate, taps))
}

/// Whether the status and what was written are those that are wanted.
fn orders_are_loaded<R: Threads + Wait + Sync>(rt: &R, alloc: Global) -> Result<bool, NoMemory> {
    let mut sink = MemorySink::with_room(alloc, 1000)?;
    let status = load_orders(rt, alloc, &mut sink)?;
    Ok(status == 0 && sink.taken() == REPORT)
}

#[test]
fn a_program_loads_a_file_in_memory(rt: HostRuntime) {
    assert!(rt; matches!(orders_are_loaded(&rt, rt.alloc()), Ok(true)));
}
