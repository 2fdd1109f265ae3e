//! A case as a line has it.
use crate::escapes::unescaped;
use crate::field::{Field, field_of};
use csv_source::NoMemory;
use loader_runs::{File, IN_PIECES, Outside, extend};
use std::alloc::Global;

/// A name, and the bytes under it.
#[derive(Drop)]
struct Held<'a> {
    name: &'a str,
    bytes: Vec<u8>,
}

/// Pieces that cut most lines, and room for all that is written.
const OUTSIDE: Outside = Outside {
    room: 100_000,
    ..IN_PIECES
};

/// Words, the files that the source holds, how the outside behaves, and what is asked of the reply.
#[derive(Drop)]
pub struct Case<'a> {
    pub words: Vec<&'a str>,
    held: Vec<Held<'a>>,
    pub outside: Outside,
    /// What is looked for in the text.
    pub parts: Vec<&'a str>,
    /// Whether it is the same in all ranges.
    pub in_all_ranges: bool,
}

impl<'a> Case<'a> {
    /// The case of a line.
    pub fn of(alloc: Global, line: &'a str) -> Result<Case<'a>, NoMemory> {
        let mut case = Case {
            words: Vec::new(alloc),
            held: Vec::new(alloc),
            outside: OUTSIDE,
            parts: Vec::new(alloc),
            in_all_ranges: false,
        };
        for text in line.split('¦') {
            case.add(alloc, field_of(text))?;
        }
        Ok(case)
    }

    fn add(&mut self, alloc: Global, field: Field<'a>) -> Result<(), NoMemory> {
        match field {
            Field::Word(word) => self.words.push(word)?,
            Field::File(name, text) => self.held.push(Held {
                name,
                bytes: unescaped(alloc, text)?,
            })?,
            Field::More(times, text) => self.extend_last(&unescaped(alloc, text)?, times)?,
            Field::Setting(name, number) => set(&mut self.outside, name, number),
            Field::Part(part) => self.parts.push(part)?,
            Field::InAllRanges => self.in_all_ranges = true,
        }
        Ok(())
    }

    /// Puts bytes so many times behind those of the last file.
    fn extend_last(&mut self, bytes: &[u8], times: usize) -> Result<(), NoMemory> {
        match self.held.last_mut() {
            Some(held) => extend(&mut held.bytes, bytes, times),
            None => Ok(()),
        }
    }

    /// The files that the source holds.
    pub fn files(&self, alloc: Global) -> Result<Vec<File<'_>>, NoMemory> {
        let mut files = Vec::new(alloc);
        for held in &self.held {
            files.push((held.name, held.bytes.as_slice()))?;
        }
        Ok(files)
    }
}

/// Sets the most bytes that one call moves, a call that fails, or the room of the sink.
fn set(outside: &mut Outside, name: &str, number: usize) {
    match name {
        "source_piece" => outside.source_piece = number,
        "source_fails" => outside.failing_source_call = Some(number as u64),
        "sink_piece" => outside.sink_piece = number,
        "sink_fails" => outside.failing_sink_call = Some(number as u64),
        "room" => outside.room = number,
        _ => {}
    }
}
