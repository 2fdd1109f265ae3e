//! What holds of a table that was written, and of the parts of an input.
//! A written table is a text of RFC 4180's grammar, and the loader reads it back as the same names, types and rows, without
//! a fault: for those who keep what `convert` writes, and have it read again by the loader or by another reader of the
//! grammar. They stand above the writer and the loader, since they speak of both: what the one writes under which names and
//! cells, and what the other finds and reads under which options and limits. `specs/Laws.antt` has the premises, each a
//! record whose fields say one fact.
//! The parts into which an input is cut (`part_cuts`) are loaded alone, each behind the input's head and under what is found
//! in the input: their rows and faults are those of the input (`specs/PartLaws.antt`).
//! No call rests on these laws.
#![tactic(auto)]

pub mod laws;
