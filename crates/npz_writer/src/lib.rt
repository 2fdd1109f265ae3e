//! A loaded table as the archive of arrays that `numpy.load` opens.
//!
//! An archive is a ZIP archive of files, each with one array of one dimension (NumPy's manual, "numpy.lib.format"). A column has
//! an array of its values, and where a cell is null one that tells which are; one of texts has all of their bytes in one array, and
//! where each text ends in another. No array stands whole in memory: its bytes come in blocks, through which workers walk for its
//! length and its checksum, and the writer once more for the text.
//! For users of the library: `arrays_of` the `Findings` of a load and its table, which is an `ArraysText`; `long_key` tells a name
//! that an archive can't have.
#![tactic(auto)]

mod array;
mod arrays;
mod arrays_text;
mod block;
mod columns;
mod ends;
mod findings;
mod fronts;
mod keys;
mod labels;
mod long_keys;
mod measure;
mod npy;
mod numbers;
mod part;
mod rejects;
mod run;
mod scans;
mod sheet;
mod sheets;
mod slots;
mod texts;
mod truths;
mod walk;

pub use arrays::arrays_of;
pub use arrays_text::ArraysText;
pub use findings::Findings;
pub use keys::KEY_LIMIT;
pub use long_keys::long_key;
