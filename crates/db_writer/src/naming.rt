// Names made different without ASCII case, and those of columns in a database.
ghost use Rattle.std.specs.Prelude.{◌≡◌, [], map, IfOk, OnOk};
ghost use Rattle.csv_sniffer.specs.ColumnNames.{first_free, with_number};
ghost use Rattle.db_writer.specs.Naming.{NumbersAreTaken, clean_name, database_names, folded, is_taken, names_apart};

use csv_source::NoMemory;
use std::alloc::Global;
use std::collections::{HashMap, HashSet};
use value_types::Names;

/// A name with each NUL byte as `_`.
fn clean_name(alloc: Global, name: &[u8]) -> Result<Vec<u8>, NoMemory>
    ensures { IfOk result (λ clean. clean.items ≡ clean_name name.now) }
{
    let mut clean = Vec::with_capacity(alloc, name.len())?;
    for byte in name {
        clean.push(if *byte == 0 { b'_' } else { *byte })?;
    }
    Ok(clean)
}

/// A name with ASCII capitals as small letters.
fn folded(alloc: Global, name: &[u8]) -> Result<Vec<u8>, NoMemory>
    ensures { IfOk result (λ other. other.items ≡ folded name.now) }
{
    let mut other = name.to_vec(alloc)?;
    other.make_ascii_lowercase();
    Ok(other)
}

/// A name with `_` and a number behind it.
fn with_number(alloc: Global, name: &[u8], number: usize) -> Result<Vec<u8>, NoMemory>
    ensures { IfOk result (λ other. other.items ≡ with_number name.now number) }
{
    let mut other = name.to_vec(alloc)?;
    other.push(b'_')?;
    other.extend_from_slice(itoa::Buffer::new().format(number).as_bytes())?;
    Ok(other)
}

/// Whether a name is one of those that are taken, which are folded.
fn is_taken(alloc: Global, taken: &HashSet<Vec<u8>>, name: &[u8]) -> Result<bool, NoMemory>
    ensures { IfOk result (λ same. same ≡ is_taken taken.now.keys (λ key. key.items) name.now) }
{
    let folded = folded(alloc, name)?;
    Ok(taken.contains(folded.as_slice()))
}

/// The name, or the first of the name with `_1`, `_2` and so on up to a count, that isn't taken. The search begins behind the
/// numbers with which the folded name is known to be taken, so that each of n names that differ in case alone costs a few
/// look-ups, and not n / 2.
fn first_free(
    alloc: Global,
    taken: &HashSet<Vec<u8>>,
    numbers: &mut HashMap<Vec<u8>, usize>,
    count: usize,
    name: Vec<u8>,
) -> Result<Vec<u8>, NoMemory>
    requires numbers { NumbersAreTaken taken.now.keys numbers.old.entries (λ key. key.items) }
    ensures value { IfOk result (λ free. free.items ≡ first_free (is_taken taken.now.keys (λ key. key.items)) count name.items) }
    ensures numbers { OnOk result (NumbersAreTaken taken.now.keys numbers.new.entries (λ key. key.items)) }
{
    if !is_taken(alloc, taken, &name)? {
        return Ok(name);
    }
    let key = folded(alloc, &name)?;
    let start = numbers.get(&key).copied().unwrap_or(0);
    for tried in start..count {
        let other = with_number(alloc, &name, tried + 1)?;
        if !is_taken(alloc, taken, &other)? {
            numbers.insert(key, tried)?;
            return Ok(other);
        }
    }
    Ok(name)
}

/// Names made different without ASCII case, from left to right. Names that are taken are found by a hash, and so is the number up
/// to which a name is known to be taken.
pub fn names_apart(alloc: Global, names: &Names) -> Result<Names, NoMemory>
    ensures { IfOk result (λ made. made ≡ names_apart [] names.now) }
{
    let mut made = Names::new(alloc);
    let mut taken = HashSet::new(alloc);
    let mut numbers = HashMap::new(alloc);
    for column in 0..names.len() {
        let wanted = names.get(column).to_vec(alloc)?;
        let name = first_free(alloc, &taken, &mut numbers, column, wanted)?;
        taken.insert(folded(alloc, &name)?)?;
        made.push(&name)?;
    }
    Ok(made)
}

/// Names with each NUL byte as `_`.
fn clean_names(alloc: Global, names: &Names) -> Result<Names, NoMemory>
    ensures { IfOk result (λ made. made ≡ map clean_name names.now) }
{
    let mut made = Names::new(alloc);
    for column in 0..names.len() {
        let clean = clean_name(alloc, names.get(column))?;
        made.push(&clean)?;
    }
    Ok(made)
}

/// The names of columns in a database.
pub(crate) fn database_names(alloc: Global, names: &Names) -> Result<Names, NoMemory>
    ensures { IfOk result (λ made. made ≡ database_names names.now) }
{
    let clean = clean_names(alloc, names)?;
    names_apart(alloc, &clean)
}
