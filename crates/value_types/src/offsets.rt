// Numbers as what they have over the least one.
ghost use Rattle.std.specs.Prelude.{◌≡◌, ◌≤◌, ◌<◌, ◌≤ℤ◌, ◌<ℤ◌, ◌+ℤ◌, pos, length, slice_get, take, All, IfOk, Some};

use crate::narrow::Narrow;
use crate::views::number_at;
use csv_source::NoMemory;
use std::alloc::Global;

/// Numbers, each as what it has over the least one, in a type of fewer bytes.
#[derive(Drop)]
pub struct Offsets<T> {
    least: i64,
    over: Vec<T>,
}

impl<T: Narrow> Offsets<T> {
    ghost use Rattle.value_types.specs.Packed.{numbers_over};

    /// These numbers, where what each has over the least one fits.
    pub(crate) fn of(alloc: Global, least: i64, numbers: &[i64]) -> Result<Offsets<T>, NoMemory>
        requires small { T.limit ≤ 4_294_967_296 }
        requires low { All (λ n. least ≤ℤ n) numbers.now }
        requires high { All (λ n. n <ℤ (least +ℤ pos T.limit)) numbers.now }
        ensures { IfOk result (λ offsets. numbers_over T.worth offsets ≡ numbers.now) }
    {
        let mut over = Vec::with_capacity(alloc, numbers.len())?;
        for place in 0..numbers.len() {
            over.push_reserved(T::of(number_at(numbers, place) - least));
        }
        Ok(Offsets { least, over })
    }

    pub(crate) fn len(&self) -> usize
        ensures { result ≡ length (numbers_over T.worth self.now) }
    {
        self.over.len()
    }

    #[inline(always)]
    pub(crate) fn get(&self, place: usize) -> i64
        requires { place < length (numbers_over T.worth self.now) }
        ensures { slice_get (numbers_over T.worth self.now) place ≡ Some result }
    {
        self.least.saturating_add(self.over[place].wide())
    }

    pub(crate) fn truncate(&mut self, count: usize)
        ensures { numbers_over T.worth self.new ≡ take count (numbers_over T.worth self.old) }
    {
        self.over.truncate(count);
    }
}
