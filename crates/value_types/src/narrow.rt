// Natural numbers of fewer bytes than eight.
ghost use Rattle.std.specs.Prelude.{◌≡◌, ◌≤ℤ◌, ◌<ℤ◌, pos};

/// A type of the natural numbers below a limit.
pub(crate) trait Narrow: Copy {
    ghost use Rattle.std.specs.Prelude.{ℕ};

    /// The number.
    ghost worth: { Self → ℕ };

    /// The least number that doesn't fit.
    ghost limit: { ℕ };

    fn of(number: i64) -> Self
        requires low { pos 0 ≤ℤ number }
        requires high { number <ℤ pos limit }
        ensures { pos (worth result) ≡ number };

    fn wide(self) -> i64
        ensures { result ≡ pos (worth self) };
}

impl Narrow for u8 {
    ghost worth = { λ n. n };

    ghost limit = { 256 };

    #[inline(always)]
    fn of(number: i64) -> u8 {
        number as u8
    }

    #[inline(always)]
    fn wide(self) -> i64 {
        i64::from(self)
    }
}

impl Narrow for u16 {
    ghost worth = { λ n. n };

    ghost limit = { 65_536 };

    #[inline(always)]
    fn of(number: i64) -> u16 {
        number as u16
    }

    #[inline(always)]
    fn wide(self) -> i64 {
        i64::from(self)
    }
}

impl Narrow for u32 {
    ghost worth = { λ n. n };

    ghost limit = { 4_294_967_296 };

    #[inline(always)]
    fn of(number: i64) -> u32 {
        number as u32
    }

    #[inline(always)]
    fn wide(self) -> i64 {
        i64::from(self)
    }
}
