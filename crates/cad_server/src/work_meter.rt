//! Counting work.

/// How many features were tested for pages, and how many leaves of plans were counted for them.
#[derive(Clone, Copy, Debug, Default)]
pub struct WorkMeter {
    tested: u64,
    counted: u64,
}

impl WorkMeter {
    ghost use Rattle.std.specs.Prelude.{◌≡◌, ◌+◌, min};

    /// How many features were tested; the most that a counter holds, if they are more.
    pub fn tested(&self) -> u64
        ensures { result ≡ self.now.tested }
    {
        self.tested
    }

    /// How many leaves were counted; the most that a counter holds, if they are more.
    pub fn counted(&self) -> u64
        ensures { result ≡ self.now.counted }
    {
        self.counted
    }

    /// So many more features were tested.
    pub(crate) fn add_tested(&mut self, count: u64)
        ensures tested { self.new.tested ≡ min (self.old.tested + count) 18446744073709551615 }
        ensures counted { self.new.counted ≡ self.old.counted }
    {
        self.tested = self.tested.saturating_add(count);
    }

    /// So many more leaves were counted.
    pub(crate) fn add_counted(&mut self, count: u64)
        ensures counted { self.new.counted ≡ min (self.old.counted + count) 18446744073709551615 }
        ensures tested { self.new.tested ≡ self.old.tested }
    {
        self.counted = self.counted.saturating_add(count);
    }
}
