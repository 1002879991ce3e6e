ghost use Rattle.std.specs.Prelude.{◌≡◌, ◌≤◌, take};

/// The extents of a shape, at most four. They need not be within the limits.
#[derive(Clone, Copy)]
pub struct Numbers {
    pub count: usize,
    pub number: [u64; 4],
    ghost within: { count ≤ 4 },
}

impl Numbers {
    /// The numbers, from the first.
    pub fn as_slice(&self) -> &[u64]
        ensures { result.now ≡ take self.now.count self.now.number }
    {
        &self.number[..self.count]
    }
}
