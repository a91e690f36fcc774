// The spare lines of an mct gate, in order.
ghost use Rattle.std.specs.Prelude.{◌≡◌, ◌++◌, ◌+◌, ◌≤◌, length};

// The spare lines of a gate, in order: those of `lines` from `first` up to `end`. An array with its bounds, since nothing is allocated.
#[derive(Clone, Copy)]
pub struct Spares {
    pub lines: [u8; 32],
    pub first: usize,
    pub end: usize,
    pub ghost first_le_end: { first ≤ end },
    pub ghost end_bound: { end ≤ 32 },
}

impl Spares {
    ghost use Rattle.spares.specs.Spares.{listed, Lists};

    // The spares as a slice.
    pub fn as_slice(&self) -> &[u8]
        ensures { result.now ≡ listed self.now }
    {
        &self.lines[self.first..self.end]
    }

    // The spares with more lines behind them.
    pub fn followed(mut self, more: &[u8]) -> Spares
        requires { self.end + length more.now ≤ 32 }
        ensures { Lists result self.first (self.end + length more.now) (listed self ++ more.now) }
    {
        let end = self.end;
        let new_end = end + more.len();
        self.lines[end..new_end].copy_from_slice(more);
        self.end = new_end;
        self
    }
}
