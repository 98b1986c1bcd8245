// The columns of a heading, which are no more than there are privileges.
ghost use Rattle.std.specs.Prelude.{◌≤◌};
ghost use Rattle.graph.specs.Graph.{privilege_count};

// The first count numbers of an array.
#[derive(Drop)]
pub(crate) struct Columns {
    pub(crate) array: [u8; 64],
    pub(crate) count: usize,
    ghost within: { count ≤ privilege_count },
}

impl Columns {
    ghost use Rattle.std.specs.Prelude.{◌≡◌};
    ghost use Rattle.sheets.specs.Working.{columns_of};

    // The columns, and no more.
    pub(crate) fn as_slice(&self) -> &[u8]
        ensures { result.now ≡ columns_of self.now }
    {
        &self.array[..self.count]
    }
}
