//! For each node, the edges that touch it.

ghost use Rattle.std.specs.Prelude.{◌≡◌};
ghost use Rattle.ofit_flow.specs.Incidence.{HasRow, row_at};

/// The numbers of the edges that touch each node, row after row: those of a node stand from its
/// place in `starts` up to the next node's.
pub(crate) struct Rows {
    pub(crate) starts: Vec<usize>,
    pub(crate) numbers: Vec<u32>,
}

/// Written out, so that a proof meets one call where a value is let go.
impl Drop for Rows {
    fn drop(self) {
        let Rows { starts, numbers } = self;
        drop(starts);
        drop(numbers);
    }
}

impl Rows {
    /// The numbers of the edges that touch the node.
    pub(crate) fn row(&self, node: u32) -> &[u32]
        requires { HasRow self.now node }
        ensures { result.now ≡ row_at self.now node }
    {
        let node = node as usize;
        &self.numbers[self.starts[node]..self.starts[node + 1]]
    }
}
