ghost use Rattle.std.specs.Prelude.{◌≡◌, length};
ghost use Rattle.eid_cells.specs.Tears.{torn};

/// What a cut leaves in the range that was being written.
#[derive(Clone, Copy, Debug, PartialEq, Eq)]
pub enum Tear {
    /// The cells as they were.
    Old,
    /// All the new bytes.
    New,
    /// The first half of the new bytes, rounded down, and then the cells as they were.
    Half,
    /// This byte in each cell.
    Fill(u8),
}

impl Tear {
    /// Leaves in `range` what the cut of writing `bytes` there leaves.
    pub(crate) fn leave(self, range: &mut [u8], bytes: &[u8])
        requires { length range.old ≡ length bytes.now }
        ensures { range.new ≡ torn self range.old bytes.now }
    {
        match self {
            Tear::Old => {}
            Tear::New => range.copy_from_slice(bytes),
            Tear::Half => {
                let half = bytes.len() / 2;
                range[..half].copy_from_slice(&bytes[..half]);
            }
            Tear::Fill(byte) => range.fill(byte),
        }
    }
}
