ghost use Rattle.std.specs.Prelude.{◌≡◌};

/// The proof that a commit was made. Only a commit makes one, and it cannot be made twice.
#[derive(Drop)]
pub struct Receipt {
    number: u32,
    spend: bool,
}

impl Receipt {
    ghost use Rattle.eid_store.specs.Receipt.{receipt_number, receipt_spends};

    /// For a commit that was carried out.
    pub(crate) fn of(number: u32, spend: bool) -> Receipt
        ensures number { receipt_number result ≡ number }
        ensures spend { receipt_spends result ≡ spend }
    {
        Receipt { number, spend }
    }

    /// The commit number after the commit.
    pub fn number(&self) -> u32
        ensures { result ≡ receipt_number self.now }
    {
        self.number
    }

    /// Whether the commit took a try of the PIN.
    pub fn is_spend(&self) -> bool
        ensures { result ≡ receipt_spends self.now }
    {
        self.spend
    }
}
