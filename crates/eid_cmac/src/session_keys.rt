/// The keys of a channel of secure messaging, by their length in bytes (BSI TR-03110-3).
#[derive(Clone, Copy)]
pub enum SessionKeys {
    /// For AES-128.
    Short {
        /// The key of encryption.
        enc: [u8; 16],
        /// The key of MACs.
        mac: [u8; 16],
    },
}
