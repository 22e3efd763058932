/// The kinds of commands, in the order of their table (ISO/IEC 7816-4, BSI TR-03110-3).
#[derive(Clone, Copy)]
pub enum Kind {
    /// SELECT of the eID application by its identifier.
    SelectApplication,
    /// SELECT of the master file.
    SelectMasterFile,
    /// SELECT of an elementary file by its identifier.
    SelectFile,
    /// READ BINARY, by short identifier or from the current file.
    ReadBinary,
    /// UPDATE BINARY, by short identifier or of the current file.
    UpdateBinary,
    /// MSE:Set AT for PACE: chooses the password.
    SelectPace,
    /// MSE:Set DST: names the public key that verifies the next certificate.
    SelectPublicKey,
    /// PSO:Verify Certificate.
    VerifyCertificate,
    /// MSE:Set AT for terminal authentication: the terminal announces itself.
    AnnounceTerminal,
    /// GET CHALLENGE, for terminal authentication.
    GetChallenge,
    /// EXTERNAL AUTHENTICATE: the terminal's signature.
    ExternalAuthenticate,
    /// MSE:Set AT for chip authentication.
    SelectChipAuthentication,
    /// MSE:Set AT for restricted identification.
    SelectRestrictedIdentification,
    /// The first GENERAL AUTHENTICATE of PACE: the encrypted nonce.
    EncryptedNonce,
    /// The second: the nonce is mapped to a base.
    MapNonce,
    /// The third: the ephemeral points are exchanged.
    PerformKeyAgreement,
    /// The fourth: the tokens are exchanged.
    MutualAuthentication,
    /// The GENERAL AUTHENTICATE of chip authentication.
    AuthenticateChip,
    /// The GENERAL AUTHENTICATE of restricted identification.
    PerformRestrictedIdentification,
    /// VERIFY of auxiliary data: age, document validity or community.
    VerifyAuxiliary,
    /// RESET RETRY COUNTER with a new PIN.
    ChangePin,
    /// RESET RETRY COUNTER without one: the tries of the PIN are given back.
    UnblockPin,
    /// RESET RETRY COUNTER with a new card access number.
    ChangeCan,
    /// ACTIVATE of the PIN.
    ActivatePin,
    /// DEACTIVATE of the PIN.
    DeactivatePin,
    /// An MSE:Set AT that names no protocol of its parameters.
    NoProtocol,
    /// A step that the run has not come to.
    NoStep,
}
