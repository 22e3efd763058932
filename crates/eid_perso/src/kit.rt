//! What the configuration of a test certificate says.
use eid_base::Secret;
use eid_cvc::CertificateBody;

/// What a test certificate says, and by whom it is signed.
#[derive(Drop)]
pub struct KitPlan {
    /// What the certificate says.
    pub body: CertificateBody,
    /// The secret of the signer.
    pub signer: Secret,
}

/// Why there is no certificate.
#[derive(Clone, Copy, Debug)]
pub enum KitError {
    /// The coprocessor failed.
    Fault,
    /// Memory was asked for and refused.
    NoMemory,
}
