//! The certificates of the generated sessions.
ghost use Rattle.std.specs.Prelude.{◌≡◌, ◌*◌, ◌<◌, ◌^◌, IfOk, map};
ghost use Rattle.eid_copro.specs.Numbers.{generator};
ghost use Rattle.eid_cvc.specs.View.{body_view};
ghost use Rattle.eid_cvc.specs.Writing.{IsWritable};
ghost use Rattle.eid_perso.specs.Kit.{kit_view};
ghost use Rattle.eid_terminal.specs.Plans.{AreSendable, IsSendable, certificate_bytes};
ghost use Rattle.eid_workload.specs.Generated.{body_of, both_certificates, certificate_of, terminal_kit, verifier_kit};

use crate::spelling::{date_of, key_of, name_of, secret_of, template_of};
use eid_base::NoMemory;
use eid_copro::{Coprocessor, ModelCoprocessor};
use eid_cvc::CertificateBody;
use eid_perso::{KitError, KitPlan, kit_of};
use std::alloc::Global;

// The numbers of the secrets of those who have keys.
pub const TRUST: u64 = 7;

const VERIFIER: u64 = 17;

pub const TERMINAL: u64 = 13;

pub const TRUST_NAME: &[u8; 13] = b"DECVCAAT00001";

const VERIFIER_NAME: &[u8; 13] = b"DETESTDV00001";

const TERMINAL_NAME: &[u8; 13] = b"DETERMAT00001";

/// The first day that certificates are good on, which is the chip's date too, and the last one.
pub const FIRST_DAY: [u8; 6] = [2, 6, 0, 1, 0, 1];

const LAST_DAY: [u8; 6] = [2, 6, 1, 2, 3, 1];

/// The certificates of the document verifier and of the terminal.
#[derive(Drop)]
pub struct Certificates {
    verifier: Vec<u8>,
    terminal: Vec<u8>,
    pub ghost verifier_is: { verifier.items ≡ certificate_of verifier_kit },
    pub ghost verifier_sends: { IsSendable verifier.items },
    pub ghost terminal_is: { terminal.items ≡ certificate_of terminal_kit },
    pub ghost terminal_sends: { IsSendable terminal.items },
}

/// A certificate, signed by a model coprocessor of its own, which never fails.
fn signed(alloc: Global, kit: &KitPlan) -> Result<Vec<u8>, KitError>
    requires { IsWritable (body_view kit.now.body) }
    ensures is { IfOk result (λ bytes. bytes.items ≡ certificate_of (kit_view kit.now)) }
    ensures sends { IfOk result (λ bytes. IsSendable bytes.items) }
{
    let mut copro = ModelCoprocessor::new(alloc, 0);
    if copro.make_room(1).is_err() {
        return Err(KitError::NoMemory);
    }
    kit_of(alloc, kit, &mut copro)
}

/// What a certificate says.
fn body_of(issuer: &[u8; 13], holder: &[u8; 13], template: [u8; 5], secret: u64) -> CertificateBody
    requires { secret * generator < 2 ^ 64 }
    ensures is { body_view result ≡ body_of issuer.now holder.now template secret }
    ensures writable { IsWritable (body_view result) }
{
    CertificateBody {
        issuer: name_of(issuer),
        key: key_of(secret),
        holder: name_of(holder),
        template: template_of(template),
        effective: date_of(FIRST_DAY),
        expiry: date_of(LAST_DAY),
        sectors: [None, None],
    }
}

fn verifier_certificate(alloc: Global) -> Result<Vec<u8>, KitError>
    ensures is { IfOk result (λ bytes. bytes.items ≡ certificate_of verifier_kit) }
    ensures sends { IfOk result (λ bytes. IsSendable bytes.items) }
{
    let body = body_of(
        TRUST_NAME,
        VERIFIER_NAME,
        [0xBE, 0x1F, 0xFF, 0xFF, 0x37],
        VERIFIER,
    );
    let signer = secret_of(TRUST);
    signed(alloc, &KitPlan { body, signer })
}

fn terminal_certificate(alloc: Global) -> Result<Vec<u8>, KitError>
    ensures is { IfOk result (λ bytes. bytes.items ≡ certificate_of terminal_kit) }
    ensures sends { IfOk result (λ bytes. IsSendable bytes.items) }
{
    let body = body_of(
        VERIFIER_NAME,
        TERMINAL_NAME,
        [0x00, 0x00, 0x00, 0x98, 0x07],
        TERMINAL,
    );
    let signer = secret_of(VERIFIER);
    signed(alloc, &KitPlan { body, signer })
}

impl Certificates {
    /// Makes them.
    pub fn new(alloc: Global) -> Result<Certificates, NoMemory> {
        let Ok(verifier) = verifier_certificate(alloc) else {
            return Err(NoMemory);
        };
        let Ok(terminal) = terminal_certificate(alloc) else {
            return Err(NoMemory);
        };
        Ok(Certificates { verifier, terminal })
    }

    /// Copies of them, as a plan has them.
    pub fn copied(&self, alloc: Global) -> Result<Vec<Vec<u8>>, NoMemory>
        ensures are { IfOk result (λ copies. map certificate_bytes copies.items ≡ both_certificates) }
        ensures sendable { IfOk result (λ copies. AreSendable (map certificate_bytes copies.items)) }
    {
        let mut copies = Vec::new(alloc);
        copies.push(Vec::from_slice(alloc, self.verifier.as_slice())?)?;
        copies.push(Vec::from_slice(alloc, self.terminal.as_slice())?)?;
        Ok(copies)
    }
}
