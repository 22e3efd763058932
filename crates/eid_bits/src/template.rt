ghost use Rattle.std.specs.Prelude.{◌≡◌, ◌↔◌, ◌&&◌, ℕ, length, IsOk, IfOk};

use crate::rights::{Bits, is_set};
use bitflags::Flags;

/// The bytes are not five.
#[derive(Clone, Copy, Debug)]
pub struct BadTemplate;

/// Whose certificates a template is for, by bits 39 and 38 (BSI TR-03110-4).
#[derive(Clone, Copy)]
pub enum Role {
    /// A country verifying certification authority: 11.
    Cvca,
    /// An official domestic document verifier: 10.
    Domestic,
    /// Another document verifier: 01.
    Foreign,
    /// An authentication terminal: 00.
    Terminal,
}

/// The discretionary data of an authorisation template for authentication terminals: five bytes, in which
/// bits 39 and 38 are the role and each lower bit is a right (BSI TR-03110-4).
#[derive(Clone, Copy, Debug, PartialEq, Eq)]
pub struct Template {
    bytes: [u8; 5],
    pub ghost five: { length bytes ≡ 5 },
}

impl Template {
    ghost use Rattle.eid_bits.specs.Template.{template_bit, template_bytes, template_number};
    ghost use Rattle.eid_bits.specs.Rights.{has_right, is_right, role_of};

    /// The template of these bytes.
    ///
    /// # Errors
    /// `BadTemplate` exactly where they are not five.
    pub fn from_bytes(bytes: &[u8]) -> Result<Template, BadTemplate>
        ensures five { IsOk result ↔ (length bytes.now ≡ 5) }
        ensures value { IfOk result (λ t. template_bytes t ≡ bytes.now) }
    {
        let [a, b, c, d, e] = bytes else {
            return Err(BadTemplate);
        };
        Ok(Template {
            bytes: [*a, *b, *c, *d, *e],
        })
    }

    /// The five bytes, the one with the role first.
    pub fn as_bytes(&self) -> &[u8; 5]
        ensures { result.now ≡ template_bytes self.now }
    {
        &self.bytes
    }

    /// The role.
    pub fn role(&self) -> Role
        ensures { result ≡ role_of (template_bytes self.now) }
    {
        match (self.has(39), self.has(38)) {
            (true, true) => Role::Cvca,
            (true, false) => Role::Domestic,
            (false, true) => Role::Foreign,
            (false, false) => Role::Terminal,
        }
    }

    /// The rights.
    #[tactic(auto, using(crate::proofs::Masks::rights_kept))]
    pub fn bits(&self) -> Bits
        ensures { (bit : ℕ) → has_right result bit ≡ (is_right bit && template_bit (template_bytes self.now) bit) }
    {
        Bits::from_bits_truncate(self.number())
    }

    #[tactic(auto, unfolding(crate::specs::Template::template_bit))]
    fn has(&self, bit: u32) -> bool
        ensures { result ≡ template_bit (template_bytes self.now) bit }
    {
        is_set(self.number(), bit)
    }

    /// The five bytes as one number.
    fn number(&self) -> u64
        ensures { result ≡ template_number (template_bytes self.now) }
    {
        let [a, b, c, d, e] = self.bytes;
        u64::from_be_bytes([0, 0, 0, a, b, c, d, e])
    }
}
