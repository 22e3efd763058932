ghost use Rattle.std.specs.Prelude.{◌≡◌};
ghost use Rattle.eid_pace.specs.Selections.{password_named};

use crate::choice::Choice;
use crate::keys::encrypted_nonce;
use crate::nonce_sent::NonceSent;
use crate::rules::{BODY_FORM, FAULT, NO_PASSWORD};
use crate::selection::read_selection;
use eid_base::Rule;
use eid_copro::Coprocessor;
use eid_password::{digits, may_start};
use eid_record::{Password, Record};

/// The references of the passwords (BSI TR-03110-3).
const CAN: u8 = 2;

const PIN: u8 = 3;

const PUK: u8 = 4;

/// The password that a reference names.
fn password_named(reference: u8) -> Option<Password>
    ensures { result ≡ password_named reference }
{
    match reference {
        CAN => Some(Password::Can),
        PIN => Some(Password::Pin),
        PUK => Some(Password::Puk),
        _ => None,
    }
}

/// A password was chosen by MSE:Set AT for PACE.
#[derive(Drop)]
pub struct Chosen {
    pub(crate) choice: Choice,
}

impl Chosen {
    ghost use Rattle.std.specs.Prelude.{◌≤◌};
    ghost use Rattle.eid_record.specs.View.{record_view};
    ghost use Rattle.eid_password.specs.Passwords.{digits_of, start_refusal};
    ghost use Rattle.eid_copro.specs.Asking.{EndsAs};
    ghost use Rattle.eid_pace.specs.NonceEnds.{nonce_asks, nonce_given};
    ghost use Rattle.eid_pace.specs.Selections.{chosen_by};
    ghost use Rattle.eid_pace.specs.SelectionIn.{selection_in};
    ghost use Rattle.eid_pace.specs.View.{chosen_view, nonce_sent_view, given, selected};

    /// Reads the body of MSE:Set AT for PACE: data objects, among them 80 with the protocol, 83 with the
    /// password's reference in one byte, and at most one 7F4C with the holder's template, in any order; other
    /// tags are passed over. Rule 10 is a body of another form, rule 11 a reference that is not 2 (CAN), 3 (PIN)
    /// or 4 (PUK).
    pub fn select(body: &[u8]) -> Result<Chosen, Rule>
        ensures { selected result ≡ chosen_by (selection_in body.now) }
    {
        let Some(selection) = read_selection(body) else {
            return Err(BODY_FORM);
        };
        let Some(password) = password_named(selection.reference) else {
            return Err(NO_PASSWORD);
        };
        Ok(Chosen {
            choice: Choice {
                protocol: selection.protocol,
                password,
                template: selection.template,
            },
        })
    }

    /// The password that was chosen.
    pub fn password(&self) -> Password
        ensures { result ≡ (chosen_view self.now).password }
    {
        self.choice.password
    }

    /// The first step: draws a nonce, and gives it encrypted under the password's key, as it is sent. `by_can` says
    /// that the session's last PACE was with the CAN. The rules 15, 16 and 17 are those of `may_start`, rule 50 is a
    /// fault of the coprocessor.
    pub fn send_nonce<C: Coprocessor>(
        self,
        kept: &Record,
        by_can: bool,
        copro: &mut C,
    ) -> Result<(NonceSent, [u8; 16]), Rule>
        requires { 1 ≤ (C.seen copro.old).spare }
        ensures { let choice = chosen_view self in
            let refusal = start_refusal (record_view kept.now) choice.password by_can in
            let digits = digits_of (record_view kept.now) choice.password in
            EndsAs (C.seen copro.old) (C.seen copro.new) (nonce_asks refusal) (nonce_given choice digits refusal) (given nonce_sent_view result) }
    {
        if let Err(rule) = may_start(kept, self.choice.password, by_can) {
            return Err(rule);
        }
        let Ok(nonce) = copro.nonce() else {
            return Err(FAULT);
        };
        let sent = encrypted_nonce(digits(kept, self.choice.password), &nonce);
        Ok((
            NonceSent {
                choice: self.choice,
                nonce,
            },
            sent,
        ))
    }
}
