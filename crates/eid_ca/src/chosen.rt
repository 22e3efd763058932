use crate::keys::{enc_key, has_x_half, mac_key, token};
use crate::protocol::Protocol;
use crate::rules::{BODY_FORM, FAULT, NO_POINT, OTHER_KEY};
use crate::selection::read_selection;
use eid_aes::Aes;
use eid_base::{Point, Rule};
use eid_cmac::SessionKeys;
use eid_copro::Coprocessor;
use eid_cvc::TerminalKnown;
use eid_record::Record;

/// Chip authentication was chosen by MSE:Set AT, after a terminal authentication.
#[derive(Drop)]
pub struct CaChosen {
    pub(crate) protocol: Protocol,
    pub(crate) key_x: [u8; 32],
}

/// What a chip authentication that succeeded sends, and the keys of the channel from then on.
#[derive(Drop)]
pub struct Proven {
    /// The chip's nonce, as it is sent.
    pub nonce: [u8; 8],
    /// The chip's token, as it is sent.
    pub token: [u8; 8],
    /// The keys of the channel from then on.
    pub keys: SessionKeys,
}

impl CaChosen {
    ghost use Rattle.std.specs.Prelude.{◌≡◌, ◌≤◌};
    ghost use Rattle.std.specs.Str.{bytes_eq};
    ghost use Rattle.eid_record.specs.View.{record_view};
    ghost use Rattle.eid_cvc.specs.Chains.{known_view};
    ghost use Rattle.eid_cvc.specs.PublicKeys.{x_half};
    ghost use Rattle.eid_copro.specs.Asking.{EndsAs};
    ghost use Rattle.eid_ca.specs.ProveEnds.{prove_asks, prove_given};
    ghost use Rattle.eid_ca.specs.Selections.{chosen_by, chosen_in};
    ghost use Rattle.eid_ca.specs.View.{chosen_view, given, proven_view};

    /// Reads the body of MSE:Set AT for chip authentication: data objects, among them exactly one 80, with the
    /// protocol; other tags are passed over. Keeps the X half of the key that the terminal announced. Rule 10 is a
    /// body of another form, or of another protocol.
    pub fn select(body: &[u8], known: &TerminalKnown) -> Result<CaChosen, Rule>
        ensures { given chosen_view result ≡ chosen_by (chosen_in body.now) (known_view known.now).key_x }
    {
        let Some(protocol) = read_selection(body) else {
            return Err(BODY_FORM);
        };
        Ok(CaChosen {
            protocol,
            key_x: known.key_x,
        })
    }

    /// Whether this is the point whose X half the terminal announced.
    pub fn expects(&self, point: &Point) -> bool
        ensures { result ≡ bytes_eq (x_half point.now) (chosen_view self.now).key_x }
    {
        has_x_half(point, &self.key_x)
    }

    /// The step: draws a nonce of 8 bytes, agrees on a secret with the chip's static key and the terminal's point,
    /// and gives nonce and token, as they are sent, with the new keys. Rule 41 is that the point is not the one
    /// whose X half the terminal announced (nothing is asked then), rule 50 a fault of the coprocessor, rule 52
    /// that what was agreed is no point.
    pub fn prove<C: Coprocessor>(
        self,
        kept: &Record,
        point: &Point,
        copro: &mut C,
    ) -> Result<Proven, Rule>
        requires { 2 ≤ (C.seen copro.old).spare }
        ensures { let chosen = chosen_view self in
            let secret = (record_view kept.now).ca_secret in
            EndsAs (C.seen copro.old) (C.seen copro.new) (prove_asks chosen.key_x secret point.now) (prove_given chosen point.now) (given proven_view result) }
    {
        if !self.expects(point) {
            return Err(OTHER_KEY);
        }
        let Ok(nonce) = copro.challenge() else {
            return Err(FAULT);
        };
        let Ok(agreement) = copro.agree(&kept.ca_secret, point) else {
            return Err(FAULT);
        };
        let Some(shared) = agreement else {
            return Err(NO_POINT);
        };
        let mac = mac_key(&shared, &nonce);
        let key = Aes::<10>::new(&mac);
        Ok(Proven {
            nonce,
            token: token(&key, self.protocol.identifier(), point),
            keys: SessionKeys::Short {
                enc: enc_key(&shared, &nonce),
                mac,
            },
        })
    }
}
