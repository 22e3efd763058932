use crate::choice::Choice;
use crate::keys::{self, enc_key, identity_of, mac_key};
use crate::rules::WRONG_TOKEN;
use eid_aes::Aes;
use eid_base::{Point, Rule};
use eid_bits::Template;
use eid_cmac::SessionKeys;
use eid_record::Password;
use eid_store::Receipt;

/// A secret was agreed; the tokens are still to come.
#[derive(Drop)]
pub struct Agreed {
    pub(crate) choice: Choice,
    pub(crate) chip_point: Point,
    pub(crate) terminal_point: Point,
    pub(crate) shared: [u8; 32],
}

/// What a PACE that succeeded leaves.
#[derive(Drop)]
pub struct Done {
    /// The password that opened it.
    pub password: Password,
    /// The template that the holder granted, if the selection had one.
    pub template: Option<Template>,
    /// The X half of the chip's ephemeral point, by which terminal authentication names the chip.
    pub identity: [u8; 32],
    /// The keys of the channel that it opens.
    pub keys: SessionKeys,
}

impl Agreed {
    ghost use Rattle.std.specs.Prelude.{◌≡◌};
    ghost use Rattle.eid_pace.specs.Check.{IsPaid, check_given};
    ghost use Rattle.eid_pace.specs.View.{agreed_view, done_view, given};

    /// The password that was chosen.
    pub fn password(&self) -> Password
        ensures { result ≡ (agreed_view self.now).choice.password }
    {
        self.choice.password
    }

    /// The last step: compares the terminal's token, and gives the chip's, as it is sent. Rule 55 is that
    /// the token is wrong. With the PIN a try must have been paid before; with another password `paid` is
    /// not looked at.
    pub fn check(self, token: &[u8; 8], paid: Option<Receipt>) -> Result<(Done, [u8; 8]), Rule>
        requires { IsPaid (agreed_view self).choice.password paid }
        ensures { given done_view result ≡ check_given (agreed_view self) token.now }
    {
        let _ = paid;
        let mac = mac_key(&self.shared);
        let key = Aes::<10>::new(&mac);
        let protocol = self.choice.protocol.identifier();
        if *token != keys::token(&key, protocol, &self.chip_point) {
            return Err(WRONG_TOKEN);
        }
        Ok((
            Done {
                password: self.choice.password,
                template: self.choice.template,
                identity: identity_of(&self.chip_point),
                keys: SessionKeys::Short {
                    enc: enc_key(&self.shared),
                    mac,
                },
            },
            keys::token(&key, protocol, &self.terminal_point),
        ))
    }
}
