use crate::announcement::{AUXILIARY, Announcement, read_announcement};
use crate::challenged::Challenged;
use crate::rules::{FAULT, NO_CHAIN, OTHER_NAME};
use arrayvec::ArrayVec;
use eid_base::{Point, Rule};
use eid_bits::Template;
use eid_copro::Coprocessor;
use eid_cvc::{Aux, ChainState, TerminalKnown};
use eid_tlv::put;

/// The terminal whose certificate was accepted announced itself.
#[derive(Drop)]
pub struct Announced {
    pub(crate) templates: [Template; 3],
    pub(crate) key: Point,
    pub(crate) key_x: [u8; 32],
    pub(crate) sent: ArrayVec<u8, 2048>,
    pub(crate) aux: Aux,
    pub(crate) sectors: [Option<[u8; 32]>; 2],
}

impl Announced {
    ghost use Rattle.std.specs.Prelude.{◌≡◌, ◌≤◌, length};
    ghost use Rattle.eid_copro.specs.Asking.{EndsAs};
    ghost use Rattle.eid_cvc.specs.Chains.{chain_view, known_view};
    ghost use Rattle.eid_ta.specs.AnnouncementIn.{announcement_in};
    ghost use Rattle.eid_ta.specs.Announcing.{announced_by, announced_in, known_of};
    ghost use Rattle.eid_ta.specs.ChallengeEnds.{challenge_asks, challenge_given};
    ghost use Rattle.eid_ta.specs.View.{announced, announced_view, announcement_view, challenged};

    /// The first step: reads the body of MSE:Set AT, of at most 2,048 bytes, as `read_announcement` does, and takes
    /// the announcement up as `begin` does.
    ///
    /// # Errors
    /// Rule 10 is a body of another form, rule 24 that the chain is not there, rule 25 another name.
    pub fn announce(body: &[u8], chain: &ChainState) -> Result<Announced, Rule>
        requires { length body.now ≤ 2048 }
        ensures { announced result ≡ announced_in (chain_view chain.now) (announcement_in body.now) }
    {
        match read_announcement(body) {
            Ok(announcement) => Announced::begin(announcement, chain),
            Err(rule) => Err(rule),
        }
    }

    /// Takes up an announcement by the terminal of the chain; its object 67 has at most 2,048 bytes.
    ///
    /// # Errors
    /// Rule 24 exactly where trust point, document verifier and terminal are not all there; else rule 25 exactly
    /// where the reference is not the terminal's name.
    pub fn begin(announcement: Announcement<'_>, chain: &ChainState) -> Result<Announced, Rule>
        requires { length (announcement_view announcement).sent ≤ 2048 }
        ensures { announced result ≡ announced_by (chain_view chain.now) (announcement_view announcement.entry) }
    {
        let Some(root) = chain.root else {
            return Err(NO_CHAIN);
        };
        let Some(verifier) = &chain.verifier else {
            return Err(NO_CHAIN);
        };
        let Some(terminal) = &chain.terminal else {
            return Err(NO_CHAIN);
        };
        if announcement.reference != terminal.name.as_slice() {
            return Err(OTHER_NAME);
        }
        Ok(Announced {
            templates: [root, verifier.template, terminal.template],
            key: terminal.key,
            key_x: announcement.key_x,
            sent: whole(announcement.sent),
            aux: announcement.aux,
            sectors: chain.sectors,
        })
    }

    /// The second step: draws a challenge, and gives it, as it is sent.
    ///
    /// # Errors
    /// Rule 50 exactly where the coprocessor met a fault.
    pub fn challenge<C: Coprocessor>(self, copro: &mut C) -> Result<(Challenged, [u8; 8]), Rule>
        requires { 1 ≤ (C.seen copro.old).spare }
        ensures { let announced = announced_view self in
            EndsAs (C.seen copro.old) (C.seen copro.new) challenge_asks (challenge_given announced) (challenged result) }
    {
        let Ok(challenge) = copro.challenge() else {
            return Err(FAULT);
        };
        Ok((
            Challenged {
                announced: self,
                challenge,
            },
            challenge,
        ))
    }

    /// What is known of the terminal, once its signature was verified.
    pub(crate) fn known(self) -> TerminalKnown
        ensures { known_view result ≡ known_of (announced_view self) }
    {
        let templates = self.templates;
        let key_x = self.key_x;
        let sectors = self.sectors;
        TerminalKnown {
            templates,
            key_x,
            aux: self.aux,
            sectors,
        }
    }
}

ghost use Rattle.std.specs.Prelude.{◌≡◌, ◌≤◌, length};
ghost use Rattle.std.specs.Option.{option_copied};
ghost use Rattle.eid_ta.specs.AnnouncementIn.{whole};

/// The object 67 with this value, or nothing.
fn whole(value: Option<&[u8]>) -> ArrayVec<u8, 2048>
    requires { length (whole (option_copied value)) ≤ 2048 }
    ensures { result.items ≡ whole (option_copied value.entry) }
{
    let mut object = ArrayVec::new();
    if let Some(value) = value {
        put(&mut object, AUXILIARY, value).unwrap();
    }
    object
}
