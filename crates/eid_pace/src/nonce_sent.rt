use crate::choice::Choice;
use crate::mapped::Mapped;
use crate::rules::{FAULT, NO_POINT};
use eid_base::{Point, Rule};
use eid_copro::Coprocessor;

/// A nonce was drawn and sent.
#[derive(Drop)]
pub struct NonceSent {
    pub(crate) choice: Choice,
    pub(crate) nonce: [u8; 16],
}

impl NonceSent {
    ghost use Rattle.std.specs.Prelude.{◌≤◌};
    ghost use Rattle.eid_copro.specs.Asking.{EndsAs};
    ghost use Rattle.eid_pace.specs.MapEnds.{map_asks, map_given};
    ghost use Rattle.eid_pace.specs.View.{nonce_sent_view, mapped_view, given};

    /// The second step: maps the nonce to a base with the terminal's point, and gives the chip's point,
    /// as it is sent. Rule 50 is a fault of the coprocessor, rule 52 that the mapping is no point.
    pub fn map<C: Coprocessor>(self, peer: &Point, copro: &mut C) -> Result<(Mapped, Point), Rule>
        requires { 2 ≤ (C.seen copro.old).spare }
        ensures { let sent = nonce_sent_view self in
            EndsAs (C.seen copro.old) (C.seen copro.new) (map_asks sent peer.now) (map_given sent) (given mapped_view result) }
    {
        let Ok(pair) = copro.pair(None) else {
            return Err(FAULT);
        };
        let (secret, public) = pair;
        let Ok(mapping) = copro.map(&self.nonce, &secret, peer) else {
            return Err(FAULT);
        };
        let Some(base) = mapping else {
            return Err(NO_POINT);
        };
        Ok((
            Mapped {
                choice: self.choice,
                base,
            },
            public,
        ))
    }
}
