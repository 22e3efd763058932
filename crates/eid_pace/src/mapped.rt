use crate::agreed::Agreed;
use crate::choice::Choice;
use crate::rules::{FAULT, NO_POINT, SAME_POINT};
use eid_base::{Point, Rule};
use eid_copro::Coprocessor;

/// The nonce was mapped to a base.
#[derive(Drop)]
pub struct Mapped {
    pub(crate) choice: Choice,
    pub(crate) base: Point,
}

impl Mapped {
    ghost use Rattle.std.specs.Prelude.{◌≤◌};
    ghost use Rattle.eid_copro.specs.Asking.{EndsAs};
    ghost use Rattle.eid_pace.specs.AgreeEnds.{agree_asks, agree_given};
    ghost use Rattle.eid_pace.specs.View.{mapped_view, agreed_view, given};

    /// The third step: agrees on a secret with the terminal's ephemeral point, and gives the chip's, as it
    /// is sent. Rule 50 is a fault of the coprocessor, rule 51 that both points are the same, rule 52 that
    /// what was agreed is no point.
    pub fn agree<C: Coprocessor>(self, peer: &Point, copro: &mut C) -> Result<(Agreed, Point), Rule>
        requires { 2 ≤ (C.seen copro.old).spare }
        ensures { let mapped = mapped_view self in
            EndsAs (C.seen copro.old) (C.seen copro.new) (agree_asks mapped peer.now) (agree_given mapped peer.now) (given agreed_view result) }
    {
        let Ok(pair) = copro.pair(Some(&self.base)) else {
            return Err(FAULT);
        };
        let (secret, public) = pair;
        if *peer == public {
            return Err(SAME_POINT);
        }
        let Ok(agreement) = copro.agree(&secret, peer) else {
            return Err(FAULT);
        };
        let Some(shared) = agreement else {
            return Err(NO_POINT);
        };
        Ok((
            Agreed {
                choice: self.choice,
                chip_point: public,
                terminal_point: *peer,
                shared,
            },
            public,
        ))
    }
}
