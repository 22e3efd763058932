//! What each call of a coprocessor returns, by the answer that was logged.
ghost use Rattle.std.specs.Prelude.{◌≡◌, IsTrue};
ghost use Rattle.eid_copro.specs.Asked.{nonce_answer, challenge_answer, pair_answer, map_answer, agree_answer, verify_answer, sign_answer};
ghost use Rattle.eid_copro.specs.Asks.{fits_nonce, fits_challenge, fits_pair, fits_map, fits_agree, fits_verify, fits_sign};

use crate::ask::Answer;
use crate::coprocessor::CoproFault;
use eid_base::{Point, Secret, Signature};

pub(crate) fn nonce_reply(answer: Answer) -> Result<[u8; 16], CoproFault>
    requires { IsTrue (fits_nonce answer) }
    ensures { nonce_answer result ≡ answer }
{
    match answer {
        Answer::Nonce(nonce) => Ok(nonce),
        _ => Err(CoproFault),
    }
}

pub(crate) fn challenge_reply(answer: Answer) -> Result<[u8; 8], CoproFault>
    requires { IsTrue (fits_challenge answer) }
    ensures { challenge_answer result ≡ answer }
{
    match answer {
        Answer::Challenge(challenge) => Ok(challenge),
        _ => Err(CoproFault),
    }
}

pub(crate) fn pair_reply(answer: Answer) -> Result<(Secret, Point), CoproFault>
    requires { IsTrue (fits_pair answer) }
    ensures { pair_answer result ≡ answer }
{
    match answer {
        Answer::Pair { secret, public } => Ok((secret, public)),
        _ => Err(CoproFault),
    }
}

pub(crate) fn map_reply(answer: Answer) -> Result<Option<Point>, CoproFault>
    requires { IsTrue (fits_map answer) }
    ensures { map_answer result ≡ answer }
{
    match answer {
        Answer::Mapped(base) => Ok(Some(base)),
        Answer::NoPoint => Ok(None),
        _ => Err(CoproFault),
    }
}

pub(crate) fn agree_reply(answer: Answer) -> Result<Option<[u8; 32]>, CoproFault>
    requires { IsTrue (fits_agree answer) }
    ensures { agree_answer result ≡ answer }
{
    match answer {
        Answer::Shared(shared) => Ok(Some(shared)),
        Answer::NoPoint => Ok(None),
        _ => Err(CoproFault),
    }
}

pub(crate) fn verify_reply(answer: Answer) -> Result<bool, CoproFault>
    requires { IsTrue (fits_verify answer) }
    ensures { verify_answer result ≡ answer }
{
    match answer {
        Answer::Verdict(good) => Ok(good),
        _ => Err(CoproFault),
    }
}

pub(crate) fn sign_reply(answer: Answer) -> Result<Signature, CoproFault>
    requires { IsTrue (fits_sign answer) }
    ensures { sign_answer result ≡ answer }
{
    match answer {
        Answer::Signed(signature) => Ok(signature),
        _ => Err(CoproFault),
    }
}
