//! The moments that a chip makes.
ghost use Rattle.std.specs.Prelude.{◌≡◌, option_map};
ghost use Rattle.eid_apdu.specs.Command.{plain_command};
ghost use Rattle.eid_chip.specs.Fits.{came_in, found, moment_of};
ghost use Rattle.eid_model.specs.Legal as model;
ghost use Rattle.eid_model.specs.View as view;
ghost use Rattle.eid_sm.specs.Plain.{plain_of};

use eid_apdu::Command;
use eid_base::Rule;
use eid_chip::{Exchange, HandledIn};
use eid_copro::Ask;
use eid_model::{InputRef, MomentRef};
use eid_sm::Header;
use eid_store::MountError;

/// A moment without answer and without questions.
pub fn silent(input: InputRef<'_>) -> MomentRef<'_>
    ensures { view.moment_ref result ≡ model.silent (view.event_ref input.entry) }
{
    MomentRef {
        input,
        plain: None,
        asks: &[],
        finished: 0,
        rule: Rule(0),
        answer: None,
        sent: None,
    }
}

/// The plain command with its body, where there is one.
fn with_body<'a>(plain: Option<Header>, body: &'a [u8]) -> Option<Command<'a>>
    ensures { option_map plain_command result ≡ option_map (λ header. plain_of header body.now) plain }
{
    match plain {
        None => None,
        Some(header) => Some(header.with_body(body)),
    }
}

/// The moment of bytes of which this came, with these questions and this exchange.
pub fn moment_of<'a>(
    bytes: &'a [u8],
    asks: &'a [Ask],
    came: HandledIn,
    exchange: &'a Exchange,
) -> MomentRef<'a>
    ensures { view.moment_ref result ≡ moment_of bytes.now asks.now (came_in exchange.now came) }
{
    match came {
        HandledIn::Silent => silent(InputRef::Apdu(bytes)),
        HandledIn::Answered {
            plain,
            finished,
            rule,
        } => MomentRef {
            input: InputRef::Apdu(bytes),
            plain: with_body(plain, exchange.body.as_slice()),
            asks,
            finished,
            rule,
            answer: Some(&exchange.reply),
            sent: Some(exchange.sent.as_slice()),
        },
        HandledIn::Lost { plain, finished } => MomentRef {
            input: InputRef::Apdu(bytes),
            plain: with_body(plain, exchange.body.as_slice()),
            asks,
            finished,
            rule: Rule(0),
            answer: None,
            sent: None,
        },
    }
}

/// The number that a power-on found, where it was not cut.
pub fn number_found(mounted: Result<u32, MountError>) -> Option<u32>
    ensures { result ≡ found mounted }
{
    match mounted {
        Ok(number) => Some(number),
        Err(_) => None,
    }
}
