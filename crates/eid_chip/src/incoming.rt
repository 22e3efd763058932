//! What bytes are read as before they are answered.
ghost use Rattle.std.specs.Prelude.{◌≡◌, ◌≤◌, length, Option, Some, None, option_map, IfOk, IfErr, OnOk};
ghost use Rattle.eid_apdu.specs.Command.{plain_command};
ghost use Rattle.eid_sm.specs.Keys.{advanced};
ghost use Rattle.eid_sm.specs.Plain.{plain_of};
ghost use Rattle.eid_model.specs.Legal.{IsReadAs};
ghost use Rattle.eid_model.specs.Rules.{OfCommand};
ghost use Rattle.eid_chip.specs.Requests.{IsUnread};
ghost use Rattle.eid_chip.specs.Steps.{message_in, refusal};

use crate::refusal::{NO_COMMAND, NO_OBJECTS, Refusal, WRONG_OBJECTS};
use arrayvec::ArrayVec;
use eid_apdu::{Command, read_command};
use eid_model::MAX_BODY;
use eid_sm::{Channel, Header, SmError};

/// A command as its header, and its body on its own.
fn apart(c: &Command<'_>, body: &mut ArrayVec<u8, MAX_BODY>) -> Header
    requires { length c.now.body.now ≤ MAX_BODY }
    ensures { plain_of result body.new.items ≡ plain_command c.now }
{
    body.clear();
    body.try_extend_from_slice(c.body).unwrap();
    Header {
        cla: c.cla,
        ins: c.ins,
        p1: c.p1,
        p2: c.p2,
        ne: c.ne,
    }
}

/// Reads the bytes of a command without a channel. Rule 1 is that they are none, or that its body is too long.
fn read_plain(bytes: &[u8], body: &mut ArrayVec<u8, MAX_BODY>) -> Result<Header, Refusal>
    ensures read { IfOk result (λ header. IsReadAs None bytes.now (OfCommand (plain_of header body.new.items))) }
    ensures unread { IfErr result (λ refused. IsUnread None bytes.now (refusal refused)) }
    ensures rule { IfErr result (λ refused. refused.rule.0 ≡ 1) }
{
    let Ok(c) = read_command(bytes) else {
        return Err(NO_COMMAND);
    };
    if c.body.len() > MAX_BODY {
        return Err(NO_COMMAND);
    }
    Ok(apart(&c, body))
}

/// Reads the bytes of a command in a channel. Rule 2 is that objects of secure messaging are missing, rule 3 that they are
/// wrong.
fn read_protected(
    channel: &mut Channel,
    bytes: &[u8],
    body: &mut ArrayVec<u8, MAX_BODY>,
) -> Result<Header, Refusal>
    ensures read { IfOk result (λ header. IsReadAs (Some channel.old) bytes.now (OfCommand (plain_of header body.new.items))) }
    ensures unread { IfErr result (λ refused. IsUnread (Some channel.old) bytes.now (refusal refused)) }
    ensures counted { OnOk result (channel.new ≡ advanced channel.old) }
    ensures kept { IfErr result (λ refused. Some channel.new ≡ message_in refused.rule.0 (Some channel.old)) }
{
    match channel.unwrap(bytes, body) {
        Ok(header) => Ok(header),
        Err(SmError::Missing) => Err(NO_OBJECTS),
        Err(SmError::Wrong) => Err(WRONG_OBJECTS),
    }
}

/// Reads the bytes of a command, in a channel where one is open, and makes its body stand on its own.
pub fn read_incoming(
    channel: &mut Option<Channel>,
    bytes: &[u8],
    body: &mut ArrayVec<u8, MAX_BODY>,
) -> Result<Header, Refusal>
    ensures read { IfOk result (λ header. IsReadAs channel.old bytes.now (OfCommand (plain_of header body.new.items))) }
    ensures unread { IfErr result (λ refused. IsUnread channel.old bytes.now (refusal refused)) }
    ensures counted { OnOk result (channel.new ≡ option_map advanced channel.old) }
    ensures kept { IfErr result (λ refused. channel.new ≡ message_in refused.rule.0 channel.old) }
{
    match channel {
        None => read_plain(bytes, body),
        Some(channel) => read_protected(channel, bytes, body),
    }
}
