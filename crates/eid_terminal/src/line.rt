//! Commands and replies, in a channel of secure messaging or without one.
ghost use Rattle.std.specs.Prelude.{◌≡◌, ◌≤◌, true, length, Some, None, if◌then◌else◌};
ghost use Rattle.eid_apdu.specs.Answer.{PlainReply, plain_reply};
ghost use Rattle.eid_apdu.specs.Command.{plain_command};
ghost use Rattle.eid_sm.specs.Commands.{IsPlainClass};
ghost use Rattle.eid_sm.specs.Plain.{plain_of};
ghost use Rattle.eid_terminal.specs.Courses.{IsReading, sent};
ghost use Rattle.eid_terminal.specs.Exchanges.{counted};
ghost use Rattle.eid_terminal.specs.Plans.{PlainPlan};
ghost use Rattle.eid_terminal.specs.View.{Did, HasPlace, command_of, seen, waiting_course};

use crate::action::{Deed, Message};
use crate::state::{Awaited, State, Turn};
use eid_apdu::{Command, Reply, read_reply, write_command};
use eid_sm::{Channel, Header, MAX_PLAIN};

/// Makes a message the bytes of a command, which the channel counts where one is open.
fn write_message(channel: &mut Option<Channel>, command: &Command<'_>, message: &mut Message)
    requires body { length command.now.body.now ≤ MAX_PLAIN }
    requires expected { command.now.ne ≤ 65536 }
    requires class { IsPlainClass command.now.cla }
    ensures bytes { message.new.items ≡ sent (counted channel.old) (plain_command command.now) }
    ensures counted { channel.new ≡ counted channel.old }
{
    message.clear();
    match channel {
        Some(open) => open.wrap(command, message),
        None => write_command(command, message).unwrap(),
    }
}

/// Sends a command with this header and body, and waits for its reply.
pub fn send(
    channel: &mut Option<Channel>,
    awaited: Awaited,
    header: Header,
    body: &[u8],
    message: &mut Message,
) -> Turn
    requires body { length body.now ≤ MAX_PLAIN }
    requires expected { header.ne ≤ 65536 }
    requires class { IsPlainClass header.cla }
    ensures { (plan : PlainPlan) (heard : PlainReply) → plain_of header body.now ≡ command_of plan awaited → HasPlace plan awaited
        → Did plan (seen result channel.new message.new.items heard) (waiting_course plan awaited (counted channel.old)) }
{
    write_message(channel, &header.with_body(body), message);
    Turn {
        state: State::Waiting(awaited),
        deed: Deed::Send,
    }
}

/// Makes `reply` the reply that the bytes are, and says whether they are one; the channel counts it where one is open.
/// They are none exactly where they cannot be read, or not be unsealed; the channel is not used then any more.
pub fn receive(channel: &mut Option<Channel>, bytes: &[u8], reply: &mut Reply) -> bool
    ensures reads { IsReading channel.old bytes.now (if result then Some (plain_reply reply.new) else None) }
    ensures counted { result ≡ true → channel.new ≡ counted channel.old }
{
    let Some(open) = channel else {
        let Ok(read) = read_reply(bytes) else {
            return false;
        };
        *reply = read;
        return true;
    };
    open.unseal(bytes, reply).is_ok()
}
