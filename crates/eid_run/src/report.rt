//! The lines of a report.
ghost use Rattle.std.specs.Prelude.{◌≡◌, ◌++◌, OnOk, option_map};
ghost use Rattle.eid_apdu.specs.Answer.{plain_reply};
ghost use Rattle.eid_run.specs.Report.{asked_line, data_of, data_text, fault_line, passed_line, request_line, request_name, status_text, step_name, stopped_line};

use eid_apdu::Reply;
use eid_base::{NoMemory, Status};
use eid_model::Text;
use eid_terminal::{Request, Step, value_in};

/// Success.
const SUCCESS: Status = Status(0x9000);
/// The identifier of restricted identification.
const IDENTIFIER: u16 = 0x81;

/// The name of a step.
fn step_name(step: Step) -> &'static [u8]
    ensures { result.now ≡ step_name step }
{
    match step {
        Step::Pace => b"pace".as_slice(),
        Step::Ta => b"ta".as_slice(),
        Step::Ca => b"ca".as_slice(),
        Step::Select => b"select".as_slice(),
    }
}

/// Appends the line of a step that succeeded.
pub fn put_passed(text: &mut Text, step: Step) -> Result<(), NoMemory>
    ensures { OnOk result (text.new ≡ text.old ++ passed_line step) }
{
    text.put(step_name(step))?;
    text.put(b" 9000\n")
}

/// Appends a status in four hexadecimal digits.
fn put_status(text: &mut Text, status: Status) -> Result<(), NoMemory>
    ensures { OnOk result (text.new ≡ text.old ++ status_text status.0) }
{
    text.put_hex(&status.0.to_be_bytes())
}

/// Appends the line of a step that did not succeed.
pub fn put_stopped(text: &mut Text, step: Step, status: Status) -> Result<(), NoMemory>
    ensures { OnOk result (text.new ≡ text.old ++ stopped_line step status.0) }
{
    text.put(b"stopped ")?;
    text.put(step_name(step))?;
    text.put(b" ")?;
    put_status(text, status)?;
    text.put(b"\n")
}

/// Appends the line of a step in which the coprocessor failed.
pub fn put_failed(text: &mut Text, step: Step) -> Result<(), NoMemory>
    ensures { OnOk result (text.new ≡ text.old ++ fault_line step) }
{
    text.put(b"stopped ")?;
    text.put(step_name(step))?;
    text.put(b" fault\n")
}

/// Appends the name of a request.
fn put_name(text: &mut Text, request: Request) -> Result<(), NoMemory>
    ensures { OnOk result (text.new ≡ text.old ++ request_name request) }
{
    match request {
        Request::File(number) => {
            text.put(b"dg")?;
            text.put_decimal(u32::from(number))
        }
        Request::Age => text.put(b"age"),
        Request::Validity => text.put(b"validity"),
        Request::Community => text.put(b"community"),
        Request::Ri => text.put(b"ri"),
    }
}

/// Appends a space and bytes in hexadecimal, where there are some.
fn put_data(text: &mut Text, bytes: &[u8]) -> Result<(), NoMemory>
    ensures { OnOk result (text.new ≡ text.old ++ data_text bytes.now) }
{
    if bytes.is_empty() {
        return Ok(());
    }
    text.put(b" ")?;
    text.put_hex(bytes)
}

/// Appends the data of a reply to restricted identification: the identifier where it succeeded.
fn put_identifier(text: &mut Text, reply: &Reply) -> Result<(), NoMemory>
    ensures { OnOk result (text.new ≡ text.old ++ data_text (data_of Request.Ri (plain_reply reply.now))) }
{
    if reply.status != SUCCESS {
        return put_data(text, reply.content.as_slice());
    }
    match value_in::<32>(reply, IDENTIFIER) {
        Some(identifier) => put_data(text, &identifier),
        None => Ok(()),
    }
}

/// Appends the data of the reply to a request.
fn put_answer(text: &mut Text, request: Request, reply: &Reply) -> Result<(), NoMemory>
    ensures { OnOk result (text.new ≡ text.old ++ data_text (data_of request (plain_reply reply.now))) }
{
    match request {
        Request::File(_) => put_data(text, reply.content.as_slice()),
        Request::Age => put_data(text, reply.content.as_slice()),
        Request::Validity => put_data(text, reply.content.as_slice()),
        Request::Community => put_data(text, reply.content.as_slice()),
        Request::Ri => put_identifier(text, reply),
    }
}

/// Appends the line of a request.
#[tactic(auto, unfolding(crate::specs::Report::request_line))]
fn put_request(text: &mut Text, request: Request, reply: &Reply) -> Result<(), NoMemory>
    ensures { OnOk result (text.new ≡ text.old ++ request_line request (plain_reply reply.now)) }
{
    put_name(text, request)?;
    text.put(b" ")?;
    put_status(text, reply.status)?;
    put_answer(text, request, reply)?;
    text.put(b"\n")
}

/// Appends the line of a request, if it is one.
pub fn put_asked(text: &mut Text, request: Option<Request>, reply: &Reply) -> Result<(), NoMemory>
    ensures { OnOk result (text.new ≡ text.old ++ asked_line request (plain_reply reply.now)) }
{
    match request {
        Some(request) => put_request(text, request, reply),
        None => Ok(()),
    }
}
