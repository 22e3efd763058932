//! What a command is, by class, instruction and parameters, and where the run stands: a fragment, or the last command of a
//! request of some kind.
ghost use Rattle.std.specs.Prelude.{◌≡◌, ℕ, List, true};
ghost use Rattle.eid_apdu.specs.Command.{plain_command};
ghost use Rattle.eid_model.specs.Kinds.{goes_on_in_run, kind_named};
ghost use Rattle.eid_chip.specs.States.{next_of};
ghost use Rattle.eid_chip.specs.Naming.{IsNamed, kind_by, with_body};

use crate::refusal::{CLASS, INSTRUCTION, PARAMETERS, Refusal};
use crate::session::{Authentication, Run, Session};
use eid_apdu::Command;
use eid_ca::names_chip_authentication;
use eid_model::Kind;
use eid_ri::names_restricted_identification;

/// What a command is of its request.
#[derive(Clone, Copy)]
pub enum Named {
    /// A fragment: further commands of the request follow.
    Fragment,
    /// The last command of a request, or its only one.
    Ends(Last),
}

/// What kind the request is that a command ends.
#[derive(Clone, Copy)]
pub enum Last {
    /// This one.
    Of(Kind),
    /// Chip authentication or restricted identification, of which the request names a protocol.
    ByProtocol,
}

/// The kind of a request with this body.
pub fn kind_of(last: Last, body: &[u8]) -> Kind
    ensures { result ≡ kind_by last body.now }
{
    match last {
        Last::Of(kind) => kind,
        Last::ByProtocol => {
            if names_chip_authentication(body) {
                Kind::SelectChipAuthentication
            } else if names_restricted_identification(body) {
                Kind::SelectRestrictedIdentification
            } else {
                Kind::NoProtocol
            }
        }
    }
}

/// The kind of a SELECT, by its parameters.
fn selection(c: &Command<'_>, session: &Session) -> Result<Named, Refusal>
    requires { (c.now.cla ≡ 0x00) × (c.now.ins ≡ 0xA4) }
    ensures named { IsNamed session.now (plain_command c.now) result }
{
    let _ = session;
    match u16::from(c.p1) * 256 + u16::from(c.p2) {
        0x040c => Ok(Named::Ends(Last::Of(Kind::SelectApplication))),
        0x000c => Ok(Named::Ends(Last::Of(Kind::SelectMasterFile))),
        0x020c => Ok(Named::Ends(Last::Of(Kind::SelectFile))),
        _ => Err(PARAMETERS),
    }
}

/// The kind of a RESET RETRY COUNTER, by its parameters.
fn pin_management(c: &Command<'_>, session: &Session) -> Result<Named, Refusal>
    requires { (c.now.cla ≡ 0x00) × (c.now.ins ≡ 0x2C) }
    ensures named { IsNamed session.now (plain_command c.now) result }
{
    let _ = session;
    match u16::from(c.p1) * 256 + u16::from(c.p2) {
        0x0203 => Ok(Named::Ends(Last::Of(Kind::ChangePin))),
        0x0303 => Ok(Named::Ends(Last::Of(Kind::UnblockPin))),
        0x0202 => Ok(Named::Ends(Last::Of(Kind::ChangeCan))),
        _ => Err(PARAMETERS),
    }
}

/// The kind of a GENERAL AUTHENTICATE with class 00: the last step of PACE, or the one of chip authentication or of
/// restricted identification, where it is next.
fn last_step(c: &Command<'_>, session: &Session) -> Kind
    requires { (c.now.cla ≡ 0x00) × (c.now.ins ≡ 0x86) × (c.now.p1 ≡ 0) × (c.now.p2 ≡ 0) }
    ensures named { (body : List ℕ) → kind_named (next_of session.now) (with_body (plain_command c.now) body) ≡ Some result }
    ensures turn { goes_on_in_run result ≡ true → next_of session.now ≡ Some result }
{
    let _ = c;
    match &session.run {
        Run::Idle => match &session.authentication {
            Authentication::NotBegun => Kind::NoStep,
            Authentication::Announced { .. } => Kind::NoStep,
            Authentication::Challenged { .. } => Kind::NoStep,
            Authentication::CaChosen(_) => Kind::AuthenticateChip,
        },
        Run::Chosen(_) => Kind::NoStep,
        Run::NonceSent(_) => Kind::NoStep,
        Run::Mapped(_) => Kind::NoStep,
        Run::Agreed(_) => Kind::MutualAuthentication,
        Run::KeyChosen(_) => Kind::NoStep,
        Run::RiChosen => Kind::PerformRestrictedIdentification,
    }
}

/// The kind of a GENERAL AUTHENTICATE with class 10: a step of PACE that is not the last, where it is next.
fn inner_step(c: &Command<'_>, session: &Session) -> Kind
    requires { (c.now.cla ≡ 0x10) × (c.now.ins ≡ 0x86) × (c.now.p1 ≡ 0) × (c.now.p2 ≡ 0) }
    ensures named { (body : List ℕ) → kind_named (next_of session.now) (with_body (plain_command c.now) body) ≡ Some result }
    ensures turn { goes_on_in_run result ≡ true → next_of session.now ≡ Some result }
{
    let _ = c;
    match &session.run {
        Run::Idle => match &session.authentication {
            Authentication::NotBegun => Kind::NoStep,
            Authentication::Announced { .. } => Kind::NoStep,
            Authentication::Challenged { .. } => Kind::NoStep,
            Authentication::CaChosen(_) => Kind::NoStep,
        },
        Run::Chosen(_) => Kind::EncryptedNonce,
        Run::NonceSent(_) => Kind::MapNonce,
        Run::Mapped(_) => Kind::PerformKeyAgreement,
        Run::Agreed(_) => Kind::NoStep,
        Run::KeyChosen(_) => Kind::NoStep,
        Run::RiChosen => Kind::NoStep,
    }
}

/// The kind of a PSO:Verify Certificate of class 00, where it is next.
fn verification(c: &Command<'_>, session: &Session) -> Kind
    requires { (c.now.cla ≡ 0x00) × (c.now.ins ≡ 0x2A) × (c.now.p1 ≡ 0) × (c.now.p2 ≡ 0xBE) }
    ensures named { (body : List ℕ) → kind_named (next_of session.now) (with_body (plain_command c.now) body) ≡ Some result }
    ensures turn { goes_on_in_run result ≡ true → next_of session.now ≡ Some result }
{
    let _ = c;
    match &session.run {
        Run::Idle => match &session.authentication {
            Authentication::NotBegun => Kind::NoStep,
            Authentication::Announced { .. } => Kind::NoStep,
            Authentication::Challenged { .. } => Kind::NoStep,
            Authentication::CaChosen(_) => Kind::NoStep,
        },
        Run::Chosen(_) => Kind::NoStep,
        Run::NonceSent(_) => Kind::NoStep,
        Run::Mapped(_) => Kind::NoStep,
        Run::Agreed(_) => Kind::NoStep,
        Run::KeyChosen(_) => Kind::VerifyCertificate,
        Run::RiChosen => Kind::NoStep,
    }
}

/// The kind of a GET CHALLENGE, where it is next.
fn challenge(c: &Command<'_>, session: &Session) -> Kind
    requires { (c.now.cla ≡ 0x00) × (c.now.ins ≡ 0x84) × (c.now.p1 ≡ 0) × (c.now.p2 ≡ 0) }
    ensures named { (body : List ℕ) → kind_named (next_of session.now) (with_body (plain_command c.now) body) ≡ Some result }
    ensures turn { goes_on_in_run result ≡ true → next_of session.now ≡ Some result }
{
    let _ = c;
    match &session.run {
        Run::Idle => match &session.authentication {
            Authentication::NotBegun => Kind::NoStep,
            Authentication::Announced { .. } => Kind::GetChallenge,
            Authentication::Challenged { .. } => Kind::NoStep,
            Authentication::CaChosen(_) => Kind::NoStep,
        },
        Run::Chosen(_) => Kind::NoStep,
        Run::NonceSent(_) => Kind::NoStep,
        Run::Mapped(_) => Kind::NoStep,
        Run::Agreed(_) => Kind::NoStep,
        Run::KeyChosen(_) => Kind::NoStep,
        Run::RiChosen => Kind::NoStep,
    }
}

/// The kind of an EXTERNAL AUTHENTICATE, where it is next.
fn signature(c: &Command<'_>, session: &Session) -> Kind
    requires { (c.now.cla ≡ 0x00) × (c.now.ins ≡ 0x82) × (c.now.p1 ≡ 0) × (c.now.p2 ≡ 0) }
    ensures named { (body : List ℕ) → kind_named (next_of session.now) (with_body (plain_command c.now) body) ≡ Some result }
    ensures turn { goes_on_in_run result ≡ true → next_of session.now ≡ Some result }
{
    let _ = c;
    match &session.run {
        Run::Idle => match &session.authentication {
            Authentication::NotBegun => Kind::NoStep,
            Authentication::Announced { .. } => Kind::NoStep,
            Authentication::Challenged { .. } => Kind::ExternalAuthenticate,
            Authentication::CaChosen(_) => Kind::NoStep,
        },
        Run::Chosen(_) => Kind::NoStep,
        Run::NonceSent(_) => Kind::NoStep,
        Run::Mapped(_) => Kind::NoStep,
        Run::Agreed(_) => Kind::NoStep,
        Run::KeyChosen(_) => Kind::NoStep,
        Run::RiChosen => Kind::NoStep,
    }
}

/// A GET CHALLENGE of class 00, by its parameters.
fn unchained_challenge(c: &Command<'_>, session: &Session) -> Result<Named, Refusal>
    requires { (c.now.cla ≡ 0x00) × (c.now.ins ≡ 0x84) }
    ensures named { IsNamed session.now (plain_command c.now) result }
{
    if c.p1 != 0 || c.p2 != 0 {
        return Err(PARAMETERS);
    }
    Ok(Named::Ends(Last::Of(challenge(c, session))))
}

/// An EXTERNAL AUTHENTICATE of class 00, by its parameters.
fn unchained_signature(c: &Command<'_>, session: &Session) -> Result<Named, Refusal>
    requires { (c.now.cla ≡ 0x00) × (c.now.ins ≡ 0x82) }
    ensures named { IsNamed session.now (plain_command c.now) result }
{
    if c.p1 != 0 || c.p2 != 0 {
        return Err(PARAMETERS);
    }
    Ok(Named::Ends(Last::Of(signature(c, session))))
}

/// The kind of an MSE of class 00, by its parameters.
fn environment(c: &Command<'_>, session: &Session) -> Result<Named, Refusal>
    requires { (c.now.cla ≡ 0x00) × (c.now.ins ≡ 0x22) }
    ensures named { IsNamed session.now (plain_command c.now) result }
{
    let _ = session;
    match u16::from(c.p1) * 256 + u16::from(c.p2) {
        0xc1a4 => Ok(Named::Ends(Last::Of(Kind::SelectPace))),
        0x81b6 => Ok(Named::Ends(Last::Of(Kind::SelectPublicKey))),
        0x81a4 => Ok(Named::Ends(Last::Of(Kind::AnnounceTerminal))),
        0x41a4 => Ok(Named::Ends(Last::ByProtocol)),
        _ => Err(PARAMETERS),
    }
}

/// A PSO of class 00, by its parameters.
fn operation(c: &Command<'_>, session: &Session) -> Result<Named, Refusal>
    requires { (c.now.cla ≡ 0x00) × (c.now.ins ≡ 0x2A) }
    ensures named { IsNamed session.now (plain_command c.now) result }
{
    if c.p1 != 0 || c.p2 != 0xbe {
        return Err(PARAMETERS);
    }
    Ok(Named::Ends(Last::Of(verification(c, session))))
}

/// A fragment of an MSE, by its parameters.
fn fragment(c: &Command<'_>, session: &Session) -> Result<Named, Refusal>
    requires { (c.now.cla ≡ 0x10) × (c.now.ins ≡ 0x22) }
    ensures named { IsNamed session.now (plain_command c.now) result }
{
    let _ = session;
    match u16::from(c.p1) * 256 + u16::from(c.p2) {
        0xc1a4 => Ok(Named::Fragment),
        0x81b6 => Ok(Named::Fragment),
        0x81a4 => Ok(Named::Fragment),
        0x41a4 => Ok(Named::Fragment),
        _ => Err(PARAMETERS),
    }
}

/// A fragment of an UPDATE BINARY, by its parameters.
fn update_fragment(c: &Command<'_>, session: &Session) -> Result<Named, Refusal>
    requires { (c.now.cla ≡ 0x10) × (c.now.ins ≡ 0xD6) }
    ensures named { IsNamed session.now (plain_command c.now) result }
{
    let _ = session;
    if c.p1 >= 0xa0 {
        return Err(PARAMETERS);
    }
    Ok(Named::Fragment)
}

/// The kind of an UPDATE BINARY, by its parameters.
fn update(c: &Command<'_>, session: &Session) -> Result<Named, Refusal>
    requires { (c.now.cla ≡ 0x00) × (c.now.ins ≡ 0xD6) }
    ensures named { IsNamed session.now (plain_command c.now) result }
{
    let _ = session;
    if c.p1 >= 0xa0 {
        return Err(PARAMETERS);
    }
    Ok(Named::Ends(Last::Of(Kind::UpdateBinary)))
}

/// The kind of an ACTIVATE, by its parameters.
fn activate(c: &Command<'_>, session: &Session) -> Result<Named, Refusal>
    requires { (c.now.cla ≡ 0x00) × (c.now.ins ≡ 0x44) }
    ensures named { IsNamed session.now (plain_command c.now) result }
{
    let _ = session;
    if c.p1 != 0x10 || c.p2 != 0x03 {
        return Err(PARAMETERS);
    }
    Ok(Named::Ends(Last::Of(Kind::ActivatePin)))
}

/// The kind of a DEACTIVATE, by its parameters.
fn deactivate(c: &Command<'_>, session: &Session) -> Result<Named, Refusal>
    requires { (c.now.cla ≡ 0x00) × (c.now.ins ≡ 0x04) }
    ensures named { IsNamed session.now (plain_command c.now) result }
{
    let _ = session;
    if c.p1 != 0x10 || c.p2 != 0x03 {
        return Err(PARAMETERS);
    }
    Ok(Named::Ends(Last::Of(Kind::DeactivatePin)))
}

/// A fragment of a PSO, by its parameters.
fn operation_fragment(c: &Command<'_>, session: &Session) -> Result<Named, Refusal>
    requires { (c.now.cla ≡ 0x10) × (c.now.ins ≡ 0x2A) }
    ensures named { IsNamed session.now (plain_command c.now) result }
{
    let _ = session;
    if c.p1 != 0 || c.p2 != 0xbe {
        return Err(PARAMETERS);
    }
    Ok(Named::Fragment)
}

/// A GENERAL AUTHENTICATE of class 10, by its parameters.
fn chained_step(c: &Command<'_>, session: &Session) -> Result<Named, Refusal>
    requires { (c.now.cla ≡ 0x10) × (c.now.ins ≡ 0x86) }
    ensures named { IsNamed session.now (plain_command c.now) result }
{
    if c.p1 != 0 || c.p2 != 0 {
        return Err(PARAMETERS);
    }
    Ok(Named::Ends(Last::Of(inner_step(c, session))))
}

/// A command of class 10: a fragment, or a GENERAL AUTHENTICATE that more steps follow.
fn chained(c: &Command<'_>, session: &Session) -> Result<Named, Refusal>
    requires { c.now.cla ≡ 0x10 }
    ensures named { IsNamed session.now (plain_command c.now) result }
{
    match c.ins {
        0x22 => fragment(c, session),
        0x2a => operation_fragment(c, session),
        0x86 => chained_step(c, session),
        0xd6 => update_fragment(c, session),
        _ => Err(INSTRUCTION),
    }
}

/// The kind of a GENERAL AUTHENTICATE of class 00.
fn unchained_step(c: &Command<'_>, session: &Session) -> Result<Named, Refusal>
    requires { (c.now.cla ≡ 0x00) × (c.now.ins ≡ 0x86) }
    ensures named { IsNamed session.now (plain_command c.now) result }
{
    if c.p1 != 0 || c.p2 != 0 {
        return Err(PARAMETERS);
    }
    Ok(Named::Ends(Last::Of(last_step(c, session))))
}

/// The kind of a command of class 00.
fn plain_kind(c: &Command<'_>, session: &Session) -> Result<Named, Refusal>
    requires { c.now.cla ≡ 0x00 }
    ensures named { IsNamed session.now (plain_command c.now) result }
{
    match c.ins {
        0x04 => deactivate(c, session),
        0x22 => environment(c, session),
        0x2a => operation(c, session),
        0x44 => activate(c, session),
        0x82 => unchained_signature(c, session),
        0x84 => unchained_challenge(c, session),
        0x2c => pin_management(c, session),
        0x86 => unchained_step(c, session),
        0xa4 => selection(c, session),
        0xb0 if c.p1 < 0xa0 => Ok(Named::Ends(Last::Of(Kind::ReadBinary))),
        0xb0 => Err(PARAMETERS),
        0xd6 => update(c, session),
        _ => Err(INSTRUCTION),
    }
}

/// The kind of a command of class 80: VERIFY of auxiliary data, by its parameters.
fn proprietary(c: &Command<'_>, session: &Session) -> Result<Named, Refusal>
    requires { c.now.cla ≡ 0x80 }
    ensures named { IsNamed session.now (plain_command c.now) result }
{
    let _ = session;
    match c.ins {
        0x20 if c.p1 == 0x80 && c.p2 == 0 => Ok(Named::Ends(Last::Of(Kind::VerifyAuxiliary))),
        0x20 => Err(PARAMETERS),
        _ => Err(INSTRUCTION),
    }
}

/// What a command is where the run stands there, or the first refusal of its class, instruction or parameters.
pub fn name_command(c: &Command<'_>, session: &Session) -> Result<Named, Refusal>
    ensures named { IsNamed session.now (plain_command c.now) result }
{
    match c.cla {
        0x00 => plain_kind(c, session),
        0x10 => chained(c, session),
        0x80 => proprietary(c, session),
        _ => Err(CLASS),
    }
}
