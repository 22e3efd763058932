//! The chip, and what it does with the bytes of a command.
ghost use Rattle.std.specs.Prelude.{◌≡◌, ◌≢◌, ◌≤◌, ◌↔◌, ℕ, true, false, List, [], ◌∷◌, length, slice_index, Option, Some, None, IsSome, OnOk, OnErr, if◌then◌else◌};
ghost use Rattle.std.specs.Option.{option_or};
ghost use Rattle.arrayvec.specs.ArrayVec.{array_vec_len};
ghost use Rattle.eid_apdu.specs.Command.{plain_command};
ghost use Rattle.eid_apdu.specs.Answer.{plain_reply};
ghost use Rattle.eid_record.specs.Plain.{FullRecord};
ghost use Rattle.eid_cells.specs.Device.{Device};
ghost use Rattle.eid_store.specs.Durable.{Mounts};
ghost use Rattle.eid_store.specs.Store as stored;
ghost use Rattle.eid_store.specs.Store.{mount_cost};
ghost use Rattle.eid_store.specs.Stands.{stands};
ghost use Rattle.eid_model.specs.Moments.{PoweredOn, PoweredOff, ends_session_by};
ghost use Rattle.eid_model.specs.Kinds.{goes_on_in_run};
ghost use Rattle.eid_model.specs.Rules.{committing, concerns};
ghost use Rattle.eid_model.specs.Legal.{silent};
ghost use Rattle.eid_chip.specs.Commits.{MOST_MOUNTING};
ghost use Rattle.eid_chip.specs.Endings.{ended, left_by, powered, reacted};
ghost use Rattle.eid_chip.specs.Held.{held};
ghost use Rattle.eid_chip.specs.States.{next_of};
ghost use Rattle.eid_chip.specs.Tries.{IsIdleIfLost, IsTryLeft};
ghost use Rattle.eid_chip.specs.Worlds.{IsMounted, world};
ghost use Rattle.eid_chip.specs.Steps.{Performed, Reacts, Responds, Stepped, message_in, rule_of, sent_next};
ghost use Rattle.eid_chip.specs.Fits.{Handles, came_in, plain_in, scene};

use crate::certificates::{select_public_key, verify_certificate};
use crate::chip_authentication::{authenticate_chip, select_chip_authentication};
use crate::ending::{ends_session, refused, uncommitted};
use crate::exchange::{Exchange, Handled, HandledIn};
use crate::incoming::read_incoming;
use crate::naming::{Named, kind_of, name_command};
use crate::pace::{
    encrypted_nonce, map_nonce, mutual_authentication, perform_key_agreement, select_pace,
};
use crate::pin::{change_can, change_pin, set_active, unblock_pin};
use crate::reaction::{Ending, Reaction, Response};
use crate::refusal::{BODY_FORM, NO_STEP};
use crate::request::{end_request, request_of, take_fragment};
use crate::restricted_identification::{
    perform_restricted_identification, select_restricted_identification,
};
use crate::running::Running;
use crate::select::{read_binary, select_application, select_file, select_master_file};
use crate::session::Session;
use crate::terminal::{announce_terminal, external_authenticate, get_challenge};
use crate::update::update_binary;
use crate::verify::verify_auxiliary;
use arrayvec::ArrayVec;
use eid_apdu::{Chain, Command, MAX_REQUEST, Reply, write_reply};
use eid_base::Rule;
use eid_cells::Eeprom;
use eid_copro::Coprocessor;
use eid_model::{Kind, MAX_BODY};
use eid_sm::Channel;
use eid_store::{MountError, Store};
use std::marker::Model;

/// Carries out a command of a kind that never commits, or refuses it by the first failed rule of its kind.
fn perform_uncommitted<E: Eeprom, C: Coprocessor>(
    kind: Kind,
    session: &mut Session,
    store: &Store,
    cells: &E,
    copro: &mut C,
    c: &Command<'_>,
    reply: &mut Reply,
) -> Reaction
    requires mounted { IsMounted (world (C.seen copro.old) store.now (E.device cells.now) (E.cells cells.now)) }
    requires room { 2 ≤ (C.seen copro.old).spare }
    requires turn { goes_on_in_run kind ≡ true → next_of session.old ≡ Some kind }
    requires calm { concerns committing (Some kind) ≡ false }
    requires short { length c.now.body.now ≤ 2048 }
    ensures stepped { Stepped (C.seen copro.old) (C.seen copro.new) kind (held (E.cells cells.now)) session.old (plain_command c.now)
        (reacted result session.new) (plain_reply reply.new) }
    ensures small { array_vec_len reply.new.content ≤ 2048 }
{
    match kind {
        Kind::SelectApplication => select_application(session, c, reply),
        Kind::SelectMasterFile => select_master_file(session, c, reply),
        Kind::SelectFile => select_file(session, c, reply),
        Kind::ReadBinary => read_binary(session, store, cells, c, reply),
        Kind::SelectPace => select_pace(session, store.kept(), c, reply),
        Kind::SelectPublicKey => select_public_key(session, store.kept(), c, reply),
        Kind::AnnounceTerminal => announce_terminal(session, c, reply),
        Kind::GetChallenge => get_challenge(session, copro, c, reply),
        Kind::ExternalAuthenticate => external_authenticate(session, copro, c, reply),
        Kind::SelectChipAuthentication => select_chip_authentication(session, c, reply),
        Kind::SelectRestrictedIdentification => {
            select_restricted_identification(session, c, reply)
        }
        Kind::EncryptedNonce => encrypted_nonce(session, store, cells, copro, c, reply),
        Kind::MapNonce => map_nonce(session, copro, c, reply),
        Kind::PerformKeyAgreement => perform_key_agreement(session, copro, c, reply),
        Kind::AuthenticateChip => authenticate_chip(session, store.kept(), copro, c, reply),
        Kind::PerformRestrictedIdentification => {
            perform_restricted_identification(session, store.kept(), copro, c, reply)
        }
        Kind::VerifyAuxiliary => verify_auxiliary(session, store, cells, c, reply),
        Kind::NoProtocol => refused(BODY_FORM, session, reply),
        Kind::NoStep => refused(NO_STEP, session, reply),
        Kind::UpdateBinary
        | Kind::VerifyCertificate
        | Kind::MutualAuthentication
        | Kind::ChangePin
        | Kind::UnblockPin
        | Kind::ChangeCan
        | Kind::ActivatePin
        | Kind::DeactivatePin => unreachable!(),
    }
}

/// Carries out a command of this kind with its commits, or refuses it by the first failed rule of its kind.
fn perform<E: Eeprom, C: Coprocessor>(
    kind: Kind,
    session: &mut Session,
    store: &mut Store,
    cells: &mut E,
    copro: &mut C,
    c: &Command<'_>,
    reply: &mut Reply,
) -> Ending
    requires mounted { IsMounted (world (C.seen copro.old) store.old (E.device cells.old) (E.cells cells.old)) }
    requires room { 2 ≤ (C.seen copro.old).spare }
    requires turn { goes_on_in_run kind ≡ true → next_of session.old ≡ Some kind }
    requires short { length c.now.body.now ≤ 2048 }
    requires try_left { IsTryLeft session.old.run (stored.fields_of store.old) }
    ensures performed { Performed kind session.old (plain_command c.now) (ended result session.new) (plain_reply reply.new)
        (world (C.seen copro.old) store.old (E.device cells.old) (E.cells cells.old))
        (world (C.seen copro.new) store.new (E.device cells.new) (E.cells cells.new)) }
    ensures lost { IsIdleIfLost result session.new.run }
    ensures small { array_vec_len reply.new.content ≤ 2048 }
{
    match kind {
        Kind::UpdateBinary => update_binary(session, store, cells, c, reply),
        Kind::VerifyCertificate => verify_certificate(session, store, cells, copro, c, reply),
        Kind::MutualAuthentication => mutual_authentication(session, store, cells, c, reply),
        Kind::ChangePin => change_pin(session, store, cells, c, reply),
        Kind::UnblockPin => unblock_pin(session, store, cells, c, reply),
        Kind::ChangeCan => change_can(session, store, cells, c, reply),
        Kind::ActivatePin => set_active(true, session, store, cells, c, reply),
        Kind::DeactivatePin => set_active(false, session, store, cells, c, reply),
        _ => uncommitted(perform_uncommitted(kind, session, store, cells, copro, c, reply)),
    }
}

/// Carries a command out, or refuses it by the first failed rule.
fn react<E: Eeprom, C: Coprocessor>(
    running: &mut Running,
    chain: &mut Chain<MAX_REQUEST>,
    cells: &mut E,
    copro: &mut C,
    c: &Command<'_>,
    reply: &mut Reply,
) -> Ending
    requires mounted { IsMounted (world (C.seen copro.old) running.old.store (E.device cells.old) (E.cells cells.old)) }
    requires room { 2 ≤ (C.seen copro.old).spare }
    ensures reacts { Reacts running.old.session chain.old.pending (plain_command c.now) (ended result running.new.session) (plain_reply reply.new)
        chain.new.pending
        (world (C.seen copro.old) running.old.store (E.device cells.old) (E.cells cells.old))
        (world (C.seen copro.new) running.new.store (E.device cells.new) (E.cells cells.new)) }
    ensures channel { running.new.channel ≡ running.old.channel }
    ensures small { array_vec_len reply.new.content ≤ 2048 }
{
    let session = &mut running.session;
    let last = match name_command(c, session) {
        Ok(Named::Ends(last)) => last,
        Ok(Named::Fragment) => return uncommitted(take_fragment(session, chain, c, reply)),
        Err(refusal) => {
            chain.close();
            return uncommitted(refused(refusal, session, reply));
        }
    };
    let is_joined = match end_request(chain, c) {
        Ok(is_joined) => is_joined,
        Err(refusal) => return uncommitted(refused(refusal, session, reply)),
    };
    let request = request_of(is_joined, chain, c);
    let kind = kind_of(last, request.body);
    let store = &mut running.store;
    perform(kind, session, store, cells, copro, &request, reply)
}

/// Reads the bytes of a command, in a channel where one is open, and answers them.
fn respond<E: Eeprom, C: Coprocessor>(
    running: &mut Running,
    chain: &mut Chain<MAX_REQUEST>,
    cells: &mut E,
    copro: &mut C,
    bytes: &[u8],
    exchange: &mut Exchange,
) -> Response
    requires mounted { IsMounted (world (C.seen copro.old) running.old.store (E.device cells.old) (E.cells cells.old)) }
    requires room { 2 ≤ (C.seen copro.old).spare }
    ensures responds { Responds running.old.session running.old.channel chain.old.pending bytes.now (plain_in exchange.new result.plain)
        (ended result.ending running.new.session) (plain_reply exchange.new.reply) chain.new.pending
        (world (C.seen copro.old) running.old.store (E.device cells.old) (E.cells cells.old))
        (world (C.seen copro.new) running.new.store (E.device cells.new) (E.cells cells.new)) }
    ensures channel { running.new.channel ≡ message_in (rule_of (ended result.ending running.new.session)) running.old.channel }
    ensures small { array_vec_len exchange.new.reply.content ≤ 2048 }
{
    let header = match read_incoming(&mut running.channel, bytes, &mut exchange.body) {
        Ok(header) => header,
        Err(refusal) => {
            chain.close();
            let reaction = refused(refusal, &mut running.session, &mut exchange.reply);
            return Response {
                plain: None,
                ending: uncommitted(reaction),
            };
        }
    };
    let c = header.with_body(exchange.body.as_slice());
    Response {
        plain: Some(header),
        ending: react(running, chain, cells, copro, &c, &mut exchange.reply),
    }
}

/// Writes a reply as it is sent, over what `out` held: in a channel protected, but by the rules on the
/// objects of secure messaging.
fn send(channel: &mut Option<Channel>, rule: Rule, reply: &Reply, out: &mut ArrayVec<u8, MAX_BODY>)
    requires { array_vec_len reply.now.content ≤ 2048 }
    ensures sent { out.new.items ≡ sent_next channel.old rule.0 (plain_reply reply.now) }
    ensures channel { channel.new ≡ message_in rule.0 channel.old }
{
    match channel {
        Some(channel) if rule.0 != 2 && rule.0 != 3 => channel.seal(reply, out),
        _ => {
            out.clear();
            write_reply(reply, out).unwrap();
        }
    }
}

/// What a chip with power does with its answer: it is written as it is sent, and the channel kept that the step opened, or
/// the one before.
fn finish(reaction: Reaction, channel: &mut Option<Channel>, exchange: &mut Exchange)
    requires { array_vec_len exchange.old.reply.content ≤ 2048 }
    ensures sent { exchange.new.sent.items ≡ sent_next channel.old reaction.rule.0 (plain_reply exchange.old.reply) }
    ensures said { (exchange.new.reply ≡ exchange.old.reply) × (exchange.new.body ≡ exchange.old.body) }
    ensures channel { channel.new ≡ (if ends_session_by reaction.rule.0 then None
        else option_or reaction.opened (message_in reaction.rule.0 channel.old)) }
{
    let Reaction { rule, opened } = reaction;
    send(channel, rule, &exchange.reply, &mut exchange.sent);
    if ends_session(rule) {
        *channel = None;
        return;
    }
    if let Some(opened) = opened {
        *channel = Some(opened);
    }
}

/// Handles the bytes of a command in a chip with power, which has none afterwards where it was lost in a commit.
fn handle_on<E: Eeprom, C: Coprocessor>(
    running: &mut Running,
    chain: &mut Chain<MAX_REQUEST>,
    cells: &mut E,
    copro: &mut C,
    bytes: &[u8],
    exchange: &mut Exchange,
) -> HandledIn
    requires mounted { IsMounted (world (C.seen copro.old) running.old.store (E.device cells.old) (E.cells cells.old)) }
    requires room { 2 ≤ (C.seen copro.old).spare }
    ensures handles { Handles (C.seen copro.old) (C.seen copro.new)
        (scene (powered chain.old.pending running.old) (E.device cells.old) (E.cells cells.old))
        (scene (left_by result chain.new.pending running.new) (E.device cells.new) (E.cells cells.new)) bytes.now (came_in exchange.new result) }
    ensures heard { result ≢ HandledIn.Silent }
{
    let Response { plain, ending } = respond(running, chain, cells, copro, bytes, exchange);
    match ending {
        Ending::Answered { reaction, finished } => {
            let rule = reaction.rule;
            finish(reaction, &mut running.channel, exchange);
            HandledIn::Answered {
                plain,
                finished,
                rule,
            }
        }
        Ending::Lost { finished } => HandledIn::Lost { plain, finished },
    }
}

/// A chip. Where it has power it has the store that it mounted and a session; beside them stands the body of a request that is
/// sent in fragments.
#[derive(Drop)]
pub struct Chip {
    running: Option<Running>,
    chain: Chain<MAX_REQUEST>,
}

impl Model for Chip {
    ghost use Rattle.std.specs.Option.{option_map};
    ghost use Rattle.eid_chip.specs.States.{ChipView, running_view};

    ghost Value = { ChipView };

    ghost view = { λ chip. record { running = option_map (running_view chip.chain.pending) chip.running } };
}

impl Chip {
    ghost use Rattle.eid_chip.specs.Fits.{Fits, Follows, Handles, IsSound, came, came_in, found, is_silence, is_off, scene};

    /// A chip without power. It fits every journal without moments.
    pub fn new() -> Chip
        ensures off { result.running ≡ None }
        ensures fits { (device : Device) (cells : List ℕ) (opening : FullRecord) → stands cells ≡ Some opening
            → Fits (scene result device cells) opening [] }
    {
        Chip {
            running: None,
            chain: Chain::new(),
        }
    }

    /// Gives the device power and mounts the record that its cells stand for. The chip begins without a
    /// session, and answers the number of commits that it found.
    ///
    /// # Errors
    /// `BadImage` exactly where the cells stand for no record; `Cut` only where the device's count of
    /// cuts rose. The chip is off then.
    pub fn power_on<E: Eeprom>(&mut self, cells: &mut E) -> Result<u32, MountError>
        ensures follows { result ≢ Err MountError.BadImage → Follows (scene self.old (E.device cells.old) (E.cells cells.old))
            (scene self.new (E.device cells.new) (E.cells cells.new)) (silent (PoweredOn (found result))) }
        // whatever the chip was, it fits the journal of this one power-on
        ensures begins { OnOk result ((opening : FullRecord) → stands (E.cells cells.old) ≡ Some opening
            → Fits (scene self.new (E.device cells.new) (E.cells cells.new)) opening (silent (PoweredOn (found result)) ∷ [])) }
        ensures sound { IsSound (scene self.new (E.device cells.new) (E.cells cells.new)) }
        ensures on { OnOk result (is_off self.new ≡ false) }
        ensures off { OnErr result (self.new.running ≡ None) }
        ensures bad_image { (result ≡ Err MountError.BadImage) ↔ (stands (E.cells cells.old) ≡ None) }
        ensures untouched { result ≡ Err MountError.BadImage → E.cells cells.new ≡ E.cells cells.old }
        ensures same { stands (E.cells cells.new) ≡ stands (E.cells cells.old) }
        ensures layout { slice_index (E.cells cells.new) 0 ≡ slice_index (E.cells cells.old) 0 }
        ensures bound { IsSome (stands (E.cells cells.old)) → mount_cost (E.cells cells.old) ≤ MOST_MOUNTING }
        ensures device { Mounts (mount_cost (E.cells cells.old)) (record (E.device cells.old) { has_power = true }) (E.device cells.new) result }
    {
        cells.power(true);
        match Store::mount(cells) {
            Ok(store) => {
                let number = store.kept().number;
                self.chain.close();
                self.running = Some(Running {
                    store,
                    session: Session::new(),
                    channel: None,
                });
                Ok(number)
            }
            Err(error) => {
                self.running = None;
                Err(error)
            }
        }
    }

    /// Takes power away from the device.
    pub fn power_off<E: Eeprom>(&mut self, cells: &mut E)
        ensures follows { Follows (scene self.old (E.device cells.old) (E.cells cells.old))
            (scene self.new (E.device cells.new) (E.cells cells.new)) (silent PoweredOff) }
        ensures off { self.new.running ≡ None }
        ensures same { E.cells cells.new ≡ E.cells cells.old }
        ensures device { E.device cells.new ≡ record (E.device cells.old) { has_power = false } }
    {
        cells.power(false);
        self.running = None;
    }

    /// Handles the bytes of a command: answers them by the first failed rule, or carries them out.
    /// `Silent` comes exactly where the chip is off, `Lost` only where the power was cut in a commit. The
    /// coprocessor's log grows by the questions of the command.
    pub fn handle<E: Eeprom, C: Coprocessor>(
        &mut self,
        bytes: &[u8],
        cells: &mut E,
        copro: &mut C,
    ) -> Handled
        requires sound { IsSound (scene self.old (E.device cells.old) (E.cells cells.old)) }
        requires room { 2 ≤ (C.seen copro.old).spare }
        ensures { Handles (C.seen copro.old) (C.seen copro.new) (scene self.old (E.device cells.old) (E.cells cells.old))
            (scene self.new (E.device cells.new) (E.cells cells.new)) bytes.now (came result) }
    {
        let mut exchange = Exchange::new();
        let came = self.handle_in(bytes, cells, copro, &mut exchange);
        came.with(exchange)
    }

    /// As `handle`, in an exchange that is lent: the body of the plain command, the answer and the bytes
    /// sent stand there, over what it held.
    pub fn handle_in<E: Eeprom, C: Coprocessor>(
        &mut self,
        bytes: &[u8],
        cells: &mut E,
        copro: &mut C,
        exchange: &mut Exchange,
    ) -> HandledIn
        requires sound { IsSound (scene self.old (E.device cells.old) (E.cells cells.old)) }
        requires room { 2 ≤ (C.seen copro.old).spare }
        ensures handles { Handles (C.seen copro.old) (C.seen copro.new) (scene self.old (E.device cells.old) (E.cells cells.old))
            (scene self.new (E.device cells.new) (E.cells cells.new)) bytes.now (came_in exchange.new result) }
        ensures unsaid { result ≡ HandledIn.Silent → exchange.new ≡ exchange.old }
    {
        let Some(running) = &mut self.running else {
            return HandledIn::Silent;
        };
        let came = handle_on(running, &mut self.chain, cells, copro, bytes, exchange);
        if !came.is_loss() {
            return came;
        }
        self.running = None;
        came
    }
}
