//! What a session leaves from one command to the next.
ghost use Rattle.std.specs.Prelude.{◌≡◌};

use arrayvec::ArrayVec;
use eid_bits::Template;
use eid_ca::CaChosen;
use eid_cvc::{ChainState, TerminalKnown};
use eid_pace::{Agreed, Chosen, Mapped, NonceSent};
use eid_record::{FileNo, Password};
use eid_ta::{Announced, Challenged};
use std::mem;

/// The longest name of a public key, in bytes.
pub const MAX_NAME: usize = 16;

/// Where a run stands. Each step of a protocol consumes what the step before it left.
#[derive(Drop)]
pub enum Run {
    /// There is no run.
    Idle,
    /// A password was chosen for PACE.
    Chosen(Chosen),
    /// The nonce was sent.
    NonceSent(NonceSent),
    /// The nonce was mapped to a base.
    Mapped(Mapped),
    /// The ephemeral points gave a secret.
    Agreed(Agreed),
    /// The public key with this name is to verify the next certificate.
    KeyChosen(ArrayVec<u8, MAX_NAME>),
    /// Restricted identification was chosen.
    RiChosen,
}

/// Where the authentication of a terminal or of the chip stands. It stands beside the run, since an announcement has over
/// 2,000 bytes: a command that has nothing to do with it leaves them where they are.
#[derive(Drop)]
pub enum Authentication {
    /// None was begun.
    NotBegun,
    /// A terminal has announced itself.
    Announced {
        /// The chip's identity in the last PACE.
        identity: [u8; 32],
        /// What it announced.
        announced: Announced,
    },
    /// The challenge was sent to a terminal.
    Challenged {
        /// The chip's identity in the last PACE.
        identity: [u8; 32],
        /// What it announced, and the challenge.
        challenged: Challenged,
    },
    /// Chip authentication was chosen.
    CaChosen(CaChosen),
}

/// What is asked of the last PACE later.
#[derive(Clone, Copy)]
pub struct LastPace {
    /// The password.
    pub password: Password,
    /// The holder's template, where one was sent.
    pub template: Option<Template>,
    /// The X half of the chip's ephemeral point.
    pub identity: [u8; 32],
}

/// What a session keeps wherever its run stands.
#[derive(Drop)]
pub struct Memory {
    /// Whether the application is selected.
    pub selected: bool,
    /// The file last named.
    pub current: Option<FileNo>,
    /// The last PACE.
    pub pace: Option<LastPace>,
    /// What the certificates accepted since then leave.
    pub certificates: ChainState,
    /// The terminal that has authenticated itself since then.
    pub terminal: Option<TerminalKnown>,
    /// Whether the chip has authenticated itself since then.
    pub chip_proven: bool,
}

/// The session of a chip with power. It is changed where it stands.
#[derive(Drop)]
pub struct Session {
    /// Where the run stands.
    pub run: Run,
    /// Where the authentication stands.
    pub authentication: Authentication,
    /// What is kept beside them.
    pub memory: Memory,
}

/// What a commit changes in a session beside its run.
#[derive(Drop)]
pub enum Change {
    /// Nothing.
    Nothing,
    /// Other certificates count.
    Certificates(ChainState),
    /// Another file is the current one.
    Current(FileNo),
}

impl Session {
    ghost use Rattle.std.specs.Prelude.{Option, None};
    ghost use Rattle.eid_sm.specs.Keys.{ChannelState};
    ghost use Rattle.eid_model.specs.Sessions.{fresh};
    ghost use Rattle.eid_chip.specs.States.{state};
    ghost use Rattle.eid_chip.specs.Transitions.{with_change, without_run};

    /// The session that power begins.
    pub fn new() -> Session
        ensures { state result None ≡ fresh }
    {
        Session {
            run: Run::Idle,
            authentication: Authentication::NotBegun,
            memory: Memory::new(),
        }
    }

    /// Makes it the session that power begins.
    pub fn forget(&mut self)
        ensures forgot { state self.new None ≡ fresh }
        ensures idle { self.new.run ≡ Run.Idle }
    {
        self.end_run();
        self.memory = Memory::new();
    }

    /// Ends the run and the authentication. Each is made idle only where it is not, so that no bytes are cleared for nothing.
    pub fn end_run(&mut self)
        ensures idle { (self.new.run ≡ Run.Idle) × (self.new.authentication ≡ Authentication.NotBegun) }
        ensures memory { self.new.memory ≡ self.old.memory }
    {
        if !matches!(self.run, Run::Idle) {
            self.run = Run::Idle;
        }
        if !matches!(self.authentication, Authentication::NotBegun) {
            self.authentication = Authentication::NotBegun;
        }
    }

    /// Takes the run out of the session, which has neither a run nor an authentication then.
    pub fn take_run(&mut self) -> Run
        ensures run { result ≡ self.old.run }
        ensures idle { (self.new.run ≡ Run.Idle) × (self.new.authentication ≡ Authentication.NotBegun) }
        ensures memory { self.new.memory ≡ self.old.memory }
    {
        let run = mem::replace(&mut self.run, Run::Idle);
        self.end_run();
        run
    }

    /// Takes the authentication out of the session, which has neither a run nor an authentication then.
    pub fn take_authentication(&mut self) -> Authentication
        ensures authentication { result ≡ self.old.authentication }
        ensures idle { (self.new.run ≡ Run.Idle) × (self.new.authentication ≡ Authentication.NotBegun) }
        ensures memory { self.new.memory ≡ self.old.memory }
    {
        let authentication = mem::replace(&mut self.authentication, Authentication::NotBegun);
        self.end_run();
        authentication
    }

    /// Makes the run stand here, without an authentication.
    pub fn go_on(&mut self, run: Run)
        ensures { self.new ≡ record { run = run; authentication = Authentication.NotBegun; memory = self.old.memory } }
    {
        self.end_run();
        self.run = run;
    }

    /// Makes the authentication stand here, without a run.
    pub fn authenticate(&mut self, authentication: Authentication)
        ensures { self.new ≡ record { run = Run.Idle; authentication = authentication; memory = self.old.memory } }
    {
        self.end_run();
        self.authentication = authentication;
    }

    /// Ends the run, and makes this change.
    pub fn leave(&mut self, change: Change)
        ensures left { (channel : Option ChannelState) → state self.new channel ≡ with_change change (without_run (state self.old channel)) }
        ensures idle { self.new.run ≡ Run.Idle }
    {
        self.end_run();
        match change {
            Change::Nothing => {}
            Change::Certificates(certificates) => self.memory.certificates = certificates,
            Change::Current(file) => self.memory.current = Some(file),
        }
    }
}

impl Memory {
    ghost use Rattle.std.specs.Prelude.{None, option_map};
    ghost use Rattle.eid_model.specs.Rules.{was_with};
    ghost use Rattle.eid_model.specs.Sessions.{fresh};
    ghost use Rattle.eid_password.specs.Passwords.{is_can};
    ghost use Rattle.eid_chip.specs.States.{memory, state};

    /// What a session keeps that power begins: nothing.
    pub fn new() -> Memory
        ensures { state (record { run = Run.Idle; authentication = Authentication.NotBegun; memory = result }) None ≡ fresh }
    {
        Memory {
            selected: false,
            current: None,
            pace: None,
            certificates: ChainState::new(),
            terminal: None,
            chip_proven: false,
        }
    }

    /// The password of the last PACE, where there was one.
    pub fn last_password(&self) -> Option<Password>
        ensures { result ≡ option_map (λ pace. pace.password) self.now.pace }
    {
        match &self.pace {
            Some(pace) => Some(pace.password),
            None => None,
        }
    }

    /// Whether the last PACE was with the CAN.
    pub fn was_with_can(&self) -> bool
        ensures { result ≡ was_with is_can (option_map memory self.now.pace) }
    {
        match &self.pace {
            Some(pace) => match pace.password {
                Password::Can => true,
                Password::Pin => false,
                Password::Puk => false,
            },
            None => false,
        }
    }
}
