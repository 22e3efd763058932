//! The one public call.
ghost use Rattle.std.specs.Prelude.{◌≡◌, map, string_bytes};
ghost use Rattle.eid.specs.Commands.{Command, HasNumbers, Says};
ghost use Rattle.eid.specs.Words.{command};
ghost use Rattle.eid.specs.Works.{Meets, NamesFaults, IsIdle};

use crate::big::big;
use crate::kit::kit;
use crate::make::make;
use crate::replay::replay;
use crate::run::run;
use crate::session::session;
use crate::show::show;
use crate::words::{Words, read_words};
use eid_base::{Folder, Sink};
use eid_inputs::Exit;
use std::alloc::Global;

/// Does what a command asks for.
fn carry_out<F: Folder, K: Sink>(
    alloc: Global,
    words: Words<'_>,
    folder: &mut F,
    out: &mut K,
) -> Exit
    requires { HasNumbers (command words) }
    ensures meets { Meets (command words.entry) (F.seen folder.old) (F.seen folder.new) (K.seen out.old) (K.seen out.new) result }
    ensures faults { NamesFaults (F.seen folder.old) (F.seen folder.new) (K.seen out.old) (K.seen out.new) result }
{
    match words {
        Words::Run {
            image,
            script,
            start,
        } => run(alloc, image, script, start, folder, out),
        Words::Replay {
            image,
            script,
            answers,
        } => replay(alloc, image, script, answers, folder, out),
        Words::Session {
            image,
            terminal,
            start,
        } => session(alloc, image, terminal, start, folder, out),
        Words::Big { sessions } => big(alloc, sessions, out),
        Words::Make { config, image } => make(alloc, config, image, folder),
        Words::Kit { config, file } => kit(alloc, config, file, folder),
        Words::Show { image } => show(alloc, image, folder, out),
    }
}

/// Does what the words ask for, over a folder and a sink.
///
/// # Errors
/// `Usage` exactly where the words fit no command, but for want of memory. A fault of the folder or of the sink is told
/// as such and never as another exit; `Meets` says when each of the others comes.
pub fn program<F: Folder, K: Sink>(
    alloc: Global,
    words: &[String],
    folder: &mut F,
    out: &mut K,
) -> Exit
    ensures usage { result ≡ Exit.Usage → (c : Command) → Says (map (λ s. string_bytes s) words.now) c → ⊥ }
    ensures no_command { ((c : Command) → Says (map (λ s. string_bytes s) words.now) c → ⊥)
        → IsIdle (F.seen folder.old) (F.seen folder.new) (K.seen out.old) (K.seen out.new) result }
    ensures meets { (c : Command) → Says (map (λ s. string_bytes s) words.now) c
        → Meets c (F.seen folder.old) (F.seen folder.new) (K.seen out.old) (K.seen out.new) result }
    ensures faults { NamesFaults (F.seen folder.old) (F.seen folder.new) (K.seen out.old) (K.seen out.new) result }
{
    match read_words(alloc, words) {
        Ok(Some(words)) => carry_out(alloc, words, folder, out),
        Ok(None) => Exit::Usage,
        Err(_) => Exit::NoMemory,
    }
}
