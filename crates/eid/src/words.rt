//! The words of the command line.
ghost use Rattle.std.specs.Prelude.{◌≡◌, ◌<◌, ◌≤◌, ◌^◌, ◌↔◌, ◌∷◌, ℕ, codes, decimal, map, string_bytes, IsTrue, IfOk, IfSome, IfNone};
ghost use Rattle.eid.specs.Commands.{Command, Says};
ghost use Rattle.eid.specs.Words.{command};

use eid_base::NoMemory;
use eid_inputs::number;
use std::alloc::Global;

/// The most sessions that can be asked for.
const MOST_SESSIONS: u64 = 1_000;

/// What the words ask for.
#[derive(Clone, Copy)]
pub enum Words<'a> {
    /// To run a script on an image with the model coprocessor.
    Run {
        /// The name of the image's file.
        image: &'a str,
        /// The name of the script's file.
        script: &'a str,
        /// The start of the model coprocessor.
        start: u64,
    },
    /// To run a script on an image, with the coprocessor's answers from a file.
    Replay {
        /// The name of the image's file.
        image: &'a str,
        /// The name of the script's file.
        script: &'a str,
        /// The name of the answers' file.
        answers: &'a str,
    },
    /// To run a terminal with the chip of an image.
    Session {
        /// The name of the image's file.
        image: &'a str,
        /// The name of the file with the terminal's plan.
        terminal: &'a str,
        /// The start of the chip's model coprocessor.
        start: u64,
    },
    /// To run generated sessions.
    Big {
        /// How many.
        sessions: u32,
    },
    /// To write the image of a configuration.
    Make {
        /// The name of the configuration's file.
        config: &'a str,
        /// The name of the image's file.
        image: &'a str,
    },
    /// To write the test certificate of a configuration.
    Kit {
        /// The name of the configuration's file.
        config: &'a str,
        /// The name of the certificate's file.
        file: &'a str,
    },
    /// To print the record of an image.
    Show {
        /// The name of the image's file.
        image: &'a str,
    },
}

/// What the words behind `run` ask for.
fn run_words(alloc: Global, rest: &[String]) -> Result<Option<Words<'_>>, NoMemory>
    ensures found { IfOk result (λ r. IfSome r (λ w. Says (codes "run" ∷ map (λ s. string_bytes s) rest.now) (command w))) }
    ensures none { IfOk result (λ r. IfNone r ((c : Command) → Says (codes "run" ∷ map (λ s. string_bytes s) rest.now) c → ⊥)) }
{
    let [image, script, start] = rest else {
        return Ok(None);
    };
    let Some(start) = number(alloc, start.as_str())? else {
        return Ok(None);
    };
    Ok(Some(Words::Run {
        image: image.as_str(),
        script: script.as_str(),
        start,
    }))
}

/// What the words behind `replay` ask for.
fn replay_words(rest: &[String]) -> Option<Words<'_>>
    ensures found { IfSome result (λ w. Says (codes "replay" ∷ map (λ s. string_bytes s) rest.now) (command w)) }
    ensures none { IfNone result ((c : Command) → Says (codes "replay" ∷ map (λ s. string_bytes s) rest.now) c → ⊥) }
{
    let [image, script, answers] = rest else {
        return None;
    };
    Some(Words::Replay {
        image: image.as_str(),
        script: script.as_str(),
        answers: answers.as_str(),
    })
}

/// What the words behind `session` ask for.
fn session_words(alloc: Global, rest: &[String]) -> Result<Option<Words<'_>>, NoMemory>
    ensures found { IfOk result (λ r. IfSome r (λ w. Says (codes "session" ∷ map (λ s. string_bytes s) rest.now) (command w))) }
    ensures none { IfOk result (λ r. IfNone r ((c : Command) → Says (codes "session" ∷ map (λ s. string_bytes s) rest.now) c → ⊥)) }
{
    let [image, terminal, start] = rest else {
        return Ok(None);
    };
    let Some(start) = number(alloc, start.as_str())? else {
        return Ok(None);
    };
    Ok(Some(Words::Session {
        image: image.as_str(),
        terminal: terminal.as_str(),
        start,
    }))
}

/// The number of sessions that a text says in decimal.
fn sessions_in(alloc: Global, text: &str) -> Result<Option<u32>, NoMemory>
    ensures found { IfOk result (λ r. IfSome r (λ n. (1 ≤ n) × (n ≤ 1000) × (text.now ≡ decimal n))) }
    ensures none { IfOk result (λ r. IfNone r ((n : ℕ) → 1 ≤ n → n ≤ 1000 → text.now ≡ decimal n → ⊥)) }
{
    let Some(count) = number(alloc, text)? else {
        return Ok(None);
    };
    if count < 1 || count > MOST_SESSIONS {
        return Ok(None);
    }
    Ok(Some(count as u32))
}

/// What the words behind `big` ask for.
fn big_words(alloc: Global, rest: &[String]) -> Result<Option<Words<'_>>, NoMemory>
    ensures found { IfOk result (λ r. IfSome r (λ w. Says (codes "big" ∷ map (λ s. string_bytes s) rest.now) (command w))) }
    ensures none { IfOk result (λ r. IfNone r ((c : Command) → Says (codes "big" ∷ map (λ s. string_bytes s) rest.now) c → ⊥)) }
{
    let [sessions] = rest else {
        return Ok(None);
    };
    let Some(sessions) = sessions_in(alloc, sessions.as_str())? else {
        return Ok(None);
    };
    Ok(Some(Words::Big { sessions }))
}

/// What the words behind `make` ask for.
fn make_words(rest: &[String]) -> Option<Words<'_>>
    ensures found { IfSome result (λ w. Says (codes "make" ∷ map (λ s. string_bytes s) rest.now) (command w)) }
    ensures none { IfNone result ((c : Command) → Says (codes "make" ∷ map (λ s. string_bytes s) rest.now) c → ⊥) }
{
    let [config, image] = rest else {
        return None;
    };
    Some(Words::Make {
        config: config.as_str(),
        image: image.as_str(),
    })
}

/// What the words behind `kit` ask for.
fn kit_words(rest: &[String]) -> Option<Words<'_>>
    ensures found { IfSome result (λ w. Says (codes "kit" ∷ map (λ s. string_bytes s) rest.now) (command w)) }
    ensures none { IfNone result ((c : Command) → Says (codes "kit" ∷ map (λ s. string_bytes s) rest.now) c → ⊥) }
{
    let [config, file] = rest else {
        return None;
    };
    Some(Words::Kit {
        config: config.as_str(),
        file: file.as_str(),
    })
}

/// What the words behind `show` ask for.
fn show_words(rest: &[String]) -> Option<Words<'_>>
    ensures found { IfSome result (λ w. Says (codes "show" ∷ map (λ s. string_bytes s) rest.now) (command w)) }
    ensures none { IfNone result ((c : Command) → Says (codes "show" ∷ map (λ s. string_bytes s) rest.now) c → ⊥) }
{
    let [image] = rest else {
        return None;
    };
    Some(Words::Show {
        image: image.as_str(),
    })
}

/// What the words ask for, `None` exactly where they are of no command.
pub fn read_words(alloc: Global, words: &[String]) -> Result<Option<Words<'_>>, NoMemory>
    ensures found { IfOk result (λ r. IfSome r (λ w. Says (map (λ s. string_bytes s) words.now) (command w))) }
    ensures none { IfOk result (λ r. IfNone r ((c : Command) → Says (map (λ s. string_bytes s) words.now) c → ⊥)) }
{
    let [first, rest @ ..] = words else {
        return Ok(None);
    };
    match first.as_str() {
        "run" => run_words(alloc, rest),
        "replay" => Ok(replay_words(rest)),
        "session" => session_words(alloc, rest),
        "big" => big_words(alloc, rest),
        "make" => Ok(make_words(rest)),
        "kit" => Ok(kit_words(rest)),
        "show" => Ok(show_words(rest)),
        _ => Ok(None),
    }
}
