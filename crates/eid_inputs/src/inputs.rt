//! What the program reads from texts: scripts, answers of a coprocessor, configurations, and plans of a terminal.
ghost use Rattle.std.specs.Prelude.{◌≡◌, ◌⊎◌, IfOk, IfErr};

use crate::exit::Exit;
use crate::loading::Input;
use eid_copro::{Answer, AnswersError, read_answers};
use eid_perso::{Config, ConfigError, KitPlan, read_config, read_kit, read_plan};
use eid_script::{Line, ScriptError, read_script};
use eid_terminal::Plan;
use std::alloc::Global;

/// A script.
impl Input for Vec<Line> {
    ghost use Rattle.std.specs.Prelude.{List, ⊤, map};
    ghost use Rattle.eid_script.specs.Scripts.{ScriptLine, plain_line, script_of};
    ghost use Rattle.eid_inputs.specs.declared.exit.Exit.TheVariants.{BadScript};
    ghost use Rattle.eid_inputs.specs.Inputs.{or_bad};

    ghost Plain = { List ScriptLine };

    ghost plain = { λ lines. map plain_line lines.items };

    ghost said = { λ text. or_bad BadScript (script_of text) };

    ghost valid = { λ lines. ⊤ };

    fn law_front() {}

    fn read(alloc: Global, text: &[u8]) -> Result<Vec<Line>, Exit> {
        match read_script(alloc, text) {
            Ok(lines) => Ok(lines),
            Err(ScriptError::Bad { line }) => Err(Exit::BadScript { line }),
            Err(ScriptError::NoMemory) => Err(Exit::NoMemory),
        }
    }
}

/// The answers of a coprocessor.
impl Input for Vec<Answer> {
    ghost use Rattle.std.specs.Prelude.{List, ⊤};
    ghost use Rattle.eid_copro.specs.Lines.{answers_of};
    ghost use Rattle.eid_copro.specs.declared.ask.Answer.{Answer as AnswerSeen};
    ghost use Rattle.eid_inputs.specs.declared.exit.Exit.TheVariants.{BadAnswers};
    ghost use Rattle.eid_inputs.specs.Inputs.{or_bad};

    ghost Plain = { List AnswerSeen };

    ghost plain = { λ answers. answers.items };

    ghost said = { λ text. or_bad BadAnswers (answers_of text) };

    ghost valid = { λ answers. ⊤ };

    fn law_front() {}

    fn read(alloc: Global, text: &[u8]) -> Result<Vec<Answer>, Exit> {
        match read_answers(alloc, text) {
            Ok(answers) => Ok(answers),
            Err(AnswersError::Bad { line }) => Err(Exit::BadAnswers { line }),
            Err(AnswersError::NoMemory) => Err(Exit::NoMemory),
        }
    }
}

/// The configuration of a chip.
impl Input for Config {
    ghost use Rattle.eid_perso.specs.Config.{IsWhole, PlainConfig, config_view};
    ghost use Rattle.eid_perso.specs.Reading.{config_of};
    ghost use Rattle.eid_inputs.specs.declared.exit.Exit.TheVariants.{BadConfig};
    ghost use Rattle.eid_inputs.specs.Inputs.{or_bad};

    ghost Plain = { PlainConfig };

    ghost plain = { config_view };

    ghost said = { λ text. or_bad BadConfig (config_of text) };

    ghost valid = { λ config. IsWhole (config_view config) };

    fn law_front() {}

    fn read(alloc: Global, text: &[u8]) -> Result<Config, Exit> {
        match read_config(alloc, text) {
            Ok(config) => Ok(config),
            Err(error) => Err(Exit::of_config(error)),
        }
    }
}

/// The configuration of a test certificate.
impl Input for KitPlan {
    ghost use Rattle.eid_cvc.specs.View.{body_view};
    ghost use Rattle.eid_cvc.specs.Writing.{IsWritable};
    ghost use Rattle.eid_perso.specs.Kit.{PlainKit, kit_view};
    ghost use Rattle.eid_perso.specs.Reading.{kit_of_text};
    ghost use Rattle.eid_inputs.specs.declared.exit.Exit.TheVariants.{BadConfig};
    ghost use Rattle.eid_inputs.specs.Inputs.{or_bad};

    ghost Plain = { PlainKit };

    ghost plain = { kit_view };

    ghost said = { λ text. or_bad BadConfig (kit_of_text text) };

    ghost valid = { λ plan. IsWritable (body_view plan.body) };

    fn law_front() {}

    fn read(alloc: Global, text: &[u8]) -> Result<KitPlan, Exit> {
        match read_kit(alloc, text) {
            Ok(plan) => Ok(plan),
            Err(error) => Err(Exit::of_config(error)),
        }
    }
}

/// The plan of a terminal.
impl Input for Plan {
    ghost use Rattle.eid_perso.specs.Reading.{plan_of_text};
    ghost use Rattle.eid_inputs.specs.declared.exit.Exit.TheVariants.{BadConfig};
    ghost use Rattle.eid_terminal.specs.Plans.{IsFit, PlainPlan, plan_view};
    ghost use Rattle.eid_inputs.specs.Inputs.{or_bad};

    ghost Plain = { PlainPlan };

    ghost plain = { plan_view };

    ghost said = { λ text. or_bad BadConfig (plan_of_text text) };

    ghost valid = { λ plan. IsFit (plan_view plan) };

    fn law_front() {}

    fn read(alloc: Global, text: &[u8]) -> Result<Plan, Exit> {
        match read_plan(alloc, text) {
            Ok(plan) => Ok(plan),
            Err(error) => Err(Exit::of_config(error)),
        }
    }
}
