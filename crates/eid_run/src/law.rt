//! What an honest plan is promised is one thing, and a session walks along the course by which the terminal is defined.
ghost use Rattle.std.specs.Prelude.{◌≡◌, List, length, map};
ghost use Rattle.eid_copro.specs.declared.ask.Ask.{Ask};
ghost use Rattle.eid_record.specs.Plain.{FullRecord};
ghost use Rattle.eid_terminal.specs.Courses.{Course, Reached};
ghost use Rattle.eid_terminal.specs.Moves.{move_of};
ghost use Rattle.eid_terminal.specs.Plans.{PlainPlan};
ghost use Rattle.eid_terminal.specs.Terminals.{IsNext, course};
ghost use Rattle.eid_run.specs.Conversations.{Exchange, Talks, Told, reply_of};
ghost use Rattle.eid_run.specs.Honest.{IsHonest};
ghost use Rattle.eid_run.specs.Promised.{promised_report};

/// The report that a plan is promised over a record hangs on these two alone: its certificates leave one chain.
pub fn law_one_promise()
    ensures { (plan : PlainPlan) (kept : FullRecord) (one other : IsHonest plan kept)
        → promised_report plan kept one.chain ≡ promised_report plan kept other.chain }
{}

/// Where a session comes to along its plan's course is where the terminal's definition comes to with the same answers, the
/// replies of the session, and as many passed steps and results as were told; so what is next for the terminal is there.
pub fn law_one_walk()
    ensures reached { (plan : PlainPlan) (asks : List Ask) (exchanges : List Exchange) (told : List Told) (at : Course)
        → Talks (course plan) asks exchanges told at → Reached (course plan) asks (map reply_of exchanges) (length told) at }
    ensures next { (plan : PlainPlan) (asks : List Ask) (exchanges : List Exchange) (told : List Told) (at : Course)
        → Talks (course plan) asks exchanges told at → IsNext plan asks (map reply_of exchanges) (length told) (move_of at) }
{}
