//! What holds of every plan and its course: the sizes of its fields, that what is next is one thing, and that it is short.
ghost use Rattle.std.specs.Prelude.{◌≡◌, ◌≤◌, ◌+◌, ℕ, List, length};
ghost use Rattle.eid_bits.specs.Template.{template_bytes};
ghost use Rattle.eid_copro.specs.declared.ask.Ask.{Ask};
ghost use Rattle.eid_terminal.specs.Courses.{Course, Reached};
ghost use Rattle.eid_terminal.specs.Moves.{Move};
ghost use Rattle.eid_terminal.specs.Plans.{HasSizes, IsFit, PlainPlan, plan_view};
ghost use Rattle.eid_terminal.specs.Terminals.{IsNext, course};

use crate::plan::Plan;
use eid_base::Point;
use eid_bits::Template;

/// How many replies, passed steps and results there are at most of one plan: six for each of two PACEs, two for each of
/// eight certificates, nine for the authentications and the selection behind them, three for each of 32 requests.
pub const MAX_TURNS: usize = 133;

/// With the same plan, asks, replies, and number of passed steps and results, at most one thing is next.
pub fn law_one_next()
    ensures { (plan : PlainPlan) (asks : List Ask) (replies : List (List ℕ)) (given : ℕ) (one other : Move)
        → IsNext plan asks replies given one → IsNext plan asks replies given other → one ≡ other }
{}

/// Along the course of a plan that can be carried out come at most 133 replies, passed steps and results.
pub fn law_few_turns()
    ensures { (plan : PlainPlan) (asks : List Ask) (replies : List (List ℕ)) (given : ℕ) (at : Course)
        → IsFit plan → Reached (course plan) asks replies given at → length replies + given ≤ 133 }
{}

/// A template has five bytes.
fn law_template_size(template: &Template)
    ensures { length (template_bytes template.now) ≡ 5 }
{
    let _bytes: &[u8] = template.as_bytes();
}

/// A point has 65 bytes.
fn law_point_size(point: &Point)
    ensures { length point.now ≡ 65 }
{
    let _bytes: &[u8] = point;
}

/// What every plan has by the types of its fields.
pub fn law_has_sizes(plan: &Plan)
    ensures { HasSizes (plan_view plan.now) }
{
    match (&plan.template, &plan.sector) {
        (Some(template), Some(sector)) => {
            law_template_size(template);
            law_point_size(sector);
        }
        (Some(template), None) => law_template_size(template),
        (None, Some(sector)) => law_point_size(sector),
        (None, None) => {}
    }
}
