//! The grammar of scripts.
ghost use Rattle.eid_script.specs.Grammar.{ReadsTheGrammar};

/// Law: a text of at most 1,048,576 bytes is read to these lines exactly where the grammar
/// writes it for them. So it is refused exactly where it is outside the grammar, and no text
/// says two things.
pub fn law_script_grammar()
    ensures { ReadsTheGrammar }
{}
