//! The grammar of answers.
ghost use Rattle.eid_copro.specs.Grammar.{ReadsTheGrammar};

/// Law: a text of at most 1,048,576 bytes is read to these answers exactly where the grammar writes it for them, and is
/// refused by the number of a line exactly where that is the first that the grammar does not write.
pub fn law_answers_grammar()
    ensures { ReadsTheGrammar }
{}
