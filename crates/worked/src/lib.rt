// The worked examples, gathered in one theorem.
#![tactic(auto)]

ghost use Rattle.worked.specs.Examples.{Examples};

/// The definitions give what the worked examples say.
pub fn worked_examples_stand()
    ensures { Examples }
{}
